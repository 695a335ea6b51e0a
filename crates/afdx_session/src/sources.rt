//! A run whose captures are read in pieces.

ghost use Rattle.std.specs.Prelude.{◌≡◌, ◌<◌, ◌==◌, List, length, map, position, true, IfOk, IfErr, IfSome, IfNone};
ghost use Rattle.std.specs.List.{AllByRecursion};
ghost use Rattle.afdx_session.specs.Outcome.{table_in, is_cleared};
ghost use Rattle.afdx_session.specs.Texts.{Text};
ghost use Rattle.afdx_session.specs.Sources.{AreRead, IsSourceFault};
ghost use Rattle.afdx_session.specs.Written.{IsWritten};
ghost use Rattle.afdx_session.specs.Measured.{IsMeasuredRun};
ghost use Rattle.afdx_session.specs.Inner.Sources.{IsOfBytes, source_fault, IsOfTable, IsNextAt, AreReadUpTo, AreAtEnd, ReadsOn, GoesOnReading};
ghost use Rattle.afdx_session.specs.Inner.Stop.{IsStopSince};

use crate::laws::takes_join_to_the_output;
use crate::plan::{Plan, RunFault};
use crate::rest::Rest;
use crate::session::Session;
use crate::stop::{Stop, stop_of};
use afdx_count::Counts;
use afdx_folder::NewFile;
use afdx_measure::{Measured, Wanted};
use afdx_pcap::PcapFault;
use afdx_table::PortRow;
use std::alloc::{AllocError, Allocator};
use std::io::{ErrorKind, Read};
use thiserror::Error;

/// How many bytes one read gives at most (profile): so few that the pieces of 24 captures, and their records, stay at hand.
const PIECE: usize = 16_384;

/// Why a run whose captures are read in pieces has no outcome.
#[derive(Clone, Copy, Debug, PartialEq, Eq, Error)]
pub enum SourceFault {
    /// Out of memory.
    #[error("Memory")]
    Memory,
    /// A reader failed, the one at this place. That it failed, and is the first that did, is tested only.
    #[error("Read")]
    Read(usize),
    /// The port's text is no capture, and this is its first fault. The texts are what the readers give, and those of the lower ports are captures.
    #[error("Capture")]
    Capture(u8, PcapFault),
}

impl From<AllocError> for SourceFault {
    ghost use Rattle.afdx_session.specs.declared.sources.SourceFault.TheVariants.{Memory};

    ghost from_gives = { λ _ e. e ≡ Memory };

    fn from(_error: AllocError) -> SourceFault {
        SourceFault::Memory
    }
}

/// Turns a fault of the session into one of the run: the session has the port, is open there, and no call of it has failed.
fn source_fault(fault: RunFault) -> SourceFault
    requires { IsOfBytes fault }
    ensures { result ≡ source_fault fault }
{
    match fault {
        RunFault::Memory => SourceFault::Memory,
        RunFault::Capture(port, why) => SourceFault::Capture(port, why),
        RunFault::WrongPorts | RunFault::Closed | RunFault::Failed => unreachable!(),
    }
}

/// Lists the numbers of these ports.
fn numbers_of<A: Allocator + Copy>(alloc: A, ports: &[PortRow]) -> Result<Vec<u8, A>, AllocError>
    ensures { IfOk result (λ numbers. numbers.items ≡ map (λ p. p.id) ports.now) }
{
    let mut numbers = Vec::new(alloc);
    for row in ports {
        numbers.push(row.id)?;
    }
    Ok(numbers)
}

/// Returns the place of a number, if it is there. O(numbers).
fn place_of(numbers: &[u8], port: u8) -> Option<usize>
    ensures { result ≡ position (λ n. n == port) numbers.now }
{
    numbers.iter().position(|number| *number == port)
}

/// Returns the place and the port of the capture that holds back the output; none if all have ended. O(ports).
fn next_place<A: Allocator + Copy>(session: &Session<A>, ports: &[u8]) -> Option<(usize, u8)>
    requires of { IsOfTable session.now.table session.now }
    requires ports { ports.now ≡ map (λ p. p.id) session.now.table.ports }
    ensures some { IfSome result (λ next. IsNextAt session.now ports.now next.0 next.1) }
    ensures none { IfNone result (AllByRecursion (λ i. i.closed ≡ true) session.now.intakes) }
{
    let Some(port) = session.waits_for() else {
        return None;
    };
    let Some(place) = place_of(ports, port) else {
        unreachable!();
    };
    Some((place, port))
}

/// Reads once more from the capture at a place, which holds back the output. What it gives goes to the session; of what goes out then,
/// an output of at least a part goes to its port's file. Returns whether any read is still to be made. None is left at the end of the
/// last capture that has not ended, which the session is to end itself.
fn read_on<A: Allocator + Copy, R: Read, F: NewFile>(
    session: Session<A>,
    ports: &[u8],
    place: usize,
    port: u8,
    readers: &mut [R],
    files: &mut [F],
    piece: &mut [u8],
) -> Result<(Session<A>, bool), Stop<A>>
    requires of { IsOfTable session.table session }
    requires ports { ports.now ≡ map (λ p. p.id) session.table.ports }
    requires next { IsNextAt session ports.now place port }
    requires readers { length readers.old ≡ length ports.now }
    requires files { length files.old ≡ length ports.now }
    requires room { 0 < length piece.old }
    ensures room { length piece.new ≡ length piece.old }
    ensures ok { IfOk result (λ both. ReadsOn R.remaining F.contents session readers.old files.old both.1 both.0 readers.new files.new) }
    ensures err { IfErr result (λ why. IsStopSince R.remaining session readers.old readers.new why) }
{
    takes_join_to_the_output();
    match readers[place].read(piece) {
        Ok(0) => {
            if session.is_last(port) {
                return Ok((session, false));
            }
            match session.close_into(port, files) {
                Ok(session) => Ok((session, true)),
                Err((fault, lanes)) => Err(stop_of(place, fault, lanes)),
            }
        }
        Ok(count) => match session.feed_into(port, &piece[..count], files) {
            Ok(session) => Ok((session, true)),
            Err((fault, lanes)) => Err(stop_of(place, fault, lanes)),
        },
        Err(e) => {
            if e.kind() != ErrorKind::Interrupted {
                return Err(Stop::Read(place));
            }
            Ok((session, true))
        }
    }
}

/// Reads all captures to their ends, and ends all but the last. What goes out goes to the files, in parts.
fn read_all<A: Allocator + Copy, R: Read, F: NewFile>(
    start: Session<A>,
    ports: &[u8],
    readers: &mut [R],
    files: &mut [F],
    piece: &mut [u8],
) -> Result<Session<A>, Stop<A>>
    requires of { IsOfTable start.table start }
    requires ports { ports.now ≡ map (λ p. p.id) start.table.ports }
    requires readers { length readers.old ≡ length ports.now }
    requires files { length files.old ≡ length ports.now }
    requires room { 0 < length piece.old }
    ensures room { length piece.new ≡ length piece.old }
    ensures ok { IfOk result (λ session. GoesOnReading R.remaining F.contents start readers.old files.old session readers.new files.new
        × ((first : List R) → AreReadUpTo R.remaining start first readers.old → AreAtEnd R.remaining readers.new)) }
    ensures err { IfErr result (λ why. IsStopSince R.remaining start readers.old readers.new why) }
{
    let mut session = start;
    for _turn in 0..u64::MAX {
        let Some((place, port)) = next_place(&session, ports) else {
            return Ok(session);
        };
        let more;
        (session, more) = read_on(session, ports, place, port, readers, files, piece)?;
        if !more {
            return Ok(session);
        }
    }
    match next_place(&session, ports) {
        Some((next, _)) => Err(Stop::Read(next)),
        None => Ok(session),
    }
}

/// Makes the run of [`run`](crate::run) over captures that readers give, of the table's ports by rising number. The outputs go to the
/// files of the ports, in parts while it goes on. Returns the counts. Of each capture no more is kept than a piece and the pieces that
/// records which wait came in.
///
/// Of the captures that have not ended, the one whose last record is the earliest is read next, by at most 16,384 bytes (profile).
///
/// # Errors
///
/// `Memory` if memory ran out; `Read` with the place of a reader, if one failed; `Capture` with the lowest port whose text is no capture,
/// and its first fault; the texts are then all that the readers give, if that is known.
///
/// If a read fails or a capture has a fault, the others are read on to their ends, by rising port, up to the first that cannot be read,
/// and none is read twice. So the reader of `Read` is the first that failed, which is tested only: no contract says why a reader fails.
/// After an error nothing is said of what the files have, of which some may have parts of an output. A file that fails is no error here:
/// it answers when it is settled.
///
/// A frame's bytes are copied when they come, and when it goes out, once for each port that sends it. O(links + ports), O(1)
/// for each record, O(ports) for each read, and O(bytes), beside the switch's own work.
pub fn run_from<A: Allocator + Copy, R: Read, F: NewFile>(
    alloc: A,
    plan: Plan,
    readers: &mut [R],
    files: &mut [F],
) -> Result<Counts<A>, SourceFault>
    requires readers { length readers.old ≡ length (table_in plan).ports }
    requires files { length files.old ≡ length (table_in plan).ports }
    ensures ok { IfOk result (λ counts. (texts : List Text) × AreRead R.remaining readers.old texts
        × IsWritten F.contents (table_in plan) texts files.old files.new counts) }
    ensures err { IfErr result (λ fault. IsSourceFault R.remaining (table_in plan) readers.old fault) }
{
    let Rest { counts, .. } = run_all(alloc, plan, Wanted::Nothing, readers, files)?;
    Ok(counts)
}

/// Makes the run of [`run_from`], of which this is wanted beside its output, and returns the switch that is left.
fn run_all<A: Allocator + Copy, R: Read, F: NewFile>(
    alloc: A,
    plan: Plan,
    wanted: Wanted,
    readers: &mut [R],
    files: &mut [F],
) -> Result<Rest<'static, A>, SourceFault>
    requires readers { length readers.old ≡ length (table_in plan).ports }
    requires files { length files.old ≡ length (table_in plan).ports }
    ensures ok { IfOk result (λ rest. (texts : List Text) × AreRead R.remaining readers.old texts
        × IsWritten F.contents (table_in plan) texts files.old files.new rest.counts
        × IsMeasuredRun (is_cleared plan) (table_in plan) texts rest.counts rest.state) }
    ensures err { IfErr result (λ fault. IsSourceFault R.remaining (table_in plan) readers.old fault) }
{
    takes_join_to_the_output();
    let ports = numbers_of(alloc, plan.table().ports())?;
    let mut piece = vec![in alloc; 0u8; PIECE]?;
    let session = match Session::wanting(alloc, plan, wanted) {
        Ok(session) => session,
        Err(fault) => return Err(source_fault(fault)),
    };
    let session = match read_all(session, &ports, readers, files, &mut piece) {
        Ok(session) => session,
        Err(stop) => return Err(stop.first_failure(readers, &mut piece)),
    };
    match session.end_into(files) {
        Ok(rest) => Ok(rest),
        Err(fault) => Err(source_fault(fault)),
    }
}

/// A file that keeps nothing.
#[derive(Drop)]
struct Nowhere {}

impl NewFile for Nowhere {
    fn append(&mut self, _bytes: &[u8]) -> Result<(), AllocError> {
        Ok(())
    }
}

/// Makes a file that keeps nothing for each of so many ports.
fn to_nowhere<A: Allocator + Copy>(alloc: A, count: usize) -> Result<Vec<Nowhere, A>, AllocError>
    ensures { IfOk result (λ files. length files.items ≡ count) }
{
    let mut files = Vec::new(alloc);
    for _place in 0..count {
        files.push(Nowhere {})?;
    }
    Ok(files)
}

/// Makes the run of [`run_from`], of which nothing goes out. Returns its counts, and what was wanted of it.
///
/// The errors are those of [`run_from`], in its order; so is the cost.
pub fn measured_from<A: Allocator + Copy, R: Read>(
    alloc: A,
    plan: Plan,
    wanted: Wanted,
    readers: &mut [R],
) -> Result<(Counts<A>, Measured<'static, A>), SourceFault>
    requires { length readers.old ≡ length (table_in plan).ports }
    ensures ok { IfOk result (λ both. (texts : List Text) × AreRead R.remaining readers.old texts
        × IsMeasuredRun (is_cleared plan) (table_in plan) texts both.0 both.1) }
    ensures err { IfErr result (λ fault. IsSourceFault R.remaining (table_in plan) readers.old fault) }
{
    let mut files = to_nowhere(alloc, plan.table().ports().len())?;
    let Rest { switch, counts, .. } = run_all(alloc, plan, wanted, readers, &mut files)?;
    Ok((counts, switch))
}
