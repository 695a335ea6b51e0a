//! Where a run over readers stopped, and which failure it answers.

ghost use Rattle.std.specs.Prelude.{◌≡◌, ◌≤◌, ◌<◌, ◌+◌, ◌++◌, ℕ, List, length, take, IfOk, IfErr};
ghost use Rattle.afdx_folder.specs.Input.{AreGiven};
ghost use Rattle.afdx_table.specs.Content.{Content};
ghost use Rattle.afdx_session.specs.Texts.{Text};
ghost use Rattle.afdx_session.specs.Sources.{IsSourceFault, HasFirstFault};
ghost use Rattle.afdx_session.specs.Inner.Stop.{IsOn, AreOn, IsStop, stop_of, AreStoppedAt, IsEndOf, AreReadOut, IsFoundIn, first_found, IsUnread};

use crate::lane::Lane;
use crate::plan::RunFault;
use crate::sources::SourceFault;
use afdx_pcap::PcapFault;
use afdx_pcap::laws::early_faults_stay;
use std::alloc::Allocator;
use std::io::{ErrorKind, Read};

/// Where a run over readers stopped.
#[derive(Drop)]
pub(crate) enum Stop<A: Allocator> {
    /// Memory ran out.
    Memory,
    /// The reader at a place failed.
    Read(usize),
    /// The capture at a place has a fault; what there is of all captures may be read on.
    Capture(usize, PcapFault, Vec<Lane<'static, A>, A>),
}

/// Returns where a run stopped for this fault of the capture at a place.
pub(crate) fn stop_of<A: Allocator>(
    place: usize,
    fault: RunFault,
    lanes: Vec<Lane<'static, A>, A>,
) -> Stop<A>
    ensures { result ≡ stop_of place fault lanes.entry }
{
    match fault {
        RunFault::Capture(_, why) => Stop::Capture(place, why, lanes),
        RunFault::Memory | RunFault::WrongPorts | RunFault::Closed | RunFault::Failed =>
            Stop::Memory,
    }
}

/// Reads the rest of a capture of which nothing more is asked than whether it can be read.
fn read_out<R: Read>(place: usize, reader: &mut R, piece: &mut [u8]) -> Result<(), SourceFault>
    requires { 0 < length piece.old }
    ensures room { length piece.new ≡ length piece.old }
    ensures err { IfErr result (λ fault. IsUnread (place + 1) fault) }
{
    for _turn in 0..u64::MAX {
        match reader.read(piece) {
            Ok(0) => return Ok(()),
            Ok(_) => {}
            Err(e) => {
                if e.kind() != ErrorKind::Interrupted {
                    return Err(SourceFault::Read(place));
                }
            }
        }
    }
    Err(SourceFault::Read(place))
}

/// Reads the rest of the captures from one place to another.
fn read_all_out<R: Read>(
    readers: &mut [R],
    from: usize,
    to: usize,
    piece: &mut [u8],
) -> Result<(), SourceFault>
    requires room { 0 < length piece.old }
    requires readers { to ≤ length readers.old }
    ensures room { length piece.new ≡ length piece.old }
    ensures many { length readers.new ≡ length readers.old }
    ensures err { IfErr result (λ fault. IsUnread to fault) }
{
    for place in from..to {
        read_out(place, &mut readers[place], piece)?;
    }
    Ok(())
}

/// Reads a capture on to its end, and returns its first fault, if it has one. O(what is left of it).
fn read_through<A: Allocator + Copy, R: Read>(
    place: usize,
    lane: &mut Lane<'static, A>,
    reader: &mut R,
    piece: &mut [u8],
) -> Result<Option<PcapFault>, SourceFault>
    requires room { 0 < length piece.old }
    requires on { IsOn (R.remaining reader.old) lane.old }
    ensures room { length piece.new ≡ length piece.old }
    ensures ok { IfOk result (λ found. (more : List ℕ) × AreGiven (R.remaining reader.old) more × IsEndOf (lane.old.reader.bytes ++ more) found) }
    ensures err { IfErr result (λ fault. IsUnread (place + 1) fault) }
{
    early_faults_stay();
    if lane.reader.is_closed() {
        return Ok(lane.end()?);
    }
    for _turn in 0..u64::MAX {
        match reader.read(piece) {
            Ok(0) => return Ok(lane.end()?),
            Ok(count) => {
                if let Some(why) = lane.skim(&piece[..count])? {
                    read_out(place, reader, piece)?;
                    return Ok(Some(why));
                }
            }
            Err(e) => {
                if e.kind() != ErrorKind::Interrupted {
                    return Err(SourceFault::Read(place));
                }
            }
        }
    }
    Err(SourceFault::Read(place))
}

/// Returns the first of two faults: the one that was found, else this one of a port, if there is one.
fn first_found(
    found: Option<(u8, PcapFault)>,
    port: u8,
    why: Option<PcapFault>,
) -> Option<(u8, PcapFault)>
    ensures { result ≡ first_found found port why }
{
    match (found, why) {
        (None, Some(why)) => Some((port, why)),
        (found, _) => found,
    }
}

/// Reads the captures before a place on to their ends, and returns the first fault, if one of them has one.
fn fault_before<A: Allocator + Copy, R: Read>(
    lanes: &mut [Lane<'static, A>],
    readers: &mut [R],
    place: usize,
    piece: &mut [u8],
) -> Result<Option<(u8, PcapFault)>, SourceFault>
    requires room { 0 < length piece.old }
    requires lanes { place ≤ length lanes.old }
    requires readers { place ≤ length readers.old }
    requires on { AreOn R.remaining place readers.old lanes.old }
    ensures room { length piece.new ≡ length piece.old }
    ensures many { length readers.new ≡ length readers.old }
    ensures ok { IfOk result (λ found. (texts : List Text) × AreReadOut R.remaining (take place lanes.old) (take place readers.old) texts × IsFoundIn texts found) }
    ensures err { IfErr result (λ fault. IsUnread place fault) }
{
    let mut found = None;
    for at in 0..place {
        let lane = &mut lanes[at];
        let port = lane.port;
        let why = read_through(at, lane, &mut readers[at], piece)?;
        found = first_found(found, port, why);
    }
    Ok(found)
}

/// Returns the first fault of all captures, of which the one at a place has this fault. Those before it are read on to their
/// ends, and the rest of it and of those after it is read.
fn fault_of_all<A: Allocator + Copy, R: Read>(
    lanes: &mut [Lane<'static, A>],
    readers: &mut [R],
    place: usize,
    why: PcapFault,
    piece: &mut [u8],
) -> Result<(u8, PcapFault), SourceFault>
    requires room { 0 < length piece.old }
    requires stopped { (t : Content) × (first : List R) × AreStoppedAt R.remaining t first readers.old place why lanes.old }
    ensures ok { IfOk result (λ found. (t : Content) (first : List R) → AreStoppedAt R.remaining t first readers.old place why lanes.old
        → HasFirstFault R.remaining t first found.0 found.1) }
    ensures err { IfErr result (λ fault. IsUnread (length readers.old) fault) }
{
    early_faults_stay();
    let port = lanes[place].port;
    let found = fault_before(lanes, readers, place, piece)?;
    read_all_out(readers, place, readers.len(), piece)?;
    Ok(found.unwrap_or((port, why)))
}

impl<A: Allocator + Copy> Stop<A> {
    /// Returns the failure that is answered: the first capture that cannot be read; else the first that has a fault, with its
    /// first one.
    ///
    /// So each capture is read on to its end, by rising place, up to the first that cannot be read, and none is read again.
    /// O(what is left of them).
    pub(crate) fn first_failure<R: Read>(self, readers: &mut [R], piece: &mut [u8]) -> SourceFault
        requires room { 0 < length piece.old }
        requires stopped { (t : Content) × (first : List R) × IsStop R.remaining t first readers.old self }
        ensures { (t : Content) (first : List R) → IsStop R.remaining t first readers.old self → IsSourceFault R.remaining t first result }
    {
        match self {
            Stop::Memory => SourceFault::Memory,
            Stop::Read(place) => match read_all_out(readers, 0, place, piece) {
                Ok(()) => SourceFault::Read(place),
                Err(fault) => fault,
            },
            Stop::Capture(place, why, mut lanes) => {
                match fault_of_all(&mut lanes, readers, place, why, piece) {
                    Ok((port, why)) => SourceFault::Capture(port, why),
                    Err(fault) => fault,
                }
            }
        }
    }
}
