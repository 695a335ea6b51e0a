//! What the machine has of one port.

ghost use Rattle.std.specs.Prelude.{◌≡◌, ◌<◌, ◌≤◌, ◌-◌, ◌^◌, ◌==◌, ◌++◌, ℕ, true, false, take, None, Some, Ok, List, length, IfOk, IfErr, OnOk, IfSome, IfNone, Option, is_some};
ghost use Rattle.std.specs.Prelude.{if◌then◌else◌, ◌+◌, IsTrue, ◌↔◌, ◌||◌, position, find};
ghost use Rattle.std.specs.List.{list_all};
ghost use Rattle.afdx_pcap.specs.Record as pcap;
ghost use Rattle.afdx_pcap.specs.Reading.{Answers};
ghost use Rattle.afdx_session.specs.Lanes.{IsPieceFault};
ghost use Rattle.afdx_session.specs.Inner.Settled.{IsWithin};
ghost use Rattle.afdx_session.specs.Inner.Lanes.{HasReadAll, HasDrawn, IsReadOn, Adds, IsLaneFault, limit_at, best_place, head_of, heads_of, IsStill, GoesAt};
ghost use Rattle.afdx_earliest.specs.Instants.{IsFirstUpTo};
ghost use Rattle.afdx_session.specs.Inner.Lanes.{NoneGoes};
ghost use Rattle.afdx_session.specs.Inner.Lent.{IsOver};
ghost use Rattle.afdx_session.specs.Inner.Files.{HandsOver};
ghost use Rattle.std.specs.Io.KnownBytes.{Appends};
ghost use Rattle.afdx_session.specs.Reading.{IsFaultAt};
ghost use Rattle.afdx_session.specs.Inner.View.{IsFreshLane, AreFreshLanes, IsSettledLane, IsTaken, IsOpenAt, intakes_of};
ghost use Rattle.afdx_session.specs.Inner.Stop.{MayReadOn, IsSkimmed, IsEndOf};
ghost use Rattle.afdx_session.specs.Session.{refusal_at};

use crate::plan::RunFault;
use afdx_earliest::{Dues, Instants};
use afdx_filter::with_place;
use afdx_folder::NewFile;
use afdx_pcap::laws::taken_records_are_the_first;
use afdx_pcap::{PcapFault, Reader, Record, write_header};
use afdx_table::{PortRow, Table};
use afdx_units::Stamp;
use std::alloc::{AllocError, Allocator};
use std::collections::VecDeque;
use std::mem;

/// The least number of bytes of an output that go to its file while a run goes on: so many that the calls of the system are
/// few, and so few that the parts of 24 ports stay at hand, or nearly so.
const PART: usize = 16_384;

/// How many bytes of each capture are looked at before the next few hundred records go to the switch: of 24 captures about
/// what these take.
const AHEAD: usize = 4_096;

/// A port's capture as far as it has come, and its output as far as it was not taken.
///
/// `undone`, `closed`, `ready` and `taken` speak of the calls that answered Ok: what a call that failed has
/// changed besides does not count.
#[derive(Drop)]
pub(crate) struct Lane<'a, A: Allocator> {
    pub(crate) port: u8,
    pub(crate) reader: Reader<'a, A>,
    /// The stamp of the last record that was read, 0 if there is none.
    pub(crate) last: Stamp,
    /// All records were read, and none comes any more.
    pub(crate) ended: bool,
    /// Records that were read and that the switch did not take yet, in order.
    pub(crate) waiting: VecDeque<Record<'a, A>, A>,
    /// The port's output that was not taken.
    pub(crate) out: Vec<u8, A>,
    /// The bytes at the end of the reader's that a call brought that has not answered Ok.
    pub(crate) undone: usize,
    pub(crate) closed: bool,
    /// The bytes of `out` that have gone out.
    pub(crate) ready: usize,
    pub(crate) taken: u128,
}

/// Returns the record of a frame with a guess of its link's place, if a table is given. O(1).
#[inline(always)]
fn guessed<'a, A: Allocator>(table: Option<&Table>, frame: Record<'a, A>) -> Record<'a, A>
    ensures { result ≡ frame.entry }
{
    match table {
        Some(table) => with_place(table, frame),
        None => frame,
    }
}

impl<'a, A: Allocator + Copy> Lane<'a, A> {
    /// Makes the lane of a port of which nothing has come.
    pub(crate) fn new(alloc: A, port: u8) -> Result<Lane<'a, A>, AllocError>
        ensures { IfOk result (λ l. IsFreshLane port l) }
    {
        let mut out = Vec::new(alloc);
        write_header(&mut out)?;
        Ok(Lane {
            port,
            reader: Reader::new(alloc),
            last: Stamp::ZERO,
            ended: false,
            waiting: VecDeque::new(alloc),
            out,
            undone: 0,
            closed: false,
            ready: 0,
            taken: 0,
        })
    }

    /// Reads the next whole record, if there is one.
    fn next(&mut self) -> Result<Option<Record<'a, A>>, RunFault>
        requires { self.old.reader.fault ≡ None }
        ensures read_on { IsReadOn self.old self.new }
        ensures waiting { self.new.waiting ≡ self.old.waiting }
        ensures last { self.new.last ≡ self.old.last }
        ensures ended { self.new.ended ≡ self.old.ended }
        ensures ok { IfOk result (λ found. (self.new.reader.fault ≡ None)
            × (self.new.reader.given ≡ (if is_some found then self.old.reader.given + 1 else self.old.reader.given))
            × Answers self.old.reader.bytes self.old.reader.given self.old.reader.closed (Ok found)) }
        ensures err { IfErr result (λ fault. IsLaneFault self.old fault) }
    {
        match self.reader.next() {
            Ok(found) => Ok(found),
            Err(PcapFault::Memory) => Err(RunFault::Memory),
            Err(fault) => Err(RunFault::Capture(self.port, fault)),
        }
    }

    /// Reads the next whole record, which joins those that wait; if a table is given, with a guess of its link's place. Returns whether
    /// there was one. O(its bytes), and O(1) if these are lent.
    pub(crate) fn draw(&mut self, table: Option<&Table>) -> Result<bool, RunFault>
        requires { self.old.reader.fault ≡ None }
        ensures read_on { IsReadOn self.old self.new }
        ensures ok { IfOk result (λ found. HasDrawn found self.old self.new) }
        ensures err { IfErr result (λ fault. IsLaneFault self.old fault) }
    {
        taken_records_are_the_first();
        match self.next()? {
            Some(record) => {
                self.last = record.stamp();
                self.waiting.push_back(guessed(table, record))?;
                Ok(true)
            }
            None => {
                self.ended = self.reader.is_closed();
                Ok(false)
            }
        }
    }

    /// Reads all whole records that are there, which join those that wait. O(their bytes).
    fn read_on(&mut self, table: Option<&Table>) -> Result<(), RunFault>
        requires { self.old.reader.fault ≡ None }
        ensures read_on { IsReadOn self.old self.new }
        ensures ok { OnOk result ((more : List pcap.Record) × Adds self.old self.new more × HasReadAll self.new) }
        ensures err { IfErr result (λ fault. IsLaneFault self.old fault) }
    {
        while self.draw(table)? {}
        Ok(())
    }

    /// Takes the next piece of the capture, and reads the records that are whole now.
    pub(crate) fn feed(&mut self, piece: &[u8], table: Option<&Table>) -> Result<(), RunFault>
        requires still_open { self.old.reader.closed ≡ false }
        requires no_fault { self.old.reader.fault ≡ None }
        requires done { self.old.undone ≡ 0 }
        ensures still { IsStill self.old self.new }
        ensures bytes { take (length self.new.reader.bytes - self.new.undone) self.new.reader.bytes ≡ self.old.reader.bytes }
        ensures ok { OnOk result ((self.new.reader.bytes ≡ self.old.reader.bytes ++ piece.now) × (self.new.reader.closed ≡ false)
            × ((more : List pcap.Record) × Adds self.old self.new more) × HasReadAll self.new) }
        ensures err { IfErr result (λ fault. IsPieceFault (self.old.reader.bytes ++ piece.now) self.old.port fault) }
    {
        match self.reader.feed(piece) {
            Ok(()) => {}
            Err(_) => return Err(RunFault::Memory),
        }
        taken_records_are_the_first();
        self.undone = piece.len();
        self.read_on(table)
    }

    /// Ends the capture, and reads the whole records that are left.
    pub(crate) fn close(&mut self) -> Result<(), RunFault>
        requires { self.old.reader.fault ≡ None }
        ensures still { IsStill self.old self.new }
        ensures undone { self.new.undone ≡ self.old.undone }
        ensures bytes { self.new.reader.bytes ≡ self.old.reader.bytes }
        ensures ended { self.new.reader.closed ≡ true }
        ensures ok { OnOk result ((more : List pcap.Record) × Adds self.old self.new more × HasReadAll self.new) }
        ensures err { IfErr result (λ fault. IsFaultAt self.old.reader.bytes self.old.port fault) }
    {
        self.reader.close();
        self.read_on(None)
    }

    /// Takes the next piece, whose records go nowhere, and returns its fault, if it has one.
    pub(crate) fn skim(&mut self, piece: &[u8]) -> Result<Option<PcapFault>, AllocError>
        requires still_open { self.old.reader.closed ≡ false }
        requires may { MayReadOn self.old }
        ensures { IfOk result (λ found. IsSkimmed self.old self.new piece.now found) }
    {
        match self.feed(piece, None) {
            Ok(()) => {
                self.waiting.clear();
                self.undone = 0;
                Ok(None)
            }
            Err(RunFault::Capture(_, why)) => Ok(Some(why)),
            Err(_) => Err(AllocError),
        }
    }

    /// Ends the capture, and returns its fault, if it has one.
    pub(crate) fn end(&mut self) -> Result<Option<PcapFault>, AllocError>
        requires { MayReadOn self.old }
        ensures { IfOk result (λ found. IsEndOf self.old.reader.bytes found) }
    {
        match self.close() {
            Ok(()) => Ok(None),
            Err(RunFault::Capture(_, why)) => Ok(Some(why)),
            Err(_) => Err(AllocError),
        }
    }

    /// Takes the whole capture, which stays where it is, and reads its first record. O(1).
    pub(crate) fn lend(&mut self, alloc: A, text: &'a [u8]) -> Result<(), RunFault>
        requires fresh { IsFreshLane self.old.port self.old }
        ensures still { IsStill self.old self.new }
        ensures undone { self.new.undone ≡ self.old.undone }
        ensures bytes { self.new.reader.bytes ≡ text.now }
        ensures ok { OnOk result (((more : List pcap.Record) × Adds self.old self.new more) × IsOver self.new) }
        ensures err { IfErr result (λ fault. IsFaultAt text.now self.old.port fault) }
    {
        self.reader = Reader::over(alloc, text);
        self.draw(None)?;
        Ok(())
    }

    /// Notes that the call has answered Ok: all that it brought counts, and all of the output has gone out.
    pub(crate) fn settle(&mut self)
        ensures { IsSettledLane self.old self.new }
    {
        self.undone = 0;
        self.closed = self.reader.is_closed();
        self.ready = self.out.len();
    }

    /// Returns what has gone out and was not taken. It takes no memory.
    pub(crate) fn take(&mut self, alloc: A) -> Vec<u8, A>
        requires bound { self.old.taken + self.old.ready < 2 ^ 128 }
        ensures gives { result.items ≡ take self.old.ready self.old.out.items }
        ensures taken { IsTaken self.old self.new }
    {
        if self.ready == 0 {
            return Vec::new(alloc);
        }
        let mut bytes = mem::replace(&mut self.out, Vec::new(alloc));
        bytes.truncate(self.ready);
        self.taken += self.ready as u128;
        self.ready = 0;
        bytes
    }

    /// Appends what has gone out and was not taken to a file. The room of the output stays for what comes next. O(bytes).
    ///
    /// Fails only if memory runs out: nothing was taken then.
    pub(crate) fn take_into<F: NewFile>(&mut self, file: &mut F) -> Result<(), AllocError>
        requires bound { self.old.taken + self.old.ready < 2 ^ 128 }
        requires ready { self.old.ready ≤ length self.old.out.items }
        ensures gives { OnOk result (Appends (F.contents file.old) (F.contents file.new) (take self.old.ready self.old.out.items)) }
        ensures taken { OnOk result (IsTaken self.old self.new) }
        ensures err { IfErr result (λ _. self.new ≡ self.old) }
    {
        if self.ready == 0 {
            return Ok(());
        }
        file.append(&self.out[..self.ready])?;
        self.taken += self.ready as u128;
        self.ready = 0;
        self.out.clear();
        Ok(())
    }

    /// Appends what there is of the output to a file, if it is at least a part. O(bytes).
    pub(crate) fn hand_over<F: NewFile>(&mut self, file: &mut F) -> Result<(), AllocError>
        requires bound { self.old.taken + length self.old.out.items < 2 ^ 128 }
        ensures { OnOk result ((bytes : List ℕ) × HandsOver bytes self.old self.new × Appends (F.contents file.old) (F.contents file.new) bytes) }
    {
        if self.out.len() >= PART {
            file.append(&self.out)?;
            self.taken += self.out.len() as u128;
            self.out.clear();
        }
        Ok(())
    }
}

/// Makes a lane for each port.
pub(crate) fn lanes_of<'a, A: Allocator + Copy>(
    alloc: A,
    ports: &[PortRow],
) -> Result<Vec<Lane<'a, A>, A>, AllocError>
    ensures { IfOk result (λ lanes. AreFreshLanes ports.now lanes.items) }
{
    let mut lanes = Vec::new(alloc);
    for row in ports {
        let lane = Lane::new(alloc, row.id)?;
        lanes.push(lane)?;
    }
    Ok(lanes)
}

/// Lets the readers look at what comes next, each for itself, so that the processor waits for the memory of all of them at
/// once. O(ports).
pub(crate) fn look_ahead<A: Allocator + Copy>(lanes: &mut [Lane<'_, A>])
    ensures { lanes.new ≡ lanes.old }
{
    for lane in lanes.iter_mut() {
        lane.reader.look_ahead(AHEAD);
    }
}

/// Returns the place of a port's lane, if there is one. O(ports).
pub(crate) fn place_of<A: Allocator>(lanes: &[Lane<'_, A>], port: u8) -> Option<usize>
    ensures { result ≡ position (λ l. l.port == port) lanes.now }
{
    lanes.iter().position(|lane| lane.port == port)
}

/// Returns whether a lane is of this port, or its capture has ended.
fn is_own_or_closed<A: Allocator>(lane: &Lane<'_, A>, port: u8) -> bool
    ensures { result ≡ ((lane.now.port == port) || lane.now.closed) }
{
    lane.port == port || lane.closed
}

/// Returns whether the captures of all other ports have ended. O(ports).
pub(crate) fn is_last<A: Allocator>(lanes: &[Lane<'_, A>], port: u8) -> bool
    ensures { result ≡ list_all (λ l. (l.port == port) || l.closed) lanes.now }
{
    lanes.iter().all(|lane| is_own_or_closed(lane, port))
}

/// Returns the place of the lane of a port that may be fed or closed. O(ports).
pub(crate) fn open_place<A: Allocator>(lanes: &[Lane<'_, A>], port: u8) -> Result<usize, RunFault>
    ensures ok { IfOk result (λ place. IsOpenAt lanes.now port place) }
    ensures err { IfErr result (λ fault. refusal_at (find (λ i. i.port == port) (intakes_of lanes.now)) ≡ Some fault) }
{
    match place_of(lanes, port) {
        Some(place) => {
            if lanes[place].closed {
                return Err(RunFault::Closed);
            }
            Ok(place)
        }
        None => Err(RunFault::WrongPorts),
    }
}

/// Returns the first of two places in the order by stamp; the former if the stamps are equal.
fn first_place(former: Option<(Stamp, u8)>, place: (Stamp, u8)) -> (Stamp, u8)
    ensures { result ≡ best_place former place }
{
    match former {
        Some((stamp, port)) => {
            if stamp <= place.0 {
                (stamp, port)
            } else {
                place
            }
        }
        None => place,
    }
}

/// Returns the place in the order by stamp and port before which nothing can come any more: the least among those of the last
/// records of captures that have not ended. None if all have ended. O(ports).
pub(crate) fn limit_of<A: Allocator + Copy>(lanes: &[Lane<'_, A>]) -> Option<(Stamp, u8)>
    ensures { result ≡ limit_at lanes.now }
{
    let mut limit: Option<(Stamp, u8)> = None;
    for lane in lanes {
        if !lane.ended {
            limit = Some(first_place(limit, (lane.last, lane.port)));
        }
    }
    limit
}

/// Returns the greatest stamp that was read. A run goes on from there for the sake of speed alone, so no contract speaks of
/// it. O(ports).
pub(crate) fn latest_of<A: Allocator>(lanes: &[Lane<'_, A>]) -> Stamp {
    let mut latest = Stamp::ZERO;
    for lane in lanes {
        latest = latest.max(lane.last);
    }
    latest
}

/// Returns the stamp of the first record that waits at a lane, if there is one. O(1).
pub(crate) fn head_of<A: Allocator>(lane: &Lane<'_, A>) -> Option<Stamp>
    ensures { result ≡ head_of lane.now.waiting.items }
{
    match lane.waiting.front() {
        Some(record) => Some(record.stamp()),
        None => None,
    }
}

/// Returns the stamps of the first records that wait, by the lanes' places. O(lanes).
pub(crate) fn heads_of<A: Allocator>(lanes: &[Lane<'_, A>]) -> Instants
    requires { length lanes.now ≤ 24 }
    ensures { result ≡ heads_of lanes.now }
{
    let mut heads = Dues::new(lanes.len());
    for place in 0..lanes.len() {
        heads.set(place, head_of(&lanes[place]));
    }
    Instants::of(&heads)
}

/// Returns whether an arrival at this stamp and port lies at the limit or before it.
pub(crate) fn is_within(limit: Option<(Stamp, u8)>, stamp: Stamp, port: u8) -> bool
    ensures { IsTrue result ↔ IsWithin limit stamp port }
{
    match limit {
        Some((last, at)) => stamp < last || (stamp == last && port <= at),
        None => true,
    }
}

/// Takes the first of all records that wait, which is that of the lane at this place and has this stamp, if it lies within the
/// limit. O(1).
pub(crate) fn take_settled<'a, A: Allocator>(
    lanes: &mut [Lane<'a, A>],
    place: usize,
    stamp: Stamp,
    limit: Option<(Stamp, u8)>,
) -> Option<Record<'a, A>>
    requires { IsFirstUpTo (heads_of lanes.old) (length lanes.old) place stamp }
    ensures some { IfSome result (λ frame. GoesAt limit lanes.old lanes.new place frame) }
    ensures none { IfNone result ((lanes.new ≡ lanes.old) × NoneGoes limit lanes.old (Some (place, stamp))) }
{
    if !is_within(limit, stamp, lanes[place].port) {
        return None;
    }
    lanes[place].waiting.pop_front()
}
