//! Captures in the order of their records.

ghost use Rattle.std.specs.Prelude.{◌≡◌, ◌<◌, ◌+◌, ◌++◌, ◌∷◌, [], None, Some, List, length, map, IfOk, IfErr, OnOk, IfSome, IfNone};
ghost use Rattle.afdx_units.specs.Time.{earlier_of};
ghost use Rattle.afdx_earliest.specs.Instants.{IsFirstIn};
ghost use Rattle.afdx_merging.specs.declared.clock.Clock.{Clock as By};
ghost use Rattle.afdx_merging.specs.Merge.{Arrival as Came, IsAfter};
ghost use Rattle.afdx_merging.specs.Read.{AreMerged, IsMergeFault, WereAllRead};
ghost use Rattle.afdx_merging.specs.Inner.Lanes.{fresh_lane};
ghost use Rattle.afdx_merging.specs.Inner.Merging.{dues_of, sooner, least_of, HasMerged, HaveNoFault, HasNoneAt, AreReadBy, Takes, IsAdvanced, AreOpened};

use crate::clock::Clock;
use crate::fault::MergeFault;
use crate::head::Head;
use crate::lane::Lane;
use crate::stop::first_failure;
use afdx_pcap::laws::taken_records_are_the_first;
use afdx_units::{Stamp, earlier_of};
use std::alloc::{AllocError, Allocator};
use std::io::Read;
use std::marker::Model;

/// How many bytes one read gives at most (profile): so few that the pieces of 48 captures stay at hand.
const PIECE: usize = 16_384;

/// A record, and the place of its capture.
#[derive(Drop)]
pub struct Arrival<A: Allocator> {
    pub place: usize,
    /// The instant, in nanoseconds, by which it is in order with the records of other captures.
    pub due: u128,
    pub head: Head<A>,
}

impl<A: Allocator> Model for Arrival<A> {
    ghost use Rattle.afdx_merging.specs.Merge.{Arrival as Came};

    ghost Value = { Came };

    ghost view = { λ a. record { place = a.place; due = a.due; head = a.head } };
}

/// Captures that readers give, by their places, of each of which the next record is at hand.
#[derive(Drop)]
pub struct Merging<A: Allocator> {
    pub(crate) lanes: Vec<Lane<A>, A>,
    pub(crate) piece: Vec<u8, A>,
}

/// Makes a lane for each clock.
fn lanes_of<A: Allocator + Copy>(alloc: A, clocks: &[Clock]) -> Result<Vec<Lane<A>, A>, AllocError>
    ensures { IfOk result (λ lanes. lanes.items ≡ map fresh_lane clocks.now) }
{
    let mut lanes = Vec::with_capacity(alloc, clocks.len())?;
    for clock in clocks {
        lanes.push(Lane::new(alloc, *clock))?;
    }
    Ok(lanes)
}

/// Returns the sooner of a place that was found, if any, and this one, if it has an instant; of equal ones the former.
fn sooner(found: Option<(usize, u128)>, place: usize, due: Option<u128>) -> Option<(usize, u128)>
    ensures { result ≡ sooner found place due }
{
    match (found, due) {
        (Some((at, least)), Some(due)) => {
            if due < least {
                Some((place, due))
            } else {
                Some((at, least))
            }
        }
        (None, Some(due)) => Some((place, due)),
        (found, None) => found,
    }
}

/// Returns the place of the lane whose next record is the first of all by its instant, and of equal ones the first by place, with that instant.
fn first_of<A: Allocator + Copy>(lanes: &[Lane<A>]) -> Option<(usize, u128)>
    ensures { IsFirstIn (dues_of lanes.now) (length lanes.now) result }
{
    let mut first = None;
    for place in 0..lanes.len() {
        first = sooner(first, place, lanes[place].due());
    }
    first
}

/// Takes the first record of all that are at hand, with its place and the instant by which it is in order; none at the end of all. O(captures).
fn take_first<A: Allocator + Copy>(lanes: &mut [Lane<A>]) -> Option<(usize, u128, Head<A>)>
    ensures some { IfSome result (λ a. Takes lanes.old lanes.new (record { place = a.0; due = a.1; head = a.2 })) }
    ensures none { IfNone result (IsFirstIn (dues_of lanes.old) (length lanes.old) None) }
{
    let (place, due) = first_of(lanes)?;
    let Some(head) = lanes[place].head.take() else {
        unreachable!();
    };
    Some((place, due, head))
}

/// Reads on the capture at a place until its next record is at hand, or to its end.
fn advance_at<A: Allocator + Copy, R: Read>(
    lanes: &mut [Lane<A>],
    readers: &mut [R],
    piece: &mut [u8],
    place: usize,
) -> Result<(), MergeFault>
    requires room { 0 < length piece.old }
    requires place { place < length lanes.old }
    requires readers { length readers.old ≡ length lanes.old }
    requires no_fault { HaveNoFault lanes.old (place + 1) }
    requires none { HasNoneAt lanes.old place }
    ensures room { length piece.new ≡ length piece.old }
    ensures ok { OnOk result (IsAdvanced R.remaining readers.old readers.new lanes.old lanes.new place) }
    ensures err { IfErr result (λ fault. (first : List R) → length first ≡ length readers.old
        → AreReadBy R.remaining first readers.old lanes.old (place + 1)
        → IsMergeFault R.remaining first fault × WereAllRead R.remaining readers.new fault) }
{
    match lanes[place].advance(&mut readers[place], piece) {
        Ok(()) => Ok(()),
        Err(fault) => Err(first_failure(lanes, readers, piece, place, fault)),
    }
}

/// Reads the first record of each capture.
fn read_first<A: Allocator + Copy, R: Read>(
    lanes: &mut [Lane<A>],
    readers: &mut [R],
    piece: &mut [u8],
) -> Result<(), MergeFault>
    requires room { 0 < length piece.old }
    requires fresh { (clocks : List By) × (lanes.old ≡ map fresh_lane clocks) × (length readers.old ≡ length clocks) }
    ensures room { length piece.new ≡ length piece.old }
    ensures kept { OnOk result (0 < length piece.new) }
    ensures ok { OnOk result ((clocks : List By) → lanes.old ≡ map fresh_lane clocks → length readers.old ≡ length clocks
        → AreOpened R.remaining clocks readers.old readers.new lanes.new) }
    ensures err { IfErr result (λ fault. IsMergeFault R.remaining readers.old fault × WereAllRead R.remaining readers.new fault) }
{
    for place in 0..lanes.len() {
        advance_at(lanes, readers, piece, place)?;
    }
    Ok(())
}

/// Returns the least instant of the records that are at hand, if there are any.
fn least_of<A: Allocator + Copy>(lanes: &[Lane<A>]) -> Option<Stamp>
    ensures { result ≡ least_of lanes.now }
{
    let mut least = None;
    for lane in lanes {
        least = earlier_of(least, lane.stamp());
    }
    least
}

impl<A: Allocator + Copy> Merging<A> {
    /// Opens the captures that these readers give, one by each of these clocks, and reads their first records. O(captures), beside what is
    /// read.
    ///
    /// # Errors
    ///
    /// Those of [`Merging::next`].
    pub fn open<R: Read>(
        alloc: A,
        clocks: &[Clock],
        readers: &mut [R],
    ) -> Result<Merging<A>, MergeFault>
        requires { length readers.old ≡ length clocks.now }
        ensures ok { IfOk result (λ m. HasMerged R.remaining clocks.now readers.old readers.new m []) }
        ensures err { IfErr result (λ fault. IsMergeFault R.remaining readers.old fault) }
        ensures read { IfErr result (λ fault. WereAllRead R.remaining readers.new fault) }
    {
        let mut lanes = lanes_of(alloc, clocks)?;
        let mut piece = vec![in alloc; 0u8; PIECE]?;
        read_first(&mut lanes, readers, &mut piece)?;
        Ok(Merging { lanes, piece })
    }

    /// Returns the least instant of the records that are at hand, if there are any. O(captures).
    pub fn least(&self) -> Option<Stamp>
        ensures { result ≡ least_of self.now.lanes.items }
    {
        least_of(&self.lanes)
    }

    /// Returns the next record of all captures; none at the end of all. O(captures), beside what is read.
    ///
    /// # Errors
    ///
    /// `Memory` if memory ran out. Else the readers are read to their ends, by rising place, up to the first one that fails: `Read` with its
    /// place. If none fails, `Capture` with the place of the first one that gives no capture, and its first fault. It is of no use after an
    /// error.
    pub fn next<R: Read>(&mut self, readers: &mut [R]) -> Result<Option<Arrival<A>>, MergeFault>
        requires { (clocks : List By) × (first : List R) × (came : List Came) × HasMerged R.remaining clocks first readers.old self.old came }
        ensures some { IfOk result (λ found. IfSome found (λ a. (clocks : List By) (first : List R) (came : List Came)
            → HasMerged R.remaining clocks first readers.old self.old came
            → HasMerged R.remaining clocks first readers.new self.new (came ++ a ∷ []) × IsAfter clocks came a)) }
        ensures none { IfOk result (λ found. IfNone found ((clocks : List By) (first : List R) (came : List Came)
            → HasMerged R.remaining clocks first readers.old self.old came → AreMerged R.remaining clocks first came)) }
        ensures least { IfOk result (λ found. IfSome found (λ a. earlier_of (Some a.head.frame.stamp) (least_of self.new.lanes.items) ≡ least_of self.old.lanes.items)) }
        ensures none_left { IfOk result (λ found. IfNone found (least_of self.old.lanes.items ≡ None)) }
        ensures err { IfErr result (λ fault. (clocks : List By) (first : List R) (came : List Came)
            → HasMerged R.remaining clocks first readers.old self.old came → IsMergeFault R.remaining first fault) }
        ensures read { IfErr result (λ fault. WereAllRead R.remaining readers.new fault) }
    {
        taken_records_are_the_first();
        let Some((place, due, head)) = take_first(&mut self.lanes) else {
            return Ok(None);
        };
        advance_at(&mut self.lanes, readers, &mut self.piece, place)?;
        Ok(Some(Arrival { place, due, head }))
    }
}
