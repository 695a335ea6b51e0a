//! A comparison over readers.

ghost use Rattle.std.specs.Prelude.{◌≡◌, ◌<◌, ◌++◌, ◌∷◌, [], List, Some, length, slice_get, IfOk, IfErr, OnOk};
ghost use Rattle.std.specs.List.{AllByRecursion};
ghost use Rattle.afdx_table.specs.WellFormed.{IsWellFormed};
ghost use Rattle.afdx_compare.specs.Comparison.{with_end, conform};
ghost use Rattle.afdx_compare.specs.Sources.{sources_of};
ghost use Rattle.afdx_compare.specs.Arrivals.{with_arrival, with_arrivals, greater};
ghost use Rattle.afdx_compare.specs.Found.{IsFound, IsCompareFault, WereAllRead};
ghost use Rattle.afdx_compare.specs.Inner.Sound.{IsSound};
ghost use Rattle.afdx_compare.specs.Inner.Due.{MayArrive, MayAllArrive};
ghost use Rattle.afdx_merging.specs.Inner.Merging.{HasMerged, least_of};
ghost use Rattle.afdx_compare.specs.Inner.Reading.{IsReady, IsReadOut};
ghost use Rattle.afdx_compare.specs.Inner.Held.{is_settled, is_first_settled, AreTaken};

use crate::comparison::Comparison;
pub use crate::sources::CompareFault;
use crate::sources::Sources;
use afdx_merging::{Arrival, Merging};
use afdx_recordings::Recordings;
use afdx_table::Table;
use afdx_table::laws::ports_are_found;
use afdx_units::Stamp;
use std::alloc::{AllocError, Allocator};
use std::collections::VecDeque;
use std::io::Read;

/// What was found out.
#[derive(Drop)]
pub struct Findings<'t, A: Allocator> {
    pub(crate) comparison: Comparison<'t, A>,
    pub(crate) recordings: Recordings,
    pub(crate) from: Stamp,
    pub(crate) until: Stamp,
    pub(crate) first: Option<Stamp>,
    pub(crate) last: Option<Stamp>,
}

impl<'t, A: Allocator + Copy> Findings<'t, A> {
    /// Returns the instant from which on the recordings count: the one that is given, or the first stamp of all. O(1).
    pub fn from(&self) -> Stamp
        ensures { result ≡ self.now.from }
    {
        self.from
    }

    /// Returns the instant up to which they count: the one that is given, or the last stamp of all. O(1).
    pub fn until(&self) -> Stamp
        ensures { result ≡ self.now.until }
    {
        self.until
    }

    /// Returns the first stamp of all that was recorded, whether it counts or not; none if nothing was. O(1).
    pub fn first(&self) -> Option<Stamp>
        ensures { result ≡ self.now.first }
    {
        self.first
    }

    /// Returns the last stamp of all that was recorded, whether it counts or not; none if nothing was. O(1).
    pub fn last(&self) -> Option<Stamp>
        ensures { result ≡ self.now.last }
    {
        self.last
    }

    /// Returns whether nothing speaks against the switch. O(ports of links).
    pub fn conforms(&self) -> bool
        ensures { result ≡ conform self.now.comparison }
    {
        self.comparison.conforms()
    }
}

/// Takes a record that came or left.
fn take<A: Allocator + Copy>(
    comparison: &mut Comparison<'_, A>,
    sources: &Sources<A>,
    arrival: Arrival<A>,
) -> Result<(), AllocError>
    requires place { arrival.place < length sources.now.captures }
    requires sound { IsSound comparison.old }
    requires in_turn { MayArrive (slice_get sources.now.captures arrival.place) arrival comparison.old }
    ensures { OnOk result (comparison.new ≡ with_arrival sources.now.captures arrival comparison.old) }
{
    let source = sources.at(arrival.place);
    if source.leaves {
        comparison.left(source, arrival.head)
    } else {
        comparison.came(source.port, arrival.head)
    }
}

/// Returns whether it is known that a record counts up to where the recordings end. If no end was given, it is the greatest stamp of all, and
/// `greatest` is the greatest so far: frames count, and so does a record that left if its stamp is less by the tolerance.
fn is_settled(leaves: bool, stamp: Stamp, recordings: &Recordings, greatest: Option<Stamp>) -> bool
    ensures { result ≡ is_settled recordings.now greatest leaves stamp }
{
    !leaves
        || recordings.until.is_some()
        || greatest.is_some_and(|greatest| u128::from(stamp.ns()) + u128::from(recordings.tolerance)
            <= u128::from(greatest.ns()))
}

/// What was read, of which it is not known yet whether it counts, and the greatest stamp of all, if any.
#[derive(Drop)]
struct Held<A: Allocator> {
    records: VecDeque<Arrival<A>, A>,
    greatest: Option<Stamp>,
}

/// Returns whether the first record that waits, if there is one, is known to count up to where the recordings end.
fn is_first_settled<A: Allocator + Copy>(
    sources: &Sources<A>,
    held: &Held<A>,
    recordings: &Recordings,
) -> bool
    requires { AllByRecursion (λ a. a.place < length sources.now.captures) held.now.records.items }
    ensures { result ≡ is_first_settled recordings.now sources.now.captures held.now.greatest held.now.records.items }
{
    match held.records.front() {
        Some(arrival) => is_settled(
            sources.at(arrival.place).leaves,
            arrival.head.stamp(),
            recordings,
            held.greatest,
        ),
        None => false,
    }
}

/// Takes the records that wait, in order, as far as it is known that they count.
fn take_settled<A: Allocator + Copy>(
    comparison: &mut Comparison<'_, A>,
    sources: &Sources<A>,
    held: &mut Held<A>,
    recordings: &Recordings,
) -> Result<(), AllocError>
    requires places { AllByRecursion (λ a. a.place < length sources.now.captures) held.old.records.items }
    requires sound { IsSound comparison.old }
    requires in_turn { MayAllArrive sources.now.captures held.old.records.items comparison.old }
    ensures { OnOk result (AreTaken recordings.now sources.now.captures held.old.greatest held.old.records.items held.new.records.items comparison.old comparison.new
        × (held.new.greatest ≡ held.old.greatest)) }
{
    while is_first_settled(sources, held, recordings) {
        if let Some(arrival) = held.records.pop_front() {
            take(comparison, sources, arrival)?;
        }
    }
    Ok(())
}

/// Returns the greater of an instant and the greatest of others, if any.
fn greater(stamp: Stamp, greatest: Option<Stamp>) -> Stamp
    ensures { result ≡ greater stamp greatest }
{
    match greatest {
        Some(greatest) => { if stamp < greatest { greatest } else { stamp } }
        None => stamp,
    }
}

/// Keeps a record until it is known whether it counts.
fn keep<A: Allocator + Copy>(held: &mut Held<A>, arrival: Arrival<A>) -> Result<(), AllocError>
    ensures records { OnOk result (held.new.records.items ≡ held.old.records.items ++ arrival ∷ []) }
    ensures greatest { OnOk result (held.new.greatest ≡ Some (greater arrival.head.frame.stamp held.old.greatest)) }
{
    held.greatest = Some(greater(arrival.head.stamp(), held.greatest));
    match held.records.push_back(arrival) {
        Ok(()) => Ok(()),
        Err(_) => Err(AllocError),
    }
}

/// Keeps a record, and takes those that wait as far as it is then known that they count.
fn take_next<A: Allocator + Copy>(
    comparison: &mut Comparison<'_, A>,
    sources: &Sources<A>,
    held: &mut Held<A>,
    recordings: &Recordings,
    arrival: Arrival<A>,
) -> Result<(), AllocError>
    requires places { AllByRecursion (λ a. a.place < length sources.now.captures) (held.old.records.items ++ arrival ∷ []) }
    requires sound { IsSound comparison.old }
    requires in_turn { MayAllArrive sources.now.captures (held.old.records.items ++ arrival ∷ []) comparison.old }
    ensures taken { OnOk result (AreTaken recordings.now sources.now.captures held.new.greatest (held.old.records.items ++ arrival ∷ []) held.new.records.items comparison.old comparison.new) }
    ensures greatest { OnOk result (held.new.greatest ≡ Some (greater arrival.head.frame.stamp held.old.greatest)) }
{
    keep(held, arrival)?;
    take_settled(comparison, sources, held, recordings)
}

/// Reads all captures, and takes their records. Returns those of which it is not known whether they count.
fn read_all<R: Read, A: Allocator + Copy>(
    alloc: A,
    comparison: &mut Comparison<'_, A>,
    sources: &Sources<A>,
    merging: &mut Merging<A>,
    recordings: &Recordings,
    readers: &mut [R],
) -> Result<Held<A>, CompareFault>
    requires ready { IsReady recordings.now sources.now comparison.old }
    requires merged { (first : List R) × HasMerged R.remaining sources.now.clocks first readers.old merging.old [] }
    ensures ok { IfOk result (λ held. (first : List R) → HasMerged R.remaining sources.now.clocks first readers.old merging.old []
        → IsReadOut R.remaining recordings.now sources.now first (least_of merging.old.lanes.items) held.greatest held.records.items comparison.old comparison.new) }
    ensures err { IfErr result (λ fault. (first : List R) → HasMerged R.remaining sources.now.clocks first readers.old merging.old []
        → IsCompareFault R.remaining sources.now.captures first fault) }
    ensures read { IfErr result (λ fault. WereAllRead R.remaining readers.new fault) }
{
    ports_are_found();
    let mut held = Held {
        records: VecDeque::new(alloc),
        greatest: None,
    };
    for _record in 0..u64::MAX {
        match merging.next(readers) {
            Ok(Some(arrival)) => take_next(comparison, sources, &mut held, recordings, arrival)?,
            Ok(None) => return Ok(held),
            Err(fault) => return Err(sources.fault(fault)),
        }
    }
    Err(CompareFault::Memory)
}

/// Takes all records that wait, once it is known where the recordings end, and ends the comparison.
fn take_all<A: Allocator + Copy>(
    comparison: &mut Comparison<'_, A>,
    sources: &Sources<A>,
    mut held: VecDeque<Arrival<A>, A>,
) -> Result<(), AllocError>
    requires places { AllByRecursion (λ a. a.place < length sources.now.captures) held.items }
    requires sound { IsSound comparison.old }
    requires in_turn { MayAllArrive sources.now.captures held.items comparison.old }
    ensures { OnOk result (comparison.new ≡ with_end (with_arrivals sources.now.captures held.items comparison.old)) }
{
    while let Some(arrival) = held.pop_front() {
        take(comparison, sources, arrival)?;
    }
    comparison.end()
}

/// Proves that a table that was read is well formed. It does nothing.
fn is_formed(table: &Table)
    ensures { IsWellFormed table.now }
{
    let _links = table.link_count();
}

/// Compares what came at a switch with what left it. The readers give first a capture of what came in at each port of the table, by rising number,
/// and then one of what left at each output port that was recorded. If it `keeps`, each single difference is kept.
///
/// # Errors
///
/// `Read` at the first place at which a reader fails; else `Came` or `Left` of the first one that is no capture; `Memory` if memory ran out.
///
/// O(b p log h + r c) for b bytes in r records of c captures, links that lead to p ports at most, and h frames and records that are held. Each
/// capture is read once; it holds records of twice the ports' bounds and of the tolerance.
pub fn compare<'t, R: Read, A: Allocator + Copy>(
    alloc: A,
    table: &'t Table,
    recordings: &Recordings,
    keeps: bool,
    readers: &mut [R],
) -> Result<Findings<'t, A>, CompareFault>
    requires { length readers.old ≡ length (sources_of table.now recordings.now).clocks }
    ensures ok { IfOk result (λ f. (f.recordings ≡ recordings.now)
        × IsFound R.remaining table.now recordings.now keeps readers.old f.from f.until f.first f.last f.comparison) }
    ensures err { IfErr result (λ fault. IsCompareFault R.remaining (sources_of table.now recordings.now).captures readers.old fault) }
    ensures read { IfErr result (λ fault. WereAllRead R.remaining readers.new fault) }
{
    is_formed(table);
    ports_are_found();
    let sources = Sources::new(alloc, table, recordings)?;
    let mut merging = match Merging::open(alloc, sources.clocks(), readers) {
        Ok(merging) => merging,
        Err(fault) => return Err(sources.fault(fault)),
    };
    let first = merging.least();
    let from = recordings.from.or(merging.least()).unwrap_or(Stamp::ZERO);
    let mut comparison = Comparison::new(alloc, table, recordings, from, keeps)?;
    let held = read_all(
        alloc,
        &mut comparison,
        &sources,
        &mut merging,
        recordings,
        readers,
    )?;
    let last = held.greatest;
    let until = recordings.until.or(held.greatest).unwrap_or(Stamp::ZERO);
    comparison.set_until(until);
    take_all(&mut comparison, &sources, held.records)?;
    Ok(Findings {
        comparison,
        recordings: *recordings,
        from,
        until,
        first,
        last,
    })
}
