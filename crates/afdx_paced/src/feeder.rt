//! Records that go from the lanes to the switch.

ghost use Rattle.std.specs.Prelude.{◌≡◌, ◌+◌, ◌⊎◌, ◌<◌, ◌≤◌, ◌^◌, false, None, length, map, IfOk, MatchOption, OnOk, position, ◌==◌};
ghost use Rattle.std.specs.List.{AllByRecursion};
ghost use Rattle.afdx_units.specs.Time.{last_second};
ghost use Rattle.afdx_core.specs.Step.{Step};
ghost use Rattle.afdx_core.specs.Held.{not_of_memory, IsTaken};
ghost use Rattle.afdx_core.specs.Rows.{row_of};
ghost use Rattle.afdx_core.specs.State.{fresh_state, refusal_of};
ghost use Rattle.afdx_count.specs.Tally.{noted};
ghost use Rattle.afdx_measure.specs.Wanted.{keeps_lists};
ghost use Rattle.afdx_paced.specs.Inner.Parts.{heads_of, fresh_parts};
ghost use Rattle.afdx_paced.specs.Inner.Kept.{IsOfTable, IsSameTable, IsSorted, IsPassing, PassesOn, IsGoing, ComesTo, IsFirstBefore, NoneBefore, IsFirstHead, IsNextStart};

use crate::lane::Lane;
use crate::laws::{merges_are_cut, out_goes_on};
use afdx_core::CoreFault;
use afdx_core::laws::by_stamp_is_ordered;
use afdx_count::Counts;
use afdx_count::laws::{note_counts_one_more, starts_with_none};
use afdx_earliest::Instants;
use afdx_measure::{Measuring, Wanted};
use afdx_pcap::Record;
use afdx_session::laws::settled_records_go;
use afdx_table::{PortRow, Table};
use afdx_units::Stamp;
use std::alloc::{AllocError, Allocator};

/// A switch, its counters, and what there is of each port.
#[derive(Drop)]
pub(crate) struct Feeder<'a, A: Allocator> {
    pub(crate) switch: Measuring<'a, A>,
    pub(crate) counts: Counts<A>,
    /// By rising port.
    pub(crate) lanes: Vec<Lane<'a, A>, A>,
}

/// Returns the fault of an arrival that was refused, though its port is the table's and its stamp does not go back: memory ran out.
fn out_of_memory(fault: CoreFault) -> AllocError
    requires { not_of_memory fault ≡ None }
{
    match fault {
        CoreFault::Memory => AllocError,
        CoreFault::Earlier | CoreFault::NoSuchPort => unreachable!(),
    }
}

/// Returns the instant so many nanoseconds before another one, or 0.
fn sooner(instant: Stamp, by: u64) -> Stamp
    ensures { (result ≡ 0) ⊎ (result + by ≤ instant) }
{
    match Stamp::from_ns(instant.ns().saturating_sub(by)) {
        Some(stamp) => stamp,
        None => Stamp::ZERO,
    }
}

/// Makes a lane for each port. O(ports).
fn lanes_of<'a, A: Allocator + Copy>(
    alloc: A,
    ports: &[PortRow],
) -> Result<Vec<Lane<'a, A>, A>, AllocError>
    ensures { IfOk result (λ lanes. lanes.items ≡ map (λ p. fresh_parts p.id) ports.now) }
{
    let mut lanes = Vec::new(alloc);
    for row in ports {
        lanes.push(Lane::new(alloc, row.id))?;
    }
    Ok(lanes)
}

/// Returns the stamps of the first records that wait, by the lanes' places. O(lanes).
fn heads_of<A: Allocator + Copy>(lanes: &[Lane<'_, A>]) -> Instants
    requires { length lanes.now ≤ 24 }
    ensures { result ≡ heads_of lanes.now }
{
    let mut heads = Instants::new(lanes.len());
    for place in 0..lanes.len() {
        heads.set(place, lanes[place].head());
    }
    heads
}

/// Returns the place of the first of these instants, if it lies before another one. O(1).
fn first_before(heads: &Instants, until: Stamp) -> Option<usize>
    ensures { MatchOption result (NoneBefore until heads.now) (IsFirstBefore until heads.now) }
{
    let (place, stamp) = heads.first()?;
    let bound = until.ns();
    if stamp.ns() < bound {
        Some(place)
    } else {
        None
    }
}

/// Returns the place of a port's lane, if there is one. O(ports).
pub(crate) fn place_of<A: Allocator + Copy>(lanes: &[Lane<'_, A>], port: u8) -> Option<usize>
    ensures { result ≡ position (λ l. l.port == port) lanes.now }
{
    lanes.iter().position(|lane| lane.port() == port)
}

impl<'a, A: Allocator + Copy> Feeder<'a, A> {
    /// Makes a switch over a table, which took nothing and notes what is wanted of its run.
    pub(crate) fn new(alloc: A, table: Table, wanted: Wanted) -> Result<Feeder<'a, A>, AllocError>
        ensures { IfOk result (λ f. IsOfTable f × (f.switch ≡ fresh_state false (keeps_lists wanted) table) × IsGoing 0 f × (f.lanes.items ≡ map (λ p. fresh_parts p.id) table.ports)) }
    {
        starts_with_none();
        let lanes = lanes_of(alloc, table.ports())?;
        let counts = Counts::new(alloc, &table)?;
        let switch = Measuring::new(alloc, table, wanted)?;
        Ok(Feeder {
            switch,
            counts,
            lanes,
        })
    }

    /// Gives a record to the switch, and counts it.
    fn give(&mut self, port: u8, frame: Record<'a, A>) -> Result<(), AllocError>
        requires early { frame.stamp < last_second }
        requires none_else { refusal_of self.old.switch.run port frame.stamp ≡ None }
        ensures lanes { self.new.lanes ≡ self.old.lanes }
        ensures same { IsSameTable self.old.switch self.new.switch }
        ensures ok { OnOk result ((step : Step) × (step.number < 2 ^ 64)
            × IsTaken self.old.switch self.new.switch (row_of self.old.switch.run.table port frame.entry) frame.entry step
            × (self.new.counts ≡ noted step self.old.counts)) }
    {
        let step = match self.switch.arrive(port, frame) {
            Ok(step) => step,
            Err((fault, _)) => return Err(out_of_memory(fault)),
        };
        self.counts.note(&step);
        Ok(())
    }

    /// Gives the switch the first of all records that wait, if it comes before the instant. Returns whether it did. O(1).
    fn give_next(&mut self, heads: &mut Instants, until: Stamp) -> Result<bool, AllocError>
        requires of { IsOfTable self.old }
        requires passing { IsPassing until self.old }
        requires heads { heads.old ≡ heads_of self.old.lanes.items }
        ensures of { IsOfTable self.new }
        ensures same { IsSameTable self.old.switch self.new.switch }
        ensures heads { OnOk result (heads.new ≡ heads_of self.new.lanes.items) }
        ensures ok { IfOk result (λ more. PassesOn until more self.old self.new) }
    {
        by_stamp_is_ordered();
        settled_records_go();
        note_counts_one_more();
        let Some(place) = first_before(heads, until) else {
            return Ok(false);
        };
        let lane = &mut self.lanes[place];
        let port = lane.port();
        match lane.take() {
            Some(frame) => {
                heads.set(place, lane.head());
                self.give(port, frame)?;
                Ok(true)
            }
            None => Ok(false),
        }
    }

    /// Gives the switch all records that wait before an instant, by stamp and then by port. O(ports), and O(1) for each record that
    /// goes, beside the switch's own work.
    fn give_before(&mut self, until: Stamp) -> Result<(), AllocError>
        requires of { IsOfTable self.old }
        requires passing { IsPassing until self.old }
        ensures of { IsOfTable self.new }
        ensures same { IsSameTable self.old.switch self.new.switch }
        ensures ok { OnOk result (PassesOn until false self.old self.new) }
    {
        let mut heads = heads_of(&self.lanes);
        while self.give_next(&mut heads, until)? {}
        Ok(())
    }

    /// Gives the switch all records that wait before an instant, and lets it come to that instant.
    pub(crate) fn come_to(&mut self, since: Stamp, until: Stamp) -> Result<(), AllocError>
        requires of { IsOfTable self.old }
        requires going { IsGoing since self.old }
        requires in_order { since ≤ until }
        ensures of { IsOfTable self.new }
        ensures same { IsSameTable self.old.switch self.new.switch }
        ensures ok { OnOk result (IsGoing until self.new × ComesTo self.old self.new) }
    {
        by_stamp_is_ordered();
        merges_are_cut();
        out_goes_on();
        self.give_before(until)?;
        if self.switch.advance(until).is_err() {
            unreachable!();
        }
        Ok(())
    }

    /// Returns the stamp of the first record that waits, if there is one. O(ports).
    pub(crate) fn next_arrival(&self) -> Option<Stamp>
        requires of { IsOfTable self.now }
        requires sorted { AllByRecursion IsSorted self.now.lanes.items }
        ensures { IsFirstHead self.now.lanes.items result }
    {
        let heads = heads_of(&self.lanes);
        let first = heads.first()?;
        Some(first.1)
    }

    /// Returns an instant from which the switch comes to the first start that it has not carried out, if there is one. O(1).
    pub(crate) fn next_start(&self) -> Option<Stamp>
        ensures { IsNextStart self.now.switch.run result }
    {
        let start = self.switch.next_event()?;
        let latency = self.switch.table().latency();
        Some(sooner(start, latency))
    }
}
