//! A switch that is fed by time.

ghost use Rattle.std.specs.Prelude.{◌≡◌, ◌<◌, ◌≤◌, ◌||◌, nat_lt, max, true, false, None, IfOk, IfErr, OnOk, OnErr};
ghost use Rattle.afdx_units.specs.Time.{last_second};
ghost use Rattle.afdx_count.specs.Run.{counts_of};
ghost use Rattle.afdx_measure.specs.Wanted.{keeps_lists};
ghost use Rattle.afdx_session.specs.Output.{rows_of};
ghost use Rattle.afdx_paced.specs.Paced.{arrivals, fresh_paced, put_refusal, not_of_memory, after_put, after_going, next_sent_of, IsNextOut, IsNext, HasTakenAll};

use crate::feeder::{Feeder, place_of};
use crate::laws::{later_records_change_nothing, merges_are_cut};
use afdx_core::laws::by_stamp_is_ordered;
use afdx_count::Counts;
use afdx_count::laws::end_counts_the_run;
use afdx_measure::{Measured, Wanted};
use afdx_pcap::Record;
use afdx_port::Sent;
use afdx_port::laws::{events_follow_the_line, lagging_ports_follow, service_is_of_items};
use afdx_session::laws::later_arrivals_change_nothing;
use afdx_table::Table;
use afdx_units::{Stamp, earlier_of};
use std::alloc::{AllocError, Allocator};
use std::marker::Model;
use thiserror::Error;

/// Why a record was not taken in. Each message is its variant's name.
#[derive(Clone, Copy, Debug, PartialEq, Eq, Error)]
pub enum PacedFault {
    /// The table has no port of this number.
    #[error("NoSuchPort")]
    NoSuchPort,
    /// The stamp is below the instant that the switch has come to, or below that of the port's last record.
    #[error("Early")]
    Early,
    /// Out of memory.
    #[error("Memory")]
    Memory,
}

impl From<AllocError> for PacedFault {
    ghost use Rattle.afdx_paced.specs.declared.paced.PacedFault.TheVariants.{Memory};

    ghost from_gives = { λ _ e. e ≡ Memory };

    fn from(_error: AllocError) -> PacedFault {
        PacedFault::Memory
    }
}

/// A switch over one table at whose ports records come in and leave up to the instant that it has come to.
///
/// It keeps what waits: the records that it was not given, and the frames that it has not handed out. A call that runs out of memory
/// while it goes on leaves it of no use.
#[derive(Drop)]
pub struct Paced<'a, A: Allocator> {
    feeder: Feeder<'a, A>,
    /// The instant that the switch has come to.
    reached: Stamp,
    /// A call has run out of memory while it went on.
    failed: bool,
}

impl<'a, A: Allocator> Model for Paced<'a, A> {
    ghost use Rattle.std.specs.Prelude.{◌≡◌, false};
    ghost use Rattle.afdx_paced.specs.Paced.{Paced as Seen};
    ghost use Rattle.afdx_paced.specs.Inner.Kept.{IsOfTable, IsGoing, paced_of};

    ghost Value = { Seen };

    ghost view = { λ p. paced_of p.feeder p.reached p.failed };

    ghost invariant = { λ p. IsOfTable p.feeder × (p.failed ≡ false → IsGoing p.reached p.feeder) };
}

/// Returns whether a record of this stamp comes before the instant that the switch has come to, or before the port's last record.
fn is_early(stamp: Stamp, reached: Stamp, last: Stamp) -> bool
    ensures { result ≡ (nat_lt stamp reached || nat_lt stamp last) }
{
    stamp < reached || stamp < last
}

/// Returns the later of two instants.
fn later_of(one: Stamp, other: Stamp) -> Stamp
    ensures { result ≡ max one other }
{
    if one < other { other } else { one }
}

impl<'a, A: Allocator + Copy> Paced<'a, A> {
    /// Makes a switch at which nothing came in, over a table that need not be accepted, and which notes what is wanted of its run.
    ///
    /// An error says that memory ran out; the table is dropped then. O(links + ports), and what [`Measuring::new`](afdx_measure::Measuring::new)
    /// takes for what is wanted.
    pub fn new(alloc: A, table: Table, wanted: Wanted) -> Result<Self, AllocError>
        ensures { IfOk result (λ p. p ≡ fresh_paced (keeps_lists wanted) table) }
    {
        let feeder = Feeder::new(alloc, table, wanted)?;
        Ok(Paced {
            feeder,
            reached: Stamp::ZERO,
            failed: false,
        })
    }

    /// Takes a record in at a port. O(ports).
    ///
    /// # Errors
    ///
    /// Nothing changes then. The first that holds, in this order:
    ///
    /// - `NoSuchPort`, `Early`, as their variants say.
    /// - `Memory` if memory ran out.
    pub fn put(&mut self, port: u8, frame: Record<'a, A>) -> Result<(), PacedFault>
        requires going { self.old.failed ≡ false }
        requires not_late { frame.stamp < last_second }
        ensures ok { OnOk result ((put_refusal self.old port frame.entry.stamp ≡ None) × (self.new ≡ after_put port frame.entry self.old)) }
        ensures err { IfErr result (λ fault. (put_refusal self.old port frame.entry.stamp ≡ not_of_memory fault) × (self.new ≡ self.old)) }
    {
        later_records_change_nothing();
        let Some(place) = place_of(&self.feeder.lanes, port) else {
            return Err(PacedFault::NoSuchPort);
        };
        let last = self.feeder.lanes[place].last();
        if is_early(frame.stamp(), self.reached, last) {
            return Err(PacedFault::Early);
        }
        self.feeder.lanes[place].join(frame)?;
        Ok(())
    }

    /// Lets the switch come to an instant: it takes what came in before it, by stamp and then by port, and carries out the starts before the
    /// instant that it reaches, one latency later.
    ///
    /// An error says that memory ran out: it has failed then, and no call follows. O(ports), and O(1) for each record that it takes, beside the
    /// switch's own work.
    pub fn go_to(&mut self, instant: Stamp) -> Result<(), AllocError>
        requires going { self.old.failed ≡ false }
        requires in_order { self.old.reached ≤ instant }
        ensures ok { OnOk result (self.new ≡ after_going instant self.old) }
        ensures err { OnErr result (self.new.failed ≡ true) }
    {
        self.failed = true;
        self.feeder.come_to(self.reached, instant)?;
        self.reached = instant;
        self.failed = false;
        Ok(())
    }

    /// Returns what the record that [`Paced::next_out`] would hand out next was sent as; none if there is no such record or port. O(ports).
    pub fn next_sent(&self, port: u8) -> Option<Sent>
        requires going { self.now.failed ≡ false }
        ensures { result ≡ next_sent_of self.now port }
    {
        by_stamp_is_ordered();
        merges_are_cut();
        later_arrivals_change_nothing();
        match self.feeder.switch.next_sent(port) {
            Some(next) => Some(next.1),
            None => None,
        }
    }

    /// Returns the port's next record that left up to the instant that the switch has come to, and was not handed out; none if there is no such
    /// record or port. Its bytes are copied: O(ports + bytes).
    ///
    /// An error says that memory ran out; nothing changes then.
    pub fn next_out(&mut self, port: u8) -> Result<Option<Record<'a, A>>, AllocError>
        requires going { self.old.failed ≡ false }
        ensures ok { IfOk result (λ out. IsNextOut self.old self.new port out) }
        ensures err { OnErr result (self.new ≡ self.old) }
    {
        by_stamp_is_ordered();
        merges_are_cut();
        later_arrivals_change_nothing();
        service_is_of_items();
        let Some(place) = place_of(&self.feeder.lanes, port) else {
            return Ok(None);
        };
        match self.feeder.switch.next_out(port)? {
            Some(frame) => {
                self.feeder.lanes[place].depart(&frame);
                Ok(Some(frame))
            }
            None => Ok(None),
        }
    }

    /// Returns an instant, not before the one that the switch has come to, up to which nothing more leaves unless something comes in. None only
    /// if nothing is left to leave. O(ports).
    pub fn next(&self) -> Option<Stamp>
        requires going { self.now.failed ≡ false }
        ensures { IsNext self.now result }
    {
        by_stamp_is_ordered();
        merges_are_cut();
        later_arrivals_change_nothing();
        lagging_ports_follow();
        events_follow_the_line();
        let first = earlier_of(self.feeder.next_arrival(), self.feeder.next_start())?;
        Some(later_of(first, self.reached))
    }

    /// Takes all that came in, and carries out all that is left. Returns the counts of the run, and the switch, with what was wanted of it.
    /// O(ports), and O(1) for each record and start, beside the switch's own work.
    ///
    /// An error says that memory ran out.
    pub fn finish(self) -> Result<(Counts<A>, Measured<'a, A>), AllocError>
        requires going { self.failed ≡ false }
        ensures counts { IfOk result (λ both. both.0 ≡ counts_of self.entry.table (rows_of self.entry.table (arrivals self.entry))) }
        ensures switch { IfOk result (λ both. HasTakenAll self.entry both.1.run) }
        ensures keeps { IfOk result (λ both. both.1.keeps ≡ self.entry.keeps) }
    {
        by_stamp_is_ordered();
        merges_are_cut();
        end_counts_the_run();
        let Paced {
            mut feeder,
            reached,
            ..
        } = self;
        feeder.come_to(reached, Stamp::LAST)?;
        let Feeder {
            switch,
            mut counts,
            ..
        } = feeder;
        let measured = switch.finish();
        counts.note_relayed(measured.relayed());
        Ok((counts, measured))
    }
}
