//! A switch that lets go of what has left it, and what is left of it once it is finished.

ghost use Rattle.std.specs.Prelude.{◌≡◌, ◌+◌, ◌<◌, ◌≤◌, None, slice_get, true, false, All, IfOk, IfErr, OnOk, OnErr};
ghost use Rattle.afdx_units.specs.Time.{last_second};
ghost use Rattle.afdx_table.specs.Content.{port_row};
ghost use Rattle.afdx_load.specs.Accepted.{IsAccepted};
ghost use Rattle.afdx_core.specs.Rows.{row_of};
ghost use Rattle.afdx_core.specs.State.{State, fresh_state, after_advance, after_finish, refusal_of, sent_in, aged_in, occupied_in, early_in, IsNextOf, place_of};
ghost use Rattle.afdx_port.specs.declared.Offer.TheVariants.{Queued};
ghost use Rattle.afdx_core.specs.Isolation.{IsRun, IsIsolatedRun};
ghost use Rattle.afdx_port.specs.Tally.{tally_of_sent, tally_of_aged};
ghost use Rattle.afdx_core.specs.Next.{IsNextEvent};
ghost use Rattle.afdx_core.specs.Held.{held_count, Keeps, IsTaken, IsRefused, IsNext, IsAppended};

use crate::engine::Engine;
use crate::laws::{accepted_tables_isolate, no_step_is_full};
use crate::step::{CoreFault, Step};
use crate::switch::Done;
use afdx_load::Cleared;
use afdx_pcap::Record;
use afdx_port::{Sent, Tally};
use afdx_table::Table;
use afdx_units::Stamp;
use std::alloc::{AllocError, Allocator};
use std::marker::Model;

/// A switch over one table that lends no lists, in contrast to [`Switch`](crate::Switch). Unless it is told to keep them, it lets go of
/// the arrivals, of what ports sent once it was handed out, and of what they discarded: then it holds only what waits. Contracts see
/// the same state as of a switch.
///
/// It answers out of memory if more than 2^64 - 1 arrivals or copies would be counted.
#[derive(Drop)]
pub struct Relay<'a, A: Allocator> {
    engine: Engine<'a, A>,
}

impl<'a, A: Allocator> Model for Relay<'a, A> {
    ghost use Rattle.std.specs.Prelude.{◌≡◌, false};
    ghost use Rattle.afdx_core.specs.State.{State};
    ghost use Rattle.afdx_core.specs.Isolation.{IsRun};

    ghost Value = { State };

    ghost use Rattle.afdx_core.specs.Inner.Engine.{run_of, state_of, IsKeptEngine};

    ghost view = { λ s. state_of s.engine };

    ghost invariant = { λ s. IsKeptEngine s.engine × (s.engine.finished ≡ false) × IsRun (run_of s.engine) };
}

/// A relay that has carried out all that was left. Contracts see the same state.
#[derive(Drop)]
pub struct Relayed<'a, A: Allocator> {
    engine: Engine<'a, A>,
}

impl<'a, A: Allocator> Model for Relayed<'a, A> {
    ghost use Rattle.afdx_core.specs.State.{State};
    ghost use Rattle.afdx_core.specs.Isolation.{IsRun};

    ghost Value = { State };

    ghost use Rattle.afdx_core.specs.Inner.Engine.{run_of, state_of, IsKeptEngine};

    ghost view = { λ s. state_of s.engine };

    ghost invariant = { λ s. IsKeptEngine s.engine × IsRun (run_of s.engine) };
}

impl<'a, A: Allocator + Copy> Relay<'a, A> {
    /// Makes a switch that has taken nothing, over a table that was not checked. `keeps` says whether it keeps its lists, for
    /// [`Relayed::into_done`].
    ///
    /// An error says that memory ran out; the table is dropped then. O(links + ports).
    pub fn new(alloc: A, table: Table, keeps: bool) -> Result<Self, AllocError>
        ensures { IfOk result (λ s. s ≡ fresh_state false keeps table) }
    {
        let engine = Engine::new(alloc, table, false, keeps)?;
        Ok(Relay { engine })
    }

    /// Makes a switch that has taken nothing, over a table that was checked and accepted. `keeps` is as for [`Relay::new`].
    ///
    /// An error says that memory ran out; the table is dropped then. O(links + ports).
    pub fn cleared(alloc: A, cleared: Cleared, keeps: bool) -> Result<Self, AllocError>
        ensures { IfOk result (λ s. (s ≡ fresh_state true keeps cleared) × IsAccepted cleared) }
    {
        let engine = Engine::new(alloc, cleared.into_table(), true, keeps)?;
        Ok(Relay { engine })
    }

    /// Takes an arrival, as [`Switch::arrive`](crate::Switch::arrive) does, with its refusals and its cost.
    #[inline(always)]
    pub fn arrive(
        &mut self,
        in_port: u8,
        arrived: Record<'a, A>,
    ) -> Result<Step, (CoreFault, Record<'a, A>)>
        requires not_late { arrived.stamp < last_second }
        ensures ok { IfOk result (λ step. IsTaken self.old self.new (row_of self.old.run.table in_port arrived.entry) arrived.entry step
            × (refusal_of self.old.run in_port arrived.entry.stamp ≡ None)) }
        ensures err { IfErr result (λ e. IsRefused self.old self.new in_port arrived.entry e) }

        // Over an accepted table no port answers Full.
        ensures none_full { self.old.accepted ≡ true → IfOk result (λ step. All (λ offer. offer.1 ≡ Queued) step.offers) }
    {
        no_step_is_full();
        self.engine.know_the_table();
        self.engine.arrive(in_port, arrived)
    }

    /// Carries out the starts before the instant that the stamp reaches, one latency later, as
    /// [`Switch::advance`](crate::Switch::advance) does.
    pub fn advance(&mut self, to: Stamp) -> Result<(), CoreFault>
        ensures ok { OnOk result ((self.old.run.latest ≤ to) × (self.new.run ≡ after_advance to self.old.run) × Keeps self.old self.new) }
        ensures err { IfErr result (λ e. (to < self.old.run.latest) × (e ≡ CoreFault.Earlier) × (self.new ≡ self.old)) }
    {
        self.engine.advance(to)
    }

    /// Returns the switch's table. O(1).
    pub fn table(&self) -> &Table
        ensures { result.now ≡ self.now.run.table }
    {
        &self.engine.table
    }

    /// Returns the instant of the first start or discard that was not carried out; none if nothing is left. Before that instant the switch
    /// does nothing unless something arrives. O(ports).
    pub fn next_event(&self) -> Option<Stamp>
        ensures { IsNextEvent self.now.run result }
    {
        self.engine.next_event()
    }

    /// Returns how many different frames are held, as [`Switch::held`](crate::Switch::held) counts them. O(1).
    pub fn held(&self) -> usize
        ensures { result ≡ held_count self.now.run }
    {
        self.engine.held()
    }

    /// Returns the place of a port among the table's, by rising number; none if there is no such port. O(1).
    pub fn place_of(&self, port: u8) -> Option<usize>
        ensures { result ≡ place_of self.now.run port }
    {
        self.engine.place_of(port)
    }

    /// Returns how many bytes the buffer of the port at a place holds at the instant that the greatest stamp reaches, one latency later; 0
    /// if there is no such port. O(1).
    pub fn occupied(&self, place: usize) -> u64
        ensures { result ≡ occupied_in self.now.run (slice_get self.now.run.table.ports place) }
    {
        self.engine.occupied(place)
    }

    /// Returns by how many nanoseconds a frame of this size of the link at a place would come too early at an instant for those that were
    /// passed; 0 if there is no such link. O(1).
    pub fn early_by(&self, place: usize, at: Stamp, size: u32) -> u64
        requires { self.now.run.latest ≤ at }
        ensures { result ≡ early_in self.now.run (slice_get self.now.run.table.links place) (record { stamp = at; size = size }) }
    {
        self.engine.early_by(place, at, size)
    }

    /// Returns the port's next sent item whose frame was not handed out, with the port's place; none if none is left, or there is no such
    /// port. O(1).
    pub fn next_sent(&self, port: u8) -> Option<(usize, Sent)>
        ensures { IsNextOf self.now.run port result }
    {
        self.engine.next_item(port)
    }

    /// Hands out the port's next sent frame, as [`Switch::next_out`](crate::Switch::next_out) does.
    pub fn next_out(&mut self, port: u8) -> Result<Option<Record<'a, A>>, AllocError>
        ensures ok { IfOk result (λ out. IsNext self.old self.new port out) }
        ensures err { OnErr result (self.new ≡ self.old) }
    {
        self.engine.next_out(port)
    }

    /// Appends the next frame's text to a capture, as [`Switch::next_out_into`](crate::Switch::next_out_into) does.
    #[inline(always)]
    pub fn next_out_into<B: Allocator>(
        &mut self,
        port: u8,
        capture: &mut Vec<u8, B>,
    ) -> Result<bool, AllocError>
        ensures ok { IfOk result (λ some. IsAppended self.old self.new port capture.old.items capture.new.items some) }
        ensures err { OnErr result (self.new ≡ self.old) }
        ensures err_capture { OnErr result (capture.new.items ≡ capture.old.items) }
    {
        self.engine.next_out_into(port, capture)
    }

    /// Carries out all that is left. O(ports), and O(1) for each start. It takes no memory.
    pub fn finish(self) -> Relayed<'a, A>
        ensures run { result.run ≡ after_finish self.entry.run }
        ensures keeps { Keeps self.entry result }
        ensures is_run { IsRun result.run }

        // Over an accepted table: the headline, for all that was taken.
        ensures isolated { self.entry.accepted ≡ true → IsIsolatedRun result.run }
    {
        accepted_tables_isolate();
        self.engine.know_the_table();
        let mut engine = self.engine;
        engine.finish();
        Relayed { engine }
    }
}

impl<'a, A: Allocator + Copy> Relayed<'a, A> {
    /// Returns the switch's table. O(1).
    pub fn table(&self) -> &Table
        ensures { result.now ≡ self.now.run.table }
    {
        &self.engine.table
    }

    /// Returns the place of a port among the table's, by rising number; none if there is no such port. O(1).
    pub fn place_of(&self, port: u8) -> Option<usize>
        ensures { result ≡ place_of self.now.run port }
    {
        self.engine.place_of(port)
    }

    /// Returns the port's next sent item whose frame was not handed out, as [`Relay::next_sent`] does.
    pub fn next_sent(&self, port: u8) -> Option<(usize, Sent)>
        ensures { IsNextOf self.now.run port result }
    {
        self.engine.next_item(port)
    }

    /// Hands out the port's next sent frame, as [`Relay::next_out`] does.
    pub fn next_out(&mut self, port: u8) -> Result<Option<Record<'a, A>>, AllocError>
        ensures ok { IfOk result (λ out. IsNext self.old self.new port out) }
        ensures err { OnErr result (self.new ≡ self.old) }
    {
        self.engine.next_out(port)
    }

    /// Appends the next frame's text to a capture, as [`Relay::next_out_into`] does.
    pub fn next_out_into<B: Allocator>(
        &mut self,
        port: u8,
        capture: &mut Vec<u8, B>,
    ) -> Result<bool, AllocError>
        ensures ok { IfOk result (λ some. IsAppended self.old self.new port capture.old.items capture.new.items some) }
        ensures err { OnErr result (self.new ≡ self.old) }
        ensures err_capture { OnErr result (capture.new.items ≡ capture.old.items) }
    {
        self.engine.next_out_into(port, capture)
    }

    /// Returns how many items of each priority a port sent; none if there is no such port. O(ports).
    pub fn sent_tally(&self, port: u8) -> Tally
        ensures { result ≡ tally_of_sent (sent_in self.now.run (port_row self.now.run.table port)) }
    {
        self.engine.sent_tally(port)
    }

    /// Returns how many items of each priority a port discarded for their age; none if there is no such port. O(ports).
    pub fn aged_tally(&self, port: u8) -> Tally
        ensures { result ≡ tally_of_aged (aged_in self.now.run (port_row self.now.run.table port)) }
    {
        self.engine.aged_tally(port)
    }

    /// Lends all its lists, if they were kept. O(1).
    pub fn into_done(self) -> Done<'a, A>
        requires { self.keeps ≡ true }
        ensures { result ≡ self.entry }
    {
        Done {
            engine: self.engine,
        }
    }
}
