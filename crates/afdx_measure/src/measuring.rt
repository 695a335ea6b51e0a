//! A switch that lets go of what has left it, and notes on the way what is asked of its run.

ghost use Rattle.std.specs.Prelude.{◌≡◌, ◌↔◌, ℕ, ◌-◌, ◌<◌, ◌≤◌, [], true, false, length, slice_get, Some, None, IfOk, IfErr, OnOk, OnErr, IfNone, IfSome, IsTrue, MatchOption};
ghost use Rattle.afdx_units.specs.Time.{last_second};
ghost use Rattle.afdx_table.specs.declared.rows.PortRow.{PortRow};
ghost use Rattle.afdx_table.specs.Link.{Link};
ghost use Rattle.afdx_table.specs.Content.{port_row};
ghost use Rattle.afdx_load.specs.Accepted.{IsAccepted};
ghost use Rattle.afdx_core.specs.declared.step.Row.{Row as Arrived};
ghost use Rattle.afdx_core.specs.Rows.{row_of};
ghost use Rattle.afdx_core.specs.State.{Run, fresh_run, fresh_state, after_advance, after_finish, after_handing, next_at, refusal_of, sent_in, IsNextOf};
ghost use Rattle.afdx_core.specs.Next.{IsNextEvent};
ghost use Rattle.afdx_core.specs.Isolation.{IsRun, IsIsolatedRun};
ghost use Rattle.afdx_core.specs.Held.{held_count, Keeps, IsTaken, IsRefused, IsNext, IsAppended};
ghost use Rattle.afdx_measure.specs.Delays.{delays_of, summary_of};
ghost use Rattle.afdx_measure.specs.Ports.{peak_at};
ghost use Rattle.afdx_measure.specs.Policing.{spells_in, stamp_at};
ghost use Rattle.afdx_measure.specs.Handed.{AllHandedOut};
ghost use Rattle.afdx_measure.specs.Inner.Arriving.{HasArrived};
ghost use Rattle.afdx_measure.specs.Inner.Gauged.{AgreesWith, IsOfPort};
ghost use Rattle.afdx_measure.specs.Inner.Policed.{KnowsPolicing};
ghost use Rattle.afdx_measure.specs.Wanted.{keeps_lists};

use crate::delays::Delays;
use crate::filling::Filling;
use crate::gauges::{AtPort, Gauges};
use crate::policing::Policing;
use afdx_core::laws::{calls_add_what_is_sent, calls_make_runs};
use afdx_core::{CoreFault, Done, Relay, Relayed, Step};
use afdx_load::Cleared;
use afdx_pcap::Record;
use afdx_port::Sent;
use afdx_spells::Spell;
use afdx_table::Table;
use afdx_table::laws::ports_are_distinct;
use afdx_units::Stamp;
use std::alloc::{AllocError, Allocator};
use std::marker::Model;

/// What is wanted of a run beside its output.
#[derive(Clone, Copy, Debug, PartialEq, Eq)]
pub enum Wanted {
    /// Nothing.
    Nothing,
    /// Delays and how full buffers were.
    Measures,
    /// These, and when links were policed.
    Survey,
    /// All its lists.
    Lists,
}

/// A [`Relay`] that notes, if this is wanted, the delays of what it hands out, how full the buffers of its ports were, and when links
/// were policed.
///
/// Contracts see the same state as of a relay. If memory runs out for what is noted, it is let go, and the run goes on: delays and buffers
/// together, or policing.
#[derive(Drop)]
pub struct Measuring<'a, A: Allocator> {
    relay: Relay<'a, A>,
    gauges: Option<Gauges<A>>,
    policing: Option<Policing<A>>,
}

impl<'a, A: Allocator> Model for Measuring<'a, A> {
    ghost use Rattle.std.specs.Prelude.{◌≡◌, false};
    ghost use Rattle.afdx_core.specs.Isolation.{IsRun};
    ghost use Rattle.afdx_core.specs.State.{State};
    ghost use Rattle.afdx_measure.specs.Inner.Gauged.{AgreesWith};
    ghost use Rattle.afdx_measure.specs.Inner.Policed.{KnowsPolicing};

    ghost Value = { State };

    ghost view = { λ m. m.relay };

    ghost invariant = { λ m. AgreesWith m.relay.run m.gauges × KnowsPolicing m.relay.run m.policing × (m.relay.run.finished ≡ false) × IsRun m.relay.run };
}

/// A measuring relay that has carried out all that was left. Contracts see the same state.
#[derive(Drop)]
pub struct Measured<'a, A: Allocator> {
    relayed: Relayed<'a, A>,
    gauges: Option<Gauges<A>>,
    policing: Option<Policing<A>>,
}

impl<'a, A: Allocator> Model for Measured<'a, A> {
    ghost use Rattle.afdx_core.specs.State.{State};
    ghost use Rattle.afdx_measure.specs.Inner.Gauged.{AgreesWith};
    ghost use Rattle.afdx_measure.specs.Inner.Policed.{KnowsPolicing};

    ghost Value = { State };

    ghost view = { λ m. m.relayed };

    ghost invariant = { λ m. AgreesWith m.relayed.run m.gauges × KnowsPolicing m.relayed.run m.policing };
}

/// What was noted of a run that is over, all of which was handed out. Contracts see the state of its switch.
#[derive(Drop)]
pub struct Measures<'a, A: Allocator> {
    relayed: Relayed<'a, A>,
    gauges: Gauges<A>,
}

impl<'a, A: Allocator> Model for Measures<'a, A> {
    ghost use Rattle.afdx_core.specs.State.{State};
    ghost use Rattle.afdx_measure.specs.Handed.{AllHandedOut};
    ghost use Rattle.afdx_measure.specs.Inner.Gauged.{AreGauged};

    ghost Value = { State };

    ghost view = { λ m. m.relayed };

    ghost invariant = { λ m. AreGauged m.relayed.run m.gauges × AllHandedOut m.relayed.run };
}

/// [`Measures`], and when links were policed. Contracts see the state of the switch.
#[derive(Drop)]
pub struct Survey<'a, A: Allocator> {
    pub(crate) measures: Measures<'a, A>,
    pub(crate) policing: Policing<A>,
}

impl<'a, A: Allocator> Model for Survey<'a, A> {
    ghost use Rattle.afdx_core.specs.State.{State};
    ghost use Rattle.afdx_measure.specs.Inner.Policed.{IsPoliced};

    ghost Value = { State };

    ghost view = { λ s. s.measures };

    ghost invariant = { λ s. IsPoliced s.measures.run s.policing };
}

/// Returns whether all lists are wanted.
fn keeps_lists(wanted: Wanted) -> bool
    ensures { result ≡ keeps_lists wanted }
{
    match wanted {
        Wanted::Nothing | Wanted::Measures | Wanted::Survey => false,
        Wanted::Lists => true,
    }
}

/// Makes the gauges of a table, if they are wanted; none if memory ran out.
fn gauges_of<A: Allocator + Copy>(alloc: A, table: &Table, wanted: Wanted) -> Option<Gauges<A>>
    ensures { AgreesWith (fresh_run table.now) result }
{
    match wanted {
        Wanted::Measures | Wanted::Survey => match Gauges::new(alloc, table) {
            Ok(gauges) => Some(gauges),
            Err(_) => None,
        },
        Wanted::Nothing | Wanted::Lists => None,
    }
}

/// Makes what is to be noted of the policing of a table's links, if it is wanted; none if memory ran out.
fn policing_of<A: Allocator + Copy>(alloc: A, table: &Table, wanted: Wanted) -> Option<Policing<A>>
    ensures { KnowsPolicing (fresh_run table.now) result }
{
    match wanted {
        Wanted::Survey => match Policing::new(alloc, table) {
            Ok(policing) => Some(policing),
            Err(_) => None,
        },
        Wanted::Nothing | Wanted::Measures | Wanted::Lists => None,
    }
}

/// Returns whether each port has handed out all that it sent. O(ports).
fn all_handed_out<A: Allocator + Copy>(relayed: &Relayed<'_, A>) -> bool
    ensures { IsTrue result ↔ AllHandedOut relayed.now.run }
{
    ports_are_distinct();
    for port in relayed.table().ports() {
        if relayed.next_sent(port.id).is_some() {
            return false;
        }
    }
    true
}

/// Returns what was noted at the ports, if anything was, and if all was handed out.
fn measures_of<'a, A: Allocator + Copy>(
    relayed: Relayed<'a, A>,
    gauges: Option<Gauges<A>>,
) -> Option<Measures<'a, A>>
    requires { AgreesWith relayed.run gauges }
    ensures some { IfSome result (λ measures. measures ≡ relayed.entry) }
    ensures none { IfNone result (AllHandedOut relayed.entry.run → gauges ≡ None) }
{
    if !all_handed_out(&relayed) {
        return None;
    }
    match gauges {
        Some(gauges) => Some(Measures { relayed, gauges }),
        None => None,
    }
}

/// Notes at the ports an arrival that the switch has just taken. The gauges are lent a copy: so the step itself need not lie in memory
/// where nothing is noted.
#[inline(always)]
fn note_arrival<A: Allocator + Copy>(
    gauges: &mut Option<Gauges<A>>,
    relay: &Relay<'_, A>,
    at: Stamp,
    step: &Step,
)
    ensures { (r : Run) (row : Arrived) (size : ℕ) → AgreesWith r gauges.old → HasArrived r row at size step.now relay.now.run → AgreesWith relay.now.run gauges.new }
{
    match gauges {
        Some(gauges) => gauges.note_arrival(relay, at, &step.copied()),
        None => {}
    }
}

/// Notes whether its policing passed an arrival of this size that the switch has just taken. The step is copied as by [`note_arrival`].
#[inline(always)]
fn note_policing<A: Allocator + Copy>(
    policing: &mut Option<Policing<A>>,
    relay: &Relay<'_, A>,
    at: Stamp,
    size: u32,
    step: &Step,
)
    requires { relay.now.run.latest ≤ at }
    ensures { (r : Run) (row : Arrived) → KnowsPolicing r policing.old → HasArrived r row at size step.now relay.now.run → KnowsPolicing relay.now.run policing.new }
{
    let noted = match policing {
        Some(policing) => policing.note(relay, at, size, &step.copied()),
        None => Ok(()),
    };
    if noted.is_err() {
        *policing = None;
    }
}

/// Notes that the port at a place hands out its next copy, which was sent as this.
fn note_sent<A: Allocator + Copy>(
    gauges: &mut Option<Gauges<A>>,
    table: &Table,
    place: usize,
    sent: &Sent,
)
    ensures { (r : Run) → r.table ≡ table.now → AgreesWith r gauges.old → next_at r place ≡ Some sent.now → AgreesWith (after_handing place r) gauges.new }
{
    let noted = match gauges {
        Some(gauges) => gauges.note_sent(table, place, sent),
        None => Ok(()),
    };
    if noted.is_err() {
        *gauges = None;
    }
}

impl<'a, A: Allocator + Copy> Measuring<'a, A> {
    /// Makes a switch that has taken nothing, over a table that was not checked.
    ///
    /// An error says that memory ran out; the table is dropped then. O(links + ports); if delays and buffers are wanted, O(links * ports): 32 bytes
    /// for each link at each port.
    pub fn new(alloc: A, table: Table, wanted: Wanted) -> Result<Self, AllocError>
        ensures { IfOk result (λ s. s ≡ fresh_state false (keeps_lists wanted) table) }
    {
        calls_make_runs();
        let gauges = gauges_of(alloc, &table, wanted);
        let policing = policing_of(alloc, &table, wanted);
        let relay = Relay::new(alloc, table, keeps_lists(wanted))?;
        Ok(Measuring {
            relay,
            gauges,
            policing,
        })
    }

    /// Makes a switch that has taken nothing, over a table that was checked and accepted.
    ///
    /// An error says that memory ran out; the table is dropped then. The cost is that of [`Measuring::new`].
    pub fn cleared(alloc: A, cleared: Cleared, wanted: Wanted) -> Result<Self, AllocError>
        ensures { IfOk result (λ s. (s ≡ fresh_state true (keeps_lists wanted) cleared) × IsAccepted cleared) }
    {
        calls_make_runs();
        let table = cleared.table();
        let gauges = gauges_of(alloc, table, wanted);
        let policing = policing_of(alloc, table, wanted);
        let relay = Relay::cleared(alloc, cleared, keeps_lists(wanted))?;
        Ok(Measuring {
            relay,
            gauges,
            policing,
        })
    }

    /// Takes an arrival, as [`Relay::arrive`] does, with its refusals and its cost.
    #[inline(always)]
    pub fn arrive(
        &mut self,
        in_port: u8,
        arrived: Record<'a, A>,
    ) -> Result<Step, (CoreFault, Record<'a, A>)>
        requires not_late { arrived.stamp < last_second }
        ensures ok { IfOk result (λ step. IsTaken self.old self.new (row_of self.old.run.table in_port arrived.entry) arrived.entry step
            × (refusal_of self.old.run in_port arrived.entry.stamp ≡ None)) }
        ensures err { IfErr result (λ e. IsRefused self.old self.new in_port arrived.entry e) }
    {
        calls_make_runs();
        let at = arrived.stamp();
        let size = arrived.size();
        match self.relay.arrive(in_port, arrived) {
            Ok(step) => {
                note_arrival(&mut self.gauges, &self.relay, at, &step);
                note_policing(&mut self.policing, &self.relay, at, size, &step);
                Ok(step)
            }
            Err(refused) => Err(refused),
        }
    }

    /// Carries out the starts before the instant that the stamp reaches, as [`Relay::advance`] does.
    pub fn advance(&mut self, to: Stamp) -> Result<(), CoreFault>
        ensures ok { OnOk result ((self.old.run.latest ≤ to) × (self.new.run ≡ after_advance to self.old.run) × Keeps self.old self.new) }
        ensures err { IfErr result (λ e. (to < self.old.run.latest) × (e ≡ CoreFault.Earlier) × (self.new ≡ self.old)) }
    {
        calls_make_runs();
        calls_add_what_is_sent();
        self.relay.advance(to)
    }

    /// Returns how many different frames are held. O(1).
    pub fn held(&self) -> usize
        ensures { result ≡ held_count self.now.run }
    {
        self.relay.held()
    }

    /// Lends the switch's table. O(1).
    pub fn table(&self) -> &Table
        ensures { result.now ≡ self.now.run.table }
    {
        self.relay.table()
    }

    /// Returns the instant of the first start or discard that was not carried out, as [`Relay::next_event`] does.
    pub fn next_event(&self) -> Option<Stamp>
        ensures { IsNextEvent self.now.run result }
    {
        self.relay.next_event()
    }

    /// Returns what the port's next frame that was not handed out was sent as, as [`Relay::next_sent`] does.
    pub fn next_sent(&self, port: u8) -> Option<(usize, Sent)>
        ensures { IsNextOf self.now.run port result }
    {
        self.relay.next_sent(port)
    }

    /// Hands out the port's next sent frame, as [`Relay::next_out`] does.
    pub fn next_out(&mut self, port: u8) -> Result<Option<Record<'a, A>>, AllocError>
        ensures ok { IfOk result (λ out. IsNext self.old self.new port out) }
        ensures err { OnErr result (self.new ≡ self.old) }
    {
        calls_make_runs();
        if self.gauges.is_none() {
            return self.relay.next_out(port);
        }
        let next = self.relay.next_sent(port);
        let out = self.relay.next_out(port)?;
        if let Some((place, sent)) = next {
            note_sent(&mut self.gauges, self.relay.table(), place, &sent);
        }
        Ok(out)
    }

    /// Appends the next frame's text to a capture, as [`Relay::next_out_into`] does.
    #[inline(always)]
    pub fn next_out_into<B: Allocator>(
        &mut self,
        port: u8,
        capture: &mut Vec<u8, B>,
    ) -> Result<bool, AllocError>
        ensures ok { IfOk result (λ some. IsAppended self.old self.new port capture.old.items capture.new.items some) }
        ensures err { OnErr result (self.new ≡ self.old) }
        ensures err_capture { OnErr result (capture.new.items ≡ capture.old.items) }
    {
        calls_make_runs();
        if self.gauges.is_none() {
            return self.relay.next_out_into(port, capture);
        }
        let next = self.relay.next_sent(port);
        let some = self.relay.next_out_into(port, capture)?;
        if let Some((place, sent)) = next {
            note_sent(&mut self.gauges, self.relay.table(), place, &sent);
        }
        Ok(some)
    }

    /// Carries out all that is left. O(ports), and O(1) for each start. It takes no memory.
    pub fn finish(self) -> Measured<'a, A>
        ensures run { result.run ≡ after_finish self.entry.run }
        ensures keeps { Keeps self.entry result }
        ensures is_run { IsRun result.run }

        // Over an accepted table: the headline, for all that was taken.
        ensures isolated { self.entry.accepted ≡ true → IsIsolatedRun result.run }
    {
        calls_make_runs();
        calls_add_what_is_sent();
        Measured {
            relayed: self.relay.finish(),
            gauges: self.gauges,
            policing: self.policing,
        }
    }
}

impl<'a, A: Allocator + Copy> Measured<'a, A> {
    /// Lends the relay. O(1).
    pub fn relayed(&self) -> &Relayed<'a, A>
        ensures { result.now ≡ self.now }
    {
        &self.relayed
    }

    /// Appends the next frame's text to a capture, as [`Relayed::next_out_into`] does.
    pub fn next_out_into<B: Allocator>(
        &mut self,
        port: u8,
        capture: &mut Vec<u8, B>,
    ) -> Result<bool, AllocError>
        ensures ok { IfOk result (λ some. IsAppended self.old self.new port capture.old.items capture.new.items some) }
        ensures err { OnErr result (self.new ≡ self.old) }
        ensures err_capture { OnErr result (capture.new.items ≡ capture.old.items) }
    {
        if self.gauges.is_none() {
            return self.relayed.next_out_into(port, capture);
        }
        let next = self.relayed.next_sent(port);
        let some = self.relayed.next_out_into(port, capture)?;
        if let Some((place, sent)) = next {
            note_sent(&mut self.gauges, self.relayed.table(), place, &sent);
        }
        Ok(some)
    }

    /// Turns it into a finished switch with all its lists, which have to be kept. O(1).
    pub fn into_done(self) -> Done<'a, A>
        requires { self.keeps ≡ true }
        ensures { result ≡ self.entry }
    {
        self.relayed.into_done()
    }

    /// Returns what was noted at the ports; none if it was not wanted, if memory ran out for it, or if a port has not handed out all that
    /// it sent. O(ports).
    pub fn into_measures(self) -> Option<Measures<'a, A>>
        ensures { IfSome result (λ measures. measures ≡ self.entry) }
    {
        measures_of(self.relayed, self.gauges)
    }

    /// Returns the same, and what was noted of links' policing. O(ports).
    pub fn into_survey(self) -> Option<Survey<'a, A>>
        ensures { IfSome result (λ survey. survey ≡ self.entry) }
    {
        let Measured {
            relayed,
            gauges,
            policing,
        } = self;
        let Some(policing) = policing else {
            return None;
        };
        match measures_of(relayed, gauges) {
            Some(measures) => Some(Survey { measures, policing }),
            None => None,
        }
    }
}

impl<'a, A: Allocator + Copy> Measures<'a, A> {
    /// Lends the switch's table. O(1).
    pub fn table(&self) -> &Table
        ensures { result.now ≡ self.now.run.table }
    {
        self.relayed.table()
    }

    /// Finds what was noted at a port.
    fn at(&self, port: u8) -> Option<&AtPort<A>>
        ensures at { MatchOption result (port_row self.now.run.table port ≡ None) (λ at. IsOfPort self.now.run port at.now) }
        ensures all { AllHandedOut self.now.run }
    {
        match self.relayed.place_of(port) {
            Some(place) => self.gauges.at(place),
            None => None,
        }
    }

    /// Returns the delays of the copies that a port sent for the link at a place of the table; those of no copies if there is no such port or
    /// link. O(1).
    pub fn delays_at(&self, link: usize, port: u8) -> Delays
        ensures there { (l : Link) → slice_get self.now.run.table.links link ≡ Some l
            → result ≡ summary_of (delays_of l.id (sent_in self.now.run (port_row self.now.run.table port))) }
        ensures no_link { slice_get self.now.run.table.links link ≡ None → result ≡ summary_of [] }
        ensures no_port { port_row self.now.run.table port ≡ None → result ≡ summary_of [] }
    {
        match self.at(port) {
            Some(at) => at.delays_of(link),
            None => Delays::none(),
        }
    }

    /// Returns the greatest number of bytes that the buffer of a port held when a frame had been admitted, at the first admission that
    /// reached it; none if no frame was admitted, or if there is no such port. O(1).
    pub fn peak_at(&self, port: u8) -> Option<Filling>
        ensures there { (p : PortRow) → port_row self.now.run.table port ≡ Some p → result ≡ peak_at self.now.run p }
        ensures no_port { port_row self.now.run.table port ≡ None → result ≡ None }
    {
        match self.at(port) {
            Some(at) => at.peak,
            None => None,
        }
    }
}

impl<'a, A: Allocator + Copy> Survey<'a, A> {
    /// Lends what was noted at the ports. O(1).
    pub fn measures(&self) -> &Measures<'a, A>
        ensures { result.now ≡ self.now }
    {
        &self.measures
    }

    /// Lends the spells in which the link at a place of the table was policed, in order; none if there is no such link. O(1).
    pub fn spells_at(&self, place: usize) -> &[Spell]
        ensures there { (l : Link) → slice_get self.now.run.table.links place ≡ Some l → result.now ≡ spells_in self.now.run l }
        ensures no_link { slice_get self.now.run.table.links place ≡ None → result.now ≡ [] }
    {
        self.policing.spells_at(place)
    }

    /// Returns how many frames came. O(1).
    pub fn frames(&self) -> usize
        ensures { result ≡ length self.now.run.rows }
    {
        self.policing.span().count()
    }

    /// Returns the stamp of the first of them, if there is one. O(1).
    pub fn first(&self) -> Option<Stamp>
        ensures { result ≡ stamp_at 0 self.now.run.rows }
    {
        self.policing.span().first()
    }

    /// Returns the stamp of the last of them, if there is one. O(1).
    pub fn last(&self) -> Option<Stamp>
        ensures { result ≡ stamp_at (length self.now.run.rows - 1) self.now.run.rows }
    {
        self.policing.span().last()
    }
}
