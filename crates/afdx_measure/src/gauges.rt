//! What is noted of a run while it goes on.

ghost use Rattle.std.specs.Prelude.{◌≡◌, ◌≢◌, ℕ, ◌<◌, [], ◌∷◌, ◌++◌, List, length, slice_get, slice_index_or, Some, None, IfOk, OnOk};
ghost use Rattle.std.specs.Option.{option_copied};
ghost use Rattle.afdx_core.specs.declared.step.Row.{Row as Arrived};
ghost use Rattle.afdx_core.specs.State.{Run, fresh_run, after_handing, next_at, occupied_in, place_of};
ghost use Rattle.afdx_measure.specs.Delays.{delay_of, summary_of};
ghost use Rattle.afdx_measure.specs.Peak.{peak_of};
ghost use Rattle.afdx_measure.specs.declared.filling.Filling.{Filling as Full};
ghost use Rattle.afdx_measure.specs.Inner.Arriving.{HasArrived};
ghost use Rattle.afdx_measure.specs.Inner.Gauged.{AreGauged, IsFresh, AreFresh, IsFilledAt, IsSentAt, Fill, ArePeaks, DelaysStay};

use crate::delays::Delays;
use crate::filling::{Filling, fuller};
use afdx_core::laws::{arrivals_join, calls_add_what_is_sent, verdicts_name_links};
use afdx_core::{Offers, Relay, Step};
use afdx_port::{Offer, Sent};
use afdx_table::Table;
use afdx_table::laws::ports_are_distinct;
use afdx_units::Stamp;
use std::alloc::{AllocError, Allocator};

/// What is noted at one port.
#[derive(Drop)]
pub(crate) struct AtPort<A: Allocator> {
    /// The delays of the copies that it handed out, by the places of the links in the table.
    delays: Vec<Delays, A>,
    /// The peak over all that it admitted.
    pub(crate) peak: Option<Filling>,
}

/// What is noted at each port of a table.
#[derive(Drop)]
pub(crate) struct Gauges<A: Allocator> {
    /// By rising port.
    ports: Vec<AtPort<A>, A>,
}

impl<A: Allocator + Copy> AtPort<A> {
    /// Makes what is noted at a port that has admitted and handed out nothing, of a table with so many links.
    fn new(alloc: A, links: usize) -> Result<AtPort<A>, AllocError>
        ensures { IfOk result (IsFresh links) }
    {
        Ok(AtPort {
            delays: vec![in alloc; Delays::none(); links]?,
            peak: None,
        })
    }

    /// Returns the delays of the copies of the link at a place; those of no copies if there is no such link.
    pub(crate) fn delays_of(&self, link: usize) -> Delays
        ensures { result ≡ slice_index_or self.now.delays.items link (summary_of []) }
    {
        if link < self.delays.len() {
            self.delays[link]
        } else {
            Delays::none()
        }
    }

    /// Notes a copy that was handed out, of the link at a place.
    fn note_sent(&mut self, link: usize, sent: &Sent) -> Result<(), AllocError>
        ensures peak { self.new.peak ≡ self.old.peak }
        ensures long { length self.new.delays.items ≡ length self.old.delays.items }
        ensures others { (k : ℕ) (d : Delays) → k ≢ link → slice_index_or self.new.delays.items k d ≡ slice_index_or self.old.delays.items k d }
        ensures here { (ns : List ℕ) (d : Delays) → link < length self.old.delays.items → slice_index_or self.old.delays.items link d ≡ summary_of ns
            → OnOk result (slice_index_or self.new.delays.items link d ≡ summary_of (ns ++ delay_of sent.now ∷ [])) }
    {
        if link < self.delays.len() {
            self.delays[link] = self.delays[link].with_sent(sent)?;
        }
        Ok(())
    }

    /// Notes that the buffer held so much once a frame had been admitted.
    fn note_filling(&mut self, filling: Filling)
        ensures delays { self.new.delays ≡ self.old.delays }
        ensures peak { (all : List Full) → self.old.peak ≡ peak_of all → self.new.peak ≡ peak_of (all ++ filling ∷ []) }
    {
        self.peak = Some(fuller(self.peak, filling));
    }
}

/// Makes what is noted at the ports of a table, with nothing at each.
fn ports_of<A: Allocator + Copy>(alloc: A, table: &Table) -> Result<Vec<AtPort<A>, A>, AllocError>
    ensures { IfOk result (λ ports. AreFresh table.now ports.items) }
{
    let mut ports = Vec::new(alloc);
    for _place in 0..table.ports().len() {
        ports.push(AtPort::new(alloc, table.link_count())?)?;
    }
    Ok(ports)
}

/// Notes that the buffer of the port at a place held so much once a frame had been admitted.
fn note_filling_at<A: Allocator + Copy>(ports: &mut [AtPort<A>], place: usize, filling: Filling)
    ensures { IsFilledAt place filling ports.old ports.new }
{
    if place < ports.len() {
        ports[place].note_filling(filling);
    }
}

/// Notes that a port handed out a copy of a link; both are given by their places.
fn note_sent_at<A: Allocator + Copy>(
    ports: &mut [AtPort<A>],
    place: usize,
    link: usize,
    sent: &Sent,
) -> Result<(), AllocError>
    ensures { OnOk result (IsSentAt place link sent.now ports.old ports.new) }
{
    if place < ports.len() {
        ports[place].note_sent(link, sent)?;
    }
    Ok(())
}

/// Notes what a port that was offered a copy then holds, if it queued it. O(1).
fn note_offer<A: Allocator + Copy>(
    ports: &mut [AtPort<A>],
    relay: &Relay<'_, A>,
    at: Stamp,
    port: u8,
    offer: Offer,
)
    ensures queued { (place : ℕ) → offer ≡ Offer.Queued → place_of relay.now.run port ≡ Some place
        → IsFilledAt place (record { bytes = occupied_in relay.now.run (slice_get relay.now.run.table.ports place); at = at }) ports.old ports.new }
    ensures full { offer ≡ Offer.Full → ports.new ≡ ports.old }
    ensures nowhere { place_of relay.now.run port ≡ None → ports.new ≡ ports.old }
    ensures delays { DelaysStay ports.old ports.new }
{
    match offer {
        Offer::Queued => {
            if let Some(place) = relay.place_of(port) {
                let bytes = relay.occupied(place);
                note_filling_at(ports, place, Filling { bytes, at });
            }
        }
        Offer::Full => {}
    }
}

/// Notes what the ports that queued a copy of an arrival then hold. O(offers).
fn note_fillings<A: Allocator + Copy>(
    ports: &mut [AtPort<A>],
    relay: &Relay<'_, A>,
    at: Stamp,
    offers: &Offers,
)
    ensures peaks { (r : Run) → Fill r relay.now.run at offers.now → ArePeaks r relay.now.run [] ports.old → ArePeaks r relay.now.run offers.now ports.new }
    ensures delays { DelaysStay ports.old ports.new }
{
    ports_are_distinct();
    for asked in 0..offers.len() {
        let (port, offer) = offers.get(asked).unwrap();
        note_offer(ports, relay, at, port, offer);
    }
}

impl<A: Allocator + Copy> Gauges<A> {
    /// Makes what is noted of a run that has taken nothing.
    ///
    /// An error says that memory ran out. O(links * ports): 32 bytes for each link at each port.
    pub(crate) fn new(alloc: A, table: &Table) -> Result<Gauges<A>, AllocError>
        ensures { IfOk result (λ g. AreGauged (fresh_run table.now) g) }
    {
        let ports = ports_of(alloc, table)?;
        Ok(Gauges { ports })
    }

    /// Lends what is noted at the port at a place. O(1).
    pub(crate) fn at(&self, place: usize) -> Option<&AtPort<A>>
        ensures { option_copied result ≡ slice_get self.now.ports.items place }
    {
        self.ports.get(place)
    }

    /// Notes an arrival that the switch has just taken. O(offers).
    pub(crate) fn note_arrival(&mut self, relay: &Relay<'_, A>, at: Stamp, step: &Step)
        ensures { (r : Run) (row : Arrived) (size : ℕ) → AreGauged r self.old → HasArrived r row at size step.now relay.now.run → AreGauged relay.now.run self.new }
    {
        arrivals_join();
        calls_add_what_is_sent();
        verdicts_name_links();
        note_fillings(&mut self.ports, relay, at, &step.offers);
    }

    /// Notes that the port at a place hands out its next copy, which was sent as this. O(1).
    ///
    /// An error says that a count would pass 2^64 - 1; what was noted is of no use then.
    pub(crate) fn note_sent(
        &mut self,
        table: &Table,
        place: usize,
        sent: &Sent,
    ) -> Result<(), AllocError>
        ensures { (r : Run) → r.table ≡ table.now → AreGauged r self.old → next_at r place ≡ Some sent.now → OnOk result (AreGauged (after_handing place r) self.new) }
    {
        match table.link_place(sent.item.link) {
            Some(link) => note_sent_at(&mut self.ports, place, link, sent),
            None => Ok(()),
        }
    }
}
