//! What is known at one switch.

ghost use Rattle.std.specs.Prelude.{◌≡◌, ◌<◌, [], length, slice_index_or, IfNone, IfOk, IfSome, OnErr, OnOk, Contains};
ghost use Rattle.afdx_measure.specs.declared.delays.Delays.{Delays as Summary};
ghost use Rattle.afdx_measure.specs.Delays.{summary_of};
ghost use Rattle.afdx_origins.specs.declared.at_link.AtLink.{AtLink as Seen};
ghost use Rattle.afdx_origins.specs.Inner.Known.{NoneCame, IsFreshSwitch, HasComing, HasDelay};

use crate::at_link::{AtLink, Coming};
use afdx_measure::Delays;
use afdx_table::Table;
use afdx_units::Stamp;
use std::alloc::{AllocError, Global};

/// What is known of each link at a switch, by the places of the links in its table.
#[derive(Drop)]
pub(crate) struct AtSwitch {
    links: Vec<AtLink>,
}

impl AtSwitch {
    /// Makes a switch with this table, at which nothing is known.
    ///
    /// An error says that memory ran out. O(links), and 32 bytes for each of their ports.
    pub(crate) fn new(alloc: Global, table: &Table) -> Result<AtSwitch, AllocError>
        ensures { IfOk result (IsFreshSwitch table.now) }
    {
        let mut links = Vec::new(alloc);
        for place in 0..table.link_count() {
            let ports = table.link_at(place).unwrap().to.as_slice();
            links.push(AtLink::new(alloc, ports.len())?)?;
        }
        Ok(AtSwitch { links })
    }

    /// Returns when the frame of the link at a place that came at an instant had come to its first switch; none if no such frame is
    /// known.
    pub(crate) fn first_of(&self, place: usize, at: Stamp) -> Option<Stamp>
        ensures came { (a : Seen) → IfSome result (λ first. Contains (slice_index_or self.now.links.items place a).coming.items (record { at = at; first = first })) }
        ensures none { (a : Seen) → place < length self.now.links.items → IfNone result (NoneCame (slice_index_or self.now.links.items place a).coming.items at) }
    {
        self.links.get(place)?.first_of(at)
    }

    /// Adds one frame of the link at a place, which came over a wire.
    ///
    /// An error says that memory ran out, or that there is no such link.
    pub(crate) fn add(&mut self, place: usize, coming: Coming) -> Result<(), AllocError>
        ensures { OnOk result (HasComing place coming self.old.links.items self.new.links.items) }
    {
        if place >= self.links.len() {
            return Err(AllocError);
        }
        self.links[place].add(coming)
    }

    /// Notes the delay of a copy of the link at a place, which the port at a place of its row sent.
    ///
    /// An error says that a count would pass 2^64 - 1, or that there is no such link or port.
    pub(crate) fn note(&mut self, place: usize, port: usize, delay: u64) -> Result<(), AllocError>
        ensures delays { OnOk result (HasDelay place port delay self.old.links.items self.new.links.items) }
        ensures full { OnErr result ((a : Seen) (d : Summary) → place < length self.old.links.items → port < length (slice_index_or self.old.links.items place a).delays.items
            → (slice_index_or (slice_index_or self.old.links.items place a).delays.items port d).count ≡ 18446744073709551615) }
    {
        if place >= self.links.len() {
            return Err(AllocError);
        }
        self.links[place].note(port, delay)
    }

    /// Returns the delays of the link at a place, at the port at a place of its row; those of no copies if there is no such link or
    /// port.
    pub(crate) fn delays_at(&self, place: usize, port: usize) -> Delays
        ensures { (a : Seen) → place < length self.now.links.items → result ≡ slice_index_or (slice_index_or self.now.links.items place a).delays.items port (summary_of []) }
    {
        match self.links.get(place) {
            Some(link) => link.delays_at(port),
            None => Delays::none(),
        }
    }
}
