//! The numbers that frames had at their first switches.

ghost use Rattle.std.specs.Prelude.{◌≡◌, map, length, IfOk, option_copied, option_map, slice_get, Some};
ghost use Rattle.afdx_network_trace.specs.First.{places_of, place_at, row_at, wire_of, copy_at, number_before, first_within, first_number, AreFirstNumbers, HaveFirstNumbers};

use afdx_core::{Done, Row};
use afdx_network_check::Network;
use afdx_wiring::{End, Wire};
use std::alloc::{AllocError, Global};

/// A way has each switch at most once, and there are at most so many.
const MOST_SWITCHES: usize = 64;

/// Returns the places of arrivals among those of their ports, each counted from 0. O(arrivals).
fn places_of(alloc: Global, rows: &[Row]) -> Result<Vec<usize>, AllocError>
    ensures { IfOk result (λ places. places.items ≡ places_of rows.now) }
{
    let mut counts = [0usize; 256];
    let mut places = Vec::new(alloc);
    for row in rows {
        let port = usize::from(row.in_port);
        let count = counts[port];
        places.push(count)?;
        counts[port] = count + 1;
    }
    Ok(places)
}

/// Returns these places of the arrivals at each switch.
fn all_places(alloc: Global, dones: &[Done<'_, Global>]) -> Result<Vec<Vec<usize>>, AllocError>
    ensures { IfOk result (λ all. map (λ places. places.items) all.items ≡ map (λ s. places_of s.run.rows) dones.now) }
{
    let mut all = Vec::new(alloc);
    for done in dones {
        all.push(places_of(alloc, done.rows())?)?;
    }
    Ok(all)
}

/// What is looked through to find where a frame came from.
#[derive(Drop)]
struct Search<'s, 'a> {
    network: &'s Network,
    dones: &'s [Done<'a, Global>],
    places: &'s [Vec<usize>],
    ghost are_places: { map (λ places. places.items) places.now ≡ map (λ s. places_of s.run.rows) dones.now },
}

impl<'s, 'a> Search<'s, 'a> {
    /// Returns the place of the arrival with a number at a switch, among those of its port. O(1).
    fn place_at(&self, switch: usize, number: usize) -> Option<usize>
        ensures { result ≡ place_at self.now.dones.now switch number }
    {
        let places = self.places.get(switch)?;
        let place = places.get(number)?;
        Some(*place)
    }

    /// Returns the row of an arrival. O(1).
    fn row_at(&self, switch: usize, number: usize) -> Option<&Row>
        ensures { option_copied result ≡ row_at self.now.dones.now switch number }
    {
        let done = self.dones.get(switch)?;
        done.rows().get(number)
    }

    /// Finds the wire over which an arrival came, if it came over one. O(wires).
    fn wire_of(&self, switch: usize, number: usize) -> Option<&Wire>
        ensures { option_copied result ≡ wire_of self.now.network.now self.now.dones.now switch number }
    {
        let row = self.row_at(switch, number)?;
        let port = row.in_port;
        self.network.wire_to(End { switch, port })
    }

    /// Returns the number of the frame of the copy at a place of what a port sent. O(ports).
    fn number_at(&self, from: End, place: usize) -> Option<usize>
        ensures { result ≡ option_map (λ x. x.item.number) (copy_at self.now.dones.now from place) }
    {
        let done = self.dones.get(from.switch)?;
        let copy = done.sent(from.port).get(place)?;
        Some(copy.item.number)
    }

    /// Returns the number that the frame of an arrival that came over a wire had at the switch where the wire begins. O(ports).
    fn number_before(&self, wire: &Wire, switch: usize, number: usize) -> Option<usize>
        ensures { result ≡ number_before self.now.dones.now wire.now switch number }
    {
        let place = self.place_at(switch, number)?;
        self.number_at(wire.from, place)
    }

    /// Returns the number that the frame of an arrival had at its first switch, over at most so many switches; none if this is its first
    /// switch. O(wires + ports) for each switch of the way.
    #[tactic(auto, using(crate::proofs::Walking::first_step))]
    fn first_within(&self, switches: usize, switch: usize, number: usize) -> Option<usize>
        ensures { result ≡ first_within switches self.now.network.now self.now.dones.now switch number }
    {
        let fewer = switches.checked_sub(1)?;
        let wire = self.wire_of(switch, number)?;
        let before = self.number_before(wire, switch, number)?;
        match self.first_within(fewer, wire.from.switch, before) {
            Some(first) => Some(first),
            None => Some(before),
        }
    }

    /// Returns the same number over all switches of its way. O(wires + ports) for each.
    fn first_number(&self, switch: usize, number: usize) -> Option<usize>
        ensures { result ≡ first_number self.now.network.now self.now.dones.now switch number }
    {
        self.first_within(MOST_SWITCHES, switch, number)
    }

    /// Returns the numbers that the frames of all arrivals at a switch had at their first switches.
    fn at_switch(
        &self,
        alloc: Global,
        switch: usize,
        rows: &[Row],
    ) -> Result<Vec<Option<usize>>, AllocError>
        ensures { IfOk result (λ firsts. AreFirstNumbers self.now.network.now self.now.dones.now switch rows.now firsts.items) }
    {
        let mut firsts = Vec::new(alloc);
        for number in 0..rows.len() {
            firsts.push(self.first_number(switch, number))?;
        }
        Ok(firsts)
    }

    /// Returns these numbers for the arrivals at each switch.
    fn at_all(&self, alloc: Global) -> Result<Vec<Vec<Option<usize>>>, AllocError>
        ensures { IfOk result (λ all. HaveFirstNumbers self.now.network.now self.now.dones.now (map (λ firsts. firsts.items) all.items)) }
    {
        let dones = self.dones;
        let mut all = Vec::new(alloc);
        for switch in 0..dones.len() {
            let rows = dones[switch].rows();
            all.push(self.at_switch(alloc, switch, rows)?)?;
        }
        Ok(all)
    }
}

/// Returns, for each arrival at each switch of a network, the number that its frame had among the arrivals at its first switch; none if this
/// is its first switch. The switches are finished, and kept their lists.
///
/// An error says that memory ran out. O(arrivals), and O(wires + ports) for each of them and each switch of its way.
pub fn first_numbers(
    alloc: Global,
    network: &Network,
    dones: &[Done<'_, Global>],
) -> Result<Vec<Vec<Option<usize>>>, AllocError>
    ensures { IfOk result (λ all. HaveFirstNumbers network.now dones.now (map (λ firsts. firsts.items) all.items)) }
{
    let places = all_places(alloc, dones)?;
    let search = Search {
        network,
        dones,
        places: &places,
    };
    search.at_all(alloc)
}
