//! The ways of a network's links.

ghost use Rattle.std.specs.Prelude.{◌≡◌, ◌≤◌, ◌<◌, ◌+◌, ◌*◌, [], ◌∷◌, List, All, None, Ok, IsSome, IfSome, IfOk, IfErr, MatchOption};
ghost use Rattle.std.specs.List.{AllZip};
ghost use Rattle.afdx_network_check.specs.Net.{Row as SeenRow, Back};
ghost use Rattle.afdx_network_check.specs.Order.{row_of, source_within, hop_on, misfit};
ghost use Rattle.afdx_network_check.specs.Ways.{IsWayOver, IsWayOut, AreWaysOf, IsWayFault};
ghost use Rattle.afdx_network_check.specs.Inner.Walks.{IsWayTo, HopsAreThere, HasRow};

use crate::cleared_network::ClearedNetwork;
use crate::exit::Exit;
use crate::hops::Hops;
use crate::row::Row;
use crate::sources::MOST_ROWS;
use afdx_grouping::laws::bounds_are_no_more;
use afdx_jitter::{Delays, need};
use afdx_load::laws::high_links_leave_a_part;
use afdx_table::laws::links_are_found;
use afdx_wiring::{End, NetworkFault, Wire};
use std::alloc::{AllocError, Global};

/// A link's way, from an end system's port to a port that leads out of the network.
#[derive(Debug, Drop)]
pub struct Way {
    /// The number of the link.
    pub link: u16,
    /// The port at which its frames come in.
    pub from: End,
    /// The jitter in nanoseconds that the link has there.
    pub jitter: u64,
    /// The output ports on the way.
    pub ports: Vec<End>,
    /// The jitter in whole microseconds that the link needs at each switch; its own at the first.
    pub jitters: Vec<u64>,
    /// What a frame of 64 bytes or more takes, in nanoseconds, from its arrival to its end on the last line.
    pub delays: Delays,
}

impl<'a> Hops<'a> {
    /// Makes the way from a row that an end system's port feeds, over no line as yet.
    fn begin(&self, alloc: Global, row: Row<'_>) -> Way
        ensures way { IsWayOver self.now (row_of row.entry) [] result }
        ensures limits { (result.jitter ≤ 10000000) × (result.delays.least ≡ 0) × (result.delays.most ≡ 0) }
    {
        let link = row.link;
        Way {
            link: link.id,
            from: row.ingress(),
            jitter: link.jitter,
            ports: Vec::new(alloc),
            jitters: Vec::new(alloc),
            delays: Delays::none(),
        }
    }

    /// Lengthens a way to a row by the line on which that row sends the link, where it has a bound. An error says that memory ran
    /// out.
    fn lengthen(&self, way: Way, row: Row<'_>, line: &Wire) -> Result<Way, AllocError>
        requires jitter { way.jitter ≤ 10000000 }
        requires least { way.delays.least ≤ 140737488355328 }
        requires most { way.delays.most ≤ 140737488355328 }
        requires switch { row.switch ≡ line.now.from.switch }
        requires hop { IsSome (hop_on self.now (row_of row) line.now.from.port line.now.delay) }
        ensures way { IfOk result (λ w. (source : SeenRow) (stages : List Back) → IsWayOver self.now source stages way
            → IsWayOver self.now source (record { wire = line.now; row = row_of row.entry } ∷ stages) w) }
        ensures limits { IfOk result (λ w. (w.jitter ≡ way.jitter) × (w.delays.least ≤ way.delays.least + 2199023255552)
            × (w.delays.most ≤ way.delays.most + 2199023255552)) }
    {
        let mut longer = way;
        let hop = self.hop_on(row, line.from.port, line.delay).unwrap();
        longer.jitters.push(need(longer.delays, longer.jitter))?;
        longer.ports.push(line.from)?;
        longer.delays = longer.delays.join(hop);
        Ok(longer)
    }

    /// Finds the way of a row's link from its source to the row, over at most so many rows; none if the way back ends at no
    /// source. An error says that memory ran out.
    #[tactic(auto, using(crate::proofs::WalkLemmas::source_step))]
    fn way_to(&self, alloc: Global, rows: usize, row: Row<'_>) -> Result<Option<Way>, AllocError>
        requires rows { rows ≤ 64 }
        requires hops { HopsAreThere self.now }
        ensures way { IfOk result (λ found. MatchOption found (source_within rows self.now (row_of row.entry) ≡ None) (IsWayTo self.now (row_of row.entry))) }
        ensures limits { IfOk result (λ found. IfSome found (λ w. (w.jitter ≤ 10000000) × (w.delays.least ≤ rows * 2199023255552)
            × (w.delays.most ≤ rows * 2199023255552))) }
    {
        let Some(fewer) = rows.checked_sub(1) else {
            return Ok(None);
        };
        let Some(wire) = self.network().wire_to(row.ingress()) else {
            return Ok(Some(self.begin(alloc, row)));
        };
        let link = row.link;
        let Some(before) = self.network().row_before(link.id, wire) else {
            return Ok(None);
        };
        match self.way_to(alloc, fewer, before)? {
            Some(way) => Ok(Some(self.lengthen(way, before, wire)?)),
            None => Ok(None),
        }
    }

    /// Finds the way to an exit; `NoSource` of its row if that has no way back to a source. The other refusal is `Memory`.
    fn way_out(&self, alloc: Global, exit: Exit) -> Result<Way, NetworkFault>
        requires hops { HopsAreThere self.now }
        requires row { HasRow self.now exit }
        ensures way { IfOk result (λ w. IsWayOut self.now exit w) }
        ensures err { IfErr result (IsWayFault self.now) }
    {
        let end = exit.end();
        let line = Wire {
            from: end,
            to: end,
            delay: 0,
            down: false,
        };
        let row = self.network().row_before(exit.link, &line).unwrap();
        match self.way_to(alloc, MOST_ROWS, row)? {
            Some(way) => Ok(self.lengthen(way, row, &line)?),
            None => Err(NetworkFault::NoSource(exit.switch, exit.link)),
        }
    }

    /// Finds the ways to exits; refused as the first that is refused.
    fn ways_out(&self, alloc: Global, exits: &[Exit]) -> Result<Vec<Way>, NetworkFault>
        requires hops { HopsAreThere self.now }
        requires rows { All (HasRow self.now) exits.now }
        ensures ways { IfOk result (λ ways. AllZip (IsWayOut self.now) exits.now ways.items) }
        ensures err { IfErr result (IsWayFault self.now) }
    {
        let mut ways = Vec::new(alloc);
        for exit in exits {
            ways.push(self.way_out(alloc, *exit)?)?;
        }
        Ok(ways)
    }
}

impl ClearedNetwork {
    /// Finds the ways of the links, one for each port that leads out of the network: by link, then by the switch and the port
    /// at which it ends. It is asked of a network that fits, whose one refusal is `Memory`; another one may be refused with
    /// `NoSource` of a row that has no way back to a source.
    ///
    /// O(r w + e s w) for r rows, e ends, at most s switches on a way and w wires, beside their sorting and the bounds of each
    /// switch's ports, as [`lesser_bounds`](afdx_grouping::lesser_bounds) finds them.
    pub fn ways(&self, alloc: Global) -> Result<Vec<Way>, NetworkFault>
        ensures ways { IfOk result (λ ways. AreWaysOf self.now ways.items) }
        ensures err { IfErr result (IsWayFault self.now) }
        ensures fits { misfit self.now ≡ Ok tt → IfErr result (λ fault. fault ≡ NetworkFault.Memory) }
    {
        links_are_found();
        high_links_leave_a_part();
        bounds_are_no_more();
        let hops = Hops::new(alloc, self.network())?;
        let exits = self.network().exits(alloc)?;
        hops.ways_out(alloc, &exits)
    }
}
