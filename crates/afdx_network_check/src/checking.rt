//! Whether the jitters of a network's rows are enough.

ghost use Rattle.std.specs.Prelude.{◌≡◌, ◌≤◌, ◌+◌, ◌*◌, [], ◌++◌, option_to_list, IfOk, OnOk, IfSome};
ghost use Rattle.afdx_wiring.specs.Refusal.{Gives};
ghost use Rattle.afdx_network_check.specs.Net.{rows_in, rows_of};
ghost use Rattle.afdx_network_check.specs.Order.{row_of, way_within, short_after, short_at, added, shorts_in, shortages, first_short, shortage};
ghost use Rattle.afdx_network_check.specs.Rules.{HasJitters};

use crate::cleared_network::ClearedNetwork;
use crate::hops::Hops;
use crate::joints::link_at;
use crate::row::Row;
use crate::sources::MOST_ROWS;
use afdx_jitter::{Delays, need};
use afdx_table::Table;
use afdx_units::MICROSECOND;
use afdx_wiring::{NetworkFault, Short};
use std::alloc::{AllocError, Global};

/// Returns what a row has and needs, if its jitter is not enough after a way of these delays from a source of this jitter;
/// `NoSource` if there is no way.
fn short_after(row: Row<'_>, far: Option<(u64, Delays)>) -> Result<Option<Short>, NetworkFault>
    requires { IfSome far (λ f. (f.0 ≤ 10000000) × (f.1.most ≤ 1152921504606846976)) }
    ensures { result ≡ short_after (row_of row.entry) far }
{
    let link = row.link;
    let Some((jitter, delays)) = far else {
        return Err(NetworkFault::NoSource(row.switch, link.id));
    };
    let need = need(delays, jitter);
    let has = link.jitter / MICROSECOND;
    if has >= need {
        return Ok(None);
    }
    Ok(Some(Short {
        switch: row.switch,
        link: link.id,
        need,
        has,
    }))
}

/// Adds a row, if there is one.
fn push_short(shorts: &mut Vec<Short>, short: Option<Short>) -> Result<(), AllocError>
    ensures { OnOk result (shorts.new.items ≡ shorts.old.items ++ option_to_list short) }
{
    if let Some(short) = short {
        shorts.push(short)?;
    }
    Ok(())
}

/// Refuses the first of these rows, if there is one.
fn first_short(shorts: &[Short]) -> Result<(), NetworkFault>
    ensures { result ≡ first_short shorts.now }
{
    match shorts.first() {
        Some(short) => Err(NetworkFault::Jitter(*short)),
        None => Ok(()),
    }
}

impl<'a> Hops<'a> {
    /// Returns the jitter of a row's source and the delays from there to the row, joined with these, which come after. The way
    /// has at most so many rows.
    #[tactic(auto, using(crate::proofs::WalkLemmas::way_step))]
    pub(crate) fn way_within(
        &self,
        rows: usize,
        row: Row<'_>,
        after: Delays,
    ) -> Option<(u64, Delays)>
        requires least { after.least + rows * 2199023255552 ≤ 1152921504606846976 }
        requires most { after.most + rows * 2199023255552 ≤ 1152921504606846976 }
        ensures way { result ≡ way_within rows self.now (row_of row.entry) after }
        ensures limits { IfSome result (λ f. (f.0 ≤ 10000000) × (f.1.most ≤ 1152921504606846976)) }
    {
        let link = row.link;
        let fewer = rows.checked_sub(1)?;
        let Some(wire) = self.network().wire_to(row.ingress()) else {
            return Some((link.jitter, after));
        };
        let before = self.network().row_before(link.id, wire)?;
        let hop = self.hop_on(before, wire.from.port, wire.delay)?;
        self.way_within(fewer, before, hop.join(after))
    }

    /// Returns what a row has and needs, if its jitter is not enough for the whole way to it.
    fn short_at(&self, row: Row<'_>) -> Result<Option<Short>, NetworkFault>
        ensures { result ≡ short_at self.now (row_of row.entry) }
    {
        short_after(row, self.way_within(MOST_ROWS, row, Delays::none()))
    }

    /// Adds the rows of a switch whose jitter is not enough.
    fn add_shorts(
        &self,
        shorts: &mut Vec<Short>,
        switch: usize,
        table: &Table,
    ) -> Result<(), NetworkFault>
        ensures { Gives (λ _. shorts.new.items) result (added shorts.old.items (shorts_in self.now (rows_in switch table.now.links))) }
    {
        for index in 0..table.link_count() {
            let link = link_at(table, index);
            let short = self.short_at(Row { switch, link })?;
            push_short(shorts, short)?;
        }
        Ok(())
    }

    /// Returns all rows whose jitter is not enough.
    fn shorts(&self, alloc: Global) -> Result<Vec<Short>, NetworkFault>
        ensures { Gives (λ shorts. shorts.items) result (shorts_in self.now (rows_of self.now)) }
    {
        let mut shorts = Vec::new(alloc);
        for (switch, table) in self.network().tables().iter().enumerate() {
            self.add_shorts(&mut shorts, switch, table)?;
        }
        Ok(shorts)
    }
}

impl ClearedNetwork {
    /// Returns all rows whose jitter is not enough for the whole way to them, by switch and in the order of its table. If there
    /// is none, the jitters are enough. It is asked of a network that fits: it refuses another one with `NoSource` if a row has
    /// no way back. The other refusal is `Memory`.
    ///
    /// O(r s w) for r rows, at most s switches on a way, and w wires, beside the bounds of each switch's ports, as
    /// [`lesser_bounds`](afdx_grouping::lesser_bounds) finds them; O(s) memory, and what the bounds and the rows take.
    #[tactic(auto, unfolding(crate::specs::Order::shortages))]
    pub fn shortages(&self, alloc: Global) -> Result<Vec<Short>, NetworkFault>
        ensures rows { Gives (λ shorts. shorts.items) result (shortages self.now) }
        ensures jitters { IfOk result (λ shorts. shorts.items ≡ [] → HasJitters self.now) }
    {
        let hops = Hops::new(alloc, self.network())?;
        hops.shorts(alloc)
    }

    /// Checks that the jitter of each row is enough for the whole way to it. Else it refuses with `Jitter` of the first row of
    /// `shortages`, or as `shortages` does. It costs as much.
    #[tactic(auto, unfolding(crate::specs::Order::shortage))]
    pub fn check(&self, alloc: Global) -> Result<(), NetworkFault>
        ensures first { Gives (λ u. u) result (shortage self.now) }
        ensures jitters { IfOk result (λ _. HasJitters self.now) }
    {
        let shorts = self.shortages(alloc)?;
        first_short(&shorts)
    }
}
