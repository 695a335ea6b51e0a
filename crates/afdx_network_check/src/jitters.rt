//! The jitters that the rows of a network need.

ghost use Rattle.std.specs.Prelude.{◌≡◌, ◌≤◌, ◌++◌, ◌||◌, map, option_map, is_some, All, IfOk, IfSome, MatchResult};
ghost use Rattle.std.specs.List.{list_all};
ghost use Rattle.afdx_table.specs.WellFormed.{IsWellFormed};
ghost use Rattle.afdx_network_check.specs.Net.{rows_of};
ghost use Rattle.afdx_network_check.specs.Order.{row_of};
ghost use Rattle.afdx_network_check.specs.Inner.Given.{given, given_all};
ghost use Rattle.afdx_network_check.specs.Needs.{AreNeeds, first_needed, needed, row_with_need, need_in, past_short, past_of, all_past, is_met};

use crate::hops::Hops;
use crate::joints::link_at;
use crate::network::Network;
use crate::row::Row;
use crate::sources::MOST_ROWS;
use afdx_grouping::laws::{lesser_curves_need_less, no_more_is_paid_for};
use afdx_jitter::{Delays, need};
use afdx_load::laws::high_links_leave_a_part;
use afdx_table::Table;
use afdx_table::laws::{links_are_at_their_places, links_are_found};
use afdx_units::{MAX_JITTER, MICROSECOND};
use afdx_wiring::{NetworkFault, Short};
use std::alloc::{AllocError, Global};

/// What a row needs if no way within reason leads to it: a thousand seconds, in microseconds.
const NO_WAY: u64 = 1_000_000_000;

/// The jitter that a row has, and the one that it needs.
#[derive(Clone, Copy, Debug, PartialEq, Eq)]
pub struct RowNeed {
    /// The place of the switch in file order, from 0.
    pub switch: usize,
    /// The number of the link.
    pub link: u16,
    /// The jitter that it has, in nanoseconds.
    pub has: u64,
    /// The jitter that it needs, in whole microseconds.
    pub need: u64,
}

/// The jitters that all rows need, by switch and in the order of its table.
#[derive(Debug, Drop)]
pub struct Needs {
    /// One for each row.
    pub rows: Vec<RowNeed>,
    /// The first row whose jitter is past what a table can have; then the needs are those of the turn in which it was.
    pub past: Option<Short>,
}

/// Puts what a row has beside what it needs.
fn row_with_need(row: Row<'_>, need: u64) -> RowNeed
    ensures { result ≡ row_with_need (row_of row.entry) need }
{
    let link = row.link;
    RowNeed {
        switch: row.switch,
        link: link.id,
        has: link.jitter,
        need,
    }
}

/// Returns what a row needs to begin with: the jitter of its source.
fn first_needed(source: Option<Row<'_>>) -> u64
    ensures { result ≡ first_needed (option_map row_of source.entry) }
{
    match source {
        None => NO_WAY,
        Some(source) => {
            let link = source.link;
            link.jitter / MICROSECOND
        }
    }
}

/// Returns what a row needs after a way of these delays from a source of this jitter.
fn needed(far: Option<(u64, Delays)>) -> u64
    requires { IfSome far (λ f. (f.0 ≤ 10000000) × (f.1.most ≤ 1152921504606846976)) }
    ensures { result ≡ needed far }
{
    match far {
        None => NO_WAY,
        Some((jitter, delays)) => need(delays, jitter),
    }
}

impl<'a> Hops<'a> {
    /// Returns what a row has, and what it needs: to begin with, or after the whole way to it.
    fn need_in(&self, start: bool, row: Row<'_>) -> RowNeed
        ensures { result ≡ need_in start self.now (row_of row.entry) }
    {
        if start {
            let source = self.network().source_within(MOST_ROWS, row);
            return row_with_need(row, first_needed(source));
        }
        let far = self.way_within(MOST_ROWS, row, Delays::none());
        row_with_need(row, needed(far))
    }

    /// Adds what the rows of a switch need.
    fn add_needs(
        &self,
        needs: &mut Vec<RowNeed>,
        start: bool,
        switch: usize,
        table: &Table,
    ) -> Result<(), AllocError>
        ensures rows { IfOk result (λ _. needs.new.items ≡ needs.old.items ++ map (λ l. need_in start self.now (record { switch = switch; link = l })) table.now.links) }
        ensures well_formed { IfOk result (λ _. IsWellFormed table.now) }
    {
        for index in 0..table.link_count() {
            let link = link_at(table, index);
            needs.push(self.need_in(start, Row { switch, link }))?;
        }
        Ok(())
    }

    /// Returns what all rows need.
    fn needs(&self, alloc: Global, start: bool) -> Result<Vec<RowNeed>, AllocError>
        ensures rows { IfOk result (λ v. v.items ≡ map (need_in start self.now) (rows_of self.now)) }
        ensures well_formed { IfOk result (λ _. All IsWellFormed self.now.tables) }
    {
        let mut needs = Vec::new(alloc);
        for (switch, table) in self.network().tables().iter().enumerate() {
            self.add_needs(&mut needs, start, switch, table)?;
        }
        Ok(needs)
    }
}

impl Network {
    /// Returns what all rows need with the jitters that they have.
    fn needs(&self, alloc: Global, start: bool) -> Result<Vec<RowNeed>, AllocError>
        ensures rows { IfOk result (λ v. v.items ≡ map (need_in start self.now) (rows_of self.now)) }
        ensures well_formed { IfOk result (λ _. All IsWellFormed self.now.tables) }
    {
        let hops = Hops::new(alloc, self)?;
        hops.needs(alloc, start)
    }

    /// Returns the network with these jitters, as far as a table can have them.
    fn with_jitters(self, needs: &[RowNeed]) -> Network
        ensures { result ≡ record self { tables = given_all needs.now self.tables } }
    {
        let (layout, mut tables) = self.into_parts();
        for row in needs {
            set_jitter(&mut tables, row);
        }
        Network::from_parts(layout, tables)
    }

    /// Finds the least jitters that are enough, with the sources' own. All rows begin with the jitter of their source, and each
    /// turn gives them what they need then, until each row has what it needs or one needs more than a table can have; in the
    /// latter case no jitters of whole µs that tables can have are enough. It is asked of a network that fits, whose links ask
    /// for no more than their lines. Of another one nothing is said of least jitters, and a row needs a thousand seconds if no
    /// way with bounds of at most a thousand seconds leads to it. `Memory` is the one refusal.
    ///
    /// O(r s w) for each turn, for r rows, at most s switches on a way, and w wires, beside the bounds of each switch's ports,
    /// as [`lesser_bounds`](afdx_grouping::lesser_bounds) finds them in each turn.
    pub fn jitters(self, alloc: Global) -> Result<Needs, NetworkFault>
        ensures { MatchResult result (λ needs. AreNeeds self needs.rows.items needs.past) (λ fault. fault ≡ NetworkFault.Memory) }
    {
        links_are_found();
        links_are_at_their_places();
        high_links_leave_a_part();
        no_more_is_paid_for();
        lesser_curves_need_less();
        let first = self.needs(alloc, true)?;
        let mut network = self.with_jitters(&first);
        for _ in 0..u64::MAX {
            let rows = network.needs(alloc, false)?;
            let past = first_past(&rows);
            if is_last(past, &rows) {
                return Ok(Needs { rows, past });
            }
            network = network.with_jitters(&rows);
        }
        // A loop has to end, and no search comes to so many turns.
        Err(NetworkFault::Memory)
    }
}

/// Gives a row the jitter that it needs, if a table can have it.
fn set_jitter(tables: &mut Vec<Table>, row: &RowNeed)
    ensures { tables.new.items ≡ given row.now tables.old.items }
{
    if row.need > MAX_JITTER {
        return;
    }
    let Some(table) = tables.get_mut(row.switch) else {
        return;
    };
    if let Some(place) = table.link_place(row.link) {
        table.set_jitter(place, row.need * MICROSECOND);
    }
}

/// Returns a row that needs more than a table can have, with the most that a table can have as what it has.
fn past_short(row: &RowNeed) -> Short
    ensures { result ≡ past_short row.now }
{
    Short {
        switch: row.switch,
        link: row.link,
        need: row.need,
        has: MAX_JITTER,
    }
}

/// Returns the first row that needs more than a table can have, if there is one.
fn first_past(needs: &[RowNeed]) -> Option<Short>
    ensures { result ≡ past_of needs.now }
{
    let row = needs.iter().find(|row| row.need > MAX_JITTER)?;
    Some(past_short(row))
}

/// Returns all rows that need more than a table can have, in their order; `Needs::past` is the first. An error says that memory
/// ran out.
///
/// O(rows).
pub fn all_past(alloc: Global, needs: &[RowNeed]) -> Result<Vec<Short>, AllocError>
    ensures { IfOk result (λ shorts. shorts.items ≡ all_past needs.now) }
{
    let mut shorts = Vec::new(alloc);
    for row in needs {
        if row.need > MAX_JITTER {
            shorts.push(past_short(row))?;
        }
    }
    Ok(shorts)
}

/// Returns whether each row has what it needs.
fn are_met(needs: &[RowNeed]) -> bool
    ensures { result ≡ list_all is_met needs.now }
{
    needs.iter().all(|row| row.need <= MAX_JITTER && row.has == row.need * MICROSECOND)
}

/// Returns whether no turn comes after this one.
fn is_last(past: Option<Short>, needs: &[RowNeed]) -> bool
    ensures { result ≡ (is_some past || list_all is_met needs.now) }
{
    past.is_some() || are_met(needs)
}
