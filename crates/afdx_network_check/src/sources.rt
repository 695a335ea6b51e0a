//! The sources of the links: each row is fed by one end system's port at last, and no number by two.

ghost use Rattle.std.specs.Prelude.{◌≡◌, [], ◌∷◌, ◌++◌, option_map, OnOk};
ghost use Rattle.afdx_wiring.specs.Refusal.{Gives};
ghost use Rattle.afdx_network_check.specs.Net.{rows_in, rows_of, ingress};
ghost use Rattle.afdx_network_check.specs.Order.{row_of, first_of, most_rows, source_within, has_source, is_fed, fed_numbers, each_once};

use crate::joints::link_at;
use crate::network::Network;
use crate::row::Row;
use afdx_table::Table;
use afdx_wiring::{End, NetworkFault};
use indexmap::IndexSet;
use std::alloc::Global;

/// A way has each switch at most once, and there are at most so many.
pub(crate) const MOST_ROWS: usize = 64;

impl Network {
    /// Returns the source of a row: the one at which the way back from it ends, over at most so many rows.
    #[tactic(auto, using(crate::proofs::WalkLemmas::source_step))]
    pub(crate) fn source_within<'a>(&'a self, rows: usize, row: Row<'a>) -> Option<Row<'a>>
        ensures { option_map row_of result ≡ source_within rows self.now (row_of row.entry) }
    {
        let fewer = rows.checked_sub(1)?;
        let Some(wire) = self.wire_to(row.ingress()) else {
            return Some(row);
        };
        let link = row.link;
        let before = self.row_before(link.id, wire)?;
        self.source_within(fewer, before)
    }

    /// Returns the port at which the frames of a row come in to the network, if the tables lead a way back to one. O(rows of
    /// the way), and O(wires) for each.
    pub fn source_of(&self, row: Row<'_>) -> Option<End>
        ensures { result ≡ option_map ingress (source_within most_rows self.now (row_of row.entry)) }
    {
        match self.source_within(MOST_ROWS, row) {
            Some(source) => Some(source.ingress()),
            None => None,
        }
    }

    /// Refuses a row that has no way back to a source.
    fn has_source(&self, row: Row<'_>) -> Result<(), NetworkFault>
        ensures { result ≡ has_source self.now (row_of row.entry) }
    {
        let link = row.link;
        match self.source_within(MOST_ROWS, row) {
            Some(_) => Ok(()),
            None => Err(NetworkFault::NoSource(row.switch, link.id)),
        }
    }

    /// Refuses the first row of a switch that has no way back to a source.
    fn have_sources(&self, switch: usize, table: &Table) -> Result<(), NetworkFault>
        ensures { result ≡ first_of (has_source self.now) (rows_in switch table.now.links) }
    {
        for index in 0..table.link_count() {
            let link = link_at(table, index);
            self.has_source(Row { switch, link })?;
        }
        Ok(())
    }

    /// Refuses the first of all rows that has no way back to a source.
    pub(crate) fn all_have_sources(&self) -> Result<(), NetworkFault>
        ensures { result ≡ first_of (has_source self.now) (rows_of self.now) }
    {
        for (switch, table) in self.tables().iter().enumerate() {
            self.have_sources(switch, table)?;
        }
        Ok(())
    }

    /// Returns whether an end system's port feeds a row.
    fn is_fed(&self, row: Row<'_>) -> bool
        ensures { result ≡ is_fed self.now (row_of row.entry) }
    {
        self.wire_to(row.ingress()).is_none()
    }

    /// Keeps the number of a row that an end system's port feeds; refuses a number that is kept already.
    fn meet_source(&self, met: &mut IndexSet<u16>, row: Row<'_>) -> Result<(), NetworkFault>
        ensures first { Gives (λ u. u) result (each_once met.old.keys (fed_numbers self.now (row_of row.entry ∷ []))) }
        ensures met { OnOk result (met.new.keys ≡ met.old.keys ++ fed_numbers self.now (row_of row.entry ∷ [])) }
    {
        if !self.is_fed(row) {
            return Ok(());
        }
        let link = row.link;
        if met.insert(link.id)? {
            Ok(())
        } else {
            Err(NetworkFault::TwiceSource(link.id))
        }
    }

    /// Keeps the numbers of the rows of a switch that end systems' ports feed; refuses the first that is kept already.
    fn meet_sources(
        &self,
        met: &mut IndexSet<u16>,
        switch: usize,
        table: &Table,
    ) -> Result<(), NetworkFault>
        ensures first { Gives (λ u. u) result (each_once met.old.keys (fed_numbers self.now (rows_in switch table.now.links))) }
        ensures met { OnOk result (met.new.keys ≡ met.old.keys ++ fed_numbers self.now (rows_in switch table.now.links)) }
    {
        for index in 0..table.link_count() {
            let link = link_at(table, index);
            self.meet_source(met, Row { switch, link })?;
        }
        Ok(())
    }

    /// Refuses a second source of one number.
    pub(crate) fn each_fed_once(&self, alloc: Global) -> Result<(), NetworkFault>
        ensures { Gives (λ u. u) result (each_once [] (fed_numbers self.now (rows_of self.now))) }
    {
        let mut met = IndexSet::new(alloc);
        for (switch, table) in self.tables().iter().enumerate() {
            self.meet_sources(&mut met, switch, table)?;
        }
        Ok(())
    }
}
