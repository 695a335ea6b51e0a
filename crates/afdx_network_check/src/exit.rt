//! The ports at which links lead out of a network.

ghost use Rattle.std.specs.Prelude.{◌≡◌, ◌++◌, flat_map, option_copied, IfOk};
ghost use Rattle.std.specs.List.Sorted.{IsPermutation, IsSorted};
ghost use Rattle.afdx_network_check.specs.Net.{rows_in};
ghost use Rattle.afdx_network_check.specs.Order.{row_of};
ghost use Rattle.afdx_network_check.specs.Ways.{wire_from, end_of, leads_out, exits_at, exits_of, by_link};

use crate::joints::link_at;
use crate::network::Network;
use crate::row::Row;
use afdx_table::Table;
use afdx_wiring::{End, Wire, is_end};
use std::alloc::{AllocError, Global};

/// An output port from which no wire comes, and a link that leads there; in order by link, then by switch and port.
#[derive(Clone, Copy, PartialEq, Eq, PartialOrd, Ord)]
pub struct Exit {
    /// The number of the link.
    pub link: u16,
    /// The place of the switch in file order, from 0.
    pub switch: usize,
    /// The number of the port.
    pub port: u8,
}

impl Exit {
    /// Returns the port. O(1).
    pub fn end(self) -> End
        ensures { result ≡ end_of self }
    {
        End {
            switch: self.switch,
            port: self.port,
        }
    }
}

impl Network {
    /// Returns the wire that comes from a port, if one does.
    fn wire_from(&self, end: End) -> Option<&Wire>
        ensures { option_copied result ≡ wire_from self.now end }
    {
        self.layout()
            .wires
            .iter()
            .find(|wire| is_end(wire.from, end))
    }

    /// Returns whether no wire comes from the port.
    fn leads_out(&self, exit: Exit) -> bool
        ensures { result ≡ leads_out self.now exit }
    {
        self.wire_from(exit.end()).is_none()
    }

    /// Adds the exits of a row.
    fn add_exits(&self, exits: &mut Vec<Exit>, row: Row<'_>) -> Result<(), AllocError>
        ensures { IfOk result (λ _. exits.new.items ≡ exits.old.items ++ exits_at self.now (row_of row.entry)) }
    {
        let link = row.link;
        for port in link.to.as_slice() {
            let exit = Exit {
                link: link.id,
                switch: row.switch,
                port: *port,
            };
            if self.leads_out(exit) {
                exits.push(exit)?;
            }
        }
        Ok(())
    }

    /// Adds the exits of a switch's rows.
    fn add_exits_in(
        &self,
        exits: &mut Vec<Exit>,
        switch: usize,
        table: &Table,
    ) -> Result<(), AllocError>
        ensures { IfOk result (λ _. exits.new.items ≡ exits.old.items ++ flat_map (exits_at self.now) (rows_in switch table.now.links)) }
    {
        for index in 0..table.link_count() {
            let link = link_at(table, index);
            self.add_exits(exits, Row { switch, link })?;
        }
        Ok(())
    }

    /// Returns the exits of all rows, by switch and in the order of its table.
    fn all_exits(&self, alloc: Global) -> Result<Vec<Exit>, AllocError>
        ensures { IfOk result (λ exits. exits.items ≡ exits_of self.now) }
    {
        let mut exits = Vec::new(alloc);
        for (switch, table) in self.tables().iter().enumerate() {
            self.add_exits_in(&mut exits, switch, table)?;
        }
        Ok(exits)
    }

    /// Returns the exits of all links, in their order. O(e w) for e ends of rows and w wires, and their sorting.
    ///
    /// An error says that memory ran out.
    pub fn exits(&self, alloc: Global) -> Result<Vec<Exit>, AllocError>
        ensures all { IfOk result (λ exits. IsPermutation (exits_of self.now) exits.items) }
        ensures order { IfOk result (λ exits. IsSorted by_link exits.items) }
    {
        let mut exits = self.all_exits(alloc)?;
        exits.sort_unstable();
        Ok(exits)
    }
}
