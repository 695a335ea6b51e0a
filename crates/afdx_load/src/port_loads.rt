//! The loads of all ports of a table.

ghost use Rattle.std.specs.Prelude.{◌≡◌};
ghost use Rattle.afdx_load.specs.Load.{port_load};
ghost use Rattle.afdx_load.specs.Inner.Slots.{AreLoads};

use crate::port_load::Load;
use afdx_table::{PORT_PLACES, Table};
use std::marker::Model;

/// The loads of all ports of a table. [`loads`](crate::loads) makes it.
///
/// Contracts see it as the table that it borrows.
#[derive(Drop)]
pub struct Loads<'a> {
    pub(crate) table: &'a Table,
    /// Each port's load is in the place of its number.
    pub(crate) slots: [Load; PORT_PLACES],
}

impl<'a> Model for Loads<'a> {
    ghost use Rattle.afdx_table.specs.Content.{Content};
    ghost use Rattle.afdx_load.specs.Inner.Slots.{AreLoads};

    ghost Value = { Content };

    ghost view = { λ l. l.table.now };

    ghost invariant = { λ l. AreLoads l.table.now.links l.table.now.ports l.slots };
}

/// Returns the load of the port of a number, of those in their places; none if there is no such port.
#[tactic(auto, using(crate::proofs::SlotLemmas::slot_found))]
fn load_in(table: &Table, slots: &[Load; PORT_PLACES], port: u8) -> Option<Load>
    requires { AreLoads table.now.links table.now.ports slots.now }
    ensures { result ≡ port_load table.now port }
{
    let row = table.port(port)?;
    Some(slots[usize::from(row.id)].behind(table.latency()))
}

impl<'a> Loads<'a> {
    /// Returns the load of the port of a number; none if there is no such port.
    ///
    /// O(1) beside the search for the port, which looks at each of the ports, at most 24.
    pub fn at(&self, port: u8) -> Option<Load>
        ensures { result ≡ port_load self.now port }
    {
        load_in(self.table, &self.slots, port)
    }
}
