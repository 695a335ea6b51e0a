//! What the tables at both ends of a wire agree on.

ghost use Rattle.std.specs.Prelude.{◌≡◌, ◌<◌, option_copied, length, slice_index_or};
ghost use Rattle.afdx_table.specs.WellFormed.{IsLink};
ghost use Rattle.afdx_network_check.specs.Order.{by_wires, first_of, same_rate, same_constant, same_speed, joined_at, goes_on, shares};

use crate::network::Network;
use crate::shared::{Shared, agrees};
use afdx_table::{LinkRow, PortRow, Table};
use afdx_units::Speed;
use afdx_wiring::{At, NetworkFault, Wire};

/// Returns whether two speeds are the same.
fn same_rate(one: Speed, other: Speed) -> bool
    ensures { result ≡ same_rate one other }
{
    one == other
}

/// Refuses the tables at both ends of a wire if their constant fields differ.
fn same_constant(at: At, here: Option<&Table>, there: Option<&Table>) -> Result<(), NetworkFault>
    ensures { result ≡ same_constant at (option_copied here.entry) (option_copied there.entry) }
{
    match (here, there) {
        (Some(here), Some(there)) if there.constant() == here.constant() => Ok(()),
        (Some(_), Some(_)) => Err(NetworkFault::Constant(at)),
        _ => Err(NetworkFault::NoSuchPort(at)),
    }
}

/// Refuses the ports at both ends of a wire if their speeds differ.
fn same_speed(at: At, start: Option<&PortRow>, goal: Option<&PortRow>) -> Result<(), NetworkFault>
    ensures { result ≡ same_speed at (option_copied start.entry) (option_copied goal.entry) }
{
    match (start, goal) {
        (Some(start), Some(goal)) if same_rate(goal.speed, start.speed) => Ok(()),
        (Some(_), Some(_)) => Err(NetworkFault::Speed(at)),
        _ => Err(NetworkFault::NoSuchPort(at)),
    }
}

/// Returns the link at a place in file order.
pub(crate) fn link_at(table: &Table, index: usize) -> &LinkRow
    requires { index < length table.now.links }
    ensures link { result.now ≡ slice_index_or table.now.links index result.now }
    ensures limits { IsLink table.now.ports result.now }
{
    table.link_at(index).unwrap()
}

/// Compares a row of the first table of a wire, if it leads to the wire, with the row of that link in the second one.
fn goes_on(
    what: Shared,
    at: At,
    there: &Table,
    wire: &Wire,
    link: &LinkRow,
) -> Result<(), NetworkFault>
    ensures { result ≡ goes_on what at there.now wire.now link.now }
{
    if !link.to.as_slice().contains(&wire.from.port) {
        return Ok(());
    }
    let next = there.link(link.id).ok_or(NetworkFault::NoRow(at, link.id))?;
    agrees(what, at, wire, link, next)
}

/// Compares the rows of the first table of a wire with those of the second one.
fn links_go_on(
    what: Shared,
    at: At,
    wire: &Wire,
    here: &Table,
    there: &Table,
) -> Result<(), NetworkFault>
    ensures { result ≡ first_of (goes_on what at there.now wire.now) here.now.links }
{
    for index in 0..here.link_count() {
        goes_on(what, at, there, wire, link_at(here, index))?;
    }
    Ok(())
}

impl Network {
    /// Compares the tables and the ports at both ends of a wire.
    fn joined_at(&self, at: At, wire: &Wire) -> Result<(), NetworkFault>
        ensures { result ≡ joined_at self.now at wire.now }
    {
        same_constant(at, self.table(wire.from.switch), self.table(wire.to.switch))?;
        same_speed(at, self.port_at(wire.from), self.port_at(wire.to))
    }

    /// Compares the rows at both ends of a wire.
    fn shares(&self, what: Shared, at: At, wire: &Wire) -> Result<(), NetworkFault>
        ensures { result ≡ shares self.now what at wire.now }
    {
        match (self.table(wire.from.switch), self.table(wire.to.switch)) {
            (Some(here), Some(there)) => links_go_on(what, at, wire, here, there),
            _ => Err(NetworkFault::NoSuchPort(at)),
        }
    }

    /// Compares the tables and the ports at both ends of each wire.
    pub(crate) fn all_joined(&self) -> Result<(), NetworkFault>
        ensures { result ≡ by_wires (joined_at self.now) 0 self.now.layout.wires }
    {
        for (index, wire) in self.layout().wires.iter().enumerate() {
            self.joined_at(At::Wire(index + 1), wire)?;
        }
        Ok(())
    }

    /// Compares the rows at both ends of each wire.
    pub(crate) fn all_share(&self, what: Shared) -> Result<(), NetworkFault>
        ensures { result ≡ by_wires (shares self.now what) 0 self.now.layout.wires }
    {
        for (index, wire) in self.layout().wires.iter().enumerate() {
            self.shares(what, At::Wire(index + 1), wire)?;
        }
        Ok(())
    }
}
