//! A network: its wiring and the tables of its switches.

ghost use Rattle.std.specs.Prelude.{◌≡◌, ◌<◌, ◌≤◌, ◌↔◌, ℕ, IsTrue, MatchResult, Ok, Err, Some, option_map, option_copied, slice_get, find};
ghost use Rattle.afdx_grouping.specs.Lined.{rounding_in};
ghost use Rattle.afdx_wiring.specs.File.{is_end};
ghost use Rattle.afdx_network_check.specs.Net.{port_at, row_at, ingress, wire_to, rounding_at, stated_least, least_at, scatter_at};
ghost use Rattle.afdx_network_check.specs.Order.{row_of, is_port, lost_port, lost_latency, leading, row_before};

use crate::row::Row;
use afdx_table::{PORT_PLACES, PortRow, Table};
use afdx_wiring::{At, End, Layout, NetworkFault, Wire, is_end};
use std::marker::Model;

/// By how many nanoseconds a stamp of whole microseconds is below the instant at which its frame came, at most (profile).
pub const STAMP_ROUNDING: u16 = 999;

/// A network: each end of its wires is a port.
///
/// Contracts see its layout and its tables.
#[derive(Drop)]
pub struct Network {
    layout: Layout,
    tables: Vec<Table>,
}

impl Model for Network {
    ghost use Rattle.std.specs.Prelude.{◌≡◌, Ok};
    ghost use Rattle.afdx_network_check.specs.Net.{Network as Seen};
    ghost use Rattle.afdx_network_check.specs.Order.{lost_port};

    ghost Value = { Seen };

    ghost view = { λ n. record { layout = n.layout; tables = n.tables.items } };

    ghost invariant = { λ n. lost_port n.tables.items n.layout.wires ≡ Ok tt };
}

/// Returns whether an end of a wire is a port by the tables of the switches.
fn is_port(tables: &[Table], end: End) -> bool
    ensures { result ≡ is_port tables.now end }
{
    match tables.get(end.switch) {
        Some(table) => table.port(end.port).is_some(),
        None => false,
    }
}

/// Refuses the first wire of which an end is no port.
#[tactic(auto, unfolding(crate::specs::Order::lost_port))]
fn check_ports(tables: &[Table], wires: &[Wire]) -> Result<(), NetworkFault>
    ensures { result ≡ lost_port tables.now wires.now }
{
    for (index, wire) in wires.iter().enumerate() {
        if !is_port(tables, wire.from) || !is_port(tables, wire.to) {
            return Err(NetworkFault::NoSuchPort(At::Wire(index + 1)));
        }
    }
    Ok(())
}

impl<'a> Row<'a> {
    /// Returns the port at which the link comes in.
    pub(crate) fn ingress(&self) -> End
        ensures { result ≡ ingress (row_of self.now) }
    {
        let link = self.link;
        End {
            switch: self.switch,
            port: link.from,
        }
    }
}

/// Returns the row, if it leads to the port.
fn leading(port: u8, row: Row<'_>) -> Option<Row<'_>>
    ensures { option_map row_of result ≡ leading port (row_of row.entry) }
{
    let link = row.link;
    if link.to.as_slice().contains(&port) {
        Some(row)
    } else {
        None
    }
}

impl Network {
    /// Makes the network of a layout and of the tables of its switches, in the order of the switches. Refuses the first wire of
    /// which an end is no port of its switch's table: `NoSuchPort`.
    ///
    /// O(w) for w wires; each port is looked for among the at most 24 of its table.
    pub fn new(layout: Layout, tables: Vec<Table>) -> Result<Network, NetworkFault>
        ensures { MatchResult result
            (λ net. (net ≡ record { layout = layout; tables = tables.items }) × (lost_port tables.items layout.wires ≡ Ok tt))
            (λ fault. lost_port tables.items layout.wires ≡ Err fault) }
    {
        check_ports(&tables, &layout.wires)?;
        Ok(Network { layout, tables })
    }

    /// Refuses the first switch whose least latency is said to be above its table's latency: `Latency`. O(s) for s switches.
    pub fn check_latencies(&self) -> Result<(), NetworkFault>
        ensures { result ≡ lost_latency self.now 0 self.now.tables }
    {
        for (switch, table) in self.tables.iter().enumerate() {
            if table.latency() < self.stated_least(switch) {
                return Err(NetworkFault::Latency(switch));
            }
        }
        Ok(())
    }

    /// Returns the least that the switch at a place is said to take, in nanoseconds; 0 if it is not known.
    fn stated_least(&self, switch: usize) -> u64
        ensures { result ≡ stated_least self.now switch }
    {
        match self.layout.switches.get(switch) {
            Some(stated) => stated.least,
            None => 0,
        }
    }

    /// Returns the least that the switch at a place, which has this table, takes for a frame, in nanoseconds. O(1).
    pub(crate) fn least_at(&self, switch: usize, table: &Table) -> u64
        ensures least { result ≡ least_at self.now switch table.now }
        ensures most { result ≤ table.now.latency }
        ensures small { result ≤ 100000 }
    {
        self.stated_least(switch).min(table.latency())
    }

    /// Returns by how many nanoseconds the latencies of the switch at a place, which has this table, may differ. O(1).
    pub(crate) fn scatter_at(&self, switch: usize, table: &Table) -> u64
        ensures scatter { result ≡ scatter_at self.now switch table.now }
        ensures small { result ≤ 100000 }
    {
        table.latency() - self.least_at(switch, table)
    }

    /// Returns what the network file says. O(1).
    pub fn layout(&self) -> &Layout
        ensures layout { result.now ≡ self.now.layout }
        ensures ports { lost_port self.now.tables self.now.layout.wires ≡ Ok tt }
    {
        &self.layout
    }

    /// Returns the tables, in the order of the switches. O(1).
    pub fn tables(&self) -> &[Table]
        ensures tables { result.now ≡ self.now.tables }
        ensures ports { lost_port self.now.tables self.now.layout.wires ≡ Ok tt }
    {
        &self.tables
    }

    /// Takes the network apart into its layout and its tables. O(1).
    pub(crate) fn into_parts(self) -> (Layout, Vec<Table>)
        ensures parts { (result.0 ≡ self.layout) × (result.1.items ≡ self.tables) }
        ensures ports { lost_port self.tables self.layout.wires ≡ Ok tt }
    {
        (self.layout, self.tables)
    }

    /// Makes a network of these parts again, of which each end of a wire is a port. O(1).
    pub(crate) fn from_parts(layout: Layout, tables: Vec<Table>) -> Network
        requires { lost_port tables.items layout.wires ≡ Ok tt }
        ensures { result ≡ record { layout = layout; tables = tables.items } }
    {
        Network { layout, tables }
    }

    /// Returns the table of the switch at a place, from 0, if there is one. O(1).
    pub fn table(&self, switch: usize) -> Option<&Table>
        ensures { option_copied result ≡ slice_get self.now.tables switch }
    {
        self.tables.get(switch)
    }

    /// Returns the port at an end of a wire.
    pub(crate) fn port_at(&self, end: End) -> Option<&PortRow>
        ensures { option_copied result ≡ port_at self.now end }
    {
        self.table(end.switch)?.port(end.port)
    }

    /// Returns the row of a link in a switch's table, if there is one. O(1).
    pub fn row_at(&self, switch: usize, id: u16) -> Option<Row<'_>>
        ensures { option_map row_of result ≡ row_at self.now switch id }
    {
        let link = self.table(switch)?.link(id)?;
        Some(Row { switch, link })
    }

    /// Returns the wire that goes to a port, if one does. O(wires).
    pub fn wire_to(&self, end: End) -> Option<&Wire>
        ensures { option_copied result ≡ wire_to self.now end }
    {
        self.layout.wires.iter().find(|wire| is_end(wire.to, end))
    }

    /// Returns whether a wire is the first that goes to its port. O(wires).
    pub fn is_first(&self, wire: &Wire) -> bool
        ensures { IsTrue result ↔ (wire_to self.now wire.now.to ≡ Some wire.now) }
    {
        match self.wire_to(wire.to) {
            Some(first) => first == wire,
            None => false,
        }
    }

    /// Returns to within how many nanoseconds frames come one after the other at a port, if that is known. O(wires).
    fn rounding_at(&self, end: End) -> Option<u16>
        ensures { result ≡ rounding_at self.now end.switch end.port }
    {
        if self.wire_to(end).is_some() {
            Some(0)
        } else if self.layout.one_line {
            Some(STAMP_ROUNDING)
        } else {
            None
        }
    }

    /// Returns to within how many nanoseconds frames come one after the other at each port of a switch, if that is known: in
    /// the place of the port's number. O(wires) for each place.
    pub(crate) fn roundings(&self, switch: usize) -> [Option<u16>; PORT_PLACES]
        ensures { (port : ℕ) → port < 25 → rounding_in result port ≡ rounding_at self.now switch port }
    {
        let mut roundings: [Option<u16>; PORT_PLACES] = [None; PORT_PLACES];
        for port in 0..PORT_PLACES {
            let end = End {
                switch,
                port: port as u8,
            };
            roundings[port] = self.rounding_at(end);
        }
        roundings
    }

    /// Returns the row that sends a link on a wire, if there is one.
    pub(crate) fn row_before(&self, id: u16, wire: &Wire) -> Option<Row<'_>>
        ensures { option_map row_of result ≡ row_before self.now id wire.now }
    {
        let row = self.row_at(wire.from.switch, id)?;
        leading(wire.from.port, row)
    }
}
