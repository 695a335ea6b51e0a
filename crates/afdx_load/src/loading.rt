//! The loads of a table's ports.

ghost use Rattle.std.specs.Prelude.{◌≡◌, ℕ, true, ◌<◌, ◌≤◌, length, slice_index_or};
ghost use Rattle.std.specs.List.{AllByRecursion};
ghost use Rattle.afdx_table.specs.WellFormed.{IsPort, Rises, IsLink};
ghost use Rattle.afdx_units.specs.Line.{greatest_size};
ghost use Rattle.afdx_load.specs.Load.{Load, port_load};
ghost use Rattle.afdx_load.specs.Inner.Slots.{are_slots, HasSpeeds, AreLoads, HaveRoom, with_routed};

use crate::port_load::Load;
use crate::port_loads::Loads;
use afdx_table::{LinkRow, PORT_PLACES, PortRow, Table};
use afdx_units::Speed;

/// Returns the link at a place in file order.
fn link_at(table: &Table, index: usize) -> &LinkRow
    requires { index < length table.now.links }
    ensures link { result.now ≡ slice_index_or table.now.links index result.now }
    ensures limits { IsLink table.now.ports result.now }
    ensures members { are_slots result.now.to ≡ true }
{
    table.link_at(index).unwrap()
}

/// Returns the speed of each port, in the place of its number.
fn speeds(ports: &[PortRow]) -> [Speed; PORT_PLACES]
    requires numbers { AllByRecursion IsPort ports.now }
    requires order { Rises ports.now }
    ensures { HasSpeeds result ports.now }
{
    let mut speeds = [Speed::Ten; PORT_PLACES];
    for row in ports {
        speeds[usize::from(row.id)] = row.speed;
    }
    speeds
}

/// Adds a link to the load of each port that it leads to.
fn add_link(loads: &mut [Load; PORT_PLACES], speeds: &[Speed; PORT_PLACES], link: &LinkRow)
    requires room { HaveRoom loads.old }
    requires members { are_slots link.now.to ≡ true }
    requires size { link.now.max_size ≤ greatest_size }
    requires jitter { link.now.jitter ≤ 10000000 }
    ensures { (port : ℕ) (d : Load) → port < 25 → slice_index_or loads.new port d ≡ with_routed speeds.now loads.old link.now port d }
{
    for port in link.to.as_slice() {
        let slot = usize::from(*port);
        loads[slot] = loads[slot].with(speeds[slot], link);
    }
}

/// Returns the load of each port, in the place of its number, from one pass over the links.
pub(crate) fn slots(table: &Table) -> [Load; PORT_PLACES]
    ensures { AreLoads table.now.links table.now.ports result }
{
    let speeds = speeds(table.ports());
    let mut slots = [Load::none(); PORT_PLACES];
    for index in 0..table.link_count() {
        add_link(&mut slots, &speeds, link_at(table, index));
    }
    slots
}

/// Returns the loads of all ports, from one pass over the links.
///
/// O(p + m) for p ports and links that together name m output ports, each at least one. It takes no memory.
pub fn loads(table: &Table) -> Loads<'_>
    ensures { result ≡ table.now }
{
    Loads {
        table,
        slots: slots(table),
    }
}

/// Returns the load of the port of a number; none if there is no such port.
///
/// It costs as much as [`loads`], which serves all ports at once.
pub fn load(table: &Table, port: u8) -> Option<Load>
    ensures { result ≡ port_load table.now port }
{
    loads(table).at(port)
}
