//! What an outage takes from a network's ways.

ghost use Rattle.std.specs.Prelude.{◌≡◌, ◌&&◌, IfOk};
ghost use Rattle.std.specs.List.{list_any};
ghost use Rattle.afdx_wiring.specs.File.{is_end};
ghost use Rattle.afdx_network_check.specs.Outage.{is_cut, is_lost, up_of, lost_of};

use crate::ways::Way;
use afdx_wiring::{End, Layout, Wire, is_end};
use std::alloc::{AllocError, Global};

/// Returns whether a wire that comes from this port is down.
fn is_wire_down(wires: &[Wire], end: End) -> bool
    ensures { result ≡ list_any (λ w. is_end w.from end && w.down) wires.now }
{
    wires.iter().any(|wire| is_end(wire.from, end) && wire.down)
}

/// Returns whether a link's frames go no further at an output port.
fn is_cut(layout: &Layout, end: End) -> bool
    ensures { result ≡ is_cut layout.now end }
{
    layout.is_down(end.switch) || is_wire_down(&layout.wires, end)
}

/// Returns whether a way uses something that is down.
fn is_lost(layout: &Layout, way: &Way) -> bool
    ensures { result ≡ is_lost layout.now way.now }
{
    way.ports.iter().any(|end| is_cut(layout, *end))
}

/// The ways of a network's links in an outage.
#[derive(Drop)]
pub struct OutageWays {
    /// Those that use nothing that is down, in their order.
    pub up: Vec<Way>,
    /// Those over which nothing comes, in their order.
    pub lost: Vec<Way>,
}

/// Divides these ways into those that use nothing that is down by what the network file says, and those that do.
///
/// An error says that memory ran out. O(p w) for p ports of the ways and w wires.
pub fn part_ways(alloc: Global, layout: &Layout, ways: Vec<Way>) -> Result<OutageWays, AllocError>
    ensures up { IfOk result (λ parts. parts.up.items ≡ up_of layout.now ways.items) }
    ensures lost { IfOk result (λ parts. parts.lost.items ≡ lost_of layout.now ways.items) }
{
    let mut up = Vec::new(alloc);
    let mut lost = Vec::new(alloc);
    for way in ways {
        if is_lost(layout, &way) {
            lost.push(way)?;
        } else {
            up.push(way)?;
        }
    }
    Ok(OutageWays { up, lost })
}
