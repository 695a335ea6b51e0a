//! What a run asks for: which captures are to be given, and that no two wires go to one port.

ghost use Rattle.std.specs.Prelude.{◌≡◌, ◌++◌, map, filter, All, IfErr, IfOk, OnOk, Some};
ghost use Rattle.afdx_network_check.specs.Net.{wire_to};
ghost use Rattle.afdx_network.specs.declared.fault.NetworkRunFault.TheVariants.{WrongWires};
ghost use Rattle.afdx_network.specs.Given.{is_open, open_ends, all_ends, NoneShareAPort};
ghost use Rattle.afdx_network.specs.Inner.Sites.{end_at};

use crate::fault::NetworkRunFault;
use afdx_network_check::Network;
use afdx_table::Table;
use afdx_wiring::End;
use std::alloc::{AllocError, Global};

/// Returns whether no wire goes to this port of the switch at this place, so that its capture is one of those that are given. O(wires).
pub(crate) fn is_open(network: &Network, switch: usize, port: u8) -> bool
    ensures { result ≡ is_open network.now switch port }
{
    network.wire_to(End { switch, port }).is_none()
}

/// Appends the ports of the switch at a place to which no wire goes.
fn push_open(
    ends: &mut Vec<End>,
    network: &Network,
    switch: usize,
    table: &Table,
) -> Result<(), AllocError>
    ensures { OnOk result (ends.new.items ≡ ends.old.items ++ map (end_at switch) (filter (is_open network.now switch) (map (λ p. p.id) table.now.ports))) }
{
    for row in table.ports() {
        if is_open(network, switch, row.id) {
            ends.push(End {
                switch,
                port: row.id,
            })?;
        }
    }
    Ok(())
}

/// Lists the ports to which no wire goes, by switch and then by rising number: what comes in there is given for a run. An error says that
/// memory ran out. O(ports * wires).
pub fn open_ends(alloc: Global, network: &Network) -> Result<Vec<End>, AllocError>
    ensures { IfOk result (λ ends. ends.items ≡ open_ends network.now) }
{
    let mut ends = Vec::new(alloc);
    for (switch, table) in network.tables().iter().enumerate() {
        push_open(&mut ends, network, switch, table)?;
    }
    Ok(ends)
}

/// Appends the ports of the switch at a place.
fn push_all(ends: &mut Vec<End>, switch: usize, table: &Table) -> Result<(), AllocError>
    ensures { OnOk result (ends.new.items ≡ ends.old.items ++ map (λ p. end_at switch p.id) table.now.ports) }
{
    for row in table.ports() {
        ends.push(End {
            switch,
            port: row.id,
        })?;
    }
    Ok(())
}

/// Lists the ports of all switches, by switch and then by rising number: what leaves there is the outcome of a run. An error says that memory
/// ran out. O(ports).
pub fn all_ends(alloc: Global, network: &Network) -> Result<Vec<End>, AllocError>
    ensures { IfOk result (λ ends. ends.items ≡ all_ends network.now) }
{
    let mut ends = Vec::new(alloc);
    for (switch, table) in network.tables().iter().enumerate() {
        push_all(&mut ends, switch, table)?;
    }
    Ok(ends)
}

/// Fails with `WrongWires` if a wire goes to a port to which another one goes that is before it. O(wires^2).
pub(crate) fn check_wires(network: &Network) -> Result<(), NetworkRunFault>
    ensures ok { OnOk result (All (λ w. wire_to network.now w.to ≡ Some w) network.now.layout.wires) }
    ensures err { IfErr result (λ fault. (fault ≡ WrongWires) × (NoneShareAPort network.now → ⊥)) }
{
    let wires = network.layout().wires.as_slice();
    for wire in wires {
        if !network.is_first(wire) {
            return Err(NetworkRunFault::WrongWires);
        }
    }
    Ok(())
}
