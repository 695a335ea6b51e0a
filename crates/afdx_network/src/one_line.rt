//! Whether what is given for each port came over one line, one frame after the other.

ghost use Rattle.std.specs.Prelude.{◌≡◌, ◌+◌, ◌++◌, ◌∷◌, [], List, length, None, All, IfSome, IfNone, IfOk, OnOk};
ghost use Rattle.std.specs.List.{AllZip};
ghost use Rattle.afdx_table.specs.WellFormed.{IsWellFormed};
ghost use Rattle.afdx_merging.specs.Merge.{Arrival as Came};
ghost use Rattle.afdx_network_check.specs.Net.{Network as Net};
ghost use Rattle.afdx_network.specs.declared.line.Line.{Line as Kept};
ghost use Rattle.afdx_network.specs.Inner.Intake.{records_at, AreMet};
ghost use Rattle.afdx_network.specs.Inner.OneLine.{IsNew, open_rows, IsFirstBroken};

use crate::given::is_open;
use crate::line::Line;
use afdx_merging::Arrival;
use afdx_network_check::Network;
use afdx_table::Table;
use std::alloc::{AllocError, Global};

/// Appends the lines of a switch's ports to which no wire goes.
fn push_lines(
    lines: &mut Vec<Line>,
    network: &Network,
    switch: usize,
    table: &Table,
) -> Result<(), AllocError>
    ensures lines { OnOk result ((more : List Kept) × (lines.new.items ≡ lines.old.items ++ more) × AllZip IsNew (open_rows network.now switch table.now) more) }
    ensures formed { IsWellFormed table.now }
{
    for row in table.ports() {
        if is_open(network, switch, row.id) {
            lines.push(Line::new(row.speed))?;
        }
    }
    Ok(())
}

/// Lists the lines of the ports to which no wire goes, in the order of `open_ends`, if the network file says that end systems have one
/// each; else none. O(ports * wires).
pub(crate) fn given_lines(alloc: Global, network: &Network) -> Result<Vec<Line>, AllocError>
    ensures { IfOk result (λ lines. AreMet network.now lines.items []) }
{
    let mut lines = Vec::new(alloc);
    if !network.layout().one_line {
        return Ok(lines);
    }
    for (switch, table) in network.tables().iter().enumerate() {
        push_lines(&mut lines, network, switch, table)?;
    }
    Ok(lines)
}

/// Takes a record at the line of its capture, if that is among these. O(1).
pub(crate) fn meet(lines: &mut [Line], arrival: &Arrival<Global>)
    ensures { (net : Net) (came : List Came) → arrival.now.head.number ≡ length (records_at arrival.now.place came) + 1 → AreMet net lines.old came
        → AreMet net lines.new (came ++ arrival.now ∷ []) }
{
    if arrival.place < lines.len() {
        lines[arrival.place].meet(&arrival.head);
    }
}

/// Finds the first of these lines over which a record came too soon: its place, and the number of the first record that did. O(lines).
pub(crate) fn first_breach(lines: &[Line]) -> Option<(usize, u64)>
    ensures some { IfSome result (λ found. IsFirstBroken lines.now found.0 found.1) }
    ensures none { IfNone result (All (λ line. line.breach ≡ None) lines.now) }
{
    for (place, line) in lines.iter().enumerate() {
        if let Some(number) = line.breach {
            return Some((place, number));
        }
    }
    None
}
