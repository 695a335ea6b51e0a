//! The lesser bursts of a port, and its bounds by them.

ghost use Rattle.std.specs.Prelude.{◌≡◌, ◌<◌, ◌≤◌, ◌^◌, Some, option_map, IfOk};
ghost use Rattle.afdx_account.specs.Policing.{parts};
ghost use Rattle.afdx_table.specs.Content.{port_row};
ghost use Rattle.afdx_table.specs.WellFormed.{IsWellFormed};
ghost use Rattle.afdx_load.specs.Load.{load_of};
ghost use Rattle.afdx_grouping.specs.Burst.{least_burst, IsLeastBurst};
ghost use Rattle.afdx_grouping.specs.Groups.{line_at, all_curves, high_curves, lesser_bounds};
ghost use Rattle.afdx_grouping.specs.Lined.{rounding_in};
ghost use Rattle.afdx_grouping.specs.Scatter.{scattered};

use crate::curve::{Curve, least_burst};
use crate::group::{KnownLine, group_at};
use crate::laws::no_more_is_paid_for;
use afdx_load::{Bounds, Bursts, Load, Loads, PARTS, bounds_with, loads};
use afdx_table::laws::ports_are_found;
use afdx_table::{PORT_PLACES, PortRow, Table};
use arrayvec::ArrayVec;
use std::alloc::{AllocError, Global};

/// The curves of a port's groups: of all links, and of the high ones.
#[derive(Drop)]
struct Curves {
    all: ArrayVec<Curve, 24>,
    high: ArrayVec<Curve, 24>,
}

/// Returns the line at a port, if frames are known to come over it one after the other.
fn line_at(roundings: &[Option<u16>; PORT_PLACES], from: &PortRow) -> Option<KnownLine>
    requires { from.now.id < 25 }
    ensures { result ≡ line_at (rounding_in roundings.now) from.now }
{
    let rounding = roundings[usize::from(from.id)]?;
    Some(KnownLine {
        speed: from.speed,
        rounding,
    })
}

/// Makes the curves of the groups of a port, one for each port of the table, with latencies that differ by so many nanoseconds.
fn group_curves(
    table: &Table,
    roundings: &[Option<u16>; PORT_PLACES],
    scatter: u64,
    to: &PortRow,
) -> Curves
    requires { scatter ≤ 100000 }
    ensures all { result.all.items ≡ all_curves scatter table.now (rounding_in roundings.now) to.now }
    ensures high { result.high.items ≡ high_curves scatter table.now (rounding_in roundings.now) to.now }
    ensures well_formed { IsWellFormed table.now }
{
    let mut all = ArrayVec::new();
    let mut high = ArrayVec::new();
    for from in table.ports() {
        let line = line_at(roundings, from);
        let group = group_at(table, from.id, to);
        all.push(group.all_curve(to.speed, &line, scatter));
        high.push(group.high_curve(to.speed, &line, scatter));
    }
    Curves { all, high }
}

/// Finds the least bursts of a port at which links come in over lines: those that are enough for the groups of the links that
/// come in at one port (network calculus: grouping). `roundings` says, in the places of the ports' numbers, over which lines
/// frames come one after the other, and by how many nanoseconds their stamps there may be rounded down. Latencies differ by
/// `scatter` nanoseconds, at most 100,000. Neither burst is more than the links ask for at once then. If the links ask for more
/// than the line, nothing is enough, and the bursts are only no more than that.
///
/// O(p n + p^2) for p ports and n links. It takes no memory.
pub fn lesser_bursts(
    table: &Table,
    roundings: &[Option<u16>; PORT_PLACES],
    scatter: u64,
    to: &PortRow,
) -> Bursts
    requires { scatter ≤ 100000 }
    ensures all { result.all ≡ least_burst parts (all_curves scatter table.now (rounding_in roundings.now) to.now) }
    ensures high { result.high ≡ least_burst parts (high_curves scatter table.now (rounding_in roundings.now) to.now) }
    ensures least { (load_of table.now.latency to.now.speed to.now.id table.now.links).rate ≤ parts
        → IsLeastBurst parts result.all (all_curves scatter table.now (rounding_in roundings.now) to.now) }
    ensures high_least { (load_of table.now.latency to.now.speed to.now.id table.now.links).rate ≤ parts
        → IsLeastBurst parts result.high (high_curves scatter table.now (rounding_in roundings.now) to.now) }
    ensures no_more { let load = scattered scatter (load_of table.now.latency to.now.speed to.now.id table.now.links) in
        (result.all ≤ load.burst) × (result.high ≤ load.high_burst) }
    ensures all_small { result.all ≤ 2 ^ 82 }
    ensures high_small { result.high ≤ 2 ^ 82 }
{
    no_more_is_paid_for();
    let curves = group_curves(table, roundings, scatter, to);
    Bursts {
        all: least_burst(PARTS, curves.all.as_slice()),
        high: least_burst(PARTS, curves.high.as_slice()),
    }
}

/// Returns the load of a port of the loads' table.
pub(crate) fn load_at(loads: &Loads<'_>, to: &PortRow) -> Load
    requires { port_row loads.now to.now.id ≡ Some to.now }
    ensures { result ≡ load_of loads.now.latency to.now.speed to.now.id loads.now.links }
{
    loads.at(to.id).unwrap()
}

/// Finds the bounds of the time that a frame may stay at each port of a table, in the order of its ports: by the bursts that
/// [`lesser_bursts`] finds, with its `roundings` and `scatter`, in nanoseconds from the frame's arrival to its end on the line.
///
/// An error says that memory ran out. O(p^2 n + p^3) for p ports and n links, and O(p) memory.
pub fn lesser_bounds(
    alloc: Global,
    table: &Table,
    roundings: &[Option<u16>; PORT_PLACES],
    scatter: u64,
) -> Result<Vec<Bounds>, AllocError>
    requires { scatter ≤ 100000 }
    ensures bounds { IfOk result (λ bounds. bounds.items ≡ lesser_bounds scatter (rounding_in roundings.now) table.now) }
    ensures well_formed { IsWellFormed table.now }
{
    ports_are_found();
    let loads = loads(table);
    let mut bounds = Vec::new(alloc);
    for to in table.ports() {
        let bursts = lesser_bursts(table, roundings, scatter, to);
        bounds.push(bounds_with(&load_at(&loads, to), bursts))?;
    }
    Ok(bounds)
}
