//! What a frame takes from a switch to the next one.

ghost use Rattle.std.specs.Prelude.{◌≡◌, ◌≤◌, ◌==◌, slice_get, position, option_copied, option_map, option_and_then, All, IfOk, IfSome};
ghost use Rattle.afdx_table.specs.Content.{port_row};
ghost use Rattle.afdx_table.specs.WellFormed.{IsWellFormed};
ghost use Rattle.afdx_load.specs.Bounds.{bounds_of};
ghost use Rattle.afdx_network_check.specs.Net.{bound_in, load_at};
ghost use Rattle.afdx_network_check.specs.Inner.Loads.{switch_bounds};
ghost use Rattle.afdx_network_check.specs.Order.{row_of, within_reason, hop_on};

use crate::network::Network;
use crate::row::Row;
use afdx_grouping::laws::only_ports_count;
use afdx_grouping::lesser_bounds;
use afdx_jitter::{Delays, hop};
use afdx_load::Bounds;
use afdx_table::{Table, port_place};
use afdx_units::Priority;
use std::alloc::{AllocError, Global};
use std::marker::Model;

/// No table that is accepted has a bound of more nanoseconds.
const MAX_BOUND: u128 = 1_000_000_000_000;

/// The bounds of all switches of a network: frames come one after the other where that is known, and latencies differ as the network
/// says.
///
/// Contracts see it as the network.
#[derive(Drop)]
pub(crate) struct Hops<'a> {
    network: &'a Network,
    /// The bounds of each switch's ports, in the order of its table.
    bounds: Vec<Vec<Bounds>>,
}

impl<'a> Model for Hops<'a> {
    ghost use Rattle.std.specs.Prelude.{◌≡◌, map};
    ghost use Rattle.afdx_network_check.specs.Net.{Network as Seen};
    ghost use Rattle.afdx_network_check.specs.Inner.Loads.{bounds_from};

    ghost Value = { Seen };

    ghost view = { λ h. h.network.now };

    ghost invariant = { λ h. map (λ bounds. bounds.items) h.bounds.items ≡ bounds_from h.network.now 0 h.network.now.tables };
}

/// Returns the bound of a priority, if there is one.
fn bound_in(bounds: Bounds, priority: Priority) -> Option<u128>
    ensures { result ≡ bound_in bounds priority }
{
    match priority {
        Priority::High => bounds.high,
        Priority::Low => bounds.low,
    }
}

/// Returns the bound, if a table may have it.
fn within_reason(bound: u128) -> Option<u64>
    ensures bound { result ≡ within_reason bound }
    ensures limit { IfSome result (λ b. b ≤ 1000000000000) }
{
    if bound <= MAX_BOUND {
        Some(bound as u64)
    } else {
        None
    }
}

/// Returns the bounds of the port of a number, from those of a table's ports in their order.
fn bounds_in(table: &Table, bounds: &[Bounds], port: u8) -> Option<Bounds>
    ensures { result ≡ option_and_then (slice_get bounds.now) (position (λ p. p.id == port) table.now.ports) }
{
    let place = port_place(table.ports(), port)?;
    bounds.get(place).copied()
}

/// Returns the bounds that are kept of a switch.
fn kept_at(bounds: &[Vec<Bounds>], switch: usize) -> Option<&Vec<Bounds>>
    ensures { option_copied result ≡ slice_get bounds.now switch }
{
    bounds.get(switch)
}

/// Finds the bounds of a switch's ports.
fn switch_bounds(
    alloc: Global,
    network: &Network,
    switch: usize,
    table: &Table,
) -> Result<Vec<Bounds>, AllocError>
    ensures bounds { IfOk result (λ bounds. bounds.items ≡ switch_bounds network.now switch table.now) }
    ensures well_formed { IsWellFormed table.now }
{
    only_ports_count();
    let scatter = network.scatter_at(switch, table);
    lesser_bounds(alloc, table, &network.roundings(switch), scatter)
}

impl<'a> Hops<'a> {
    /// Finds the bounds of each switch's ports, as [`lesser_bounds`](afdx_grouping::lesser_bounds) does. An error says that
    /// memory ran out.
    pub(crate) fn new(alloc: Global, network: &'a Network) -> Result<Hops<'a>, AllocError>
        ensures network { IfOk result (λ h. h ≡ network.now) }
        ensures well_formed { IfOk result (λ _. All IsWellFormed network.now.tables) }
    {
        let mut all = Vec::new(alloc);
        for (switch, table) in network.tables().iter().enumerate() {
            all.push(switch_bounds(alloc, network, switch, table)?)?;
        }
        Ok(Hops {
            network,
            bounds: all,
        })
    }

    /// Returns the network. O(1).
    pub(crate) fn network(&self) -> &'a Network
        ensures { result.now ≡ self.now }
    {
        self.network
    }

    /// Returns the bounds of a port of a switch.
    fn bounds_at(&self, switch: usize, port: u8) -> Option<Bounds>
        ensures { result ≡ option_and_then (λ t. option_map (λ p. bounds_of (load_at self.now switch t p)) (port_row t port)) (slice_get self.now.tables switch) }
    {
        let table = self.network.table(switch)?;
        bounds_in(table, kept_at(&self.bounds, switch)?, port)
    }

    /// Returns what a frame of a row's link takes from its arrival at the row's switch over a port and the cable from there.
    pub(crate) fn hop_on(&self, row: Row<'_>, port: u8, cable: u32) -> Option<Delays>
        ensures hop { result ≡ hop_on self.now (row_of row.entry) port cable }
        ensures limits { IfSome result (λ d. (d.least ≤ 2199023255552) × (d.most ≤ 2199023255552)) }
    {
        let table = self.network.table(row.switch)?;
        let start = table.port(port)?;
        let bounds = self.bounds_at(row.switch, port)?;
        let link = row.link;
        let bound = within_reason(bound_in(bounds, link.priority)?)?;
        let least = self.network.least_at(row.switch, table);
        Some(hop(start.speed, least, bound, u64::from(cable)))
    }
}
