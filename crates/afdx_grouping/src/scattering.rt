//! Loads with latencies that differ.

ghost use Rattle.std.specs.Prelude.{◌≡◌, ◌≤◌, ◌^◌};
ghost use Rattle.afdx_grouping.specs.Scatter.{scattered, first_scattered_fault};

use crate::lessening::load_at;
use afdx_load::{Bursts, Load, LoadFault, fault_with, loads};
use afdx_table::laws::ports_are_found;
use afdx_table::{PortRow, Table};

/// Returns what the links of a port ask for at once if latencies differ by so many nanoseconds, at most 100,000: at the queues
/// that is as much jitter, for each link. O(1).
pub fn scattered(load: &Load, scatter: u64) -> Bursts
    requires { scatter ≤ 100000 }
    ensures all { result.all ≡ (scattered scatter load.now).burst }
    ensures high { result.high ≡ (scattered scatter load.now).high_burst }
    ensures all_small { result.all ≤ 2 ^ 82 }
    ensures high_small { result.high ≤ 2 ^ 82 }
{
    let scatter = u128::from(scatter);
    Bursts {
        all: load.burst() + u128::from(load.rate()) * scatter,
        high: load.high_burst() + u128::from(load.high_rate()) * scatter,
    }
}

/// Returns the fault of a table if latencies differ by so many nanoseconds, at most 100,000: that of the lowest port that
/// cannot carry its links then, at the first rule that they break, in the order of [`check`](afdx_load::check); none if there
/// is no such port. With 0 it is what `check` names.
///
/// O(p + m) for a table of p ports whose links together name m output ports. It takes no memory.
pub fn first_scattered_fault(table: &Table, scatter: u64) -> Option<LoadFault>
    requires { scatter ≤ 100000 }
    ensures { result ≡ first_scattered_fault scatter table.now.latency table.now.links table.now.ports }
{
    ports_are_found();
    let loads = loads(table);
    for row in table.ports() {
        let load = load_at(&loads, row);
        let fault = fault_with(row, &load, scattered(&load, scatter));
        if fault.is_some() {
            return fault;
        }
    }
    None
}
