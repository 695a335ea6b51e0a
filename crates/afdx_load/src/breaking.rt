//! Which rules a port's load breaks.

ghost use Rattle.std.specs.Prelude.{◌≡◌, nat_lt, false};
ghost use Rattle.std.specs.Option.{option_map_or};
ghost use Rattle.afdx_load.specs.Fits.{is_broken};

use crate::bounding::{PARTS, backlog, bounds, byte_time};
use crate::fault::Rule;
use crate::port_load::Load;
use afdx_table::PortRow;

/// Returns whether a bound is above a limit; a bound that is not there is not.
fn is_above(bound: Option<u128>, limit: u64) -> bool
    ensures { result ≡ option_map_or (λ need. nat_lt limit need) bound false }
{
    match bound {
        Some(need) => need > u128::from(limit),
        None => false,
    }
}

/// Returns whether a port's load breaks a rule: whether it needs more than the port can give. O(1).
///
/// A bound that is not there breaks nothing. So if there is a low link and the high links alone ask for the whole line or more,
/// `Rate` is broken and `LowDelay` is not.
pub fn breaks(row: &PortRow, load: &Load, rule: Rule) -> bool
    ensures { result ≡ is_broken row.now load.now rule }
{
    match rule {
        Rule::Rate => load.rate() > PARTS,
        Rule::Buffer => backlog(load, load.burst()) > byte_time(row.speed, row.buffer),
        Rule::HighDelay => is_above(bounds(load).high, row.max_delay),
        Rule::LowDelay => is_above(bounds(load).low, row.max_delay),
    }
}
