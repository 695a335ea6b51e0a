//! What one link asks of a line, by its account.

ghost use Rattle.std.specs.Prelude.{◌≡◌, ◌≤◌, ◌^◌};
ghost use Rattle.afdx_units.specs.Line.{greatest_size};
ghost use Rattle.afdx_load.specs.Load.{rate_of, burst_of, time_of};

use afdx_account::{Account, Meter};
use afdx_table::LinkRow;
use afdx_units::{Speed, cost};

/// What one link asks of a line.
#[derive(Clone, Copy)]
pub struct Share {
    /// In the long run, in parts of the line.
    pub rate: u64,
    /// At once, in parts of a nanosecond.
    pub burst: u128,
    /// The line time of its longest frame, in nanoseconds.
    pub time: u64,
}

/// Returns what a link asks of a line of this speed: its account's credit and its greatest level, each times what a unit is
/// worth. Its greatest size and its jitter are within the limits of a table, 1518 bytes and 10,000,000 ns. O(1).
pub fn share_of(speed: Speed, link: &LinkRow) -> Share
    requires size { link.now.max_size ≤ greatest_size }
    requires jitter { link.now.jitter ≤ 10000000 }
    ensures rate { result.rate ≡ rate_of speed link.now }
    ensures burst { result.burst ≡ burst_of speed link.now }
    ensures time { result.time ≡ time_of speed link.now }
    ensures small_rate { result.rate ≤ 2 ^ 32 }
    ensures small_burst { result.burst ≤ 2 ^ 60 }
    ensures small_time { result.time ≤ 2 ^ 21 }
{
    let account = Account::new(link.police, link.max_size, link.bag, link.jitter);
    let weight = account.weight(speed);
    Share {
        rate: weight * account.rate(),
        burst: u128::from(weight) * u128::from(account.cap()),
        time: cost(speed, link.max_size),
    }
}
