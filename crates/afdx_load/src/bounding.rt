//! How long a frame may stay at a port, and what its buffer must hold.

ghost use Rattle.std.specs.Prelude.{◌≡◌, ℕ, ◌≤◌, ◌↔◌, ◌*◌, ◌^◌};
ghost use Rattle.afdx_load.specs.Bounds.{bounds_of, backlog, byte_time};

use crate::bursts::Bursts;
use crate::delays::Bounds;
use crate::port_load::Load;
use afdx_units::Speed;

/// The whole of a line, in the parts in which rates are given.
pub const PARTS: u64 = 2_048_000_000;

/// Returns how long so many bytes are on a line of this speed, in parts of a nanosecond.
pub(crate) fn byte_time(speed: Speed, bytes: u32) -> u128
    ensures { result ≡ byte_time speed bytes }
{
    u128::from(PARTS) * u128::from(speed.tick()) * u128::from(bytes)
}

/// Returns what may wait and be on the line at once, in parts of a nanosecond, if the links ask for so much at once.
pub(crate) fn backlog(load: &Load, burst: u128) -> u128
    requires { burst ≤ 2 ^ 82 }
    ensures backlog { result ≡ backlog (record load.now { burst = burst }) }
    ensures small { result ≤ 2 ^ 83 }
{
    burst + u128::from(PARTS) * u128::from(load.largest())
}

/// Returns the bounds on the time that a frame may stay at a port of this load, in nanoseconds from its arrival to its end on the
/// line, if the links ask for so much at once: for no more than 2^82 parts of a nanosecond, neither all nor the high ones. O(1).
pub fn bounds_with(load: &Load, bursts: Bursts) -> Bounds
    requires all { bursts.all ≤ 2 ^ 82 }
    requires high { bursts.high ≤ 2 ^ 82 }
    ensures { result ≡ bounds_of (record load.now { burst = bursts.all; high_burst = bursts.high }) }
{
    let parts = u128::from(PARTS);
    let latency = u128::from(load.latency());
    let high = if load.highs() > 0 {
        Some((bursts.high + parts * u128::from(load.low_largest())) / parts + latency)
    } else {
        None
    };
    let low = if load.lows() > 0 && load.high_rate() < PARTS {
        Some(bursts.all / (parts - u128::from(load.high_rate())) + latency)
    } else {
        None
    };
    Bounds { high, low }
}

/// Returns the bounds of a port's frames, in nanoseconds from a frame's arrival to its end on the line. O(1).
pub fn bounds(load: &Load) -> Bounds
    ensures { result ≡ bounds_of load.now }
{
    bounds_with(load, load.bursts())
}

/// Returns the least buffer, in bytes, that holds what may wait and be on the line at once. O(1).
pub fn least_buffer(load: &Load, speed: Speed) -> u128
    ensures { (bytes : ℕ) → (backlog load.now ≤ byte_time speed bytes) ↔ (result ≤ bytes) }
{
    let byte = u128::from(PARTS) * u128::from(speed.tick());
    backlog(load, load.burst()).div_ceil(byte)
}
