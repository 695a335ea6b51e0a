//! What a frame takes for a part of its way.

ghost use Rattle.std.specs.Prelude.{◌≡◌, ◌+◌, ◌<◌, ◌≤◌};
ghost use Rattle.afdx_jitter.specs.Delay.{hop_of, joined, at_once};

use afdx_units::{LEAST_SIZE, Speed, cost};

/// The least and the most that a frame of a link takes for a part of its way, in nanoseconds.
#[derive(Clone, Copy, Debug, PartialEq, Eq)]
pub struct Delays {
    /// No frame takes less.
    pub least: u64,
    /// No frame takes more.
    pub most: u64,
}

impl Delays {
    /// Makes the delays before the first hop: none.
    pub fn none() -> Delays
        ensures { result ≡ at_once }
    {
        Delays { least: 0, most: 0 }
    }

    /// Adds the delays of another part of the way, which comes after this one. Either sum is at most 2^60 ns, which is more
    /// than 36 years.
    pub fn join(self, next: Delays) -> Delays
        requires least { self.least + next.least ≤ 1152921504606846976 }
        requires most { self.most + next.most ≤ 1152921504606846976 }
        ensures { result ≡ joined self next }
    {
        Delays {
            least: self.least + next.least,
            most: self.most + next.most,
        }
    }
}

/// Returns what a frame of 64 bytes or more takes from its arrival at a switch to its arrival at the next one, over a port of
/// this speed and bound: all in nanoseconds. The latency is at most 1 ms, the cable's delay less than 2^32 ns. The bound has the latency in it, and
/// is at most 2^59 ns.
pub fn hop(speed: Speed, latency: u64, bound: u64, cable: u64) -> Delays
    requires latency_limit { latency ≤ 1000000 }
    requires cable_limit { cable < 4294967296 }
    requires bound_limit { bound ≤ 576460752303423488 }
    ensures { result ≡ hop_of speed latency bound cable }
{
    Delays {
        least: latency + cost(speed, LEAST_SIZE) + cable,
        most: bound + cable,
    }
}
