//! The jitter that a link needs on its way.

ghost use Rattle.std.specs.Prelude.{◌≡◌, ℕ, ◌≤◌, ◌*◌, ◌↔◌};
ghost use Rattle.afdx_jitter.specs.Delay.{IsEnough, least_jitter};

use crate::delays::Delays;
use afdx_units::MICROSECOND;

/// Returns the least jitter, in whole microseconds, that is enough after this part of its way for a link whose jitter is so
/// many nanoseconds, at most 10 ms, at its first switch. The delays are at most 2^60 ns.
pub fn need(delays: Delays, jitter: u64) -> u64
    requires jitter_limit { jitter ≤ 10000000 }
    requires most_limit { delays.most ≤ 1152921504606846976 }
    ensures value { result ≡ least_jitter delays jitter }
    ensures least { (us : ℕ) → IsEnough delays jitter (us * 1000) ↔ (result ≤ us) }
{
    (jitter + delays.most)
        .saturating_sub(delays.least)
        .div_ceil(MICROSECOND)
}
