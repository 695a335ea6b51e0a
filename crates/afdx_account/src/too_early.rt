//! How early a frame comes.

ghost use Rattle.std.specs.Prelude.{◌≡◌, ◌-◌, ◌<◌, ◌≤◌};
ghost use Rattle.afdx_account.specs.Early.{credit_time, IsEarlyBy};

use crate::meter::Meter;
use afdx_units::Stamp;

/// Returns by how many nanoseconds a frame of this size in bytes, which its link may send at all, comes too early at an
/// instant: the least time after which an account would pass it, if no frame is passed meanwhile; 0 if the account
/// passes it at this instant. O(1).
pub fn early_by<M: Meter>(meter: &M, at: Stamp, size: u32) -> u64
    requires in_order { M.since meter.now ≤ at }
    requires credited { 0 < (M.terms meter.now).rate }
    ensures by_level { result ≡ credit_time (M.terms meter.now) ((M.terms meter.now).price size - M.level meter.now at) }
    ensures by_windows { IsEarlyBy (M.terms meter.now) (M.since meter.now) (M.level meter.now (M.since meter.now)) at size result }
{
    let lacking = meter.price(size).saturating_sub(meter.level_at(at));
    lacking.div_ceil(meter.rate())
}
