//! The interval of an account's level.

ghost use Rattle.std.specs.Prelude.{◌≡◌, ◌*◌, ◌-◌, ◌^◌, ◌<◌, ◌≤◌, IsTrue};
ghost use Rattle.afdx_levels.specs.Levels.{slack_of, at_rest, unknown, credited, outlook_of, may_be, after};

use crate::outlook::Outlook;
use afdx_account::Meter;
use afdx_units::Stamp;
use std::marker::Model;

/// The most nanoseconds by which stamps may be off (profile): a second.
pub const MAX_TOLERANCE: u64 = 1_000_000_000;

/// What is known of an account's level: it is no less than `least` and no more than `most`.
///
/// Both are in units of the account, and higher by what is credited within the tolerance of the stamps, so that no level lies
/// below 0. A level is at most `2^64` units, and at most `2^94` are credited within a second, so that they fit 128 bits.
/// Each call is given the tolerance, by how many nanoseconds stamps may be off: at most [`MAX_TOLERANCE`].
#[derive(Clone, Copy, Debug, PartialEq, Eq)]
pub struct Levels {
    least: u128,
    most: u128,
    since: Stamp,
}

impl Model for Levels {
    ghost use Rattle.std.specs.Prelude.{◌<◌, ◌≤◌, ◌^◌};
    ghost use Rattle.afdx_levels.specs.Levels.{Levels as Seen};

    ghost Value = { Seen };

    ghost view = { λ l. record { least = l.least; most = l.most; since = l.since } };

    ghost invariant = { λ l. (l.least ≤ l.most) × (l.most < 2 ^ 96) };

    ghost inverse = { λ l. record { least = l.least; most = l.most; since = l.since } };
}

impl Levels {
    /// Makes the levels of a full account.
    pub fn at_rest<M: Meter>(meter: &M, tolerance: u64) -> Levels
        requires { tolerance ≤ MAX_TOLERANCE }
        ensures { result ≡ at_rest (M.terms meter.now) tolerance }
    {
        let full = u128::from(meter.cap()) + 2 * slack(meter, tolerance);
        Levels {
            least: full,
            most: full,
            since: Stamp::ZERO,
        }
    }

    /// Makes the levels of an account at an instant, if nothing is known of what came before.
    pub fn unknown<M: Meter>(meter: &M, tolerance: u64, since: Stamp) -> Levels
        requires { tolerance ≤ MAX_TOLERANCE }
        ensures { result ≡ unknown (M.terms meter.now) tolerance since }
    {
        Levels {
            least: 0,
            most: u128::from(meter.cap()) + 2 * slack(meter, tolerance),
            since,
        }
    }

    /// Returns what the account may do with a frame of this size in bytes that comes at an instant. What is known of the level
    /// dates from an instant that is not later.
    pub fn outlook<M: Meter>(&self, meter: &M, tolerance: u64, at: Stamp, size: u32) -> Outlook
        requires tolerance { tolerance ≤ MAX_TOLERANCE }
        requires in_order { self.now.since ≤ at }
        ensures outlook { result ≡ outlook_of (M.terms meter.now) tolerance size (credited (M.terms meter.now) self.now at) }
        ensures known { self.now.least ≤ self.now.most }
    {
        let credit = self.credit(meter, at);
        let price = u128::from(meter.price(size));
        if self.most + credit < price {
            return Outlook::Never;
        }
        if self.least + credit < price + 2 * slack(meter, tolerance) {
            return Outlook::Unsure;
        }
        Outlook::Must
    }

    /// Learns that the account passed a frame of this size in bytes that came at an instant, or that it policed it, as by
    /// `outlook` it may have done. A full account passes the frame, and what is known of the level dates from an instant that is
    /// not later.
    pub fn learn<M: Meter>(&mut self, meter: &M, tolerance: u64, at: Stamp, size: u32, passes: bool)
        requires tolerance { tolerance ≤ MAX_TOLERANCE }
        requires in_order { self.old.since ≤ at }
        requires fits { (M.terms meter.now).price size ≤ (M.terms meter.now).cap }
        requires may_be { IsTrue (may_be (M.terms meter.now) tolerance size (credited (M.terms meter.now) self.old at) passes) }
        ensures { self.new ≡ after (M.terms meter.now) tolerance size passes (credited (M.terms meter.now) self.old at) }
    {
        let credit = self.credit(meter, at);
        let cap = u128::from(meter.cap());
        let price = u128::from(meter.price(size));
        let edge = 2 * slack(meter, tolerance);
        let least = self.least + credit;
        let most = self.most + credit;
        if passes {
            *self = Levels {
                least: least.max(price).min(cap) - price,
                most: most.min(cap + edge) - price,
                since: at,
            };
        } else {
            *self = Levels {
                least,
                most: most.min(price + edge - 1),
                since: at,
            };
        }
    }

    /// Returns the units that were credited until an instant.
    fn credit<M: Meter>(&self, meter: &M, at: Stamp) -> u128
        requires { self.now.since ≤ at }
        ensures credit { result ≡ (M.terms meter.now).rate * (at - self.now.since) }
        ensures small { result < 2 ^ 127 }
    {
        u128::from(meter.rate()) * u128::from(at.ns() - self.since.ns())
    }
}

/// Returns the units that are credited within the tolerance of the stamps.
fn slack<M: Meter>(meter: &M, tolerance: u64) -> u128
    requires { tolerance ≤ MAX_TOLERANCE }
    ensures slack { result ≡ slack_of (M.terms meter.now) tolerance }
    ensures small { result < 2 ^ 94 }
{
    u128::from(meter.rate()) * u128::from(tolerance)
}
