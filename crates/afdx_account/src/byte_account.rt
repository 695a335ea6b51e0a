//! Policing by bytes.

ghost use Rattle.std.specs.Prelude.{◌≡◌, ◌+◌, ◌*◌, ◌-◌, ◌≤◌, []};
ghost use Rattle.afdx_units.specs.Time.{bag_ns};
ghost use Rattle.afdx_units.specs.declared.line.Speed.{Speed};
ghost use Rattle.afdx_units.specs.Line.{greatest_size};
ghost use Rattle.afdx_account.specs.Policing.{byte_terms, byte_weight};
ghost use Rattle.afdx_account.specs.Level.{IsLevelAfter};

use crate::meter::Meter;
use afdx_units::{Bag, Speed, Stamp};

/// An account in bytes (profile): it is credited Smax in each BAG and holds at most `Smax * (1 + J / BAG)`.
///
/// A byte is kept as so many units as the BAG has nanoseconds, so that nothing is rounded. The greatest level,
/// `1518 * (128,000,000 + 10,000,000)` units, is below `2^38`.
#[derive(Clone, Copy, Debug)]
pub struct ByteAccount {
    max_size: u32,
    bag: Bag,
    jitter: u64,
    level: u64,
    since: Stamp,
    ghost size_limit: { max_size ≤ greatest_size },
    ghost jitter_limit: { jitter ≤ 10000000 },
    ghost not_above_full: { level ≤ max_size * (bag_ns bag + jitter) },
}

impl ByteAccount {
    /// Makes a full account for frames of at most `max_size` bytes (at most 1518), with a jitter of at most 10 ms.
    pub fn new(max_size: u32, bag: Bag, jitter_ns: u64) -> ByteAccount
        requires size_limit { max_size ≤ greatest_size }
        requires jitter_limit { jitter_ns ≤ 10000000 }
        ensures terms { ⟦<ByteAccount as Meter>⟧.terms result ≡ byte_terms max_size bag jitter_ns }
        ensures full { IsLevelAfter (byte_terms max_size bag jitter_ns) 0 (⟦<ByteAccount as Meter>⟧.level result 0) [] }
        ensures since { ⟦<ByteAccount as Meter>⟧.since result ≡ 0 }
        ensures weight { (speed : Speed) → ⟦<ByteAccount as Meter>⟧.weight_of result speed ≡ byte_weight bag speed }
        ensures greatest { ⟦<ByteAccount as Meter>⟧.greatest result ≡ max_size }
    {
        ByteAccount {
            max_size,
            bag,
            jitter: jitter_ns,
            level: u64::from(max_size) * (bag.ns() + jitter_ns),
            since: Stamp::ZERO,
        }
    }
}

impl Meter for ByteAccount {
    ghost use Rattle.afdx_account.specs.Account.{byte_account_terms, byte_account_since, byte_account_level, byte_account_weight, byte_account_greatest};
    ghost use Rattle.afdx_account.specs.Inner.MeterLaws.{capped_by, fills, pays_for};

    ghost terms = { byte_account_terms };

    ghost since = { byte_account_since };

    ghost level = { byte_account_level };

    ghost weight_of = { byte_account_weight };

    ghost greatest = { byte_account_greatest };

    ghost capped = { λ a at. capped_by (a.max_size * (bag_ns a.bag + a.jitter)) (a.level + a.max_size * (at - a.since)) };

    ghost credited = { λ a at later h k. fills (a.max_size * (bag_ns a.bag + a.jitter)) a.max_size a.level a.since at later h k };

    ghost pays = { λ a speed size h k. pays_for a.bag speed size h };

    fn cap(&self) -> u64 {
        self.rate() * (self.bag.ns() + self.jitter)
    }

    fn rate(&self) -> u64 {
        u64::from(self.max_size)
    }

    fn price(&self, size: u32) -> u64 {
        u64::from(size) * self.bag.ns()
    }

    // A gap of about 140 days credits more than 64 bits hold: the sum saturates, far above the cap.
    fn level_at(&self, at: Stamp) -> u64 {
        let gap = at.ns() - self.since.ns();
        self.level
            .saturating_add(self.rate().saturating_mul(gap))
            .min(self.cap())
    }

    fn weight(&self, speed: Speed) -> u64 {
        // 21/16 of a tick covers a byte and its part of the overhead; a nanosecond is 16 * 128,000,000 parts.
        21 * speed.tick() * (128 / self.bag.ms())
    }

    fn offer(&mut self, at: Stamp, size: u32) -> bool {
        let level = self.level_at(at);
        let left = level.checked_sub(self.price(size));
        self.level = left.unwrap_or(level);
        self.since = at;
        left.is_some()
    }
}
