//! Policing by frames.

ghost use Rattle.std.specs.Prelude.{◌≡◌, ◌+◌, ◌*◌, ◌-◌, ◌≤◌, []};
ghost use Rattle.afdx_units.specs.Time.{bag_ns};
ghost use Rattle.afdx_units.specs.declared.line.Speed.{Speed};
ghost use Rattle.afdx_units.specs.Line.{greatest_size};
ghost use Rattle.afdx_account.specs.Policing.{frame_terms, frame_weight};
ghost use Rattle.afdx_account.specs.Level.{IsLevelAfter};

use crate::meter::Meter;
use afdx_units::{Bag, Speed, Stamp, cost};

/// An account in frames (profile): it is credited one frame in each BAG and holds at most `1 + J / BAG` of them.
///
/// A frame is kept as so many units as the BAG has nanoseconds, so that nothing is rounded.
#[derive(Clone, Copy, Debug)]
pub struct FrameAccount {
    max_size: u32,
    bag: Bag,
    jitter: u64,
    level: u64,
    since: Stamp,
    ghost size_limit: { max_size ≤ greatest_size },
    ghost jitter_limit: { jitter ≤ 10000000 },
    ghost not_above_full: { level ≤ bag_ns bag + jitter },
}

impl FrameAccount {
    /// Makes a full account for frames of at most `max_size` bytes (at most 1518), with a jitter of at most 10 ms.
    pub fn new(max_size: u32, bag: Bag, jitter_ns: u64) -> FrameAccount
        requires size_limit { max_size ≤ greatest_size }
        requires jitter_limit { jitter_ns ≤ 10000000 }
        ensures terms { ⟦<FrameAccount as Meter>⟧.terms result ≡ frame_terms bag jitter_ns }
        ensures full { IsLevelAfter (frame_terms bag jitter_ns) 0 (⟦<FrameAccount as Meter>⟧.level result 0) [] }
        ensures since { ⟦<FrameAccount as Meter>⟧.since result ≡ 0 }
        ensures weight { (speed : Speed) → ⟦<FrameAccount as Meter>⟧.weight_of result speed ≡ frame_weight max_size bag speed }
        ensures greatest { ⟦<FrameAccount as Meter>⟧.greatest result ≡ max_size }
    {
        FrameAccount {
            max_size,
            bag,
            jitter: jitter_ns,
            level: bag.ns() + jitter_ns,
            since: Stamp::ZERO,
        }
    }
}

impl Meter for FrameAccount {
    ghost use Rattle.afdx_account.specs.Account.{frame_account_terms, frame_account_since, frame_account_level, frame_account_weight, frame_account_greatest};
    ghost use Rattle.afdx_account.specs.Inner.MeterLaws.{capped_by, fills, frame_pays_for};

    ghost terms = { frame_account_terms };

    ghost since = { frame_account_since };

    ghost level = { frame_account_level };

    ghost weight_of = { frame_account_weight };

    ghost greatest = { frame_account_greatest };

    ghost capped = { λ a at. capped_by (bag_ns a.bag + a.jitter) (a.level + 1 * (at - a.since)) };

    ghost credited = { λ a at later h k. fills (bag_ns a.bag + a.jitter) 1 a.level a.since at later h k };

    ghost pays = { λ a speed size h k. frame_pays_for a.bag speed a.max_size size k };

    fn cap(&self) -> u64 {
        self.bag.ns() + self.jitter
    }

    fn rate(&self) -> u64 {
        1
    }

    fn price(&self, _size: u32) -> u64 {
        self.bag.ns()
    }

    fn level_at(&self, at: Stamp) -> u64 {
        let gap = at.ns() - self.since.ns();
        self.level.saturating_add(gap).min(self.cap())
    }

    fn weight(&self, speed: Speed) -> u64 {
        // A frame costs the line time of the link's longest; a nanosecond is 16 * 128,000,000 parts.
        16 * cost(speed, self.max_size) * (128 / self.bag.ms())
    }

    fn offer(&mut self, at: Stamp, size: u32) -> bool {
        let level = self.level_at(at);
        let left = level.checked_sub(self.price(size));
        self.level = left.unwrap_or(level);
        self.since = at;
        left.is_some()
    }
}
