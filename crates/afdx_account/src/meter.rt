//! What every account does.

ghost use Rattle.std.specs.Prelude.{◌≡◌, ◌↔◌, ℕ, ◌+◌, ◌*◌, ◌-◌, ◌≤◌, IsTrue, if◌then◌else◌};
ghost use Rattle.afdx_units.specs.declared.line.Speed.{Speed};
ghost use Rattle.afdx_units.specs.Line.{least_size, cost_of};
ghost use Rattle.afdx_account.specs.Policing.{parts, Terms};
ghost use Rattle.afdx_account.specs.Level.{PassesWhatConforms, credited_level};

use afdx_units::{Speed, Stamp};

/// The account of one virtual link: it holds units, is credited over time up to a greatest level, and passes
/// a frame if its level is at least the frame's price (profile).
///
/// Every call is O(1) and takes no memory.
pub trait Meter {
    /// Its greatest level, its credit and what frames cost.
    ghost terms: { Self → Terms };

    /// The instant of the last offer: what was before can no longer be asked.
    ghost since: { Self → ℕ };

    /// Its level at an instant.
    ghost level: { Self → ℕ → ℕ };

    /// Line time that a unit is worth, in 2,048,000,000ths of a nanosecond.
    ghost weight_of: { Self → Speed → ℕ };

    /// The greatest size in bytes that its link allows.
    ghost greatest: { Self → ℕ };

    /// Returns the greatest level, in units.
    fn cap(&self) -> u64
        ensures { result ≡ (terms self.now).cap };

    /// Returns how many units are credited in each nanosecond.
    fn rate(&self) -> u64
        ensures { result ≡ (terms self.now).rate };

    /// Returns how many units a frame of this size in bytes costs.
    fn price(&self, size: u32) -> u64
        ensures { result ≡ (terms self.now).price size };

    /// Returns the level, in units, at an instant that is not before the last offer.
    fn level_at(&self, at: Stamp) -> u64
        requires { since self.now ≤ at }
        ensures { result ≡ level self.now at };

    /// Returns the line time that a unit is worth at a speed, in 2,048,000,000ths of a nanosecond.
    fn weight(&self, speed: Speed) -> u64
        ensures { result ≡ weight_of self.now speed };

    /// Passes a frame of this size in bytes if the level is at least its price, and debits the price;
    /// otherwise leaves the level alone. Returns whether it passes the frame. Stamps of offers do not go back.
    fn offer(&mut self, at: Stamp, size: u32) -> bool
        requires { since self.old ≤ at }

        // The level decides, and is debited if the frame is passed.
        ensures passed { IsTrue result ↔ ((terms self.old).price size ≤ level self.old at) }
        ensures level { level self.new at ≡ (if result then level self.old at - (terms self.old).price size else level self.old at) }
        ensures since { since self.new ≡ at }
        ensures terms { terms self.new ≡ terms self.old }
        ensures weight { weight_of self.new ≡ weight_of self.old }
        ensures greatest { greatest self.new ≡ greatest self.old }

        // A frame of the link that is passed adds its line time to a port's work, and the level falls by at least as much.
        ensures paid { IsTrue result → (speed : Speed) → least_size ≤ size → size ≤ greatest self.old
            → parts * cost_of speed size + weight_of self.new speed * level self.new at ≤ weight_of self.old speed * level self.old at }

        // Whatever frames were offered to a full account before, the frame is passed if and only if it
        // conforms to those that were passed.
        ensures conforming { PassesWhatConforms (terms self.old) (since self.old) (level self.old (since self.old)) at size result (level self.new at) };

    /// The level never passes the greatest one.
    ghost capped: { (m : Self) (at : ℕ) → level m at ≤ (terms m).cap };

    /// Over a gap it is credited, up to the greatest level.
    ghost credited: { (m : Self) (at later : ℕ) → since m ≤ at → at ≤ later
        → level m later ≡ credited_level (terms m) (level m at) (later - at) };

    /// What a frame costs pays for its line time, if the link allows its size.
    ghost pays: { (m : Self) (speed : Speed) (size : ℕ) → least_size ≤ size → size ≤ greatest m
        → parts * cost_of speed size ≤ weight_of m speed * (terms m).price size };
}
