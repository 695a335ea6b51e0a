//! One spell of policing.

ghost use Rattle.std.specs.Prelude.{◌≡◌, ◌+◌, ◌-◌, ◌^◌, ◌<◌, ◌≤◌, ◌++◌, ◌∷◌, [], List, nat_le};
ghost use Rattle.afdx_spells.specs.Spells.{spell_from};
ghost use Rattle.afdx_spells.specs.declared.spell.Excess.{Excess as Frame};

use afdx_units::Stamp;

/// A frame of a link that its policing did not pass.
#[derive(Clone, Copy, Debug, PartialEq, Eq)]
pub struct Excess {
    /// The instant at which it had wholly come.
    pub at: Stamp,
    /// By how many nanoseconds it came too early for those that were passed.
    pub early: u64,
}

/// A spell in which a link was policed.
#[derive(Clone, Copy, Debug, PartialEq, Eq)]
pub struct Spell {
    /// How many of its frames were policed.
    pub count: u64,
    /// The stamp of the first.
    pub first: Stamp,
    /// The stamp of the last.
    pub last: Stamp,
    /// How early they came, in nanoseconds.
    pub least: u64,
    pub greatest: u64,
}

impl Spell {
    /// Makes the spell of one frame.
    pub(crate) fn of(frame: &Excess) -> Spell
        ensures { result ≡ spell_from frame.now [] }
    {
        Spell {
            count: 1,
            first: frame.at,
            last: frame.at,
            least: frame.early,
            greatest: frame.early,
        }
    }

    /// Returns whether a frame that comes after it belongs to it: at most one gap of the link lies between its last frame and that one.
    pub(crate) fn takes(&self, gap: u64, frame: &Excess) -> bool
        requires { gap ≤ 128000000 }
        ensures { result ≡ nat_le frame.now.at (self.now.last + gap) }
    {
        frame.at.ns() <= self.last.ns() + gap
    }

    /// Adds one frame.
    pub(crate) fn with(self, frame: &Excess) -> Spell
        requires { self.count < 2 ^ 64 - 1 }
        ensures { (x : Frame) (xs : List Frame) → self ≡ spell_from x xs → result ≡ spell_from x (xs ++ frame.now ∷ []) }
    {
        Spell {
            count: self.count + 1,
            first: self.first,
            last: frame.at,
            least: self.least.min(frame.early),
            greatest: self.greatest.max(frame.early),
        }
    }
}
