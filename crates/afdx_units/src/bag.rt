//! Bandwidth allocation gaps.

ghost use Rattle.std.specs.Prelude.{◌≡◌, ◌≢◌, ◌≤◌, IfSome, IfNone};
ghost use Rattle.afdx_units.specs.Time.{bag_ms, bag_ns};

const NANOS_PER_MILLISECOND: u64 = 1_000_000;

/// A bandwidth allocation gap: the time from one frame of a link to the next that its policing counts on.
///
/// ARINC 664 Part 7 has these eight and no others.
#[derive(Clone, Copy, Debug, PartialEq, Eq)]
pub enum Bag {
    Ms1,
    Ms2,
    Ms4,
    Ms8,
    Ms16,
    Ms32,
    Ms64,
    Ms128,
}

impl Bag {
    /// Returns the gap of so many milliseconds, if there is one.
    pub fn from_ms(ms: u64) -> Option<Bag>
        ensures some { IfSome result (λ bag. bag_ms bag ≡ ms) }
        ensures none { IfNone result ((bag : Bag) → bag_ms bag ≢ ms) }
    {
        match ms {
            1 => Some(Bag::Ms1),
            2 => Some(Bag::Ms2),
            4 => Some(Bag::Ms4),
            8 => Some(Bag::Ms8),
            16 => Some(Bag::Ms16),
            32 => Some(Bag::Ms32),
            64 => Some(Bag::Ms64),
            128 => Some(Bag::Ms128),
            _ => None,
        }
    }

    /// Returns its length in milliseconds.
    pub fn ms(self) -> u64
        ensures value { result ≡ bag_ms self }
        ensures least { 1 ≤ result }
        ensures most { result ≤ 128 }
    {
        match self {
            Bag::Ms1 => 1,
            Bag::Ms2 => 2,
            Bag::Ms4 => 4,
            Bag::Ms8 => 8,
            Bag::Ms16 => 16,
            Bag::Ms32 => 32,
            Bag::Ms64 => 64,
            Bag::Ms128 => 128,
        }
    }

    /// Returns its length in nanoseconds.
    pub fn ns(self) -> u64
        ensures value { result ≡ bag_ns self }
        ensures least { 1000000 ≤ result }
        ensures most { result ≤ 128000000 }
    {
        self.ms() * NANOS_PER_MILLISECOND
    }
}
