//! Instants of a capture.

ghost use Rattle.std.specs.Prelude.{◌≡◌, ◌↔◌, ◌+◌, ◌*◌, ◌/◌, ◌%◌, ◌<◌, ◌≤◌, min, IsTrue, SomeIff};
ghost use Rattle.afdx_units.specs.Time.{second, stamp_end, last_instant, last_second, IsInstant, earlier_of};

use std::marker::Model;

/// Nanoseconds of a microsecond.
pub const MICROSECOND: u64 = 1000;

const NANOS_PER_SECOND: u64 = 1_000_000_000;

/// The first instant that 32 bits of seconds cannot hold, in nanoseconds.
const END: u64 = 4_294_967_296 * NANOS_PER_SECOND;

/// The start of the last second, in nanoseconds.
const LAST_SECOND: u64 = 4_294_967_295 * NANOS_PER_SECOND;

/// An instant as pcap 2.4 holds it: nanoseconds from the start of 1970, whose whole seconds fit 32 bits.
///
/// Contracts see it as its number of nanoseconds, which is below `2^32 * 10^9`.
#[derive(Clone, Copy, Debug, PartialEq, Eq, PartialOrd, Ord)]
pub struct Stamp {
    ns: u64,
}

impl Model for Stamp {
    ghost use Rattle.std.specs.Prelude.{ℕ};
    ghost use Rattle.afdx_units.specs.Time.{IsInstant};

    ghost Value = { ℕ };

    ghost view = { λ s. s.ns };

    ghost invariant = { λ s. IsInstant s.ns };

    ghost inverse = { λ ns. record { ns = ns } };
}

impl Stamp {
    /// The first instant, the start of 1970.
    pub const ZERO: Stamp = Stamp { ns: 0 };

    /// The last instant, a nanosecond before 32 bits of seconds end.
    pub const LAST: Stamp = Stamp { ns: END - 1 };

    /// Returns the instant of these seconds and nanoseconds; none if the nanoseconds make a second or more.
    pub fn new(sec: u32, nanos: u32) -> Option<Stamp>
        ensures { SomeIff result (nanos < second) (sec * second + nanos) }
    {
        let nanos = u64::from(nanos);
        if nanos < NANOS_PER_SECOND {
            Some(Stamp {
                ns: u64::from(sec) * NANOS_PER_SECOND + nanos,
            })
        } else {
            None
        }
    }

    /// Returns the instant of so many nanoseconds; none past the last instant.
    pub fn from_ns(ns: u64) -> Option<Stamp>
        ensures { SomeIff result (ns < stamp_end) ns }
    {
        if ns < END { Some(Stamp { ns }) } else { None }
    }

    /// Returns the instant of so many nanoseconds, or the last instant if that is earlier.
    pub fn from_ns_saturating(ns: u128) -> Stamp
        ensures { result ≡ min ns last_instant }
    {
        Stamp {
            ns: ns.min(u128::from(Stamp::LAST.ns)) as u64,
        }
    }

    /// Returns the instant so many nanoseconds later; none past the last instant.
    pub fn plus(self, ns: u64) -> Option<Stamp>
        ensures { SomeIff result (self + ns < stamp_end) (self + ns) }
    {
        Stamp::from_ns(self.ns.checked_add(ns)?)
    }

    /// Returns its whole seconds.
    pub fn sec(self) -> u32
        ensures { result ≡ self / second }
    {
        (self.ns / NANOS_PER_SECOND) as u32
    }

    /// Returns the nanoseconds past its whole seconds, below `10^9`.
    pub fn nanos(self) -> u32
        ensures { result ≡ self % second }
    {
        (self.ns % NANOS_PER_SECOND) as u32
    }

    /// Returns the nanoseconds from the start of 1970.
    pub fn ns(self) -> u64
        ensures same { result ≡ self }
        ensures instant { IsInstant self }
    {
        self.ns
    }

    /// Returns whether it lies in the last second (of number 4,294,967,295), which is written and never read.
    pub fn late(self) -> bool
        ensures { IsTrue result ↔ (last_second ≤ self) }
    {
        LAST_SECOND <= self.ns
    }
}

/// Returns the earlier of two instants, each of which may be missing; none if both are.
pub fn earlier_of(one: Option<Stamp>, other: Option<Stamp>) -> Option<Stamp>
    ensures { result ≡ earlier_of one other }
{
    match (one, other) {
        (Some(one), Some(other)) => Some(one.min(other)),
        (Some(one), None) => Some(one),
        (None, other) => other,
    }
}
