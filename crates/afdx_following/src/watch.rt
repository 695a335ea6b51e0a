//! What is known of the recorders and of the switch.

ghost use Rattle.std.specs.Prelude.{◌≡◌};
ghost use Rattle.afdx_following.specs.Watch.{has_frame, has_record, limits_of, unknown_since, last_record};

use afdx_pairing::Limits;
use afdx_units::{Speed, Stamp};

/// Where the recordings begin.
#[derive(Clone, Copy, Debug, PartialEq, Eq)]
pub enum Start {
    /// Before any frame came, with full accounts and nothing under way.
    Rest,
    /// At an instant at which nothing is known of the switch.
    Cut(Stamp),
}

/// What is known of the recorders and of the switch (profile). Every call is O(1) and takes no memory.
#[derive(Clone, Copy, Debug, PartialEq, Eq)]
pub struct Watch {
    /// The least latency of the switch, in nanoseconds; 0 if it is not known.
    pub least: u64,
    /// By how many nanoseconds latencies differ, as far as frames may overtake.
    pub scatter: u64,
    /// The most nanoseconds by which a delay is off by the stamps, and a stamp from the switch's own instant; at most a second.
    pub tolerance: u64,
    /// Bytes from an output stamp until the line is free: 12 if it is the end of the last bit, or 0.
    pub gap: u64,
    pub start: Start,
    /// The instant up to which the recorders ran; none if all had left.
    pub until: Option<Stamp>,
}

impl Watch {
    /// Returns whether a frame that came at an instant counts.
    pub fn has_frame(&self, stamp: Stamp) -> bool
        ensures { result ≡ has_frame self.now stamp }
    {
        let begun = match self.start {
            Start::Rest => true,
            Start::Cut(from) => u128::from(from.ns()) + u128::from(self.tolerance)
                <= u128::from(stamp.ns()),
        };
        begun && self.until.is_none_or(|until| stamp <= until)
    }

    /// Returns whether a record that left with this stamp counts.
    pub fn has_record(&self, stamp: Stamp) -> bool
        ensures { result ≡ has_record self.now stamp }
    {
        let begun = match self.start {
            Start::Rest => true,
            Start::Cut(from) => from <= stamp,
        };
        begun
            && self.until.is_none_or(|until| u128::from(stamp.ns()) + u128::from(self.tolerance)
                <= u128::from(until.ns()))
    }

    /// Returns the limits of a link at a port with this bound, in nanoseconds, and this speed.
    pub fn limits(&self, bound: u64, speed: Speed) -> Limits
        ensures { result ≡ limits_of self.now bound speed }
    {
        let before = match self.start {
            Start::Rest => 0,
            Start::Cut(from) => u128::from(from.ns())
                + 2 * u128::from(self.tolerance)
                + u128::from(bound),
        };
        Limits {
            least: self.least,
            bound,
            tolerance: self.tolerance,
            gap: self.gap,
            speed,
            before,
        }
    }

    /// Returns the instant from which on nothing is known of accounts, which is that from which on frames count; none if they were full.
    pub fn unknown_since(&self) -> Option<Stamp>
        ensures { result ≡ unknown_since self.now }
    {
        let Start::Cut(from) = self.start else {
            return None;
        };
        let since = u128::from(from.ns()) + u128::from(self.tolerance);
        Some(Stamp::from_ns_saturating(since))
    }

    /// Returns the instant up to which records count, in nanoseconds; none if all had left.
    pub fn last_record(&self) -> Option<u64>
        ensures { result ≡ last_record self.now }
    {
        self.until
            .map(|until| until.ns().saturating_sub(self.tolerance))
    }
}
