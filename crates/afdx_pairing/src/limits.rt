//! What may pass between a frame that came and the record that left of it.

ghost use Rattle.std.specs.Prelude.{◌≡◌, ◌*◌, ◌<◌, ◌^◌};
ghost use Rattle.afdx_units.specs.Line.{tick_of};
ghost use Rattle.afdx_pairing.specs.Limits.{left_at, most_of, soonest, is_early, is_late};

use crate::numbered::Numbered;
use afdx_units::{Speed, cost};
use std::alloc::Allocator;

/// The limits of one link at one output port, and of the recorders (profile). Every call is O(1) and takes no memory.
#[derive(Clone, Copy, Debug, PartialEq, Eq)]
pub struct Limits {
    /// The least latency of the switch, in nanoseconds; 0 if it is not known.
    pub least: u64,
    /// The bound of the port for the link's priority, in nanoseconds.
    pub bound: u64,
    /// The most nanoseconds by which a delay is off by the stamps.
    pub tolerance: u64,
    /// Bytes from a record's stamp until the line is free: 12 if stamps are those of last bits, or 0.
    pub gap: u64,
    /// The rate of the port's line.
    pub speed: Speed,
    /// The instant, in nanoseconds, before which a record may be of a frame that came before the recording; 0 if none is.
    pub before: u128,
}

impl Limits {
    /// Returns the nanoseconds from a record's stamp until the line is free again.
    pub fn gap_time(&self) -> u128
        ensures gap { result ≡ self.now.gap * tick_of self.now.speed }
        ensures small { result < 2 ^ 80 }
    {
        u128::from(self.gap) * u128::from(self.speed.tick())
    }

    /// Returns the instant, in nanoseconds, at which the line was free again after a record.
    pub fn left_at<A: Allocator>(&self, left: &Numbered<'_, A>) -> u128
        ensures left { result ≡ left_at self.now left.now.frame }
        ensures small { result < 2 ^ 96 }
    {
        u128::from(left.stamp().ns()) + self.gap_time()
    }

    /// Returns the most nanoseconds from a frame's stamp until the line is free again.
    pub fn most(&self) -> u128
        ensures most { result ≡ most_of self.now }
        ensures small { result < 2 ^ 65 }
    {
        u128::from(self.bound) + u128::from(self.tolerance)
    }

    /// Returns the soonest instant, in nanoseconds, at which the line can be free again after a frame, as far as the stamps tell.
    pub fn soonest<A: Allocator>(&self, came: &Numbered<'_, A>) -> u128
        ensures { result ≡ soonest self.now came.now.frame }
    {
        let line = cost(self.speed, came.size());
        let first = u128::from(came.stamp().ns()) + u128::from(self.least) + u128::from(line);
        first.saturating_sub(u128::from(self.tolerance))
    }

    /// Returns whether a record left before a frame can have left.
    pub fn is_early<A: Allocator>(&self, came: &Numbered<'_, A>, left: &Numbered<'_, A>) -> bool
        ensures { result ≡ is_early self.now came.now.frame left.now.frame }
    {
        self.left_at(left) < self.soonest(came)
    }

    /// Returns whether a record left past a frame's bound.
    pub fn is_late<A: Allocator>(&self, came: &Numbered<'_, A>, left: &Numbered<'_, A>) -> bool
        ensures { result ≡ is_late self.now came.now.frame left.now.frame }
    {
        u128::from(came.stamp().ns()) + self.most() < self.left_at(left)
    }
}
