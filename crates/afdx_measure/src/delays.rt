//! The delays of what a port sent.

ghost use Rattle.std.specs.Prelude.{◌≡◌, ℕ, List, [], ◌∷◌, ◌++◌, IfOk, MatchResult};
ghost use Rattle.afdx_measure.specs.Delays.{delay_of, summary_of, with_delay, least_of, greatest_of};

use afdx_port::Sent;
use std::alloc::AllocError;

/// The least and the greatest of some delays, in nanoseconds.
#[derive(Clone, Copy, Debug, PartialEq, Eq)]
pub struct Range {
    pub least: u64,
    pub greatest: u64,
}

/// How many copies of a link a port sent, and their delays; no range if it sent none.
#[derive(Clone, Copy, Debug, PartialEq, Eq)]
pub struct Delays {
    pub count: usize,
    pub range: Option<Range>,
}

impl Range {
    /// Makes the range of one delay, in nanoseconds.
    fn of(delay: u64) -> Range
        ensures { result ≡ record { least = delay; greatest = delay } }
    {
        Range {
            least: delay,
            greatest: delay,
        }
    }
}

impl Delays {
    /// Makes the delays of no copies. O(1).
    pub fn none() -> Delays
        ensures { result ≡ summary_of [] }
    {
        Delays {
            count: 0,
            range: None,
        }
    }

    /// Returns the least of them, in nanoseconds, if there is one. O(1).
    pub fn least(&self) -> Option<u64>
        ensures { result ≡ least_of self.now }
    {
        match self.range {
            Some(range) => Some(range.least),
            None => None,
        }
    }

    /// Returns the greatest of them, in nanoseconds, if there is one. O(1).
    pub fn greatest(&self) -> Option<u64>
        ensures { result ≡ greatest_of self.now }
    {
        match self.range {
            Some(range) => Some(range.greatest),
            None => None,
        }
    }

    /// Adds a copy that had this delay, in nanoseconds.
    ///
    /// An error says that there would be more than 2^64 - 1. O(1).
    pub fn with(self, delay: u64) -> Result<Delays, AllocError>
        ensures one_more { MatchResult result (λ d. d ≡ with_delay delay self) (λ _. self.count ≡ 18446744073709551615) }
        ensures summary { (ns : List ℕ) → self ≡ summary_of ns → IfOk result (λ d. d ≡ summary_of (ns ++ delay ∷ [])) }
    {
        let Some(count) = self.count.checked_add(1) else {
            return Err(AllocError);
        };
        let range = match self.range {
            Some(range) => Range {
                least: range.least.min(delay),
                greatest: range.greatest.max(delay),
            },
            None => Range::of(delay),
        };
        Ok(Delays {
            count,
            range: Some(range),
        })
    }

    /// Adds a copy that was sent as this.
    pub(crate) fn with_sent(self, sent: &Sent) -> Result<Delays, AllocError>
        ensures { (ns : List ℕ) → self ≡ summary_of ns → IfOk result (λ d. d ≡ summary_of (ns ++ delay_of sent.now ∷ [])) }
    {
        self.with(delay_of(sent))
    }
}

/// Returns the delay of a copy in nanoseconds: from the stamp of its frame to the instant from which the line is free again.
fn delay_of(sent: &Sent) -> u64
    ensures { result ≡ delay_of sent.now }
{
    sent.end.ns().saturating_sub(sent.item.stamp.ns())
}
