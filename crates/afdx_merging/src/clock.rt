//! By which clock the records of a capture are compared with those of others.

ghost use Rattle.std.specs.Prelude.{◌≡◌, map, IfOk};
ghost use Rattle.afdx_merging.specs.Merge.{moved, due_at, same_clock};

use afdx_units::Stamp;
use std::alloc::{AllocError, Allocator};

/// What makes the stamps of a capture those of the clock that all records are compared by. All is in nanoseconds, and every call is O(1).
#[derive(Clone, Copy, Debug, PartialEq, Eq)]
pub struct Clock {
    /// What is added to a stamp.
    pub later: u64,
    /// What is taken off then.
    pub sooner: u64,
    /// What is added besides to have records in order with those of other captures.
    pub delay: u64,
}

impl Clock {
    /// Returns a stamp by the clock; the first or the last one that there is, if it would lie outside of these.
    pub fn moved(&self, stamp: Stamp) -> Stamp
        ensures { result ≡ moved self.now stamp }
    {
        let later = u128::from(stamp.ns()) + u128::from(self.later);
        Stamp::from_ns_saturating(later.saturating_sub(u128::from(self.sooner)))
    }

    /// Returns the instant by which a record of this stamp by the clock is in order with those of other captures.
    pub(crate) fn due_at(&self, stamp: Stamp) -> u128
        ensures { result ≡ due_at self.now stamp }
    {
        u128::from(stamp.ns()) + u128::from(self.delay)
    }
}

/// Makes a clock for the capture of each of these ports, by which stamps stay as they are. O(ports).
///
/// An error says that memory ran out.
pub fn same_clocks<T, A: Allocator + Copy>(
    alloc: A,
    ports: &[T],
) -> Result<Vec<Clock, A>, AllocError>
    ensures { IfOk result (λ clocks. clocks.items ≡ map (λ p. same_clock) ports.now) }
{
    let mut clocks = Vec::with_capacity(alloc, ports.len())?;
    for _port in ports {
        clocks.push(Clock {
            later: 0,
            sooner: 0,
            delay: 0,
        })?;
    }
    Ok(clocks)
}
