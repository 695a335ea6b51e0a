//! Instants as numbers.

ghost use Rattle.std.specs.Prelude.{◌≡◌, ◌<◌, ◌≤◌, ◌-ℤ◌, length, min, pos};
ghost use Rattle.afdx_units.specs.Time.{stamp_end};
ghost use Rattle.afdx_earliest.specs.Inner.Groups.{none, IsFirstFrom, instant_in};

use afdx_units::Stamp;

/// The most places that there are: a table has at most 24 ports.
pub(crate) const PLACES: usize = 24;

/// The number for a place that has no instant: none is as great, and it is the greatest that a signed number holds.
pub(crate) const NONE: u64 = i64::MAX as u64;

/// Returns the number that is kept for an instant or none.
#[inline(always)]
pub(crate) fn number_for(instant: Option<Stamp>) -> u64
    ensures instant { instant_in result ≡ instant }
    ensures none { stamp_end ≤ result → result ≡ none }
{
    match instant {
        Some(stamp) => stamp.ns(),
        None => NONE,
    }
}

/// Returns the last number for an instant before this one, or -1 if there is none.
#[inline(always)]
pub(crate) fn last_before(instant: u64) -> i64
    ensures { result ≡ pos (min instant none) -ℤ pos 1 }
{
    if instant <= NONE {
        instant as i64 - 1
    } else {
        NONE as i64 - 1
    }
}

/// Returns the first place of the least of the numbers from one place on and before another, and that number.
#[inline(always)]
pub(crate) fn first_from(numbers: &[u64; PLACES], start: usize, end: usize) -> (usize, u64)
    requires some { start < end }
    requires within { end ≤ length numbers.now }
    ensures { IsFirstFrom numbers.now start end result.0 result.1 }
{
    let mut first = start;
    let mut least = numbers[start];
    for place in start + 1..end {
        let number = numbers[place];
        if number < least {
            least = number;
            first = place;
        }
    }
    (first, least)
}
