//! What is due at places, and the places at which something is due before an instant.

ghost use Rattle.std.specs.Prelude.{◌≡◌, ℕ, ◌+◌, ◌<◌, ◌≤◌, nat_lt, int_lt, pos, ◌&&◌, if◌then◌else◌, None, length, replicate, set, slice_index};
ghost use Rattle.std.specs.Int.{bit_at};
ghost use Rattle.afdx_earliest.specs.Instants.{IsFirstIn};
ghost use Rattle.afdx_earliest.specs.Dues.{AreMarked, IsTaken};
ghost use Rattle.afdx_earliest.specs.Inner.Groups.{none, instant_in};

use crate::numbers::{NONE, PLACES, first_from, last_before, number_for};
use afdx_units::Stamp;
use std::marker::Model;
use std::simd::prelude::*;

/// The marks of all places.
const ALL: u32 = (1 << PLACES) - 1;

/// For each of at most 24 places the instant at which something is due there, or none.
///
/// Contracts see the list of these. They are kept as numbers: a change is one store, and those before an instant are marked in one
/// pass over all, which takes no branch that the processor would have to guess.
#[derive(Drop)]
pub struct Dues {
    pub(crate) numbers: [u64; PLACES],
    pub(crate) places: usize,
}

impl Model for Dues {
    ghost use Rattle.std.specs.Prelude.{ℕ, List, Option};
    ghost use Rattle.afdx_earliest.specs.Inner.Groups.{instants_in, AreKept};

    ghost Value = { List (Option ℕ) };

    ghost view = { λ d. instants_in d.places d.numbers };

    ghost invariant = { λ d. AreKept d.places d.numbers };
}

/// Takes the first place out of those that are marked, if one is: bit 0 is for the first place. O(1).
#[inline(always)]
pub fn take_first(marks: &mut u32) -> Option<usize>
    ensures { IsTaken marks.old marks.new result }
{
    if *marks == 0 {
        return None;
    }
    let place = marks.trailing_zeros();
    *marks &= !(1 << place);
    Some(place as usize)
}

/// Returns marks of those of eight numbers, from a place on, that are greater than another: bit 0 is for the first of them. All are
/// below 2^63, so that the processor compares them as signed ones.
#[inline(always)]
fn later_of(numbers: &[u64], place: usize, last: i64) -> u32
    requires within { place + 8 ≤ length numbers.now }
    requires kept { (j : ℕ) → slice_index numbers.now j ≤ none }
    ensures small { result < 256 }
    ensures marks { (j : ℕ) → bit_at result j ≡ (if nat_lt j 8 && int_lt last (pos (slice_index numbers.now (place + j))) then 1 else 0) }
{
    let lanes = u64x8::from_slice(&numbers[place..]).cast::<i64>();
    lanes.simd_gt(i64x8::splat(last)).to_bitmask() as u32
}

impl Dues {
    /// Makes the dues of so many places, at none of which something is due. O(1).
    pub fn new(places: usize) -> Dues
        requires { places ≤ 24 }
        ensures { result ≡ replicate places None }
    {
        Dues {
            numbers: [NONE; PLACES],
            places,
        }
    }

    /// Returns the place at which something is due first, with that instant; if several places have it, the first of them; none
    /// if nothing is due. O(places).
    pub fn first(&self) -> Option<(usize, Stamp)>
        ensures { IsFirstIn self.now (length self.now) result }
    {
        let (first, least) = first_from(&self.numbers, 0, PLACES);
        let stamp = Stamp::from_ns(least)?;
        Some((first, stamp))
    }

    /// Returns marks of the places at which something is due before an instant, in ns from the start of 1970: bit 0 is for the
    /// first place. O(places).
    #[inline(always)]
    pub fn before(&self, instant: u64) -> u32
        ensures { AreMarked instant self.now result }
    {
        let last = last_before(instant);
        let low = later_of(&self.numbers, 0, last);
        let middle = later_of(&self.numbers, 8, last);
        let high = later_of(&self.numbers, 16, last);
        !((high << 16) + (middle << 8) + low) & ALL
    }

    /// Gives a place another instant, or none. O(1).
    #[inline(always)]
    pub fn set(&mut self, place: usize, instant: Option<Stamp>)
        requires { place < length self.old }
        ensures { self.new ≡ set self.old place instant }
    {
        let numbers = &mut self.numbers;
        numbers[place] = number_for(instant);
    }
}
