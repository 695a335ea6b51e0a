//! Instants at places, and the first of them.

ghost use Rattle.std.specs.Prelude.{◌≡◌, ◌<◌, ◌≤◌, None, length, replicate, set};
ghost use Rattle.afdx_earliest.specs.Instants.{IsFirstIn};
ghost use Rattle.afdx_earliest.specs.Inner.Groups.{instant_in};

use crate::dues::Dues;
use crate::numbers::{NONE, PLACES, first_from, number_for};
use afdx_units::Stamp;
use std::marker::Model;

/// How many places make a group.
const GROUP: usize = 6;

/// For each of at most 24 places an instant or none.
///
/// Contracts see the list of these. They are kept as numbers in four groups of six, each with its least number and the first
/// place that has it: so a change looks at one group, the first of all is the first of four, and neither takes a branch that
/// the processor would have to guess.
#[derive(Drop)]
pub struct Instants {
    numbers: [u64; PLACES],
    places: usize,
    leasts: [u64; 4],
    firsts: [usize; 4],
}

impl Model for Instants {
    ghost use Rattle.std.specs.Prelude.{ℕ, List, Option};
    ghost use Rattle.afdx_earliest.specs.Inner.Groups.{instants_in, AreGrouped};

    ghost Value = { List (Option ℕ) };

    ghost view = { λ i. instants_in i.places i.numbers };

    ghost invariant = { λ i. AreGrouped i.places i.numbers i.leasts i.firsts };
}

impl Instants {
    /// Makes the instants of so many places, none of which has one. O(1).
    pub fn new(places: usize) -> Instants
        requires { places ≤ 24 }
        ensures { result ≡ replicate places None }
    {
        Instants {
            numbers: [NONE; PLACES],
            places,
            leasts: [NONE; 4],
            firsts: [0, GROUP, 2 * GROUP, 3 * GROUP],
        }
    }

    /// Makes the instants at which something is due. O(1), which is less than to give each place its own.
    pub fn of(dues: &Dues) -> Instants
        ensures { result ≡ dues.now }
    {
        let numbers = dues.numbers;
        let mut leasts = [NONE; 4];
        let mut firsts = [0; 4];
        for group in 0..4 {
            let (first, least) = first_from(&numbers, group * GROUP, group * GROUP + GROUP);
            leasts[group] = least;
            firsts[group] = first;
        }
        Instants {
            numbers,
            places: dues.places,
            leasts,
            firsts,
        }
    }

    /// Returns the place that has the first instant, with that instant; if several places have it, the first of them; none if
    /// no place has an instant. O(1).
    pub fn first(&self) -> Option<(usize, Stamp)>
        ensures { IsFirstIn self.now (length self.now) result }
    {
        let mut first = self.firsts[0];
        let mut least = self.leasts[0];
        for group in 1..4 {
            if self.leasts[group] < least {
                least = self.leasts[group];
                first = self.firsts[group];
            }
        }
        let stamp = Stamp::from_ns(least)?;
        Some((first, stamp))
    }

    /// Gives a place another instant, or none; changes nothing if it is the same as before. O(1).
    pub fn set(&mut self, place: usize, instant: Option<Stamp>)
        requires { place < length self.old }
        ensures { self.new ≡ set self.old place instant }
    {
        let number = number_for(instant);
        let numbers = &self.numbers;
        if numbers[place] != number {
            self.change(place, number);
        }
    }

    /// Gives a place another number.
    fn change(&mut self, place: usize, number: u64)
        requires { place < length self.old }
        ensures { self.new ≡ set self.old place (instant_in number) }
    {
        let group = place / GROUP;
        let numbers = &mut self.numbers;
        numbers[place] = number;
        let (first, least) = first_from(numbers, group * GROUP, group * GROUP + GROUP);
        self.leasts[group] = least;
        self.firsts[group] = first;
    }
}
