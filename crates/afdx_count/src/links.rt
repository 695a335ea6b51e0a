//! The counters of links.

ghost use Rattle.std.specs.Prelude.{◌≡◌, ◌==◌, ◌<◌, nat_eq, false, length, map, position, IsTrue, IfSome, IfOk, IfNone, option_map};
ghost use Rattle.std.specs.List.{list_any, IsDistinct};
ghost use Rattle.afdx_count.specs.Tally.{new_link, one_passed, one_policed, link_in, noted_link, class_of};
ghost use Rattle.afdx_count.specs.Inner.Places.{IsPlaceOf, changed_at};

use crate::counters::{LinkCount, count_one};
use afdx_core::Fate;
use afdx_table::{LinkRow, Table};
use afdx_units::Priority;
use std::alloc::{AllocError, Allocator};
use std::marker::Model;

/// The counters of a link.
#[derive(Clone, Copy, Debug, PartialEq, Eq)]
pub struct LinkTally {
    /// The link's number.
    pub id: u16,
    /// The priority of its copies.
    pub priority: Priority,
    pub count: LinkCount,
}

impl LinkTally {
    /// Makes the counters of a link, at 0.
    fn new(row: &LinkRow) -> LinkTally
        ensures { result ≡ new_link row.now }
    {
        LinkTally {
            id: row.id,
            priority: row.priority,
            count: LinkCount::default(),
        }
    }

    /// Counts a passed frame.
    fn note_passed(&mut self)
        ensures { self.new ≡ one_passed self.old }
    {
        count_one(&mut self.count.passed);
    }

    /// Counts a policed frame.
    fn note_policed(&mut self)
        ensures { self.new ≡ one_policed self.old }
    {
        count_one(&mut self.count.policed);
    }
}

/// Makes the counters of a table's links, in the file's order. O(links).
fn tallies_of<A: Allocator + Copy>(alloc: A, table: &Table) -> Result<Vec<LinkTally, A>, AllocError>
    ensures tallies { IfOk result (λ tallies. tallies.items ≡ map new_link table.now.links) }
    ensures distinct { IsDistinct nat_eq (map (λ l. l.id) table.now.links) }
{
    let mut tallies = Vec::with_capacity(alloc, table.link_count())?;
    for index in 0..table.link_count() {
        tallies.push(LinkTally::new(table.link_at(index).unwrap()))?;
    }
    Ok(tallies)
}

/// Finds the place of the link with a number among these counters, from 0. O(links).
fn search(tallies: &[LinkTally], id: u16) -> Option<usize>
    ensures { result ≡ position (λ l. l.id == id) tallies.now }
{
    tallies.iter().position(|tally| tally.id == id)
}

/// The counters of links of different numbers. Contracts see their list in order.
///
/// There is no table of places by number: an arrival comes with the place of its link.
#[derive(Drop)]
pub(crate) struct Links<A: Allocator> {
    tallies: Vec<LinkTally, A>,
}

impl<A: Allocator> Model for Links<A> {
    ghost use Rattle.std.specs.Prelude.{nat_eq, List, map};
    ghost use Rattle.std.specs.List.{IsDistinct};
    ghost use Rattle.afdx_count.specs.declared.links.LinkTally.{LinkTally as Seen};

    ghost Value = { List Seen };

    ghost view = { λ l. l.tallies.items };

    ghost invariant = { λ l. IsDistinct nat_eq (map (λ t. t.id) l.tallies.items) };
}

impl<A: Allocator + Copy> Links<A> {
    /// Makes the counters of a table's links, in the file's order.
    pub(crate) fn new(alloc: A, table: &Table) -> Result<Self, AllocError>
        ensures { IfOk result (λ links. links ≡ map new_link table.now.links) }
    {
        let tallies = tallies_of(alloc, table)?;
        Ok(Links { tallies })
    }

    /// Returns the counters of all links, in order. O(1).
    pub(crate) fn as_slice(&self) -> &[LinkTally]
        ensures { result.now ≡ self.now }
    {
        self.tallies.as_slice()
    }

    /// Finds the place of the link with a number, from 0. O(links).
    fn place(&self, id: u16) -> Option<usize>
        ensures at { IfSome result (IsPlaceOf (λ l. l.id) id self.now) }
        ensures absent { IfNone result (list_any (λ l. id == l.id) self.now ≡ false) }
        ensures within { IfSome result (λ place. place < length self.now) }
        ensures distinct { IsDistinct nat_eq (map (λ l. l.id) self.now) }
    {
        search(&self.tallies, id)
    }

    /// Returns whether the link at a place has the number.
    #[inline(always)]
    fn has_number_at(&self, place: usize, id: u16) -> bool
        ensures at { IsTrue result → IsPlaceOf (λ l. l.id) id self.now place }
        ensures distinct { IsDistinct nat_eq (map (λ l. l.id) self.now) }
    {
        place < self.tallies.len() && self.tallies[place].id == id
    }

    /// Finds the place of the link with a number: the one that is given, if the link there has the number, else the one that
    /// a search finds.
    #[inline(always)]
    fn place_reported(&self, id: u16, reported: Option<usize>) -> Option<usize>
        ensures at { IfSome result (IsPlaceOf (λ l. l.id) id self.now) }
        ensures absent { IfNone result (list_any (λ l. id == l.id) self.now ≡ false) }
        ensures within { IfSome result (λ place. place < length self.now) }
        ensures distinct { IsDistinct nat_eq (map (λ l. l.id) self.now) }
    {
        match reported {
            Some(place) if self.has_number_at(place, id) => reported,
            _ => self.place(id),
        }
    }

    /// Returns the counters of the link with a number, if there is one.
    pub(crate) fn get(&self, id: u16) -> Option<LinkTally>
        ensures { result ≡ link_in id self.now }
    {
        match self.place(id) {
            Some(place) => Some(self.tallies[place]),
            None => None,
        }
    }

    /// Counts a passed frame at the link with a number, which may be at the place that is given, and returns the priority
    /// of its copies.
    #[inline(always)]
    fn note_passed(&mut self, id: u16, reported: Option<usize>) -> Option<Priority>
        ensures links { self.new ≡ changed_at (λ l. l.id) id one_passed self.old }
        ensures class { result ≡ option_map (λ l. l.priority) (link_in id self.old) }
    {
        match self.place_reported(id, reported) {
            Some(place) => {
                let tally = self.tallies[place];
                self.tallies[place].note_passed();
                Some(tally.priority)
            }
            None => None,
        }
    }

    /// Counts a policed frame at the link with a number, which may be at the place that is given.
    #[inline(always)]
    fn note_policed(&mut self, id: u16, reported: Option<usize>)
        ensures { self.new ≡ changed_at (λ l. l.id) id one_policed self.old }
    {
        if let Some(place) = self.place_reported(id, reported) {
            self.tallies[place].note_policed();
        }
    }

    /// Counts an arrival at its link, which may be at the place that is given, and returns the priority of the copies of a
    /// passed frame.
    #[inline(always)]
    pub(crate) fn note(&mut self, fate: Fate, reported: Option<usize>) -> Option<Priority>
        ensures links { self.new ≡ map (noted_link fate) self.old }
        ensures class { result ≡ class_of fate self.old }
    {
        match fate {
            Fate::Passed(id) => self.note_passed(id, reported),
            Fate::Policed(id) => {
                self.note_policed(id, reported);
                None
            }
            Fate::Filtered(_) => None,
        }
    }
}
