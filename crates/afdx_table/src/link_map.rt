//! Links in the order in which they were added, with a look-up by number.

ghost use Rattle.std.specs.Prelude.{◌≡◌, ◌<◌, ◌≤◌, ◌==◌, false, [], ◌∷◌, ◌++◌, find, length, position, slice_get, IfOk, OnOk, OnErr, option_copied};
ghost use Rattle.afdx_table.specs.Link.{with_jitter};
ghost use Rattle.afdx_table.specs.Links.{has_link};
ghost use Rattle.afdx_table.specs.Inner.Places.{place_kept, KeepTheSame};

use crate::limits::LINK_NUMBERS;
use crate::rows::LinkRow;
use std::alloc::{AllocError, Global};
use std::marker::Model;

/// Links of different numbers, at most 4096 of them, kept in the file's order, with the place of each under its number. Without links it takes
/// no memory. The first link makes the list of places, one for each number of two bytes: 128 KiB. All other calls but `copy` are O(1).
///
/// Contracts see the list of their rows in order.
#[derive(Drop)]
pub(crate) struct LinkMap {
    places: Vec<u16>,
    rows: Vec<LinkRow>,
}

impl Model for LinkMap {
    ghost use Rattle.std.specs.Prelude.{List};
    ghost use Rattle.afdx_table.specs.Link.{Link};
    ghost use Rattle.afdx_table.specs.Inner.Places.{LeadTo};

    ghost Value = { List Link };

    ghost view = { λ l. l.rows.items };

    ghost invariant = { λ l. LeadTo l.places.items l.rows.items };
}

/// Makes the list of places as long as there are numbers. What it lacked is 0. An error says that memory ran out. O(1) if it is so long
/// already, else O(65,536).
fn fill(places: &mut Vec<u16>) -> Result<(), AllocError>
    ensures long { OnOk result (65536 ≤ length places.new.items) }
    ensures same { KeepTheSame places.old.items places.new.items }
{
    if places.len() < LINK_NUMBERS {
        places.resize(LINK_NUMBERS, 0)?;
    }
    Ok(())
}

impl LinkMap {
    /// Makes a map of no links. It takes no memory.
    pub(crate) fn new(alloc: Global) -> LinkMap
        ensures { result ≡ [] }
    {
        LinkMap {
            places: Vec::new(alloc),
            rows: Vec::new(alloc),
        }
    }

    /// Returns a copy of these links. An error says that memory ran out. O(65,536 + n) for n links, O(1) for none.
    pub(crate) fn copy(&self, alloc: Global) -> Result<LinkMap, AllocError>
        ensures { IfOk result (λ l. l ≡ self.now) }
    {
        let mut places = Vec::new(alloc);
        places.extend_from_slice(&self.places)?;
        Ok(LinkMap {
            places,
            rows: self.rows.clone()?,
        })
    }

    /// Gives the link at a place, from 0, a jitter of so many nanoseconds.
    pub(crate) fn set_jitter(&mut self, index: usize, jitter: u64)
        requires { index < length self.old }
        ensures { self.new ≡ with_jitter index jitter self.old }
    {
        self.rows[index].jitter = jitter;
    }

    /// Counts the links.
    pub(crate) fn len(&self) -> usize
        ensures { result ≡ length self.now }
    {
        self.rows.len()
    }

    /// Returns the link at a place in the order, from 0, if there is one.
    pub(crate) fn at(&self, index: usize) -> Option<&LinkRow>
        ensures { option_copied result ≡ slice_get self.now index }
    {
        self.rows.get(index)
    }

    /// Returns what is kept under a number: the place of its link from 1, or 0 if there is none.
    fn kept(&self, id: u16) -> u16
        ensures { place_kept result ≡ position (λ l. l.id == id) self.now }
    {
        self.places.get(usize::from(id)).copied().unwrap_or(0)
    }

    /// Returns the place of a number in the order, from 0, if it is there.
    pub(crate) fn place(&self, id: u16) -> Option<usize>
        ensures { result ≡ position (λ l. l.id == id) self.now }
    {
        let kept = self.kept(id);
        if kept == 0 {
            None
        } else {
            Some(usize::from(kept) - 1)
        }
    }

    /// Returns whether there is a link of this number.
    pub(crate) fn contains(&self, id: u16) -> bool
        ensures { result ≡ has_link self.now id }
    {
        self.place(id).is_some()
    }

    /// Returns the link of a number, if there is one.
    pub(crate) fn get(&self, id: u16) -> Option<&LinkRow>
        ensures { option_copied result ≡ find (λ l. l.id == id) self.now }
    {
        let place = self.place(id)?;
        self.at(place)
    }

    /// Adds a link of a new number at the end. An error says that memory ran out; nothing was added then. O(1) on average, but O(65,536)
    /// for the first link.
    pub(crate) fn push(&mut self, row: LinkRow) -> Result<(), AllocError>
        requires few { length self.old < 4096 }
        requires fresh { has_link self.old row.id ≡ false }
        ensures ok { OnOk result (self.new ≡ self.old ++ row ∷ []) }
        ensures err { OnErr result (self.new ≡ self.old) }
    {
        fill(&mut self.places)?;
        let id = row.id;
        self.rows.push(row)?;
        self.places[usize::from(id)] = self.rows.len() as u16;
        Ok(())
    }
}
