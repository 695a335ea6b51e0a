//! A queue of records, which finds them by their bytes.

ghost use Rattle.std.specs.Prelude.{◌≡◌, ◌+◌, ◌^◌, ◌≤◌, ◌<◌, ◌++◌, ◌∷◌, [], length, drop, slice_get, option_map, nat_le, OnOk, OnErr, IfOk, IfSome};
ghost use Rattle.std.specs.List.{position, position_or_len, list_any, AllByRecursion};
ghost use Rattle.afdx_pairing.specs.Queue.{is_from, is_within};
ghost use Rattle.afdx_pairing.specs.Inner.Queue.{ComeInOrder};

use crate::numbered::Numbered;
use crate::spots::{Spot, Spots, add, first_from, forget};
use std::alloc::{AllocError, Allocator};
use std::collections::{BTreeMap, VecDeque};
use std::marker::Model;

/// Records in the order of their instants, found by their bytes, so that many of them are no slower than few.
#[derive(Drop)]
pub struct Queue<'a, A: Allocator> {
    alloc: A,
    items: VecDeque<Numbered<'a, A>, A>,
    spots: Spots<A>,
    /// How many have left the queue.
    gone: u64,
}

/// Returns the place of the next record, counted from the first that ever was in the queue: so many are gone, and so many are there.
fn next_place(gone: u64, count: usize) -> Result<u64, AllocError>
    ensures { IfOk result (λ place. (place ≡ gone + count) × (place + 1 < 2 ^ 64)) }
{
    match gone.checked_add(count as u64) {
        Some(place) if place < u64::MAX => Ok(place),
        _ => Err(AllocError),
    }
}

impl<'a, A: Allocator> Model for Queue<'a, A> {
    ghost use Rattle.std.specs.Prelude.{List};
    ghost use Rattle.afdx_pairing.specs.Events.{Numbered as Seen};
    ghost use Rattle.afdx_pairing.specs.Inner.Queue.{IsKeptQueue};

    ghost Value = { List Seen };

    ghost view = { λ q. q.items.items };

    ghost invariant = { λ q. IsKeptQueue q.items.items q.spots q.gone };
}

impl<'a, A: Allocator + Copy> Queue<'a, A> {
    /// Makes a queue of no records. It takes no memory. O(1).
    pub fn new(alloc: A) -> Queue<'a, A>
        ensures { result ≡ [] }
    {
        Queue {
            alloc,
            items: VecDeque::new(alloc),
            spots: BTreeMap::new(alloc),
            gone: 0,
        }
    }

    /// Returns how many records there are. O(1).
    pub fn len(&self) -> usize
        ensures count { result ≡ length self.now }
        ensures small { result < 2 ^ 63 }
    {
        self.items.len()
    }

    /// Returns the record at a place, if there is one; the first is at 0. O(1).
    pub fn get(&self, place: usize) -> Option<&Numbered<'a, A>>
        ensures { option_map (λ n. n.now) result ≡ slice_get self.now place }
    {
        self.items.get(place)
    }

    /// Returns the first record, if there is one. O(1).
    pub fn front(&self) -> Option<&Numbered<'a, A>>
        ensures { option_map (λ n. n.now) result ≡ slice_get self.now 0 }
    {
        self.items.front()
    }

    /// Adds a record whose instant is no sooner than that of any other. An error is out of memory, also if the record would be the `2^64`th that
    /// ever was in the queue: nothing was added then. O(bytes * log of the records).
    pub fn push(&mut self, item: Numbered<'a, A>) -> Result<(), AllocError>
        requires { AllByRecursion (λ n. n.frame.stamp ≤ item.frame.stamp) self.old }
        ensures ok { OnOk result (self.new ≡ self.old ++ item.entry ∷ []) }
        ensures err { OnErr result (self.new ≡ self.old) }
    {
        let place = next_place(self.gone, self.items.len())?;
        self.items.reserve(1)?;
        let spot = Spot {
            stamp: item.stamp(),
            place,
        };
        add(self.alloc, &mut self.spots, item.bytes(), spot)?;
        self.items.push_back_reserved(item);
        Ok(())
    }

    /// Takes the first record away, if there is one. O(bytes * log of the records).
    pub fn pop(&mut self) -> Option<Numbered<'a, A>>
        ensures some { result ≡ slice_get self.old 0 }
        ensures rest { self.new ≡ drop 1 self.old }
    {
        let item = self.items.pop_front()?;
        forget(&mut self.spots, item.bytes());
        self.gone += 1;
        Some(item)
    }

    /// Returns how many records, from the first on, come sooner than an instant in nanoseconds. O(log of the records).
    pub fn sooner_than(&self, at: u128) -> usize
        ensures count { result ≡ position_or_len (λ n. nat_le at n.frame.stamp) self.now }
        ensures some { result ≤ length self.now }
    {
        self.items
            .partition_point(|item| u128::from(item.stamp().ns()) < at)
    }

    /// Returns the place of the first record that has these bytes and comes no sooner than an instant in nanoseconds. O(bytes * log of the records).
    pub fn first_from(&self, bytes: &[u8], from: u128) -> Option<usize>
        ensures place { result ≡ position (is_from bytes.now from) self.now }
        ensures some { IfSome result (λ place. place < length self.now) }
        ensures in_order { ComeInOrder self.now }
    {
        let spot = first_from(&self.spots, bytes, from)?;
        Some((spot.place - self.gone) as usize)
    }

    /// Returns whether a record has these bytes, and comes no sooner than one instant and no later than another, both in nanoseconds. O(bytes *
    /// log of the records).
    pub fn has_within(&self, bytes: &[u8], from: u128, last: u128) -> bool
        ensures { result ≡ list_any (is_within bytes.now from last) self.now }
    {
        self.first_within(bytes, from, last).is_some()
    }

    /// Returns the place of the first record that has these bytes, and comes no sooner than one instant and no later than another.
    fn first_within(&self, bytes: &[u8], from: u128, last: u128) -> Option<usize>
        ensures { result ≡ position (is_within bytes.now from last) self.now }
    {
        let place = self.first_from(bytes, from)?;
        if last < u128::from(self.get(place)?.stamp().ns()) {
            return None;
        }
        Some(place)
    }
}
