//! A store of frames, by the numbers of their arrivals.

ghost use Rattle.std.specs.Prelude.{◌≡◌, ◌+◌, ◌<◌, ◌≤◌, length, ◌∷◌, [], ◌++◌, true, None, Some, OnOk, set, slice_index_or, count_by, is_some};
ghost use Rattle.slab.specs.Slab.{ContainsKey, Updates, slab_len};
ghost use Rattle.afdx_held_frames.specs.Inner.Kept.{key_at, NoneHeld};
ghost use Rattle.afdx_held_frames.specs.Seen.{is_held, one_less, newcomer, frame_at};

use afdx_past::{AT_ONCE, History};
use afdx_pcap::Record;
use slab::Slab;
use std::alloc::{AllocError, Allocator};
use std::marker::Model;

/// The key of an arrival of which nothing is held; no slot has it.
const NO_KEY: u32 = u32::MAX;

/// The frames that are held.
///
/// Contracts see, for each arrival in order, the frame that is held of it, if any, with the number of its copies that
/// are left; and for how many further arrivals there is room. Only `make_room` takes memory.
#[derive(Drop)]
pub struct Store<'a, A: Allocator> {
    slots: Slab<Slot<'a, A>, A>,
    /// Of each arrival the key of its slot, or `NO_KEY`. Half the size of a place, as each arrival has one.
    keys: History<u32, A>,
    /// Of the arrivals before this one nothing is held.
    low: usize,
    room: usize,
}

/// A frame, and how many of its copies are left.
#[derive(Drop)]
struct Slot<'a, A: Allocator> {
    copies: usize,
    frame: Record<'a, A>,
}

impl<'a, A: Allocator> Model for Store<'a, A> {
    ghost use Rattle.afdx_held_frames.specs.Seen.{StoreValue};

    ghost Value = { StoreValue };

    ghost use Rattle.afdx_held_frames.specs.Inner.Kept.{value_of, IsKeptStore};

    ghost view = { value_of };

    ghost invariant = { IsKeptStore };
}

/// Empties the slot at a key.
fn empty<A: Allocator + Copy>(slots: &mut Slab<Slot<'_, A>, A>, key: usize)
    requires { ContainsKey slots.old key }
    ensures updates { Updates slots.old slots.new key None }
    ensures len { slab_len slots.new + 1 ≡ slab_len slots.old }
    ensures capacity { slots.new.capacity ≡ slots.old.capacity }
{
    slots.try_remove(key);
}

/// Returns the key of an arrival that was not let go.
fn key_of<A: Allocator + Copy>(keys: &History<u32, A>, number: usize) -> u32
    requires left { keys.now.first ≤ number }
    requires within { number < length keys.now.items }
    ensures { result ≡ key_at keys.now.items number }
{
    keys.get(number).unwrap()
}

/// Returns the first arrival, from one on, of which something is held; if there is none, how many arrivals there are.
fn first_held<A: Allocator + Copy>(keys: &History<u32, A>, low: usize) -> usize
    requires left { keys.now.first ≤ low }
    requires within { low ≤ length keys.now.items }
    ensures least { low ≤ result }
    ensures within { result ≤ length keys.now.items }
    ensures none { NoneHeld keys.now.items low result }
{
    let mut first = low;
    while first < keys.len() && key_of(keys, first) == NO_KEY {
        first += 1;
    }
    first
}

impl<'a, A: Allocator + Copy> Store<'a, A> {
    /// Makes a store that holds nothing. It takes no memory. O(1).
    pub fn new(alloc: A) -> Self
        ensures { result ≡ record { held = []; room = 0 } }
    {
        Store {
            slots: Slab::new(alloc),
            keys: History::new(alloc),
            low: 0,
            room: 0,
        }
    }

    /// Lets go of the keys of the first arrivals, of which nothing is held. O(1) for each arrival, in all calls together.
    fn let_go(&mut self)
        ensures { self.new ≡ self.old }
    {
        self.low = first_held(&self.keys, self.low);
        self.keys.let_go(self.low);
    }

    /// Makes room for one more arrival: if there is none, lets go of the keys of arrivals that are past, and makes room for 64 more.
    /// An error says that memory ran out; what is held is as before then. O(1) on average.
    #[inline(always)]
    pub fn make_room(&mut self) -> Result<(), AllocError>
        ensures ok { OnOk result (0 < self.new.room) }
        ensures held { self.new.held ≡ self.old.held }
    {
        if self.room > 0 {
            return Ok(());
        }
        self.make_more_room()
    }

    /// Lets go of the keys of arrivals that are past, and makes room for 64 more, if there is none.
    #[inline(never)]
    fn make_more_room(&mut self) -> Result<(), AllocError>
        requires { self.old.room ≡ 0 }
        ensures ok { OnOk result (0 < self.new.room) }
        ensures held { self.new.held ≡ self.old.held }
    {
        self.let_go();
        self.reserve_some()
    }

    /// Makes room for 64 more arrivals, if there is none. Fails if memory runs out, or if a `u32` could not count the slots then.
    fn reserve_some(&mut self) -> Result<(), AllocError>
        requires { self.old.room ≡ 0 }
        ensures ok { OnOk result (0 < self.new.room) }
        ensures held { self.new.held ≡ self.old.held }
    {
        self.slots.reserve(AT_ONCE)?;
        self.keys.reserve(AT_ONCE)?;
        if self.slots.capacity() > NO_KEY as usize {
            return Err(AllocError);
        }
        self.room = AT_ONCE;
        Ok(())
    }

    /// Returns how many frames are held. O(1).
    pub fn held(&self) -> usize
        ensures { result ≡ count_by is_some self.now.held }
    {
        self.slots.len()
    }

    /// Adds the next arrival, of whose frame so many copies are left; if none is, the frame is dropped. O(1).
    #[inline(always)]
    pub fn add(&mut self, copies: usize, frame: Record<'a, A>)
        requires { 0 < self.old.room }
        ensures { self.new.held ≡ self.old.held ++ newcomer copies frame.entry ∷ [] }
    {
        if copies == 0 {
            self.skip();
        } else {
            self.hold(copies, frame);
        }
    }

    /// Adds the next arrival, which has no copies. O(1).
    #[inline(always)]
    pub fn skip(&mut self)
        requires { 0 < self.old.room }
        ensures { self.new.held ≡ self.old.held ++ None ∷ [] }
    {
        self.room -= 1;
        self.keys.push(NO_KEY);
    }

    /// Adds the next arrival, which has at least one copy.
    #[inline(always)]
    fn hold(&mut self, copies: usize, frame: Record<'a, A>)
        requires room { 0 < self.old.room }
        requires some { 0 < copies }
        ensures { self.new.held ≡ self.old.held ++ Some (record { copies = copies; frame = frame.entry }) ∷ [] }
    {
        let key = self.slots.insert_reserved(Slot { copies, frame });
        self.room -= 1;
        self.keys.push(key as u32);
    }

    /// Discards one copy of a frame, and the frame with the last of them. O(1).
    pub fn discard(&mut self, number: usize)
        requires { is_held self.old.held number ≡ true }
        ensures held { self.new.held ≡ set self.old.held number (one_less (slice_index_or self.old.held number None)) }
        ensures room { self.new.room ≡ self.old.room }
    {
        let key = key_of(&self.keys, number) as usize;
        let slot = &mut self.slots[key];
        slot.copies -= 1;
        if slot.copies == 0 {
            empty(&mut self.slots, key);
            self.keys.set(number, NO_KEY);
        }
    }

    /// Returns the frame that is held of an arrival. O(1).
    pub fn frame(&self, number: usize) -> &Record<'a, A>
        requires { is_held self.now.held number ≡ true }
        ensures { frame_at self.now.held number ≡ Some result.now }
    {
        let key = key_of(&self.keys, number) as usize;
        &self.slots.get(key).unwrap().frame
    }
}
