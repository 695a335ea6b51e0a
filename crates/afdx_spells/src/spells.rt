//! All spells of a link.

ghost use Rattle.std.specs.Prelude.{◌≡◌, ◌<◌, ◌≤◌, ◌++◌, ◌∷◌, [], ℕ, true, List, length, IfSome, OnErr, OnOk};
ghost use Rattle.afdx_spells.specs.Spells.{HasNoRoom, goes_on, last_of, spells_of};
ghost use Rattle.afdx_spells.specs.declared.spell.Excess.{Excess as Frame};

use crate::spell::{Excess, Spell};
use std::alloc::{AllocError, Allocator};
use std::marker::Model;

/// The spells in which a link was policed, so far.
///
/// Contracts see the link's gap in nanoseconds, and the spells in order.
#[derive(Drop)]
pub struct Spells<A: Allocator> {
    gap: u64,
    all: Vec<Spell, A>,
}

impl<A: Allocator> Model for Spells<A> {
    ghost use Rattle.std.specs.Prelude.{◌≤◌};
    ghost use Rattle.afdx_spells.specs.Spells.{Noted};

    ghost Value = { Noted };

    ghost view = { λ s. record { gap = s.gap; spells = s.all.items } };

    ghost invariant = { λ s. s.gap ≤ 128000000 };
}

/// Returns whether a frame goes on with the last of these spells.
fn goes_on(all: &[Spell], gap: u64, frame: &Excess) -> bool
    requires { gap ≤ 128000000 }
    ensures { result ≡ goes_on gap (last_of all.now) frame.now }
{
    match all.last() {
        Some(last) => last.takes(gap, frame),
        None => false,
    }
}

/// Adds a frame to the last of these spells, with which it goes on.
///
/// An error says that this one has 2^64 - 1 frames.
fn go_on(all: &mut [Spell], frame: &Excess) -> Result<(), AllocError>
    requires { 0 < length all.old }
    ensures ok { OnOk result ((gap : ℕ) (frames : List Frame) → all.old ≡ spells_of gap frames → goes_on gap (last_of all.old) frame.now ≡ true
        → all.new ≡ spells_of gap (frames ++ frame.now ∷ [])) }
    ensures stays { OnErr result (all.new ≡ all.old) }
    ensures full { OnErr result (IfSome (last_of all.old) (λ s. s.count ≡ 18446744073709551615)) }
{
    let place = all.len() - 1;
    let last = all[place];
    if last.count == u64::MAX {
        return Err(AllocError);
    }
    all[place] = last.with(frame);
    Ok(())
}

impl<A: Allocator + Copy> Spells<A> {
    /// Makes the spells of a link of which nothing was policed yet, with a gap of at most 128,000,000 ns. It takes no memory. O(1).
    pub fn new(alloc: A, gap: u64) -> Spells<A>
        requires { gap ≤ 128000000 }
        ensures gap { result.gap ≡ gap }
        ensures none { result.spells ≡ [] }
    {
        Spells {
            gap,
            all: Vec::new(alloc),
        }
    }

    /// Notes one more policed frame of the link, which came after those before it.
    ///
    /// An error says that memory ran out for a spell that it begins, or that the spell with which it goes on has 2^64 - 1 frames; what was
    /// noted stays as it was. O(1), beside what a list takes to move.
    pub fn note(&mut self, frame: &Excess) -> Result<(), AllocError>
        ensures gap { self.new.gap ≡ self.old.gap }
        ensures spells { (frames : List Frame) → self.old.spells ≡ spells_of self.old.gap frames
            → OnOk result (self.new.spells ≡ spells_of self.old.gap (frames ++ frame.now ∷ [])) }
        ensures stays { OnErr result (self.new ≡ self.old) }
        ensures full { OnErr result (HasNoRoom self.old frame.now) }
    {
        if goes_on(&self.all, self.gap, frame) {
            return go_on(&mut self.all, frame);
        }
        self.all.push(Spell::of(frame))?;
        Ok(())
    }

    /// Returns the spells, in order. O(1).
    pub fn as_slice(&self) -> &[Spell]
        ensures { result.now ≡ self.now.spells }
    {
        &self.all
    }
}
