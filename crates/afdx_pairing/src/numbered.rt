//! Records with their numbers.

ghost use Rattle.std.specs.Prelude.{◌≡◌, ◌≤◌, length, IfOk};
ghost use Rattle.afdx_units.specs.Line.{size_of};
ghost use Rattle.afdx_pcap.specs.Record.{captured_limit};
ghost use Rattle.afdx_pairing.specs.Events.{mark_of, numbered_of};

use crate::event::Mark;
use afdx_pcap::Record;
use afdx_units::Stamp;
use std::alloc::{AllocError, Allocator};
use std::marker::Model;
use std::rc::Rc;

/// A record, its number in its capture, and its instant by the clock that all records are compared by.
///
/// Several can be the same record, whose bytes they share.
#[derive(Drop)]
pub struct Numbered<'a, A: Allocator> {
    number: u64,
    stamp: Stamp,
    frame: Rc<Record<'a, A>, A>,
}

impl<'a, A: Allocator> Model for Numbered<'a, A> {
    ghost use Rattle.afdx_pairing.specs.Events.{Numbered as Seen, numbered_of};

    ghost Value = { Seen };

    ghost view = { λ n. numbered_of n.number n.stamp n.frame.value };
}

impl<'a, A: Allocator> Numbered<'a, A> {
    /// Returns its instant. O(1).
    pub fn stamp(&self) -> Stamp
        ensures { result ≡ self.now.frame.stamp }
    {
        self.stamp
    }

    /// Returns its bytes. O(1).
    pub fn bytes(&self) -> &[u8]
        ensures bytes { result.now ≡ self.now.frame.bytes }
        ensures limit { length self.now.frame.bytes ≤ captured_limit }
    {
        self.frame.bytes()
    }

    /// Returns the size in bytes that counts of its frame, at most 262,148. O(1).
    pub fn size(&self) -> u32
        ensures size { result ≡ size_of (length self.now.frame.bytes) }
        ensures limit { result ≤ 262148 }
    {
        self.frame.size()
    }

    /// Returns its number and its instant. O(1).
    pub fn mark(&self) -> Mark
        ensures { result ≡ mark_of self.now }
    {
        Mark {
            number: self.number,
            stamp: self.stamp,
        }
    }
}

impl<'a, A: Allocator + Copy> Numbered<'a, A> {
    /// Makes the record of this number, at this instant. An error is out of memory. O(1).
    pub fn new(
        alloc: A,
        number: u64,
        stamp: Stamp,
        frame: Record<'a, A>,
    ) -> Result<Numbered<'a, A>, AllocError>
        ensures { IfOk result (λ n. n ≡ numbered_of number stamp frame.entry) }
    {
        let frame = Rc::new(alloc, frame)?;
        Ok(Numbered {
            number,
            stamp,
            frame,
        })
    }

    /// Returns the same record with the same number. An error says that it cannot be shared any more. O(1), no memory.
    pub fn again(&self) -> Result<Numbered<'a, A>, AllocError>
        ensures { IfOk result (λ n. n ≡ self.now) }
    {
        Ok(Numbered {
            number: self.number,
            stamp: self.stamp,
            frame: self.frame.clone()?,
        })
    }
}
