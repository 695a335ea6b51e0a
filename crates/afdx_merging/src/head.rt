//! A record of a capture, with its number there.

ghost use Rattle.std.specs.Prelude.{◌≡◌, IfOk};
ghost use Rattle.afdx_pairing.specs.Events.{mark_of};

use afdx_pairing::{Mark, Numbered};
use afdx_pcap::Record;
use afdx_units::Stamp;
use std::alloc::{AllocError, Allocator};
use std::marker::Model;

/// A record of a capture: its number there, from 1, and its instant by the clock that all records are compared by.
#[derive(Drop)]
pub struct Head<A: Allocator> {
    pub(crate) number: u64,
    pub(crate) stamp: Stamp,
    pub(crate) frame: Record<'static, A>,
}

impl<A: Allocator> Model for Head<A> {
    ghost use Rattle.afdx_pairing.specs.Events.{Numbered as Seen, numbered_of};

    ghost Value = { Seen };

    ghost view = { λ h. numbered_of h.number h.stamp h.frame };
}

impl<A: Allocator + Copy> Head<A> {
    /// Returns its instant. O(1).
    pub fn stamp(&self) -> Stamp
        ensures { result ≡ self.now.frame.stamp }
    {
        self.stamp
    }

    /// Returns its number and its instant. O(1).
    pub fn mark(&self) -> Mark
        ensures { result ≡ mark_of self.now }
    {
        Mark {
            number: self.number,
            stamp: self.stamp,
        }
    }

    /// Returns the record with the bytes and the length that its capture has. What stamp it has is not said: its instant is `stamp`. O(1).
    pub fn frame(&self) -> &Record<'static, A>
        ensures { record result.now { stamp = self.now.frame.stamp } ≡ self.now.frame }
    {
        &self.frame
    }

    /// Returns the record, at its instant. Its bytes are copied if its capture has another stamp. An error is out of memory.
    /// O(1), or O(bytes) if they are copied.
    pub fn into_frame(self, alloc: A) -> Result<Record<'static, A>, AllocError>
        ensures { IfOk result (λ frame. frame ≡ self.frame) }
    {
        let Head { stamp, frame, .. } = self;
        if frame.stamp() == stamp {
            return Ok(frame);
        }
        let bytes = Vec::from_slice(alloc, frame.bytes())?;
        match Record::new(stamp, frame.original(), bytes) {
            Ok(moved) => Ok(moved),
            Err(_) => unreachable!(),
        }
    }

    /// Returns the same record, which several may share. An error is out of memory. O(1).
    pub fn shared(self, alloc: A) -> Result<Numbered<'static, A>, AllocError>
        ensures { IfOk result (λ n. n ≡ self) }
    {
        Numbered::new(alloc, self.number, self.stamp, self.frame)
    }
}
