//! Records.

ghost use Rattle.std.specs.Prelude.{◌≡◌, ◌<◌, ◌≤◌, length, IfOk, IfErr, IfSome, IfNone};
ghost use Rattle.afdx_units.specs.Line.{size_of};
ghost use Rattle.afdx_pcap.specs.Bytes.{plain_bytes};
ghost use Rattle.afdx_pcap.specs.Record.{captured_limit, IsWithinLimit};

use crate::bytes::Bytes;
use afdx_units::{Stamp, size};
use std::alloc::Allocator;
use std::marker::Model;

/// The most bytes that a record holds.
pub const MAX_CAPTURED: u32 = 262_144;

/// A frame as it was captured: when, how long it was on the line, and which of its bytes were kept.
///
/// It owns these bytes or shares them, or they are lent from the capture that it was read from.
#[derive(Debug, Drop)]
pub struct Record<'a, A: Allocator> {
    stamp: Stamp,
    original: u32,
    /// What a reader guessed of the frame, which contracts do not see.
    guess: u16,
    bytes: Bytes<'a, A>,
}

impl<'a, A: Allocator> Model for Record<'a, A> {
    ghost use Rattle.std.specs.Prelude.{◌≤◌, length};
    ghost use Rattle.afdx_pcap.specs.Bytes.{plain_bytes};
    ghost use Rattle.afdx_pcap.specs.Record.{Record as Seen, captured_limit};

    ghost Value = { Seen };

    ghost view = { λ r. record { stamp = r.stamp; original = r.original; bytes = plain_bytes r.bytes } };

    ghost invariant = { λ r. length (plain_bytes r.bytes) ≤ captured_limit };
}

impl<'a, A: Allocator> Record<'a, A> {
    /// Makes a record of these bytes, captured at `stamp`, of a frame of `original` bytes on the line.
    ///
    /// The bytes are moved, and come back if they are more than 262,144. O(1).
    pub fn new(stamp: Stamp, original: u32, bytes: Vec<u8, A>) -> Result<Record<'a, A>, Vec<u8, A>>
        ensures ok { IfOk result (λ r. (length bytes.items ≤ captured_limit)
            × (r ≡ record { stamp = stamp; original = original; bytes = bytes.items })) }
        ensures err { IfErr result (λ back. (captured_limit < length bytes.items) × (back ≡ bytes)) }
    {
        if bytes.len() > MAX_CAPTURED as usize {
            return Err(bytes);
        }
        Ok(Record {
            stamp,
            original,
            guess: 0,
            bytes: Bytes::Owned(bytes),
        })
    }

    /// Makes a record of these bytes, which stay where they are, captured at `stamp`, of a frame of `original` bytes on the line;
    /// none if they are more than 262,144. O(1), no memory.
    pub fn lent(stamp: Stamp, original: u32, bytes: &'a [u8]) -> Option<Record<'a, A>>
        ensures some { IfSome result (λ r. (length bytes.now ≤ captured_limit)
            × (r ≡ record { stamp = stamp; original = original; bytes = bytes.now })) }
        ensures none { IfNone result (captured_limit < length bytes.now) }
    {
        if bytes.len() <= MAX_CAPTURED as usize {
            Some(Record {
                stamp,
                original,
                guess: 0,
                bytes: Bytes::Lent(bytes),
            })
        } else {
            None
        }
    }

    /// Makes a record of these bytes, whoever owns them.
    pub(crate) fn of(stamp: Stamp, original: u32, bytes: Bytes<'a, A>) -> Record<'a, A>
        requires { length (plain_bytes bytes) ≤ captured_limit }
        ensures { result ≡ record { stamp = stamp; original = original; bytes = plain_bytes bytes.entry } }
    {
        Record {
            stamp,
            original,
            guess: 0,
            bytes,
        }
    }

    /// Returns the record with a guess of what its frame is about. Contracts do not see it: it spares a wait for the frame's bytes, and who
    /// uses it checks it. O(1).
    #[inline(always)]
    pub fn with_guess(self, guess: u16) -> Record<'a, A>
        ensures { result ≡ self.entry }
    {
        Record {
            stamp: self.stamp,
            original: self.original,
            guess,
            bytes: self.bytes,
        }
    }

    /// Returns the guess that the record was given, or 0. O(1).
    #[inline(always)]
    pub fn guess(&self) -> u16 {
        self.guess
    }

    /// Returns the instant at which the frame was captured. O(1).
    pub fn stamp(&self) -> Stamp
        ensures { result ≡ self.now.stamp }
    {
        self.stamp
    }

    /// Returns the number of bytes that the frame had on the line, as the capture says. O(1).
    pub fn original(&self) -> u32
        ensures { result ≡ self.now.original }
    {
        self.original
    }

    /// Returns the bytes that were captured, at most 262,144. O(1).
    pub fn bytes(&self) -> &[u8]
        ensures bytes { result.now ≡ self.now.bytes }
        ensures limit { IsWithinLimit self.now }
    {
        self.bytes.as_slice()
    }

    /// Returns the size in bytes that counts of the frame, by the bytes that were captured: at most 262,148. O(1).
    #[inline(always)]
    pub fn size(&self) -> u32
        ensures size { result ≡ size_of (length self.now.bytes) }
        ensures limit { result ≤ 262148 }
    {
        size(self.bytes().len() as u32)
    }
}
