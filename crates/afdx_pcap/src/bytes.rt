//! Bytes that are owned, shared or lent.

ghost use Rattle.std.specs.Prelude.{◌≡◌, ◌-◌, ◌≤◌, ◌++◌, length, take, drop, false, is_ok, IfOk, IfErr, if◌then◌else◌};
ghost use Rattle.afdx_pcap.specs.Bytes.{plain_bytes, is_lent};

use crate::part::Part;
use std::alloc::{AllocError, Allocator};
use std::mem;

/// Bytes, as std's `Cow` has them, or a part of bytes that others share.
#[derive(Debug, Drop)]
pub enum Bytes<'a, A: Allocator> {
    Owned(Vec<u8, A>),
    Shared(Part<A>),
    Lent(&'a [u8]),
}

impl<'a, A: Allocator> Bytes<'a, A> {
    /// Returns the bytes, wherever they are. O(1).
    pub fn as_slice(&self) -> &[u8]
        ensures { result.now ≡ plain_bytes self.now }
    {
        match self {
            Bytes::Owned(bytes) => bytes,
            Bytes::Shared(part) => part.as_slice(),
            Bytes::Lent(bytes) => bytes,
        }
    }
}

impl<'a, A: Allocator + Copy> Bytes<'a, A> {
    /// Shares bytes that are owned, if no more than `most` lie from `end` on. O(1).
    fn share(&mut self, alloc: A, end: usize, most: usize) -> Result<(), AllocError>
        requires within { end ≤ length (plain_bytes self.old) }
        ensures bytes { plain_bytes self.new ≡ plain_bytes self.old }
        ensures lent { is_lent self.new ≡ is_lent self.old }
        ensures err { IfErr result (λ _. is_lent self.old ≡ false) }
    {
        if let Bytes::Owned(bytes) = self {
            if bytes.len() - end > most {
                return Ok(());
            }
            let bytes = mem::replace(bytes, Vec::new(alloc));
            match Part::whole(alloc, bytes) {
                Ok(part) => *self = Bytes::Shared(part),
                Err(bytes) => {
                    *self = Bytes::Owned(bytes);
                    return Err(AllocError);
                }
            }
        }
        Ok(())
    }

    /// Returns the bytes from `start` to `end`: lent if these are; shared with these if these are shared already, or if no more than
    /// `most` lie after them, since to append to shared bytes takes a copy of them; else a copy. An error says that memory ran out, or
    /// that these are shared too often; never if they are lent. O(1), and O(bytes of the part) if it is a copy.
    pub fn part(
        &mut self,
        alloc: A,
        start: usize,
        end: usize,
        most: usize,
    ) -> Result<Bytes<'a, A>, AllocError>
        requires order { start ≤ end }
        requires within { end ≤ length (plain_bytes self.old) }
        ensures bytes { plain_bytes self.new ≡ plain_bytes self.old }
        ensures same { is_lent self.new ≡ is_lent self.old }
        ensures ok { IfOk result (λ part. plain_bytes part ≡ take (end - start) (drop start (plain_bytes self.old))) }
        ensures err { IfErr result (λ _. is_lent self.old ≡ false) }
    {
        self.share(alloc, end, most)?;
        self.cut(alloc, start, end)
    }

    /// Returns the bytes from `start` to `end`: lent or shared if these are, else a copy.
    fn cut(&self, alloc: A, start: usize, end: usize) -> Result<Bytes<'a, A>, AllocError>
        requires order { start ≤ end }
        requires within { end ≤ length (plain_bytes self.now) }
        ensures ok { IfOk result (λ part. plain_bytes part ≡ take (end - start) (drop start (plain_bytes self.now))) }
        ensures err { IfErr result (λ _. is_lent self.now ≡ false) }
    {
        match self {
            Bytes::Owned(bytes) => Ok(Bytes::Owned(Vec::from_slice(alloc, &bytes[start..end])?)),
            Bytes::Shared(part) => Ok(Bytes::Shared(part.part(start, end)?)),
            Bytes::Lent(bytes) => Ok(Bytes::Lent(&bytes[start..end])),
        }
    }

    /// Appends more bytes to those that are not lent; to a copy of them if they are shared. An error says that memory ran out; they are as
    /// before then. O(more) amortized, and O(bytes) if they are shared.
    pub fn extend(&mut self, alloc: A, more: &[u8]) -> Result<(), AllocError>
        requires { is_lent self.old ≡ false }
        ensures bytes { plain_bytes self.new ≡ (if is_ok result then plain_bytes self.old ++ more.now else plain_bytes self.old) }
        ensures lent { is_lent self.new ≡ false }
    {
        match self {
            Bytes::Owned(bytes) => bytes.extend_from_slice(more),
            Bytes::Shared(part) => {
                *self = Bytes::Owned(part.and(alloc, more)?);
                Ok(())
            }
            Bytes::Lent(_) => unreachable!(),
        }
    }

    /// Lets go of the first `count` of bytes that are not lent, and keeps the memory of those that are owned for others. O(the rest),
    /// and O(1) if they are shared.
    pub fn forget(&mut self, count: usize)
        requires owned { is_lent self.old ≡ false }
        requires within { count ≤ length (plain_bytes self.old) }
        ensures bytes { plain_bytes self.new ≡ drop count (plain_bytes self.old) }
        ensures lent { is_lent self.new ≡ false }
    {
        match self {
            Bytes::Owned(bytes) => {
                let rest = bytes.len() - count;
                bytes.copy_within(count.., 0);
                bytes.truncate(rest);
            }
            Bytes::Shared(part) => part.forget(count),
            Bytes::Lent(_) => unreachable!(),
        }
    }
}
