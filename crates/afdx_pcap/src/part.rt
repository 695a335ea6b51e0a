//! Bytes that several records share.

ghost use Rattle.std.specs.Prelude.{◌≡◌, ◌+◌, ◌-◌, ◌≤◌, ◌++◌, length, take, drop, IfOk, IfErr};

use std::alloc::{AllocError, Allocator};
use std::marker::Model;
use std::rc::Rc;

/// A part of some bytes, which stay as long as any part of them does.
#[derive(Debug, Drop)]
pub struct Part<A: Allocator> {
    bytes: Rc<Vec<u8, A>, A>,
    start: usize,
    end: usize,
}

impl<A: Allocator> Model for Part<A> {
    ghost use Rattle.std.specs.Prelude.{◌-◌, ◌≤◌, ℕ, List, length, take, drop};

    ghost Value = { List ℕ };

    ghost view = { λ p. take (p.end - p.start) (drop p.start p.bytes.value.items) };

    ghost invariant = { λ p. (p.start ≤ p.end) × (p.end ≤ length p.bytes.value.items) };
}

impl<A: Allocator> Part<A> {
    /// Returns its bytes. O(1).
    pub fn as_slice(&self) -> &[u8]
        ensures { result.now ≡ self.now }
    {
        &self.bytes[self.start..self.end]
    }
}

impl<A: Allocator + Copy> Part<A> {
    /// Makes a part of all of these bytes. They come back if memory ran out. O(1).
    pub fn whole(alloc: A, bytes: Vec<u8, A>) -> Result<Part<A>, Vec<u8, A>>
        ensures ok { IfOk result (λ part. part ≡ bytes.items) }
        ensures err { IfErr result (λ back. back ≡ bytes) }
    {
        let end = bytes.len();
        match Rc::new(alloc, bytes) {
            Ok(bytes) => Ok(Part {
                bytes,
                start: 0,
                end,
            }),
            Err(failed) => Err(failed.value),
        }
    }

    /// Returns the bytes of this from `start` to `end`, which both share. An error says that they are shared too often. O(1).
    pub fn part(&self, start: usize, end: usize) -> Result<Part<A>, AllocError>
        requires order { start ≤ end }
        requires within { end ≤ length self.now }
        ensures { IfOk result (λ part. part ≡ take (end - start) (drop start self.now)) }
    {
        let bytes = self.bytes.clone()?;
        Ok(Part {
            bytes,
            start: self.start + start,
            end: self.start + end,
        })
    }

    /// Lets go of the first `count` bytes. O(1).
    pub fn forget(&mut self, count: usize)
        requires { count ≤ length self.old }
        ensures { self.new ≡ drop count self.old }
    {
        self.start += count;
    }

    /// Returns a copy of these bytes with more after them. An error says that memory ran out. O(bytes).
    pub fn and(&self, alloc: A, more: &[u8]) -> Result<Vec<u8, A>, AllocError>
        ensures { IfOk result (λ all. all.items ≡ self.now ++ more.now) }
    {
        let own = self.as_slice();
        let mut all = Vec::with_capacity(alloc, own.len().saturating_add(more.len()))?;
        all.extend_from_slice(own)?;
        all.extend_from_slice(more)?;
        Ok(all)
    }
}
