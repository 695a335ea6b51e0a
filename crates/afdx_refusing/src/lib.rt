//! An allocator for tests: it passes each call on to another, but refuses one allocation.
//!
//! A test runs the same calls with the first allocation refused, with the second, and so on until none is left to be refused.
//! So it sees each call run out of memory at each of its allocations.
#![tactic(auto)]

ghost use Rattle.std.specs.Prelude.{◌≡◌, ◌==◌, ◌-◌};

use std::alloc::{AllocError, Allocator};
use std::cell::Cell;

/// An allocator that refuses one allocation, and passes every other call on to `inner`. A growth is an allocation.
pub struct Refusing<B: Allocator> {
    inner: B,
    left: Cell<u64>,
}

impl<B: Allocator> Refusing<B> {
    /// Makes an allocator that refuses the nth allocation from now on, counted from 1; none if n is 0. O(1).
    pub fn new(inner: B, n: u64) -> Refusing<B> {
        Refusing {
            inner,
            left: Cell::new(n),
        }
    }

    /// Returns whether the allocation was refused, or none was to be. O(1).
    pub fn is_spent(&self) -> bool {
        self.left.get() == 0
    }
}

impl<B: Allocator> Drop for Refusing<B> {
    fn drop(self) {
        let Self { inner: _, left: _ } = self;
    }
}

/// Returns whether an allocation is to be refused: the last of so many is, and none is if they are 0.
fn is_last(left: u64) -> bool
    ensures { result ≡ (left == 1) }
{
    left == 1
}

/// Returns how many are left after one of so many; none after the last.
fn left_after(left: u64) -> u64
    ensures { result ≡ left - 1 }
{
    left.saturating_sub(1)
}

/// Counts an allocation, and returns whether it is the one to be refused.
fn refuses(left: &Cell<u64>) -> bool {
    let n = left.get();
    left.set(left_after(n));
    is_last(n)
}

unsafe impl<B: Allocator> Allocator for Refusing<B> {
    ghost dealloc_token = { λ heap ty ptr. B.dealloc_token heap.inner ty ptr };

    fn allocate(&self, size: usize, align: usize) -> Result<*mut u8, AllocError> {
        if refuses(&self.left) {
            return Err(AllocError);
        }
        self.inner.allocate(size, align)
    }

    unsafe fn deallocate(&self, ptr: *mut u8, size: usize, align: usize) {
        self.inner.deallocate(ptr, size, align);
    }
}
