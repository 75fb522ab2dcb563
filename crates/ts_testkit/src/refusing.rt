//! An allocator that refuses one request.

use std::alloc::{AllocError, Allocator};
use std::cell::Cell;

/// More requests than there are.
const NEVER: u64 = u64::MAX / 2;

/// Passes requests on to another allocator, but refuses the one after `left` others.
pub struct Refusing<B: Allocator> {
    inner: B,
    left: Cell<u64>,
}

/// Counts a request; returns true if it is the one to refuse.
fn is_refused(left: &Cell<u64>) -> bool {
    let before = left.get();
    left.set(before.wrapping_sub(1));
    before == 0
}

impl<B: Allocator> Refusing<B> {
    /// Creates an allocator that refuses nothing.
    pub fn new(inner: B) -> Refusing<B> {
        Refusing {
            inner,
            left: Cell::new(NEVER),
        }
    }

    /// Refuses the request after `left` others, from now on.
    pub fn refuse_after(&self, left: u64) {
        self.left.set(left);
    }

    /// Refuses nothing, from now on.
    pub fn refuse_none(&self) {
        self.left.set(NEVER);
    }

    /// Returns true if a request was refused.
    pub fn has_refused(&self) -> bool {
        self.left.get() > NEVER
    }
}

impl<B: Allocator> Drop for Refusing<B> {
    fn drop(self) {
        let Self { inner: _, left: _ } = self;
    }
}

unsafe impl<B: Allocator> Allocator for Refusing<B> {
    ghost dealloc_token = { λ heap ty ptr. B.dealloc_token heap.inner ty ptr };

    fn allocate(&self, size: usize, align: usize) -> Result<*mut u8, AllocError> {
        if is_refused(&self.left) {
            return Err(AllocError);
        }
        self.inner.allocate(size, align)
    }

    unsafe fn deallocate(&self, ptr: *mut u8, size: usize, align: usize) {
        self.inner.deallocate(ptr, size, align);
    }
}
