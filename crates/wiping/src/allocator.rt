//! The allocator: it passes each request on, and clears each block that goes back.
ghost use Rattle.std.specs.Prelude.{◌≡◌};

use crate::below::Below;
use crate::zeros::wipe;
use std::alloc::{AllocError, Allocator};

/// An allocator that passes each request on to the one below it, and writes zeros over each block before freeing it.
/// So the contents of a vector over it are not left in free memory: a vector that grows or shrinks moves to a new
/// block, and the old one is cleared.
#[derive(Clone, Copy)]
pub struct Wiping<B: Allocator> {
    inner: Below<B>,
}

impl<B: Allocator> Wiping<B> {
    ghost use Rattle.wiping.specs.Wiping.{inner_of};

    /// Returns an allocator over `inner`.
    pub const fn new(inner: B) -> Wiping<B>
        ensures { inner_of result ≡ inner }
    {
        Wiping {
            inner: Below::new(inner),
        }
    }
}

// SAFETY: each block comes from the allocator below and goes back to it with its own size and alignment.
unsafe impl<B: Allocator> Allocator for Wiping<B> {
    ghost dealloc_token = { λ heap ty ptr. B.dealloc_token heap.inner.heap ty ptr };

    fn allocate(&self, size: usize, align: usize) -> Result<*mut u8, AllocError> {
        self.inner.allocate(size, align)
    }

    unsafe fn deallocate(&self, ptr: *mut u8, size: usize, align: usize) {
        wipe(ptr, size);
        self.inner.give_back(ptr, size, align);
    }
}
