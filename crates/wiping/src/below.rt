//! The allocator below: blocks come from it, and only cleared ones go back.
ghost use Rattle.std.specs.Prelude.{◌≡◌};
ghost use Rattle.std.specs.Allocator.{HasLayout, block_if_ok};
ghost use Rattle.wiping.specs.Zeros.{cleared_block};
ghost use mir.Syntax.{Ty};
ghost use types.Logic.{sem};

use std::alloc::{AllocError, Allocator};

/// An allocator that only these calls reach.
#[derive(Clone, Copy)]
pub struct Below<B: Allocator> {
    heap: B,
}

impl<B: Allocator> Below<B> {
    /// Returns `heap` in this wrapper.
    pub const fn new(heap: B) -> Below<B>
        ensures { result.heap ≡ heap }
    {
        Below { heap }
    }

    /// Allocates a block.
    pub fn allocate(&self, size: usize, align: usize) -> Result<*mut u8, AllocError>
        ghost ty: { Ty }
        requires layout { HasLayout ty size align }
        ensures* { sem 𝓛 (block_if_ok (B.dealloc_token self.now.heap) ty result) }
    {
        self.heap.allocate(size, align)
    }

    /// Gives the block at `ptr`, whose bytes are all 0, back to the allocator.
    pub unsafe fn give_back(&self, ptr: *mut u8, size: usize, align: usize)
        ghost ty: { Ty }
        requires layout { HasLayout ty size align }
        requires* block { sem 𝓛 (cleared_block (B.dealloc_token self.now.heap) ty size ptr) }
    {
        self.heap.deallocate(ptr, size, align);
    }
}
