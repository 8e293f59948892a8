//! An allocator that clears each block before it frees the block.
#![tactic(auto)]

mod allocator;
mod below;
mod zeros;

pub use allocator::Wiping;
