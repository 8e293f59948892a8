//! A cache in heaps of each size, first holes, files in memory, holds on the disk, and what README shows.

mod caches;
mod files;
mod holds;
mod keytabs;
mod made;
mod readme;

use krb_walk::Refusal;
use linked_list_allocator::LocalHeap;
use std::alloc::{AllocError, Allocator, Global};
use std::test::Fail;

/// Fails with these words unless something holds.
fn is(holds: bool, what: &str) -> Result<(), Fail> {
    if holds { Ok(()) } else { Err(Fail::from(what)) }
}

/// Returns whether bytes are these pieces, one after the other.
fn are(bytes: &[u8], pieces: &[&[u8]]) -> bool {
    let mut rest = bytes;
    for piece in pieces {
        match rest.strip_prefix(*piece) {
            Some(after) => rest = after,
            None => return false,
        }
    }
    rest.is_empty()
}

/// Returns the pieces, one after the other.
fn joined<A: Allocator>(alloc: A, pieces: &[&[u8]]) -> Result<Vec<u8, A>, AllocError> {
    let mut bytes = Vec::new(alloc);
    for piece in pieces {
        bytes.extend_from_slice(piece)?;
    }
    Ok(bytes)
}

/// The size of the least block of a heap.
const BLOCK: usize = 16;

/// Makes calls in heaps of each size, until one has all the memory that they ask for. What they took they give back.
fn in_each_heap<F: FnMut(&LocalHeap) -> Result<bool, Refusal>>(
    alloc: Global,
    mut calls: F,
) -> Result<(), Fail>
    requires { F.IsAlwaysCallable calls }
{
    for blocks in 0..1_000 {
        let heap = LocalHeap::new(alloc, blocks * BLOCK)?;
        let made = calls(&heap);
        is(heap.used() == 0, "a block was not given back")?;
        match made {
            Ok(is_right) => return is(is_right, "another answer"),
            Err(Refusal::NoMemory) => {}
            Err(Refusal::Code(code)) => return Err(Fail::from(code)),
        }
    }
    Err(Fail::from("no heap is large enough"))
}
