//! The events of a session, and its replies.

use crate::fault::Fault;
use crate::refusal::Code;
use std::alloc::Allocator;

/// An event of a session, over a store that takes items of type `I`.
#[derive(Drop)]
pub enum Event<I> {
    /// Starts a new walk at the first place.
    Start,
    /// Starts a new walk at this place.
    Resume(u32),
    /// Gives this walk its next record.
    Step(u32),
    /// Adds a record.
    Put(I),
    /// Removes the record at this place.
    Cut(u32),
    /// Rewrites the store and carries each cursor.
    Rewrite,
}

/// The reply to an event. Walks are numbered from 0 in order of creation; `next` is the walk's cursor after the event.
#[derive(Debug, PartialEq, Eq, Drop)]
pub enum Reply<A: Allocator> {
    Started {
        walk: u32,
        next: u32,
    },
    /// The bytes of the record at `place`.
    Gave {
        walk: u32,
        place: u32,
        next: u32,
        bytes: Vec<u8, A>,
    },
    /// No record is left.
    Ended {
        walk: u32,
        next: u32,
    },
    /// No record is left, and the store has a fault.
    Faulted {
        walk: u32,
        fault: Fault,
    },
    /// The place of the record that was added.
    Placed(u32),
    /// The place of the record that was removed.
    Gone(u32),
    /// The new end place, after a rewrite.
    Rewritten(u32),
    Refused(Code),
}
