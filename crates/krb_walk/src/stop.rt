//! Where a walk stops.

use crate::fault::Fault;

/// What is at or after a place: a live cell and the place after it, or else the end of the cells, or the fault there.
#[derive(Clone, Copy, Debug, PartialEq, Eq)]
pub enum Stop {
    Live { place: u32, next: u32 },
    End { next: u32 },
    Fault(Fault),
}
