//! Where the cells of an image end, and what ends them.

ghost use Rattle.std.specs.Prelude.{◌≡◌, ◌<◌, ◌≤◌, ◌^◌, length, drop, is_some, slice_index, Err};
ghost use Rattle.krb_wire.specs.Spelling.{version_byte};
ghost use Rattle.krb_keytab.specs.Entry.{entry_at};
ghost use Rattle.krb_keytab.specs.Cells.{contents, image as image_of, next, IsSpelled};
ghost use Rattle.krb_keytab.specs.Image.{as_next, ending_kind, EndsWithin, GivesPlace, IsKnownEnd};

use crate::entry::entry_from;
use crate::length::Length;
use krb_walk::FaultKind;
use krb_wire::{KtFormat, split_u32, tail};

/// What ends the cells of an image: nothing, a length 0, or a fault.
#[derive(Clone, Copy)]
pub enum Ending {
    Bare,
    Mark,
    Damaged(FaultKind),
}

impl Ending {
    /// Returns the kind of the fault, or `None` if there is no fault.
    pub fn kind(self) -> Option<FaultKind>
        ensures { result ≡ ending_kind self }
    {
        match self {
            Ending::Damaged(kind) => Some(kind),
            _ => None,
        }
    }
}

// Reports a fault that ends the cells.
fn damaged(kind: FaultKind) -> Result<Length, Ending>
    ensures { result ≡ Err (Ending.Damaged kind) }
{
    Err(Ending::Damaged(kind))
}

fn is_entry(format: KtFormat, bytes: &[u8]) -> bool
    ensures { result ≡ is_some (entry_at format bytes.now) }
{
    entry_from(format, bytes).is_some()
}

// Returns the length of the cell at the front of the bytes, or what ends the cells. Reads a record's entry too.
#[inline(always)]
#[tactic(auto, unfolding(crate::specs::Cells::next))]
fn next_length(format: KtFormat, bytes: &[u8]) -> Result<Length, Ending>
    requires { length bytes.now < 2 ^ 32 }
    ensures value { next format bytes.now ≡ as_next bytes.now result }
    ensures within { EndsWithin bytes.now result }
{
    let Some((field, rest)) = split_u32(format.order(), bytes) else {
        if bytes.is_empty() {
            return Err(Ending::Bare);
        }
        return damaged(FaultKind::CutLength);
    };
    let length = Length::of_field(field);
    match length {
        Length::End => Err(Ending::Mark),
        Length::Live(size) => {
            if rest.len() < size as usize {
                return damaged(FaultKind::Overrun);
            }
            if is_entry(format, rest.split_at(size as usize).0) {
                return Ok(length);
            }
            damaged(FaultKind::BadEntry)
        }
        Length::Free(size) => {
            if rest.len() < size as usize {
                return damaged(FaultKind::Overrun);
            }
            Ok(length)
        }
    }
}

/// Where the cells of an image end, and what ends them.
#[derive(Clone, Copy)]
pub struct CellsEnd {
    pub place: usize,
    pub ending: Ending,
}

// Returns the place after the cell at `at`, or what ends the cells there. Reads a record's entry too.
#[inline(always)]
fn next_place(format: KtFormat, image: &[u8], at: usize) -> Result<usize, Ending>
    requires within { at ≤ length image.now }
    requires small { length image.now ≤ 2 ^ 30 }
    ensures { GivesPlace format image.now at result }
{
    match next_length(format, tail(image, at)) {
        Ok(length) => Ok(at + (4 + length.size() as usize)),
        Err(ending) => Err(ending),
    }
}

// Like `end_of_cells`. The format is known where this is inlined, so that the loop does not check it.
#[inline(always)]
fn end_of_cells_in(format: KtFormat, image: &[u8]) -> (CellsEnd, u32)
    requires long { 2 ≤ length image.now }
    requires small { length image.now ≤ 2 ^ 30 }
    ensures known { IsKnownEnd format image.now result.0 }
    ensures count { result.1 ≡ length (contents format (drop 2 image.now)).cells }
{
    let mut at: usize = 2;
    let mut count: u32 = 0;
    'cells: loop {
        match next_place(format, image, at) {
            Ok(next) => at = next,
            Err(ending) => return (CellsEnd { place: at, ending }, count),
        }
        count += 1;
    }
}

/// Returns where the cells end, and how many there are. Reads each entry once.
pub fn end_of_cells(format: KtFormat, image: &[u8]) -> (CellsEnd, u32)
    requires long { 2 ≤ length image.now }
    requires small { length image.now ≤ 2 ^ 30 }
    ensures known { IsKnownEnd format image.now result.0 }
    ensures count { result.1 ≡ length (contents format (drop 2 image.now)).cells }
{
    match format {
        KtFormat::V2 => end_of_cells_in(KtFormat::V2, image),
        KtFormat::V1(order) => end_of_cells_in(KtFormat::V1(order), image),
    }
}

/// Returns the image, as the bytes that its contents spell.
pub fn spelled_of(format: KtFormat, image: &[u8]) -> &[u8]
    requires long { 2 ≤ length image.now }
    requires first { slice_index image.now 0 ≡ 5 }
    requires second { slice_index image.now 1 ≡ version_byte format }
    ensures same { result.now ≡ image.now }
    ensures spelled { result.now ≡ image_of format (contents format (drop 2 image.now)) }
    ensures sound { IsSpelled format (drop 2 image.now) (contents format (drop 2 image.now)) }
{
    image
}
