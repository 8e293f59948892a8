//! Where the cursors of a store go when it is rewritten.
//!
//! The old image is no longer needed then. So the first four bytes of each old cell are overwritten with the place that
//! the cell goes to, and each cursor is looked up there: one pass over the cells, one read per cursor, no memory.

ghost use Rattle.std.specs.Prelude.{◌≡◌, ◌≤◌, ◌<◌, ◌-◌, ◌+◌, [], length, take, drop, map, IfSome, IfNone};
ghost use Rattle.std.specs.Int.{w32};
ghost use Rattle.std.specs.List.{AllByRecursion, splice};
ghost use Rattle.krb_wire.specs.declared.format.Order.TheVariants.{Big};
ghost use Rattle.krb_wire.specs.Spelling.{digits};
ghost use Rattle.krb_walk.specs.Store.{IsPlace, end_from};
ghost use Rattle.krb_walk.specs.Ranks.{carry as carry_of, Rewrites};
ghost use Rattle.krb_cells.specs.Cells.{AreCells};
ghost use Rattle.krb_cells.specs.Carry.{between, store_in, new_place, Passes, AreGiven, given_at};

use crate::cells::{CellFormat, Cells};
use krb_wire::{Order, Pen, split_u32, tail};

/// Returns the bytes from `first` up to `end`.
pub fn part(bytes: &[u8], first: usize, end: usize) -> &[u8]
    requires ahead { first ≤ end }
    requires within { end ≤ length bytes.now }
    ensures { result.now ≡ between first end bytes.now }
{
    &bytes[first..end]
}

// Passes the first cell of some bytes, and the new one that is written for it, if it is live. Returns the old width.
fn pass<F: CellFormat, G: CellFormat>(
    front: F,
    bytes: &[u8],
    new: &mut Cells<'_, G>,
) -> Option<usize>
    requires { AreCells (F.cells front) bytes.now }
    ensures some { IfSome result (λ w. Passes (F.cells front) bytes.now new.old w new.new) }
    ensures none { IfNone result (F.cells front bytes.now ≡ []) }
    ensures same { IfNone result (new.new ≡ new.old) }
{
    let cell = front.first(bytes)?;
    if cell.live.is_some() {
        let _ = new.next();
    }
    Some(cell.width)
}

// Writes where the cell at `at` goes into its first four bytes.
fn give_place(to: u32, image: &mut [u8], at: usize)
    requires { at + 4 ≤ length image.old }
    ensures { image.new ≡ splice image.old at (at + 4) (digits Big w32 to) }
{
    Pen::new(image, at).put_u32(Order::Big, to);
}

// Writes into each cell from `first` up to `end` the place that it goes to. Returns the place that `end` goes to.
fn give_places<F: CellFormat, G: CellFormat>(
    front: F,
    image: &mut [u8],
    first: usize,
    end: usize,
    new: Cells<'_, G>,
) -> u32
    requires ahead { first ≤ end }
    requires within { end ≤ length image.old }
    requires cells { AreCells (F.cells front) (between first end image.old) }
    ensures given { AreGiven image.new first (F.cells front (between first end image.old)) new.entry.first new.entry.cells }
    ensures end { end ≡ end_from first (F.cells front (between first end image.old)) }
    ensures last { result ≡ new_place first (F.cells front (between first end image.old)) new.entry.first new.entry.cells end }
{
    let mut new = new;
    let mut at = first;
    let mut to = new.first();
    'cells: while let Some(width) = pass(front, part(image, at, end), &mut new) {
        give_place(to, image, at);
        at += width;
        to = new.first();
    }
    to
}

// Returns where a place goes: the place written in its cell, or `last` if it is the end.
fn place_given(image: &[u8], end: usize, last: u32, place: u32) -> u32
    requires { end ≤ length image.now }
    ensures { result ≡ given_at image.now end last place }
{
    if place as usize >= end {
        return last;
    }
    match split_u32(Order::Big, tail(image, place as usize)) {
        Some((given, _)) => given,
        None => last,
    }
}

// Carries cursors to the places written in their cells.
fn carry_all(image: &[u8], end: usize, last: u32, cursors: &mut [u32])
    requires { end ≤ length image.now }
    ensures { cursors.new ≡ map (given_at image.now end last) cursors.old }
{
    for cursor in cursors.iter_mut() {
        *cursor = place_given(image, end, last, *cursor);
    }
}

/// Carries cursors from the places of the store in `image` to those of `new`, the store that it is rewritten as.
/// Overwrites the old image, and takes no memory.
pub fn carry_to<F: CellFormat, G: CellFormat>(
    front: F,
    image: &mut [u8],
    first: usize,
    end: usize,
    new: Cells<'_, G>,
    cursors: &mut [u32],
)
    requires ahead { first ≤ end }
    requires within { end ≤ length image.old }
    requires cells { AreCells (F.cells front) (take (end - first) (drop first image.old)) }
    requires rewrites { Rewrites (store_in (F.cells front) image.old first end) new }
    requires places { AllByRecursion (IsPlace (store_in (F.cells front) image.old first end)) cursors.old }
    ensures { cursors.new ≡ map (carry_of (store_in (F.cells front) image.old first end) new.entry) cursors.old }
{
    let _ = new.end();
    let last = give_places(front, image, first, end, new);
    carry_all(image, end, last, cursors);
}
