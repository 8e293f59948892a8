//! The cells of an image, in order.

ghost use Rattle.std.specs.Prelude.{◌≡◌, ◌≤◌, ◌^◌, ◌+◌, [], IfSome, IfNone, option_copied};
ghost use Rattle.std.specs.Iterator.{item_count};
ghost use Rattle.krb_keytab.specs.Cells.{bytes_of, cell_in, contents, size};
ghost use Rattle.krb_keytab.specs.CellViews.{cell_of, GivesCell, IsCellOrNothing, IsFirst};
ghost use Rattle.krb_keytab.specs.Changes.{hole_from};
ghost use Rattle.krb_keytab.specs.Store.{live_of};

use crate::image::CellsEnd;
use crate::length::Length;
use crate::put::bytes_fit;
use krb_cells::{CellFormat, CellView};
use krb_wire::{KtFormat, split_u32, tail};
use std::marker::Model;

/// A cell: the bytes of a record or of a hole, without the length before them.
#[derive(Clone, Copy, Debug)]
pub enum KtCell<'a> {
    Live(&'a [u8]),
    Free(&'a [u8]),
}

/// An iterator over the cells from a place on, whose end is known. It reads the lengths alone, and no entry again.
#[derive(Drop)]
pub struct CellViews<'a> {
    pub(crate) format: KtFormat,
    pub(crate) image: &'a [u8],
    pub(crate) end: CellsEnd,
    pub(crate) place: usize,
}

impl<'a> KtCell<'a> {
    // Returns the cell with this length and these bytes. No cell has the length `End`: it is treated as a record here,
    // so that no pass checks for it.
    #[inline(always)]
    fn of(length: Length, bytes: &'a [u8]) -> KtCell<'a>
        ensures { cell_of result ≡ cell_in length bytes.now }
    {
        match length {
            Length::Free(_) => KtCell::Free(bytes),
            _ => KtCell::Live(bytes),
        }
    }

    // Returns its bytes, without the length.
    #[inline(always)]
    fn bytes(self) -> &'a [u8]
        ensures { result.now ≡ bytes_of (cell_of self.entry) }
    {
        match self {
            KtCell::Live(bytes) => bytes,
            KtCell::Free(bytes) => bytes,
        }
    }

    /// Returns its width, which includes its length field.
    #[inline(always)]
    pub(crate) fn width(self) -> usize
        ensures { result ≡ 4 + size (cell_of self.entry) }
    {
        4 + self.bytes().len()
    }

    /// Returns the bytes of a record, or `None` for a hole.
    #[inline(always)]
    pub(crate) fn live(self) -> Option<&'a [u8]>
        ensures { option_copied result ≡ live_of (cell_of self.entry) }
    {
        match self {
            KtCell::Live(bytes) => Some(bytes),
            KtCell::Free(_) => None,
        }
    }
}

/// Returns the cell at the front of bytes whose entries were read before, by its length alone.
#[tactic(auto, using(crate::proofs::FirstLemmas::first_read, crate::proofs::FirstLemmas::none_read))]
#[inline(always)]
pub fn first_cell(format: KtFormat, bytes: &[u8]) -> Option<KtCell<'_>>
    requires { IsCellOrNothing format bytes.now }
    ensures some { IfSome result (λ c. IsFirst format bytes.now (cell_of c)) }
    ensures none { IfNone result ((contents format bytes.now).cells ≡ []) }
{
    bytes_fit(bytes);
    let (field, rest) = split_u32(format.order(), bytes)?;
    let length = Length::of_field(field);
    Some(KtCell::of(length, rest.split_at(length.size() as usize).0))
}

impl<'a> Model for CellViews<'a> {
    ghost use Rattle.std.specs.Prelude.{drop};
    ghost use Rattle.krb_keytab.specs.Cells.{contents};
    ghost use Rattle.krb_keytab.specs.CellViews.{CellsFrom, AreKnown};

    ghost Value = { CellsFrom };

    ghost view = { λ c. record {
      format = c.format;
      place = c.place;
      contents = contents c.format (drop c.place c.image.now);
    } };

    ghost invariant = { λ c. AreKnown c.format c.image.now c.place c.end };
}

impl<'a> Iterator for CellViews<'a> {
    type Item = (usize, KtCell<'a>);

    ghost next_gives = { GivesCell };

    ghost remaining = { item_count (λ c. c.contents.cells) };

    #[inline(always)]
    fn next(&mut self) -> Option<(usize, KtCell<'a>)> {
        self.next_in(self.format)
    }
}

impl<'a> CellViews<'a> {
    /// Like `next`, for a format that is known where this is inlined.
    #[inline(always)]
    pub(crate) fn next_in(&mut self, format: KtFormat) -> Option<(usize, KtCell<'a>)>
        requires { format ≡ self.old.format }
        ensures { GivesCell self.old result self.new }
    {
        bytes_fit(self.image);
        let at = self.place;
        if at == self.end.place {
            return None;
        }
        let cell = first_cell(format, tail(self.image, at))?;
        self.place = at + cell.width();
        Some((at, cell))
    }
}

/// A free cell: its place, and how many bytes it has after its length.
#[derive(Clone, Copy, Debug, PartialEq, Eq)]
pub struct Hole {
    pub place: usize,
    pub size: usize,
}

/// Returns the first hole of at least `need` bytes, or `None`.
pub fn first_hole(cells: CellViews<'_>, need: usize) -> Option<Hole>
    ensures first { result ≡ hole_from cells.entry.place need cells.entry.contents.cells }
    ensures small { IfSome result (λ h. h.place + 4 + h.size ≤ 2 ^ 30) }
{
    for (place, cell) in cells {
        if let KtCell::Free(bytes) = cell {
            let size = bytes.len();
            if need <= size {
                return Some(Hole { place, size });
            }
        }
    }
    None
}

/// The format of an image whose entries were read before, for `Cells`: it finds each cell by its length alone.
#[derive(Clone, Copy)]
pub struct KnownFormat {
    pub format: KtFormat,
}

impl CellFormat for KnownFormat {
    ghost use Rattle.krb_keytab.specs.Store.{store_cells};

    ghost cells = { λ s. store_cells s.format };

    #[inline(always)]
    fn first<'b>(self, bytes: &'b [u8]) -> Option<CellView<'b>> {
        let cell = first_cell(self.format, bytes)?;
        Some(CellView {
            width: cell.width(),
            live: cell.live(),
        })
    }
}
