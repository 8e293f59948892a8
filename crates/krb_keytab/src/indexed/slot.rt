//! A slot: what a table holds of one cell.

ghost use Rattle.std.specs.Prelude.{◌≡◌, ◌<◌, ◌^◌};
ghost use Rattle.krb_keytab.specs.Slot.{free_size, is_free, size, slot_of, negated};
ghost use Rattle.krb_keytab.specs.Cells.{length_of_cell, length_of, HasField};
ghost use Rattle.krb_keytab.specs.CellViews.{cell_of};

use crate::cells::KtCell;
use crate::length::Length;

/// The place of a cell, and its length field.
#[derive(Clone, Copy, Debug, PartialEq, Eq)]
pub struct Slot {
    pub place: u32,
    pub field: u32,
}

impl Slot {
    /// Returns the slot of a cell at `place`.
    pub fn of(place: usize, cell: KtCell<'_>) -> Slot
        requires place { place < 2 ^ 32 }
        requires cell { HasField (length_of_cell (cell_of cell)) }
        ensures { result ≡ slot_of (place, cell_of cell.entry) }
    {
        let length = match cell {
            KtCell::Live(bytes) => Length::Live(bytes.len() as u32),
            KtCell::Free(bytes) => Length::Free(bytes.len() as u32),
        };
        Slot {
            place: place as u32,
            field: length.field(),
        }
    }

    // Returns the length of its cell.
    fn length(self) -> Length
        ensures { result ≡ length_of self.field }
    {
        Length::of_field(self.field)
    }

    /// True if its cell is free.
    pub fn is_free(self) -> bool
        ensures { result ≡ is_free self }
    {
        match self.length() {
            Length::Free(_) => true,
            _ => false,
        }
    }

    /// Returns how many bytes its cell has after its length.
    pub fn size(self) -> u32
        ensures { result ≡ size self }
    {
        self.length().size()
    }

    /// Returns how many bytes an entry may take in its cell: 0 if the cell is live.
    pub fn free_size(self) -> u32
        ensures { result ≡ free_size self }
    {
        match self.length() {
            Length::Free(size) => size,
            _ => 0,
        }
    }

    /// Returns the slot with its cell live if it was free, and free if it was live.
    pub fn negated(self) -> Slot
        requires { 0 < self.field }
        ensures { result ≡ negated self }
    {
        Slot {
            place: self.place,
            field: Length::negated(self.field),
        }
    }
}
