//! What a file format implements to be read as cells, and the cells of some bytes, as a store.

ghost use Rattle.std.specs.Prelude.{◌≡◌, ◌≤◌, ◌^◌, ◌+◌, length, IsSome, Some, option_copied, ℕ, List, [], ◌∷◌, drop, IfSome, IfNone};
ghost use Rattle.std.specs.Iterator.{item_count};
ghost use Rattle.krb_walk.specs.Store.{end_of, fault_of, is_place, live_bytes, stop_at, IsPlace, IsSound, Cell};
ghost use Rattle.krb_cells.specs.Cells.{AreCells, GivesCell, IsFrom, cell_of};

use krb_walk::{Fault, FaultKind, Stop};
use std::marker::Model;

/// A cell: its width in bytes and, if it is live, the bytes that a store returns of it.
#[derive(Clone, Copy, Debug)]
pub struct CellView<'a> {
    pub width: usize,
    pub live: Option<&'a [u8]>,
}

/// A format whose cells touch one another in bytes.
pub trait CellFormat: Copy {
    /// The cells of some bytes.
    ghost cells: { Self → List ℕ → List Cell };

    /// Returns the first cell of bytes that are cells, or `None` if no bytes are left.
    fn first<'b>(self, bytes: &'b [u8]) -> Option<CellView<'b>>
        requires { AreCells (cells self) bytes.now }
        ensures some { IfSome result (λ c. cells self bytes.now ≡ cell_of c ∷ cells self (drop c.width bytes.now)) }
        ensures none { IfNone result (cells self bytes.now ≡ []) };
}

/// The cells from a place on, one place per byte, and the kind of the fault after them, if there is one.
#[derive(Drop)]
pub struct Cells<'a, F: CellFormat> {
    front: F,
    place: usize,
    bytes: &'a [u8],
    fault: Option<FaultKind>,
}

impl<'a, F: CellFormat> Model for Cells<'a, F> {
    ghost use Rattle.krb_walk.specs.Store.{Store};
    ghost use Rattle.krb_cells.specs.Cells.{HoldsCells};

    ghost Value = { Store };

    ghost view = { λ c. record {
      first = c.place;
      cells = F.cells c.front c.bytes.now;
      fault = c.fault;
    } };

    ghost invariant = { λ c. HoldsCells (F.cells c.front) c.place c.bytes.now };
}

impl<'a, F: CellFormat> Iterator for Cells<'a, F> {
    type Item = (usize, CellView<'a>);

    ghost next_gives = { GivesCell };

    ghost remaining = { item_count (λ s. s.cells) };

    #[inline(always)]
    fn next(&mut self) -> Option<(usize, CellView<'a>)> {
        let cell = self.front.first(self.bytes)?;
        let at = self.place;
        self.place = at + cell.width;
        self.bytes = self.bytes.split_at(cell.width).1;
        Some((at, cell))
    }
}

impl<'a, F: CellFormat> Cells<'a, F> {
    /// Returns the cells of `bytes`, whose first begins at `place`.
    pub fn of(front: F, place: usize, bytes: &'a [u8], fault: Option<FaultKind>) -> Cells<'a, F>
        requires cells { AreCells (F.cells front) bytes.now }
        requires small { place + length bytes.now ≤ 2 ^ 30 }
        ensures { result ≡ record { first = place; cells = F.cells front bytes.now; fault = fault } }
    {
        Cells {
            front,
            place,
            bytes,
            fault,
        }
    }

    /// Returns the place of the first cell, or the end place if there is none.
    pub fn first(&self) -> u32
        ensures first { result ≡ self.now.first }
        ensures sound { IsSound self.now }
        ensures small { result ≤ 2 ^ 30 }
    {
        self.place as u32
    }

    /// Returns the place after the last cell.
    pub fn end(&self) -> u32
        ensures end { result ≡ end_of self.now }
        ensures small { result ≤ 2 ^ 30 }
    {
        (self.place + self.bytes.len()) as u32
    }

    /// Returns the fault at the end place, if there is one.
    pub fn fault(&self) -> Option<Fault>
        ensures { result ≡ fault_of self.now }
    {
        let kind = self.fault?;
        Some(Fault {
            place: self.end(),
            kind,
        })
    }

    /// Returns whether a cell begins at `place`, or they end there. Scans from the start.
    pub fn is_place(self, place: u32) -> bool
        ensures { result ≡ is_place self.entry place }
    {
        let mut rest = self;
        while rest.first() != place {
            if rest.next().is_none() {
                return false;
            }
        }
        true
    }

    /// Returns the cells from `place` on.
    pub fn from(self, place: u32) -> Cells<'a, F>
        requires { IsPlace self place }
        ensures { IsFrom self.entry place result }
    {
        let place = place as usize;
        Cells {
            front: self.front,
            place,
            bytes: self.bytes.split_at(place - self.place).1,
            fault: self.fault,
        }
    }

    /// Returns the first live cell at or after `place`, or what ends the cells. Scans from `place`.
    pub fn stop_at(self, place: u32) -> Stop
        requires { IsPlace self place }
        ensures { result ≡ stop_at self.entry place }
    {
        let mut rest = self.from(place);
        while let Some((at, cell)) = rest.next() {
            if cell.live.is_some() {
                return Stop::Live {
                    place: at as u32,
                    next: rest.first(),
                };
            }
        }
        match rest.fault() {
            Some(fault) => Stop::Fault(fault),
            None => Stop::End { next: rest.end() },
        }
    }

    /// Returns the bytes of the live cell at `place`, or `None` if no live cell begins there. Scans from the start.
    pub fn find_live(self, place: u32) -> Option<&'a [u8]>
        ensures { option_copied result ≡ live_bytes self.entry place }
    {
        for (at, cell) in self {
            if at == place as usize {
                return cell.live;
            }
        }
        None
    }

    /// Returns the bytes of the live cell at `place`. Reads that cell only.
    pub fn bytes_at(self, place: u32) -> &'a [u8]
        requires { IsSome (live_bytes self place) }
        ensures { live_bytes self.entry place ≡ Some result.now }
    {
        let mut rest = self.from(place);
        if let Some((_, cell)) = rest.next() {
            if let Some(bytes) = cell.live {
                return bytes;
            }
        }
        unreachable!()
    }
}
