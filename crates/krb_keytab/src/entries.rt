//! The entries of a keytab, in order.

ghost use Rattle.std.specs.Prelude.{◌≡◌, ◌∷◌, [], List, MatchOption};
ghost use Rattle.std.specs.Iterator.{YieldsFirst, item_count};
ghost use Rattle.krb_keytab.specs.Entries.{entries_in};
ghost use Rattle.krb_keytab.specs.Find.{PlacedEntry};

use crate::cells::{CellViews, KtCell};
use crate::entry::{EntryView, read_entry};
use krb_wire::KtFormat;
use std::marker::Model;

/// An iterator over the entries, each with the place of its record, in file order, up to the end or the fault.
#[derive(Drop)]
pub struct Entries<'a> {
    pub(crate) cells: CellViews<'a>,
}

impl<'a> Model for Entries<'a> {
    ghost Value = { List PlacedEntry };

    ghost view = { λ e. entries_in e.cells.format e.cells.place e.cells.contents.cells };
}

impl<'a> CellViews<'a> {
    // Returns the next entry with the place of its record, or `None` after the last.
    #[inline(always)]
    fn next_entry(&mut self, format: KtFormat) -> Option<(u32, EntryView<'a>)>
        requires { format ≡ self.old.format }
        ensures { MatchOption result
            ((entries_in self.old.format self.old.place self.old.contents.cells ≡ [])
            × (entries_in self.new.format self.new.place self.new.contents.cells ≡ []))
            (λ x. entries_in self.old.format self.old.place self.old.contents.cells
            ≡ x ∷ entries_in self.new.format self.new.place self.new.contents.cells) }
    {
        while let Some((at, cell)) = self.next_in(format) {
            if let KtCell::Live(bytes) = cell {
                if let Some(entry) = read_entry(format, bytes) {
                    return Some((at as u32, entry));
                }
            }
        }
        None
    }
}

impl<'a> Iterator for Entries<'a> {
    type Item = (u32, EntryView<'a>);

    ghost next_gives = { YieldsFirst (λ s. s) };

    ghost remaining = { item_count (λ s. s) };

    #[inline(always)]
    fn next(&mut self) -> Option<(u32, EntryView<'a>)> {
        match self.cells.format {
            KtFormat::V2 => self.cells.next_entry(KtFormat::V2),
            KtFormat::V1(order) => self.cells.next_entry(KtFormat::V1(order)),
        }
    }
}
