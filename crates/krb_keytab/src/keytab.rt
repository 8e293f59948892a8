//! Keytabs in memory, kept as their images.

mod changes;
mod rewrite;

ghost use Rattle.std.specs.Prelude.{◌≡◌, IsSome, IfOk, IfErr, IfSome, IfNone, Ok, Err, Some, None, ◌<◌, ◌^◌, length, drop, vec_capacity};
ghost use Rattle.krb_wire.specs.Reading.{Gives};
ghost use Rattle.krb_walk.specs.Store.{end_of, fault_of, live_bytes};
ghost use Rattle.krb_keytab.specs.Entry.{entry_at, Spells};
ghost use Rattle.krb_keytab.specs.Cells.{contents, IsSound};
ghost use Rattle.krb_keytab.specs.CellViews.{cells_of};
ghost use Rattle.krb_keytab.specs.Image.{IsKnownEnd};
ghost use Rattle.krb_keytab.specs.Laws.{AreBytes};
ghost use Rattle.krb_keytab.specs.Find.{placed_entries};
ghost use Rattle.krb_keytab.specs.Store.{InMemory, open_result, image_of, store_of, entry_at_place, IsImage, Reopens, empty};

use crate::cells::{CellViews, KnownFormat};
use crate::entries::Entries;
use crate::entry::{EntryView, read_entry};
use crate::image::{CellsEnd, end_of_cells, spelled_of};
use crate::open::{KtOpenRefused, read_head};
use crate::put::bytes_fit;
use krb_cells::{Cells, part};
use krb_walk::Fault;
use krb_wire::{KtFormat, Limits, NoMemory, Order};
use std::alloc::Allocator;
use std::marker::Model;

/// A keytab in memory: the bytes of its image, where its cells end, and how many there are. Contracts see its state
/// (its format, its limit, and the one list of cells that the image spells, with what ends them) and how many bytes
/// it has room for. A call that takes no memory keeps the room.
#[derive(Drop)]
pub struct Keytab<A: Allocator> {
    image: Vec<u8, A>,
    format: KtFormat,
    limit: u32,
    end: CellsEnd,
    count: u32,
}

impl<A: Allocator> Model for Keytab<A> {
    ghost Value = { InMemory };

    ghost view = { λ k. record {
      state = record { format = k.format; limit = k.limit; contents = contents k.format (drop 2 k.image.items) };
      room = vec_capacity k.image;
    } };

    ghost invariant = { λ k. IsImage k.format k.limit k.image.items × IsKnownEnd k.format k.image.items k.end
        × (k.count ≡ length (contents k.format (drop 2 k.image.items)).cells) };
}

impl<A: Allocator> Keytab<A> {
    /// Returns a keytab without entries.
    pub fn create(alloc: A, format: KtFormat, limits: Limits) -> Result<Keytab<A>, NoMemory>
        ensures { IfOk result (λ k. k.state ≡ empty format limits) }
    {
        let limit = limits.image();
        let image = Vec::from_slice(alloc, &[5, format.version()])?;
        let (end, count) = end_of_cells(format, &image);
        Ok(Keytab {
            image,
            format,
            limit,
            end,
            count,
        })
    }

    /// Opens an image as a keytab. Version 1 has the byte order `v1_order`. A damaged image opens too, with the cells
    /// before its fault. Reads each entry once, and takes no memory.
    pub fn open(
        image: Vec<u8, A>,
        v1_order: Order,
        limits: Limits,
    ) -> Result<Keytab<A>, KtOpenRefused<A>>
        ensures ok { IfOk result (λ k. open_result v1_order limits image.items ≡ Ok k.state) }
        // The bytes are kept as they are.
        ensures kept { IfOk result (λ k. image_of k.state ≡ image.items) }
        ensures room { IfOk result (λ k. k.room ≡ vec_capacity image) }
        ensures err { IfErr result (λ e. (open_result v1_order limits image.items ≡ Err e.why)
            × (e.image ≡ image)) }
    {
        match read_head(v1_order, limits.image(), &image) {
            Ok(head) => Ok(Keytab {
                image,
                format: head.format,
                limit: head.limit,
                end: head.end,
                count: head.count,
            }),
            Err(why) => Err(KtOpenRefused { why, image }),
        }
    }

    /// Returns its version, and for version 1 the byte order.
    pub fn format(&self) -> KtFormat
        ensures { result ≡ self.now.state.format }
    {
        self.format
    }

    /// Returns the bytes that spell it.
    pub fn image(&self) -> &[u8]
        ensures spelled { result.now ≡ image_of self.now.state }
        ensures bytes { AreBytes result.now }
        ensures sound { IsSound self.now.state.format self.now.state.contents }
        // They are opened as this keytab again.
        ensures reopens { Reopens self.now.state result.now }
    {
        bytes_fit(&self.image);
        spelled_of(self.format, &self.image)
    }

    /// Returns the bytes that spell it, without copying them.
    pub fn into_image(self) -> Vec<u8, A>
        ensures spelled { result.items ≡ image_of self.state }
        ensures reopens { Reopens self.state result.items }
        ensures room { vec_capacity result ≡ self.room }
    {
        let _ = spelled_of(self.format, &self.image);
        let Keytab {
            image,
            format: _,
            limit: _,
            end: _,
            count: _,
        } = self;
        image
    }

    // Returns its cells, as a store.
    pub(crate) fn store(&self) -> Cells<'_, KnownFormat>
        ensures { result ≡ store_of self.now.state }
    {
        let image: &[u8] = &self.image;
        bytes_fit(image);
        let cells = part(image, 2, self.end.place);
        let front = KnownFormat {
            format: self.format,
        };
        Cells::of(front, 2, cells, self.end.ending.kind())
    }

    /// Returns the place after the last sound cell.
    pub fn end(&self) -> u32
        ensures { result ≡ end_of (store_of self.now.state) }
    {
        self.store().end()
    }

    /// Returns the fault after the last sound cell, or `None` if there is none.
    pub fn fault(&self) -> Option<Fault>
        ensures { result ≡ fault_of (store_of self.now.state) }
    {
        self.store().fault()
    }

    /// Returns the number of cells.
    pub fn cell_count(&self) -> u32
        ensures count { result ≡ length self.now.state.contents.cells }
        ensures few { result < 2 ^ 30 }
    {
        self.count
    }

    // Like `cells`, for a format that is known where this is inlined.
    #[tactic(auto, using(std::proofs::lemmas::Bool::Decides::nat_tests))]
    #[inline(always)]
    pub(crate) fn cells_in(&self, format: KtFormat) -> CellViews<'_>
        requires { format ≡ self.now.state.format }
        ensures { result ≡ cells_of self.now.state }
    {
        CellViews {
            format,
            image: &self.image,
            end: self.end,
            place: 2,
        }
    }

    /// Returns an iterator over the cells with their places, in file order, up to the end or the fault.
    pub fn cells(&self) -> CellViews<'_>
        ensures { result ≡ cells_of self.now.state }
    {
        self.cells_in(self.format())
    }

    /// Returns the bytes of the record at `place`, after its length: an entry, and what is after it.
    #[tactic(auto, using(crate::proofs::Stores::entry_held))]
    pub fn bytes_at(&self, place: u32) -> &[u8]
        requires { IsSome (live_bytes (store_of self.now.state) place) }
        ensures bytes { live_bytes (store_of self.now.state) place ≡ Some result.now }
        ensures entry { IsSome (entry_at self.now.state.format result.now) }
    {
        let _ = self.image();
        self.store().bytes_at(place)
    }

    /// Returns an iterator over the entries with their records' places, in file order, up to the end or the fault.
    #[tactic(auto, using(crate::proofs::EntryLists::entries_of_cells))]
    pub fn entries(&self) -> Entries<'_>
        ensures { result ≡ placed_entries self.now.state }
    {
        Entries {
            cells: self.cells(),
        }
    }

    /// Returns the entry of the record at `place`, or `None` if no live cell starts there. Scans from the start; to
    /// iterate over all records, use `stop_at` and `bytes_at`.
    #[tactic(auto, using(crate::proofs::Stores::entry_held, crate::proofs::Stores::none_there))]
    pub fn entry_at(&self, place: u32) -> Option<EntryView<'_>>
        ensures none { IfNone result (live_bytes (store_of self.now.state) place ≡ None) }
        ensures found { IfSome result (λ e. IfSome (live_bytes (store_of self.now.state) place)
            (λ b. Spells self.now.state.format e b)) }
        ensures exact { Gives (λ e. e) result (entry_at_place self.now.state place) }
    {
        let _ = self.image();
        let bytes = self.store().find_live(place)?;
        read_entry(self.format(), bytes)
    }
}
