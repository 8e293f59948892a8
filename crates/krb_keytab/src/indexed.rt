//! Keytabs with a table of their cells.

mod changes;
mod index;
mod nodes;
mod placed;
mod rewrite;
mod slot;
mod table;
mod tree;

ghost use Rattle.std.specs.Prelude.{◌≡◌, IfOk, IfErr, IfSome, IfNone, ℕ, None, ◌<◌, ◌≤◌, ◌^◌, length, take, vec_capacity};
ghost use Rattle.krb_wire.specs.Reading.{Gives};
ghost use Rattle.krb_walk.specs.Store.{live_bytes};
ghost use Rattle.krb_keytab.specs.Entry.{Spells};
ghost use Rattle.krb_keytab.specs.Cells.{IsSound};
ghost use Rattle.krb_keytab.specs.Store.{image_of, store_of, end_place, entry_at_place, Reopens};
ghost use Rattle.krb_keytab.specs.Index.{fit_of, slot_at, IsFit, IsLiveNumber};
ghost use Rattle.krb_keytab.specs.Slot.{places, slots_from, IsRank};
ghost use Rattle.krb_keytab.specs.Tree.{looks_for, IsHeightFor};

use crate::entry::{EntryView, read_entry};
use crate::indexed::slot::Slot;
use crate::indexed::table::{rank, table_of};
use crate::indexed::tree::Tree;
use crate::keytab::Keytab;
use krb_wire::NoMemory;
use std::alloc::Allocator;
use std::marker::Model;
use std::ops::Deref;

/// A keytab with a table of its cells and a tree over its holes. Contracts see the keytab.
#[derive(Drop)]
pub struct Indexed<A: Allocator> {
    keytab: Keytab<A>,
    slots: Vec<Slot, A>,
    tree: Tree<A>,
}

impl<A: Allocator> Model for Indexed<A> {
    ghost use Rattle.std.specs.Prelude.{vec_len, vec_capacity};
    ghost use Rattle.krb_keytab.specs.Store.{InMemory};
    ghost use Rattle.krb_keytab.specs.Index.{IsIndex, HasSpare};

    ghost Value = { InMemory };

    ghost view = { λ i. i.keytab };

    ghost invariant = { λ i. IsIndex i.keytab.state i.slots.items i.tree
        × HasSpare i.keytab.state (vec_len i.slots) (vec_capacity i.slots) i.tree };
}

// The calls that read a keytab read this one too.
impl<A: Allocator> Deref for Indexed<A> {
    type Target = Keytab<A>;

    ghost deref_gives = { λ i k. k ≡ i };

    fn deref(&self) -> &Keytab<A> {
        &self.keytab
    }
}

impl<A: Allocator> Indexed<A> {
    /// Returns the keytab with its table and its tree, which have room for one more cell. If out of memory, hands the
    /// keytab back.
    pub fn of(alloc: A, keytab: Keytab<A>) -> Result<Indexed<A>, (NoMemory, Keytab<A>)>
    where
        A: Copy,
        ensures ok { IfOk result (λ i. i ≡ keytab) }
        ensures err { IfErr result (λ e. e.1 ≡ keytab) }
    {
        let Ok(slots) = table_of(alloc, &keytab) else {
            return Err((NoMemory, keytab));
        };
        let Ok(tree) = Tree::of(alloc, &slots) else {
            return Err((NoMemory, keytab));
        };
        Ok(Indexed {
            keytab,
            slots,
            tree,
        })
    }

    /// Returns the keytab, without the table and the tree.
    pub fn into_keytab(self) -> Keytab<A>
        ensures { result ≡ self }
    {
        let Indexed {
            keytab,
            slots: _,
            tree: _,
        } = self;
        keytab
    }

    /// Returns the bytes that spell it, without copying them.
    pub fn into_image(self) -> Vec<u8, A>
        ensures spelled { result.items ≡ image_of self.state }
        ensures reopens { Reopens self.state result.items }
        ensures room { vec_capacity result ≡ self.room }
    {
        self.into_keytab().into_image()
    }

    // Returns the number of cells. They are sound.
    fn count(&self) -> usize
        ensures count { result ≡ length self.now.state.contents.cells }
        ensures few { result < 2 ^ 30 }
        ensures sound { IsSound self.now.state.format self.now.state.contents }
    {
        let _ = self.image();
        self.cell_count() as usize
    }

    // Returns the slot of the cell with this number.
    fn slot(&self, number: usize) -> Slot
        requires { number < length self.now.state.contents.cells }
        ensures { result ≡ slot_at self.now.state number }
    {
        self.slots[number]
    }

    // Returns the place after this many cells.
    #[tactic(auto, using(crate::proofs::IndexLemmas::slot_place, crate::proofs::IndexLemmas::end_by_table, crate::proofs::Stores::state_is))]
    fn place_of(&self, rank: usize) -> u32
        requires { rank ≤ length self.now.state.contents.cells }
        ensures { result ≡ end_place 2 (take rank self.now.state.contents.cells) }
    {
        if rank < self.count() {
            return self.slot(rank).place;
        }
        self.end()
    }

    // Returns how many cells start before `place`.
    #[tactic(auto, using(crate::proofs::PlaceLemmas::places_rise))]
    fn rank(&self, place: u32) -> usize
        ensures { IsRank (places (slots_from 2 self.now.state.contents.cells)) place result }
    {
        rank(&self.slots, place)
    }

    // Returns the number of the first cell that is a hole of at least `need` bytes, and how many nodes were read.
    #[tactic(auto, using(crate::proofs::Stores::state_is, crate::proofs::IndexLemmas::fit_is, crate::proofs::IndexLemmas::looks_are))]
    fn fit(&self, need: usize) -> (Option<usize>, u32)
        requires { 0 < need }
        ensures fit { IsFit self.now.state need result.0 }
        ensures looks { (height : ℕ) → IsHeightFor (length self.now.state.contents.cells) height
            → result.1 ≡ looks_for height result.0 }
    {
        let _sound = self.count();
        self.tree.first_fit(need)
    }

    /// Returns the place of the first hole of at least `need` bytes, and how many nodes of the tree were read to find
    /// it. A `need` of 0 counts as 1.
    pub fn first_fit(&self, need: u32) -> (Option<u32>, u32)
        ensures first { result.0 ≡ fit_of self.now.state need }
        ensures looks { (height : ℕ) → IsHeightFor (length self.now.state.contents.cells) height
            → result.1 ≡ looks_for height result.0 }
    {
        let (number, looks) = self.fit(need.max(1) as usize);
        match number {
            Some(number) => (Some(self.slot(number).place), looks),
            None => (None, looks),
        }
    }

    // Returns the number of the live cell at `place`, or `None`.
    fn live_number(&self, place: u32) -> Option<usize>
        ensures none { IfNone result (live_bytes (store_of self.now.state) place ≡ None) }
        ensures some { IfSome result (λ number. IsLiveNumber self.now.state place number) }
    {
        let number = self.rank(place);
        if number >= self.count() {
            return None;
        }
        let slot = self.slot(number);
        if slot.place != place {
            return None;
        }
        if slot.is_free() {
            return None;
        }
        Some(number)
    }

    /// Returns the entry of the record at `place`, or `None` if no live cell starts there.
    pub fn entry_at(&self, place: u32) -> Option<EntryView<'_>>
        ensures none { IfNone result (live_bytes (store_of self.now.state) place ≡ None) }
        ensures found { IfSome result (λ e. IfSome (live_bytes (store_of self.now.state) place)
            (λ b. Spells self.now.state.format e b)) }
        ensures exact { Gives (λ e. e) result (entry_at_place self.now.state place) }
    {
        let _ = self.live_number(place)?;
        read_entry(self.format(), self.bytes_at(place))
    }
}
