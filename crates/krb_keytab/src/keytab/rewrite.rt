//! Rewriting a keytab in version 2.

ghost use Rattle.std.specs.Prelude.{◌≡◌, ◌≤◌, ◌<◌, ◌^◌, ◌+◌, length, drop, map, Ok, Err, IfSome, IfNone, IfOk, IfErr, OnOk, OnErr, vec_len};
ghost use Rattle.std.specs.List.{flat_map, AllByRecursion};
ghost use Rattle.krb_wire.specs.Text.{HasRoom, Puts};
ghost use Rattle.krb_wire.specs.declared.format.Order.TheVariants.{Big};
ghost use Rattle.krb_wire.specs.declared.format.KtFormat.TheVariants.{V2};
ghost use Rattle.krb_walk.specs.Rules.{RewriteGives};
ghost use Rattle.krb_walk.specs.Store.{IsPlace};
ghost use Rattle.krb_walk.specs.Ranks.{carry, Rewrites};
ghost use Rattle.krb_keytab.specs.Cells.{cell, contents, IsSound};
ghost use Rattle.krb_keytab.specs.Store.{entries, image_of, store_of};
ghost use Rattle.krb_keytab.specs.Image.{IsKnownEnd};
ghost use Rattle.krb_keytab.specs.declared.image.Ending.TheVariants.{Bare};
ghost use Rattle.krb_keytab.specs.Rewrite.{new_record, rewrite_of, rewrite_result};

use super::Keytab;
use crate::cells::KnownFormat;
use crate::entry::EntryView;
use crate::form::Form;
use crate::image::{CellsEnd, Ending};
use crate::put::{bytes_fit, put_form};
use krb_cells::carry_to;
use krb_walk::{Code, Refusal};
use krb_wire::{KtFormat, NoMemory, Pen};
use std::alloc::Allocator;

// Returns how many bytes the new record of an entry takes, with its length.
fn new_record_len(entry: &EntryView<'_>) -> usize
    ensures len { result ≡ length (cell Big (new_record entry.now)) }
    ensures some { 4 ≤ result }
    ensures small { result < 2 ^ 35 }
{
    4 + Form::in_version_2(entry).len()
}

// Writes the new record of an entry.
fn put_new_record(entry: &EntryView<'_>, pen: &mut Pen<'_>)
    requires room { HasRoom pen.old (cell Big (new_record entry.now)) }
    requires small { length pen.old.out.now ≤ 2 ^ 30 }
    ensures { Puts pen.old pen.new (cell Big (new_record entry.now)) }
{
    put_form(&Form::in_version_2(entry), pen);
}

// Writes the new record of each entry.
fn put_new_records<A: Allocator>(keytab: &Keytab<A>, pen: &mut Pen<'_>)
    requires room { HasRoom pen.old (flat_map (cell Big) (rewrite_of keytab.now.state).contents.cells) }
    requires small { length pen.old.out.now ≤ 2 ^ 30 }
    ensures { Puts pen.old pen.new (flat_map (cell Big) (rewrite_of keytab.now.state).contents.cells) }
{
    'entries: for (_, entry) in keytab.entries() {
        put_new_record(&entry, pen);
    }
}

// Returns the length of the rewritten image and its number of records, or `None` if it is longer than `limit`.
#[tactic(auto, using(crate::proofs::NewRecords::len_all, crate::proofs::NewRecords::count_all))]
fn rewritten_len<A: Allocator>(keytab: &Keytab<A>, limit: usize) -> Option<(usize, u32)>
    requires some { 2 ≤ limit }
    requires small { limit ≤ 2 ^ 30 }
    ensures len { IfSome result (λ n. n.0 ≡ length (image_of (rewrite_of keytab.now.state))) }
    ensures count { IfSome result (λ n. n.1 ≡ length (rewrite_of keytab.now.state).contents.cells) }
    ensures within { IfSome result (λ n. n.0 ≤ limit) }
    ensures long { IfNone result (limit < length (image_of (rewrite_of keytab.now.state))) }
{
    let mut len: usize = 2;
    let mut count: u32 = 0;
    'entries: for (_, entry) in keytab.entries() {
        len = len + new_record_len(&entry);
        if len > limit {
            return None;
        }
        count += 1;
    }
    Some((len, count))
}

// Writes the rewritten image.
fn write_rewritten<A: Allocator>(keytab: &Keytab<A>, out: &mut [u8])
    requires len { length out.old ≡ length (image_of (rewrite_of keytab.now.state)) }
    requires small { length out.old ≤ 2 ^ 30 }
    ensures { out.new ≡ image_of (rewrite_of keytab.now.state) }
{
    let mut pen = Pen::new(out, 0);
    pen.put_bytes(&[5, 2]);
    put_new_records(keytab, &mut pen);
}

// Like `write_rewritten`, into a `Vec`.
fn spell_into<A: Allocator, B: Allocator>(keytab: &Keytab<A>, image: &mut Vec<u8, B>)
    requires len { vec_len image.old ≡ length (image_of (rewrite_of keytab.now.state)) }
    requires small { vec_len image.old ≤ 2 ^ 30 }
    ensures { image.new.items ≡ image_of (rewrite_of keytab.now.state) }
{
    write_rewritten(keytab, image);
}

// A rewrite is sound, and holds the same entries.
fn rewrite_is_sound<A: Allocator>(keytab: &Keytab<A>)
    requires { length (image_of (rewrite_of keytab.now.state)) ≤ 2 ^ 30 }
    ensures was { IsSound keytab.now.state.format keytab.now.state.contents }
    ensures sound { IsSound V2 (rewrite_of keytab.now.state).contents }
    ensures entries { entries (rewrite_of keytab.now.state) ≡ entries keytab.now.state }
{
    bytes_fit(keytab.image());
}

// Returns the rewritten image, whose length is `len`.
fn rewritten_image<A: Allocator, B: Allocator>(
    keytab: &Keytab<A>,
    alloc: B,
    len: usize,
) -> Result<Vec<u8, B>, NoMemory>
    requires len { len ≡ length (image_of (rewrite_of keytab.now.state)) }
    requires small { len ≤ 2 ^ 30 }
    ensures spelled { IfOk result (λ v. v.items ≡ image_of (rewrite_of keytab.now.state)) }
    ensures contents { IfOk result (λ v. contents V2 (drop 2 v.items) ≡ (rewrite_of keytab.now.state).contents) }
    ensures known { IfOk result (λ v. IsKnownEnd V2 v.items (record { place = len; ending = Bare })) }
{
    rewrite_is_sound(keytab);
    let mut image = Vec::from_elem(alloc, 0, len)?;
    spell_into(keytab, &mut image);
    bytes_fit(&image);
    Ok(image)
}

impl<A: Allocator + Copy> Keytab<A> {
    /// Returns the rewritten keytab, in memory of its own. Refuses as `rewrite` does.
    #[tactic(auto, using(crate::proofs::Stores::state_is, crate::proofs::Rewrites::rewrite_held, crate::proofs::Rewrites::rewrites_store, krb_walk::proofs::Splits::whole_of))]
    pub(crate) fn rewritten(&self) -> Result<Keytab<A>, Refusal>
        ensures ok { IfOk result (λ k. rewrite_result self.now.state ≡ Ok k.state) }
        ensures err { IfErr result (λ e. RewriteGives (rewrite_result self.now.state) self.now.state (Err e) self.now.state) }
        ensures rewrites { IfOk result (λ k. Rewrites (store_of self.now.state) (store_of k.state)) }
        ensures entries { IfOk result (λ k. entries k.state ≡ entries self.now.state) }
    {
        if self.fault().is_some() {
            return Err(Refusal::Code(Code::Damaged));
        }
        let Some((len, count)) = rewritten_len(self, self.limit as usize) else {
            return Err(Refusal::Code(Code::Full));
        };
        rewrite_is_sound(self);
        let image = rewritten_image(self, *self.image.allocator(), len)?;
        let end = CellsEnd {
            place: len,
            ending: Ending::Bare,
        };
        Ok(Keytab {
            image,
            format: KtFormat::V2,
            limit: self.limit,
            end,
            count,
        })
    }

    /// Replaces the keytab by a rewrite of it, and moves each cursor to the new place of the first record at or after
    /// it, or to the new end. Takes no memory.
    pub(crate) fn replace(&mut self, new: Keytab<A>, cursors: &mut [u32])
        requires rewrites { Rewrites (store_of self.old.state) (store_of new.state) }
        requires places { AllByRecursion (IsPlace (store_of self.old.state)) cursors.old }
        ensures replaced { self.new ≡ new }
        ensures carries { cursors.new ≡ map (carry (store_of self.old.state) (store_of self.new.state)) cursors.old }
    {
        bytes_fit(&self.image);
        let front = KnownFormat {
            format: self.format,
        };
        carry_to(
            front,
            &mut self.image,
            2,
            self.end.place,
            new.store(),
            cursors,
        );
        *self = new;
    }

    /// Rewrites the keytab in version 2: each entry in order in its written form, with its name type (0 if from
    /// version 1), without holes, and with nothing after them. Each cursor moves to the new place of the first record
    /// at or after it, or to the new end. Refused, in this order: a damaged keytab, a new image longer than the limit.
    /// Takes memory once, for the new image.
    pub fn rewrite(&mut self, cursors: &mut [u32]) -> Result<(), Refusal>
        requires { AllByRecursion (IsPlace (store_of self.old.state)) cursors.old }
        ensures gives { RewriteGives (rewrite_result self.old.state) self.old.state result self.new.state }
        ensures rewrites { OnOk result (Rewrites (store_of self.old.state) (store_of self.new.state)) }
        ensures entries { OnOk result (entries self.new.state ≡ entries self.old.state) }
        ensures carries { OnOk result (cursors.new ≡ map (carry (store_of self.old.state) (store_of self.new.state)) cursors.old) }
        ensures keeps { OnErr result (cursors.new ≡ cursors.old) }
        ensures room { OnErr result (self.new.room ≡ self.old.room) }
    {
        let new = self.rewritten()?;
        self.replace(new, cursors);
        Ok(())
    }
}
