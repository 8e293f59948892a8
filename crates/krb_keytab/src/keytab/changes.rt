//! Changes to a keytab: each changes its image in place.

ghost use Rattle.std.specs.Prelude.{◌≡◌, ◌<◌, ◌^◌, true, length, Some, None, is_some, IsSome, IfOk, IfErr, OnOk, Ok, Err};
ghost use Rattle.std.specs.Bool.{OnTrue, OnFalse};
ghost use Rattle.krb_walk.specs.Rules.{PutGives, CutGives};
ghost use Rattle.krb_walk.specs.Events.{HadMemory};
ghost use Rattle.krb_walk.specs.declared.refusal.Code.TheVariants.{Full};
ghost use Rattle.krb_walk.specs.Store.{end_of, fault_of, live_bytes, IsPlace};
ghost use Rattle.krb_keytab.specs.Store.{store_of, entry_at_place, KeytabState};
ghost use Rattle.krb_keytab.specs.Form.{fits, read_back, IsEntry};
ghost use Rattle.krb_keytab.specs.Changes.{AnswersRemove, append_result, cut_result, put_result, remove_result, takes_none, with_last, with_record_in, with_hole, hole_from, without, AnswersAppend, KeepsRoom, IsFormOf};

use super::Keytab;
use crate::append::{append_record, len_with};
use crate::cells::{Hole, first_hole};
use crate::form::Form;
use crate::image::spelled_of;
use crate::new_entry::NewEntry;
use crate::replace::{fill_hole, free_cell};
use krb_walk::{Code, Refusal};
use krb_wire::{Name, Principal};
use std::alloc::Allocator;

impl<A: Allocator> Keytab<A> {
    /// Turns the record at `place` into a hole of its size, all zeros.
    #[tactic(auto, using(std::proofs::lemmas::Bool::Decides::nat_tests))]
    pub(crate) fn free(&mut self, place: u32)
        requires { IsSome (live_bytes (store_of self.old.state) place) }
        ensures freed { self.new.state ≡ with_hole self.old.state place }
        ensures room { self.new.room ≡ self.old.room }
    {
        let size = self.bytes_at(place).len();
        free_cell(self.format, &mut self.image, self.end, place as usize, size);
    }

    /// Removes the record at `place`: it becomes a hole of its size, all zeros (MIT krb5, "Keytab file format"). A
    /// damaged keytab refuses.
    #[tactic(auto, using(crate::proofs::StoreChanges::removal_gone, crate::proofs::Stores::first_is_place))]
    pub fn remove_at(&mut self, place: u32) -> Result<(), Code>
        ensures gives { CutGives (cut_result self.old.state place) self.old.state result self.new.state }
        // No record is left there.
        ensures gone { OnOk result (live_bytes (store_of self.new.state) place ≡ None) }
        ensures room { self.new.room ≡ self.old.room }
    {
        let mut from = 2;
        self.remove_from(&mut from, place)
    }

    /// Removes the record at each place in turn, as `remove_at` does; a place that is refused changes nothing.
    /// Ascending places of records take one pass over the cells.
    #[tactic(auto, using(crate::proofs::Stores::first_is_place))]
    pub fn remove_all(&mut self, places: &[u32])
        ensures removed { self.new.state ≡ without self.old.state places.now }
        ensures room { self.new.room ≡ self.old.room }
    {
        let mut from = 2;
        'places: for place in places {
            let _ = self.remove_from(&mut from, *place);
        }
    }

    // Like `remove_at`. The scan for `place` starts at `from`, unless that is after it, and sets it to a removed record.
    fn remove_from(&mut self, from: &mut u32, place: u32) -> Result<(), Code>
        requires { IsPlace (store_of self.old.state) from.old }
        ensures gives { CutGives (cut_result self.old.state place) self.old.state result self.new.state }
        ensures from { IsPlace (store_of self.new.state) from.new }
        ensures room { self.new.room ≡ self.old.room }
    {
        if self.fault().is_some() {
            return Err(Code::Damaged);
        }
        if !self.is_live(*from, place) {
            return Err(Code::NotLive);
        }
        self.free(place);
        *from = place;
        Ok(())
    }

    // True if a record starts at `place`. Scans from `from` on, or from the start if `place` is before it.
    fn is_live(&self, from: u32, place: u32) -> bool
        requires { IsPlace (store_of self.now.state) from }
        ensures { result ≡ is_some (live_bytes (store_of self.now.state) place) }
    {
        let cells = self.store();
        if place < from {
            return cells.find_live(place).is_some();
        }
        cells.from(from).find_live(place).is_some()
    }

    /// Removes the record that `find` returns for the same arguments, and returns its place. Refuses as `find` does.
    pub fn remove<N: Name>(&mut self, name: &N, kvno: u32, enctype: u16) -> Result<u32, Code>
        ensures gives { AnswersRemove self.old.state (remove_result self.old.state (N.parts name.now) kvno enctype)
            result self.new.state }
        // No record is left there.
        ensures gone { IfOk result (λ place. live_bytes (store_of self.new.state) place ≡ None) }
        ensures room { self.new.room ≡ self.old.room }
    {
        let (place, _) = self.find(name, kvno, enctype)?;
        self.remove_at(place)?;
        Ok(place)
    }

    /// Writes a record into the first hole that takes it.
    #[tactic(auto, using(std::proofs::lemmas::Bool::Decides::nat_tests))]
    pub(crate) fn fill<N: Name>(&mut self, hole: Hole, form: &Form<'_, N>)
        requires hole { hole_from 2 (length form.now.bytes) self.old.state.contents.cells ≡ Some hole }
        requires format { form.now.format ≡ self.old.state.format }
        ensures filled { self.new.state ≡ with_record_in self.old.state form.now.bytes hole.place }
        ensures room { self.new.room ≡ self.old.room }
    {
        fill_hole(&mut self.image, self.end, hole, form);
    }

    /// Adds a record after the cells of a keytab without a fault, and returns its place.
    pub(crate) fn append<N: Name>(&mut self, form: &Form<'_, N>) -> Result<u32, Refusal>
        requires whole { fault_of (store_of self.old.state) ≡ None }
        requires format { form.now.format ≡ self.old.state.format }
        ensures appended { AnswersAppend self.old.state form.now.bytes result self.new.state }
        ensures room { KeepsRoom self.old form.now.bytes result self.new }
    {
        let _ = spelled_of(self.format, &self.image);
        if len_with(self.end, form.len()) > self.limit as usize {
            return Err(Refusal::Code(Code::Full));
        }
        let place = self.end.place as u32;
        self.end = append_record(&mut self.image, self.end, form)?;
        self.count += 1;
        Ok(place)
    }

    /// True if the limit allows a record after the cells of a keytab without a fault.
    pub(crate) fn has_room<N: Name>(&self, form: &Form<'_, N>) -> bool
        requires { fault_of (store_of self.now.state) ≡ None }
        ensures fits { OnTrue result (append_result self.now.state form.now.bytes
            ≡ Ok (end_of (store_of self.now.state), with_last self.now.state form.now.bytes)) }
        ensures full { OnFalse result (append_result self.now.state form.now.bytes ≡ Err Full) }
        ensures small { OnTrue result (length form.now.bytes < 2 ^ 30) }
    {
        len_with(self.end, form.len()) <= self.limit as usize
    }

    /// Returns the written form of an entry to add, or why it is refused.
    pub(crate) fn form_of<'e, B: Allocator>(
        &self,
        entry: &'e NewEntry<B>,
    ) -> Result<Form<'e, Principal<B>>, Code>
        ensures numbers { IsEntry entry.now }
        // Of each state that equals this one: an `Indexed` has its own.
        ensures format { (k : KeytabState) → k ≡ self.now.state → IfOk result (λ form. form.format ≡ k.format) }
        ensures ok { (k : KeytabState) → k ≡ self.now.state → IfOk result (IsFormOf k entry.now) }
        ensures err { (k : KeytabState) → k ≡ self.now.state → IfErr result (λ code. put_result k entry.now ≡ Err code) }
    {
        let fields = entry.fields();
        fields.numbers_fit();
        if self.fault().is_some() {
            return Err(Code::Damaged);
        }
        match Form::of(self.format(), fields) {
            Some(form) => Ok(form),
            None => Err(Code::TooLong),
        }
    }

    /// Adds an entry in the first hole that is large enough, or else after the cells, and returns its place. Refused,
    /// in this order: a damaged keytab, an entry with a part too long for its length, an image longer than the limit.
    /// Takes memory only if the image becomes longer. What is our choice here and what is MIT's is in docs/FORMATS.md.
    #[tactic(auto, using(crate::proofs::StoreChanges::placed_read, crate::proofs::StoreChanges::addition_read))]
    pub fn add<B: Allocator>(&mut self, entry: &NewEntry<B>) -> Result<u32, Refusal>
        ensures gives { PutGives (put_result self.old.state entry.now) self.old.state result self.new.state }
        ensures memory { takes_none self.old.state entry.now ≡ true → HadMemory result }
        ensures room { takes_none self.old.state entry.now ≡ true → self.new.room ≡ self.old.room }
        // The entry is read back at the returned place; in version 1 with name type 0.
        ensures read { IfOk result (λ place. entry_at_place self.new.state place
            ≡ Some (read_back self.old.state.format entry.now)) }
        ensures numbers { IsEntry entry.now }
    {
        let form = self.form_of(entry)?;
        let Some(hole) = first_hole(self.cells(), form.len()) else {
            return self.append(&form);
        };
        self.fill(hole, &form);
        Ok(hole.place as u32)
    }
}
