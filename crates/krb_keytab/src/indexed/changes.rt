//! Changes to a keytab and its table, each of one cell.

ghost use Rattle.std.specs.Prelude.{◌≡◌, true, length, Some, None, IfOk, OnOk};
ghost use Rattle.krb_walk.specs.Rules.{PutGives, CutGives};
ghost use Rattle.krb_walk.specs.Events.{HadMemory};
ghost use Rattle.krb_walk.specs.Store.{fault_of, live_bytes};
ghost use Rattle.krb_keytab.specs.Store.{store_of, entry_at_place};
ghost use Rattle.krb_keytab.specs.Form.{read_back, IsEntry};
ghost use Rattle.krb_keytab.specs.Changes.{cut_result, put_result, remove_result, takes_none, with_hole, with_record_in, AnswersRemove, AnswersAppend, KeepsRoom};
ghost use Rattle.krb_keytab.specs.Index.{slot_at, IsFit, IsLiveNumber};

use super::Indexed;
use crate::cells::Hole;
use crate::form::Form;
use crate::indexed::index::{push_live, put_slot, reserve_one};
use crate::indexed::slot::Slot;
use crate::length::Length;
use crate::new_entry::NewEntry;
use krb_walk::{Code, Refusal};
use krb_wire::Name;
use std::alloc::Allocator;

impl<A: Allocator> Indexed<A> {
    // Turns the record with this number, at `place`, into a hole.
    fn free(&mut self, number: usize, place: u32)
        requires { IsLiveNumber self.old.state place number }
        ensures freed { self.new.state ≡ with_hole self.old.state place }
        ensures room { self.new.room ≡ self.old.room }
    {
        let _sound = self.count();
        let hole = self.slot(number).negated();
        self.keytab.free(place);
        put_slot(&mut self.slots, &mut self.tree, number, hole);
    }

    // Writes a record into the first hole that takes it, the cell with this number, and returns its place.
    fn fill<N: Name>(&mut self, number: usize, form: &Form<'_, N>) -> u32
        requires hole { IsFit self.old.state (length form.now.bytes) (Some number) }
        requires format { form.now.format ≡ self.old.state.format }
        ensures place { result ≡ (slot_at self.old.state number).place }
        ensures filled { self.new.state ≡ with_record_in self.old.state form.now.bytes result }
        ensures room { self.new.room ≡ self.old.room }
    {
        let _sound = self.count();
        let slot = self.slot(number);
        let hole = Hole {
            place: slot.place as usize,
            size: slot.size() as usize,
        };
        self.keytab.fill(hole, form);
        put_slot(&mut self.slots, &mut self.tree, number, slot.negated());
        slot.place
    }

    // Adds a record after the cells of a keytab without a fault. Takes room for its slot first.
    fn append<N: Name>(&mut self, form: &Form<'_, N>) -> Result<u32, Refusal>
        requires whole { fault_of (store_of self.old.state) ≡ None }
        requires format { form.now.format ≡ self.old.state.format }
        ensures appended { AnswersAppend self.old.state form.now.bytes result self.new.state }
        ensures room { KeepsRoom self.old form.now.bytes result self.new }
    {
        let _few = self.count();
        let need = form.len();
        if !self.keytab.has_room(form) {
            return Err(Refusal::Code(Code::Full));
        }
        reserve_one(&mut self.slots, &mut self.tree)?;
        let place = self.keytab.append(form)?;
        let slot = Slot {
            place,
            field: Length::Live(need as u32).field(),
        };
        push_live(&mut self.slots, &mut self.tree, slot);
        Ok(place)
    }

    /// Adds an entry in the first hole that is large enough, found by the tree, or else after the cells, and returns
    /// its place. Refused, in this order: a damaged keytab, an entry with a part too long for its length, an image
    /// longer than the limit. Takes memory only if the image becomes longer, and all of it before anything is changed.
    #[tactic(auto, using(crate::proofs::StoreChanges::placed_read, crate::proofs::StoreChanges::addition_read, crate::proofs::Stores::state_is))]
    pub fn add<B: Allocator>(&mut self, entry: &NewEntry<B>) -> Result<u32, Refusal>
        ensures gives { PutGives (put_result self.old.state entry.now) self.old.state result self.new.state }
        ensures memory { takes_none self.old.state entry.now ≡ true → HadMemory result }
        ensures room { takes_none self.old.state entry.now ≡ true → self.new.room ≡ self.old.room }
        // The entry is read back at the returned place; in version 1 with name type 0.
        ensures read { IfOk result (λ place. entry_at_place self.new.state place
            ≡ Some (read_back self.old.state.format entry.now)) }
        ensures numbers { IsEntry entry.now }
    {
        let form = self.form_of(entry)?;
        let Some(number) = self.fit(form.len()).0 else {
            return self.append(&form);
        };
        Ok(self.fill(number, &form))
    }

    /// Removes the record at `place`: it becomes a hole of its size, all zeros (MIT krb5, "Keytab file format"). A
    /// damaged keytab refuses.
    pub fn remove_at(&mut self, place: u32) -> Result<(), Code>
        ensures gives { CutGives (cut_result self.old.state place) self.old.state result self.new.state }
        // No record is left there.
        ensures gone { OnOk result (live_bytes (store_of self.new.state) place ≡ None) }
        ensures room { self.new.room ≡ self.old.room }
    {
        if self.fault().is_some() {
            return Err(Code::Damaged);
        }
        let Some(number) = self.live_number(place) else {
            return Err(Code::NotLive);
        };
        self.free(number, place);
        Ok(())
    }

    /// Removes the record that `find` returns for the same arguments, and returns its place. Refuses as `find` does.
    pub fn remove<N: Name>(&mut self, name: &N, kvno: u32, enctype: u16) -> Result<u32, Code>
        ensures gives { AnswersRemove self.old.state (remove_result self.old.state (N.parts name.now) kvno enctype)
            result self.new.state }
        // No record is left there.
        ensures gone { IfOk result (λ place. live_bytes (store_of self.new.state) place ≡ None) }
        ensures room { self.new.room ≡ self.old.room }
    {
        let (place, _) = self.find(name, kvno, enctype)?;
        self.remove_at(place)?;
        Ok(place)
    }
}
