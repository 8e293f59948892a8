//! Creating a cache, and adding and removing credentials in place.

ghost use Rattle.std.specs.Prelude.{◌≡◌, [], true, None, Some, IsSome, is_some, IfOk, IfErr, OnOk, Ok};
ghost use Rattle.krb_walk.specs.Rules.{PutGives, CutGives};
ghost use Rattle.krb_walk.specs.Events.{HadMemory};
ghost use Rattle.krb_walk.specs.Changes.{Puts, Cuts};
ghost use Rattle.krb_walk.specs.Store.{live_bytes};
ghost use Rattle.krb_ccache.specs.Header.{offset_in};
ghost use Rattle.krb_ccache.specs.Store.{store_of, credential_at_place};
ghost use Rattle.krb_ccache.specs.declared.version.Version.TheVariants.{V4};
ghost use Rattle.krb_ccache.specs.Changes.{create_result, RefusesAs, append_result, is_refused, is_read_only, put_result, cut_result, takes_none, with_mark, without, HasRoomFor};

use super::Ccache;
use crate::append::append_credential;
use crate::cells::bytes_fit;
use crate::credential::Cred;
use crate::mark::mark_in_image;
use crate::offset::Offset;
use crate::open::{Layout, Places};
use crate::preamble::{header_len, new_header_has_its_offset, preamble_len, write_preamble};
use crate::version::Version;
use krb_walk::{Code, Refusal};
use krb_wire::{Limits, Name};
use std::alloc::Allocator;

impl<A: Allocator> Ccache<A> {
    /// Creates a version 4 cache without credentials. Refuses an image that would be longer than the limit.
    pub fn create<N: Name>(
        alloc: A,
        default: &N,
        offset: Option<Offset>,
        limits: Limits,
    ) -> Result<Ccache<A>, Refusal>
        ensures ok { IfOk result (λ k. create_result (N.parts default.now) offset limits ≡ Ok k.state) }
        ensures offset { IfOk result (λ k. offset_in k.state.header ≡ offset) }
        ensures err { IfErr result (RefusesAs (create_result (N.parts default.now) offset limits)) }
    {
        new_header_has_its_offset(offset);
        let limit = limits.image();
        let Some(len) = preamble_len(default, offset, limit as usize) else {
            return Err(Refusal::Code(Code::Full));
        };
        let mut image = Vec::from_elem(alloc, 0, len)?;
        write_preamble(default, offset, &mut image);
        bytes_fit(&image);
        let layout = Layout {
            version: Version::V4,
            limit,
            places: Places {
                principal: 2 + header_len(offset),
                first: len,
                end: len,
            },
        };
        Ok(Ccache {
            image,
            layout,
            removed: None,
        })
    }

    // Returns whether the cache refuses additions and removals: version 3 does.
    pub(super) fn is_read_only(&self) -> bool
        ensures { result ≡ is_read_only self.now.state.version }
    {
        match self.layout.version {
            Version::V3 => true,
            Version::V4 => false,
        }
    }

    // Marks the live credential at `place` as removed.
    fn mark(&mut self, place: u32)
        requires { IsSome (credential_at_place self.old.state place) }
        ensures marked { self.new.state ≡ with_mark self.old.state place }
        ensures room { self.new.room ≡ self.old.room }
    {
        mark_in_image(self.layout, &mut self.image, place as usize);
        self.removed = Some(place);
    }

    // Returns whether a live credential starts at `place`. Scans from the last removal if it can, so that removals in
    // file order take one pass.
    fn is_live(&self, place: u32) -> bool
        ensures { result ≡ is_some (live_bytes (store_of self.now.state) place) }
    {
        let cells = self.view().cells();
        match self.removed {
            Some(from) if from <= place => cells.from(from).find_live(place).is_some(),
            _ => cells.find_live(place).is_some(),
        }
    }

    /// Marks the credential at `place` as removed: writes endtime 0 and the greatest authtime, and no other byte. The
    /// mark is this project's own. Refuses, in this order, a version 3 cache, a damaged one, and a place where no live
    /// credential starts.
    #[tactic(auto, using(crate::proofs::StoreChanges::live_there, crate::proofs::StoreChanges::mark_cuts, crate::proofs::StoreChanges::mark_gone))]
    pub fn remove_at(&mut self, place: u32) -> Result<(), Code>
        ensures gives { CutGives (cut_result self.old.state place) self.old.state result self.new.state }
        ensures cuts { OnOk result (Cuts (store_of self.old.state) (store_of self.new.state) place) }
        // No live credential is at `place` any more.
        ensures gone { OnOk result (live_bytes (store_of self.new.state) place ≡ None) }
        ensures room { self.new.room ≡ self.old.room }
    {
        if self.is_read_only() {
            return Err(Code::ReadOnly);
        }
        if self.fault().is_some() {
            return Err(Code::Damaged);
        }
        if !self.is_live(place) {
            return Err(Code::NotLive);
        }
        self.mark(place);
        Ok(())
    }

    /// Removes the credentials at `places`, one after the other. A place that `remove_at` refuses changes nothing.
    /// Takes no memory, and one pass if the places ascend and a live credential starts at each.
    pub fn remove_all(&mut self, places: &[u32])
        ensures gives { self.new.state ≡ without self.old.state places.now }
        ensures room { self.new.room ≡ self.old.room }
    {
        for place in places {
            let _ = self.remove_at(*place);
        }
    }

    // Appends a credential to a version 4 cache without a fault.
    fn append<B: Allocator>(&mut self, cred: &Cred<B>) -> Result<u32, Refusal>
        requires whole { (self.old.state).contents.end ≡ [] }
        requires version { self.old.state.version ≡ V4 }
        ensures gives { PutGives (append_result self.old.state cred.now) self.old.state result self.new.state }
        ensures memory { is_refused (append_result self.old.state cred.now) ≡ true → HadMemory result }
        ensures room { HasRoomFor self.old cred.now → HadMemory result }
    {
        bytes_fit(&self.image);
        let place = self.end();
        let room = self.layout.limit as usize - self.image.len();
        let Some(len) = cred.len_within(room) else {
            return Err(Refusal::Code(Code::Full));
        };
        self.layout = append_credential(&mut self.image, self.layout, cred, len)?;
        self.removed = None;
        Ok(place)
    }

    /// Appends a credential and returns its place. Never reuses the place of a removed one. Refuses, in this order, a
    /// version 3 cache, a damaged one, a credential that has the removed mark, and an image that would be longer than
    /// the limit.
    pub fn store<B: Allocator>(&mut self, cred: &Cred<B>) -> Result<u32, Refusal>
        ensures gives { PutGives (put_result self.old.state cred.now) self.old.state result self.new.state }
        ensures puts { IfOk result (Puts (store_of self.old.state) (store_of self.new.state)) }
        ensures there { IfOk result (λ place. credential_at_place self.new.state place ≡ Some cred.now) }
        ensures memory { takes_none self.old.state cred.now ≡ true → HadMemory result }
        // Nor does it run out of memory if there is room for the credential.
        ensures room { HasRoomFor self.old cred.now → HadMemory result }
    {
        if self.is_read_only() {
            return Err(Refusal::Code(Code::ReadOnly));
        }
        if self.fault().is_some() {
            return Err(Refusal::Code(Code::Damaged));
        }
        if cred.is_marked() {
            return Err(Refusal::Code(Code::Marked));
        }
        self.append(cred)
    }
}
