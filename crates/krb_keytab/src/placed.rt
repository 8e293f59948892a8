//! A keytab as a store that is walked while it changes.

use crate::keytab::Keytab;
use crate::new_entry::NewEntry;
use krb_walk::{Code, Fault, Placed, Refusal, Stop};
use std::alloc::Allocator;

impl<A: Allocator + Copy> Placed for Keytab<A> {
    ghost use Rattle.krb_keytab.specs.Store.{KeytabState};
    ghost use Rattle.krb_keytab.specs.Rewrite.{keytab_rules};

    type Item = NewEntry<A>;

    ghost State = { KeytabState };

    ghost state_of = { λ k. k.state };

    ghost rules = { keytab_rules };

    fn first(&self) -> u32 {
        self.store().first()
    }

    fn end(&self) -> u32 {
        self.end()
    }

    fn fault(&self) -> Option<Fault> {
        self.fault()
    }

    fn is_place(&self, place: u32) -> bool {
        self.store().is_place(place)
    }

    fn stop_at(&self, place: u32) -> Stop {
        self.store().stop_at(place)
    }

    fn bytes_at(&self, place: u32) -> &[u8] {
        self.bytes_at(place)
    }

    fn put(&mut self, item: &NewEntry<A>) -> Result<u32, Refusal> {
        self.add(item)
    }

    #[tactic(auto, using(crate::proofs::StoreChanges::removal_cuts))]
    fn cut(&mut self, place: u32) -> Result<(), Code> {
        self.remove_at(place)
    }

    fn rewrite(&mut self, cursors: &mut [u32]) -> Result<(), Refusal> {
        self.rewrite(cursors)
    }
}
