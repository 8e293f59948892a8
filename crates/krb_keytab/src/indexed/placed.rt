//! An indexed keytab as a store that is walked while it changes, by the same rules as a keytab.

use crate::indexed::Indexed;
use crate::new_entry::NewEntry;
use krb_walk::{Code, Fault, Placed, Refusal, Stop};
use std::alloc::Allocator;

impl<A: Allocator + Copy> Placed for Indexed<A> {
    ghost use Rattle.krb_keytab.specs.Store.{KeytabState};
    ghost use Rattle.krb_keytab.specs.Rewrite.{keytab_rules};

    type Item = NewEntry<A>;

    ghost State = { KeytabState };

    ghost state_of = { λ k. k.state };

    ghost rules = { keytab_rules };

    fn first(&self) -> u32 {
        self.keytab.first()
    }

    fn end(&self) -> u32 {
        self.keytab.end()
    }

    fn fault(&self) -> Option<Fault> {
        self.keytab.fault()
    }

    #[tactic(auto, using(crate::proofs::IndexLemmas::is_place_by_rank, crate::proofs::PlaceLemmas::places_len))]
    fn is_place(&self, place: u32) -> bool {
        self.place_of(self.rank(place)) == place
    }

    fn stop_at(&self, place: u32) -> Stop {
        self.keytab.stop_at(place)
    }

    fn bytes_at(&self, place: u32) -> &[u8] {
        self.keytab.bytes_at(place)
    }

    fn put(&mut self, item: &NewEntry<A>) -> Result<u32, Refusal> {
        self.add(item)
    }

    #[tactic(auto, using(crate::proofs::StoreChanges::removal_cuts))]
    fn cut(&mut self, place: u32) -> Result<(), Code> {
        self.remove_at(place)
    }

    fn rewrite(&mut self, cursors: &mut [u32]) -> Result<(), Refusal> {
        self.rewrite(cursors)
    }
}
