//! A cache as a store that can be walked while it changes.

use crate::ccache::Ccache;
use crate::credential::Cred;
use krb_walk::{Code, Fault, Placed, Refusal, Stop};
use std::alloc::Allocator;

impl<A: Allocator + Copy> Placed for Ccache<A> {
    ghost use Rattle.krb_ccache.specs.Store.{CacheState};
    ghost use Rattle.krb_ccache.specs.Rewrite.{cache_rules};

    type Item = Cred<A>;

    ghost State = { CacheState };

    ghost state_of = { λ k. k.state };

    ghost rules = { cache_rules };

    fn first(&self) -> u32 {
        self.view().cells().first()
    }

    fn end(&self) -> u32 {
        self.end()
    }

    fn fault(&self) -> Option<Fault> {
        self.fault()
    }

    fn is_place(&self, place: u32) -> bool {
        self.view().cells().is_place(place)
    }

    fn stop_at(&self, place: u32) -> Stop {
        self.view().cells().stop_at(place)
    }

    fn bytes_at(&self, place: u32) -> &[u8] {
        self.view().cells().bytes_at(place)
    }

    fn put(&mut self, item: &Cred<A>) -> Result<u32, Refusal> {
        self.store(item)
    }

    fn cut(&mut self, place: u32) -> Result<(), Code> {
        self.remove_at(place)
    }

    fn rewrite(&mut self, cursors: &mut [u32]) -> Result<(), Refusal> {
        self.rewrite(cursors)
    }
}
