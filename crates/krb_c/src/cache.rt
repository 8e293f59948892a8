//! Credential caches for C.

mod calls;
mod changes;
mod lists;
mod looks;
mod opening;
mod own;

ghost use Rattle.std.specs.Prelude.{◌≡◌};
ghost use Rattle.krb_ccache.specs.Store.{credential_at_place};

use crate::cache::looks::read_at;
use crate::heap::Heap;
use crate::walked::Walked;
use krb_ccache::{Ccache, CredView};

/// A cache in memory.
pub type HeldCache = Walked<Ccache<Heap>>;

impl Walked<Ccache<Heap>> {
    /// Returns the live credential at `place`, or `None`. Scans from the start, unless a walk was given it last.
    pub fn cred_at(&self, place: u32) -> Option<CredView<'_>>
        ensures { result ≡ credential_at_place self.now.state place }
    {
        if self.given == Some(place) {
            return Some(read_at(&self.store, place));
        }
        self.store.cred_at(place)
    }
}
