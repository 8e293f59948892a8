//! What is behind a handle.

ghost use Rattle.std.specs.Prelude.{◌≡◌, Some, IsSome};
ghost use Rattle.std.specs.Borrow.{sem};
ghost use Rattle.krb_c.specs.Held.{keytab_in, cache_in, LendsKeytab, LendsCache};

use crate::cache::HeldCache;
use crate::keytab::HeldKeytab;

/// A keytab or a cache.
#[derive(Drop)]
pub enum Held {
    Keytab(HeldKeytab),
    Cache(HeldCache),
}

impl Held {
    /// Returns the keytab that it is.
    pub fn keytab(&mut self) -> &mut HeldKeytab
        requires { IsSome (keytab_in self.old) }
        ensures* writes_back { sem 𝓛 (LendsKeytab self.entry result) }
        ensures value { keytab_in self.old ≡ Some result.now.state }
    {
        match self {
            Held::Keytab(keytab) => keytab,
            Held::Cache(_) => unreachable!(),
        }
    }

    /// Returns the cache that it is.
    pub fn cache(&mut self) -> &mut HeldCache
        requires { IsSome (cache_in self.old) }
        ensures* writes_back { sem 𝓛 (LendsCache self.entry result) }
        ensures value { cache_in self.old ≡ Some result.now.state }
    {
        match self {
            Held::Keytab(_) => unreachable!(),
            Held::Cache(cache) => cache,
        }
    }
}
