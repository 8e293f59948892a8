//! The allocator of the library, and the limit on the length of an image.

ghost use Rattle.std.specs.Prelude.{◌≡◌, IfOk, IfErr};
ghost use Rattle.krb_c.specs.Opens.{limit_of};

use crate::status::NO_MEMORY;
use krb_wire::Limits;
use std::alloc::Global;
use wiping::Wiping;

/// The allocator of all that is behind a handle: the C library's heap, wiped on free, so that no key goes back to it.
pub type Heap = Wiping<Global>;

/// Returns that allocator.
pub fn heap(alloc: Global) -> Heap {
    Wiping::new(alloc)
}

/// Returns a copy of bytes from C. They may be in the keytab or the cache that is to be changed.
pub fn copied(alloc: Global, bytes: &[u8]) -> Result<Vec<u8, Heap>, u32>
    ensures ok { IfOk result (λ v. v.items ≡ bytes.now) }
    ensures err { IfErr result (λ s. s ≡ 1) }
{
    Vec::from_slice(heap(alloc), bytes).map_err(|_| NO_MEMORY)
}

/// Returns the limits for a number from C, or `None` if it is no limit. 0 means the usual limit.
pub fn limits_of(limit: u32) -> Option<Limits>
    ensures { result ≡ limit_of limit }
{
    if limit == 0 {
        return Some(Limits::usual());
    }
    Limits::of(limit)
}
