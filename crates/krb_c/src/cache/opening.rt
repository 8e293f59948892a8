//! Opening, creating and closing caches.

ghost use Rattle.std.specs.Prelude.{◌≡◌, Err, None, IfOk, IfErr};
ghost use Rattle.krb_wire.specs.NameOf.{name_of};
ghost use Rattle.krb_ccache.specs.Store.{open_result};
ghost use Rattle.krb_c.specs.CacheOpens.{IsDeeper, OpensImage, Makes, opened_within};
ghost use Rattle.krb_c.specs.Opens.{limit_of};

use crate::cache::HeldCache;
use crate::handle::KrbfCcache;
use crate::heap::{heap, limits_of};
use crate::held::Held;
use crate::status::{DONE, NO_MEMORY, TOO_LARGE, of_cc_open, of_refusal};
use crate::text::read_name;
use krb_ccache::{CcOpenFault, Ccache};
use krb_wire::Limits;
use std::alloc::Global;

// Checks the length and the first two bytes of an image: `Err` if by these alone it is not a cache.
#[tactic(auto, using(crate::proofs::Deeper::header_is_deeper))]
fn look_at_front(image: &[u8], limits: Limits) -> Result<(), CcOpenFault>
    ensures ok { IfOk result (λ _. IfErr (open_result limits image.now) IsDeeper) }
    ensures err { IfErr result (λ why. open_result limits image.now ≡ Err why) }
{
    if image.len() < 2 {
        return Err(CcOpenFault::TooShort);
    }
    if image[0] != 5 || image[1] != 3 && image[1] != 4 {
        return Err(CcOpenFault::BadVersion);
    }
    if image.len() > limits.image() as usize {
        return Err(CcOpenFault::TooLarge);
    }
    Ok(())
}

#[unsafe(no_mangle)]
pub extern "C" fn krbf_cc_open(alloc: Global, image: &[u8], limit: u32, cc: &mut KrbfCcache) -> u32
    requires { cc.old.held ≡ None }
    ensures opens { OpensImage image.now limit result cc.new }
    ensures memory { result ≡ 1 → IfErr (opened_within image.now (limit_of limit)) IsDeeper }
{
    let Some(limits) = limits_of(limit) else {
        return TOO_LARGE;
    };
    if let Err(why) = look_at_front(image, limits) {
        return of_cc_open(why);
    }
    let Ok(image) = Vec::from_slice(heap(alloc), image) else {
        return NO_MEMORY;
    };
    match Ccache::open(image, limits) {
        Ok(cache) => cc.fill(alloc, Held::Cache(HeldCache::of(cache))),
        Err(refused) => of_cc_open(refused.why),
    }
}

#[unsafe(no_mangle)]
#[tactic(auto, using(crate::proofs::NameLemmas::unread))]
pub extern "C" fn krbf_cc_create(
    alloc: Global,
    principal: &[u8],
    limit: u32,
    cc: &mut KrbfCcache,
) -> u32
    requires { cc.old.held ≡ None }
    ensures { Makes (limit_of limit) (name_of principal.now None) result cc.new }
{
    let Some(limits) = limits_of(limit) else {
        return TOO_LARGE;
    };
    let name = match read_name(alloc, principal) {
        Ok(name) => name,
        Err(status) => return status,
    };
    match Ccache::create(heap(alloc), &name, None, limits) {
        Ok(cache) => cc.fill(alloc, Held::Cache(HeldCache::of(cache))),
        Err(refusal) => of_refusal(refusal),
    }
}

#[unsafe(no_mangle)]
pub extern "C" fn krbf_cc_close(alloc: Global, cc: &mut KrbfCcache) -> u32
    ensures done { result ≡ 0 }
    ensures closed { cc.new.held ≡ None }
{
    cc.free(alloc);
    DONE
}
