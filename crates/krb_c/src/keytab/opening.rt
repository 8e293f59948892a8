//! Opening, creating and closing keytabs.

ghost use Rattle.std.specs.Prelude.{◌≡◌, ◌⊎◌, Some, None, Err, IsOk, IfOk, IfErr, IsSomeAnd};
ghost use Rattle.krb_keytab.specs.Store.{open_result};
ghost use Rattle.krb_c.specs.Held.{keytab_of};
ghost use Rattle.krb_c.specs.KeytabOpens.{Makes, OpensImage, order_of_flag};
ghost use Rattle.krb_c.specs.Opens.{limit_of, OpensNone};

use crate::handle::KrbfKeytab;
use crate::heap::{Heap, heap, limits_of};
use crate::held::Held;
use crate::keytab::HeldKeytab;
use crate::status::{DONE, NO_MEMORY, TOO_LARGE, of_kt_open};
use krb_keytab::{Indexed, Keytab, KtOpenFault};
use krb_wire::{KtFormat, Limits, NoMemory, Order};
use std::alloc::Global;

// Checks the length and the first two bytes of an image, which decide whether it is a keytab.
fn look_at_front(image: &[u8], v1_order: Order, limits: Limits) -> Result<(), KtOpenFault>
    ensures ok { IfOk result (λ _. IsOk (open_result v1_order limits image.now)) }
    ensures err { IfErr result (λ why. open_result v1_order limits image.now ≡ Err why) }
{
    if image.len() < 2 {
        return Err(KtOpenFault::TooShort);
    }
    if image[0] != 5 || image[1] != 1 && image[1] != 2 {
        return Err(KtOpenFault::BadVersion);
    }
    if image.len() > limits.image() as usize {
        return Err(KtOpenFault::TooLarge);
    }
    Ok(())
}

// Puts a keytab with a table of its cells into an empty handle.
fn fill(alloc: Global, keytab: Keytab<Heap>, kt: &mut KrbfKeytab) -> u32
    requires { kt.old.held ≡ None }
    ensures { ((result ≡ 0) × (keytab_of kt.new ≡ Some keytab.state)) ⊎ OpensNone 1 result kt.new }
{
    match Indexed::of(heap(alloc), keytab) {
        Ok(keytab) => kt.fill(alloc, Held::Keytab(HeldKeytab::of(keytab))),
        Err(_) => NO_MEMORY,
    }
}

#[unsafe(no_mangle)]
pub extern "C" fn krbf_kt_create(alloc: Global, limit: u32, kt: &mut KrbfKeytab) -> u32
    requires { kt.old.held ≡ None }
    ensures { Makes (limit_of limit) result kt.new }
{
    let Some(limits) = limits_of(limit) else {
        return TOO_LARGE;
    };
    match Keytab::create(heap(alloc), KtFormat::V2, limits) {
        Ok(keytab) => fill(alloc, keytab, kt),
        Err(NoMemory) => NO_MEMORY,
    }
}

#[unsafe(no_mangle)]
pub extern "C" fn krbf_kt_open(
    alloc: Global,
    image: &[u8],
    v1_big: u32,
    limit: u32,
    kt: &mut KrbfKeytab,
) -> u32
    requires { kt.old.held ≡ None }
    ensures opens { OpensImage v1_big image.now (limit_of limit) result kt.new }
    ensures memory { result ≡ 1 → IsSomeAnd (limit_of limit)
        (λ limit. IsOk (open_result (order_of_flag v1_big) limit image.now)) }
{
    let Some(limits) = limits_of(limit) else {
        return TOO_LARGE;
    };
    let v1_order = if v1_big == 0 {
        Order::Little
    } else {
        Order::Big
    };
    if let Err(why) = look_at_front(image, v1_order, limits) {
        return of_kt_open(why);
    }
    let Ok(image) = Vec::from_slice(heap(alloc), image) else {
        return NO_MEMORY;
    };
    match Keytab::open(image, v1_order, limits) {
        Ok(keytab) => fill(alloc, keytab, kt),
        Err(refused) => of_kt_open(refused.why),
    }
}

#[unsafe(no_mangle)]
pub extern "C" fn krbf_kt_close(alloc: Global, kt: &mut KrbfKeytab) -> u32
    ensures done { result ≡ 0 }
    ensures closed { kt.new.held ≡ None }
{
    kt.free(alloc);
    DONE
}
