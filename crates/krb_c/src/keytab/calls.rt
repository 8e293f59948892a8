//! The functions of the static library over a keytab: first those that read it, then those that change it.

ghost use Rattle.std.specs.Prelude.{◌≡◌, None, IsSome, option_map, ◌⊎◌, map};
ghost use Rattle.krb_wire.specs.NameOf.{name_of};
ghost use Rattle.krb_wire.specs.Names.{name_text};
ghost use Rattle.krb_walk.specs.Store.{end_of, fault_of};
ghost use Rattle.krb_walk.specs.Ranks.{carry};
ghost use Rattle.krb_keytab.specs.Store.{entry_at_place, image_of, store_of, entries};
ghost use Rattle.krb_keytab.specs.Changes.{cut_result};
ghost use Rattle.krb_keytab.specs.Rewrite.{rewrite_result};
ghost use Rattle.krb_c.specs.Held.{keytab_of, Looks, Over};
ghost use Rattle.krb_c.specs.KeytabLooks.{Shows, Finds, ShowsPart, AddsNamed, ReadsBack, entry_with};
ghost use Rattle.krb_c.specs.Walks.{StepsOver, with_cursors};
ghost use Rattle.krb_c.specs.Text.{AreShown, LooksAt, CopiesTextOr};
ghost use Rattle.krb_c.specs.Status.{kind_number, Changes, Rewrites};

use crate::handle::{KrbfKeytab, if_live, with_held};
use crate::keytab::changes::{Numbers, add};
use crate::keytab::looks::{KrbfEntry, find, shown};
use crate::status::{DONE, kind_of};
use crate::text::{KrbfBytes, bytes_of, copy_name, show};
use krb_walk::Placed;
use krb_wire::Name;
use std::alloc::Global;

#[unsafe(no_mangle)]
pub extern "C" fn krbf_kt_next(
    alloc: Global,
    kt: &mut KrbfKeytab,
    cursor: &mut u32,
    entry: &mut KrbfEntry,
) -> u32
    requires { IsSome (keytab_of kt.old) }
    ensures steps { Looks (keytab_of kt.old) (keytab_of kt.new) (λ k. StepsOver (entry_at_place k) Shows (store_of k)
        result cursor.old cursor.new entry.old entry.new) }
{
    with_held!(kt, alloc, held => held.keytab().step(cursor, entry))
}

#[unsafe(no_mangle)]
pub extern "C" fn krbf_kt_entry(
    alloc: Global,
    kt: &mut KrbfKeytab,
    place: u32,
    entry: &mut KrbfEntry,
) -> u32
    requires { IsSome (keytab_of kt.old) }
    ensures looks { Looks (keytab_of kt.old) (keytab_of kt.new) (λ k. LooksAt Shows (entry_at_place k place) place result entry.old entry.new) }
{
    with_held!(kt, alloc, held => if_live!(held.keytab().store().entry_at(place), there => {
        *entry = shown(place, &there);
        DONE
    }))
}

#[unsafe(no_mangle)]
pub extern "C" fn krbf_kt_fault(
    alloc: Global,
    kt: &mut KrbfKeytab,
    kind: &mut u32,
    place: &mut u32,
) -> u32
    requires { IsSome (keytab_of kt.old) }
    ensures done { result ≡ 0 }
    ensures copies { Looks (keytab_of kt.old) (keytab_of kt.new)
        (λ k. (kind.new ≡ kind_number (fault_of (store_of k))) × (place.new ≡ end_of (store_of k))) }
{
    with_held!(kt, alloc, held => {
        *kind = kind_of(held.keytab().store().fault());
        *place = held.keytab().store().end();
        DONE
    })
}

#[unsafe(no_mangle)]
pub extern "C" fn krbf_kt_find(
    alloc: Global,
    kt: &mut KrbfKeytab,
    name: &[u8],
    kvno: u32,
    enctype: u16,
    entry: &mut KrbfEntry,
) -> u32
    requires { IsSome (keytab_of kt.old) }
    ensures finds { Looks (keytab_of kt.old) (keytab_of kt.new) (λ k. Finds k (name_of name.now None) kvno enctype result entry.old entry.new) }
{
    with_held!(kt, alloc, held => find(alloc, held.keytab(), name, kvno, enctype, entry))
}

#[unsafe(no_mangle)]
pub extern "C" fn krbf_kt_name(
    alloc: Global,
    kt: &mut KrbfKeytab,
    place: u32,
    room: &mut [u8],
    len: &mut usize,
) -> u32
    requires { IsSome (keytab_of kt.old) }
    ensures copies { Looks (keytab_of kt.old) (keytab_of kt.new) (λ k. CopiesTextOr 35 (option_map (λ e. name_text e.principal) (entry_at_place k place)) result room.old room.new len.old len.new) }
{
    with_held!(kt, alloc, held => if_live!(held.keytab().store().entry_at(place), entry => {
        copy_name(alloc, entry.principal(), room, len)
    }))
}

#[unsafe(no_mangle)]
pub extern "C" fn krbf_kt_component(
    alloc: Global,
    kt: &mut KrbfKeytab,
    place: u32,
    number: usize,
    component: &mut KrbfBytes,
) -> u32
    requires { IsSome (keytab_of kt.old) }
    ensures shows { Looks (keytab_of kt.old) (keytab_of kt.new) (λ k. ShowsPart (entry_at_place k place) number result component.old component.new) }
{
    with_held!(kt, alloc, held => if_live!(held.keytab().store().entry_at(place), entry => {
        show(entry.principal().component(number), component)
    }))
}

#[unsafe(no_mangle)]
pub extern "C" fn krbf_kt_image(alloc: Global, kt: &mut KrbfKeytab, image: &mut KrbfBytes) -> u32
    requires { IsSome (keytab_of kt.old) }
    ensures done { result ≡ 0 }
    ensures image { Looks (keytab_of kt.old) (keytab_of kt.new) (λ k. AreShown image.new (image_of k)) }
{
    with_held!(kt, alloc, held => {
        *image = bytes_of(held.keytab().store().image());
        DONE
    })
}

#[unsafe(no_mangle)]
pub extern "C" fn krbf_kt_add(
    alloc: Global,
    kt: &mut KrbfKeytab,
    name: &[u8],
    timestamp: u32,
    kvno: u32,
    enctype: u16,
    key: &[u8],
    place: &mut u32,
) -> u32
    requires { IsSome (keytab_of kt.old) }
    ensures adds { Over (keytab_of kt.old) (keytab_of kt.new) (λ old new. AddsNamed old (name_of name.now None)
        (entry_with timestamp kvno enctype key.now) result place.old place.new new) }
    ensures reads { result ≡ 0 → Over (keytab_of kt.old) (keytab_of kt.new) (λ old new. ReadsBack old (name_of name.now None)
        (entry_with timestamp kvno enctype key.now) place.new new) }
{
    let numbers = Numbers {
        timestamp,
        kvno,
        enctype,
    };
    with_held!(kt, alloc, held => add(alloc, held.keytab(), name, numbers, key, place))
}

#[unsafe(no_mangle)]
pub extern "C" fn krbf_kt_remove_at(alloc: Global, kt: &mut KrbfKeytab, place: u32) -> u32
    requires { IsSome (keytab_of kt.old) }
    ensures { Over (keytab_of kt.old) (keytab_of kt.new) (λ old new. Changes (cut_result old place) old result new) }
{
    with_held!(kt, alloc, held => held.keytab().remove(place))
}

#[unsafe(no_mangle)]
pub extern "C" fn krbf_kt_rewrite(alloc: Global, kt: &mut KrbfKeytab, cursors: &mut [u32]) -> u32
    requires { IsSome (keytab_of kt.old) }
    ensures rewrites { Over (keytab_of kt.old) (keytab_of kt.new) (λ old new.
        Rewrites (with_cursors (store_of old) cursors.old (rewrite_result old)) old result new) }
    ensures entries { result ≡ 0 → Over (keytab_of kt.old) (keytab_of kt.new) (λ old new. entries new ≡ entries old) }
    ensures carries { result ≡ 0 → Over (keytab_of kt.old) (keytab_of kt.new) (λ old new.
        cursors.new ≡ map (carry (store_of old) (store_of new)) cursors.old) }
    ensures left { (result ≡ 0) ⊎ (cursors.new ≡ cursors.old) }
{
    with_held!(kt, alloc, held => {
        let keytab = held.keytab();
        let _bytes = keytab.store().image();
        keytab.rewrite(cursors)
    })
}
