//! The functions of the static library over a cache: first those that read it, then those that change it.

ghost use Rattle.std.specs.Prelude.{◌≡◌, ◌<◌, [], None, IsSome, map, option_map};
ghost use Rattle.krb_wire.specs.Names.{name_text};
ghost use Rattle.krb_wire.specs.NameOf.{name_of};
ghost use Rattle.krb_walk.specs.Store.{end_of, fault_of};
ghost use Rattle.krb_walk.specs.Ranks.{carry};
ghost use Rattle.krb_ccache.specs.Config.{config_of};
ghost use Rattle.krb_ccache.specs.Store.{credential_at_place, image_of, store_of};
ghost use Rattle.krb_ccache.specs.Changes.{cut_result};
ghost use Rattle.krb_ccache.specs.SetConfig.{set_config_result};
ghost use Rattle.krb_ccache.specs.Rewrite.{rewrite_result};
ghost use Rattle.krb_c.specs.Held.{cache_of, Looks, Over};
ghost use Rattle.krb_c.specs.Text.{Copies, CopiesTextOr, AreShown, LooksAt, ShowsBytes};
ghost use Rattle.krb_c.specs.CacheLooks.{Finds, text_or_none, Shows};
ghost use Rattle.krb_c.specs.Walks.{StepsOver, with_cursors};
ghost use Rattle.krb_c.specs.Status.{kind_number, Adds, Changes, Rewrites};
ghost use Rattle.krb_c.specs.CacheStore.{Stores, new_credential_of, principals};

use crate::cache::changes::{KrbfNameTypes, KrbfNumbers, NewCredential, store};
use crate::cache::looks::{KrbfTicket, find, shown, some_text};
use crate::handle::{KrbfCcache, if_live, with_held};
use crate::status::{DONE, kind_of};
use crate::text::{KrbfBytes, bytes_of, copy_name, show};
use krb_walk::Placed;
use std::alloc::Global;

#[unsafe(no_mangle)]
pub extern "C" fn krbf_cc_principal(
    alloc: Global,
    cc: &mut KrbfCcache,
    room: &mut [u8],
    len: &mut usize,
) -> u32
    requires { IsSome (cache_of cc.old) }
    ensures copies { Looks (cache_of cc.old) (cache_of cc.new) (λ k. Copies (name_text k.principal) result room.old room.new len.old len.new) }
{
    with_held!(cc, alloc, held => copy_name(alloc, &held.cache().store().default_principal(), room, len))
}

#[unsafe(no_mangle)]
pub extern "C" fn krbf_cc_first(alloc: Global, cc: &mut KrbfCcache, cursor: &mut u32) -> u32
    requires { IsSome (cache_of cc.old) }
    ensures done { result ≡ 0 }
    ensures first { Looks (cache_of cc.old) (cache_of cc.new) (λ k. cursor.new ≡ (store_of k).first) }
{
    with_held!(cc, alloc, held => {
        *cursor = held.cache().store().first();
        DONE
    })
}

#[unsafe(no_mangle)]
pub extern "C" fn krbf_cc_next(
    alloc: Global,
    cc: &mut KrbfCcache,
    cursor: &mut u32,
    ticket: &mut KrbfTicket,
) -> u32
    requires { IsSome (cache_of cc.old) }
    ensures steps { Looks (cache_of cc.old) (cache_of cc.new) (λ k. StepsOver (credential_at_place k) Shows (store_of k)
        result cursor.old cursor.new ticket.old ticket.new) }
{
    with_held!(cc, alloc, held => held.cache().step(cursor, ticket))
}

#[unsafe(no_mangle)]
pub extern "C" fn krbf_cc_ticket(
    alloc: Global,
    cc: &mut KrbfCcache,
    place: u32,
    ticket: &mut KrbfTicket,
) -> u32
    requires { IsSome (cache_of cc.old) }
    ensures looks { Looks (cache_of cc.old) (cache_of cc.new) (λ k. LooksAt Shows (credential_at_place k place) place result ticket.old ticket.new) }
{
    with_held!(cc, alloc, held => if_live!(held.cache().cred_at(place), credential => {
        *ticket = shown(place, &credential);
        DONE
    }))
}

#[unsafe(no_mangle)]
pub extern "C" fn krbf_cc_client(
    alloc: Global,
    cc: &mut KrbfCcache,
    place: u32,
    room: &mut [u8],
    len: &mut usize,
) -> u32
    requires { IsSome (cache_of cc.old) }
    ensures copies { Looks (cache_of cc.old) (cache_of cc.new) (λ k. CopiesTextOr 35 (option_map (λ c. name_text c.client) (credential_at_place k place))
        result room.old room.new len.old len.new) }
{
    with_held!(cc, alloc, held => if_live!(held.cache().cred_at(place), credential => {
        copy_name(alloc, credential.client(), room, len)
    }))
}

#[unsafe(no_mangle)]
pub extern "C" fn krbf_cc_server(
    alloc: Global,
    cc: &mut KrbfCcache,
    place: u32,
    room: &mut [u8],
    len: &mut usize,
) -> u32
    requires { IsSome (cache_of cc.old) }
    ensures copies { Looks (cache_of cc.old) (cache_of cc.new) (λ k. CopiesTextOr 35 (option_map (λ c. name_text c.server) (credential_at_place k place))
        result room.old room.new len.old len.new) }
{
    with_held!(cc, alloc, held => if_live!(held.cache().cred_at(place), credential => {
        copy_name(alloc, credential.server(), room, len)
    }))
}

#[unsafe(no_mangle)]
pub extern "C" fn krbf_cc_find(
    alloc: Global,
    cc: &mut KrbfCcache,
    server: &[u8],
    ticket: &mut KrbfTicket,
) -> u32
    requires { IsSome (cache_of cc.old) }
    ensures finds { Looks (cache_of cc.old) (cache_of cc.new) (λ k. Finds k (name_of server.now None) result ticket.old ticket.new) }
{
    with_held!(cc, alloc, held => find(alloc, held.cache().store(), server, ticket))
}

#[unsafe(no_mangle)]
pub extern "C" fn krbf_cc_fault(
    alloc: Global,
    cc: &mut KrbfCcache,
    kind: &mut u32,
    place: &mut u32,
) -> u32
    requires { IsSome (cache_of cc.old) }
    ensures done { result ≡ 0 }
    ensures copies { Looks (cache_of cc.old) (cache_of cc.new)
        (λ k. (kind.new ≡ kind_number (fault_of (store_of k))) × (place.new ≡ end_of (store_of k))) }
{
    with_held!(cc, alloc, held => {
        *kind = kind_of(held.cache().store().fault());
        *place = held.cache().store().end();
        DONE
    })
}

#[unsafe(no_mangle)]
pub extern "C" fn krbf_cc_config(
    alloc: Global,
    cc: &mut KrbfCcache,
    key: &[u8],
    principal: &[u8],
    value: &mut KrbfBytes,
) -> u32
    requires { IsSome (cache_of cc.old) }
    ensures value { Looks (cache_of cc.old) (cache_of cc.new) (λ k. ShowsBytes (config_of k key.now (text_or_none principal.now)) result value.old value.new) }
{
    with_held!(cc, alloc, held => show(held.cache().store().config(key, some_text(principal)), value))
}

#[unsafe(no_mangle)]
pub extern "C" fn krbf_cc_image(alloc: Global, cc: &mut KrbfCcache, image: &mut KrbfBytes) -> u32
    requires { IsSome (cache_of cc.old) }
    ensures done { result ≡ 0 }
    ensures image { Looks (cache_of cc.old) (cache_of cc.new) (λ k. AreShown image.new (image_of k)) }
{
    with_held!(cc, alloc, held => {
        *image = bytes_of(held.cache().store().image());
        DONE
    })
}

#[unsafe(no_mangle)]
pub extern "C" fn krbf_cc_store_with(
    alloc: Global,
    cc: &mut KrbfCcache,
    client: &[u8],
    server: &[u8],
    key: &[u8],
    ticket: &[u8],
    second_ticket: &[u8],
    addresses: &[u8],
    authdata: &[u8],
    numbers: &KrbfNumbers,
    types: &KrbfNameTypes,
    place: &mut u32,
) -> u32
    requires { IsSome (cache_of cc.old) }
    ensures { Over (cache_of cc.old) (cache_of cc.new)
        (λ old new. Stores (new_credential_of client.now server.now key.now ticket.now second_ticket.now
        addresses.now authdata.now numbers.now types.now)
        old result place.old place.new new) }
{
    let new_credential = NewCredential {
        client,
        server,
        key,
        ticket,
        second_ticket,
        addresses,
        authdata,
        numbers: *numbers,
        types: *types,
    };
    with_held!(cc, alloc, held => store(alloc, held.cache(), &new_credential, place))
}

#[unsafe(no_mangle)]
pub extern "C" fn krbf_cc_store(
    alloc: Global,
    cc: &mut KrbfCcache,
    client: &[u8],
    server: &[u8],
    key: &[u8],
    ticket: &[u8],
    second_ticket: &[u8],
    numbers: &KrbfNumbers,
    place: &mut u32,
) -> u32
    requires { IsSome (cache_of cc.old) }
    ensures { Over (cache_of cc.old) (cache_of cc.new)
        (λ old new. Stores (new_credential_of client.now server.now key.now ticket.now second_ticket.now [] [] numbers.now principals)
        old result place.old place.new new) }
{
    krbf_cc_store_with(
        alloc,
        cc,
        client,
        server,
        key,
        ticket,
        second_ticket,
        &[],
        &[],
        numbers,
        &KrbfNameTypes {
            client: 1,
            server: 1,
        },
        place,
    )
}

#[unsafe(no_mangle)]
pub extern "C" fn krbf_cc_remove_at(alloc: Global, cc: &mut KrbfCcache, place: u32) -> u32
    requires { IsSome (cache_of cc.old) }
    ensures { Over (cache_of cc.old) (cache_of cc.new) (λ old new. Changes (cut_result old place) old result new) }
{
    with_held!(cc, alloc, held => held.cache().remove(place))
}

#[unsafe(no_mangle)]
pub extern "C" fn krbf_cc_set_config(
    alloc: Global,
    cc: &mut KrbfCcache,
    key: &[u8],
    principal: &[u8],
    value: &[u8],
    place: &mut u32,
) -> u32
    requires { IsSome (cache_of cc.old) }
    ensures { Over (cache_of cc.old) (cache_of cc.new)
        (λ old new. Adds (set_config_result old key.now (text_or_none principal.now) value.now)
        old result place.old place.new new) }
{
    with_held!(cc, alloc, held => held.cache().set_config(alloc, key, principal, value, place))
}

#[unsafe(no_mangle)]
pub extern "C" fn krbf_cc_rewrite(alloc: Global, cc: &mut KrbfCcache, cursors: &mut [u32]) -> u32
    requires { IsSome (cache_of cc.old) }
    ensures rewrites { Over (cache_of cc.old) (cache_of cc.new)
        (λ old new. Rewrites (with_cursors (store_of old) cursors.old (rewrite_result old)) old result new) }
    ensures carries { result ≡ 0 → Over (cache_of cc.old) (cache_of cc.new)
        (λ old new. cursors.new ≡ map (carry (store_of old) (store_of new)) cursors.old) }
    ensures keeps { 0 < result → cursors.new ≡ cursors.old }
{
    with_held!(cc, alloc, held => held.cache().rewrite(cursors))
}
