//! Addresses and authorization data as C sees and gives them: the bytes of whole items, one after the other, without
//! their number.

ghost use Rattle.std.specs.List.{flat_map};
ghost use Rattle.std.specs.Prelude.{IsSome, IsSomeAnd, ◌≡◌, ◌⊎◌, ◌++◌, ◌∷◌, [], None, OnOk, Some, IfOk, IfErr, option_map};
ghost use Rattle.krb_wire.specs.Reading.{Gives, list_end};
ghost use Rattle.krb_walk.specs.Store.{live_bytes};
ghost use Rattle.krb_ccache.specs.Credential.{key_at, owned_list, times_at, typed_data, typed_data_at, typed_data_of};
ghost use Rattle.krb_ccache.specs.Laws.{AreBytes};
ghost use Rattle.krb_ccache.specs.Store.{credential_at_place, store_of};
ghost use Rattle.krb_c.specs.Held.{cache_of, Looks};
ghost use Rattle.krb_c.specs.Lists.{items_in, list_bytes_at, lists_in};
ghost use Rattle.krb_c.specs.Text.{AreShown, LooksAt};

use crate::handle::{KrbfCcache, if_live, with_held};
use crate::heap::{Heap, heap};
use crate::status::{DONE, NO_MEMORY, of_code};
use crate::text::{KrbfBytes, bytes_of};
use krb_ccache::{Ccache, Version};
use krb_walk::{Code, Placed};
use krb_wire::{NoMemory, Order, split_cc_principal, split_data32, split_u8, split_u16, split_u32};
use std::alloc::Global;

/// Items, each with its type.
pub type Items = Vec<(u16, Vec<u8, Heap>), Heap>;

#[tactic(auto, unfolding(krb_ccache::specs::Credential::typed_data_at))]
fn split_item(bytes: &[u8]) -> Option<((u16, &[u8]), &[u8])>
    ensures { Gives (λ x. (typed_data_of x.0, x.1.now)) result (typed_data_at bytes.now) }
{
    let (kind, rest) = split_u16(Order::Big, bytes)?;
    let (text, rest) = split_data32(Order::Big, rest)?;
    Some(((kind, text), rest))
}

fn add_copy(alloc: Global, kind: u16, text: &[u8], items: &mut Items) -> Result<(), NoMemory>
    ensures { OnOk result (owned_list items.new.items ≡ owned_list items.old.items ++ (record { kind = kind; bytes = text.now } ∷ [])) }
{
    items.push((kind, Vec::from_slice(heap(alloc), text)?))?;
    Ok(())
}

/// Returns the items of a list, or the status that says why there are none.
#[tactic(auto, using(crate::proofs::ItemLemmas::not_whole, crate::proofs::ItemLemmas::too_many, crate::proofs::ItemLemmas::goes_on))]
pub fn copied_items(alloc: Global, bytes: &[u8]) -> Result<Items, u32>
    ensures ok { IfOk result (λ v. items_in bytes.now ≡ Some (owned_list v.items)) }
    ensures err { IfErr result (λ s. ((s ≡ 32) × (items_in bytes.now ≡ None)) ⊎ (s ≡ 1)) }
{
    let mut items = Vec::new(heap(alloc));
    let mut rest = bytes;
    'items: for _ in 0..bytes.len() + 1 {
        if rest.is_empty() {
            return Ok(items);
        }
        let Some(((kind, text), after)) = split_item(rest) else {
            return Err(of_code(Code::TooLong));
        };
        let Ok(()) = add_copy(alloc, kind, text, &mut items) else {
            return Err(NO_MEMORY);
        };
        rest = after;
    }
    Err(of_code(Code::TooLong))
}

// Returns the bytes after `count` items, or `None` if the bytes begin with fewer.
#[tactic(auto, using(krb_wire::proofs::ReadLists::goes_on, krb_wire::proofs::ReadLists::ends, krb_wire::proofs::ReadLists::is_done))]
fn skip_items(count: u32, bytes: &[u8]) -> Option<&[u8]>
    ensures { Gives (λ x. x.now) result (list_end typed_data_at count bytes.now) }
{
    let mut rest = bytes;
    for _ in 0..count {
        let (_, after) = split_item(rest)?;
        rest = after;
    }
    Some(rest)
}

// Returns the bytes of the list that the bytes begin with, without its count, and the bytes after it.
#[tactic(auto, unfolding(crate::specs::Lists::list_bytes_at))]
fn split_list(bytes: &[u8]) -> Option<(&[u8], &[u8])>
    ensures { Gives (λ x. (x.0.now, x.1.now)) result (list_bytes_at bytes.now) }
{
    let (count, items) = split_u32(Order::Big, bytes)?;
    let rest = skip_items(count, items)?;
    let len = items.len().saturating_sub(rest.len());
    Some((items.split_at(len).0, rest))
}

#[tactic(auto, unfolding(krb_ccache::specs::Credential::key_at))]
fn skip_key(version: Version, bytes: &[u8]) -> Option<&[u8]>
    ensures { Gives (λ x. x.now) result (option_map (λ x. x.1) (key_at version bytes.now)) }
{
    let (_, rest) = split_u16(Order::Big, bytes)?;
    let (_, rest) = match version {
        Version::V3 => split_u16(Order::Big, rest)?,
        Version::V4 => (0, rest),
    };
    let (_, rest) = split_data32(Order::Big, rest)?;
    Some(rest)
}

#[tactic(auto, unfolding(krb_ccache::specs::Credential::times_at))]
fn skip_times(bytes: &[u8]) -> Option<&[u8]>
    ensures { Gives (λ x. x.now) result (option_map (λ x. x.1) (times_at bytes.now)) }
{
    let (_, rest) = split_u32(Order::Big, bytes)?;
    let (_, rest) = split_u32(Order::Big, rest)?;
    let (_, rest) = split_u32(Order::Big, rest)?;
    let (_, rest) = split_u32(Order::Big, rest)?;
    Some(rest)
}

// Returns the bytes of the two lists of the credential that the bytes begin with.
#[tactic(auto, unfolding(crate::specs::Lists::lists_in))]
fn lists_in(version: Version, bytes: &[u8]) -> Option<(&[u8], &[u8])>
    ensures { Gives (λ x. (x.0.now, x.1.now)) result (lists_in version bytes.now) }
{
    let (_, rest) = split_cc_principal(bytes)?;
    let (_, rest) = split_cc_principal(rest)?;
    let rest = skip_times(skip_key(version, rest)?)?;
    let (_, rest) = split_u8(rest)?;
    let (_, rest) = split_u32(Order::Big, rest)?;
    let (addresses, rest) = split_list(rest)?;
    let (authdata, _) = split_list(rest)?;
    Some((addresses, authdata))
}

// Shows that each is below 256.
fn are_bytes(bytes: &[u8])
    ensures { AreBytes bytes.now }
{}

// Returns the bytes of the addresses and of the authorization data at `place`.
fn lists_at(cache: &Ccache<Heap>, place: u32) -> (&[u8], &[u8])
    requires { IsSome (live_bytes (store_of cache.now.state) place) }
    ensures { IsSomeAnd (credential_at_place cache.now.state place)
        (λ c. (result.0.now ≡ flat_map typed_data c.addresses) × (result.1.now ≡ flat_map typed_data c.authdata)) }
{
    let _spelled = cache.image();
    let bytes = cache.bytes_at(place);
    are_bytes(bytes);
    let Some(lists) = lists_in(cache.version(), bytes) else {
        unreachable!()
    };
    lists
}

#[unsafe(no_mangle)]
pub extern "C" fn krbf_cc_addresses(
    alloc: Global,
    cc: &mut KrbfCcache,
    place: u32,
    addresses: &mut KrbfBytes,
) -> u32
    requires { IsSome (cache_of cc.old) }
    ensures shows { Looks (cache_of cc.old) (cache_of cc.new)
        (λ k. LooksAt (λ seen _ c. AreShown seen (flat_map typed_data c.addresses)) (credential_at_place k place)
        place result addresses.old addresses.new) }
{
    with_held!(cc, alloc, held => if_live!(held.cache().store().cred_at(place), _found => {
        *addresses = bytes_of(lists_at(held.cache().store(), place).0);
        DONE
    }))
}

#[unsafe(no_mangle)]
pub extern "C" fn krbf_cc_authdata(
    alloc: Global,
    cc: &mut KrbfCcache,
    place: u32,
    authdata: &mut KrbfBytes,
) -> u32
    requires { IsSome (cache_of cc.old) }
    ensures shows { Looks (cache_of cc.old) (cache_of cc.new)
        (λ k. LooksAt (λ seen _ c. AreShown seen (flat_map typed_data c.authdata)) (credential_at_place k place)
        place result authdata.old authdata.new) }
{
    with_held!(cc, alloc, held => if_live!(held.cache().store().cred_at(place), _found => {
        *authdata = bytes_of(lists_at(held.cache().store(), place).1);
        DONE
    }))
}
