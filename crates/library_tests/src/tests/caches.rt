//! Calls of caches.

use super::in_each_heap;
use super::made::{HIGH_KEY, name_of};
use krb_ccache::{Ccache, Cred, Offset};
use krb_walk::{Placed, Refusal};
use krb_wire::Limits;
use linked_list_allocator::LocalHeap;
use std::alloc::Allocator;
use std::test::Fail;

/// Returns a ticket for `host/a@R` with an address.
fn ticket(alloc: &LocalHeap) -> Result<Cred<&LocalHeap>, Refusal> {
    let mut addresses = Vec::new(alloc);
    addresses.push((2, Vec::from_slice(alloc, b"abcd")?))?;
    Ok(Cred {
        client: name_of(alloc, b"u@R")?,
        server: name_of(alloc, b"host/a@R")?,
        enctype: 17,
        key: Vec::from_slice(alloc, HIGH_KEY)?,
        authtime: 1_700_000_000,
        starttime: 0,
        endtime: 1_700_036_000,
        renew_till: 0,
        is_skey: 0,
        flags: 0x40e0_0000,
        addresses,
        authdata: Vec::new(alloc),
        ticket: Vec::from_slice(alloc, b"tkt")?,
        second_ticket: Vec::new(alloc),
    })
}

/// Adds a ticket and a copy of it, and returns the place of the first.
fn add_twice(alloc: &LocalHeap, cache: &mut Ccache<&LocalHeap>) -> Result<u32, Refusal> {
    let place = cache.store(&ticket(alloc)?)?;
    if let Some(credential) = cache.cred_at(place) {
        let copy = credential.copy(alloc)?;
        cache.store(&copy)?;
    }
    Ok(place)
}

/// Returns a cache with a ticket, a copy of it and a value, and the place of the first.
fn made(alloc: &LocalHeap) -> Result<(Ccache<&LocalHeap>, u32), Refusal> {
    let user = name_of(alloc, b"u@R")?;
    let offset = Offset {
        seconds: 5,
        micros: -10,
    };
    let mut cache = Ccache::create(alloc, &user, Some(offset), Limits::usual())?;
    let place = add_twice(alloc, &mut cache)?;
    cache.set_config(b"k", None, b"old")?;
    cache.set_config(b"k", None, b"new")?;
    Ok((cache, place))
}

/// Returns how many tickets have the address.
fn tickets<A: Allocator>(cache: &Ccache<A>) -> u64 {
    let mut count = 0u64;
    for (_, credential) in cache.credentials() {
        if credential.address(0) == Some((2, b"abcd".as_slice())) {
            count = count.saturating_add(1);
        }
    }
    count
}

/// Changes that cache, and returns whether its tickets and its value are right.
fn change(heap: &LocalHeap) -> Result<bool, Refusal> {
    let (mut cache, place) = made(heap)?;
    let before = (cache.first(), tickets(&cache));
    cache.remove_at(place)?;
    cache.rewrite(&mut [])?;
    let value = cache.config(b"k", None);
    Ok((before, tickets(&cache)) == ((34, 2), 1) && value == Some(b"new".as_slice()))
}

#[test]
fn calls_that_take_memory(rt: HostRuntime) -> Result<(), Fail> {
    in_each_heap(rt.alloc(), change)
}
