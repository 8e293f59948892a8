//! Credentials as C sees them, and reading a cache for C.

ghost use Rattle.std.specs.Prelude.{◌≡◌, None, option_copied, Some, IsSome};
ghost use Rattle.krb_wire.specs.Reading.{principal_parts};
ghost use Rattle.krb_wire.specs.NameOf.{name_of};
ghost use Rattle.krb_walk.specs.Store.{live_bytes};
ghost use Rattle.krb_ccache.specs.Store.{credential_at_place, store_of};
ghost use Rattle.krb_c.specs.CacheLooks.{Finds, ticket_for, text_or_none, Shows};

use crate::heap::Heap;
use crate::status::{DONE, of_code};
use crate::text::{KrbfBytes, bytes_of, read_name};
use crate::walked::Records;
use krb_ccache::{Ccache, CredView, is_config, read_credential};
use krb_walk::{Code, Placed};
use krb_wire::{Principal, same_name};
use std::alloc::Global;

/// A credential: its place, its numbers, and where its key and tickets are.
#[repr(C)]
#[derive(Drop)]
pub struct KrbfTicket {
    pub place: u32,
    pub enctype: u32,
    pub authtime: u32,
    pub starttime: u32,
    pub endtime: u32,
    pub renew_till: u32,
    pub flags: u32,
    pub is_skey: u32,
    pub is_config: u32,
    pub key: KrbfBytes,
    pub ticket: KrbfBytes,
    pub second_ticket: KrbfBytes,
}

/// Returns a credential at `place`, as C sees it.
pub fn shown(place: u32, credential: &CredView<'_>) -> KrbfTicket
    ensures { Shows result place credential.now }
{
    KrbfTicket {
        place,
        enctype: u32::from(credential.enctype()),
        authtime: credential.authtime(),
        starttime: credential.starttime(),
        endtime: credential.endtime(),
        renew_till: credential.renew_till(),
        flags: credential.flags(),
        is_skey: u32::from(credential.is_skey()),
        is_config: u32::from(is_config(credential)),
        key: bytes_of(credential.key()),
        ticket: bytes_of(credential.ticket()),
        second_ticket: bytes_of(credential.second_ticket()),
    }
}

/// Returns the live credential at `place`. Reads no other credential.
pub fn read_at(cache: &Ccache<Heap>, place: u32) -> CredView<'_>
    requires { IsSome (live_bytes (store_of cache.now.state) place) }
    ensures { credential_at_place cache.now.state place ≡ Some result }
{
    let _spelled = cache.image();
    let Some(credential) = read_credential(cache.version(), cache.bytes_at(place)) else {
        unreachable!()
    };
    credential
}

impl Records for Ccache<Heap> {
    ghost use Rattle.krb_ccache.specs.Credential.{CredParts};
    ghost use Rattle.krb_ccache.specs.Store.{credential_at_place};
    ghost use Rattle.krb_c.specs.CacheLooks.{Shows};

    type Shown = KrbfTicket;

    ghost Record = { CredParts };

    ghost record_at = { λ k. credential_at_place k.state };

    ghost Shows = { Shows };

    fn shown_at(&self, place: u32) -> KrbfTicket {
        shown(place, &read_at(self, place))
    }
}

// Returns the first live ticket for a server, with its place, or `None`.
fn first_for<'a>(cache: &'a Ccache<Heap>, server: &Principal<Heap>) -> Option<(u32, CredView<'a>)>
    ensures { result ≡ ticket_for cache.now.state (principal_parts server.now) }
{
    for (place, credential) in cache.credentials() {
        if !is_config(&credential) && same_name(server, credential.server()) {
            return Some((place, credential));
        }
    }
    None
}

/// Shows the first live ticket for the server that a text names.
#[tactic(auto, using(crate::proofs::NameLemmas::unread))]
pub fn find(alloc: Global, cache: &Ccache<Heap>, server: &[u8], ticket: &mut KrbfTicket) -> u32
    ensures { Finds cache.now.state (name_of server.now None) result ticket.old ticket.new }
{
    let name = match read_name(alloc, server) {
        Ok(name) => name,
        Err(status) => return status,
    };
    let Some((place, credential)) = first_for(cache, &name) else {
        return of_code(Code::NotFound);
    };
    *ticket = shown(place, &credential);
    DONE
}

/// Returns the text, or `None` if it is empty.
pub fn some_text(text: &[u8]) -> Option<&[u8]>
    ensures { option_copied result ≡ text_or_none text.now }
{
    if text.is_empty() {
        return None;
    }
    Some(text)
}
