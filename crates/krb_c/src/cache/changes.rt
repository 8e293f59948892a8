//! Changes to a cache, and the status that C gets.

ghost use Rattle.std.specs.Prelude.{◌≡◌, ◌⊎◌, Ok, Err, IfOk, IfErr};
ghost use Rattle.krb_wire.specs.Reading.{principal_parts};
ghost use Rattle.krb_ccache.specs.SetConfig.{set_config_result};
ghost use Rattle.krb_c.specs.CacheLooks.{text_or_none};
ghost use Rattle.krb_c.specs.CacheStore.{Stores, with_parts};
ghost use Rattle.krb_c.specs.Status.{Adds};

use crate::cache::HeldCache;
use crate::cache::lists::copied_items;
use crate::cache::looks::some_text;
use crate::heap::{Heap, copied};
use crate::key::may_be;
use crate::status::{BAD_KEY, DONE, NO_MEMORY, of_code, of_refusal};
use crate::text::read_name;
use crate::walked::Walked;
use krb_ccache::{Ccache, Cred};
use krb_walk::Code;
use krb_wire::Principal;
use std::alloc::Global;
use std::marker::Model;

/// The numbers of a credential.
#[repr(C)]
#[derive(Clone, Copy)]
pub struct KrbfNumbers {
    pub enctype: u32,
    pub authtime: u32,
    pub starttime: u32,
    pub endtime: u32,
    pub renew_till: u32,
    pub flags: u32,
    pub is_skey: u32,
}

/// The types of a credential's names.
#[repr(C)]
#[derive(Clone, Copy)]
pub struct KrbfNameTypes {
    pub client: u32,
    pub server: u32,
}

/// The parts of a credential to store: the texts and the types of its names, its key, its tickets, its addresses and
/// authorization data, and its numbers.
#[derive(Drop)]
pub struct NewCredential<'a> {
    pub client: &'a [u8],
    pub server: &'a [u8],
    pub key: &'a [u8],
    pub ticket: &'a [u8],
    pub second_ticket: &'a [u8],
    pub addresses: &'a [u8],
    pub authdata: &'a [u8],
    pub numbers: KrbfNumbers,
    pub types: KrbfNameTypes,
}

impl<'a> Model for NewCredential<'a> {
    ghost use Rattle.krb_c.specs.CacheStore.{NewCredentialParts};

    ghost Value = { NewCredentialParts };

    ghost view = { λ a. record {
      client = a.client.now;
      server = a.server.now;
      key = a.key.now;
      ticket = a.ticket.now;
      second_ticket = a.second_ticket.now;
      addresses = a.addresses.now;
      authdata = a.authdata.now;
      numbers = a.numbers;
      types = a.types;
    } };
}

impl<'a> NewCredential<'a> {
    /// Returns the credential of this client and this server, or the status that says why there is none.
    pub fn between(
        &self,
        alloc: Global,
        mut client: Principal<Heap>,
        mut server: Principal<Heap>,
    ) -> Result<Cred<Heap>, u32>
        ensures ok { IfOk result (λ c. with_parts self.now (principal_parts client) (principal_parts server) ≡ Ok c) }
        ensures err { IfErr result (λ s. (with_parts self.now (principal_parts client) (principal_parts server) ≡ Err s) ⊎ (s ≡ 1)) }
    {
        let numbers = self.numbers;
        if numbers.enctype >= 65_536 || numbers.is_skey >= 2 {
            return Err(of_code(Code::TooLong));
        }
        if !may_be(numbers.enctype as u16, self.key) {
            return Err(BAD_KEY);
        }
        let addresses = copied_items(alloc, self.addresses)?;
        let authdata = copied_items(alloc, self.authdata)?;
        let key = copied(alloc, self.key)?;
        let ticket = copied(alloc, self.ticket)?;
        let second_ticket = copied(alloc, self.second_ticket)?;
        client.name_type = self.types.client;
        server.name_type = self.types.server;
        Ok(Cred {
            client,
            server,
            enctype: numbers.enctype as u16,
            key,
            authtime: numbers.authtime,
            starttime: numbers.starttime,
            endtime: numbers.endtime,
            renew_till: numbers.renew_till,
            is_skey: numbers.is_skey as u8,
            flags: numbers.flags,
            addresses,
            authdata,
            ticket,
            second_ticket,
        })
    }
}

/// Stores a credential of these parts, and reports its place.
#[tactic(auto, using(crate::proofs::NameLemmas::unread))]
pub fn store(
    alloc: Global,
    held: &mut HeldCache,
    new_credential: &NewCredential<'_>,
    place: &mut u32,
) -> u32
    ensures { Stores new_credential.now held.old.state result place.old place.new held.new.state }
{
    let client = match read_name(alloc, new_credential.client) {
        Ok(client) => client,
        Err(status) => return status,
    };
    let server = match read_name(alloc, new_credential.server) {
        Ok(server) => server,
        Err(status) => return status,
    };
    match new_credential.between(alloc, client, server) {
        Ok(credential) => held.put(&credential, place),
        Err(status) => status,
    }
}

impl Walked<Ccache<Heap>> {
    /// Sets a configuration value, whose bytes may be in the cache, and reports the place of its entry.
    #[tactic(auto, using(crate::proofs::StoreLemmas::refused))]
    pub fn set_config(
        &mut self,
        alloc: Global,
        key: &[u8],
        principal: &[u8],
        value: &[u8],
        place: &mut u32,
    ) -> u32
        ensures { Adds (set_config_result self.old.state key.now (text_or_none principal.now) value.now)
            self.old.state result place.old place.new self.new.state }
    {
        let (Ok(key), Ok(principal), Ok(value)) = (
            copied(alloc, key),
            copied(alloc, principal),
            copied(alloc, value),
        ) else {
            return NO_MEMORY;
        };
        self.given = None;
        self.next = None;
        match self.store.set_config(&key, some_text(&principal), &value) {
            Ok(put) => {
                *place = put;
                DONE
            }
            Err(refusal) => of_refusal(refusal),
        }
    }
}
