//! Owned credentials.

pub(crate) mod key;
pub(crate) mod spelling;
pub(crate) mod times;
pub(crate) mod typed_list;
pub(crate) mod view;

ghost use Rattle.std.specs.Prelude.{◌≡◌, IfOk};
ghost use Rattle.krb_ccache.specs.Credential.{is_marked, owned_list, in_version_4};

use crate::credential::times::Times;
use crate::credential::typed_list::TypedList;
use crate::credential::view::CredView;
use krb_wire::{NoMemory, Principal, copy_name};
use std::alloc::{AllocError, Allocator};
use std::marker::Model;

/// An owned credential (MIT krb5, "Credential cache file format"). It has one enctype, as version 4 writes it.
/// Contracts see its fields, and not where they are in memory.
#[derive(Drop)]
pub struct Cred<A: Allocator> {
    pub client: Principal<A>,
    pub server: Principal<A>,
    pub enctype: u16,
    /// The session key.
    pub key: Vec<u8, A>,
    /// Seconds since 1970-01-01T00:00:00Z, like the other times.
    pub authtime: u32,
    pub starttime: u32,
    pub endtime: u32,
    pub renew_till: u32,
    pub is_skey: u8,
    pub flags: u32,
    /// Each with its type.
    pub addresses: Vec<(u16, Vec<u8, A>), A>,
    /// Authorization data, each element with its type.
    pub authdata: Vec<(u16, Vec<u8, A>), A>,
    pub ticket: Vec<u8, A>,
    pub second_ticket: Vec<u8, A>,
}

impl<A: Allocator> Model for Cred<A> {
    ghost use Rattle.krb_wire.specs.Reading.{principal_parts};
    ghost use Rattle.krb_ccache.specs.Credential.{CredParts, owned_list, plain_key};

    ghost Value = { CredParts };

    ghost view = { λ c. record {
      client = principal_parts c.client;
      server = principal_parts c.server;
      key = plain_key c.enctype c.key.items;
      times = record { authtime = c.authtime; starttime = c.starttime; endtime = c.endtime; renew_till = c.renew_till };
      is_skey = c.is_skey;
      flags = c.flags;
      addresses = owned_list c.addresses.items;
      authdata = owned_list c.authdata.items;
      ticket = c.ticket.items;
      second_ticket = c.second_ticket.items;
    } };
}

impl<A: Allocator> Cred<A> {
    /// Returns its four times.
    pub fn times(&self) -> Times
        ensures { result ≡ self.now.times }
    {
        Times {
            authtime: self.authtime,
            starttime: self.starttime,
            endtime: self.endtime,
            renew_till: self.renew_till,
        }
    }

    /// Returns whether it has the removed mark: endtime 0 and the greatest authtime.
    pub fn is_marked(&self) -> bool
        ensures { result ≡ is_marked self.now }
    {
        self.times().are_marked()
    }
}

fn copy_items<A: Allocator + Copy>(
    alloc: A,
    list: TypedList<'_>,
) -> Result<Vec<(u16, Vec<u8, A>), A>, AllocError>
    ensures { IfOk result (λ v. owned_list v.items ≡ list.entry) }
{
    let mut all = Vec::with_capacity(alloc, list.len())?;
    for (kind, bytes) in list {
        all.push((kind, Vec::from_slice(alloc, bytes)?))?;
    }
    Ok(all)
}

impl<'a> CredView<'a> {
    /// Returns an owned copy, without the second enctype of a version 3 credential.
    pub fn copy<A: Allocator + Copy>(&self, alloc: A) -> Result<Cred<A>, NoMemory>
        ensures { IfOk result (λ c. c ≡ in_version_4 self.now) }
    {
        let client = copy_name(alloc, self.client())?;
        let server = copy_name(alloc, self.server())?;
        let key = Vec::from_slice(alloc, self.key())?;
        let addresses = copy_items(alloc, self.addresses().items())?;
        let authdata = copy_items(alloc, self.authorizations().items())?;
        let ticket = Vec::from_slice(alloc, self.ticket())?;
        let second_ticket = Vec::from_slice(alloc, self.second_ticket())?;
        Ok(Cred {
            client,
            server,
            enctype: self.enctype(),
            key,
            authtime: self.authtime(),
            starttime: self.starttime(),
            endtime: self.endtime(),
            renew_till: self.renew_till(),
            is_skey: self.is_skey(),
            flags: self.flags(),
            addresses,
            authdata,
            ticket,
            second_ticket,
        })
    }
}
