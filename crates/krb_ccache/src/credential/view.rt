//! Credentials of a cache, read in place.

ghost use Rattle.std.specs.Prelude.{◌≡◌, length, option_map, slice_get};
ghost use Rattle.krb_wire.specs.Reading.{Gives};
ghost use Rattle.krb_ccache.specs.Credential.{CredParts, credential_at, credential_in, is_marked, typed_data_of};

use crate::credential::key::{KeyView, split_key};
use crate::credential::times::{Times, split_times};
use crate::credential::typed_list::{TypedList, split_typed_list};
use crate::version::Version;
use krb_wire::{Order, PrincipalView, split_cc_principal, split_data32, split_u8, split_u32};
use std::marker::Model;

/// A credential, borrowed from an image.
#[derive(Drop)]
pub struct CredView<'a> {
    client: PrincipalView<'a>,
    server: PrincipalView<'a>,
    key: KeyView<'a>,
    times: Times,
    is_skey: u8,
    flags: u32,
    addresses: TypedList<'a>,
    authdata: TypedList<'a>,
    ticket: &'a [u8],
    second_ticket: &'a [u8],
}

impl<'a> Model for CredView<'a> {
    ghost Value = { CredParts };

    ghost view = { λ c. record {
      client = c.client;
      server = c.server;
      key = c.key;
      times = c.times;
      is_skey = c.is_skey;
      flags = c.flags;
      addresses = c.addresses;
      authdata = c.authdata;
      ticket = c.ticket.now;
      second_ticket = c.second_ticket.now;
    } };
}

/// Returns the credential that the bytes begin with, if any, and the bytes after it.
#[tactic(auto, unfolding(crate::specs::Credential::credential_at))]
pub fn split_credential(version: Version, bytes: &[u8]) -> Option<(CredView<'_>, &[u8])>
    ensures { Gives (λ x. (x.0, x.1.now)) result (credential_at version bytes.now) }
{
    let (client, rest) = split_cc_principal(bytes)?;
    let (server, rest) = split_cc_principal(rest)?;
    let (key, rest) = split_key(version, rest)?;
    let (times, rest) = split_times(rest)?;
    let (is_skey, rest) = split_u8(rest)?;
    let (flags, rest) = split_u32(Order::Big, rest)?;
    let (addresses, rest) = split_typed_list(rest)?;
    let (authdata, rest) = split_typed_list(rest)?;
    let (ticket, rest) = split_data32(Order::Big, rest)?;
    let (second_ticket, rest) = split_data32(Order::Big, rest)?;
    Some((
        CredView {
            client,
            server,
            key,
            times,
            is_skey,
            flags,
            addresses,
            authdata,
            ticket,
            second_ticket,
        },
        rest,
    ))
}

/// Returns the credential that the bytes begin with, if any.
pub fn read_credential(version: Version, bytes: &[u8]) -> Option<CredView<'_>>
    ensures { result ≡ credential_in version bytes.now }
{
    let (credential, _) = split_credential(version, bytes)?;
    Some(credential)
}

impl<'a> CredView<'a> {
    /// Returns the client principal.
    pub fn client(&self) -> &PrincipalView<'a>
        ensures { result.now ≡ self.now.client }
    {
        &self.client
    }

    /// Returns the server principal.
    pub fn server(&self) -> &PrincipalView<'a>
        ensures { result.now ≡ self.now.server }
    {
        &self.server
    }

    /// Returns the enctype of the session key.
    pub fn enctype(&self) -> u16
        ensures { result ≡ self.now.key.enctype }
    {
        self.key.enctype
    }

    /// Returns the session key.
    pub fn key(&self) -> &'a [u8]
        ensures { result.now ≡ self.now.key.bytes }
    {
        self.key.bytes
    }

    /// Returns when the client was authenticated.
    pub fn authtime(&self) -> u32
        ensures { result ≡ self.now.times.authtime }
    {
        self.times.authtime
    }

    /// Returns when it becomes valid; 0 means at `authtime`.
    pub fn starttime(&self) -> u32
        ensures { result ≡ self.now.times.starttime }
    {
        self.times.starttime
    }

    /// Returns when it expires.
    pub fn endtime(&self) -> u32
        ensures { result ≡ self.now.times.endtime }
    {
        self.times.endtime
    }

    /// Returns until when it can be renewed, or 0 if it cannot.
    pub fn renew_till(&self) -> u32
        ensures { result ≡ self.now.times.renew_till }
    {
        self.times.renew_till
    }

    /// Returns whether the ticket is encrypted in another ticket's session key: 0 if it is not.
    pub fn is_skey(&self) -> u8
        ensures { result ≡ self.now.is_skey }
    {
        self.is_skey
    }

    /// Returns the ticket flags (RFC 4120, section 5.3), the first of them in the highest bit.
    pub fn flags(&self) -> u32
        ensures { result ≡ self.now.flags }
    {
        self.flags
    }

    // Returns its addresses.
    pub(crate) fn addresses(&self) -> &TypedList<'a>
        ensures { result.now ≡ self.now.addresses }
    {
        &self.addresses
    }

    // Returns its authorization data.
    pub(crate) fn authorizations(&self) -> &TypedList<'a>
        ensures { result.now ≡ self.now.authdata }
    {
        &self.authdata
    }

    /// Returns the number of addresses.
    pub fn address_count(&self) -> usize
        ensures { result ≡ length self.now.addresses }
    {
        self.addresses.len()
    }

    /// Returns the type and bytes of address `i`, or `None` past the last. Scans those before it.
    pub fn address(&self, i: usize) -> Option<(u16, &'a [u8])>
        ensures { option_map typed_data_of result ≡ slice_get self.now.addresses i }
    {
        self.addresses.get(i)
    }

    /// Returns the number of elements of authorization data.
    pub fn authdata_count(&self) -> usize
        ensures { result ≡ length self.now.authdata }
    {
        self.authdata.len()
    }

    /// Returns the type and bytes of element `i` of authorization data, or `None` past the last. Scans those before it.
    pub fn authdata(&self, i: usize) -> Option<(u16, &'a [u8])>
        ensures { option_map typed_data_of result ≡ slice_get self.now.authdata i }
    {
        self.authdata.get(i)
    }

    /// Returns the ticket.
    pub fn ticket(&self) -> &'a [u8]
        ensures { result.now ≡ self.now.ticket }
    {
        self.ticket
    }

    /// Returns the second ticket, which is empty in most credentials.
    pub fn second_ticket(&self) -> &'a [u8]
        ensures { result.now ≡ self.now.second_ticket }
    {
        self.second_ticket
    }

    /// Returns whether it has the removed mark: endtime 0 and the greatest authtime.
    pub fn is_marked(&self) -> bool
        ensures { result ≡ is_marked self.now }
    {
        self.times.are_marked()
    }
}
