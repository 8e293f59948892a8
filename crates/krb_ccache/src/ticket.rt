//! What a ticket has in its own bytes: its encryption and its server. Its tags are 0x61, [APPLICATION 1], 0x30, SEQUENCE,
//! 0x1b, GeneralString, and for a field [0] 0xa0 and so on.

ghost use Rattle.std.specs.Prelude.{◌≡◌, ◌↔◌, IfOk, IsTrue};
ghost use Rattle.krb_wire.specs.Reading.{Gives, principal_parts};
ghost use Rattle.krb_ccache.specs.Der.{signed};
ghost use Rattle.krb_ccache.specs.Ticket.{int32_of, kvno_of, kvno_at, encrypted_data, ticket_in, ticket_encryption, server_in, ticket_server, server_parts};

use crate::der::{Integer, Strings, read_element, read_strings, split_element, split_integer};
use krb_wire::{Components, Name, NoMemory, Principal, PrincipalView};
use std::alloc::Allocator;

/// How a ticket is encrypted, by its own bytes.
#[derive(Clone, Copy, Debug, PartialEq, Eq)]
pub struct TicketEncryption {
    pub etype: i32,
    /// The version of the service's key.
    pub kvno: Option<u32>,
}

/// The server that a ticket names itself, which may differ from that of its credential.
#[derive(Drop)]
pub struct TicketServer<'a> {
    pub name_type: i32,
    pub realm: &'a [u8],
    pub components: Strings<'a>,
}

// Returns whether strings are those components.
fn are_same<A: Allocator>(mut strings: Strings<'_>, components: Components<'_, A>) -> bool
    ensures { IsTrue result ↔ (strings.entry ≡ components.entry) }
{
    'components: for component in components {
        match strings.next() {
            Some(string) if string == component => {}
            _ => return false,
        }
    }
    strings.next().is_none()
}

impl TicketServer<'_> {
    /// Returns whether it is that name, and has its type.
    pub fn is(self, name: &PrincipalView<'_>) -> bool
        ensures { IsTrue result ↔ (server_parts self.entry ≡ name.now) }
    {
        self.name_type.cast_unsigned() == name.name_type()
            && self.realm == name.realm()
            && are_same(self.components, name.components())
    }

    /// Returns an owned copy.
    pub fn copy<A: Allocator + Copy>(self, alloc: A) -> Result<Principal<A>, NoMemory>
        ensures { IfOk result (λ p. principal_parts p ≡ server_parts self.entry) }
    {
        let mut components = Vec::new(alloc);
        'strings: for string in self.components {
            components.push(Vec::from_slice(alloc, string)?)?;
        }
        Ok(Principal {
            name_type: self.name_type.cast_unsigned(),
            realm: Vec::from_slice(alloc, self.realm)?,
            components,
        })
    }
}

fn int32_of(number: Integer) -> Option<i32>
    ensures { result ≡ int32_of (signed number) }
{
    let (is_negative, n) = number;
    if n >= 1 << 31 {
        return None;
    }
    Some(if is_negative { -1 - n as i32 } else { n as i32 })
}

fn kvno_of(number: Integer) -> Option<u32>
    ensures { result ≡ kvno_of (signed number) }
{
    let (is_negative, n) = number;
    if n >= 1 << (if is_negative { 31 } else { 32 }) {
        return None;
    }
    Some(if is_negative {
        u32::MAX - n as u32
    } else {
        n as u32
    })
}

#[tactic(auto, unfolding(crate::specs::Ticket::kvno_at))]
fn split_kvno(bytes: &[u8]) -> Option<(Option<u32>, &[u8])>
    ensures { Gives (λ x. (x.0, x.1.now)) result (kvno_at bytes.now) }
{
    if bytes.first() != Some(&0xa1) {
        return Some((None, bytes));
    }
    let (n, rest) = split_integer(0xa1, bytes)?;
    Some((Some(kvno_of(n)?), rest))
}

#[tactic(auto, unfolding(crate::specs::Ticket::encrypted_data))]
fn encrypted_data(fields: &[u8]) -> Option<TicketEncryption>
    ensures { result ≡ encrypted_data fields.now }
{
    let (n, rest) = split_integer(0xa0, fields)?;
    let etype = int32_of(n)?;
    let (kvno, rest) = split_kvno(rest)?;
    read_element(0xa2, rest)?;
    Some(TicketEncryption { etype, kvno })
}

// Returns the contents of realm and sname, and the encryption.
#[tactic(auto, unfolding(crate::specs::Ticket::ticket_in))]
fn read_ticket(ticket: &[u8]) -> Option<(&[u8], &[u8], TicketEncryption)>
    ensures { Gives (λ x. (x.0.now, x.1.now, x.2)) result (ticket_in ticket.now) }
{
    let fields = read_element(0x30, read_element(0x61, ticket)?)?;
    let (version, rest) = split_integer(0xa0, fields)?;
    if version != (false, 5) {
        return None;
    }
    let (realm, rest) = split_element(0xa1, rest)?;
    let (sname, rest) = split_element(0xa2, rest)?;
    let encrypted = read_element(0x30, read_element(0xa3, rest)?)?;
    Some((realm, sname, encrypted_data(encrypted)?))
}

/// Returns both in one pass: the server that a ticket names itself, and how it is encrypted.
#[tactic(auto, unfolding(crate::specs::Ticket::ticket_server, crate::specs::Ticket::ticket_encryption))]
pub fn read_own(ticket: &[u8]) -> (Option<TicketServer<'_>>, Option<TicketEncryption>)
    ensures server { Gives server_parts result.0 (ticket_server ticket.now) }
    ensures encryption { result.1 ≡ ticket_encryption ticket.now }
{
    match read_ticket(ticket) {
        Some((realm, sname, encryption)) => (server_in(realm, sname), Some(encryption)),
        None => (None, None),
    }
}

/// Returns how a ticket is encrypted (RFC 4120 5.3), or `None` if the bytes are not one in DER.
#[tactic(auto, unfolding(crate::specs::Ticket::ticket_encryption))]
pub fn ticket_encryption(ticket: &[u8]) -> Option<TicketEncryption>
    ensures { result ≡ ticket_encryption ticket.now }
{
    let (_, _, encryption) = read_ticket(ticket)?;
    Some(encryption)
}

#[tactic(auto, unfolding(crate::specs::Ticket::server_in))]
fn server_in<'a>(realm: &'a [u8], sname: &'a [u8]) -> Option<TicketServer<'a>>
    ensures { Gives server_parts result (server_in realm.now sname.now) }
{
    let realm = read_element(0x1b, realm)?;
    let (n, rest) = split_integer(0xa0, read_element(0x30, sname)?)?;
    let name_type = int32_of(n)?;
    let components = read_strings(read_element(0x30, read_element(0xa1, rest)?)?)?;
    Some(TicketServer {
        name_type,
        realm,
        components,
    })
}

/// Returns the server that a ticket names itself (RFC 4120 5.3), or `None` if the bytes are not a ticket in DER, or its
/// realm or server's name is not.
#[tactic(auto, unfolding(crate::specs::Ticket::ticket_server))]
pub fn ticket_server(ticket: &[u8]) -> Option<TicketServer<'_>>
    ensures { Gives server_parts result (ticket_server ticket.now) }
{
    let (realm, sname, _) = read_ticket(ticket)?;
    server_in(realm, sname)
}
