//! The tickets of a cache that are looked at.

ghost use Rattle.std.specs.Prelude.{◌≡◌, IfOk, IsTrue};
ghost use Rattle.krb_wire.specs.Reading.{Gives, principal_parts};
ghost use Rattle.krb_ccache.specs.Ticket.{server_parts, ticket_server};
ghost use Rattle.krb_match.specs.Match.{name_of};

use crate::judgement::Judgement;
use crate::names::text_of;
use krb_ccache::{CredView, TicketEncryption, TicketServer, ticket_server};
use krb_wire::{NoMemory, Principal, copy_name};
use std::alloc::Allocator;
use std::marker::Model;

/// A ticket that was looked at.
#[derive(Drop)]
pub struct MatchedTicket<A: Allocator> {
    pub place: u32,
    /// Its own encryption, if its bytes are those of a ticket.
    pub encryption: Option<TicketEncryption>,
    /// Its name as a key.
    pub key: Vec<u8, A>,
    pub judgement: Judgement,
}

impl<A: Allocator> Model for MatchedTicket<A> {
    ghost use Rattle.std.specs.Prelude.{drop};
    ghost use Rattle.krb_match.specs.Tickets.{MatchedParts};

    ghost Value = { MatchedParts };

    ghost view = { λ t. record { place = t.place; encryption = t.encryption; name = drop 1 t.key.items; judgement = t.judgement } };
}

impl<A: Allocator> MatchedTicket<A> {
    /// Returns its name as it is printed.
    pub fn name(&self) -> &[u8]
        ensures { result.now ≡ self.now.name }
    {
        text_of(&self.key)
    }
}

/// Returns whether a ticket names no other server than its credential's.
pub fn names_server(own: Option<TicketServer<'_>>, ticket: &CredView<'_>) -> bool
    ensures { Gives server_parts own.entry (ticket_server ticket.now.ticket) → IsTrue result → ticket.now.server ≡ name_of ticket.now }
{
    match own {
        Some(server) => server.is(ticket.server()),
        None => true,
    }
}

/// Returns the name of a ticket: the server that it names itself, if it does, or else its credential's.
pub fn name_of<A: Allocator + Copy>(
    alloc: A,
    ticket: &CredView<'_>,
) -> Result<Principal<A>, NoMemory>
    ensures { IfOk result (λ p. principal_parts p ≡ name_of ticket.now) }
{
    match ticket_server(ticket.ticket()) {
        Some(server) => server.copy(alloc),
        None => copy_name(alloc, ticket.server()),
    }
}
