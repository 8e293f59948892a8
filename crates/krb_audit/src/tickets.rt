//! Selects tickets of a cache.

ghost use Rattle.std.specs.Prelude.{◌≡◌, ◌++◌, ◌∷◌, [], List, IfOk, OnOk};
ghost use Rattle.krb_ccache.specs.Store.{PlacedCredential};
ghost use Rattle.krb_audit.specs.Tickets.{SelectsSoFar, SelectsTickets, removed_ticket_line};

use crate::criteria::{has_ended_by, names_ticket};
use krb_ccache::{Ccache, CredView};
use krb_names::{AskedNames, NameFilter};
use krb_text::{append, append_byte, append_labelled};
use krb_wire::{NoMemory, write_name};
use std::alloc::Allocator;

// Appends the line that reports the removal of the ticket at `place`.
fn append_removed<A: Allocator>(
    place: u32,
    ticket: &CredView<'_>,
    out: &mut Vec<u8, A>,
) -> Result<(), NoMemory>
    ensures { OnOk result (out.new.items ≡ out.old.items ++ removed_ticket_line (place, ticket.now)) }
{
    append_labelled(b"removed ", place, out)?;
    append_byte(b' ', out)?;
    write_name(ticket.server(), out)?;
    append_byte(b'\n', out)
}

/// Which tickets of a cache are selected: those that meet all criteria given.
#[derive(Clone, Copy)]
pub struct TicketCriteria<'s, B: Allocator> {
    /// The servers, also as tickets name them. If none is asked for, any but those of gssproxy.
    pub servers: &'s AskedNames<B>,
    /// Only tickets of services: not those of the ticket-granting service.
    pub all_services: bool,
    /// Only tickets that end at or before this second.
    pub ended_by: Option<u32>,
}

/// The selected tickets of a cache.
#[derive(Drop)]
pub struct SelectedTickets<A: Allocator> {
    /// Their places, in file order.
    pub places: Vec<u32, A>,
    /// A line for each that reports its removal, after the label.
    pub text: Vec<u8, A>,
    /// True if some ticket meets the criteria, whatever its end time.
    pub is_named: bool,
}

impl<A: Allocator + Copy> SelectedTickets<A> {
    // Adds a ticket.
    fn add(&mut self, label: &[u8], place: u32, ticket: &CredView<'_>) -> Result<(), NoMemory>
        ensures places { OnOk result (self.new.places.items ≡ self.old.places.items ++ place ∷ []) }
        ensures text { OnOk result (self.new.text.items
            ≡ self.old.text.items ++ (label.now ++ removed_ticket_line (place, ticket.now))) }
        ensures named { self.new.is_named ≡ self.old.is_named }
    {
        self.places.push(place)?;
        append(label, &mut self.text)?;
        append_removed(place, ticket, &mut self.text)
    }

    // Adds the next credential if it is a selected ticket.
    fn consider<B: Allocator, C: Allocator>(
        &mut self,
        alloc: A,
        label: &[u8],
        criteria: &TicketCriteria<'_, B>,
        servers: &mut NameFilter<'_, A, C>,
        place: u32,
        credential: &CredView<'_>,
    ) -> Result<(), NoMemory>
        ensures added { (rest all : List PlacedCredential)
            → SelectsSoFar label.now servers.old criteria.now.all_services criteria.now.ended_by ((place, credential.now) ∷ rest) all self.old
            → OnOk result (SelectsSoFar label.now servers.old criteria.now.all_services criteria.now.ended_by rest all self.new) }
        ensures kept { servers.new ≡ servers.old }
    {
        if !names_ticket(alloc, servers, criteria.all_services, credential)? {
            return Ok(());
        }
        self.is_named = true;
        if !has_ended_by(criteria.ended_by, credential) {
            return Ok(());
        }
        self.add(label, place, credential)
    }
}

/// Returns the tickets of a cache that meet the criteria, with a line for each after the label. Takes one pass.
pub fn select_tickets<A: Allocator + Copy, B: Allocator>(
    alloc: A,
    label: &[u8],
    cache: &Ccache<A>,
    criteria: &TicketCriteria<'_, B>,
) -> Result<SelectedTickets<A>, NoMemory>
    ensures { IfOk result (SelectsTickets label.now criteria.now.servers.now criteria.now.all_services criteria.now.ended_by cache.now.state) }
{
    let mut servers = NameFilter::of(alloc, criteria.servers)?;
    let mut selected = SelectedTickets {
        places: Vec::new(alloc),
        text: Vec::new(alloc),
        is_named: false,
    };
    'credentials: for (place, credential) in cache.credentials() {
        selected.consider(alloc, label, criteria, &mut servers, place, &credential)?;
    }
    Ok(selected)
}
