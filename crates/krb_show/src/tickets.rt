//! The rows of tickets.

ghost use Rattle.std.specs.Prelude.{◌≡◌, ◌++◌, OnOk};
ghost use Rattle.krb_wire.specs.Names.{name_text};
ghost use Rattle.krb_wire.specs.Text.{AppendedPart};
ghost use Rattle.krb_show.specs.CacheView.{end_cell, is_invalid, service, start};

use crate::ago::{append_ago, append_time};
use crate::columns::Row;
use crate::etypes::{append_encryption, append_etype};
use krb_ccache::{CredView, ticket_encryption, ticket_server};
use krb_text::append;
use krb_wire::{Name, NoMemory, write_name};
use std::alloc::Allocator;

fn start(ticket: &CredView<'_>) -> u32
    ensures { result ≡ start ticket.now.times }
{
    match ticket.starttime() {
        0 => ticket.authtime(),
        starttime => starttime,
    }
}

const INVALID: u32 = 0x0100_0000;

fn is_invalid(flags: u32) -> bool
    ensures { result ≡ is_invalid flags }
{
    flags & INVALID != 0
}

// Appends when a ticket ends, or that it has ended, or when it starts, or that it is invalid.
#[tactic(auto, unfolding(crate::specs::CacheView::end_cell))]
fn append_end<A: Allocator>(
    now: u32,
    ticket: &CredView<'_>,
    out: &mut Vec<u8, A>,
) -> Result<(), NoMemory>
    ensures { AppendedPart (end_cell now ticket.now.times ticket.now.flags) out.old out.new result }
{
    let end = ticket.endtime();
    if end == 0 {
        return append(b"-", out);
    }
    if end <= now {
        append(b"ended ", out)?;
        return append_ago(now, end, out);
    }
    let start = start(ticket);
    if now < start {
        append(b"starts ", out)?;
        return append_ago(now, start, out);
    }
    if is_invalid(ticket.flags()) {
        return append(b"invalid", out);
    }
    append_ago(now, end, out)
}

// Appends the service of a ticket: its server, or the one that it names itself where the realm of its server is empty.
#[tactic(auto, unfolding(crate::specs::CacheView::service))]
fn append_service<A: Allocator + Copy>(
    alloc: A,
    ticket: &CredView<'_>,
    out: &mut Vec<u8, A>,
) -> Result<(), NoMemory>
    ensures { OnOk result (out.new.items ≡ out.old.items ++ name_text (service ticket.now)) }
{
    match ticket_server(ticket.ticket()) {
        Some(own) if ticket.server().realm().is_empty() => write_name(&own.copy(alloc)?, out),
        _ => write_name(ticket.server(), out),
    }
}

/// The row of a ticket at a second.
#[derive(Drop)]
pub struct TicketRow<'c, 'a> {
    pub clock: u32,
    pub ticket: &'c CredView<'a>,
}

impl<A: Allocator + Copy> Row<A> for TicketRow<'_, '_> {
    ghost use Rattle.krb_show.specs.CacheView.{ticket_row};

    ghost cells = { λ row. ticket_row row.clock row.ticket.now };

    fn cell_count(&self) -> usize {
        5
    }

    fn append_cell(&self, alloc: A, column: usize, out: &mut Vec<u8, A>) -> Result<(), NoMemory> {
        let ticket = self.ticket;
        match column {
            0 => append_end(self.clock, ticket, out),
            1 => append_time(self.clock, ticket.renew_till(), out),
            2 => append_etype(ticket.enctype(), out),
            3 => append_encryption(ticket_encryption(ticket.ticket()), out),
            4 => append_service(alloc, ticket, out),
            _ => Ok(()),
        }
    }
}
