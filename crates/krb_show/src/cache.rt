//! A credential cache as it is shown to people.

ghost use Rattle.std.specs.Prelude.{◌≡◌, ◌++◌, OnOk};
ghost use Rattle.krb_show.specs.CacheView.{cache_heading, cache_notes, cache_title, cache_view, offset_note};

use crate::columns::{Rows, append_counted, append_line, append_table, widened_by};
use crate::heading::{append_count_note, append_mode_note};
use crate::seen::{Judgement, judge};
use crate::tickets::TicketRow;
use itoa::Buffer;
use krb_ccache::{Ccache, Offset, is_config};
use krb_text::{append, append_byte, append_fault_line};
use krb_wire::{NoMemory, PrincipalView, write_name};
use std::alloc::Allocator;

const TITLES: [&[u8]; 5] = [b"ENDS", b"RENEW", b"SESSION", b"TICKET", b"SERVICE"];

// Appends the clock's offset from the KDC's, unless it is 0 seconds.
fn append_offset<A: Allocator>(offset: Option<Offset>, out: &mut Vec<u8, A>) -> Result<(), NoMemory>
    ensures { OnOk result (out.new.items ≡ out.old.items ++ offset_note offset) }
{
    match offset {
        Some(offset) if offset.seconds != 0 => {
            append(b", clock offset ", out)?;
            append(Buffer::new().format(offset.seconds).as_bytes(), out)?;
            append(b" s", out)
        }
        _ => Ok(()),
    }
}

fn append_notes<A: Allocator>(
    said: Judgement,
    offset: Option<Offset>,
    mode: Option<u32>,
    out: &mut Vec<u8, A>,
) -> Result<(), NoMemory>
    ensures { OnOk result (out.new.items ≡ out.old.items ++ cache_notes said offset mode) }
{
    append(if said.is_expired { b", expired!" } else { b"" }, out)?;
    append_count_note(said.weak, b" weak!", out)?;
    append_offset(offset, out)?;
    append_mode_note(mode, out)
}

// Appends the heading up to the number of tickets.
fn append_title<A: Allocator>(
    name: &[u8],
    principal: &PrincipalView<'_>,
    count: usize,
    out: &mut Vec<u8, A>,
) -> Result<(), NoMemory>
    ensures { OnOk result (out.new.items ≡ out.old.items ++ cache_title name.now principal.now count) }
{
    append(name, out)?;
    append(b": cache of ", out)?;
    write_name(principal, out)?;
    append(b", ", out)?;
    append_counted(count, b"ticket", out)
}

#[tactic(auto, unfolding(crate::specs::CacheView::cache_heading))]
fn append_heading<A: Allocator>(
    name: &[u8],
    principal: &PrincipalView<'_>,
    said: Judgement,
    offset: Option<Offset>,
    mode: Option<u32>,
    out: &mut Vec<u8, A>,
) -> Result<(), NoMemory>
    ensures { OnOk result (out.new.items ≡ out.old.items ++ cache_heading name.now principal.now said offset mode) }
{
    append_title(name, principal, said.count, out)?;
    append_notes(said, offset, mode, out)?;
    append_byte(b'\n', out)
}

// The rows of the tickets of a cache at a second.
#[derive(Drop)]
struct TicketRows<'c, B: Allocator> {
    clock: u32,
    cache: &'c Ccache<B>,
}

impl<A: Allocator + Copy, B: Allocator> Rows<A> for TicketRows<'_, B> {
    ghost use Rattle.std.specs.Prelude.{map};
    ghost use Rattle.krb_ccache.specs.Store.{placed_credentials};
    ghost use Rattle.krb_show.specs.CacheView.{ticket_row, tickets};

    ghost rows = { λ rows. map (ticket_row rows.clock) (tickets (placed_credentials rows.cache.now.state)) };

    fn widened(&self, alloc: A, column: usize, least: usize) -> Result<usize, NoMemory> {
        let clock = self.clock;
        let mut width = least;
        let mut cell = Vec::new(alloc);
        'credentials: for (_, ticket) in self.cache.credentials() {
            if !is_config(&ticket) {
                let ticket = &ticket;
                let row = TicketRow { clock, ticket };
                width = widened_by(alloc, column, width, &row, &mut cell)?;
            }
        }
        Ok(width)
    }

    fn append_lines(
        &self,
        alloc: A,
        widths: &[usize],
        out: &mut Vec<u8, A>,
    ) -> Result<(), NoMemory> {
        let clock = self.clock;
        'credentials: for (_, ticket) in self.cache.credentials() {
            if !is_config(&ticket) {
                let ticket = &ticket;
                append_line(alloc, widths, &TicketRow { clock, ticket }, out)?;
            }
        }
        Ok(())
    }
}

/// Appends what is shown of a cache: a heading with the file's name and what is said of it and of its `mode`, a table of
/// its tickets as they are at the second `now`, and the line of the fault if the cache is damaged.
pub fn append_cache_view<A: Allocator + Copy, B: Allocator>(
    alloc: A,
    name: &[u8],
    now: u32,
    mode: Option<u32>,
    cache: &Ccache<B>,
    out: &mut Vec<u8, A>,
) -> Result<(), NoMemory>
    ensures { OnOk result (out.new.items ≡ out.old.items ++ cache_view name.now now mode cache.now.state) }
{
    let said = judge(now, cache)?;
    append_heading(
        name,
        &cache.default_principal(),
        said,
        cache.offset(),
        mode,
        out,
    )?;
    let rows = TicketRows { clock: now, cache };
    append_table(alloc, &TITLES, said.count, &rows, out)?;
    append_fault_line(cache.fault(), out)
}
