//! The lines of a credential. If an allocation failed, some of them may have been appended.

ghost use Rattle.std.specs.Prelude.{◌≡◌, ◌++◌, OnOk, option_copied};
ghost use Rattle.krb_wire.specs.Text.{AppendedPart};
ghost use Rattle.krb_ccache.specs.Config.{config_parts};
ghost use Rattle.krb_cache_text.specs.Listing.{valid_from, instant, validity, ticket_line, renew_line, flags_line, etype_line, ticket_lines, about, config_line, credential_lines};

use crate::columns::CcColumns;
use krb_ccache::{ConfigName, CredView, config_name};
use krb_text::{LastTime, append, append_byte, append_escaped, etype_text, flag_letters};
use krb_wire::{NoMemory, write_name};
use std::alloc::Allocator;

/// The last time of each kind: the tickets of a cache mostly end at the same time.
#[derive(Drop)]
pub struct LastTimes {
    start: LastTime,
    end: LastTime,
    renewal: LastTime,
}

impl LastTimes {
    /// Returns no times yet, as before the first ticket.
    pub fn new() -> LastTimes {
        LastTimes {
            start: LastTime::new(),
            end: LastTime::new(),
            renewal: LastTime::new(),
        }
    }
}

// Returns when a ticket becomes valid: its authtime if it has no start time.
fn valid_from(credential: &CredView<'_>) -> u32
    ensures { result ≡ valid_from credential.now.times }
{
    match credential.starttime() {
        0 => credential.authtime(),
        starttime => starttime,
    }
}

fn append_instant<A: Allocator>(
    last: &mut LastTime,
    seconds: u32,
    out: &mut Vec<u8, A>,
) -> Result<(), NoMemory>
    ensures { OnOk result (out.new.items ≡ out.old.items ++ instant seconds) }
{
    last.append_seconds(seconds, out)?;
    append_byte(b' ', out)
}

// Appends when a ticket becomes valid and when it expires.
fn append_validity<A: Allocator>(
    last: &mut LastTimes,
    credential: &CredView<'_>,
    out: &mut Vec<u8, A>,
) -> Result<(), NoMemory>
    ensures { OnOk result (out.new.items ≡ out.old.items ++ validity credential.now.times) }
{
    append_instant(&mut last.start, valid_from(credential), out)?;
    append_instant(&mut last.end, credential.endtime(), out)
}

// Appends the line with the start time, the end time and the server of a ticket.
#[tactic(auto, unfolding(crate::specs::Listing::ticket_line))]
fn append_ticket<A: Allocator>(
    last: &mut LastTimes,
    credential: &CredView<'_>,
    out: &mut Vec<u8, A>,
) -> Result<(), NoMemory>
    ensures { OnOk result (out.new.items ≡ out.old.items ++ ticket_line credential.now) }
{
    append_validity(last, credential, out)?;
    write_name(credential.server(), out)?;
    append_byte(b'\n', out)
}

// Appends the line that says until when a ticket can be renewed, if it can be.
#[tactic(auto, unfolding(crate::specs::Listing::renew_line))]
fn append_renewal<A: Allocator>(
    last: &mut LastTime,
    seconds: u32,
    out: &mut Vec<u8, A>,
) -> Result<(), NoMemory>
    ensures { OnOk result (out.new.items ≡ out.old.items ++ renew_line seconds) }
{
    if seconds == 0 {
        return Ok(());
    }
    append(b"    renew until ", out)?;
    last.append_seconds(seconds, out)?;
    append_byte(b'\n', out)
}

// Appends the line with the flags of a ticket, if they are shown.
#[tactic(auto, unfolding(crate::specs::Listing::flags_line))]
fn append_flags<A: Allocator>(
    is_shown: bool,
    flags: u32,
    out: &mut Vec<u8, A>,
) -> Result<(), NoMemory>
    ensures { OnOk result (out.new.items ≡ out.old.items ++ flags_line is_shown flags) }
{
    if !is_shown {
        return Ok(());
    }
    append(b"    Flags: ", out)?;
    flag_letters(flags, out)?;
    append_byte(b'\n', out)
}

// Appends the line with the enctype of a session key, if that is shown.
#[tactic(auto, unfolding(crate::specs::Listing::etype_line))]
fn append_etype<A: Allocator>(
    is_shown: bool,
    etype: u16,
    out: &mut Vec<u8, A>,
) -> Result<(), NoMemory>
    ensures { OnOk result (out.new.items ≡ out.old.items ++ etype_line is_shown etype) }
{
    if !is_shown {
        return Ok(());
    }
    append(b"    Etype: ", out)?;
    etype_text(etype, out)?;
    append_byte(b'\n', out)
}

fn append_ticket_lines<A: Allocator>(
    columns: CcColumns,
    last: &mut LastTimes,
    credential: &CredView<'_>,
    out: &mut Vec<u8, A>,
) -> Result<(), NoMemory>
    ensures { OnOk result (out.new.items ≡ out.old.items ++ ticket_lines columns credential.now) }
{
    append_ticket(last, credential, out)?;
    append_renewal(&mut last.renewal, credential.renew_till(), out)?;
    append_flags(columns.flags, credential.flags(), out)?;
    append_etype(columns.etypes, credential.enctype(), out)
}

/// Appends the principal that a configuration entry is about, in parentheses, if there is one.
pub fn append_about<A: Allocator>(
    principal: Option<&[u8]>,
    out: &mut Vec<u8, A>,
) -> Result<(), NoMemory>
    ensures { AppendedPart (about (option_copied principal.entry)) out.old out.new result }
{
    let Some(text) = principal else {
        return Ok(());
    };
    append_byte(b'(', out)?;
    append_escaped(text, out)?;
    append_byte(b')', out)
}

#[tactic(auto, unfolding(crate::specs::Listing::config_line))]
fn append_config<A: Allocator>(
    name: ConfigName<'_>,
    value: &[u8],
    out: &mut Vec<u8, A>,
) -> Result<(), NoMemory>
    ensures { OnOk result
        (out.new.items ≡ out.old.items ++ config_line (config_parts name.entry) value.now) }
{
    append(b"config: ", out)?;
    append_escaped(name.key, out)?;
    append_about(name.principal, out)?;
    append(b" = ", out)?;
    append_escaped(value, out)?;
    append_byte(b'\n', out)
}

/// Appends the lines of a credential: those of a ticket, or that of a configuration entry if those are shown.
pub fn append_credential<A: Allocator>(
    columns: CcColumns,
    last: &mut LastTimes,
    credential: &CredView<'_>,
    out: &mut Vec<u8, A>,
) -> Result<(), NoMemory>
    ensures { OnOk result
        (out.new.items ≡ out.old.items ++ credential_lines columns credential.now) }
{
    match config_name(credential) {
        None => append_ticket_lines(columns, last, credential, out),
        Some(name) if columns.configs => append_config(name, credential.ticket(), out),
        Some(_) => Ok(()),
    }
}
