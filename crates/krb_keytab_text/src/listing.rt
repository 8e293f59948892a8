//! The listings of a keytab and of the slots of ktutil.

ghost use Rattle.std.specs.Prelude.{◌≡◌, ◌++◌, OnOk, IsFalse, ◌≤◌, OnErr, vec_capacity};
ghost use Rattle.krb_text.specs.Gathered.{Gathers, Prints};
ghost use Rattle.krb_keytab_text.specs.Listing.{titles, underlines, heading, entry_lines, list_text, slot_heading, slot_line, slot_lines, slot_text};

use crate::columns::KtColumns;
use crate::line::append_entry;
use krb_files::{OutFault, Watched};
use krb_keytab::{Keytab, NewEntry};
use krb_text::{LastTime, append, append_right_in_4, room_to_gather, send_if_full, send_last};
use krb_wire::NoMemory;
use std::alloc::Allocator;
use std::io::Write;

/// Returns the line of column titles, with a `Timestamp` column if `times`.
pub fn titles(times: bool) -> &'static [u8]
    ensures { result.now ≡ titles times }
{
    if times {
        b"KVNO Timestamp            Principal\n"
    } else {
        b"KVNO Principal\n"
    }
}

/// Returns the line of dashes below the titles.
pub fn underlines(times: bool) -> &'static [u8]
    ensures { result.now ≡ underlines times }
{
    if times {
        b"---- -------------------- ---------\n"
    } else {
        b"---- ---------\n"
    }
}

fn append_heading<A: Allocator>(
    name: &str,
    times: bool,
    out: &mut Vec<u8, A>,
) -> Result<(), NoMemory>
    ensures { OnOk result (out.new.items ≡ out.old.items ++ heading name.now times) }
{
    append(b"Keytab name: FILE:", out)?;
    append(name.as_bytes(), out)?;
    append(b"\n", out)?;
    append(titles(times), out)?;
    append(underlines(times), out)
}

// Gathers the lines of all entries, and writes them as they fill up.
fn list_entries<A: Allocator, B: Allocator, W: Write>(
    keytab: &Keytab<B>,
    columns: KtColumns,
    gathered: &mut Vec<u8, A>,
    out: &mut Watched<W>,
) -> Result<(), OutFault>
    requires { IsFalse out.old.failed }
    ensures { Gathers out.old out.new gathered.old.items gathered.new.items result
        (entry_lines columns keytab.now.state) }
{
    let mut last = LastTime::new();
    'entries: for (_, entry) in keytab.entries() {
        append_entry(columns, &mut last, &entry.fields(), gathered)?;
        send_if_full(gathered, out)?;
    }
    Ok(())
}

/// Writes the listing of a keytab whose file is `name`: a heading, a line for each entry in file order, and the line
/// of the fault if the keytab is damaged. The text goes out in large writes; if one fails, a prefix of the text has
/// been written.
pub fn list_keytab<A: Allocator, B: Allocator, W: Write>(
    alloc: A,
    name: &str,
    keytab: &Keytab<B>,
    columns: KtColumns,
    out: &mut Watched<W>,
) -> Result<(), OutFault>
    requires { IsFalse out.old.failed }
    ensures { Prints out.old out.new result (list_text columns name.now keytab.now.state) }
{
    let mut gathered = room_to_gather(alloc)?;
    append_heading(name, columns.times, &mut gathered)?;
    list_entries(keytab, columns, &mut gathered, out)?;
    send_last(keytab.fault(), &mut gathered, out)
}

fn append_slot_heading<A: Allocator>(times: bool, out: &mut Vec<u8, A>) -> Result<(), NoMemory>
    ensures { OnOk result (out.new.items ≡ out.old.items ++ slot_heading times) }
{
    append(b"slot ", out)?;
    append(titles(times), out)?;
    append(b"---- ", out)?;
    append(underlines(times), out)
}

fn append_slot<A: Allocator, B: Allocator>(
    columns: KtColumns,
    last: &mut LastTime,
    slot: u64,
    entry: &NewEntry<B>,
    out: &mut Vec<u8, A>,
) -> Result<(), NoMemory>
    ensures { OnOk result (out.new.items ≡ out.old.items ++ slot_line columns (slot, entry.now)) }
{
    append_right_in_4(slot, out)?;
    append_entry(columns, last, &entry.fields(), out)
}

fn append_slots<A: Allocator, B: Allocator>(
    columns: KtColumns,
    entries: &[NewEntry<B>],
    out: &mut Vec<u8, A>,
) -> Result<(), NoMemory>
    ensures { OnOk result (out.new.items ≡ out.old.items ++ slot_lines columns 1 entries.now) }
{
    let mut last = LastTime::new();
    let mut slot = 0;
    'slots: for entry in entries {
        slot += 1;
        append_slot(columns, &mut last, slot, entry, out)?;
    }
    Ok(())
}

/// Appends the listing of a list of entries: a heading, and for each entry a line with its slot number, from 1 on.
pub fn list_slots<A: Allocator>(
    alloc: A,
    entries: &[NewEntry<A>],
    columns: KtColumns,
    out: &mut Vec<u8, A>,
) -> Result<(), NoMemory>
    ensures ok { OnOk result (out.new.items ≡ out.old.items ++ slot_text columns entries.now) }
    ensures err { OnErr result (out.new.items ≡ out.old.items) }
    ensures capacity { vec_capacity out.old ≤ vec_capacity out.new }
{
    let mut text = Vec::new(alloc);
    append_slot_heading(columns.times, &mut text)?;
    append_slots(columns, entries, &mut text)?;
    append(&text, out)
}
