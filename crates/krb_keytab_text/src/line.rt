//! Lines of entries, with and without their places. If an allocation fails, part of a line may have been appended.

ghost use Rattle.std.specs.Prelude.{◌≡◌, ◌++◌, IfOk, OnOk};
ghost use Rattle.krb_wire.specs.Text.{AppendedPart};
ghost use Rattle.krb_keytab_text.specs.Listing.{entry_line, time_column, etype_column, key_column, entry_tail, found_line, placed_line};

use crate::columns::KtColumns;
use krb_keytab::{EntryView, Fields};
use krb_text::{
    LastTime, append, append_byte, append_labelled, append_right_in_4, etype_text, key_text,
};
use krb_wire::{Name, NoMemory, write_name};
use std::alloc::Allocator;

// Appends the time and a space, if times are shown.
fn append_time<A: Allocator>(
    is_shown: bool,
    last: &mut LastTime,
    seconds: u32,
    out: &mut Vec<u8, A>,
) -> Result<(), NoMemory>
    ensures { OnOk result (out.new.items ≡ out.old.items ++ time_column is_shown seconds) }
{
    if !is_shown {
        return Ok(());
    }
    last.append_seconds(seconds, out)?;
    append_byte(b' ', out)
}

// Appends the enctype in parentheses, if enctypes are shown.
fn append_etype<A: Allocator>(
    is_shown: bool,
    etype: u16,
    out: &mut Vec<u8, A>,
) -> Result<(), NoMemory>
    ensures { OnOk result (out.new.items ≡ out.old.items ++ etype_column is_shown etype) }
{
    if !is_shown {
        return Ok(());
    }
    append(b" (", out)?;
    etype_text(etype, out)?;
    append_byte(b')', out)
}

// Appends the key in parentheses, if keys are shown.
#[inline(always)]
fn append_key<A: Allocator>(
    is_shown: bool,
    key: &[u8],
    out: &mut Vec<u8, A>,
) -> Result<(), NoMemory>
    ensures { OnOk result (out.new.items ≡ out.old.items ++ key_column is_shown key.now) }
{
    if !is_shown {
        return Ok(());
    }
    append(b" (", out)?;
    key_text(key, out)?;
    append_byte(b')', out)
}

/// Appends an entry's line of a listing.
pub fn append_entry<N: Name, A: Allocator>(
    columns: KtColumns,
    last: &mut LastTime,
    entry: &Fields<'_, N>,
    out: &mut Vec<u8, A>,
) -> Result<(), NoMemory>
    ensures { OnOk result (out.new.items ≡ out.old.items ++ entry_line columns entry.now) }
{
    append_right_in_4(entry.kvno as u64, out)?;
    append_time(columns.times, last, entry.timestamp, out)?;
    write_name(entry.principal, out)?;
    append_etype(columns.etypes, entry.enctype, out)?;
    append_key(columns.keys, entry.key, out)?;
    append_byte(b'\n', out)
}

/// Appends the end of an entry's line after its place: its kvno, its enctype as a number, and its principal.
pub fn append_tail<N: Name, A: Allocator>(
    entry: &Fields<'_, N>,
    out: &mut Vec<u8, A>,
) -> Result<(), NoMemory>
    ensures { AppendedPart (entry_tail entry.now) out.old out.new result }
{
    append_labelled(b" kvno ", entry.kvno, out)?;
    append_labelled(b" etype ", entry.enctype as u32, out)?;
    append_byte(b' ', out)?;
    write_name(entry.principal, out)?;
    append_byte(b'\n', out)
}

/// Appends the line of the entry at `place`, after `label`.
pub fn append_placed<A: Allocator>(
    label: &[u8],
    place: u32,
    entry: &EntryView<'_>,
    out: &mut Vec<u8, A>,
) -> Result<(), NoMemory>
    ensures { AppendedPart (placed_line label.now (place, entry.now)) out.old out.new result }
{
    append_labelled(label, place, out)?;
    append_tail(&entry.fields(), out)
}

/// Returns the line that reports the entry found at `place`.
pub fn found_text<A: Allocator>(
    alloc: A,
    place: u32,
    entry: &EntryView<'_>,
) -> Result<Vec<u8, A>, NoMemory>
    ensures { IfOk result (λ line. line.items ≡ found_line (place, entry.now)) }
{
    let mut line = Vec::new(alloc);
    append_placed(b"found ", place, entry, &mut line)?;
    Ok(line)
}
