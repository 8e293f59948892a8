//! A keytab as it is shown to people.

ghost use Rattle.std.specs.Prelude.{◌≡◌, ◌++◌, IfOk, OnOk};
ghost use Rattle.krb_show.specs.KeytabView.{keytab_heading, keytab_notes, keytab_title, keytab_view, name_count, weak_names_note};

use crate::columns::{Rows, append_counted, append_line, append_table, widened_by};
use crate::heading::{append_count_note, append_mode_note};
use crate::keys::KeyRow;
use crate::lines::{Lines, lines_of, one_more};
use krb_audit::Tally;
use krb_keytab::Keytab;
use krb_text::{append, append_byte, append_fault_line};
use krb_wire::NoMemory;
use std::alloc::Allocator;

const TITLES: [&[u8]; 4] = [b"KVNO", b"ADDED", b"KEYS", b"PRINCIPAL"];

fn name_count<A: Allocator>(lines: &Lines<'_, A>) -> Result<usize, NoMemory>
    ensures { IfOk result (λ n. n ≡ name_count lines.now.entries) }
{
    let mut count: usize = 0;
    'lines: for (key, _line) in lines {
        if !key.1 {
            count = one_more(count)?;
        }
    }
    Ok(count)
}

// Appends the heading up to the number of names.
fn append_title<A: Allocator>(
    name: &[u8],
    keys: usize,
    names: usize,
    out: &mut Vec<u8, A>,
) -> Result<(), NoMemory>
    ensures { OnOk result (out.new.items ≡ out.old.items ++ keytab_title name.now keys names) }
{
    append(name, out)?;
    append(b": keytab, ", out)?;
    append_counted(keys, b"key", out)?;
    append(b" of ", out)?;
    append_counted(names, b"principal", out)
}

// Appends how many names have weak keys alone, if some do.
fn append_weak_names<A: Allocator>(count: usize, out: &mut Vec<u8, A>) -> Result<(), NoMemory>
    ensures { OnOk result (out.new.items ≡ out.old.items ++ weak_names_note count) }
{
    if count == 0 {
        return Ok(());
    }
    append(b", ", out)?;
    append_counted(count, b"principal", out)?;
    append(b" with weak keys alone!", out)
}

fn append_notes<A: Allocator>(
    tally: Tally,
    mode: Option<u32>,
    out: &mut Vec<u8, A>,
) -> Result<(), NoMemory>
    ensures { OnOk result (out.new.items ≡ out.old.items ++ keytab_notes tally mode) }
{
    append_count_note(tally.weak_entries, b" weak!", out)?;
    append_count_note(tally.old_entries, b" old", out)?;
    append_weak_names(tally.weak_names, out)?;
    append_mode_note(mode, out)
}

#[tactic(auto, unfolding(crate::specs::KeytabView::keytab_heading))]
fn append_heading<A: Allocator>(
    name: &[u8],
    keys: usize,
    names: usize,
    tally: Tally,
    mode: Option<u32>,
    out: &mut Vec<u8, A>,
) -> Result<(), NoMemory>
    ensures { OnOk result (out.new.items ≡ out.old.items ++ keytab_heading name.now keys names tally mode) }
{
    append_title(name, keys, names, out)?;
    append_notes(tally, mode, out)?;
    append_byte(b'\n', out)
}

// The rows of lines at a second.
#[derive(Drop)]
struct KeyRows<'l, 'a, A: Allocator> {
    clock: u32,
    lines: &'l Lines<'a, A>,
}

impl<A: Allocator + Copy> Rows<A> for KeyRows<'_, '_, A> {
    ghost use Rattle.std.specs.Prelude.{map};
    ghost use Rattle.krb_show.specs.KeytabView.{key_row};

    ghost rows = { λ rows. map (key_row rows.clock) rows.lines.now.entries };

    fn widened(&self, alloc: A, column: usize, least: usize) -> Result<usize, NoMemory> {
        let clock = self.clock;
        let mut width = least;
        let mut cell = Vec::new(alloc);
        'lines: for (key, line) in self.lines {
            let row = KeyRow { clock, key, line };
            width = widened_by(alloc, column, width, &row, &mut cell)?;
        }
        Ok(width)
    }

    fn append_lines(
        &self,
        alloc: A,
        widths: &[usize],
        out: &mut Vec<u8, A>,
    ) -> Result<(), NoMemory> {
        let clock = self.clock;
        'lines: for (key, line) in self.lines {
            append_line(alloc, widths, &KeyRow { clock, key, line }, out)?;
        }
        Ok(())
    }
}

/// Appends what is shown of a keytab: a heading with the file's name and what is said of it and of its `mode`, a table of
/// its principals' keys as they are at the second `now`, and the line of the fault if the keytab is damaged.
pub fn append_keytab_view<A: Allocator + Copy, B: Allocator>(
    alloc: A,
    name: &[u8],
    now: u32,
    mode: Option<u32>,
    keytab: &Keytab<B>,
    out: &mut Vec<u8, A>,
) -> Result<(), NoMemory>
    ensures { OnOk result (out.new.items ≡ out.old.items ++ keytab_view name.now now mode keytab.now.state) }
{
    let (lines, count, tally) = lines_of(alloc, keytab)?;
    append_heading(name, count, name_count(&lines)?, tally, mode, out)?;
    let rows = KeyRows {
        clock: now,
        lines: &lines,
    };
    append_table(alloc, &TITLES, lines.len(), &rows, out)?;
    append_fault_line(keytab.fault(), out)
}
