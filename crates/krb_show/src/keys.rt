//! The rows of keys.

ghost use Rattle.std.specs.Prelude.{◌≡◌, ◌++◌, IfOk, OnOk, true};
ghost use Rattle.krb_show.specs.KeytabView.{distinct, keys_cell, more_types, spaced};

use crate::ago::append_time;
use crate::columns::Row;
use crate::etypes::append_etype;
use crate::lines::{Line, LineKey};
use itoa::Buffer;
use krb_text::{append, append_labelled};
use krb_wire::NoMemory;
use std::alloc::Allocator;
use std::collections::BTreeSet;

// At most this many types are shown.
const MAX_SHOWN: usize = 8;

// Returns each number once, where it comes first.
#[tactic(auto, unfolding(crate::specs::KeytabView::distinct))]
fn distinct<A: Allocator + Copy>(alloc: A, numbers: &[u16]) -> Result<Vec<u16, A>, NoMemory>
    ensures { IfOk result (λ each. each.items ≡ distinct numbers.now) }
{
    let mut seen = BTreeSet::new(alloc);
    let mut each = Vec::new(alloc);
    'numbers: for number in numbers {
        if seen.insert(*number)? {
            each.push(*number)?;
        }
    }
    Ok(each)
}

// Appends enctypes with blanks between them.
fn append_etypes<A: Allocator>(etypes: &[u16], out: &mut Vec<u8, A>) -> Result<(), NoMemory>
    ensures { OnOk result (out.new.items ≡ out.old.items ++ spaced true etypes.now) }
{
    let mut is_first = true;
    'etypes: for etype in etypes {
        append(if is_first { b"" } else { b" " }, out)?;
        append_etype(*etype, out)?;
        is_first = false;
    }
    Ok(())
}

// Appends how many types more than are shown there are.
fn append_more<A: Allocator>(count: usize, out: &mut Vec<u8, A>) -> Result<(), NoMemory>
    ensures { OnOk result (out.new.items ≡ out.old.items ++ more_types count) }
{
    if count == 0 {
        return Ok(());
    }
    append(b" and ", out)?;
    append(Buffer::new().format(count).as_bytes(), out)?;
    append(b" more", out)
}

#[tactic(auto, unfolding(crate::specs::KeytabView::keys_cell))]
fn append_keys<A: Allocator + Copy>(
    alloc: A,
    is_old: bool,
    etypes: &[u16],
    out: &mut Vec<u8, A>,
) -> Result<(), NoMemory>
    ensures { OnOk result (out.new.items ≡ out.old.items ++ keys_cell is_old etypes.now) }
{
    let each = distinct(alloc, etypes)?;
    let shown = each.len().min(MAX_SHOWN);
    append_etypes(&each[..shown], out)?;
    append_more(each.len() - shown, out)?;
    if is_old {
        return append(b" old", out);
    }
    Ok(())
}

/// The row of a line at a second.
#[derive(Drop)]
pub struct KeyRow<'l, 'a, A: Allocator> {
    pub clock: u32,
    pub key: &'l LineKey,
    pub line: &'l Line<'a, A>,
}

impl<A: Allocator + Copy> Row<A> for KeyRow<'_, '_, A> {
    ghost use Rattle.krb_show.specs.KeytabView.{key_row};

    ghost cells = { λ row. key_row row.clock (row.key.now, row.line.now) };

    fn cell_count(&self) -> usize {
        4
    }

    fn append_cell(&self, alloc: A, column: usize, out: &mut Vec<u8, A>) -> Result<(), NoMemory> {
        let line = self.line;
        match column {
            0 => append_labelled(b"", self.key.2.0, out),
            1 => append_time(self.clock, line.added, out),
            2 => append_keys(alloc, self.key.1, &line.etypes, out),
            3 => line.append_name(out),
            _ => Ok(()),
        }
    }
}
