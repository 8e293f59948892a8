//! The names whose newest kvno has a young entry.

ghost use Rattle.std.specs.Prelude.{◌≡◌, List, IfOk};
ghost use Rattle.krb_keytab.specs.Find.{PlacedEntry};
ghost use Rattle.krb_audit.specs.Rows.{AreRows, stamped};
ghost use Rattle.krb_audit.specs.Selection.{is_young};
ghost use Rattle.krb_audit.specs.Standings.{AreNewest, AreYoung, AreYoungOf};

use crate::by_name::{Kept, by_name};
use crate::newest::{Stamp, is_old};
use crate::rows::Row;
use crate::selection::SelectedKvno;
use krb_wire::NoMemory;
use std::alloc::Allocator;

// Returns whether an entry with that stamp may be less than `seconds` old. A time of 0 says nothing of when.
fn is_young(now: u32, seconds: u32, stamp: Stamp) -> bool
    ensures { result ≡ is_young now seconds (stamped stamp) }
{
    let timestamp = stamp.timestamp;
    timestamp == 0 || u64::from(now) < u64::from(timestamp) + u64::from(seconds)
}

// Keeps of each name whether an entry of its newest kvno may be less than `seconds` old.
#[derive(Clone, Copy)]
struct Young<'n> {
    newest: &'n [Option<Stamp>],
    now: u32,
    seconds: u32,
}

impl Kept for Young<'_> {
    ghost use Rattle.std.specs.Prelude.{◌||◌};
    ghost use Rattle.krb_audit.specs.Standings.{is_young_row};

    type Value = bool;

    ghost step = { λ y has_young r. has_young || is_young_row y.now y.seconds y.newest.now r };

    fn step(&self, has_young: bool, row: Row) -> bool {
        has_young || is_young(self.now, self.seconds, row.stamp) && !is_old(self.newest, row)
    }
}

// Returns for each name, at the number of its first entry, whether its newest version may be younger than the age, if one
// is given.
fn young_for<A: Allocator + Copy>(
    alloc: A,
    rows: &[Row],
    newest: &[Option<Stamp>],
    now: u32,
    age: Option<u32>,
) -> Result<Vec<bool, A>, NoMemory>
    ensures { (all xs : List PlacedEntry) → AreRows all xs rows.now → AreNewest all xs newest.now
        → IfOk result (λ young. AreYoungOf age now all xs young.items) }
{
    let Some(seconds) = age else {
        return Ok(Vec::new(alloc));
    };
    let young = Young {
        newest,
        now,
        seconds,
    };
    Ok(by_name(alloc, rows, false, &young)?)
}

/// Returns that list if `kvno` asks for it.
pub fn young_names<A: Allocator + Copy>(
    alloc: A,
    rows: &[Row],
    newest: &[Option<Stamp>],
    kvno: SelectedKvno,
    now: u32,
) -> Result<Vec<bool, A>, NoMemory>
    ensures { (all xs : List PlacedEntry) → AreRows all xs rows.now → AreNewest all xs newest.now
        → IfOk result (λ young. AreYoung kvno now all xs young.items) }
{
    match kvno {
        SelectedKvno::Beyond(_, age) => young_for(alloc, rows, newest, now, age),
        _ => Ok(Vec::new(alloc)),
    }
}
