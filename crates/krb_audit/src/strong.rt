//! The names whose newest kvno has an entry with a strong encryption type.

ghost use Rattle.std.specs.Prelude.{List, IfOk};
ghost use Rattle.krb_keytab.specs.Find.{PlacedEntry};
ghost use Rattle.krb_audit.specs.Rows.{AreRows};
ghost use Rattle.krb_audit.specs.Standings.{AreNewest, AreStrong};

use crate::by_name::{Kept, by_name};
use crate::newest::{Stamp, is_old};
use crate::rows::Row;
use krb_wire::NoMemory;
use std::alloc::Allocator;

// Keeps of each name whether an entry of its newest kvno has a strong encryption type.
#[derive(Clone, Copy)]
struct Strong<'n> {
    newest: &'n [Option<Stamp>],
}

impl Kept for Strong<'_> {
    ghost use Rattle.std.specs.Prelude.{◌||◌};
    ghost use Rattle.krb_audit.specs.Standings.{is_strong_row};

    type Value = bool;

    ghost step = { λ s has_strong r. has_strong || is_strong_row s.newest.now r };

    fn step(&self, has_strong: bool, row: Row) -> bool {
        has_strong || !row.is_weak && !is_old(self.newest, row)
    }
}

/// Returns for each name, at the number of its first entry, whether its newest kvno has such an entry.
pub fn strong_names<A: Allocator + Copy>(
    alloc: A,
    rows: &[Row],
    newest: &[Option<Stamp>],
) -> Result<Vec<bool, A>, NoMemory>
    ensures { (xs : List PlacedEntry) → AreRows xs xs rows.now → AreNewest xs xs newest.now
        → IfOk result (λ strong. AreStrong xs strong.items) }
{
    Ok(by_name(alloc, rows, false, &Strong { newest })?)
}
