//! Counts the entries and holes of a keytab.

ghost use Rattle.std.specs.Prelude.{◌≡◌, ◌+◌, length, sum_by};
ghost use Rattle.krb_keytab.specs.Cells.{size};
ghost use Rattle.krb_keytab.specs.Find.{placed_entries};
ghost use Rattle.krb_audit.specs.CheckUp.{counts_of, holes};

use krb_keytab::{Keytab, KtCell};
use std::alloc::Allocator;

/// How many entries and holes a keytab has, and how many bytes the holes have in all without their lengths.
#[derive(Clone, Copy, Debug, PartialEq, Eq)]
pub struct Counts {
    pub entries: u32,
    pub free: u32,
    pub holes: u32,
}

/// The number of holes, and their total size.
#[derive(Clone, Copy)]
struct Holes {
    count: u32,
    size: u32,
}

fn count_holes<A: Allocator>(keytab: &Keytab<A>) -> Holes
    ensures count { result.count ≡ length (holes keytab.now.state.contents.cells) }
    ensures size { result.size ≡ sum_by size (holes keytab.now.state.contents.cells) }
{
    let _end = keytab.end();
    let _count = keytab.cell_count();
    let mut holes = Holes { count: 0, size: 0 };
    'cells: for (_, cell) in keytab.cells() {
        if let KtCell::Free(bytes) = cell {
            holes.count += 1;
            holes.size += bytes.len() as u32;
        }
    }
    holes
}

/// Returns the counts of a keytab with this number of entries.
pub(crate) fn counts_of<A: Allocator>(entries: u32, keytab: &Keytab<A>) -> Counts
    requires { entries ≡ length (placed_entries keytab.now.state) }
    ensures { result ≡ counts_of keytab.now.state }
{
    let holes = count_holes(keytab);
    Counts {
        entries,
        free: holes.size,
        holes: holes.count,
    }
}
