//! What is left without the newest kvnos of each name.

ghost use Rattle.std.specs.Prelude.{◌≡◌, List, IfOk, filter};
ghost use Rattle.krb_keytab.specs.Find.{PlacedEntry};
ghost use Rattle.krb_audit.specs.Newest.{left_after};
ghost use Rattle.krb_audit.specs.Rows.{AreRows};
ghost use Rattle.krb_audit.specs.Standings.{is_old_row};

use crate::newest::{Stamp, is_old, newest_stamps};
use crate::rows::Row;
use krb_wire::NoMemory;
use std::alloc::Allocator;

// Removes the rows of the newest kvno of each name.
fn remove_newest<A: Allocator>(newest: &[Option<Stamp>], rows: &mut Vec<Row, A>)
    ensures { rows.new.items ≡ filter (is_old_row newest.now) rows.old.items }
{
    rows.retain(|row| is_old(newest, *row));
}

/// Returns those rows that are left of these without the `kvnos` newest kvnos of each name. Takes a pass for each kvno.
pub fn left_after<A: Allocator + Copy>(
    alloc: A,
    rows: &[Row],
    kvnos: u8,
) -> Result<Vec<Row, A>, NoMemory>
    ensures { (xs : List PlacedEntry) → AreRows xs xs rows.now → IfOk result (λ left. AreRows xs (left_after kvnos xs) left.items) }
{
    let mut left = rows.to_vec(alloc)?;
    'kvnos: for _kvno in 0..kvnos {
        let newest = newest_stamps(alloc, &left)?;
        remove_newest(&newest, &mut left);
    }
    Ok(left)
}
