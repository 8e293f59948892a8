//! Lists that have a value for each name of a keytab, at the number of its first entry.

ghost use Rattle.std.specs.Prelude.{◌≡◌, ℕ, IfOk, get_or};
ghost use Rattle.std.specs.List.{All, fold};
ghost use Rattle.krb_audit.specs.ByName.{HasPlace, at_number, stepped};

use crate::rows::Row;
use krb_wire::NoMemory;
use std::alloc::Allocator;

/// What is kept of the rows of each name.
pub trait Kept {
    ghost use Rattle.krb_audit.specs.declared.rows.Row.{Row as RowOf};

    type Value: Copy;

    /// The value with one more row.
    ghost step: { Self → Self.Value → RowOf → Self.Value };

    fn step(&self, value: Self::Value, row: Row) -> Self::Value
        ensures { result ≡ step self.now value row };
}

// Returns the length of a list that has a place at the number of each row.
fn numbered_len(rows: &[Row]) -> usize
    ensures { All (HasPlace result) rows.now }
{
    let mut len = 0;
    'rows: for row in rows {
        len = len.max(row.first as usize + 1);
    }
    len
}

// Makes the step of a row at its number.
#[tactic(auto, using(std::proofs::lemmas::List::set_past))]
fn step_at<K: Kept, A: Allocator>(kept: &K, none: K::Value, list: &mut Vec<K::Value, A>, row: Row)
    ensures { list.new.items ≡ stepped (K.step kept.now) none list.old.items row }
{
    let first = row.first as usize;
    if first < list.len() {
        list[first] = kept.step(list[first], row);
    }
}

/// Returns a list that has at each number the steps of the rows of that name, from `none` on.
pub fn by_name<A: Allocator + Copy, K: Kept>(
    alloc: A,
    rows: &[Row],
    none: K::Value,
    kept: &K,
) -> Result<Vec<K::Value, A>, NoMemory>
    ensures { IfOk result (λ list. (i : ℕ) → get_or list.items i none ≡ fold (at_number (K.step kept.now) i) none rows.now) }
{
    let len = numbered_len(rows);
    let mut list = Vec::new(alloc);
    list.resize(len, none)?;
    'rows: for row in rows {
        step_at(kept, none, &mut list, *row);
    }
    Ok(list)
}
