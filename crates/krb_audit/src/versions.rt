//! The selected kvnos, for a pass over the entries of a keytab.

ghost use Rattle.std.specs.Prelude.{◌≡◌, ◌∷◌, ℕ, List, IfOk, false, filter, get_or, map};
ghost use Rattle.krb_keytab.specs.Find.{PlacedEntry, placed_entries};
ghost use Rattle.krb_audit.specs.Selection.{has_selected_kvno};
ghost use Rattle.krb_audit.specs.Standings.{after_next, is_next, more_kept, selected_marks, selects_row};
ghost use Rattle.krb_audit.specs.Versions.{AreVersions};
ghost use Rattle.krb_audit.specs.declared.selection.SelectedKvno.{SelectedKvno};

use crate::left::left_after;
use crate::newest::{Stamp, is_old, newest_stamps};
use crate::rows::{Row, rows_of};
use crate::selection::SelectedKvno;
use crate::young::young_names;
use krb_keytab::Keytab;
use krb_wire::NoMemory;
use std::alloc::Allocator;
use std::vec::IntoIter;

#[derive(Drop)]
pub enum SelectedVersions<A: Allocator> {
    Each,
    This(u32),
    /// Whether that of each entry is.
    Marked(IntoIter<bool, A>),
}

// Returns whether there is a mark at the number of a row's name.
fn is_marked(marks: &[bool], row: Row) -> bool
    ensures { result ≡ get_or marks.now row.first false }
{
    marks.get(row.first as usize).copied().unwrap_or(false)
}

// Returns whether the entry of a row has a selected kvno.
fn selects_row(kvno: SelectedKvno, newest: &[Option<Stamp>], young: &[bool], row: Row) -> bool
    ensures { result ≡ selects_row kvno newest.now young.now row }
{
    match kvno {
        SelectedKvno::Any => true,
        SelectedKvno::Exactly(selected) => row.stamp.kvno == selected,
        SelectedKvno::Newest => !is_old(newest, row),
        SelectedKvno::Beyond(..) => !is_marked(young, row) && is_old(newest, row),
    }
}

// Removes the rows whose entries have no selected kvno.
fn keep_selected<A: Allocator>(
    kvno: SelectedKvno,
    newest: &[Option<Stamp>],
    young: &[bool],
    rows: &mut Vec<Row, A>,
)
    ensures { rows.new.items ≡ filter (selects_row kvno newest.now young.now) rows.old.items }
{
    rows.retain(|row| selects_row(kvno, newest, young, *row));
}

// Returns whether a row has the name and the kvno of the first of those that are selected, and the others if it does.
fn next_selected(selected: &[Row], row: Row) -> (bool, &[Row])
    ensures { (result.0 ≡ is_next selected.now row) × (result.1.now ≡ after_next selected.now row) }
{
    match selected.split_first() {
        Some((next, others)) => {
            let is_next = next.first == row.first && next.stamp.kvno == row.stamp.kvno;
            (is_next, if is_next { others } else { selected })
        }
        None => (false, selected),
    }
}

// Returns for each row whether it is one of those that are selected, which are in the same order.
fn selected_marks<A: Allocator + Copy>(
    alloc: A,
    selected: &[Row],
    rows: &[Row],
) -> Result<Vec<bool, A>, NoMemory>
    ensures { IfOk result (λ marks. marks.items ≡ selected_marks selected.now rows.now) }
{
    let mut marks = Vec::with_capacity(alloc, rows.len())?;
    let mut selected = selected;
    'rows: for row in rows {
        let (is_next, others) = next_selected(selected, *row);
        marks.push(is_next)?;
        selected = others;
    }
    Ok(marks)
}

// Returns how many of the newest kvnos are passed over before the last one that is kept.
fn more_kept(kvno: SelectedKvno) -> u8
    ensures { result ≡ more_kept kvno }
{
    match kvno {
        SelectedKvno::Beyond(keep, _) => keep.saturating_sub(1),
        _ => 0,
    }
}

// Returns for each entry of a keytab whether it has a selected kvno at the second `now`, which matters for old entries
// with an age alone.
fn marks_of<A: Allocator + Copy>(
    alloc: A,
    keytab: &Keytab<A>,
    kvno: SelectedKvno,
    now: u32,
) -> Result<Vec<bool, A>, NoMemory>
    ensures { IfOk result (λ marks. marks.items
        ≡ map (λ x. has_selected_kvno kvno now (placed_entries keytab.now.state) x.1) (placed_entries keytab.now.state)) }
{
    let rows = rows_of(alloc, keytab)?;
    let mut left = left_after(alloc, &rows, more_kept(kvno))?;
    let newest = newest_stamps(alloc, &left)?;
    let young = young_names(alloc, &left, &newest, kvno, now)?;
    keep_selected(kvno, &newest, &young, &mut left);
    Ok(selected_marks(alloc, &left, &rows)?)
}

impl<A: Allocator + Copy> SelectedVersions<A> {
    pub fn of(
        alloc: A,
        keytab: &Keytab<A>,
        kvno: SelectedKvno,
        now: u32,
    ) -> Result<SelectedVersions<A>, NoMemory>
        ensures { IfOk result (AreVersions kvno now (placed_entries keytab.now.state) (placed_entries keytab.now.state)) }
    {
        match kvno {
            SelectedKvno::Any => Ok(SelectedVersions::Each),
            SelectedKvno::Exactly(version) => Ok(SelectedVersions::This(version)),
            _ => {
                let marks = marks_of(alloc, keytab, kvno, now)?;
                Ok(SelectedVersions::Marked(marks.into_iter()))
            }
        }
    }
}

impl<A: Allocator> SelectedVersions<A> {
    /// Returns whether the next entry, whose kvno is `version`, has a selected kvno.
    pub fn next(&mut self, version: u32) -> bool
        ensures { (kvno : SelectedKvno) (now : ℕ) (all rest : List PlacedEntry) (x : PlacedEntry)
            → AreVersions kvno now all (x ∷ rest) self.old → x.1.version ≡ version
            → (result ≡ has_selected_kvno kvno now all x.1) × AreVersions kvno now all rest self.new }
    {
        match self {
            SelectedVersions::Each => true,
            SelectedVersions::This(selected) => version == *selected,
            SelectedVersions::Marked(marks) => marks.next().unwrap_or(false),
        }
    }
}
