//! Which keys two keytabs do not share.

ghost use Rattle.std.specs.Prelude.{◌≡◌, ◌∷◌, ◌++◌, ◌||◌, ◌<◌, [], ℕ, List, Some, None, OnOk, IfOk, false, length};
ghost use Rattle.std.specs.Prelude.{codes, fold, get_or, if◌then◌else◌, map, slice_set, true};
ghost use Rattle.std.specs.List.{All, flat_map};
ghost use Rattle.krb_keytab.specs.Find.{PlacedEntry};
ghost use Rattle.krb_keytab_text.specs.Listing.{placed_line};
ghost use Rattle.krb_copy.specs.Diff.{diff_text};
ghost use Rattle.krb_copy.specs.DiffRows.{AreKeys, first_place, has_key, lacks, marked, row_line, rows_due, shown};

use crate::numbering::{Numbering, Row};
use crate::texts::Texts;
use krb_keytab::EntryView;
use krb_keytab_text::append_placed;
use krb_text::append_labelled;
use krb_wire::NoMemory;
use std::alloc::Allocator;
use std::collections::BTreeSet;

/// The keys of rows, by the numbers of their classes.
#[derive(Drop)]
struct Keys<'t, A: Allocator> {
    // The place and the key of the first row of each class.
    firsts: Vec<Option<(u32, &'t [u8])>, A>,
    // The other keys, with the numbers of their classes.
    more: BTreeSet<(u32, &'t [u8]), A>,
}

// Sets what a list has of a class.
#[tactic(auto, using(std::proofs::lemmas::List::set_past))]
fn set_at<T: Copy, A: Allocator>(list: &mut Vec<T, A>, number: u32, value: T)
    ensures { list.new.items ≡ slice_set list.old.items number value }
{
    if (number as usize) < list.len() {
        list[number as usize] = value;
    }
}

impl<'t, A: Allocator + Copy> Keys<'t, A> {
    // Returns the place and the key of the first row of a class.
    fn first(&self, number: u32) -> Option<(u32, &'t [u8])>
        ensures { result ≡ get_or self.now.firsts.items number None }
    {
        self.firsts.get(number as usize).copied().unwrap_or(None)
    }

    // Adds the next row.
    fn push(&mut self, row: &Row<'t>) -> Result<(), NoMemory>
        ensures keys { (rows : List Row) → row.now.number < length self.old.firsts.items → AreKeys rows self.old
            → OnOk result (AreKeys (rows ++ row.now ∷ []) self.new) }
        ensures len { OnOk result (length self.new.firsts.items ≡ length self.old.firsts.items) }
    {
        let key = row.entry.key();
        match self.first(row.number) {
            None => set_at(&mut self.firsts, row.number, Some((row.place, key))),
            Some((_place, first)) => {
                if first != key {
                    self.more.insert((row.number, key))?;
                }
            }
        }
        Ok(())
    }

    // Returns those of rows whose numbers are below `len`.
    fn of(alloc: A, len: usize, rows: &[Row<'t>]) -> Result<Keys<'t, A>, NoMemory>
        ensures { All (λ r. r.number < len) rows.now → IfOk result (AreKeys rows.now) }
    {
        let mut firsts = Vec::new(alloc);
        firsts.resize(len, None)?;
        let mut keys = Keys {
            firsts,
            more: BTreeSet::new(alloc),
        };
        'rows: for row in rows {
            keys.push(row)?;
        }
        Ok(keys)
    }

    // Returns whether a class has a key.
    fn has(&self, number: u32, key: &'t [u8]) -> bool
        ensures { result ≡ has_key self.now number key.now }
    {
        self.first(number).is_some_and(|first| key == first.1) || self.more.contains(&(number, key))
    }

    // Returns the first place of a class.
    fn first_place(&self, number: u32) -> Option<u32>
        ensures { result ≡ first_place self.now number }
    {
        Some(self.first(number)?.0)
    }
}

// Returns whether a class is marked.
fn is_marked(marks: &[bool], number: u32) -> bool
    ensures { result ≡ get_or marks.now number false }
{
    marks.get(number as usize).copied().unwrap_or(false)
}

// Marks the class of a row, unless its key is among the keys.
fn mark_row<'t, A: Allocator, B: Allocator + Copy>(
    marks: &mut Vec<bool, A>,
    row: &Row<'t>,
    keys: &Keys<'t, B>,
)
    ensures { marks.new.items ≡ marked keys.now marks.old.items row.now }
{
    // What is marked needs no look.
    if !is_marked(marks, row.number) && !keys.has(row.number, row.entry.key()) {
        set_at(marks, row.number, true);
    }
}

// Marks the classes that have a row whose key is not among the keys.
fn mark<'t, A: Allocator, B: Allocator + Copy>(
    marks: &mut Vec<bool, A>,
    rows: &[Row<'t>],
    keys: &Keys<'t, B>,
)
    ensures { marks.new.items ≡ fold (marked keys.now) marks.old.items rows.now }
{
    'rows: for row in rows {
        mark_row(marks, row, keys);
    }
}

// Returns for each class below `len` whether its keys differ.
fn marks_of<'t, A: Allocator + Copy>(
    alloc: A,
    len: usize,
    ours: &[Row<'t>],
    others: &[Row<'t>],
    our_keys: &Keys<'t, A>,
    other_keys: &Keys<'t, A>,
) -> Result<Vec<bool, A>, NoMemory>
    ensures { All (λ r. r.number < len) ours.now → All (λ r. r.number < len) others.now
        → IfOk result (λ marks. (n : ℕ) → get_or marks.items n false
        ≡ (lacks other_keys.now n ours.now || lacks our_keys.now n others.now)) }
{
    let mut marks = Vec::new(alloc);
    marks.resize(len, false)?;
    mark(&mut marks, ours, other_keys);
    mark(&mut marks, others, our_keys);
    Ok(marks)
}

// Appends the line of a first row of ours, by the first place of its class in the others, if they have some.
fn append_row<A: Allocator>(
    row: &Row<'_>,
    differ: bool,
    twin: Option<u32>,
    out: &mut Vec<u8, A>,
) -> Result<(), NoMemory>
    ensures { OnOk result (out.new.items ≡ out.old.items ++ row_line (row.now.place, row.now.entry.now) differ twin) }
{
    match twin {
        None => append_placed(b"- ", row.place, row.entry, out),
        Some(place) if differ => {
            append_labelled(b"! ", row.place, out)?;
            append_placed(b" ", place, row.entry, out)
        }
        Some(_) => Ok(()),
    }
}

// Appends the lines of our classes, by the keys of the others.
fn append_ours<A: Allocator + Copy>(
    rows: &[Row<'_>],
    marks: &[bool],
    others: &Keys<'_, A>,
    out: &mut Vec<u8, A>,
) -> Result<(), NoMemory>
    ensures { OnOk result (out.new.items ≡ out.old.items ++ flat_map (λ r. if r.is_first
        then row_line (r.place, r.entry.now) (get_or marks.now r.number false) (first_place others.now r.number)
        else []) rows.now) }
{
    'rows: for row in rows {
        if row.is_first {
            let differ = is_marked(marks, row.number);
            append_row(row, differ, others.first_place(row.number), out)?;
        }
    }
    Ok(())
}

// Appends the lines of the classes of others alone.
fn append_others<A: Allocator>(rows: &[Row<'_>], out: &mut Vec<u8, A>) -> Result<(), NoMemory>
    ensures { OnOk result (out.new.items ≡ out.old.items
        ++ flat_map (λ r. if r.is_first then placed_line (codes "+ ") (r.place, r.entry.now) else []) rows.now) }
{
    'rows: for row in rows {
        if row.is_first {
            append_placed(b"+ ", row.place, row.entry, out)?;
        }
    }
    Ok(())
}

// Returns the lines, by the rows of both.
fn text_of<'t, A: Allocator + Copy>(
    alloc: A,
    len: usize,
    ours: &[Row<'t>],
    others: &[Row<'t>],
) -> Result<Vec<u8, A>, NoMemory>
    ensures { (xs ys : List PlacedEntry) → len ≡ length (xs ++ ys) → map shown ours.now ≡ rows_due (xs ++ ys) [] xs
        → map shown others.now ≡ rows_due (xs ++ ys) xs ys → IfOk result (λ text. text.items ≡ diff_text xs ys) }
{
    let our_keys = Keys::of(alloc, len, ours)?;
    let other_keys = Keys::of(alloc, len, others)?;
    let marks = marks_of(alloc, len, ours, others, &our_keys, &other_keys)?;
    let mut out = Vec::new(alloc);
    append_ours(ours, &marks, &other_keys, &mut out)?;
    append_others(others, &mut out)?;
    Ok(out)
}

/// Returns a line for each name, kvno and enctype whose keys differ, in the order of first entries: `-` if ours alone
/// have it, `+` if the others alone do, `!` if both do, with other keys. Takes time n log n in the bytes of both.
pub fn diff_text<A: Allocator + Copy>(
    alloc: A,
    ours: &[(u32, EntryView<'_>)],
    others: &[(u32, EntryView<'_>)],
) -> Result<Vec<u8, A>, NoMemory>
    ensures { IfOk result (λ text. text.items ≡ diff_text ours.now others.now) }
{
    let texts = Texts::of_both(alloc, ours, others)?;
    let mut numbering = Numbering::new(alloc, texts.left());
    let our_rows = numbering.rows(alloc, &*ours)?;
    let other_rows = numbering.rows(alloc, &*others)?;
    text_of(alloc, numbering.count() as usize, &our_rows, &other_rows)
}
