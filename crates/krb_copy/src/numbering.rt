//! Entries of two lists, with the numbers of their classes of twins.

ghost use Rattle.std.specs.Prelude.{◌≡◌, ◌∷◌, ◌++◌, [], List, map, IfOk};
ghost use Rattle.krb_keytab.specs.Find.{PlacedEntry};
ghost use Rattle.krb_copy.specs.DiffRows.{IsNumbering, row_due, rows_due, shown};
ghost use Rattle.krb_copy.specs.Texts.{AreTexts, name_texts};

use crate::classes::{ClassKey, class_key};
use crate::texts::TextsLeft;
use krb_keytab::EntryView;
use krb_names::number_of;
use krb_wire::NoMemory;
use std::alloc::Allocator;
use std::collections::BTreeMap;

/// An entry, its place, the number of its class, and whether it is the first of that.
#[derive(Clone, Copy)]
pub struct Row<'t> {
    pub number: u32,
    pub is_first: bool,
    pub place: u32,
    pub entry: &'t EntryView<'t>,
}

/// The numbers of the classes so far: those of their first entries, which are numbered from 0.
#[derive(Drop)]
pub struct Numbering<'t, A: Allocator> {
    // The names of the entries that are still to come.
    texts: TextsLeft<'t>,
    numbers: BTreeMap<ClassKey<'t>, u32, A>,
    // How many entries there are so far.
    count: u32,
}

impl<'t, A: Allocator + Copy> Numbering<'t, A> {
    /// Returns that before the first entry. The texts are the names of all.
    pub fn new(alloc: A, texts: TextsLeft<'t>) -> Numbering<'t, A>
        ensures { (all : List PlacedEntry) → AreTexts (name_texts all) texts.entry.bytes.now texts.entry.lens.now
            → IsNumbering all [] all result }
    {
        Numbering {
            texts,
            numbers: BTreeMap::new(alloc),
            count: 0,
        }
    }

    /// Returns how many entries there are so far.
    pub fn count(&self) -> u32
        ensures { result ≡ self.now.count }
    {
        self.count
    }

    // Returns the row of the next entry.
    fn row(&mut self, place: u32, entry: &'t EntryView<'t>) -> Result<Row<'t>, NoMemory>
        ensures { (all before rest : List PlacedEntry) → IsNumbering all before ((place, entry.now) ∷ rest) self.old
            → IfOk result (λ row. (shown row ≡ row_due all before (place, entry.now))
            × IsNumbering all (before ++ (place, entry.now) ∷ []) rest self.new) }
    {
        let key = class_key(self.texts.next(), &entry.fields());
        let next = self.count;
        let Some(count) = next.checked_add(1) else {
            return Err(NoMemory);
        };
        let number = number_of(&mut self.numbers, key, next)?;
        self.count = count;
        Ok(Row {
            number,
            is_first: number == next,
            place,
            entry,
        })
    }

    /// Returns the rows of the next entries.
    pub fn rows(
        &mut self,
        alloc: A,
        entries: &'t [(u32, EntryView<'t>)],
    ) -> Result<Vec<Row<'t>, A>, NoMemory>
        ensures { (all before rest : List PlacedEntry) → IsNumbering all before (entries.now ++ rest) self.old
            → IfOk result (λ rows. (map shown rows.items ≡ rows_due all before entries.now)
            × IsNumbering all (before ++ entries.now) rest self.new) }
    {
        let mut rows = Vec::with_capacity(alloc, entries.len())?;
        'entries: for (place, entry) in entries {
            rows.push(self.row(*place, entry)?)?;
        }
        Ok(rows)
    }
}
