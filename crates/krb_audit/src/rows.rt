//! The entries of a keytab with their names numbered.

ghost use Rattle.std.specs.Prelude.{◌≡◌, ◌∷◌, List, IfOk, IfSome, OnOk, Some};
ghost use Rattle.krb_wire.specs.Reading.{Gives};
ghost use Rattle.krb_wire.specs.Spelling.{FitsKt};
ghost use Rattle.krb_keytab.specs.Entry.{entry_at};
ghost use Rattle.krb_keytab.specs.Find.{PlacedEntry, placed_entries};
ghost use Rattle.krb_audit.specs.Names.{kt_name, type_len};
ghost use Rattle.krb_audit.specs.Rows.{AreNumbered, AreRows};

use crate::newest::Stamp;
use krb_keytab::{EntryView, Keytab, KtCell, read_entry};
use krb_names::{hash_of, number_of};
use krb_text::is_weak;
use krb_wire::{KtFormat, NoMemory, split_kt_principal};
use std::alloc::Allocator;
use std::collections::BTreeMap;

/// An entry: the number of the first entry of its name, its stamp, and whether its encryption type is weak. Entries are
/// numbered from 0 in file order.
#[derive(Clone, Copy, Debug)]
pub struct Row {
    pub first: u32,
    pub stamp: Stamp,
    pub is_weak: bool,
}

// Returns the size of a name type in bytes: 0 if the format has none.
fn name_type_len(format: KtFormat) -> usize
    ensures { result ≡ type_len format }
{
    if format.has_name_type() { 4 } else { 0 }
}

// Returns those bytes of a record that encode its entry's name without the name type, and the entry.
fn named_entry(format: KtFormat, bytes: &[u8]) -> Option<(&[u8], EntryView<'_>)>
    ensures entry { Gives (λ x. x.1) result (entry_at format bytes.now) }
    ensures name { IfSome result (λ x. x.0.now ≡ kt_name format x.1.principal) }
    // Names that fit are the same iff these bytes are.
    ensures fits { IfSome result (λ x. FitsKt format x.1.principal) }
{
    let entry = read_entry(format, bytes)?;
    let (_, rest) = split_kt_principal(format, bytes)?;
    let end = bytes.len() - rest.len() - name_type_len(format);
    Some((bytes.split_at(end).0, entry))
}

// The names of the entries so far, each with the number of its first entry, and the rows of the entries.
#[derive(Drop)]
struct Names<'a, A: Allocator> {
    numbers: BTreeMap<(u64, &'a [u8]), u32, A>,
    rows: Vec<Row, A>,
}

impl<'a, A: Allocator + Copy> Names<'a, A> {
    // Adds the entry of the next record.
    fn consider(&mut self, format: KtFormat, bytes: &'a [u8]) -> Result<(), NoMemory>
        ensures { (all rest : List PlacedEntry) (x : PlacedEntry) → entry_at format bytes.now ≡ Some x.1
            → AreNumbered format all (x ∷ rest) self.old → OnOk result (AreNumbered format all rest self.new) }
    {
        let Some((name, entry)) = named_entry(format, bytes) else {
            return Ok(());
        };
        // A keytab has fewer entries than 2 ^ 32.
        let Ok(next) = u32::try_from(self.rows.len()) else {
            return Err(NoMemory);
        };
        let hash = hash_of(name);
        let first = number_of(&mut self.numbers, (hash, name), next)?;
        let stamp = Stamp::of(&entry);
        let is_weak = is_weak(entry.enctype());
        self.rows.push(Row {
            first,
            stamp,
            is_weak,
        })?;
        Ok(())
    }
}

/// Returns the rows of a keytab's entries, in file order.
pub fn rows_of<A: Allocator + Copy, B: Allocator>(
    alloc: A,
    keytab: &Keytab<B>,
) -> Result<Vec<Row, A>, NoMemory>
    ensures { IfOk result (λ rows. AreRows (placed_entries keytab.now.state) (placed_entries keytab.now.state) rows.items) }
{
    let format = keytab.format();
    let mut names = Names {
        numbers: BTreeMap::new(alloc),
        rows: Vec::with_capacity(alloc, keytab.cell_count() as usize)?,
    };
    for (_place, cell) in keytab.cells() {
        if let KtCell::Live(bytes) = cell {
            names.consider(format, bytes)?;
        }
    }
    Ok(names.rows)
}
