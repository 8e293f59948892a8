//! The lines of a keytab's table: one for each name and version.

ghost use Rattle.std.specs.Prelude.{[], ◌≡◌, ◌+◌, ◌++◌, ◌∷◌, List, IfOk, OnOk, Some, length};
ghost use Rattle.krb_wire.specs.Names.{name_text};
ghost use Rattle.krb_keytab.specs.Entry.{entry_at};
ghost use Rattle.krb_keytab.specs.Find.{PlacedEntry, placed_entries};
ghost use Rattle.krb_keytab.specs.Store.{KeytabState};
ghost use Rattle.krb_audit.specs.Tally.{tally_of};
ghost use Rattle.krb_show.specs.KeytabView.{grown, lines_of, put_entry};
ghost use Rattle.krb_show.specs.Lines.{AreSoFar};

use krb_audit::{Ranks, Tally};
use krb_keytab::{EntryView, Keytab, KtCell, read_entry};
use krb_wire::{KtFormat, NoMemory, write_name};
use std::alloc::Allocator;
use std::cmp::Reverse;
use std::collections::BTreeMap;
use std::marker::Model;

/// Where a line is in the table: the number of its name's first entry, whether it is old, and its kvno, the greatest
/// first.
pub type LineKey = (u32, bool, Reverse<u32>);

/// Entries of a name and version.
#[derive(Drop)]
pub struct Line<'a, A: Allocator> {
    // The record of one with the name.
    record: &'a [u8],
    format: KtFormat,
    /// Their latest time.
    pub added: u32,
    pub etypes: Vec<u16, A>,
}

impl<'a, A: Allocator> Model for Line<'a, A> {
    ghost use Rattle.krb_show.specs.KeytabView.{LineParts};
    ghost use Rattle.krb_show.specs.Named.{principal_in};

    ghost Value = { LineParts };

    ghost view = { λ l. record { principal = principal_in l.format l.record.now; added = l.added; etypes = l.etypes.items } };
}

/// The lines of a table, in order.
pub type Lines<'a, A> = BTreeMap<LineKey, Line<'a, A>, A>;

impl<'a, A: Allocator> Line<'a, A> {
    ghost use Rattle.std.specs.Prelude.{[]};
    ghost use Rattle.krb_show.specs.Named.{principal_in};

    // Returns a line for the name of a record, without an entry.
    fn of(alloc: A, format: KtFormat, bytes: &'a [u8]) -> Line<'a, A>
        ensures { result ≡ record { principal = principal_in format bytes.now; added = 0; etypes = [] } }
    {
        Line {
            record: bytes,
            format,
            added: 0,
            etypes: Vec::new(alloc),
        }
    }

    fn add(&mut self, timestamp: u32, etype: u16) -> Result<(), NoMemory>
        ensures { OnOk result (self.new ≡ grown self.old timestamp etype) }
    {
        self.added = self.added.max(timestamp);
        self.etypes.push(etype)?;
        Ok(())
    }

    pub fn append_name<B: Allocator>(&self, out: &mut Vec<u8, B>) -> Result<(), NoMemory>
        ensures { OnOk result (out.new.items ≡ out.old.items ++ name_text self.now.principal) }
    {
        // The record was read before.
        let Some(entry) = read_entry(self.format, self.record) else {
            return Err(NoMemory);
        };
        write_name(entry.principal(), out)
    }
}

// Adds an entry to the line with its key, or to one that is begun for its name.
fn put_entry<'a, A: Allocator + Copy>(
    key: LineKey,
    begun: Line<'a, A>,
    entry: &EntryView<'_>,
    lines: &mut Lines<'a, A>,
) -> Result<(), NoMemory>
    ensures { begun.entry ≡ record { principal = entry.now.principal; added = 0; etypes = [] }
        → OnOk result (lines.new.entries ≡ put_entry key entry.now lines.old.entries) }
{
    let (timestamp, etype) = (entry.timestamp(), entry.enctype());
    lines.entry(key)?.or_insert(begun).add(timestamp, etype)?;
    Ok(())
}

/// Returns a count of entries or lines with one more.
pub fn one_more(count: usize) -> Result<usize, NoMemory>
    ensures { IfOk result (λ more. more ≡ count + 1) }
{
    count.checked_add(1).ok_or(NoMemory)
}

// The lines and the numbers of the entries so far, and the ranks of those to come.
#[derive(Drop)]
struct SoFar<'a, A: Allocator> {
    ranks: Ranks<A>,
    tally: Tally,
    lines: Lines<'a, A>,
}

impl<'a, A: Allocator + Copy> SoFar<'a, A> {
    // Returns what is known before the first entry.
    fn of<B: Allocator>(alloc: A, keytab: &Keytab<B>) -> Result<SoFar<'a, A>, NoMemory>
        ensures { IfOk result (AreSoFar keytab.now.state (placed_entries keytab.now.state)) }
    {
        Ok(SoFar {
            ranks: Ranks::of(alloc, keytab)?,
            tally: Tally::none(),
            lines: BTreeMap::new(alloc),
        })
    }

    fn add(&mut self, alloc: A, format: KtFormat, record: &'a [u8]) -> Result<(), NoMemory>
        ensures { (k : KeytabState) (rest : List PlacedEntry) (x : PlacedEntry) → entry_at format record.now ≡ Some x.1
            → AreSoFar k (x ∷ rest) self.old → OnOk result (AreSoFar k rest self.new) }
    {
        let Some(entry) = read_entry(format, record) else {
            return Ok(());
        };
        let rank = self.ranks.take();
        self.tally.add(rank, entry.enctype())?;
        let key = (rank.first, rank.is_old, Reverse(entry.kvno()));
        put_entry(
            key,
            Line::of(alloc, format, record),
            &entry,
            &mut self.lines,
        )
    }
}

/// Returns the lines of a keytab's entries, how many entries it has, and the numbers of weak and old ones.
pub fn lines_of<'a, A: Allocator + Copy, B: Allocator>(
    alloc: A,
    keytab: &'a Keytab<B>,
) -> Result<(Lines<'a, A>, usize, Tally), NoMemory>
    ensures lines { IfOk result (λ made. made.0.entries ≡ lines_of (placed_entries keytab.now.state)) }
    ensures count { IfOk result (λ made. made.1 ≡ length (placed_entries keytab.now.state)) }
    ensures tally { IfOk result (λ made. made.2 ≡ tally_of keytab.now.state) }
{
    let mut so_far = SoFar::of(alloc, keytab)?;
    let count = so_far.ranks.len();
    let format = keytab.format();
    for (_place, cell) in keytab.cells() {
        if let KtCell::Live(record) = cell {
            so_far.add(alloc, format, record)?;
        }
    }
    Ok((so_far.lines, count, so_far.tally))
}
