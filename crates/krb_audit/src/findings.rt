//! What is found about the entries of a keytab.

ghost use Rattle.std.specs.Prelude.{◌≡◌, ◌∷◌, ◌++◌, ◌&&◌, [], List, ℕ, length, map, not, option_map, IfOk};
ghost use Rattle.krb_keytab.specs.Find.{PlacedEntry, placed_entries};
ghost use Rattle.krb_keytab.specs.Store.{KeytabState};
ghost use Rattle.krb_audit.specs.Before.{IsBefore, IsMissing};
ghost use Rattle.krb_audit.specs.CheckUp.{missing_among};
ghost use Rattle.krb_audit.specs.Findings.{clashes, has_odd_size, is_aged, marks_of, reported, weak_among};
ghost use Rattle.krb_audit.specs.Ranks.{mapped_after, rank_of};

use crate::check::CheckCriteria;
use crate::doubles::repeats;
use crate::firsts::{Alike, Firsts};
use crate::marks::Marks;
use crate::missing::Missing;
use crate::mit::ends_mit;
use crate::ranks::Ranks;
use crate::weak_etypes::{add_weak, no_weak};
use krb_findings::{Finding, FindingSet, WeakEtypes};
use krb_keytab::{EntryView, Keytab};
use krb_text::{is_weak, key_size};
use krb_wire::NoMemory;
use std::alloc::Allocator;

/// What is known before an entry is checked.
#[derive(Drop)]
struct Before<'a, A: Allocator> {
    ranks: Ranks<A>,
    firsts: Firsts<'a, A>,
    missing: Missing<'a, A>,
    /// True if MIT's programs stop before one of the entries so far.
    has_ended: bool,
    weak_etypes: WeakEtypes,
}

// Returns whether a key is not as long as its enctype's, if that has a length.
fn has_odd_size(entry: &EntryView<'_>) -> bool
    ensures { result ≡ has_odd_size entry.now }
{
    match key_size(entry.enctype()) {
        Some(size) => entry.key().len() != size,
        None => false,
    }
}

// Returns whether an entry, which is old or not, is aged by that second, if one is given: it is not old, and has a time,
// which is at or before that second.
fn is_aged(by: Option<u32>, old: bool, entry: &EntryView<'_>) -> bool
    ensures { result ≡ (not old && is_aged by entry.now) }
{
    match by {
        Some(by) => !old && entry.timestamp() != 0 && entry.timestamp() <= by,
        None => false,
    }
}

// Returns whether an entry that is alike comes before, with another key.
fn clashes(alike: Option<Alike>) -> bool
    ensures { result ≡ clashes alike }
{
    alike.is_some_and(|alike| !alike.has_same_key)
}

fn place_of(alike: Option<Alike>) -> Option<u32>
    ensures { result ≡ option_map (λ first. first.place) alike }
{
    Some(alike?.place)
}

impl<'a, A: Allocator + Copy> Before<'a, A> {
    // Returns what is known before the first entry of a keytab.
    fn first(alloc: A, ranks: Ranks<A>, missing: Missing<'a, A>) -> Before<'a, A>
        ensures { (k : KeytabState) (wanted : List (List ℕ)) → ranks ≡ mapped_after (rank_of (placed_entries k)) [] (placed_entries k)
            → IsMissing wanted [] missing.entry
            → IsBefore k wanted [] (placed_entries k) result }
    {
        Before {
            ranks,
            firsts: Firsts::new(alloc),
            missing,
            has_ended: false,
            weak_etypes: no_weak(),
        }
    }

    // Returns what is found about the next entry, and adds the entry to those before the next.
    fn marks<B: Allocator>(
        &mut self,
        asked: &CheckCriteria<'_, B>,
        place: u32,
        entry: &EntryView<'a>,
    ) -> Result<Marks, NoMemory>
        ensures { (k : KeytabState) (before rest : List PlacedEntry)
            → IsBefore k asked.now.wanted before ((place, entry.now) ∷ rest) self.old
            → IfOk result (λ marks. (marks ≡ marks_of asked.now k before (place, entry.now))
            × IsBefore k asked.now.wanted (before ++ (place, entry.now) ∷ []) rest self.new) }
    {
        let etype = entry.enctype();
        let ends = ends_mit(entry);
        let hidden = ends & !self.has_ended;
        let rank = self.ranks.take();
        let is_wanted = self.missing.mark_next(entry)?;
        let alike = self.firsts.next(rank.first, place, entry)?;
        self.has_ended |= ends;
        add_weak(&mut self.weak_etypes, etype);
        Ok(Marks {
            findings: FindingSet::none()
                .with_if(is_weak(etype), Finding::Weak)
                .with_if(has_odd_size(entry), Finding::Size)
                .with_if(hidden, Finding::Hidden)
                .with_if(repeats(alike), Finding::Same)
                .with_if(clashes(alike), Finding::Clash)
                .with_if(rank.is_old, Finding::Old)
                .with_if(is_aged(asked.aged_by, rank.is_old, entry), Finding::Aged)
                .with_if(rank.is_first & rank.lacks_strong, Finding::Nostrong)
                .with_if(asked.only & (rank.is_first & !is_wanted), Finding::Unwanted),
            first: place_of(alike),
            newest: rank.newest,
        })
    }
}

/// An entry, its place, and what is found about it.
pub type Marked<'k> = ((u32, EntryView<'k>), Marks);

/// What a pass over the entries of a keytab came to.
#[derive(Drop)]
pub(crate) struct Pass<'k, A: Allocator> {
    /// The entries about which, or about whose names, something is found.
    pub entries: Vec<Marked<'k>, A>,
    /// The names that are missing.
    pub missing: Vec<&'k [u8], A>,
    pub weak_etypes: WeakEtypes,
    /// The number of entries.
    pub count: u32,
}

/// Returns what is found about the entries of a keytab.
pub(crate) fn check_entries<'k, A: Allocator + Copy, B: Allocator, C: Allocator>(
    alloc: A,
    asked: &CheckCriteria<'k, B>,
    keytab: &'k Keytab<C>,
) -> Result<Pass<'k, A>, NoMemory>
    ensures entries { IfOk result (λ pass. pass.entries.items ≡ reported asked.now keytab.now.state) }
    ensures missing { IfOk result (λ pass. map (λ t. t.now) pass.missing.items
        ≡ missing_among asked.now.wanted (placed_entries keytab.now.state)) }
    ensures weak_etypes { IfOk result (λ pass. pass.weak_etypes ≡ weak_among (placed_entries keytab.now.state)) }
    ensures count { IfOk result (λ pass. pass.count ≡ length (placed_entries keytab.now.state)) }
{
    let ranks = Ranks::of(alloc, keytab)?;
    // Bounds the number of entries, so that it fits.
    let _few = keytab.cell_count();
    let count = ranks.len() as u32;
    let names = Missing::new(alloc, asked.wanted)?;
    let mut before = Before::first(alloc, ranks, names);
    let mut entries = Vec::new(alloc);
    'entries: for (place, entry) in keytab.entries() {
        let marks = before.marks(asked, place, &entry)?;
        if marks.findings.has_some() {
            entries.push(((place, entry), marks))?;
        }
    }
    let weak_etypes = before.weak_etypes;
    let missing = before.missing.texts(alloc, asked.wanted)?;
    Ok(Pass {
        entries,
        missing,
        weak_etypes,
        count,
    })
}
