//! How many entries and names have the findings of which the view for people counts.

ghost use Rattle.std.specs.Prelude.{◌≡◌, ◌+◌, ◌∷◌, ◌++◌, [], List, IfOk, OnOk, if◌then◌else◌};
ghost use Rattle.krb_keytab.specs.Find.{PlacedEntry, placed_entries};
ghost use Rattle.krb_keytab.specs.Store.{KeytabState};
ghost use Rattle.krb_audit.specs.Ranks.{rank_of, shown_rank};
ghost use Rattle.krb_audit.specs.Tally.{IsTallied};

use crate::ranks::Rank;
use krb_text::is_weak;
use krb_wire::NoMemory;

/// The numbers of weak and of old entries, and of the names that have weak keys alone.
#[derive(Clone, Copy, Debug, PartialEq, Eq)]
pub struct Tally {
    pub weak_entries: usize,
    pub old_entries: usize,
    pub weak_names: usize,
}

// Returns a count, with one more if that holds.
fn one_more_if(holds: bool, count: usize) -> Result<usize, NoMemory>
    ensures { IfOk result (λ n. n ≡ count + (if holds then 1 else 0)) }
{
    count.checked_add(usize::from(holds)).ok_or(NoMemory)
}

impl Tally {
    /// Returns that before the first entry.
    pub fn none() -> Tally
        ensures { (k : KeytabState) → IsTallied k [] (placed_entries k) result }
    {
        Tally {
            weak_entries: 0,
            old_entries: 0,
            weak_names: 0,
        }
    }

    /// Counts the next entry, which has that rank and encryption type.
    pub fn add(&mut self, rank: Rank, etype: u16) -> Result<(), NoMemory>
        ensures { (k : KeytabState) (before rest : List PlacedEntry) (x : PlacedEntry)
            → shown_rank rank ≡ rank_of (placed_entries k) before x → etype ≡ x.1.enctype
            → IsTallied k before (x ∷ rest) self.old → OnOk result (IsTallied k (before ++ x ∷ []) rest self.new) }
    {
        self.weak_entries = one_more_if(is_weak(etype), self.weak_entries)?;
        self.old_entries = one_more_if(rank.is_old, self.old_entries)?;
        self.weak_names = one_more_if(rank.is_first & rank.lacks_strong, self.weak_names)?;
        Ok(())
    }
}
