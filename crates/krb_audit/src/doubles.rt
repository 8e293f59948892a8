//! Which entries repeat an earlier one, for a pass over the entries of a keytab.

ghost use Rattle.std.specs.Prelude.{◌≡◌, ◌++◌, ◌∷◌, [], Bool, IfOk, List};
ghost use Rattle.krb_keytab.specs.Find.{PlacedEntry, placed_entries};
ghost use Rattle.krb_audit.specs.Before.{AreDoubles, AreSeenKeys};
ghost use Rattle.krb_audit.specs.Findings.{first_alike, repeats};
ghost use Rattle.krb_audit.specs.Selection.{is_same_if};

use crate::firsts::{Alike, Firsts};
use crate::ranks::Ranks;
use krb_keytab::{EntryView, Keytab};
use krb_wire::NoMemory;
use std::alloc::Allocator;

/// The ranks of the entries that are still to come, and the first entries of those before.
#[derive(Drop)]
pub struct SeenKeys<'k, A: Allocator> {
    ranks: Ranks<A>,
    firsts: Firsts<'k, A>,
}

/// The entries that pass.
#[derive(Drop)]
pub enum Doubles<'k, A: Allocator> {
    Each,
    /// Those that repeat an earlier one.
    Repeated(SeenKeys<'k, A>),
}

/// Returns whether an entry that is alike comes before, with the same key.
pub fn repeats(alike: Option<Alike>) -> bool
    ensures { result ≡ repeats alike }
{
    alike.is_some_and(|alike| alike.has_same_key)
}

impl<'k, A: Allocator + Copy> SeenKeys<'k, A> {
    fn of<B: Allocator>(alloc: A, keytab: &Keytab<B>) -> Result<SeenKeys<'k, A>, NoMemory>
        ensures { IfOk result (AreSeenKeys (placed_entries keytab.now.state) [] (placed_entries keytab.now.state)) }
    {
        Ok(SeenKeys {
            ranks: Ranks::of(alloc, keytab)?,
            firsts: Firsts::new(alloc),
        })
    }

    // Returns whether the next entry repeats an earlier one.
    fn next(&mut self, place: u32, entry: &EntryView<'k>) -> Result<bool, NoMemory>
        ensures { (all before rest : List PlacedEntry) → AreSeenKeys all before ((place, entry.now) ∷ rest) self.old
            → IfOk result (λ b. (b ≡ repeats (first_alike before (place, entry.now)))
            × AreSeenKeys all (before ++ (place, entry.now) ∷ []) rest self.new) }
    {
        let rank = self.ranks.take();
        let alike = self.firsts.next(rank.first, place, entry)?;
        Ok(repeats(alike))
    }
}

impl<'k, A: Allocator + Copy> Doubles<'k, A> {
    /// Returns those of a keytab that pass.
    pub fn of<B: Allocator>(
        alloc: A,
        keytab: &Keytab<B>,
        only_same: bool,
    ) -> Result<Doubles<'k, A>, NoMemory>
        ensures { IfOk result (AreDoubles only_same (placed_entries keytab.now.state) [] (placed_entries keytab.now.state)) }
    {
        if !only_same {
            return Ok(Doubles::Each);
        }
        Ok(Doubles::Repeated(SeenKeys::of(alloc, keytab)?))
    }

    /// Returns whether the next entry passes.
    pub fn next(&mut self, place: u32, entry: &EntryView<'k>) -> Result<bool, NoMemory>
        ensures { (only_same : Bool) (all before rest : List PlacedEntry)
            → AreDoubles only_same all before ((place, entry.now) ∷ rest) self.old
            → IfOk result (λ b. (b ≡ is_same_if only_same before (place, entry.now))
            × AreDoubles only_same all (before ++ (place, entry.now) ∷ []) rest self.new) }
    {
        match self {
            Doubles::Each => Ok(true),
            Doubles::Repeated(seen) => Ok(seen.next(place, entry)?),
        }
    }
}
