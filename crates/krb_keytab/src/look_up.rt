//! What a look-up has found so far.

ghost use Rattle.std.specs.Prelude.{◌≡◌, ◌==◌, ◌||◌, ◌∷◌, ◌++◌, [], true, Bool, List, Some, Ok, if◌then◌else◌};
ghost use Rattle.krb_wire.specs.Spelling.{Parts};
ghost use Rattle.krb_wire.specs.Names.{have_same_name};
ghost use Rattle.krb_keytab.specs.Entry.{EntryParts, entry_at};
ghost use Rattle.krb_keytab.specs.Find.{PlacedEntry, look_up_in};
ghost use Rattle.krb_keytab.specs.LookUp.{answer, IsFoundAmong};

mod find;

use crate::entry::{EntryView, read_entry};
use krb_walk::Code;
use krb_wire::{KtFormat, Name, same_name};

/// What is looked up. Kvno 0 selects the highest, enctype 0 any.
#[derive(Drop)]
pub struct Query<'n, N: Name> {
    pub name: &'n N,
    pub kvno: u32,
    pub enctype: u16,
}

fn has_enctype(enctype: u16, entry: &EntryView<'_>) -> bool
    ensures { result ≡ (enctype == 0 || entry.now.enctype == enctype) }
{
    enctype == 0 || entry.enctype() == enctype
}

// True if an entry of this version is selected over the one found so far.
fn is_better(kvno: u32, best: &Option<(u32, EntryView<'_>)>, version: u32) -> bool
    ensures { (named : Bool) (xs : List PlacedEntry) (x : PlacedEntry) → x.1.version ≡ version
        → answer named best.now ≡ look_up_in kvno xs
        → look_up_in kvno (xs ++ x ∷ []) ≡ (if result then Ok x else answer true best.now) }
{
    match best {
        None => kvno == 0 || version == kvno,
        Some((_, entry)) => kvno == 0 && entry.kvno() < version,
    }
}

/// What was found so far: whether some entry has the name and the enctype, and the entry selected.
#[derive(Drop)]
pub struct LookUp<'a> {
    pub named: bool,
    pub best: Option<(u32, EntryView<'a>)>,
}

impl<'a> LookUp<'a> {
    // Considers the next entry that has the name.
    fn consider_entry(&mut self, kvno: u32, enctype: u16, place: u32, entry: EntryView<'a>)
        ensures { (name : Parts) (xs : List PlacedEntry)
            → have_same_name name entry.entry.principal ≡ true
            → IsFoundAmong name kvno enctype xs self.old.named self.old.best
            → IsFoundAmong name kvno enctype (xs ++ (place, entry.entry) ∷ [])
            self.new.named self.new.best }
    {
        if !has_enctype(enctype, &entry) {
            return;
        }
        self.named = true;
        if is_better(kvno, &self.best, entry.kvno()) {
            self.best = Some((place, entry));
        }
    }

    /// Considers the next record. Not inlined, so that a loop over other names keeps none of this in registers.
    #[inline(never)]
    #[tactic(auto, using(crate::proofs::LookUpLemmas::other_name))]
    pub fn consider<N: Name>(
        &mut self,
        query: &Query<'_, N>,
        format: KtFormat,
        place: u32,
        bytes: &'a [u8],
    )
        ensures { (xs : List PlacedEntry) (e : EntryParts)
            → entry_at format bytes.now ≡ Some e
            → IsFoundAmong (N.parts query.now.name.now) query.now.kvno query.now.enctype xs
            self.old.named self.old.best
            → IsFoundAmong (N.parts query.now.name.now) query.now.kvno query.now.enctype
            (xs ++ (place, e) ∷ []) self.new.named self.new.best }
    {
        let Some(entry) = read_entry(format, bytes) else {
            return;
        };
        if same_name(query.name, entry.principal()) {
            self.consider_entry(query.kvno, query.enctype, place, entry);
        }
    }

    /// Returns the result of the look-up, once all entries were considered.
    pub fn answer(self) -> Result<(u32, EntryView<'a>), Code>
        ensures { result ≡ answer self.entry.named self.entry.best }
    {
        match self.best {
            Some(found) => Ok(found),
            None if self.named => Err(Code::KvnoNotFound),
            None => Err(Code::NotFound),
        }
    }
}
