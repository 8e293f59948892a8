//! Names that have to be there, and are missing.

ghost use Rattle.std.specs.Prelude.{◌≡◌, ◌||◌, [], ◌++◌, ◌∷◌, Bool, List, ℕ, IfOk, OnOk, if◌then◌else◌, map, true};
ghost use Rattle.std.specs.Str.{bytes_eq};
ghost use Rattle.std.specs.Vec.{vec_items};
ghost use Rattle.krb_wire.specs.Names.{name_text};
ghost use Rattle.krb_names.specs.Marks.{AreMarked};
ghost use Rattle.krb_names.specs.Set.{is_among};
ghost use Rattle.krb_keytab.specs.Find.{PlacedEntry};
ghost use Rattle.krb_audit.specs.Before.{IsMissing};
ghost use Rattle.krb_audit.specs.CheckUp.{missing_among};

use krb_keytab::EntryView;
use krb_names::NameMarks;
use krb_wire::{NoMemory, PrincipalView, write_name};
use std::alloc::Allocator;

// Marks the text as which a name prints, and returns whether it is one of them. Prints it over `printed`, if there are
// any.
fn mark<A: Allocator>(
    name: &PrincipalView<'_>,
    printed: &mut Vec<u8, A>,
    wanted: &mut NameMarks<'_, A>,
) -> Result<bool, NoMemory>
    ensures { (names : List (List ℕ)) (marked : List ℕ → Bool) → AreMarked marked names wanted.old
        → IfOk result (λ is_wanted. (is_wanted ≡ is_among names (name_text name.now))
        × AreMarked (λ text. marked text || bytes_eq (name_text name.now) text) names wanted.new) }
{
    if wanted.is_empty() {
        return Ok(false);
    }
    printed.clear();
    write_name(name, printed)?;
    wanted.mark(printed);
    Ok(wanted.is_marked(printed))
}

// Adds a text that is not marked, and marks it.
fn take<'w, A: Allocator>(
    text: &'w [u8],
    wanted: &mut NameMarks<'_, A>,
    missing: &mut Vec<&'w [u8], A>,
) -> Result<(), NoMemory>
    ensures { (names : List (List ℕ)) (marked : List ℕ → Bool) → AreMarked marked names wanted.old
        → is_among names text.now ≡ true
        → OnOk result (AreMarked (λ other. marked other || bytes_eq text.now other) names wanted.new
        × (missing.new.items ≡ (if marked text.now then missing.old.items else missing.old.items ++ text.entry ∷ []))) }
{
    let was_marked = wanted.is_marked(text);
    wanted.mark(text);
    if !was_marked {
        missing.push(text)?;
    }
    Ok(())
}

/// The texts that have to be there, marked if the name of some entry so far prints so.
#[derive(Drop)]
pub(crate) struct Missing<'w, A: Allocator> {
    wanted: NameMarks<'w, A>,
    // Scratch space for the name of an entry.
    printed: Vec<u8, A>,
}

impl<'w, A: Allocator + Copy> Missing<'w, A> {
    /// Returns that before the first entry.
    pub fn new<B: Allocator>(alloc: A, wanted: &'w [Vec<u8, B>]) -> Result<Missing<'w, A>, NoMemory>
        ensures { IfOk result (IsMissing (map vec_items wanted.now) []) }
    {
        Ok(Missing {
            wanted: NameMarks::of(alloc, wanted)?,
            printed: Vec::new(alloc),
        })
    }

    /// Marks the text as which the next entry's name prints, and returns whether it is one of them.
    pub fn mark_next(&mut self, entry: &EntryView<'_>) -> Result<bool, NoMemory>
        ensures { (wanted : List (List ℕ)) (before : List PlacedEntry) (place : ℕ) → IsMissing wanted before self.old
            → IfOk result (λ is_wanted. (is_wanted ≡ is_among wanted (name_text entry.now.principal))
            × IsMissing wanted (before ++ (place, entry.now) ∷ []) self.new) }
    {
        mark(entry.principal(), &mut self.printed, &mut self.wanted)
    }

    /// Returns the texts that are missing, each once.
    pub fn texts<B: Allocator>(
        mut self,
        alloc: A,
        wanted: &'w [Vec<u8, B>],
    ) -> Result<Vec<&'w [u8], A>, NoMemory>
        ensures { (before : List PlacedEntry) → IsMissing (map vec_items wanted.now) before self.entry
            → IfOk result (λ texts. map (λ t. t.now) texts.items ≡ missing_among (map vec_items wanted.now) before) }
    {
        let mut missing = Vec::new(alloc);
        'texts: for text in wanted {
            take(text.as_slice(), &mut self.wanted, &mut missing)?;
        }
        Ok(missing)
    }
}
