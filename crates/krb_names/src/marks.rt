//! Sets of names that may be marked.

ghost use Rattle.std.specs.Prelude.{◌≡◌, ◌==◌, ◌&&◌, ◌||◌, List, ℕ, Bool, IfOk, false, length, map};
ghost use Rattle.std.specs.Str.{bytes_eq};
ghost use Rattle.std.specs.Vec.{vec_items};
ghost use Rattle.krb_names.specs.Marks.{AreMarked, has_mark, with_mark};
ghost use Rattle.krb_names.specs.Set.{is_among};

use crate::set::NameSet;
use krb_wire::NoMemory;
use std::alloc::Allocator;

/// Names, each marked or not.
#[derive(Drop)]
pub struct NameMarks<'t, A: Allocator> {
    names: NameSet<'t, A>,
    // In the order of the set.
    marks: Vec<bool, A>,
}

// Sets the mark at a place, if one is given.
#[tactic(auto, using(std::proofs::lemmas::List::set_past))]
fn set_mark<A: Allocator>(marks: &mut Vec<bool, A>, place: Option<usize>)
    ensures { marks.new.items ≡ with_mark marks.old.items place }
{
    if let Some(place) = place
        && place < marks.len()
    {
        marks[place] = true;
    }
}

// Returns whether the mark at a place is set.
fn has_mark(marks: &[bool], place: Option<usize>) -> bool
    ensures { result ≡ has_mark marks.now place }
{
    match place {
        Some(place) => marks.get(place).copied().unwrap_or(false),
        None => false,
    }
}

impl<'t, A: Allocator + Copy> NameMarks<'t, A> {
    /// Returns those names without marks. Takes time n log n in their bytes, and no memory if there are none.
    pub fn of<B: Allocator>(alloc: A, names: &'t [Vec<u8, B>]) -> Result<NameMarks<'t, A>, NoMemory>
        ensures { IfOk result (AreMarked (λ name. false) (map vec_items names.now)) }
    {
        let names = NameSet::of(alloc, names)?;
        let mut marks = Vec::new(alloc);
        marks.resize(names.len(), false)?;
        Ok(NameMarks { names, marks })
    }
}

impl<'t, A: Allocator> NameMarks<'t, A> {
    /// Returns whether there are no names.
    pub fn is_empty(&self) -> bool
        ensures { result ≡ (length self.now.names == 0) }
    {
        self.names.len() == 0
    }

    /// Marks a name, if it is there.
    pub fn mark(&mut self, name: &[u8])
        ensures { (names : List (List ℕ)) (marked : List ℕ → Bool) → AreMarked marked names self.old
            → AreMarked (λ other. marked other || bytes_eq name.now other) names self.new }
    {
        set_mark(&mut self.marks, self.names.place(name));
    }

    /// Returns whether a name is there and marked.
    #[tactic(auto, using(crate::proofs::MarkedNames::has_at))]
    pub fn is_marked(&self, name: &[u8]) -> bool
        ensures { (names : List (List ℕ)) (marked : List ℕ → Bool) → AreMarked marked names self.now
            → result ≡ (is_among names name.now && marked name.now) }
    {
        has_mark(&self.marks, self.names.place(name))
    }
}
