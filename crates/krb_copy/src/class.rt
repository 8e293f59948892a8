//! A class of twins: entries of one name, version and enctype.

ghost use Rattle.std.specs.Prelude.{◌≡◌, ◌∷◌, ◌++◌, [], ◌||◌, ℕ, List, OnOk, IfOk, false, true, cond};
ghost use Rattle.std.specs.Str.{bytes_eq};
ghost use Rattle.krb_copy.specs.Copying as due;
ghost use Rattle.krb_copy.specs.Classes.{has_among, has_key, places_of, seen_step, stays, step_at};

use krb_wire::NoMemory;
use std::alloc::Allocator;
use std::collections::BTreeSet;
use std::slice;

/// Several twins.
#[derive(Drop)]
pub struct Many<'t, A: Allocator> {
    // Their places, in order.
    places: Vec<u32, A>,
    keys: BTreeSet<&'t [u8], A>,
    stays: bool,
}

/// What becomes of an entry asked for.
#[derive(Drop)]
pub enum Step<'a> {
    There,
    /// It clashes with the one at this place.
    Clash(u32),
    /// It is copied after those at these places are removed.
    Copy(&'a [u32]),
}

/// What a keytab has of a class. An entry stays if it was asked for, or the run added it. Most classes have one entry,
/// which takes no memory of its own.
#[derive(Drop)]
pub enum Class<'t, A: Allocator> {
    /// Its first entry is still to be added.
    Empty,
    /// The place and the key of the only one, and whether it stays.
    One(u32, &'t [u8], bool),
    More(Box<Many<'t, A>, A>),
}

impl<'t, A: Allocator + Copy> Many<'t, A> {
    // Adds one.
    fn push(&mut self, place: u32, key: &'t [u8]) -> Result<(), NoMemory>
        ensures places { OnOk result (self.new.places.items ≡ self.old.places.items ++ place ∷ []) }
        ensures keys { OnOk result ((k : List ℕ) → has_among self.new.keys k ≡ (has_among self.old.keys k || bytes_eq k key.now)) }
        ensures stays { self.new.stays ≡ self.old.stays }
    {
        self.places.push(place)?;
        self.keys.insert(key)?;
        Ok(())
    }

    // Returns two.
    fn two(
        alloc: A,
        first: (u32, &'t [u8]),
        second: (u32, &'t [u8]),
        stays: bool,
    ) -> Result<Box<Many<'t, A>, A>, NoMemory>
        ensures places { IfOk result (λ many. many.value.places.items ≡ first.entry.0 ∷ second.entry.0 ∷ []) }
        ensures keys { IfOk result (λ many. (k : List ℕ) → has_among many.value.keys k ≡ (bytes_eq k first.entry.1.now || bytes_eq k second.entry.1.now)) }
        ensures stays { IfOk result (λ many. many.value.stays ≡ stays) }
    {
        let mut many = Many {
            places: Vec::new(alloc),
            keys: BTreeSet::new(alloc),
            stays,
        };
        many.push(first.0, first.1)?;
        many.push(second.0, second.1)?;
        Ok(Box::new(alloc, many)?)
    }
}

impl<'t, A: Allocator + Copy> Class<'t, A> {
    // Returns the places of its entries, in order.
    fn places(&self) -> &[u32]
        ensures { result.now ≡ places_of self.now }
    {
        match self {
            Class::Empty => &[],
            Class::One(place, _, _) => slice::from_ref(place),
            Class::More(many) => &many.places,
        }
    }

    // Returns whether one of its entries has a key.
    fn has_key(&self, key: &[u8]) -> bool
        ensures { result ≡ has_key self.now key.now }
    {
        match self {
            Class::Empty => false,
            Class::One(_, first, _) => key == *first,
            Class::More(many) => many.keys.contains(key),
        }
    }

    // Returns whether one of its entries stays.
    fn stays(&self) -> bool
        ensures { result ≡ stays self.now }
    {
        match self {
            Class::Empty => false,
            Class::One(_, _, stays) => *stays,
            Class::More(many) => many.stays,
        }
    }

    /// Returns what becomes of an entry of the class that has this key.
    pub fn step(&self, replace: bool, key: &[u8]) -> Step<'_>
        ensures { seen_step result
            ≡ cond (has_key self.now key.now) due.There (step_at replace (stays self.now) (places_of self.now)) }
    {
        if self.has_key(key) {
            return Step::There;
        }
        let places = self.places();
        match places.first() {
            Some(first) if !replace || self.stays() => Step::Clash(*first),
            _ => Step::Copy(places),
        }
    }

    /// Adds an entry that was there before the run.
    pub fn push(&mut self, alloc: A, place: u32, key: &'t [u8]) -> Result<(), NoMemory>
        ensures places { OnOk result (places_of self.new ≡ places_of self.old ++ place ∷ []) }
        ensures keys { OnOk result ((k : List ℕ) → has_key self.new k ≡ (has_key self.old k || bytes_eq k key.now)) }
        ensures stays { OnOk result (stays self.new ≡ stays self.old) }
    {
        match self {
            Class::Empty => *self = Class::One(place, key, false),
            Class::One(first, first_key, stays) => {
                let many = Many::two(alloc, (*first, *first_key), (place, key), *stays)?;
                *self = Class::More(many);
            }
            Class::More(many) => many.push(place, key)?,
        }
        Ok(())
    }

    /// Keeps its entries: one of them was asked for.
    pub fn keep(&mut self)
        ensures places { places_of self.new ≡ places_of self.old }
        ensures keys { (k : List ℕ) → has_key self.new k ≡ has_key self.old k }
        ensures stays { (k : List ℕ) → has_key self.old k ≡ true → stays self.new ≡ true }
    {
        match self {
            Class::Empty => {}
            Class::One(_, _, stays) => *stays = true,
            Class::More(many) => many.stays = true,
        }
    }
}
