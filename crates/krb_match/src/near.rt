//! Entries whose names are nearly those of tickets.

ghost use Rattle.std.specs.Prelude.{◌≡◌, ℕ, IfOk, List, map};
ghost use Rattle.std.specs.List.{position_from};
ghost use Rattle.std.specs.Str.{bytes_eq};
ghost use Rattle.std.specs.Vec.{vec_items};
ghost use Rattle.krb_keytab.specs.Find.{PlacedEntry};
ghost use Rattle.krb_match.specs.Names.{bare_key, folded_key, near_entry};
ghost use Rattle.krb_match.specs.Near.{AreFound, AreNear, lesser};

use crate::names::{bare_key, folded_key};
use krb_names::NameSet;
use krb_wire::{Name, NoMemory};
use std::alloc::Allocator;

// Keys in file order, and which there are.
#[derive(Drop)]
struct FoundKeys<'k, A: Allocator> {
    keys: &'k [Vec<u8, A>],
    set: NameSet<'k, A>,
}

// Returns the index of the first key that is this.
fn position_of<A: Allocator>(keys: &[Vec<u8, A>], key: &[u8]) -> Option<usize>
    ensures { result ≡ position_from (λ other. bytes_eq key.now other.items) 0 keys.now }
{
    keys.iter().position(|other| key == other.as_slice())
}

impl<'k, A: Allocator + Copy> FoundKeys<'k, A> {
    fn of(alloc: A, keys: &'k [Vec<u8, A>]) -> Result<FoundKeys<'k, A>, NoMemory>
        ensures { IfOk result (AreFound (map vec_items keys.now)) }
    {
        let set = NameSet::of(alloc, keys)?;
        Ok(FoundKeys { keys, set })
    }

    // Returns the index of the first one that is this. Takes log n comparisons if there is none.
    fn index(&self, key: &[u8]) -> Option<usize>
        ensures { (keys : List (List ℕ)) → AreFound keys self.now → result ≡ position_from (bytes_eq key.now) 0 keys }
    {
        if !self.set.contains(key) {
            return None;
        }
        position_of(self.keys, key)
    }
}

/// The names of entries, to find those that are nearly others.
#[derive(Drop)]
pub struct NearNames<'k, A: Allocator> {
    folded: FoundKeys<'k, A>,
    bare: FoundKeys<'k, A>,
}

// Returns the lesser of two numbers, or the only one.
fn lesser(one: Option<usize>, other: Option<usize>) -> Option<usize>
    ensures { result ≡ lesser one other }
{
    match (one, other) {
        (Some(one), Some(other)) => Some(one.min(other)),
        (None, other) => other,
        (one, None) => one,
    }
}

impl<'k, A: Allocator + Copy> NearNames<'k, A> {
    /// Returns those of entries whose names have these keys with small letters, and without realms.
    pub fn of(
        alloc: A,
        folded: &'k [Vec<u8, A>],
        bare: &'k [Vec<u8, A>],
    ) -> Result<NearNames<'k, A>, NoMemory>
        ensures { IfOk result (AreNear (map vec_items folded.now) (map vec_items bare.now)) }
    {
        Ok(NearNames {
            folded: FoundKeys::of(alloc, folded)?,
            bare: FoundKeys::of(alloc, bare)?,
        })
    }

    /// Returns the number of the first entry whose name is nearly that. Takes log n comparisons if there is none.
    pub fn index<N: Name>(&self, alloc: A, name: &N) -> Result<Option<usize>, NoMemory>
        ensures { (xs : List PlacedEntry) → AreNear (map (λ x. folded_key x.1.principal) xs) (map (λ x. bare_key x.1.principal) xs) self.now
            → IfOk result (λ n. n ≡ near_entry xs (N.parts name.now)) }
    {
        let folded = self.folded.index(&folded_key(alloc, name)?);
        Ok(lesser(folded, self.bare.index(&bare_key(alloc, name)?)))
    }
}
