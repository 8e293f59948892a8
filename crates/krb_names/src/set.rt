//! Sets of names.

ghost use Rattle.std.specs.Prelude.{◌≡◌, length, map, IfOk, is_some};
ghost use Rattle.std.specs.Vec.{vec_items};
ghost use Rattle.krb_names.specs.Set.{HaveSameNames, IsAlone, is_among};

use crate::hash::hash_of;
use krb_wire::NoMemory;
use std::alloc::Allocator;
use std::marker::Model;

/// Names, each once, in an order of their own.
#[derive(Drop)]
pub struct NameSet<'t, A: Allocator> {
    // Each after its hash.
    names: Vec<(u64, &'t [u8]), A>,
}

impl<'t, A: Allocator> Model for NameSet<'t, A> {
    ghost use Rattle.std.specs.Prelude.{ℕ, List, map};
    ghost use Rattle.krb_names.specs.Set.{AreHashed};

    ghost Value = { List (List ℕ) };

    ghost view = { λ s. map (λ x. x.1.now) s.names.items };

    ghost invariant = { λ s. AreHashed s.names.items };
}

impl<'t, A: Allocator> NameSet<'t, A> {
    /// Returns the set of those names. Takes time n log n in their bytes, and no memory if there are none.
    pub fn of<B: Allocator>(alloc: A, names: &'t [Vec<u8, B>]) -> Result<NameSet<'t, A>, NoMemory>
        ensures { IfOk result (HaveSameNames (map vec_items names.now)) }
    {
        let mut hashed = Vec::with_capacity(alloc, names.len())?;
        'names: for name in names {
            hashed.push((hash_of(name), name.as_slice()))?;
        }
        hashed.sort_unstable();
        hashed.dedup();
        Ok(NameSet { names: hashed })
    }

    /// Returns the number of names.
    pub fn len(&self) -> usize
        ensures { result ≡ length self.now }
    {
        self.names.len()
    }

    /// Returns the place of a name in the order of the set, if it is there. Takes log n comparisons.
    pub fn place(&self, name: &[u8]) -> Option<usize>
        ensures alone { IsAlone name.now self.now result }
        ensures found { is_some result ≡ is_among self.now name.now }
    {
        self.names.binary_search(&(hash_of(name), name)).ok()
    }

    /// Returns whether a name is in the set.
    pub fn contains(&self, name: &[u8]) -> bool
        ensures { result ≡ is_among self.now name.now }
    {
        self.place(name).is_some()
    }
}
