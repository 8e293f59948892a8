//! The components of a name, one after the other.

ghost use Rattle.std.specs.Prelude.{◌≡◌, ◌<◌, ◌-◌, ◌++◌, ◌∷◌, [], ℕ, List, IsSome, MatchOption};
ghost use Rattle.std.specs.Iterator.{YieldsFirstRef, item_count};
ghost use Rattle.krb_wire.specs.Reading.{data_at, list_at, list_in, items_of};

use crate::counted::split_data;
use crate::format::{Lengths, Order};
use std::alloc::Allocator;
use std::marker::Model;

/// An iterator over the components of a name: first those that are owned, then those that are encoded in bytes.
#[derive(Drop)]
pub struct Components<'a, A: Allocator> {
    kept: &'a [Vec<u8, A>],
    lengths: Lengths,
    count: usize,
    spelled: &'a [u8],
}

impl<'a, A: Allocator> Model for Components<'a, A> {
    ghost Value = { List (List ℕ) };

    ghost view = { λ c. items_of c.kept.now ++ list_in (data_at c.lengths) c.count c.spelled.now };

    ghost invariant = { λ c. IsSome (list_at (data_at c.lengths) c.count c.spelled.now) };
}

// Splits off the first of the `count` components that the bytes begin with, or returns `None` if `count` is 0.
fn first_of(lengths: Lengths, count: usize, bytes: &[u8]) -> Option<(&[u8], &[u8])>
    requires { IsSome (list_at (data_at lengths) count bytes.now) }
    ensures first { MatchOption result (list_in (data_at lengths) count bytes.now ≡ [])
        (λ x. list_in (data_at lengths) count bytes.now ≡ x.0.now ∷ list_in (data_at lengths) (count - 1) x.1.now) }
    ensures others { MatchOption result (count ≡ 0)
        (λ x. (0 < count) × IsSome (list_at (data_at lengths) (count - 1) x.1.now)) }
{
    if count == 0 {
        return None;
    }
    let Some((first, others)) = split_data(lengths, bytes) else {
        unreachable!()
    };
    Some((first, others))
}

impl<'a, A: Allocator> Components<'a, A> {
    /// Returns an iterator over owned components.
    pub fn kept(components: &'a [Vec<u8, A>]) -> Components<'a, A>
        ensures { result ≡ items_of components.now }
    {
        Components {
            kept: components,
            lengths: Lengths::Bits16(Order::Big),
            count: 0,
            spelled: &[],
        }
    }

    /// Returns an iterator over the `count` components that the bytes begin with.
    pub fn spelled(lengths: Lengths, count: usize, bytes: &'a [u8]) -> Components<'a, A>
        requires { IsSome (list_at (data_at lengths) count bytes.now) }
        ensures { result ≡ list_in (data_at lengths) count bytes.now }
    {
        Components {
            kept: &[],
            lengths,
            count,
            spelled: bytes,
        }
    }
}

impl<'a, A: Allocator> Iterator for Components<'a, A> {
    type Item = &'a [u8];

    ghost next_gives = { YieldsFirstRef (λ s. s) };

    ghost remaining = { item_count (λ s. s) };

    fn next(&mut self) -> Option<&'a [u8]> {
        if let Some((first, others)) = self.kept.split_first() {
            self.kept = others;
            return Some(first);
        }
        let (first, others) = first_of(self.lengths, self.count, self.spelled)?;
        self.count -= 1;
        self.spelled = others;
        Some(first)
    }
}
