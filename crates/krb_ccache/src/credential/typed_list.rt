//! Addresses and authorization data: lists of typed items.

ghost use Rattle.std.specs.Prelude.{◌≡◌, ◌<◌, ◌-◌, ◌∷◌, [], length, IsSome, MatchOption, option_map, slice_get};
ghost use Rattle.std.specs.Iterator.{YieldsFirstBy, item_count};
ghost use Rattle.krb_wire.specs.Reading.{Gives, list_at, list_in, list_end};
ghost use Rattle.krb_ccache.specs.Credential.{TypedData, typed_data_at, typed_list_at, typed_data_of};

use krb_wire::{Order, split_data32, split_u16, split_u32};
use std::marker::Model;

/// A list of typed items, borrowed from an image. The lengths of items vary, so an item is found by a scan of those
/// before it.
#[derive(Drop)]
pub struct TypedList<'a> {
    count: u32,
    items: &'a [u8],
}

impl<'a> Model for TypedList<'a> {
    ghost use Rattle.std.specs.Prelude.{List, IsSome};
    ghost use Rattle.krb_wire.specs.Reading.{list_at, list_in};
    ghost use Rattle.krb_ccache.specs.Credential.{TypedData, typed_data_at};

    ghost Value = { List TypedData };

    ghost view = { λ x. list_in typed_data_at x.count x.items.now };

    ghost invariant = { λ x. IsSome (list_at typed_data_at x.count x.items.now) };
}

// Returns the item that the bytes begin with, if any, and the bytes after it.
#[inline(always)]
#[tactic(auto, unfolding(crate::specs::Credential::typed_data_at))]
fn split_typed_data(bytes: &[u8]) -> Option<((u16, &[u8]), &[u8])>
    ensures { Gives (λ x. (typed_data_of x.0, x.1.now)) result (typed_data_at bytes.now) }
{
    let (kind, rest) = split_u16(Order::Big, bytes)?;
    let (text, rest) = split_data32(Order::Big, rest)?;
    Some(((kind, text), rest))
}

// Returns the first of the `count` items that the bytes begin with, or `None` if `count` is 0, and the bytes after it.
fn split_first(count: u32, bytes: &[u8]) -> Option<((u16, &[u8]), &[u8])>
    requires { IsSome (list_at typed_data_at count bytes.now) }
    ensures first { MatchOption result (list_in typed_data_at count bytes.now ≡ [])
        (λ x. list_in typed_data_at count bytes.now ≡ typed_data_of x.0 ∷ list_in typed_data_at (count - 1) x.1.now) }
    ensures others { MatchOption result (count ≡ 0)
        (λ x. (0 < count) × IsSome (list_at typed_data_at (count - 1) x.1.now)) }
{
    if count == 0 {
        return None;
    }
    let Some((first, others)) = split_typed_data(bytes) else {
        unreachable!()
    };
    Some((first, others))
}

// Returns the bytes after `count` items, or `None` if the bytes begin with fewer.
fn skip_items(count: u32, bytes: &[u8]) -> Option<&[u8]>
    ensures { Gives (λ x. x.now) result (list_end typed_data_at count bytes.now) }
{
    let mut rest = bytes;
    for _ in 0..count {
        let (_, after) = split_typed_data(rest)?;
        rest = after;
    }
    Some(rest)
}

fn item_at(count: u32, items: &[u8], i: usize) -> Option<(u16, &[u8])>
    requires { IsSome (list_at typed_data_at count items.now) }
    ensures { option_map typed_data_of result ≡ slice_get (list_in typed_data_at count items.now) i }
{
    if i >= count as usize {
        return None;
    }
    let rest = skip_items(i as u32, items)?;
    let (item, _) = split_typed_data(rest)?;
    Some(item)
}

/// Returns the list that the bytes begin with, if any, and the bytes after it.
#[inline(always)]
#[tactic(auto, unfolding(crate::specs::Credential::typed_list_at))]
pub fn split_typed_list(bytes: &[u8]) -> Option<(TypedList<'_>, &[u8])>
    ensures { Gives (λ x. (x.0, x.1.now)) result (typed_list_at bytes.now) }
{
    let (count, items) = split_u32(Order::Big, bytes)?;
    let rest = skip_items(count, items)?;
    Some((TypedList { count, items }, rest))
}

impl<'a> TypedList<'a> {
    /// Returns the number of items.
    pub fn len(&self) -> usize
        ensures { result ≡ length self.now }
    {
        self.count as usize
    }

    /// Returns the type and the bytes of item `i`, or `None` past the last.
    pub fn get(&self, i: usize) -> Option<(u16, &'a [u8])>
        ensures { option_map typed_data_of result ≡ slice_get self.now i }
    {
        item_at(self.count, self.items, i)
    }

    /// Returns an iterator over the items, which reads them in one pass.
    pub fn items(&self) -> TypedList<'a>
        ensures { result ≡ self.now }
    {
        TypedList {
            count: self.count,
            items: self.items,
        }
    }
}

impl<'a> Iterator for TypedList<'a> {
    type Item = (u16, &'a [u8]);

    ghost next_gives = { YieldsFirstBy typed_data_of (λ s. s) };

    ghost remaining = { item_count (λ s. s) };

    fn next(&mut self) -> Option<(u16, &'a [u8])> {
        let (first, others) = split_first(self.count, self.items)?;
        self.count -= 1;
        self.items = others;
        Some(first)
    }
}
