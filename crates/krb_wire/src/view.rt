//! Names that borrow from an image.

ghost use Rattle.std.specs.Prelude.{◌≡◌, ◌+◌, ◌++◌, ℕ, List, drop, IsSome, IfSome, Some, slice_get, option_copied};
ghost use Rattle.krb_wire.specs.Spelling.{Parts, FitsKt, FitsCc, HasText, kt_principal, cc_principal};
ghost use Rattle.krb_wire.specs.Reading.{Gives, ReadsAt, data_at, list_at, list_in, list_end, name_type_at, kt_principal_at, cc_principal_at};

use crate::components::Components;
use crate::counted::{split_data, split_data16, split_data32, tail};
use crate::format::{KtFormat, Lengths, Order};
use crate::name::Name;
use crate::numbers::{split_u16, split_u32};
use std::alloc::Global;
use std::marker::Model;

/// A name that borrows from an image.
#[derive(Drop)]
pub struct PrincipalView<'a> {
    lengths: Lengths,
    name_type: u32,
    realm: &'a [u8],
    count: usize,
    components: &'a [u8],
}

impl<'a> Model for PrincipalView<'a> {
    ghost Value = { Parts };

    ghost view = { λ v. record { name_type = v.name_type; realm = v.realm.now; components = list_in (data_at v.lengths) v.count v.components.now } };

    ghost invariant = { λ v. IsSome (list_at (data_at v.lengths) v.count v.components.now) };
}

// Splits off the name type, or returns 0 if the format has none.
fn name_type_of(format: KtFormat, bytes: &[u8]) -> Option<(u32, &[u8])>
    ensures { Gives (λ x. (x.0, x.1.now)) result (name_type_at format bytes.now) }
{
    if !format.has_name_type() {
        return Some((0, bytes));
    }
    split_u32(Order::Big, bytes)
}

// Returns the bytes after `count` components.
fn skip_components(lengths: Lengths, count: usize, bytes: &[u8]) -> Option<&[u8]>
    ensures { Gives (λ x. x.now) result (list_end (data_at lengths) count bytes.now) }
{
    let mut rest = bytes;
    for _ in 0..count {
        let (_, after) = split_data(lengths, rest)?;
        rest = after;
    }
    Some(rest)
}

fn component_at(lengths: Lengths, count: usize, bytes: &[u8], i: usize) -> Option<&[u8]>
    requires { IsSome (list_at (data_at lengths) count bytes.now) }
    ensures { option_copied result ≡ slice_get (list_in (data_at lengths) count bytes.now) i }
{
    if i >= count {
        return None;
    }
    let rest = skip_components(lengths, i, bytes)?;
    let (component, _) = split_data(lengths, rest)?;
    Some(component)
}

/// Splits off the name that the bytes begin with, as a keytab encodes it. Returns it and the bytes after it.
#[inline(always)]
#[tactic(auto, unfolding(crate::specs::Reading::kt_principal_at, crate::specs::Reading::components_at))]
pub fn split_kt_principal(format: KtFormat, bytes: &[u8]) -> Option<(PrincipalView<'_>, &[u8])>
    ensures { Gives (λ x. (x.0, x.1.now)) result (kt_principal_at format bytes.now) }
{
    let order = format.order();
    let (field, rest) = split_u16(order, bytes)?;
    let count = format.components_of(field)?;
    let (realm, components) = split_data16(order, rest)?;
    let lengths = Lengths::Bits16(order);
    let after = skip_components(lengths, count, components)?;
    let (name_type, after) = name_type_of(format, after)?;
    Some((
        PrincipalView {
            lengths,
            name_type,
            realm,
            count,
            components,
        },
        after,
    ))
}

/// Splits off the name that the bytes begin with, as a credential cache encodes it. Returns it and the bytes after it.
#[inline(always)]
#[tactic(auto, unfolding(crate::specs::Reading::cc_principal_at))]
pub fn split_cc_principal(bytes: &[u8]) -> Option<(PrincipalView<'_>, &[u8])>
    ensures { Gives (λ x. (x.0, x.1.now)) result (cc_principal_at bytes.now) }
{
    let (name_type, rest) = split_u32(Order::Big, bytes)?;
    let (count, rest) = split_u32(Order::Big, rest)?;
    let (realm, components) = split_data32(Order::Big, rest)?;
    let lengths = Lengths::Bits32(Order::Big);
    let count = count as usize;
    let after = skip_components(lengths, count, components)?;
    Some((
        PrincipalView {
            lengths,
            name_type,
            realm,
            count,
            components,
        },
        after,
    ))
}

impl<'a> Name for PrincipalView<'a> {
    type Heap = Global;

    ghost parts = { λ v. v };

    fn name_type(&self) -> u32 {
        self.name_type
    }

    fn realm(&self) -> &[u8] {
        self.realm
    }

    fn count(&self) -> usize {
        self.count
    }

    fn component(&self, i: usize) -> Option<&[u8]> {
        component_at(self.lengths, self.count, self.components, i)
    }

    fn components(&self) -> Components<'_, Global> {
        Components::spelled(self.lengths, self.count, self.components)
    }
}

fn kt_principal_from(
    format: KtFormat,
    bytes: &[u8],
    at: usize,
) -> Option<(PrincipalView<'_>, usize)>
    ensures { ReadsAt (λ v. v) bytes.now result (kt_principal_at format (drop at bytes.now)) }
{
    if at > bytes.len() {
        return None;
    }
    let rest = tail(bytes, at);
    let (name, after) = split_kt_principal(format, rest)?;
    Some((name, bytes.len() - after.len()))
}

/// Reads the name at `at` in a keytab. Returns it and the place after it.
pub fn read_kt_principal(
    format: KtFormat,
    bytes: &[u8],
    at: usize,
) -> Option<(PrincipalView<'_>, usize)>
    // What is read has this encoding.
    ensures found { IfSome result (λ x. FitsKt format x.0
        × HasText bytes.now at x.1 (kt_principal format x.0)) }
    // What has this encoding is read.
    ensures only { (p : Parts) (rest : List ℕ) → FitsKt format p
        → drop at bytes.now ≡ kt_principal format p ++ rest
        → ReadsAt (λ v. v) bytes.now result (Some (p, rest)) }
    ensures exact { ReadsAt (λ v. v) bytes.now result
        (kt_principal_at format (drop at bytes.now)) }
{
    kt_principal_from(format, bytes, at)
}

fn cc_principal_from(bytes: &[u8], at: usize) -> Option<(PrincipalView<'_>, usize)>
    ensures { ReadsAt (λ v. v) bytes.now result (cc_principal_at (drop at bytes.now)) }
{
    if at > bytes.len() {
        return None;
    }
    let rest = tail(bytes, at);
    let (name, after) = split_cc_principal(rest)?;
    Some((name, bytes.len() - after.len()))
}

/// Reads the name at `at` in a credential cache (MIT krb5, "Credential cache file format", section "Principal").
/// Returns it and the place after it.
pub fn read_cc_principal(bytes: &[u8], at: usize) -> Option<(PrincipalView<'_>, usize)>
    // What is read has this encoding.
    ensures found { IfSome result (λ x. FitsCc x.0
        × HasText bytes.now at x.1 (cc_principal x.0)) }
    // What has this encoding is read.
    ensures only { (p : Parts) (rest : List ℕ) → FitsCc p
        → drop at bytes.now ≡ cc_principal p ++ rest
        → ReadsAt (λ v. v) bytes.now result (Some (p, rest)) }
    ensures exact { ReadsAt (λ v. v) bytes.now result (cc_principal_at (drop at bytes.now)) }
{
    cc_principal_from(bytes, at)
}
