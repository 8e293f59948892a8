//! Counted data: a length of 16 or 32 bits, and that many bytes.

ghost use Rattle.std.specs.Prelude.{◌≡◌, ◌≤◌, ◌++◌, ℕ, List, length, drop, IfSome, Some};
ghost use Rattle.krb_wire.specs.Spelling.{data16, data32, IsShort, IsLong, HasText};
ghost use Rattle.krb_wire.specs.Reading.{Gives, ReadsAt, bytes_at, data16_at, data32_at, data_at};

use crate::format::{Lengths, Order};
use crate::numbers::{split_u16, split_u32};

// Splits off the first `len` bytes.
#[inline(always)]
fn split_len(len: usize, bytes: &[u8]) -> Option<(&[u8], &[u8])>
    ensures { Gives (λ x. (x.0.now, x.1.now)) result (bytes_at len bytes.now) }
{
    if bytes.len() < len {
        return None;
    }
    Some(bytes.split_at(len))
}

/// Splits off counted data with a length of 16 bits. Returns it without its length, and the bytes after it.
#[tactic(auto, unfolding(crate::specs::Reading::data16_at))]
pub fn split_data16(order: Order, bytes: &[u8]) -> Option<(&[u8], &[u8])>
    ensures { Gives (λ x. (x.0.now, x.1.now)) result (data16_at order bytes.now) }
{
    let (len, rest) = split_u16(order, bytes)?;
    split_len(len as usize, rest)
}

/// Splits off counted data with a length of 32 bits. Returns it without its length, and the bytes after it.
#[tactic(auto, unfolding(crate::specs::Reading::data32_at))]
pub fn split_data32(order: Order, bytes: &[u8]) -> Option<(&[u8], &[u8])>
    ensures { Gives (λ x. (x.0.now, x.1.now)) result (data32_at order bytes.now) }
{
    let (len, rest) = split_u32(order, bytes)?;
    split_len(len as usize, rest)
}

/// Splits off counted data. Returns it without its length, and the bytes after it.
#[inline(always)]
pub fn split_data(lengths: Lengths, bytes: &[u8]) -> Option<(&[u8], &[u8])>
    ensures { Gives (λ x. (x.0.now, x.1.now)) result (data_at lengths bytes.now) }
{
    match lengths {
        Lengths::Bits16(order) => split_data16(order, bytes),
        Lengths::Bits32(order) => split_data32(order, bytes),
    }
}

/// Returns the bytes from `at` on.
pub fn tail(bytes: &[u8], at: usize) -> &[u8]
    requires { at ≤ length bytes.now }
    ensures { result.now ≡ drop at bytes.now }
{
    bytes.split_at(at).1
}

// Reads the counted data at `at`. Returns it without its length, and the place after it.
#[inline(always)]
fn data_from(lengths: Lengths, bytes: &[u8], at: usize) -> Option<(&[u8], usize)>
    ensures { ReadsAt (λ v. v.now) bytes.now result (data_at lengths (drop at bytes.now)) }
{
    if at > bytes.len() {
        return None;
    }
    let rest = tail(bytes, at);
    let (text, after) = split_data(lengths, rest)?;
    Some((text, bytes.len() - after.len()))
}

/// Reads the counted data at `at`, with a length of 16 bits. Returns it without its length, and the place after it.
pub fn read_data16(order: Order, bytes: &[u8], at: usize) -> Option<(&[u8], usize)>
    // What is read has this encoding.
    ensures found { IfSome result (λ x. IsShort x.0.now
        × HasText bytes.now at x.1 (data16 order x.0.now)) }
    // What has this encoding is read.
    ensures only { (text rest : List ℕ) → IsShort text
        → drop at bytes.now ≡ data16 order text ++ rest
        → ReadsAt (λ v. v.now) bytes.now result (Some (text, rest)) }
    ensures exact { ReadsAt (λ v. v.now) bytes.now result (data16_at order (drop at bytes.now)) }
{
    data_from(Lengths::Bits16(order), bytes, at)
}

/// Reads the counted data at `at`, with a length of 32 bits. Returns it without its length, and the place after it.
pub fn read_data32(order: Order, bytes: &[u8], at: usize) -> Option<(&[u8], usize)>
    // What is read has this encoding.
    ensures found { IfSome result (λ x. IsLong x.0.now
        × HasText bytes.now at x.1 (data32 order x.0.now)) }
    // What has this encoding is read.
    ensures only { (text rest : List ℕ) → IsLong text
        → drop at bytes.now ≡ data32 order text ++ rest
        → ReadsAt (λ v. v.now) bytes.now result (Some (text, rest)) }
    ensures exact { ReadsAt (λ v. v.now) bytes.now result (data32_at order (drop at bytes.now)) }
{
    data_from(Lengths::Bits32(order), bytes, at)
}
