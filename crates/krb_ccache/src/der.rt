//! DER (X.690), as far as a ticket needs it: elements with a tag of one byte, INTEGERs, and GeneralStrings.

ghost use Rattle.std.specs.Prelude.{◌≡◌, ◌≤◌, ℕ, List, length, IsSome, is_some};
ghost use Rattle.std.specs.Iterator.{YieldsFirstRef, item_count};
ghost use Rattle.krb_wire.specs.Reading.{Gives, bytes_at};
ghost use Rattle.krb_ccache.specs.Der.{base_256, long_length, length_at, element_at, element_in, is_shortest, integer_in, integer_at, signed, strings_within, strings_in, strings_left};

use krb_wire::split_u8;
use std::marker::Model;

/// An INTEGER: whether it is below 0, and how far it is above 0 or below -1.
pub type Integer = (bool, u64);

// Returns the number whose digits in base 256 the bytes are, or their complements.
fn base_256(is_complement: bool, bytes: &[u8]) -> u64
    requires { length bytes.now ≤ 8 }
    ensures { result ≡ base_256 is_complement bytes.now }
{
    let mut number = 0;
    for byte in bytes {
        let digit = if is_complement { 255 - *byte } else { *byte };
        number = number * 256 + digit as u64;
    }
    number
}

// Returns the length that needs all these bytes and does not fit the short form.
#[tactic(auto, unfolding(crate::specs::Der::long_length))]
fn long_length(bytes: &[u8]) -> Option<u64>
    ensures { result ≡ long_length bytes.now }
{
    if *bytes.first()? == 0 || bytes.len() > 8 {
        return None;
    }
    let len = base_256(false, bytes);
    if len < 128 {
        return None;
    }
    Some(len)
}

// Splits off the first `len` bytes.
fn split_len(len: u64, bytes: &[u8]) -> Option<(&[u8], &[u8])>
    ensures { Gives (λ x. (x.0.now, x.1.now)) result (bytes_at len bytes.now) }
{
    bytes.split_at_checked(len as usize)
}

// Splits off a length.
#[tactic(auto, unfolding(crate::specs::Der::length_at))]
fn split_length(bytes: &[u8]) -> Option<(u64, &[u8])>
    ensures { Gives (λ x. (x.0, x.1.now)) result (length_at bytes.now) }
{
    let (first, rest) = split_u8(bytes)?;
    if first < 128 {
        return Some((first as u64, rest));
    }
    let (digits, rest) = split_len((first - 128) as u64, rest)?;
    Some((long_length(digits)?, rest))
}

/// Splits off the element that the bytes begin with, if it has this tag. Returns its content and the bytes after it.
#[tactic(auto, unfolding(crate::specs::Der::element_at))]
pub fn split_element(tag: u8, bytes: &[u8]) -> Option<(&[u8], &[u8])>
    ensures { Gives (λ x. (x.0.now, x.1.now)) result (element_at tag bytes.now) }
{
    let (first, rest) = split_u8(bytes)?;
    if first != tag {
        return None;
    }
    let (len, rest) = split_length(rest)?;
    split_len(len, rest)
}

/// Returns the content of the one element that the bytes are, if it has this tag.
#[tactic(auto, unfolding(crate::specs::Der::element_in))]
pub fn read_element(tag: u8, bytes: &[u8]) -> Option<&[u8]>
    ensures { Gives (λ x. x.now) result (element_in tag bytes.now) }
{
    let (content, rest) = split_element(tag, bytes)?;
    if !rest.is_empty() {
        return None;
    }
    Some(content)
}

fn is_shortest(content: &[u8]) -> bool
    ensures { result ≡ is_shortest content.now }
{
    match *content {
        [] => false,
        [_] => true,
        [a, b, ..] => !(a == 0 && b < 128 || a == 255 && b >= 128),
    }
}

// Returns the number that the content of an INTEGER is.
#[tactic(auto, unfolding(crate::specs::Der::integer_in))]
fn read_integer(content: &[u8]) -> Option<Integer>
    ensures { Gives signed result (integer_in content.now) }
{
    if !is_shortest(content) || content.len() > 8 {
        return None;
    }
    let is_negative = *content.first()? >= 128;
    Some((is_negative, base_256(is_negative, content)))
}

/// Splits off the element that the bytes begin with, if it has this tag and is an INTEGER alone.
#[tactic(auto, unfolding(crate::specs::Der::integer_at))]
pub fn split_integer(tag: u8, bytes: &[u8]) -> Option<(Integer, &[u8])>
    ensures { Gives (λ x. (signed x.0, x.1.now)) result (integer_at tag bytes.now) }
{
    let (element, rest) = split_element(tag, bytes)?;
    let content = read_element(2, element)?;
    Some((read_integer(content)?, rest))
}

/// An iterator over the GeneralStrings that some bytes are.
#[derive(Drop)]
pub struct Strings<'a> {
    // No more strings than these are left.
    most: usize,
    bytes: &'a [u8],
}

impl<'a> Model for Strings<'a> {
    ghost Value = { List (List ℕ) };

    ghost view = { λ s. strings_left s.most s.bytes.now };

    ghost invariant = { λ s. IsSome (strings_within s.most s.bytes.now) };
}

// Returns whether the bytes are strings, one after the other.
fn are_strings(bytes: &[u8]) -> bool
    ensures { result ≡ is_some (strings_in bytes.now) }
{
    let mut rest = bytes;
    'strings: for _ in 0..bytes.len() {
        if rest.is_empty() {
            return true;
        }
        let Some((_, after)) = split_element(0x1b, rest) else {
            return false;
        };
        rest = after;
    }
    rest.is_empty()
}

/// Returns the strings that the bytes are.
#[tactic(auto, unfolding(crate::specs::Der::strings_in))]
pub fn read_strings(bytes: &[u8]) -> Option<Strings<'_>>
    ensures { Gives (λ s. s) result (strings_in bytes.now) }
{
    if !are_strings(bytes) {
        return None;
    }
    Some(Strings {
        most: bytes.len(),
        bytes,
    })
}

impl<'a> Iterator for Strings<'a> {
    type Item = &'a [u8];

    ghost next_gives = { YieldsFirstRef (λ s. s) };

    ghost remaining = { item_count (λ s. s) };

    fn next(&mut self) -> Option<&'a [u8]> {
        if self.bytes.is_empty() {
            return None;
        }
        let Some((first, others)) = split_element(0x1b, self.bytes) else {
            unreachable!()
        };
        self.most -= 1;
        self.bytes = others;
        Some(first)
    }
}
