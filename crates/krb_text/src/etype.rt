//! Encryption types by number and by name: those of RFC 3961, 3962, 4757, 6803 and 8009, under the names that MIT
//! reads and prints, and others that MIT calls weak or deprecated.

ghost use Rattle.std.specs.Prelude.{◌≡◌, [], IsSome, None, Some, map, option_copied};
ghost use Rattle.std.specs.List.{find, list_any};
ghost use Rattle.std.specs.Str.{str_eq_ignore_ascii_case};
ghost use Rattle.krb_wire.specs.Text.{Appended};
ghost use Rattle.krb_text.specs.Etype.{etype_name_of, etype_names, etype_text_of, etype_in, is_named, is_weak, key_size_of, number_named, short_name_of, unnamed};

use crate::bytes::append;
use crate::word::parse_u16;
use itoa::Buffer;
use krb_wire::NoMemory;
use std::alloc::Allocator;

/// What is known of an enctype: its names, of which the first is MIT's and the second short, the size of its keys in
/// bytes, if it has a name, and whether MIT calls it weak or deprecated.
#[derive(Clone, Copy)]
struct Row {
    names: &'static [&'static str],
    key_size: Option<usize>,
    is_weak: bool,
}

fn row_with(names: &'static [&'static str], key_size: Option<usize>, is_weak: bool) -> Row
    ensures names { result.names.now ≡ names.now }
    ensures key_size { result.key_size ≡ key_size }
    ensures weak { result.is_weak ≡ is_weak }
{
    Row {
        names,
        key_size,
        is_weak,
    }
}

const DES3: &[&str] = &[
    "des3-cbc-sha1",
    "des3",
    "des3-hmac-sha1",
    "des3-cbc-sha1-kd",
];

const AES128_SHA1: &[&str] = &[
    "aes128-cts-hmac-sha1-96",
    "aes128",
    "aes128-cts",
    "aes128-sha1",
];

const AES256_SHA1: &[&str] = &[
    "aes256-cts-hmac-sha1-96",
    "aes256",
    "aes256-cts",
    "aes256-sha1",
];

const AES128_SHA2: &[&str] = &["aes128-cts-hmac-sha256-128", "aes128-sha2"];

const AES256_SHA2: &[&str] = &["aes256-cts-hmac-sha384-192", "aes256-sha2"];

const RC4: &[&str] = &["arcfour-hmac", "rc4", "rc4-hmac", "arcfour-hmac-md5"];

const CAMELLIA128: &[&str] = &["camellia128-cts-cmac", "camellia128", "camellia128-cts"];

const CAMELLIA256: &[&str] = &["camellia256-cts-cmac", "camellia256", "camellia256-cts"];

// Returns the row of an enctype.
#[tactic(auto, unfolding(crate::specs::Etype::etype_table))]
fn row_of(etype: u16) -> Row
    ensures names { map (λ name. name.now) result.names.now ≡ etype_names etype }
    ensures key_size { result.key_size ≡ key_size_of etype }
    ensures weak { result.is_weak ≡ is_weak etype }
{
    match etype {
        1 | 2 | 3 | 4 | 6 | 8 | 24 => row_with(&[], None, true),
        16 => row_with(DES3, Some(24), true),
        17 => row_with(AES128_SHA1, Some(16), false),
        18 => row_with(AES256_SHA1, Some(32), false),
        19 => row_with(AES128_SHA2, Some(16), false),
        20 => row_with(AES256_SHA2, Some(32), false),
        23 => row_with(RC4, Some(16), true),
        25 => row_with(CAMELLIA128, Some(16), false),
        26 => row_with(CAMELLIA256, Some(32), false),
        _ => row_with(&[], None, false),
    }
}

// Appends `etype ` and the number.
fn unnamed_text<A: Allocator>(etype: u16, out: &mut Vec<u8, A>) -> Result<(), NoMemory>
    ensures { Appended (unnamed etype) out.old out.new result }
{
    let mut buffer = Buffer::new();
    let digits = buffer.format(etype).as_bytes();
    let mut text = *b"etype .....";
    let end = 6 + digits.len();
    text[6..end].copy_from_slice(digits);
    append(&text[..end], out)
}

/// Appends the name of an enctype, or `etype ` and its number if the table has no name for it.
#[tactic(auto, using(crate::proofs::Etypes::read_text))]
pub fn etype_text<A: Allocator>(etype: u16, out: &mut Vec<u8, A>) -> Result<(), NoMemory>
    ensures text { Appended (etype_text_of etype) out.old out.new result }

    // `etype_of` reads the name of an enctype back as its number.
    ensures read { IsSome (etype_name_of etype) → etype_in (etype_text_of etype) ≡ Some etype }
{
    match etype_name(etype) {
        Some(name) => append(name.as_bytes(), out),
        None => unnamed_text(etype, out),
    }
}

/// Returns the name of an enctype that is printed, e.g. `aes128-cts-hmac-sha1-96`, or `None` if it has none.
pub fn etype_name(etype: u16) -> Option<&'static str>
    ensures { option_copied result ≡ etype_name_of etype }
{
    row_of(etype).names.first().copied()
}

/// Returns the short name of an enctype, e.g. `aes128`, or `None` if it has none.
pub fn etype_short_name(etype: u16) -> Option<&'static str>
    ensures { option_copied result ≡ short_name_of etype }
{
    row_of(etype).names.get(1).copied()
}

/// Returns the key size of an enctype in bytes, or `None` if it has no name.
pub fn key_size(etype: u16) -> Option<usize>
    ensures { result ≡ key_size_of etype }
{
    row_of(etype).key_size
}

/// Returns whether the enctype is one that MIT calls weak or deprecated.
pub fn is_weak(etype: u16) -> bool
    ensures { result ≡ is_weak etype }
{
    row_of(etype).is_weak
}

fn is_name(name: &str, text: &[u8]) -> bool
    ensures { result ≡ str_eq_ignore_ascii_case name.now text.now }
{
    name.as_bytes().eq_ignore_ascii_case(text)
}

fn is_one_of(names: &[&str], text: &[u8]) -> bool
    ensures { result ≡ list_any (λ name. str_eq_ignore_ascii_case name.now text.now) names.now }
{
    names.iter().any(|name| is_name(name, text))
}

// Returns whether a text is a name of that enctype, in either case.
#[tactic(auto, using(crate::proofs::Found::any_of_map))]
fn is_name_of(etype: u16, text: &[u8]) -> bool
    ensures { result ≡ is_named text.now etype }
{
    is_one_of(row_of(etype).names, text)
}

// Returns the first of the numbers that has that name.
fn named_among(numbers: &[u16], text: &[u8]) -> Option<u16>
    ensures { result ≡ find (is_named text.now) numbers.now }
{
    numbers
        .iter()
        .copied()
        .find(|etype| is_name_of(*etype, text))
}

#[tactic(auto, unfolding(crate::specs::Etype::etype_table))]
fn number_named(text: &[u8]) -> Option<u16>
    ensures { result ≡ number_named text.now }
{
    named_among(&[16, 17, 18, 19, 20, 23, 25, 26], text)
}

/// Returns the number of the enctype that `text` is: one of its names, as MIT reads them, in either case, or one to ten
/// decimal digits with a value up to 65,535.
#[tactic(auto, unfolding(crate::specs::Etype::etype_in))]
pub fn etype_of(text: &[u8]) -> Option<u16>
    ensures { result ≡ etype_in text.now }
{
    number_named(text).or_else(|| parse_u16(text))
}
