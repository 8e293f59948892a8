//! Patterns of names.

ghost use Rattle.std.specs.Prelude.{◌≡◌, ◌⊎◌, ◌++◌, ◌∷◌, [], ◌+◌, ◌&&◌, ◌==◌, None, Ok, Err, IfErr, IfOk, IsOk, MatchOption, OnOk, false, if◌then◌else◌, length, not, take};
ghost use Rattle.std.specs.Cmp.Lexicographic.{pointwise};
ghost use Rattle.krb_wire.specs.Reading.{principal_parts};
ghost use Rattle.krb_names.specs.Patterns.{fits, fits_bytes, has_star, of_some_rest, pattern_of, star, starred};

use krb_wire::{Components, Name, NameFault, NoMemory, Principal, parse_name};
use memchr::{memchr, memmem};
use std::alloc::Allocator;

/// Any bytes, in a component or in the realm of a pattern. No UTF-8 text has this byte.
pub const STAR: u8 = 0xff;

/// Returns whether a component or a realm of a pattern has a star.
pub fn has_star(bytes: &[u8]) -> bool
    ensures { result ≡ has_star bytes.now }
{
    bytes.contains(&STAR)
}

// Returns a star in place of a `*` that is not quoted, and another byte as it is.
fn starred_byte(is_quoted: bool, byte: u8) -> u8
    ensures { result ≡ (if not is_quoted && byte == 42 then star else byte) }
{
    if !is_quoted && byte == b'*' {
        STAR
    } else {
        byte
    }
}

// Adds a byte, but no star after a star.
fn add_byte<A: Allocator>(after_star: bool, byte: u8, out: &mut Vec<u8, A>) -> Result<(), NoMemory>
    ensures { OnOk result (out.new.items ≡ out.old.items ++ (if after_star && byte == star then [] else byte ∷ [])) }
{
    if after_star && byte == STAR {
        return Ok(());
    }
    out.push(byte)?;
    Ok(())
}

// Returns a text with one star in place of `*`s that no backslash quotes.
fn starred<A: Allocator>(alloc: A, text: &[u8]) -> Result<Vec<u8, A>, NoMemory>
    ensures { IfOk result (λ stars. stars.items ≡ starred text.now) }
{
    let mut stars = Vec::with_capacity(alloc, text.len())?;
    let mut is_quoted = false;
    let mut after_star = false;
    'text: for byte in text {
        let starred = starred_byte(is_quoted, *byte);
        add_byte(after_star, starred, &mut stars)?;
        is_quoted = *byte == b'\\' && !is_quoted;
        after_star = starred == STAR;
    }
    Ok(stars)
}

/// Parses a text as a pattern: a name with its realm, in which each `*` that no backslash quotes becomes a `STAR`. The
/// faults are those of the text as a name.
pub fn parse_pattern<A: Allocator + Copy>(alloc: A, text: &[u8]) -> Result<Principal<A>, NameFault>
    ensures ok { IfOk result (λ p. pattern_of text.now ≡ Ok (principal_parts p)) }
    // Only a text that is a pattern can run out of memory.
    ensures err { IfErr result (λ fault. (pattern_of text.now ≡ Err fault)
        ⊎ ((fault ≡ NameFault.NoMemory) × IsOk (pattern_of text.now))) }
{
    let _ = parse_name(alloc, text, None)?;
    match starred(alloc, text) {
        Ok(stars) => parse_name(alloc, &stars, None),
        Err(NoMemory) => Err(NameFault::NoMemory),
    }
}

// Returns the first `len` bytes, or all if there are fewer.
fn front(bytes: &[u8], len: usize) -> &[u8]
    ensures { result.now ≡ take len bytes.now }
{
    match bytes.get(..len) {
        Some(front) => front,
        None => bytes,
    }
}

// Splits a pattern at its first star, if no more bytes are before it than there are others: more would not fit them.
fn split_at_star<'p>(pattern: &'p [u8], bytes: &[u8]) -> Option<(&'p [u8], &'p [u8])>
    ensures { MatchOption result (has_star (take (length bytes.now + 1) pattern.now) ≡ false)
        (λ parts. (pattern.now ≡ parts.0.now ++ star ∷ parts.1.now) × (has_star parts.0.now ≡ false)) }
{
    let Some(end) = memchr(STAR, front(pattern, bytes.len() + 1)) else {
        return None;
    };
    let (part, rest) = pattern.split_at(end);
    Some((part, rest.split_at(1).1))
}

// Returns whether bytes fit the rest of a pattern, after a star. Each part between two stars is sought after the part
// before it.
fn fits_after_star(pattern: &[u8], bytes: &[u8]) -> bool
    ensures { result ≡ of_some_rest (fits_bytes pattern.now) bytes.now }
{
    let mut pattern = pattern;
    let mut bytes = bytes;
    while let Some((part, rest)) = split_at_star(pattern, bytes) {
        let Some(start) = memmem::find(bytes, part) else {
            return false;
        };
        bytes = bytes.split_at(start).1.split_at(part.len()).1;
        pattern = rest;
    }
    bytes.ends_with(pattern)
}

// Returns whether bytes fit a pattern. Takes time linear in the bytes, however long the pattern is.
fn fits_bytes(pattern: &[u8], bytes: &[u8]) -> bool
    ensures { result ≡ fits_bytes pattern.now bytes.now }
{
    if pattern == [STAR].as_slice() {
        return true;
    }
    let Some((part, rest)) = split_at_star(pattern, bytes) else {
        return pattern == bytes;
    };
    bytes.starts_with(part) && fits_after_star(rest, bytes.split_at(part.len()).1)
}

// Returns whether there are as many components as patterns, and each fits its pattern.
fn fit_components<A: Allocator, B: Allocator>(
    patterns: Components<'_, A>,
    mut components: Components<'_, B>,
) -> bool
    ensures { result ≡ pointwise fits_bytes patterns.entry components.entry }
{
    for pattern in patterns {
        let Some(component) = components.next() else {
            return false;
        };
        if !fits_bytes(pattern, component) {
            return false;
        }
    }
    components.next().is_none()
}

/// Returns whether a name fits a pattern. Takes time linear in the name, however long the pattern is.
pub fn fits<M: Name, N: Name>(pattern: &M, name: &N) -> bool
    ensures { result ≡ fits (M.parts pattern.now) (N.parts name.now) }
{
    fits_bytes(pattern.realm(), name.realm())
        && fit_components(pattern.components(), name.components())
}
