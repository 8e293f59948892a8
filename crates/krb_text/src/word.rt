//! Parsing of decimal numbers, and of the words of a line.

ghost use Rattle.std.specs.Prelude.{◌≡◌, MatchOption, false, nat_le, true};
ghost use Rattle.std.specs.Char.{is_ascii_digit};
ghost use Rattle.std.specs.List.{list_all};
ghost use Rattle.krb_wire.specs.Reading.{principal_parts};
ghost use Rattle.krb_text.specs.LineFault.{Reads};
ghost use Rattle.krb_text.specs.Word.{number_word, etype_word, name_word};
ghost use Rattle.krb_text.specs.Numbers.{is_numeral, number_in, seconds_in, seconds_of_unit};

use crate::etype::etype_of;
use crate::line_fault::{LineFault, LineRefusal};
use krb_wire::{NameFault, Principal, parse_name};
use std::alloc::Allocator;

fn are_digits(text: &[u8]) -> bool
    ensures { result ≡ list_all is_ascii_digit text.now }
{
    text.iter().all(u8::is_ascii_digit)
}

// A 32-bit number has at most ten digits.
fn are_few(count: usize) -> bool
    ensures { result ≡ nat_le count 10 }
{
    count <= 10
}

fn is_numeral(text: &[u8]) -> bool
    ensures { result ≡ is_numeral text.now }
{
    !text.is_empty() && are_few(text.len()) && are_digits(text)
}

fn numeral(text: &[u8]) -> Option<&str>
    ensures { MatchOption result (is_numeral text.entry.now ≡ false)
        (λ digits. (is_numeral text.entry.now ≡ true) × (digits.now ≡ text.entry.now)) }
{
    if !is_numeral(text) {
        return None;
    }
    str::from_utf8(text).ok()
}

/// Parses one to ten decimal digits; `None` for other text, and for a value that does not fit 16 bits.
pub fn parse_u16(text: &[u8]) -> Option<u16>
    ensures { result ≡ number_in 16 text.now }
{
    numeral(text)?.parse().ok()
}

/// Parses one to ten decimal digits; `None` for other text, and for a value that does not fit 32 bits.
pub fn parse_u32(text: &[u8]) -> Option<u32>
    ensures { result ≡ number_in 32 text.now }
{
    numeral(text)?.parse().ok()
}

// Returns how many seconds the unit with that letter has, if there is one.
fn seconds_of_unit(letter: u8) -> Option<u32>
    ensures { result ≡ seconds_of_unit letter }
{
    match letter {
        b's' => Some(1),
        b'm' => Some(60),
        b'h' => Some(3_600),
        b'd' => Some(86_400),
        _ => None,
    }
}

/// Parses a number of seconds, or of the unit whose letter, `s`, `m`, `h` or `d`, follows it; `None` for other text, and
/// for a value that does not fit 32 bits.
#[tactic(auto, unfolding(crate::specs::Numbers::seconds_in))]
pub fn parse_seconds(text: &[u8]) -> Option<u32>
    ensures { result ≡ seconds_in text.now }
{
    let Some(last) = text.len().checked_sub(1) else {
        return None;
    };
    match seconds_of_unit(text[last]) {
        Some(unit) => match parse_u32(&text[..last]) {
            Some(number) => number.checked_mul(unit),
            None => None,
        },
        None => parse_u32(text),
    }
}

/// Parses a 32-bit number in decimal.
pub fn number_word(word: &[u8]) -> Result<u32, LineFault>
    ensures { result ≡ number_word word.now }
{
    parse_u32(word).ok_or(LineFault::BadNumber)
}

/// Parses an enctype, by name or by number.
pub fn etype_word(word: &[u8]) -> Result<u16, LineFault>
    ensures { result ≡ etype_word word.now }
{
    etype_of(word).ok_or(LineFault::BadEtype)
}

/// Parses a principal name that includes its realm.
pub fn name_word<A: Allocator + Copy>(alloc: A, word: &[u8]) -> Result<Principal<A>, LineRefusal>
    ensures { Reads principal_parts (name_word word.now) result }
{
    match parse_name(alloc, word, None) {
        Ok(name) => Ok(name),
        Err(NameFault::NoMemory) => Err(LineRefusal::NoMemory),
        Err(_) => Err(LineRefusal::Fault(LineFault::BadName)),
    }
}
