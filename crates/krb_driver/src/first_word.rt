//! The first word of a script's line, if it is safe to show.

ghost use Rattle.std.specs.Prelude.{◌≡◌, IfSome};
ghost use Rattle.std.specs.List.{list_any};
ghost use Rattle.krb_driver.specs.FirstWords.{first_word, is_safe, line_at, no_digit};

use krb_text::{Lines, Words};

/// A word that can be no part of a key: it has at most 16 bytes, and one is no hexadecimal digit.
#[derive(Clone, Copy)]
pub struct FirstWord {
    // The word, and zeros after it.
    bytes: [u8; 16],
    len: usize,
}

fn no_digit(byte: u8) -> bool
    ensures { result ≡ no_digit byte }
{
    !byte.is_ascii_hexdigit()
}

// Returns whether some byte is no hexadecimal digit.
fn has_other(word: &[u8]) -> bool
    ensures { result ≡ list_any no_digit word.now }
{
    word.iter().any(|byte| no_digit(*byte))
}

// Returns whether a word is no part of a key, which could be longer or have digits alone.
fn is_safe(word: &[u8]) -> bool
    ensures { result ≡ is_safe word.now }
{
    word.len() <= 16 && has_other(word)
}

// Returns the line with that number, counted from 1, or an empty one.
fn line_at(script: &[u8], number: u64) -> &[u8]
    ensures { result.now ≡ line_at script.now number }
{
    let mut before = number.saturating_sub(1);
    'lines: for line in Lines::of(script) {
        if before == 0 {
            return line;
        }
        before -= 1;
    }
    &[]
}

fn first_word(line: &[u8]) -> &[u8]
    ensures { result.now ≡ first_word line.now }
{
    Words::of(line).next().unwrap_or(&[])
}

impl FirstWord {
    ghost use Rattle.krb_driver.specs.FirstWords.{first_word, line_at, safe_word, word_text};

    // Returns a word if it is safe to show.
    fn of(word: &[u8]) -> Option<FirstWord>
        ensures same { IfSome result (λ first. word_text first ≡ word.now) }
        ensures value { result ≡ safe_word word.now }
    {
        if !is_safe(word) {
            return None;
        }
        let len = word.len();
        let mut bytes = [0; 16];
        bytes[..len].copy_from_slice(word);
        Some(FirstWord { bytes, len })
    }

    /// Returns the first word of a script's line with that number, counted from 1, if it is safe to show.
    pub fn at(script: &[u8], number: u64) -> Option<FirstWord>
        ensures { result ≡ safe_word (first_word (line_at script.now number)) }
    {
        FirstWord::of(first_word(line_at(script, number)))
    }

    pub fn as_bytes(&self) -> &[u8]
        ensures { result.now ≡ word_text self.now }
    {
        &self.bytes[..self.len.min(16)]
    }
}
