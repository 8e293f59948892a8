//! Splitting a text at each occurrence of a byte.

ghost use Rattle.std.specs.Prelude.{◌≡◌, ◌==◌, ◌<◌, ◌∷◌, List, ℕ, length, IfSome, option_copied};
ghost use Rattle.std.specs.List.{position_from};
ghost use Rattle.std.specs.Iterator.{YieldsFirstRef, item_count};
ghost use Rattle.krb_text.specs.Word.{pieces, pieces_left, joined};

use std::marker::Model;

/// An iterator over the pieces of a text, split at each byte `AT`.
#[derive(Drop)]
pub struct Pieces<'a, const AT: u8> {
    rest: Option<&'a [u8]>,
}

/// The lines of a text.
pub type Lines<'a> = Pieces<'a, b'\n'>;

/// The words of a line.
pub type Words<'a> = Pieces<'a, b' '>;

impl<'a, const AT: u8> Model for Pieces<'a, AT> {
    ghost Value = { List (List ℕ) };

    ghost view = { λ p. pieces_left AT (option_copied p.rest) };
}

// Returns where the first piece ends, or `None` if it is the only one.
fn end_of(text: &[u8], at: u8) -> Option<usize>
    ensures is { result ≡ position_from (λ b. b == at) 0 text.now }
    ensures within { IfSome result (λ end. end < length text.now) }
{
    text.iter().position(|byte| *byte == at)
}

// Returns the first piece, and what follows the byte that ends it, if one does.
fn cut(text: &[u8], at: u8) -> (&[u8], Option<&[u8]>)
    ensures { pieces at text.now ≡ result.0.now ∷ pieces_left at (option_copied result.1) }
{
    match end_of(text, at) {
        Some(end) => (&text[..end], Some(&text[end + 1..])),
        None => (text, None),
    }
}

impl<'a, const AT: u8> Pieces<'a, AT> {
    /// Returns an iterator over all pieces of `text`: one more than it has bytes `AT`.
    pub fn of(text: &'a [u8]) -> Pieces<'a, AT>
        ensures { result ≡ pieces AT text.now }
    {
        Pieces { rest: Some(text) }
    }

    /// Returns the rest of the text unsplit, or `None` if no piece is left.
    pub fn rest(self) -> Option<&'a [u8]>
        ensures { option_copied result ≡ joined AT self.entry }
    {
        self.rest
    }
}

impl<'a, const AT: u8> Iterator for Pieces<'a, AT> {
    type Item = &'a [u8];

    ghost next_gives = { YieldsFirstRef (λ s. s) };

    ghost remaining = { item_count (λ s. s) };

    fn next(&mut self) -> Option<&'a [u8]> {
        let (piece, rest) = cut(self.rest?, AT);
        self.rest = rest;
        Some(piece)
    }
}
