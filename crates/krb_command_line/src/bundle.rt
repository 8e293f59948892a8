//! Bundles of options, as `-np`.

ghost use Rattle.std.specs.Prelude.{◌≡◌, [], ◌∷◌, ◌<◌, length, IfSome, MatchOption, option_copied, encode_utf8, encode_utf8_all};
ghost use Rattle.std.specs.Result.{result_map_both};
ghost use Rattle.std.specs.Str.{chars};
ghost use Rattle.krb_driver.specs.Mistakes.{mistake_parts};
ghost use Rattle.krb_command_line.specs.Words.{bundled_value, takes_letter_value};

use crate::options::takes_values;
use clap::Arg;
use krb_driver::{Mistake, Phrase};

// Returns whether the option of that letter takes a value, or `None` if there is none.
fn takes_letter_value(options: &[Arg<'_>], letter: char) -> Option<bool>
    ensures { result ≡ takes_letter_value options.now letter }
{
    let option = options
        .iter()
        .find(|option| option.get_short() == Some(letter))?;
    Some(takes_values(option))
}

// Returns the first letter of a bundle, its text, and the other letters.
fn first_letter(letters: &str) -> Option<(char, &str, &str)>
    ensures letters { MatchOption result (chars letters.now ≡ []) (λ first. chars letters.now ≡ first.0 ∷ chars first.2.now) }
    ensures shorter { IfSome result (λ first. length first.2.now < length letters.now) }
    ensures text { IfSome result (λ first. first.1.now ≡ encode_utf8 first.0) }
    ensures others { IfSome result (λ first. encode_utf8_all (chars first.2.now) ≡ first.2.now) }
{
    let mut rest = letters.chars();
    let letter = rest.next()?;
    let others = rest.as_str();
    let (text, _) = letters.split_at(letter.len_utf8());
    Some((letter, text, others))
}

/// Returns the value in a bundle, or else its first unknown letter as a mistake. If that is `=`, after flags, the
/// mistake names the whole bundle.
pub fn bundled_value<'a>(options: &[Arg<'_>], word: &'a str) -> Result<Option<&'a str>, Mistake<'a>>
    ensures { result_map_both option_copied mistake_parts result ≡ bundled_value options.now word.now }
{
    let Some(mut letters) = word.strip_prefix("-") else {
        return Ok(None);
    };
    'letters: while let Some((letter, text, others)) = first_letter(letters) {
        match takes_letter_value(options, letter) {
            Some(true) => return Ok(Some(others)),
            Some(false) => letters = others,
            None if letter == '=' => return Err(Phrase::UNKNOWN_OPTION.of(word)),
            None => return Err(Phrase::UNKNOWN_IN_BUNDLE.of(text)),
        }
    }
    Ok(None)
}
