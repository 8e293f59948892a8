//! Reads the words behind a command.

ghost use Rattle.std.specs.Prelude.{◌≡◌};
ghost use Rattle.std.specs.Result.{result_map_both};
ghost use Rattle.clap.specs.Words.{args_of};
ghost use Rattle.krb_driver.specs.Mistakes.{mistake_parts};
ghost use Rattle.krb_command_line.specs.Words.{mistake_behind, read_word};

use crate::bad_line::is_option;
use crate::options::{missing_operand, wants_value, with_operand};
use clap::{Arg, Command};
use krb_driver::{Mistake, Phrase};

/// What the next word may be, after that many operands.
#[derive(Clone, Copy)]
enum Place {
    Any(usize),
    /// The value of an option.
    Value(usize),
    /// After `--`.
    Operand(usize),
}

// Returns the place after a word, which comes after `last`.
fn read_word<'a>(
    args: &[Arg<'_>],
    place: Place,
    last: &'a str,
    word: &'a str,
) -> Result<Place, Mistake<'a>>
    ensures { result_map_both (λ next. next) mistake_parts result ≡ read_word args.now place last.now word.now }
{
    match place {
        Place::Value(_) if is_option(word) => Err(Phrase::NEEDS_VALUE.of(last)),
        Place::Value(count) => Ok(Place::Any(count)),
        Place::Any(count) if word == "--" => Ok(Place::Operand(count)),
        Place::Any(count) if is_option(word) => match wants_value(args, word)? {
            true => Ok(Place::Value(count)),
            false => Ok(place),
        },
        Place::Any(count) => Ok(Place::Any(with_operand(args, count, word)?)),
        Place::Operand(count) => Ok(Place::Operand(with_operand(args, count, word)?)),
    }
}

/// Returns the first mistake in the words after a command: one that it does not accept, or else what is missing.
pub fn mistake_behind<'a>(command: &Command<'a>, words: &'a [String]) -> Mistake<'a>
    ensures { mistake_parts result ≡ mistake_behind (args_of command.now) words.now }
{
    let args = command.get_arguments();
    let mut place = Place::Any(0);
    let mut last = "";
    'words: for word in words {
        match read_word(args, place, last, word.as_str()) {
            Ok(next) => place = next,
            Err(mistake) => return mistake,
        }
        last = word.as_str();
    }
    match place {
        Place::Value(_) => Phrase::NEEDS_VALUE.of(last),
        Place::Any(count) | Place::Operand(count) => match missing_operand(args, count) {
            Some(operand) => Phrase::MISSING.of(operand),
            None => Phrase::LEFT_OVER.of(last),
        },
    }
}
