//! The options and operands of a command.

ghost use Rattle.std.specs.Prelude.{◌≡◌, ◌&&◌, filter, length, option_map};
ghost use Rattle.std.specs.List.{before_first, list_any};
ghost use Rattle.std.specs.Result.{result_map_both};
ghost use Rattle.krb_driver.specs.Mistakes.{mistake_parts};
ghost use Rattle.krb_command_line.specs.Words.{is_equals, is_operand, missing_operand, takes_long_value, takes_values, wants_long, wants_value, with_operand};

use crate::bundle::bundled_value;
use clap::{Arg, ArgAction};
use krb_driver::{Mistake, Phrase};

/// Returns whether an option takes values, or an operand many words.
pub fn takes_values(option: &Arg<'_>) -> bool
    ensures { result ≡ takes_values option.now }
{
    matches!(option.get_action(), ArgAction::Append)
}

// Returns whether the option of that long name takes a value, or `None` if there is none.
fn takes_long_value(options: &[Arg<'_>], name: &str) -> Option<bool>
    ensures { result ≡ takes_long_value options.now name.now }
{
    let option = options
        .iter()
        .find(|option| option.get_long() == Some(name))?;
    Some(takes_values(option))
}

// Returns whether a long option, without its `--`, needs the next word as a value, or `None` if it is unknown. A flag
// with a value is unknown too.
fn wants_long(options: &[Arg<'_>], word: &str) -> Option<bool>
    ensures { result ≡ wants_long options.now word.now }
{
    match word.split_once('=') {
        Some((name, _)) => match takes_long_value(options, name) {
            Some(true) => Some(false),
            _ => None,
        },
        None => takes_long_value(options, word),
    }
}

/// Returns a long option without a value.
pub fn before_equals(word: &str) -> &str
    ensures { result.now ≡ before_first is_equals word.now }
{
    match word.split_once('=') {
        Some((name, _)) => name,
        None => word,
    }
}

/// Returns whether an option or a bundle of options needs the next word as a value, or else the mistake in it.
pub fn wants_value<'a>(options: &[Arg<'_>], word: &'a str) -> Result<bool, Mistake<'a>>
    ensures { result_map_both (λ wants. wants) mistake_parts result ≡ wants_value options.now word.now }
{
    match word.strip_prefix("--") {
        Some(name) => wants_long(options, name).ok_or(Phrase::UNKNOWN_OPTION.of(word)),
        None => Ok(bundled_value(options, word)? == Some("")),
    }
}

fn takes_many(args: &[Arg<'_>]) -> bool
    ensures { result ≡ list_any (λ arg. is_operand arg && takes_values arg) args.now }
{
    args.iter()
        .any(|arg| arg.is_positional() && takes_values(arg))
}

fn operand_count(args: &[Arg<'_>]) -> usize
    ensures { result ≡ length (filter is_operand args.now) }
{
    args.iter().filter(|arg| arg.is_positional()).count()
}

/// Returns the number of operands with one more word, or else that word as a mistake.
pub fn with_operand<'a>(args: &[Arg<'_>], count: usize, word: &'a str) -> Result<usize, Mistake<'a>>
    ensures { result_map_both (λ count. count) mistake_parts result ≡ with_operand args.now count word.now }
{
    if count < operand_count(args) {
        Ok(count + 1)
    } else if takes_many(args) {
        Ok(count)
    } else {
        Err(Phrase::LEFT_OVER.of(word))
    }
}

/// Returns the first operand that is required after that many.
pub fn missing_operand<'a>(args: &[Arg<'a>], count: usize) -> Option<&'a str>
    ensures { option_map (λ name. name.now) result ≡ missing_operand args.now count }
{
    let mut operands = args.iter().filter(|arg| arg.is_positional()).skip(count);
    let missing = operands.find(|arg| arg.is_required_set())?;
    Some(missing.get_id())
}
