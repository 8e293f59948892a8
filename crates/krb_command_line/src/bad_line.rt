//! Finds the mistake in a command line that clap did not match.

ghost use Rattle.std.specs.Prelude.{◌≡◌, option_copied, option_map};
ghost use Rattle.krb_driver.specs.Mistakes.{mistake_parts};
ghost use Rattle.krb_command_line.specs.Words.{command_name, command_named, command_of, is_option, mistake_of_help, mistake_of_words, no_command, words_behind};

use crate::place::mistake_behind;
use clap::Command;
use krb_driver::{BadLine, Mistake, More, Phrase};

/// Returns whether a word is an option or a bundle of options, if no `--` comes before it.
pub fn is_option(word: &str) -> bool
    ensures { result ≡ is_option word.now }
{
    word.len() > 1 && word.starts_with('-')
}

// Returns the mistake of a word where a command is expected.
fn no_command(word: &str) -> Mistake<'_>
    ensures { mistake_parts result ≡ no_command word.now }
{
    if word == "--explain" {
        Phrase::TWICE_GIVEN.of(word)
    } else if is_option(word) {
        Phrase::UNKNOWN_OPTION.of(word)
    } else {
        Phrase::UNKNOWN_COMMAND.of(word)
    }
}

fn command_named<'k, 'a>(krbfile: &'k Command<'a>, name: &str) -> Option<&'k Command<'a>>
    ensures { option_copied result ≡ command_named krbfile.now name.now }
{
    krbfile
        .get_subcommands()
        .iter()
        .find(|command| command.get_name() == name)
}

/// Returns the command that words name first.
pub fn command_of<'k, 'a>(krbfile: &'k Command<'a>, words: &[String]) -> Option<&'k Command<'a>>
    ensures { option_copied result ≡ command_of krbfile.now words.now }
{
    match words {
        [name, ..] if name.as_str() != "help" => command_named(krbfile, name.as_str()),
        _ => None,
    }
}

fn mistake_of_help<'a>(krbfile: &Command<'a>, words: &'a [String]) -> Mistake<'a>
    ensures { mistake_parts result ≡ mistake_of_help krbfile.now words.now }
{
    match words {
        [] => Phrase::WITHOUT_COMMAND.of(""),
        [word] => no_command(word.as_str()),
        [name, other, ..] => {
            if command_named(krbfile, name.as_str()).is_some() {
                Phrase::LEFT_OVER.of(other.as_str())
            } else {
                no_command(name.as_str())
            }
        }
    }
}

/// Returns the words after the program's name, and after `--explain` if that comes first.
pub fn words_behind(words: &[String]) -> &[String]
    ensures { result.now ≡ words_behind words.now }
{
    match words {
        [_, first, rest @ ..] if first.as_str() == "--explain" => rest,
        [_, rest @ ..] => rest,
        [] => words,
    }
}

/// Returns the first mistake in words that `krbfile` did not match, and nothing after it; the first word is the program's
/// name.
pub fn bad_line<'a>(krbfile: &Command<'a>, words: &'a [String]) -> BadLine<'a>
    ensures mistake { mistake_parts result.mistake ≡ mistake_of_words krbfile.now (words_behind words.now) }
    ensures command { option_copied result.command ≡ option_map command_name (command_of krbfile.now (words_behind words.now)) }
    ensures more { result.more ≡ More.Nothing }
{
    let (mistake, command) = match words_behind(words) {
        [] => (Phrase::WITHOUT_COMMAND.of(""), None),
        [name, rest @ ..] if name.as_str() == "help" => (mistake_of_help(krbfile, rest), None),
        [name, rest @ ..] => match command_named(krbfile, name.as_str()) {
            Some(command) => (mistake_behind(command, rest), Some(command.get_name())),
            None => (no_command(name.as_str()), None),
        },
    };
    BadLine {
        mistake,
        command,
        more: More::Nothing,
    }
}
