//! Parses the words of a command line.

ghost use Rattle.std.specs.Prelude.{◌≡◌, IfOk, map};
ghost use Rattle.krb_command_line.specs.Words.{is_long, long_names};

use crate::bad_line::{bad_line, words_behind};
use crate::command_lines::krbfile_command;
use crate::equals::double_equals;
use crate::nearest::{meant_command, meant_option};
use crate::options::before_equals;
use clap::error::ErrorKind;
use clap::{ArgMatches, Command, Error};
use krb_driver::{BadLine, CommandWords, Matches, More, Phrase, WordFault};
use krb_findings::FINDINGS;
use std::alloc::{AllocError, Global};

/// The matches of clap for a command's words.
#[derive(Drop)]
pub struct Matched<'a> {
    found: ArgMatches<'a>,
    /// The values of an absent option: none.
    none: Vec<&'a str>,
    /// The long names of options on the line, each with its `--`.
    long: Vec<&'a str>,
}

/// What a command line requests.
#[derive(Drop)]
pub enum Request<'a> {
    /// A help text, or the version.
    Help(String),
    /// A command with those words.
    Command(CommandWords, Matched<'a>),
}

impl<'a> Matches<'a> for Matched<'a> {
    ghost use Rattle.std.specs.Prelude.{[], codes, false, map, option_map, unwrap_or};
    ghost use Rattle.std.specs.Option.{option_map_or};
    ghost use Rattle.std.specs.List.{list_any};
    ghost use Rattle.std.specs.Str.{bytes_eq};
    ghost use Rattle.clap.specs.Words.{first_value, found_of, matched_of, raw_values};

    ghost matched = { λ m. record {
      flag = λ name. option_map_or (λ word. bytes_eq word (codes "true")) (first_value (found_of m.found) name) false;
      operand = λ name. unwrap_or (first_value (found_of m.found) name) [];
      values = λ name. unwrap_or (option_map raw_values (matched_of (found_of m.found) name)) (map (λ word. word.now) m.none.items);
      is_long = λ name. list_any (λ word. bytes_eq word.now name) m.long.items;
    } };

    fn flag(&self, name: &str) -> bool {
        self.found.get_str(name).is_some_and(|word| word == "true")
    }

    fn operand(&self, name: &str) -> &'a str {
        self.found.get_str(name).unwrap_or("")
    }

    fn values(&self, name: &str) -> &[&'a str] {
        self.found.get_strs(name).unwrap_or(&self.none)
    }

    fn is_long(&self, name: &str) -> bool {
        self.long.iter().any(|word| *word == name)
    }
}

fn is_long(word: &str) -> bool
    ensures { result ≡ is_long word.now }
{
    word.starts_with("--")
}

// Returns the long names of options in the words before a first `--`, each with its `--` and without its value.
fn long_names<'a>(alloc: Global, words: &'a [String]) -> Result<Vec<&'a str>, AllocError>
    ensures { IfOk result (λ names. map (λ name. name.now) names.items ≡ long_names words.now) }
{
    let mut names = Vec::new(alloc);
    'words: for word in words {
        let word = word.as_str();
        if word == "--" {
            return Ok(names);
        }
        if is_long(word) {
            names.push(before_equals(word))?;
        }
    }
    Ok(names)
}

// Returns the command that the words request, with them.
fn matched_command<'a>(
    alloc: Global,
    lines: &[CommandWords],
    mut matches: ArgMatches<'a>,
    words: &'a [String],
) -> Result<Request<'a>, WordFault<'a>> {
    let long = long_names(alloc, words)?;
    if let Some((name, found)) = matches.remove_subcommand() {
        if let Some(line) = lines.iter().find(|line| line.name == name) {
            let none = Vec::new(alloc);
            return Ok(Request::Command(*line, Matched { found, none, long }));
        }
    }
    Err(WordFault::from(Phrase::WITHOUT_COMMAND.of("")))
}

// Returns what follows the line of a mistake. The text of a help is kept in `help`.
fn more_of<'a>(
    alloc: Global,
    krbfile: &mut Command<'a>,
    line: &BadLine<'a>,
    help: &'a mut String,
) -> Result<More<'a>, AllocError> {
    match (line.mistake.phrase, line.command) {
        (Phrase::WITHOUT_COMMAND, _) => {
            *help = krbfile.render_help()?;
            Ok(More::Help(help.as_str()))
        }
        (Phrase::UNKNOWN_COMMAND, _) => meant_command(alloc, krbfile, line.mistake.word),
        (Phrase::UNKNOWN_OPTION, Some(name)) => match krbfile.find_subcommand(name) {
            Some(command) => meant_option(alloc, command, line.mistake.word),
            None => Ok(More::Nothing),
        },
        _ => Ok(More::Nothing),
    }
}

// Returns a help text with the findings, a line each, in place of its line `{findings}`.
fn with_findings(alloc: Global, help: String) -> Result<String, AllocError> {
    let Some((before, after)) = help.split_once("{findings}\n") else {
        return Ok(help);
    };
    let mut text = format!(in alloc; "{before}")?;
    for finding in &FINDINGS {
        let row = finding.row();
        let line = format!(in alloc; "  {:<10}{}\n", row.word, row.phrase)?;
        text.push_str(&line)?;
    }
    text.push_str(after)?;
    Ok(text)
}

// Returns the help or the version that the words request, or what is wrong with them.
fn without_matches<'a>(
    alloc: Global,
    error: &Error,
    command: &mut Command<'a>,
    words: &'a [String],
    help: &'a mut String,
) -> Result<Request<'a>, WordFault<'a>> {
    match error.kind() {
        ErrorKind::OutOfMemory => Err(WordFault::NoMemory),
        // Requested help, or the version, is no error.
        ErrorKind::DisplayHelp | ErrorKind::DisplayVersion => {
            Ok(Request::Help(with_findings(alloc, format!(in alloc; "{error}")?)?))
        }
        _ => {
            let line = bad_line(command, words);
            let more = more_of(alloc, command, &line, help)?;
            Err(WordFault::BadLine(BadLine { more, ..line }))
        }
    }
}

/// Returns what the words request of those commands; the first word is the program's name. `help` is for a help text
/// that a fault shows.
pub fn parse_words<'a>(
    alloc: Global,
    lines: &[CommandWords],
    words: &'a mut [String],
    help: &'a mut String,
) -> Result<Request<'a>, WordFault<'a>> {
    let word = words_behind(words).first();
    let mut command = krbfile_command(alloc, lines, word.map(|word| word.as_str()))?;
    double_equals(alloc, &command, words)?;
    let words: &'a [String] = words;
    match command.try_get_matches_from_mut(words) {
        Ok(matches) => matched_command(alloc, lines, matches, words),
        Err(error) => without_matches(alloc, &error, &mut command, words, help),
    }
}
