//! The command line, and its run.

ghost use Rattle.std.specs.Prelude.{◌≡◌, ◌↔◌, ℕ, IsTrue, Option, Some};
ghost use Rattle.krb_commands.specs.Actions.{DefaultName, EndsParsed};
ghost use Rattle.krb_driver.specs.Mistakes.{IsOf, not_text};
ghost use Rattle.krbfile.specs.Silence.{is_silent};

use crate::default_name::{FoundName, found_name};
use krb_command_line::{Request, parse_words};
use krb_commands::{
    Action, COMMANDS, Needs, Phrase, WordFault, World, action_of, respond,
    words_of as command_words,
};
use krb_files::{Files, Watched, put};
use std::alloc::Global;
use std::env::FillError;
use std::io::{Read, Write};
use std::time::{Clock, SystemTime, UNIX_EPOCH};
use std::{env, io, rt};
use wiping::Wiping;

/// Returns whether the environment has KRBFILE_EXPLAIN, other than empty or `0`. Takes no memory.
pub fn is_told_to_explain<R: rt::Env>(rt: &R) -> bool {
    let mut value = [0; 1];
    match rt.var("KRBFILE_EXPLAIN", &mut value) {
        Ok(length) => length > 0 && value != *b"0",
        Err(FillError::TooLong) => true,
        Err(FillError::NotPresent) => false,
    }
}

// Returns whether `--explain` is the first word after the program's name.
fn begins_with_explain<R: rt::Env>(rt: &R) -> bool {
    word_of(rt, 1, &mut [0; 16]) == b"--explain".as_slice()
}

/// Returns whether `--explain` is one of the words before a first `--`. They need not be UTF-8. Takes no memory.
pub fn asks_to_explain<R: rt::Env>(rt: &R) -> bool {
    let mut buffer = [0; 9];
    for number in 1..usize::MAX {
        match rt.arg(number, &mut buffer) {
            Ok(9) if buffer == *b"--explain" => return true,
            Ok(2) if buffer.starts_with(b"--") => return false,
            Err(FillError::NotPresent) => return false,
            _ => {}
        }
    }
    false
}

/// The most words that are looked at.
const MOST: usize = 64;

// Returns whether a word is `--silent`, or a bundle of letters with `s` among them.
fn is_silent(word: &[u8]) -> bool
    ensures { result ≡ is_silent word.now }
{
    match word {
        [first, letters @ ..] if !letters.is_empty() => {
            word == b"--silent".as_slice()
                || *first == b'-' && letters[0] != b'-' && letters.contains(&b's')
        }
        _ => false,
    }
}

// Returns the word of that number; an empty one if there is none, or if it is longer than the buffer.
fn word_of<'a, R: rt::Env>(rt: &R, number: usize, word: &'a mut [u8; 16]) -> &'a [u8] {
    match rt.arg(number, word) {
        Ok(length) => &word[..length],
        Err(_) => &[],
    }
}

/// Returns whether the words are those of `klist -s`.
pub fn asks_for_silence<R: rt::Env>(rt: &R) -> bool {
    let first = if begins_with_explain(rt) { 2 } else { 1 };
    word_of(rt, first, &mut [0; 16]) == b"klist".as_slice()
        && (first + 1..MOST).any(|number| is_silent(word_of(rt, number, &mut [0; 16])))
}

// Returns the fault of a line with an argument that is not UTF-8.
fn not_text() -> WordFault<'static>
    ensures { IsOf (Some not_text) result }
{
    WordFault::from(Phrase::NOT_TEXT.of(""))
}

/// Returns the words of the command line. If one is not UTF-8, the line is bad.
pub fn words_of<R: rt::Env + AllocGlobal>(rt: &R) -> Result<Vec<String>, WordFault<'static>> {
    match env::args(rt) {
        Ok(words) => Ok(words.collect(rt.alloc())?),
        Err(error) if error.kind() == io::ErrorKind::OutOfMemory => Err(WordFault::NoMemory),
        Err(_) => Err(not_text()),
    }
}

/// Returns the action that the words of the command line request. `help` is for a help text that a fault shows.
pub fn parsed<'a>(
    alloc: Global,
    words: &'a mut Result<Vec<String>, WordFault<'static>>,
    help: &'a mut String,
) -> Result<Action<'a>, WordFault<'a>> {
    match words {
        Ok(words) => match parse_words(alloc, &COMMANDS, words, help)? {
            Request::Help(text) => Ok(Action::Help(text)),
            Request::Command(line, matched) => action_of(alloc, line.command, line.name, &matched),
        },
        Err(fault) => Err(*fault),
    }
}

/// Says how a script that is typed ends. Ignores a failure.
pub fn announce_script<E: Write>(err: &mut Watched<E>) {
    let _ = put(err, b"krbfile: reading a script; end it with Ctrl-D\n");
}

/// Returns whether memory ran out for the words of the command line.
pub fn is_out_of_memory(parsed: &Result<Action<'_>, WordFault<'_>>) -> bool
    ensures { IsTrue result ↔ (parsed.now ≡ Err WordFault.NoMemory) }
{
    matches!(parsed, Err(WordFault::NoMemory))
}

// Returns the seconds since 1970, or `None` if the clock fails or they do not fit.
fn seconds_now<C: Clock>(clock: &C) -> Option<u32> {
    let now = SystemTime::now(clock).ok()?;
    let since_1970 = now.duration_since(UNIX_EPOCH).ok()?;
    u32::try_from(since_1970.as_secs()).ok()
}

/// Runs an action, or reports why the command line was not read, and returns the exit status. The clock is read at
/// most once, and only if the run needs it; the environment only if the line leaves out the file. The action runs in
/// memory that is cleared before it is freed.
pub fn run<H: rt::Clock + rt::Env + rt::Files + AllocGlobal, F: Files, R: Read, W: Write, E: Write>(
    rt: &H,
    parsed: &Result<Action<'_>, WordFault<'_>>,
    needs: Needs,
    world: &mut World<F, R, W, E>,
) -> u8
    // The action, or the mistake in the line, the clock and the default name decide the run.
    ensures { (now : Option ℕ) × (name : DefaultName) × EndsParsed F.Files world.old world.new result now name parsed.now }
{
    let alloc = Wiping::new(rt.alloc());
    let now = if needs.clock { seconds_now(rt) } else { None };
    let name = match needs.left_out {
        Some(file) => found_name(rt, file, command_words(file.command).name),
        None => FoundName::none(),
    };
    respond(alloc, parsed, now, name.file(), world)
}
