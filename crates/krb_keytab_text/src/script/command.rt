//! The commands that all scripts share.

ghost use Rattle.std.specs.Prelude.{◌≡◌};
ghost use Rattle.krb_keytab_text.specs.Script.{command_named, no_words, lone_number, event_by, common_event};

use krb_text::{LineFault, Words, number_word};
use krb_walk::Event;

/// A command for an event that all stores have.
#[derive(Clone, Copy)]
pub enum Command {
    Start,
    Resume,
    Step,
    Cut,
    Rewrite,
}

impl Command {
    /// Returns the command with this name, if there is one.
    pub fn named(word: &[u8]) -> Option<Command>
        ensures { result ≡ command_named word.now }
    {
        if word == b"start".as_slice() {
            Some(Command::Start)
        } else if word == b"resume".as_slice() {
            Some(Command::Resume)
        } else if word == b"step".as_slice() {
            Some(Command::Step)
        } else if word == b"cut".as_slice() {
            Some(Command::Cut)
        } else if word == b"rewrite".as_slice() {
            Some(Command::Rewrite)
        } else {
            None
        }
    }
}

fn no_words(mut words: Words<'_>) -> Result<(), LineFault>
    ensures { result ≡ no_words words.entry }
{
    match words.next() {
        None => Ok(()),
        Some(_) => Err(LineFault::WordCount),
    }
}

// Parses exactly one word, a number.
fn lone_number(mut words: Words<'_>) -> Result<u32, LineFault>
    ensures { result ≡ lone_number words.entry }
{
    let word = words.next().ok_or(LineFault::WordCount)?;
    no_words(words)?;
    number_word(word)
}

// Parses the words after a command; returns its event.
fn event_by<I>(command: Command, words: Words<'_>) -> Result<Event<I>, LineFault>
    ensures { result ≡ event_by command words.entry }
{
    match command {
        Command::Start => {
            no_words(words)?;
            Ok(Event::Start)
        }
        Command::Resume => Ok(Event::Resume(lone_number(words)?)),
        Command::Step => Ok(Event::Step(lone_number(words)?)),
        Command::Cut => Ok(Event::Cut(lone_number(words)?)),
        Command::Rewrite => {
            no_words(words)?;
            Ok(Event::Rewrite)
        }
    }
}

/// Parses a line's first word as a command, and the words after it; returns the event.
pub fn common_event<I>(word: &[u8], words: Words<'_>) -> Result<Event<I>, LineFault>
    ensures { result ≡ common_event word.now words.entry }
{
    let command = Command::named(word).ok_or(LineFault::UnknownWord)?;
    event_by(command, words)
}
