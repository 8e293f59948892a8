//! The commands of ktutil, and the errors for lines that have a fault.

ghost use Rattle.std.specs.Prelude.{◌≡◌};
ghost use Rattle.krb_ktutil.specs.KtutilCommand.{is_either, verb_of, asks_for_help, fault_error, asks_for_password, words};

use crate::ktutil::options::has_password;
use crate::ktutil::words::next_word;
use krb_driver::RunError;
use krb_text::LineFault;

/// A command, without its operands.
#[derive(Clone, Copy)]
pub enum Verb {
    List,
    Read,
    Write,
    Add,
    Delete,
    Clear,
    Quit,
}

/// Returns whether a word is one of two names.
pub fn is_either(word: &[u8], long: &str, short: &str) -> bool
    ensures { result ≡ is_either word.now long.now short.now }
{
    word == long.as_bytes() || word == short.as_bytes()
}

/// Returns the command that a word names.
pub fn verb_of(word: &[u8]) -> Option<Verb>
    ensures { result ≡ verb_of word.now }
{
    let verb = if is_either(word, "list", "l") {
        Verb::List
    } else if is_either(word, "read_kt", "rkt") {
        Verb::Read
    } else if is_either(word, "write_kt", "wkt") {
        Verb::Write
    } else if is_either(word, "add_entry", "addent") {
        Verb::Add
    } else if is_either(word, "delete_entry", "delent") {
        Verb::Delete
    } else if is_either(word, "clear_list", "clear") {
        Verb::Clear
    } else if is_either(word, "quit", "q") || word == b"exit".as_slice() {
        Verb::Quit
    } else {
        return None;
    };
    Some(verb)
}

/// Returns whether a line adds an entry with a key from a password.
pub fn asks_for_password(line: &[u8]) -> bool
    ensures { result ≡ asks_for_password (words line.now) }
{
    match next_word(line) {
        Some((command, options)) => {
            matches!(verb_of(command), Some(Verb::Add)) && has_password(options)
        }
        None => false,
    }
}

// Returns whether a line asks for help, or for the commands.
fn asks_for_help(line: &[u8]) -> bool
    ensures { result ≡ asks_for_help (words line.now) }
{
    match next_word(line) {
        Some((command, _)) => {
            is_either(command, "?", "help") || is_either(command, "lr", "list_requests")
        }
        None => false,
    }
}

/// Returns the error for a line of that number with that fault.
pub fn fault_error(number: u64, line: &[u8], fault: LineFault) -> RunError
    ensures { result ≡ fault_error number (words line.now) fault }
{
    match fault {
        LineFault::WordCount if asks_for_password(line) => RunError::FromPassword { line: number },
        LineFault::UnknownWord if asks_for_help(line) => RunError::AsksForHelp { line: number },
        _ => RunError::FaultyLine {
            line: number,
            fault,
        },
    }
}
