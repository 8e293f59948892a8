//! What messages say.

ghost use Rattle.std.specs.Prelude.{◌≡◌, [], ◌++◌, decimal, OnOk};
ghost use Rattle.std.specs.Option.{option_map_or};
ghost use Rattle.krb_driver.specs.ErrorRows.{said_text, says_of};
ghost use Rattle.krb_driver.specs.Messages.{file_message, phrase_line, piece_text, pieces_text};
ghost use Rattle.krb_driver.specs.RunErrors.{message_about, said_of_file};

use crate::error::RunError;
use crate::not_opened::OpenFault;
use crate::reporting::lines::{Line, line, words};
use crate::reporting::piece::MessagePiece::{self, Name, Number, Text};
use crate::reporting::piece::{COLON, END, HEAD};
use crate::reporting::row::Subject;
use itoa::Buffer;
use krb_text::LineFault;
use krb_walk::Code;
use krb_wire::NoMemory;
use std::alloc::Allocator;

/// What a message says after what it is about.
#[derive(Clone, Copy)]
pub enum Said {
    /// A text.
    Alone(&'static str),
    Refused(Code),
    /// The fault of a line.
    Faulty(LineFault),
    /// Why a file did not open.
    NotOpened(OpenFault),
    /// The place from which on MIT's programs see no entry.
    Hidden(u32),
}

/// A text, a number if there is one, and the text after it.
type Parts = (&'static str, Option<u32>, &'static str);

impl Said {
    fn parts(self) -> Parts
        ensures { said_text (says_of self) ≡ result.0.now ++ (option_map_or decimal result.1 [] ++ result.2.now) }
    {
        match self {
            Said::Alone(text) => (text, None, ""),
            Said::Refused(code) => ("refused ", Some(code.number()), ""),
            Said::Faulty(fault) => ("fault ", Some(fault.number()), ""),
            Said::NotOpened(OpenFault::Keytab(why)) => ("not a keytab (", Some(why.number()), ")"),
            Said::NotOpened(OpenFault::Cache(why)) => ("not a cache (", Some(why.number()), ")"),
            Said::Hidden(place) => ("MIT's programs see no entry from ", Some(place), " on"),
        }
    }
}

// Returns a number, if there is one.
fn number_if(number: Option<u32>) -> MessagePiece<'static>
    ensures { piece_text result ≡ option_map_or decimal number [] }
{
    match number {
        Some(number) => Number(u64::from(number)),
        None => Text(""),
    }
}

// Returns the message about the run or a line of the input.
fn input_message<'a>(line: Option<u64>, parts: Parts) -> Line<'a>
    ensures { pieces_text result.items ≡ phrase_line line (parts.entry.0.now ++ (option_map_or decimal parts.entry.1 [] ++ parts.entry.2.now)) }
{
    let (before, number, after) = (Text(parts.0), number_if(parts.1), Text(parts.2));
    words(line, &[before, number, after, END])
}

// Returns the message about a file.
fn file_message(file: &[u8], parts: Parts) -> Line<'_>
    ensures { pieces_text result.items ≡ file_message file.now (parts.entry.0.now ++ (option_map_or decimal parts.entry.1 [] ++ parts.entry.2.now)) }
{
    let (before, number, after) = (Text(parts.0), number_if(parts.1), Text(parts.2));
    line(&[HEAD, Name(file), COLON, before, number, after, END])
}

/// Returns the message that says that of the run, of a file or of a line of the input.
pub fn message(subject: Subject, file: &[u8], said: Said) -> Line<'_>
    ensures { pieces_text result.items ≡ message_about subject file.now (said_text (says_of said)) }
{
    let parts = said.parts();
    match subject {
        Subject::Run => input_message(None, parts),
        Subject::File => file_message(file, parts),
        Subject::Line(line) => input_message(Some(line), parts),
    }
}

/// Appends what the message for an error says after the name of a file; nothing if it names none.
pub fn append_said<A: Allocator>(error: RunError, out: &mut Vec<u8, A>) -> Result<(), NoMemory>
    ensures { OnOk result (out.new.items ≡ out.old.items ++ said_of_file error) }
{
    let row = error.row();
    if !matches!(row.subject, Subject::File) {
        return Ok(());
    }
    let (before, number, after) = row.said.parts();
    out.extend_from_slice(before.as_bytes())?;
    if let Some(number) = number {
        out.extend_from_slice(Buffer::new().format(number).as_bytes())?;
    }
    out.extend_from_slice(after.as_bytes())?;
    Ok(())
}
