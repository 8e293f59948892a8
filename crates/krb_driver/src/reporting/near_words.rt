//! The words for an entry whose name is nearly that of a ticket.

ghost use Rattle.std.specs.Prelude.{◌≡◌, ◌++◌, option_map};
ghost use Rattle.krb_driver.specs.EndingWords.{found_fault_words};
ghost use Rattle.krb_driver.specs.Messages.{pieces_text};
ghost use Rattle.krb_driver.specs.Runs.{NamesNear, Writes, near_words, words_if};

use crate::reporting::ErrorOutput;
use crate::reporting::ending_words::fault_words;
use crate::reporting::lines::{Line, nothing, words};
use crate::reporting::piece::END;
use crate::reporting::piece::MessagePiece::{Operand, Text};
use crate::reporting::writing::{add_line, send};
use arrayvec::ArrayVec;
use krb_files::Watched;
use krb_walk::Fault;
use std::io::Write;

// Returns the words for a name that the keytab has, if one is given.
#[tactic(auto, unfolding(crate::specs::Runs::near_words))]
fn near_words(near: Option<&[u8]>) -> Line<'_>
    ensures { pieces_text result.items ≡ near_words (option_map (λ name. name.now) near.entry) }
{
    match near {
        Some(name) => words(None, &[Text("the keytab has "), Operand(name), END]),
        None => nothing(),
    }
}

// Writes that name and that fault, if words are shown.
fn write_near<E: Write>(
    explains: bool,
    near: Option<&[u8]>,
    file: &[u8],
    fault: Option<Fault>,
    err: &mut Watched<E>,
)
    ensures { Writes err.old err.new (words_if explains
        (near_words (option_map (λ name. name.now) near.entry) ++ found_fault_words file.now fault)) }
{
    let mut gathered = ArrayVec::new();
    if explains {
        add_line(&near_words(near), &mut gathered, err);
        add_line(&fault_words(file, fault), &mut gathered, err);
    }
    send(&gathered, err);
}

/// Writes on `err`, if it explains, the name that the keytab has, if one is given, and the fault of a file, if it has one.
/// Ignores a failure of `err`.
pub fn name_near<E: Write>(
    near: Option<&[u8]>,
    file: &[u8],
    fault: Option<Fault>,
    err: &mut ErrorOutput<E>,
)
    ensures { NamesNear (option_map (λ name. name.now) near.entry) file.now fault err.old err.new }
{
    write_near(err.explains, near, file, fault, &mut err.to);
}
