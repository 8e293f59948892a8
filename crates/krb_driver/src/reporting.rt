//! What a run prints, and how its end is reported.

pub(crate) mod details;
mod ending_words;
mod hints;
mod key_start;
mod lines;
mod mistake_words;
mod name_words;
mod near_words;
mod operand;
mod piece;
pub(crate) mod reported;
mod row;
mod said;
mod words;
mod writing;

ghost use Rattle.std.specs.Prelude.{◌≡◌};
ghost use Rattle.krb_driver.specs.Messages.{pieces_text};
ghost use Rattle.krb_driver.specs.Runs.{Writes, Shows, Reports, aftermath_text, ending_text, Adds};
ghost use Rattle.krb_driver.specs.RunErrors.{ending_message};

use crate::error::{RunError, end_status};
use crate::reporting::details::{About, Details};
use crate::reporting::ending_words::add_ending_words;
use crate::reporting::lines::{aftermath_line, is_message, nothing};
use crate::reporting::row::Subject;
use crate::reporting::said::message;
use crate::reporting::writing::{Gathered, add_line, send};
use crate::verdict::Verdict;
use arrayvec::ArrayVec;
use krb_files::{Watched, put};
use krb_walk::Code;
pub use lines::{Line, line};
pub use mistake_words::report_word_fault;
pub use near_words::name_near;
pub use piece::MessagePiece;
pub use row::ErrorRow;
pub use said::{Said, append_said};
use std::io::Write;
use std::marker::Model;
pub use writing::write_pieces;

/// An error output, and whether words that explain follow its messages.
#[derive(Drop)]
pub struct ErrorOutput<E: Write> {
    pub to: Watched<E>,
    pub explains: bool,
}

impl<E: Write> Model for ErrorOutput<E> {
    ghost use Rattle.krb_driver.specs.Runs.{ErrorWatch};

    ghost Value = { ErrorWatch };

    ghost view = { λ e. record { to = e.to; explains = e.explains } };
}

/// Prints a text and returns `ending`, or the error of the output if that failed.
pub fn show<W: Write>(
    text: &[u8],
    ending: Result<Verdict, RunError>,
    out: &mut Watched<W>,
) -> Result<Verdict, RunError>
    ensures { Shows (record { out = text.now; ending = ending }) out.old out.new result }
{
    put(out, text)?;
    ending
}

// Returns the message for the end of a run: that of an error, or that nothing was found to remove.
fn ending_message(ending: Result<Verdict, RunError>, file: &[u8]) -> Line<'_>
    ensures { pieces_text result.items ≡ ending_message file.now ending }
{
    match ending {
        Err(error) => {
            let row = error.row();
            message(row.subject, file, row.said)
        }
        Ok(Verdict::NothingToRemove(_)) => {
            message(Subject::File, file, Said::Refused(Code::NotFound))
        }
        Ok(_) => nothing(),
    }
}

// Adds what a save left behind, if there is that, and it is a message or words are shown.
fn add_aftermath<E: Write>(
    explains: bool,
    about: About<'_>,
    gathered: &mut Gathered,
    err: &mut Watched<E>,
)
    ensures { Adds err.old gathered.old.items err.new gathered.new.items
        (aftermath_text explains about.entry.file.now about.entry.line about.entry.details.aftermath) }
{
    let Some(aftermath) = about.details.aftermath else {
        return;
    };
    if explains || is_message(aftermath) {
        add_line(
            &aftermath_line(aftermath, about.file, about.line),
            gathered,
            err,
        );
    }
}

// Writes how a run ended, and what its save left behind, in one write if that fits.
fn write_ending<E: Write>(
    explains: bool,
    ending: Result<Verdict, RunError>,
    about: About<'_>,
    err: &mut Watched<E>,
)
    ensures { Writes err.old err.new (ending_text explains about.entry.file.now about.entry.line about.entry.details ending) }
{
    let mut gathered = ArrayVec::new();
    add_line(&ending_message(ending, about.file), &mut gathered, err);
    if explains {
        add_ending_words(ending, about, &mut gathered, err);
    }
    add_aftermath(explains, about, &mut gathered, err);
    send(&gathered, err);
}

/// Reports on `err` how a run over `file`, or line `line` of ktutil, ended, and then what its save left behind, and
/// returns the exit status. Ignores a failure of `err`.
pub fn report<E: Write>(
    ending: Result<Verdict, RunError>,
    file: &[u8],
    line: Option<u64>,
    details: Details<'_>,
    err: &mut ErrorOutput<E>,
) -> u8
    ensures { Reports file.now line details.entry ending err.old err.new result }
{
    let about = About {
        file,
        line,
        details,
    };
    write_ending(err.explains, ending, about, &mut err.to);
    end_status(ending, details.aftermath)
}
