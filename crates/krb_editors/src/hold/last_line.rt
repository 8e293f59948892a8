//! The last line of a run of hold, for the program that started it.

ghost use Rattle.std.specs.Prelude.{◌≡◌};
ghost use Rattle.krb_driver.specs.Messages.{piece_text, pieces_text};
ghost use Rattle.krb_editors.specs.HoldEnds.{TellsEnd, cause_name_or, end_of, last_line, why_failed};

use krb_driver::MessagePiece::{self, Number, Text};
use krb_driver::{FileError, Line, RunError, Said, line, write_pieces};
use krb_files::{Aftermath, Cause, Watched};
use std::io::Write;

/// What a run without an error did with the file.
#[derive(Clone, Copy)]
pub enum Outcome {
    Saved,
    /// There was nothing to save.
    Left,
}

// Returns the name that errno.h has for a cause, or for an unknown one.
fn cause_name_or(cause: Option<Cause>) -> &'static str
    ensures { result.now ≡ cause_name_or cause }
{
    match cause {
        Some(cause) => cause.name(),
        None => "EIO",
    }
}

// Returns why a run failed: the number that krbfile.h has for it, or else a name as in errno.h.
fn why_failed(error: RunError, cause: Option<Cause>) -> MessagePiece<'static>
    ensures { piece_text result ≡ why_failed error cause }
{
    let row = error.row();
    match row.said {
        Said::NotOpened(fault) => Number(10 + u64::from(fault.number())),
        Said::Refused(code) => Number(30 + u64::from(code.number())),
        _ if row.name.is_empty() => Text(cause_name_or(cause)),
        _ => Text(row.name),
    }
}

// Returns the line that says how a run with that status ended.
fn last_line(
    end: Result<Outcome, FileError<'_>>,
    status: u8,
    cause: Option<Cause>,
    aftermath: Option<Aftermath>,
) -> Line<'static>
    ensures { pieces_text result.items ≡ last_line status cause aftermath (end_of end.entry) }
{
    let said = match (aftermath, end) {
        (Some(Aftermath::Damaged | Aftermath::Mixed), _) => "damaged\n",
        (Some(Aftermath::LostChange), _) => "lost\n",
        (_, Ok(Outcome::Saved)) => "saved\n",
        (_, Ok(Outcome::Left)) => "left\n",
        (_, Err(met)) => {
            let (status, why) = (Number(u64::from(status)), why_failed(met.error, cause));
            return line(&[Text("failed "), status, Text(" "), why, Text("\n")]);
        }
    };
    line(&[Text(said)])
}

/// Writes the line that says how a run with that status ended, unless the output has failed. Ignores a failure.
pub fn tell_end<W: Write>(
    end: Result<Outcome, FileError<'_>>,
    status: u8,
    cause: Option<Cause>,
    aftermath: Option<Aftermath>,
    out: &mut Watched<W>,
)
    ensures { TellsEnd out.old out.new (last_line status cause aftermath (end_of end.entry)) }
{
    if out.has_failed() {
        return;
    }
    write_pieces(last_line(end, status, cause, aftermath).as_slice(), out);
}
