//! What the calls of a run report beside their results.

ghost use Rattle.std.specs.Prelude.{◌≡◌, None};

use crate::error::RunError;
use crate::verdict::Verdict;
use krb_files::{Aftermath, Cause, Files, Watched};
use std::io::Write;

/// What the calls of a run, or of a line of ktutil, report beside their results.
#[derive(Clone, Copy)]
pub struct Details<'a> {
    /// Why a call failed, if one did and that is known.
    pub cause: Option<Cause>,
    /// The path at which something that is not ours keeps a save from making its new file, if that is known.
    pub in_the_way: Option<&'a str>,
    /// What the save left behind, if that is to be reported.
    pub aftermath: Option<Aftermath>,
}

/// What the report of an end is about: a file, or a line of ktutil, and what calls reported.
#[derive(Clone, Copy)]
pub struct About<'a> {
    pub file: &'a [u8],
    pub line: Option<u64>,
    pub details: Details<'a>,
}

impl<'a> Details<'a> {
    /// Returns the details of calls without a save.
    pub fn unsaved(cause: Option<Cause>) -> Details<'a>
        ensures cause { result.cause ≡ cause }
        ensures aftermath { result.aftermath ≡ None }
    {
        Details {
            cause,
            in_the_way: None,
            aftermath: None,
        }
    }
}

/// Returns the details of a run that ended so: why its failed call failed, the last write of `out` or a call of `files`,
/// and what the last save of `files` left behind.
pub fn details_of<'a, F: Files, W: Write>(
    ending: &Result<Verdict, RunError>,
    files: &'a F,
    out: &Watched<W>,
) -> Details<'a>
    ensures left { result.aftermath ≡ F.Files.aftermath files.now }
    ensures honest { F.Files.is_honest files.now → F.Files.aftermath files.now ≡ None }
{
    let cause = match ending {
        Err(RunError::OutputNotWritten) => out.cause(),
        _ => files.cause(),
    };
    Details {
        cause,
        in_the_way: files.in_the_way(),
        aftermath: files.aftermath(),
    }
}
