//! Ends of runs that use no file.

ghost use Rattle.krb_driver.specs.Commands.{EndsBefore, Prints};

use crate::command::World;
use crate::error::RunError;
use crate::reporting::details::Details;
use crate::reporting::{report, show};
use crate::verdict::Verdict;
use krb_files::{Cause, Files};
use std::io::{Read, Write};

/// Prints a text, without a file, and reports how that ended. Returns the exit status.
pub fn print<F: Files, R: Read, W: Write, E: Write>(
    text: &[u8],
    ending: Result<Verdict, RunError>,
    world: &mut World<F, R, W, E>,
) -> u8
    ensures { Prints F.Files world.old world.new result (record { out = text.now; ending = ending }) }
{
    let ending = show(text, ending, &mut world.out);
    let details = Details::unsaved(world.out.cause());
    report(ending, b"", None, details, &mut world.err)
}

/// Ends a run, before it does anything, with an error that has that cause. Returns the exit status.
pub fn end_before<F: Files, R: Read, W: Write, E: Write>(
    error: RunError,
    cause: Option<Cause>,
    world: &mut World<F, R, W, E>,
) -> u8
    ensures { EndsBefore F.Files world.old world.new result error }
{
    let details = Details::unsaved(cause);
    report(Err(error), b"", None, details, &mut world.err)
}
