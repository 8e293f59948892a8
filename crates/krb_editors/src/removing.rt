//! Removals from several files: what was seen of them, and what is reported at their end.

ghost use Rattle.std.specs.Prelude.{◌≡◌};
ghost use Rattle.krb_editors.specs.Removing.{EndsRemovals, LooksAndRemoves, seen_after, seen_of};

use crate::missing_files::is_one_missing;
use krb_driver::{
    FileKind, FileName, OverFiles, Ran, RunEnd, RunError, Verdict, World, print, run_over,
};
use krb_files::Files;
use std::alloc::Allocator;
use std::io::{Read, Write};

/// The most that was seen of several files.
#[derive(Clone, Copy)]
pub enum FilesSeen {
    /// Of each a message was reported before anything was asked of it.
    None,
    /// One is without what is asked for.
    Without,
    /// Another one was asked.
    Asked,
}

impl FilesSeen {
    // Returns what is seen of a file whose run ended so, or which ends the runs.
    fn of(ending: Result<Verdict, RunError>) -> FilesSeen
        ensures { result ≡ seen_of ending }
    {
        match ending {
            Ok(Verdict::Without) => FilesSeen::Without,
            Ok(_)
            | Err(RunError::FileNotWritten | RunError::OutputNotWritten | RunError::NoMemory) => {
                FilesSeen::Asked
            }
            Err(_) => FilesSeen::None,
        }
    }

    /// Returns the most that was seen after a run that ended so.
    pub fn after(self, end: RunEnd) -> FilesSeen
        ensures { result ≡ seen_after self end }
    {
        match (self, FilesSeen::of(end.ending)) {
            (FilesSeen::None, seen) => seen,
            (FilesSeen::Without, FilesSeen::None) => FilesSeen::Without,
            (FilesSeen::Without, seen) => seen,
            (FilesSeen::Asked, _) => FilesSeen::Asked,
        }
    }
}

// Ends removals from files of that kind, and returns the exit status: reports if there is nothing of what is asked for
// in any that was asked.
fn end_removals<F: Files, R: Read, W: Write, E: Write>(
    kind: FileKind,
    ran: Ran<FilesSeen>,
    world: &mut World<F, R, W, E>,
) -> u8
    ensures { EndsRemovals F.Files world.old world.new result kind ran.state ran.status }
{
    if !matches!(ran.state, FilesSeen::Without) {
        return ran.status;
    }
    let status = print(b"", Err(RunError::NothingSelected(kind)), world);
    ran.status.max(status)
}

/// Removes from files of that kind, one after the other, and returns the exit status. Reports those of several that are
/// missing, and then does no more.
pub fn run_removals<A, C, F: Files, R: Read, W: Write, E: Write>(
    alloc: A,
    kind: FileKind,
    command: &C,
    names: &[FileName<'_>],
    world: &mut World<F, R, W, E>,
) -> u8
where
    A: Allocator + Copy,
    C: OverFiles<A, State = FilesSeen>,
    ensures { LooksAndRemoves F.Files kind names.now world.old world.new result (C.plan command.now) C.after }
{
    if is_one_missing(names, world) {
        return 1;
    }
    let ran = run_over(alloc, command, FilesSeen::None, names, world);
    end_removals(kind, ran, world)
}
