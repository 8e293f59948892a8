//! Runs of one command over several files, one after the other.

ghost use Rattle.std.specs.Prelude.{◌≡◌, IfOk, max};
ghost use Rattle.krb_driver.specs.Commands.{EndsCommand, any};
ghost use Rattle.krb_driver.specs.Several.{RunsOver, first_round, is_last, label_of};

use crate::command::{MakeResult, RunEnd, Show, World, finish};
use crate::error::RunError;
use crate::file_name::{FileName, append_name};
use crate::verdict::Verdict;
use krb_files::Files;
use krb_wire::NoMemory;
use std::alloc::Allocator;
use std::io::{Read, Write};

/// A command over each of several files.
pub trait OverFiles<A: Allocator + Copy> {
    ghost use Rattle.std.specs.Prelude.{◌≡◌, ℕ, Option};
    ghost use Rattle.krb_driver.specs.Commands.{CommandPlan, MakesFairly, any};
    ghost use Rattle.krb_driver.specs.Composing.{made_effect};
    ghost use Rattle.krb_driver.specs.declared.command.RunEnd.{RunEnd};
    ghost use Rattle.krb_driver.specs.declared.file_name.FileName.{FileName};

    /// What it remembers from one file to the next.
    type State: Copy;

    /// What it shows of a file.
    type Shown: Show<A>;

    /// All that it does with a file, given the mode of the file that it loads last.
    ghost plan: { Self → Self.State → FileName → Option ℕ → CommandPlan };

    /// What it remembers after a run that ended so.
    ghost after: { Self.State → RunEnd → Self.State };

    /// Loads a file, holds it if it may be changed, and returns what to save and show.
    fn make<'f, F: Files>(
        &'f self,
        alloc: A,
        state: Self::State,
        file: FileName<'f>,
        files: &mut F,
    ) -> MakeResult<'f, A, Self::Shown>
        ensures { MakesFairly F.Files files.old (plan self.now state file.entry (F.Files.mode files.new)) any
            (made_effect Self.Shown.page file.entry.name.now result) files.new };

    /// Returns what it remembers after a run that ended so.
    fn after(state: Self::State, end: RunEnd) -> Self::State
        ensures { result ≡ after state end };
}

/// What runs over files came to: what the command remembers, and the greatest status.
#[derive(Clone, Copy)]
pub struct Ran<S: Copy> {
    pub state: S,
    pub status: u8,
}

impl<S: Copy> Ran<S> {
    // Adds the run of one more file: its state, and the greater status.
    fn with(self, state: S, status: u8) -> Ran<S>
        ensures state { result.state ≡ state }
        ensures status { result.status ≡ max self.status status }
    {
        Ran {
            state,
            status: self.status.max(status),
        }
    }
}

// Returns whether no file comes after a run that ended so: memory ran out, or the output failed.
fn is_last(ending: &Result<Verdict, RunError>) -> bool
    ensures { result ≡ is_last ending.now }
{
    matches!(ending, Err(RunError::NoMemory | RunError::OutputNotWritten))
}

// Runs a command over a file.
fn run_file<A: Allocator + Copy, C: OverFiles<A>, F: Files, R: Read, W: Write, E: Write>(
    alloc: A,
    command: &C,
    state: C::State,
    file: FileName<'_>,
    world: &mut World<F, R, W, E>,
) -> RunEnd
    ensures { EndsCommand F.Files (C.plan command.now state file.entry) any world.old world.new result }
{
    let made = command.make(alloc, state, file, &mut world.files);
    finish(alloc, file.name, None, made, world)
}

/// Runs a command over files, one after the other. Ends early if memory runs out or the output fails.
pub fn run_over<A: Allocator + Copy, C: OverFiles<A>, F: Files, R: Read, W: Write, E: Write>(
    alloc: A,
    command: &C,
    first: C::State,
    names: &[FileName<'_>],
    world: &mut World<F, R, W, E>,
) -> Ran<C::State>
    ensures { RunsOver F.Files (C.plan command.now) C.after names.now (first_round first world.old)
        (record { world = world.new; state = result.state; status = result.status }) }
{
    let mut ran = Ran {
        state: first,
        status: 0,
    };
    'names: for file in names {
        let end = run_file(alloc, command, ran.state, *file, world);
        ran = ran.with(C::after(ran.state, end), end.status);
        if is_last(&end.ending) {
            return ran;
        }
    }
    ran
}

/// Returns what the lines of a file begin with: its name, if there are several files.
pub fn label_of<A: Allocator>(
    alloc: A,
    are_several: bool,
    file: FileName<'_>,
) -> Result<Vec<u8, A>, NoMemory>
    ensures { IfOk result (λ label. label.items ≡ label_of are_several file.entry.name.now) }
{
    let mut label = Vec::new(alloc);
    if are_several {
        append_name(file.name.as_bytes(), &mut label)?;
        label.extend_from_slice(b": ")?;
    }
    Ok(label)
}
