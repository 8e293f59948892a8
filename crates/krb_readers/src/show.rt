//! show: the view for people, of keytabs and caches.

pub(crate) mod words;

ghost use Rattle.std.specs.Prelude.{◌≡◌, ◌++◌, OnOk};
ghost use Rattle.krb_driver.specs.Commands.{IsMade};
ghost use Rattle.krb_driver.specs.Composing.{text_effect};
ghost use Rattle.krb_driver.specs.Either.{damage_of, state_of};
ghost use Rattle.krb_driver.specs.RunErrors.{listing_verdict};
ghost use Rattle.krb_readers.specs.Klist.{printed_after};
ghost use Rattle.krb_readers.specs.Show.{ShowsAll, show_plan, shows, view_of};

use crate::show::words::ShowOptions;
use krb_driver::{
    Contents, EitherUse, FileError, FileName, Made, MakeResult, Output, OverFiles, RunEnd,
    RunError, Verdict, World, append_name, end_before, open, run_over,
};
use krb_files::Files;
use krb_show::{append_cache_view, append_keytab_view};
use krb_text::append;
use krb_wire::{NoMemory, Order};
use std::alloc::Allocator;
use std::io::{Read, Write};

/// The command show.
#[derive(Clone, Copy)]
struct ShowFiles {
    v1_order: Order,
    /// The time, in seconds.
    now: u32,
}

// Appends what is shown of a file of that name, as it is printed.
fn append_view<A: Allocator + Copy>(
    alloc: A,
    name: &[u8],
    now: u32,
    mode: Option<u32>,
    of: &Contents<A>,
    out: &mut Vec<u8, A>,
) -> Result<(), NoMemory>
    ensures { OnOk result (out.new.items ≡ out.old.items ++ view_of name.now now mode (state_of of.now)) }
{
    match of {
        Contents::Keytab(keytab) => append_keytab_view(alloc, name, now, mode, keytab, out),
        Contents::Cache(cache) => append_cache_view(alloc, name, now, mode, cache, out),
    }
}

// Returns the verdict of a file, whose block reports the fault if there is one.
fn verdict_of<A: Allocator>(of: &Contents<A>) -> Verdict
    ensures { result ≡ listing_verdict (damage_of (state_of of.now)) }
{
    match of {
        Contents::Keytab(keytab) => Verdict::of_listing(keytab.fault()),
        Contents::Cache(cache) => Verdict::of_listing(cache.fault()),
    }
}

// Returns the block of a file: an empty line, if it is after another one, and what is shown of the file.
fn shown<'a, A: Allocator + Copy>(
    alloc: A,
    now: u32,
    is_after: bool,
    file: &'a str,
    mode: Option<u32>,
    of: Contents<A>,
) -> Result<Made<A, Output<A>>, FileError<'a>>
    ensures { IsMade (shows now is_after file.now mode (state_of of)) (text_effect file.now result) }
{
    let mut text = Vec::new(alloc);
    append(if is_after { b"\n" } else { b"" }, &mut text)?;
    let mut name = Vec::new(alloc);
    append_name(file.as_bytes(), &mut name)?;
    append_view(alloc, &name, now, mode, &of, &mut text)?;
    let verdict = verdict_of(&of);
    Ok(Made::Shows(Output { text, verdict }))
}

impl<A: Allocator + Copy> OverFiles<A> for ShowFiles {
    /// Another block was printed before.
    type State = bool;

    type Shown = Output<A>;

    ghost plan = { λ c. show_plan c.v1_order c.now };

    ghost after = { printed_after };

    fn make<'f, F: Files>(
        &'f self,
        alloc: A,
        is_after: bool,
        file: FileName<'f>,
        files: &mut F,
    ) -> MakeResult<'f, A, Output<A>> {
        let of = open(alloc, EitherUse(self.v1_order), files, file)?;
        shown(alloc, self.now, is_after, file.name, files.mode(), of)
    }

    fn after(printed: bool, end: RunEnd) -> bool
        ensures { result ≡ printed_after printed end }
    {
        end.ending.is_ok() || printed
    }
}

/// Shows keytabs and caches, one after the other, with an empty line between two, and returns the greatest status. `now`
/// is in seconds, or `None` if the clock was not read. Ends early if memory runs out or the output fails.
pub fn run_show<A: Allocator + Copy, F: Files, R: Read, W: Write, E: Write>(
    alloc: A,
    options: ShowOptions,
    now: Option<u32>,
    names: &[FileName<'_>],
    world: &mut World<F, R, W, E>,
) -> u8
    ensures { ShowsAll F.Files options.v1_order world.old world.new result names.now now }
{
    let v1_order = options.v1_order;
    match now {
        Some(now) => run_over(alloc, &ShowFiles { v1_order, now }, false, names, world).status,
        None => end_before(RunError::ClockNotRead, None, world),
    }
}
