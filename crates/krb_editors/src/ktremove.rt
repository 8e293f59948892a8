//! ktremove: removes entries from a keytab.

pub mod words;

ghost use Rattle.std.specs.Prelude.{◌≡◌, IfOk};
ghost use Rattle.krb_audit.specs.Selection.{Selects, selected_in};
ghost use Rattle.krb_driver.specs.Several.{label_of};
ghost use Rattle.krb_driver.specs.Commands.{IsMade};
ghost use Rattle.krb_driver.specs.Composing.{text_effect};
ghost use Rattle.krb_driver.specs.declared.verdict.FileKind.TheVariants.{Keytab as OfKeytab};
ghost use Rattle.krb_editors.specs.Removing.{RemovesWith};
ghost use Rattle.krb_editors.specs.Ktremove.{ktremove_plan, may_be_gone, needed_time, none_verdict, removes};

use crate::ktremove::words::RemoveOptions;
use crate::removing::{FilesSeen, run_removals};
use crate::selecting::is_of_any;
use krb_audit::{Selected, SelectedKvno, Selection, select};
use krb_driver::{
    FileError, FileKind, FileName, KeytabUse, Made, MakeResult, Output, OverFiles, RunEnd,
    RunError, Verdict, World, end_before, hold_if, label_of, open,
};
use krb_files::Files;
use krb_keytab::Keytab;
use krb_wire::NoMemory;
use std::alloc::Allocator;
use std::io::{Read, Write};

#[derive(Clone, Copy)]
struct RemoveEntries<'f, B: Allocator> {
    options: &'f RemoveOptions<B>,
    time: u32,
    are_several: bool,
}

// Returns the time, if the selection needs it, and otherwise 0.
fn needed_time(kvno: SelectedKvno, now: Option<u32>) -> Result<u32, RunError>
    ensures { result ≡ needed_time kvno now }
{
    if kvno.needs_clock() {
        now.ok_or(RunError::ClockNotRead)
    } else {
        Ok(0)
    }
}

// Returns whether what is selected may have been removed before: if nothing but versions that are not the newest ones or
// doubles is asked for, or an entry has the rest.
fn may_be_gone<B: Allocator>(selection: &Selection<B>, is_named: bool) -> bool
    ensures { result ≡ may_be_gone selection.now is_named }
{
    let goes_by_others = selection.only_same | matches!(selection.kvno, SelectedKvno::Beyond(_, _));
    let is_exact = matches!(selection.kvno, SelectedKvno::Exactly(_));
    goes_by_others & ((is_of_any(selection) & !is_exact) | is_named)
}

// Returns the verdict if no entry is selected.
fn none_verdict<B: Allocator>(
    are_several: bool,
    options: &RemoveOptions<B>,
    is_named: bool,
) -> Verdict
    ensures { result ≡ none_verdict are_several options.now is_named }
{
    if options.none_ok || may_be_gone(&options.selection, is_named) {
        Verdict::Well
    } else if are_several {
        Verdict::Without
    } else {
        Verdict::NothingToRemove(FileKind::Keytab)
    }
}

fn selected<A: Allocator + Copy, B: Allocator>(
    alloc: A,
    command: &RemoveEntries<'_, B>,
    file: FileName<'_>,
    keytab: &Keytab<A>,
) -> Result<Selected<A>, NoMemory>
    ensures { IfOk result (Selects (label_of command.now.are_several file.entry.name.now)
        command.now.options.now.selection command.now.time keytab.now.state) }
{
    let options = command.options;
    let label = label_of(alloc, command.are_several, file)?;
    select(alloc, &label, keytab, &options.selection, command.time)
}

// Removes the selected entries from a keytab, or only lists them in a dry run.
fn remove<'a, A: Allocator + Copy, B: Allocator>(
    alloc: A,
    command: &RemoveEntries<'_, B>,
    file: FileName<'a>,
    mut keytab: Keytab<A>,
) -> Result<Made<A, Output<A>>, FileError<'a>>
    ensures { IsMade (removes command.now.options.now command.now.are_several file.entry.name.now keytab.state
        (selected_in command.now.options.now.selection command.now.time keytab.state))
        (text_effect file.entry.name.now result) }
{
    let options = command.options;
    let selected = selected(alloc, command, file, &keytab)?;
    if selected.places.is_empty() {
        return Ok(Made::Shows(Output {
            text: Vec::new(alloc),
            verdict: none_verdict(command.are_several, options, selected.is_named),
        }));
    }
    let text = Output {
        text: selected.text,
        verdict: Verdict::Well,
    };
    if options.dry_run {
        return Ok(Made::Shows(text));
    }
    keytab.remove_all(&selected.places);
    Ok(Made::Saves(keytab.into_image(), text))
}

impl<A: Allocator + Copy, B: Allocator> OverFiles<A> for RemoveEntries<'_, B> {
    ghost use Rattle.krb_driver.specs.Commands.{always};
    ghost use Rattle.krb_editors.specs.Ktremove.{ktremove_plan};
    ghost use Rattle.krb_editors.specs.Removing.{seen_after};

    type State = FilesSeen;

    type Shown = Output<A>;

    ghost plan = { λ c seen file. always (ktremove_plan c.options.now c.time c.are_several file) };

    ghost after = { seen_after };

    #[tactic(auto, unfolding(krb_driver::specs::Commands::always))]
    fn make<'f, F: Files>(
        &'f self,
        alloc: A,
        _seen: FilesSeen,
        file: FileName<'f>,
        files: &mut F,
    ) -> MakeResult<'f, A, Output<A>> {
        let options = self.options;
        hold_if(!options.dry_run, files, file);
        let keytab = open(alloc, KeytabUse::Change(options.v1_order), files, file)?;
        remove(alloc, self, file, keytab)
    }

    fn after(seen: FilesSeen, end: RunEnd) -> FilesSeen {
        seen.after(end)
    }
}

/// Removes the selected entries from keytabs, one after the other, prints a line for each entry, after the file's name
/// if there are several, and returns the greatest status. `now` is in seconds, or `None` if the clock was not read.
pub fn run_ktremove<A: Allocator + Copy, B: Allocator, F: Files, R: Read, W: Write, E: Write>(
    alloc: A,
    options: &RemoveOptions<B>,
    now: Option<u32>,
    names: &[FileName<'_>],
    world: &mut World<F, R, W, E>,
) -> u8
    ensures { RemovesWith F.Files OfKeytab names.now world.old world.new result (ktremove_plan options.now)
        (needed_time options.now.selection.kvno now) }
{
    let time = match needed_time(options.selection.kvno, now) {
        Ok(time) => time,
        Err(error) => return end_before(error, None, world),
    };
    let command = RemoveEntries {
        options,
        time,
        are_several: names.len() > 1,
    };
    run_removals(alloc, FileKind::Keytab, &command, names, world)
}
