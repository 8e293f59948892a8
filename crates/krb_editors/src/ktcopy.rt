//! ktcopy: copies entries from one keytab into another.

mod copied;

ghost use Rattle.std.specs.Prelude.{◌≡◌, Ok, option_map};
ghost use Rattle.krb_wire.specs.Reading.{principal_parts};
ghost use Rattle.krb_copy.specs.Copying.{asked_as, copy_run};
ghost use Rattle.krb_copy.specs.Made.{new_in};
ghost use Rattle.krb_audit.specs.Selection.{selected_in};
ghost use Rattle.krb_driver.specs.Commands.{Makes, Runs, always, any, IsMade};
ghost use Rattle.krb_driver.specs.Composing.{text_effect};
ghost use Rattle.krb_driver.specs.Mistakes.{Refuses};
ghost use Rattle.krb_driver.specs.Spelled.{ReadsAs, Spells};
ghost use Rattle.krb_editors.specs.Ktcopy.{asks_for_some, copied_effect, copied_kvnos, copies_from, copies_to, copy_of, finds_none, ktcopy_plan, odd_new_kvno, odd_new_name, odd_options};

use crate::ktcopy::copied::made;
use crate::selecting::{
    OF_ENCTYPE, OF_PRINCIPAL, is_given, is_of_any, one_name_given, spelled_kvno, spelled_new_kvno,
    spelled_new_name, spelled_selection,
};
use krb_audit::{SelectedKvno, Selection, selected_entries};
use krb_copy::{CopyAs, copy_into};
use krb_driver::{
    Command, CommandName, CommandWords, FileError, FileKind, FileName, IN_PLACE, KeytabUse, Made,
    MakeResult, Matches, Mistake, OF_PATTERN, Output, Phrase, RunError, V1_BIG, Word, WordFault,
    World, hold_if, open, refuse_twice, run, v1_order,
};
use krb_files::Files;
use krb_keytab::{EntryView, Keytab};
use krb_walk::Refusal;
use krb_wire::{NoMemory, Order, Principal};
use std::alloc::{Allocator, Global};
use std::io::{Read, Write};
use std::marker::Model;

pub const KTCOPY: CommandWords = CommandWords {
    command: CommandName::Ktcopy,
    name: "ktcopy",
    about: "Copies entries from one keytab into another",
    usage: "\
krbfile ktcopy [--v1-big] [--in-place] [-n] [--replace] [-p NAME].. [--match PATTERN].. [-k KVNO|new] [-e ETYPE].. [--as NAME] [--as-kvno N] FROM TO",
    after_help: Some(
        "\
Statuses:
  0  The entries were copied, or stood there already
  1  An entry clashes or none is selected, or a file is missing, too large, damaged or no keytab
  2  The command line is bad
  3  A file or the output failed
  4  Out of memory
Example: bring new keys into the keytab in use
  krbfile ktcopy rotated.keytab host.keytab",
    ),
    words: &[
        Word::Flag("dry-run", 'n', "Show what would be copied; change nothing"),
        Word::LongFlag("replace", "Replace entries that have another key"),
        OF_PRINCIPAL,
        OF_PATTERN,
        Word::Valued(
            "kvno",
            'k',
            "KVNO",
            "Entries of that version; new: those of the newest",
        ),
        OF_ENCTYPE,
        Word::LongValued("as", "NAME", "Copy under that name; with one -p"),
        Word::LongValued("as-kvno", "N", "Copy as that version; with one -p and -k"),
        V1_BIG,
        IN_PLACE,
        Word::Operand("FROM", "The file to copy from"),
        Word::Operand("TO", "The file to copy to; it is made if it is missing"),
    ],
};

/// Which entries ktcopy copies.
#[derive(Drop)]
pub struct CopyOptions<A: Allocator> {
    pub selection: Selection<A>,
    /// The name that what is copied gets, in place of its own.
    pub new_name: Option<Principal<A>>,
    /// The version that it gets.
    pub new_kvno: Option<u32>,
    /// Replace entries that have another key.
    pub replace: bool,
    /// Print what would be copied, and save nothing.
    pub dry_run: bool,
    /// The byte order of version 1 keytabs.
    pub v1_order: Order,
}

impl<A: Allocator> Model for CopyOptions<A> {
    ghost use Rattle.std.specs.Prelude.{option_map};
    ghost use Rattle.krb_wire.specs.Reading.{principal_parts};
    ghost use Rattle.krb_editors.specs.Ktcopy.{CopyParts};

    ghost Value = { CopyParts };

    ghost view = { λ o. record {
      selection = o.selection;
      new = record { name = option_map principal_parts o.new_name; kvno = o.new_kvno };
      replace = o.replace;
      dry_run = o.dry_run;
      v1_order = o.v1_order;
    } };
}

// Refuses `--as` without just one `-p`.
fn refuse_odd_new_name<'a, M: Matches<'a>>(matches: &M) -> Result<(), Mistake<'a>>
    ensures { Refuses (odd_new_name (M.matched matches.now)) result }
{
    if is_given(matches, "as") && !one_name_given(matches) {
        return Err(Phrase::ONLY_WITH_ONE.of_both("--as", "-p"));
    }
    Ok(())
}

// Refuses `--as-kvno` without just one `-p` and `-k`.
fn refuse_odd_new_kvno<'a, M: Matches<'a>>(matches: &M) -> Result<(), Mistake<'a>>
    ensures { Refuses (odd_new_kvno (M.matched matches.now)) result }
{
    let is_one = one_name_given(matches) & is_given(matches, "kvno");
    if is_given(matches, "as-kvno") && !is_one {
        return Err(Phrase::ONLY_WITH_ONE.of_both("--as-kvno", "-p and -k"));
    }
    Ok(())
}

// Refuses options that are given twice, or without what they go with.
fn refuse_odd_options<'a, M: Matches<'a>>(matches: &M) -> Result<(), Mistake<'a>>
    ensures { Refuses (odd_options (M.matched matches.now)) result }
{
    refuse_twice(matches, "kvno", "-k", "--kvno")?;
    refuse_twice(matches, "as", "--as", "--as")?;
    refuse_twice(matches, "as-kvno", "--as-kvno", "--as-kvno")?;
    refuse_odd_new_name(matches)?;
    refuse_odd_new_kvno(matches)
}

// Returns the kvnos that `-k` selects, and the new one of the copies, if it is given.
fn copied_kvnos<'a, M: Matches<'a>>(matches: &M) -> Result<(SelectedKvno, Option<u32>), Mistake<'a>>
    ensures { Spells (copied_kvnos (M.matched matches.now)) result }
{
    let kvno = spelled_kvno(matches, "new", SelectedKvno::Newest)?;
    let new_kvno = spelled_new_kvno(matches)?;
    Ok((kvno, new_kvno))
}

/// Returns the options of ktcopy. Refuses `-k`, `--as` or `--as-kvno` given twice, `--as` and `--as-kvno` without what
/// they go with, and a bad value.
pub fn copy_options<'a, M: Matches<'a>>(
    alloc: Global,
    matches: &M,
) -> Result<CopyOptions<Global>, WordFault<'a>>
    ensures { ReadsAs (copy_of (M.matched matches.now)) result }
{
    refuse_odd_options(matches)?;
    let (kvno, new_kvno) = copied_kvnos(matches)?;
    let selection = spelled_selection(alloc, matches, kvno)?;
    let new_name = spelled_new_name(alloc, matches)?;
    Ok(CopyOptions {
        selection: selection?,
        new_name: new_name?,
        new_kvno,
        replace: matches.flag("replace"),
        dry_run: matches.flag("dry-run"),
        v1_order: v1_order(matches),
    })
}

#[derive(Clone, Copy)]
struct CopyEntries<'f, B: Allocator> {
    options: &'f CopyOptions<B>,
    from: FileName<'f>,
    to: FileName<'f>,
}

fn asks_for_some<B: Allocator>(selection: &Selection<B>) -> bool
    ensures { result ≡ asks_for_some selection.now }
{
    !is_of_any(selection) || selection.kvno != SelectedKvno::Any
}

// Returns whether entries are asked for and there are none.
fn finds_none<B: Allocator>(selection: &Selection<B>, entries: &[(u32, EntryView<'_>)]) -> bool
    ensures { result ≡ finds_none selection.now entries.now }
{
    entries.is_empty() && asks_for_some(selection)
}

// Returns what copies get in place of their own.
fn new_of<B: Allocator>(options: &CopyOptions<B>) -> CopyAs<'_, B>
    ensures { new_in result ≡ options.now.new }
{
    CopyAs {
        name: options.new_name.as_ref(),
        kvno: options.new_kvno,
    }
}

// Copies the selected entries, which have their places in FROM, into the keytab TO, with the new name and version, if given.
fn copy<'a, A: Allocator + Copy, B: Allocator>(
    alloc: A,
    command: &CopyEntries<'a, B>,
    entries: &[(u32, EntryView<'_>)],
    to: Keytab<A>,
) -> Result<Made<A, Output<A>>, FileError<'a>>
    ensures { IsMade (copied_effect command.now.options.now command.now.to.name.now
        (copy_run command.now.options.now.replace
        (asked_as command.now.options.now.new entries.now) to.state)) (text_effect command.now.to.name.now result) }
{
    let options = command.options;
    let new = new_of(options);
    match copy_into(alloc, entries, &new, to, options.replace) {
        Ok(copied) => made(command, copied),
        Err(Refusal::Code(code)) => Err(FileError {
            file: command.to.name,
            error: RunError::Refused(FileKind::Keytab, code),
        }),
        Err(Refusal::NoMemory) => Err(FileError::from(NoMemory)),
    }
}

// Opens TO, and copies the selected entries into it.
fn copy_to<'a, A: Allocator + Copy, B: Allocator, F: Files>(
    alloc: A,
    command: &CopyEntries<'a, B>,
    entries: &[(u32, EntryView<'_>)],
    files: &mut F,
) -> Result<Made<A, Output<A>>, FileError<'a>>
    ensures { Makes F.Files files.old (copies_to command.now.options.now command.now.to entries.now)
        (text_effect command.now.to.name.now result) files.new }
{
    let options = command.options;
    hold_if(!options.dry_run, files, command.to);
    let to = open(alloc, KeytabUse::Fill(options.v1_order), files, command.to)?;
    copy(alloc, command, entries, to)
}

// Copies the selected entries of the keytab FROM.
#[tactic(auto, using(crate::proofs::Copies::makes_spent, crate::proofs::Copies::makes_none))]
fn copy_from<'a, A: Allocator + Copy, B: Allocator, F: Files>(
    alloc: A,
    command: &CopyEntries<'a, B>,
    from: &Keytab<A>,
    files: &mut F,
) -> Result<Made<A, Output<A>>, FileError<'a>>
    ensures { Makes F.Files files.old (copies_from command.now.options.now command.now.from command.now.to
        (selected_in command.now.options.now.selection 0 from.now.state)) (text_effect command.now.to.name.now result) files.new }
{
    let options = command.options;
    let selection = &options.selection;
    let entries = selected_entries(alloc, from, selection)?;
    if finds_none(selection, &entries) {
        return Err(FileError {
            file: command.from.name,
            error: RunError::NothingToCopy,
        });
    }
    copy_to(alloc, command, &entries, files)
}

impl<'f, A: Allocator + Copy, B: Allocator> Command<A> for CopyEntries<'f, B> {
    ghost use Rattle.krb_editors.specs.Ktcopy.{ktcopy_plan};

    type Shown = Output<A>;

    ghost file = { λ c. c.to.name.now };

    ghost plan = { λ c mode. ktcopy_plan c.options.now c.from c.to };

    fn file(&self) -> &str {
        self.to.name
    }

    fn make<F: Files>(&self, alloc: A, files: &mut F) -> MakeResult<'_, A, Self::Shown> {
        let options = self.options;
        let from = open(alloc, KeytabUse::Change(options.v1_order), files, self.from)?;
        copy_from(alloc, self, &from, files)
    }
}

/// Copies the selected entries of the keytab `from` into the keytab `to`, prints a line for each that is removed, copied
/// or clashes, and returns the exit status.
#[tactic(auto, unfolding(krb_driver::specs::Commands::always))]
pub fn run_ktcopy<A: Allocator + Copy, B: Allocator, F: Files, R: Read, W: Write, E: Write>(
    alloc: A,
    options: &CopyOptions<B>,
    from: FileName<'_>,
    to: FileName<'_>,
    world: &mut World<F, R, W, E>,
) -> u8
    ensures { Runs F.Files (always (ktcopy_plan options.now from.entry to.entry)) any world.old world.new result }
{
    run(alloc, &CopyEntries { options, from, to }, world)
}
