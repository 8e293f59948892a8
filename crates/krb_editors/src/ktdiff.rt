//! ktdiff: shows which keys two keytabs do not share.

ghost use Rattle.std.specs.Prelude.{◌≡◌};
ghost use Rattle.krb_driver.specs.Commands.{IsMade, Makes, Runs, always, any};
ghost use Rattle.krb_driver.specs.Composing.{text_effect};
ghost use Rattle.krb_driver.specs.Spelled.{ReadsAs};
ghost use Rattle.krb_editors.specs.Ktdiff.{comparison_of, differs, diffs_from, finds_none, ktdiff_plan, verdict_of};

use crate::selecting::{OF_ENCTYPE, OF_PRINCIPAL, is_of_any, spelled_selection};
use krb_audit::{SelectedKvno, Selection, selected_entries};
use krb_copy::diff_text;
use krb_driver::{
    Command, CommandName, CommandWords, FileError, FileName, KeytabUse, Made, MakeResult, Matches,
    OF_PATTERN, Output, RunError, V1_BIG, Verdict, Word, WordFault, World, open, run, v1_order,
};
use krb_files::Files;
use krb_keytab::{EntryView, Keytab};
use krb_wire::Order;
use std::alloc::{Allocator, Global};
use std::io::{Read, Write};
use std::marker::Model;

pub const KTDIFF: CommandWords = CommandWords {
    command: CommandName::Ktdiff,
    name: "ktdiff",
    about: "Shows which keys two keytabs do not share",
    usage: "krbfile ktdiff [--v1-big] [-p NAME].. [--match PATTERN].. [-e ETYPE].. A B",
    after_help: Some(
        "\
A line for each name, version and encryption type:
  - PLACE         A alone has entries of it
  ! PLACE PLACE2  A and B have other keys for it
  + PLACE         B alone has entries of it
Statuses:
  0  The keytabs have the same keys
  1  With lines: they differ; without: they could not be compared
  2  The command line is bad
  3  A file or the output failed
  4  Out of memory
Example: whether a copy has the keys of the keytab in use
  krbfile ktdiff host.keytab backup.keytab",
    ),
    words: &[
        OF_PRINCIPAL,
        OF_PATTERN,
        OF_ENCTYPE,
        V1_BIG,
        Word::Operand("A", "The first file"),
        Word::Operand("B", "The second file"),
    ],
};

/// What ktdiff compares.
#[derive(Drop)]
pub struct DiffOptions<A: Allocator> {
    pub selection: Selection<A>,
    /// The byte order of version 1 keytabs.
    pub v1_order: Order,
}

impl<A: Allocator> Model for DiffOptions<A> {
    ghost use Rattle.krb_editors.specs.Ktdiff.{Comparison};

    ghost Value = { Comparison };

    ghost view = { λ o. record {
      selection = o.selection;
      v1_order = o.v1_order;
    } };
}

/// Returns the options of ktdiff. Refuses a bad value.
pub fn diff_options<'a, M: Matches<'a>>(
    alloc: Global,
    matches: &M,
) -> Result<DiffOptions<Global>, WordFault<'a>>
    ensures { ReadsAs (comparison_of (M.matched matches.now)) result }
{
    let selection = spelled_selection(alloc, matches, SelectedKvno::Any)?;
    Ok(DiffOptions {
        selection: selection?,
        v1_order: v1_order(matches),
    })
}

#[derive(Clone, Copy)]
struct DiffEntries<'f, B: Allocator> {
    options: &'f DiffOptions<B>,
    ours: FileName<'f>,
    others: FileName<'f>,
}

// Returns the verdict of a run that prints that text.
fn verdict_of(text: &[u8]) -> Verdict
    ensures { result ≡ verdict_of text.now }
{
    if text.is_empty() {
        Verdict::Well
    } else {
        Verdict::Differ
    }
}

// Returns whether entries are asked for, and there are none on either side.
fn finds_none<B: Allocator>(
    selection: &Selection<B>,
    ours: &[(u32, EntryView<'_>)],
    others: &[(u32, EntryView<'_>)],
) -> bool
    ensures { result ≡ finds_none selection.now ours.now others.now }
{
    !is_of_any(selection) && ours.is_empty() && others.is_empty()
}

// Compares the entries that are asked for.
fn differ<'a, A: Allocator + Copy, B: Allocator>(
    alloc: A,
    command: &DiffEntries<'a, B>,
    ours: &Keytab<A>,
    others: &Keytab<A>,
) -> Result<Made<A, Output<A>>, FileError<'a>>
    ensures { IsMade (differs command.now.options.now command.now.ours.name.now ours.now.state others.now.state)
        (text_effect command.now.ours.name.now result) }
{
    let options = command.options;
    let selection = &options.selection;
    let ours = selected_entries(alloc, ours, selection)?;
    let others = selected_entries(alloc, others, selection)?;
    if finds_none(selection, &ours, &others) {
        return Err(FileError {
            file: command.ours.name,
            error: RunError::NothingToCopy,
        });
    }
    let text = diff_text(alloc, &ours, &others)?;
    Ok(Made::Shows(Output {
        verdict: verdict_of(&text),
        text,
    }))
}

// Opens B, and compares it with A.
fn differ_from<'a, A: Allocator + Copy, B: Allocator, F: Files>(
    alloc: A,
    command: &DiffEntries<'a, B>,
    ours: &Keytab<A>,
    files: &mut F,
) -> Result<Made<A, Output<A>>, FileError<'a>>
    ensures { Makes F.Files files.old (diffs_from command.now.options.now command.now.ours command.now.others ours.now.state)
        (text_effect command.now.ours.name.now result) files.new }
{
    let options = command.options;
    let others = open(
        alloc,
        KeytabUse::Change(options.v1_order),
        files,
        command.others,
    )?;
    differ(alloc, command, ours, &others)
}

impl<'f, A: Allocator + Copy, B: Allocator> Command<A> for DiffEntries<'f, B> {
    ghost use Rattle.krb_editors.specs.Ktdiff.{ktdiff_plan};

    type Shown = Output<A>;

    ghost file = { λ c. c.ours.name.now };

    ghost plan = { λ c mode. ktdiff_plan c.options.now c.ours c.others };

    fn file(&self) -> &str {
        self.ours.name
    }

    fn make<F: Files>(&self, alloc: A, files: &mut F) -> MakeResult<'_, A, Self::Shown> {
        let options = self.options;
        let ours = open(alloc, KeytabUse::Change(options.v1_order), files, self.ours)?;
        differ_from(alloc, self, &ours, files)
    }
}

/// Prints a line for each name, version and encryption type whose keys differ between the keytabs `ours` and `others`,
/// and returns the exit status: 0 if there is none.
#[tactic(auto, unfolding(krb_driver::specs::Commands::always))]
pub fn run_ktdiff<A: Allocator + Copy, B: Allocator, F: Files, R: Read, W: Write, E: Write>(
    alloc: A,
    options: &DiffOptions<B>,
    ours: FileName<'_>,
    others: FileName<'_>,
    world: &mut World<F, R, W, E>,
) -> u8
    ensures { Runs F.Files (always (ktdiff_plan options.now ours.entry others.entry)) any world.old world.new result }
{
    run(
        alloc,
        &DiffEntries {
            options,
            ours,
            others,
        },
        world,
    )
}
