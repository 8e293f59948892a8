//! What the run of a command line needs.

ghost use Rattle.std.specs.Prelude.{◌≡◌};
ghost use Rattle.std.specs.List.{list_any};
ghost use Rattle.krb_commands.specs.Actions.{are_several, edits, kind_by, needs, needs_of, reads, surveys};

use crate::action::Action;
use krb_driver::{CommandName, FileKind, FileName, WordFault};
use std::slice;

/// A file that a command line leaves out.
#[derive(Clone, Copy)]
pub struct LeftOut {
    /// What the default is that takes its place: a keytab or a cache.
    pub default: FileKind,
    pub command: CommandName,
}

impl LeftOut {
    /// Returns what the file is to be: of show either.
    pub fn kind(self) -> FileKind
        ensures { result ≡ kind_by self.command self.default }
    {
        match self.command {
            CommandName::Show => FileKind::Either,
            _ => self.default,
        }
    }
}

/// What the run of a command line needs of the system, beside its files.
#[derive(Clone, Copy, Default)]
pub struct Needs {
    /// The time: for entries that ktutil adds, entries that have been old or have had their key for some time, tickets
    /// that have expired or will, or times given as ages.
    pub clock: bool,
    /// Only plain files are loaded, as in an overview or where several are named: any other is refused before it is
    /// opened.
    pub plain: bool,
    /// Files are saved in place.
    pub in_place: bool,
    /// A script is read.
    pub script: bool,
    /// JSON is printed, which a terminal shows as it is.
    pub json: bool,
    pub left_out: Option<LeftOut>,
}

fn are_several(names: &[FileName<'_>]) -> bool
    ensures { result ≡ are_several names.now }
{
    names.len() > 1
}

fn are_in_place(names: &[FileName<'_>]) -> bool
    ensures { result ≡ list_any (λ file. file.in_place) names.now }
{
    names.iter().any(|file| file.in_place)
}

// Returns what a line needs that edits files, and perhaps the time.
fn edits(names: &[FileName<'_>], clock: bool) -> Needs
    ensures { result ≡ edits names.now clock }
{
    Needs {
        clock,
        plain: are_several(names),
        in_place: are_in_place(names),
        ..Needs::default()
    }
}

// Returns what a line of that command needs that reads files, or else the default one.
fn reads(names: &[FileName<'_>], default: FileKind, command: CommandName) -> Needs
    ensures { result ≡ reads names.now default command }
{
    Needs {
        plain: are_several(names),
        left_out: names.is_empty().then_some(LeftOut { default, command }),
        ..Needs::default()
    }
}

// Returns what a line of klist needs that asks for the valid tickets of plain caches.
fn surveys(names: &[FileName<'_>], json: bool) -> Needs
    ensures { result ≡ surveys names.now json }
{
    Needs {
        clock: true,
        plain: true,
        json,
        ..reads(names, FileKind::Cache, CommandName::Klist)
    }
}

fn action_needs(action: &Action<'_>) -> Needs
    ensures { result ≡ needs action.now }
{
    match action {
        Action::Klist(options, names) => Needs {
            json: options.json,
            ..reads(names, options.kind.file_kind(), CommandName::Klist)
        },
        Action::Overview(json, names) => surveys(names, *json),
        Action::CheckTicket(_, names) => surveys(names, false),
        Action::Ktcheck(options, names) => Needs {
            clock: options.older.is_some(),
            json: options.json,
            ..reads(names, FileKind::Keytab, CommandName::Ktcheck)
        },
        Action::Show(options, names) => Needs {
            clock: true,
            ..reads(names, options.default, CommandName::Show)
        },
        Action::Ktmatch(options, _, names) => Needs {
            json: options.json,
            ..reads(names, FileKind::Cache, CommandName::Ktmatch)
        },
        Action::Ktedit(_, file) | Action::Ccedit(file) => Needs {
            script: true,
            ..edits(slice::from_ref(file), false)
        },
        Action::Ktremove(options, names) => edits(names, options.selection.kvno.needs_clock()),
        Action::Ccremove(options, names) => edits(names, options.expired),
        Action::Ktcopy(_, _, file) | Action::Hold(_, file) => edits(slice::from_ref(file), false),
        Action::Ktutil(options) => Needs {
            clock: true,
            in_place: options.in_place,
            ..Needs::default()
        },
        Action::Ktfind(..) | Action::Ktdiff(..) | Action::HoldOnTerminal | Action::Help(_) =>
            Needs::default(),
    }
}

/// Returns what the run of a line needs.
pub fn needs_of(parsed: &Result<Action<'_>, WordFault<'_>>) -> Needs
    ensures { result ≡ needs_of parsed.now }
{
    match parsed {
        Ok(action) => action_needs(action),
        Err(_) => Needs::default(),
    }
}
