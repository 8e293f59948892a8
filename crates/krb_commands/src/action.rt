//! The actions of command lines.

ghost use Rattle.std.specs.Prelude.{◌≡◌, IfErr, IfOk, None, OnOk};
ghost use Rattle.krb_commands.specs.Actions.{AreChanged, AreFiles, AreFilesBy, Asks, AsksKlist, IsEdited, at_terminal, klist_mistake, line_mistake, source_of};
ghost use Rattle.krb_driver.specs.FileNames.{IsNamed};
ghost use Rattle.krb_driver.specs.declared.command_line.words.CommandName.TheVariants.{Hold, Ktcopy, Ktmatch, Ktutil};
ghost use Rattle.krb_driver.specs.declared.file_name.NameSource.TheVariants.{Word};
ghost use Rattle.krb_driver.specs.Mistakes.{IsRefusal, Reads};

use krb_driver::{CommandName, FileKind, FileName, Matches, NameSource, WordFault, v1_order};
use krb_editors::{
    CopyOptions, DiffOptions, HoldKind, RemoveOptions, TicketOptions, copy_options, diff_options,
    hold_kind, remove_options, ticket_options,
};
use krb_readers::{
    CheckOptions, FindOptions, KlistOptions, MatchOptions, ShowOptions, TicketCheck, check_options,
    find_options, klist_options, match_options, overview_json, show_options, ticket_check,
};
use krb_wire::Order;
use std::alloc::{AllocError, Global};

/// The options of ktutil.
#[derive(Clone, Copy)]
pub struct KtutilOptions {
    pub v1_order: Order,
    pub in_place: bool,
    /// A prompt comes before each line.
    pub prompts: bool,
}

/// What a command line says to do. Commands over files carry their names, or none if the line leaves them out.
#[derive(Drop)]
pub enum Action<'a> {
    Klist(KlistOptions, Vec<FileName<'a>>),
    /// As JSON or not.
    Overview(bool, Vec<FileName<'a>>),
    CheckTicket(TicketCheck, Vec<FileName<'a>>),
    Ktfind(FindOptions<Global>, FileName<'a>),
    /// With the byte order of version 1 keytabs.
    Ktedit(Order, FileName<'a>),
    Ktcheck(CheckOptions<Global>, Vec<FileName<'a>>),
    Show(ShowOptions, Vec<FileName<'a>>),
    /// A keytab with caches.
    Ktmatch(MatchOptions<Global>, FileName<'a>, Vec<FileName<'a>>),
    Ktremove(RemoveOptions<Global>, Vec<FileName<'a>>),
    /// From the first keytab into the second.
    Ktcopy(CopyOptions<Global>, FileName<'a>, FileName<'a>),
    /// The first keytab with the second.
    Ktdiff(DiffOptions<Global>, FileName<'a>, FileName<'a>),
    Ccedit(FileName<'a>),
    Ccremove(TicketOptions<Global>, Vec<FileName<'a>>),
    Ktutil(KtutilOptions),
    Hold(HoldKind, FileName<'a>),
    /// Refuses to print an image to a terminal.
    HoldOnTerminal,
    /// Prints that help text.
    Help(String),
}

/// Adapts an action to terminals. `shows`: the output is one, and no image is printed to it. `types`: the input and the
/// error output are, and ktutil prompts.
pub fn at_terminal<'a>(
    parsed: Result<Action<'a>, WordFault<'a>>,
    shows: bool,
    types: bool,
) -> Result<Action<'a>, WordFault<'a>>
    ensures { result ≡ at_terminal shows types parsed.entry }
{
    match parsed {
        Ok(Action::Hold(..)) if shows => Ok(Action::HoldOnTerminal),
        Ok(Action::Ktutil(options)) => Ok(Action::Ktutil(KtutilOptions {
            prompts: types,
            ..options
        })),
        parsed => parsed,
    }
}

// Returns the file that the word of an operand names.
fn file_of<'a, M: Matches<'a>>(matches: &M, kind: FileKind, operand: &str) -> FileName<'a>
    ensures { IsNamed kind ((M.matched matches.now).operand operand.now) Word result }
{
    FileName::of(kind, matches.operand(operand), NameSource::Word)
}

// Returns the file that the word of an operand names, to be edited: in place if the words ask for that.
fn edited_file<'a, M: Matches<'a>>(matches: &M, kind: FileKind, operand: &str) -> FileName<'a>
    ensures { IsEdited kind (M.matched matches.now) operand.now result }
{
    file_of(matches, kind, operand).saved(matches.flag("in-place"))
}

// Returns where the name comes from that a word gives, if one with an `@` comes from there.
fn source_of(with_at: NameSource, word: &str) -> NameSource
    ensures { result ≡ source_of with_at word.now }
{
    if word.as_bytes().contains(&b'@') {
        with_at
    } else {
        NameSource::Word
    }
}

// Returns the files that the words of an operand name, to be saved in place if the words of the line ask for that.
fn files_of<'a, M: Matches<'a>>(
    alloc: Global,
    matches: &M,
    kind: FileKind,
    operand: &str,
    with_at: NameSource,
) -> Result<Vec<FileName<'a>>, AllocError>
    ensures { IfOk result (λ names. AreFilesBy with_at kind (M.matched matches.now) operand.now names.items) }
{
    let in_place = matches.flag("in-place");
    let words = matches.values(operand);
    let mut names = Vec::new(alloc);
    'words: for word in words {
        names.push(FileName::of(kind, *word, source_of(with_at, *word)).saved(in_place))?;
    }
    Ok(names)
}

// Returns the files that a line names which only looks at them.
fn files_to_read<'a, M: Matches<'a>>(
    alloc: Global,
    matches: &M,
    kind: FileKind,
) -> Result<Vec<FileName<'a>>, AllocError>
    ensures { IfOk result (λ names. AreFiles kind (M.matched matches.now) names.items) }
{
    files_of(alloc, matches, kind, "FILE", NameSource::Word)
}

// Returns the files that a line names which changes them.
fn files_to_change<'a, M: Matches<'a>>(
    alloc: Global,
    matches: &M,
    kind: FileKind,
) -> Result<Vec<FileName<'a>>, AllocError>
    ensures { IfOk result (λ names. AreChanged kind (M.matched matches.now) names.items) }
{
    files_of(alloc, matches, kind, "FILE", NameSource::LikePrincipal)
}

// Returns the action for the words of klist: with `-l` an overview, with `-s` a check, otherwise a listing.
fn parsed_klist<'a, M: Matches<'a>>(
    alloc: Global,
    matches: &M,
    lists: bool,
    is_silent: bool,
) -> Result<Action<'a>, WordFault<'a>>
    ensures { Reads (klist_mistake lists is_silent (M.matched matches.now)) (AsksKlist lists is_silent (M.matched matches.now)) result }
{
    match (lists, is_silent) {
        (true, _) => {
            let json = overview_json(matches)?;
            Ok(Action::Overview(json, files_to_read(alloc, matches, FileKind::Cache)?))
        }
        (false, true) => {
            let check = ticket_check(matches)?;
            Ok(Action::CheckTicket(check, files_to_read(alloc, matches, FileKind::Cache)?))
        }
        (false, false) => {
            let options = klist_options(matches)?;
            let kind = options.kind.file_kind();
            Ok(Action::Klist(options, files_to_read(alloc, matches, kind)?))
        }
    }
}

fn parsed_ktcopy<'a, M: Matches<'a>>(
    alloc: Global,
    matches: &M,
) -> Result<Action<'a>, WordFault<'a>>
    ensures { Reads (line_mistake Ktcopy (M.matched matches.now)) (Asks Ktcopy (M.matched matches.now)) result }
{
    Ok(Action::Ktcopy(
        copy_options(alloc, matches)?,
        file_of(matches, FileKind::Keytab, "FROM"),
        edited_file(matches, FileKind::Keytab, "TO"),
    ))
}

fn parsed_ktmatch<'a, M: Matches<'a>>(
    alloc: Global,
    matches: &M,
) -> Result<Action<'a>, WordFault<'a>>
    ensures { Reads (line_mistake Ktmatch (M.matched matches.now)) (Asks Ktmatch (M.matched matches.now)) result }
{
    Ok(Action::Ktmatch(
        match_options(alloc, matches)?,
        file_of(matches, FileKind::Keytab, "KEYTAB"),
        files_of(alloc, matches, FileKind::Cache, "CACHE", NameSource::Word)?,
    ))
}

fn parsed_hold<'a, M: Matches<'a>>(matches: &M) -> Result<Action<'a>, WordFault<'a>>
    ensures { Reads (line_mistake Hold (M.matched matches.now)) (Asks Hold (M.matched matches.now)) result }
{
    let kind = hold_kind(matches)?;
    Ok(Action::Hold(kind, edited_file(matches, kind.file_kind(), "FILE")))
}

// Returns the action for the words of ktutil, which prompts for none.
fn parsed_ktutil<'a, M: Matches<'a>>(matches: &M) -> Action<'a>
    ensures { Asks Ktutil (M.matched matches.now) result }
{
    Action::Ktutil(KtutilOptions {
        v1_order: v1_order(matches),
        in_place: matches.flag("in-place"),
        prompts: false,
    })
}

fn parsed<'a, M: Matches<'a>>(
    alloc: Global,
    command: CommandName,
    matches: &M,
) -> Result<Action<'a>, WordFault<'a>>
    ensures { Reads (line_mistake command (M.matched matches.now)) (Asks command (M.matched matches.now)) result }
{
    match command {
        CommandName::Klist => {
            parsed_klist(alloc, matches, matches.flag("list"), matches.flag("silent"))
        }
        CommandName::Ktedit => {
            let file = edited_file(matches, FileKind::Keytab, "FILE");
            Ok(Action::Ktedit(v1_order(matches), file))
        }
        CommandName::Ktfind => Ok(Action::Ktfind(
            find_options(alloc, matches)?,
            file_of(matches, FileKind::Keytab, "FILE"),
        )),
        CommandName::Ktremove => Ok(Action::Ktremove(
            remove_options(alloc, matches)?,
            files_to_change(alloc, matches, FileKind::Keytab)?,
        )),
        CommandName::Ktcopy => parsed_ktcopy(alloc, matches),
        CommandName::Ktdiff => Ok(Action::Ktdiff(
            diff_options(alloc, matches)?,
            file_of(matches, FileKind::Keytab, "A"),
            file_of(matches, FileKind::Keytab, "B"),
        )),
        CommandName::Ktcheck => Ok(Action::Ktcheck(
            check_options(alloc, matches)?,
            files_to_read(alloc, matches, FileKind::Keytab)?,
        )),
        CommandName::Show => Ok(Action::Show(
            show_options(matches)?,
            files_to_read(alloc, matches, FileKind::Either)?,
        )),
        CommandName::Ktmatch => parsed_ktmatch(alloc, matches),
        CommandName::Ccedit => Ok(Action::Ccedit(edited_file(matches, FileKind::Cache, "FILE"))),
        CommandName::Ccremove => Ok(Action::Ccremove(
            ticket_options(alloc, matches)?,
            files_to_change(alloc, matches, FileKind::Cache)?,
        )),
        CommandName::Ktutil => Ok(parsed_ktutil(matches)),
        CommandName::Hold => parsed_hold(matches),
    }
}

/// Returns the action for a line of that command, of that name, or why the line was not read: options that do not
/// go together, a word that cannot be read, or an allocation that failed.
pub fn action_of<'a, M: Matches<'a>>(
    alloc: Global,
    command: CommandName,
    name: &'a str,
    matches: &M,
) -> Result<Action<'a>, WordFault<'a>>
    ensures ok { IfOk result (Asks command (M.matched matches.now)) }
    ensures readable { OnOk result (line_mistake command (M.matched matches.now) ≡ None) }
    ensures refused { IfErr result (IsRefusal name.now (line_mistake command (M.matched matches.now))) }
{
    match parsed(alloc, command, matches) {
        Ok(action) => Ok(action),
        Err(fault) => Err(fault.in_command(name)),
    }
}
