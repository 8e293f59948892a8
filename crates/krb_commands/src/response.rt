//! Runs the action of a command line.

ghost use Rattle.std.specs.Prelude.{◌≡◌};
ghost use Rattle.krb_commands.specs.Actions.{ChecksTickets, EndsAction, EndsParsed, file_or, files_or};
ghost use Rattle.krb_driver.specs.Loading.{result_map};

use crate::action::Action;
use krb_driver::{FileName, RunError, Verdict, WordFault, World, print, report_word_fault};
use krb_editors::{
    run_ccedit, run_ccremove, run_hold, run_ktcopy, run_ktdiff, run_ktedit, run_ktremove,
};
use krb_files::Files;
use krb_ktutil::run_ktutil;
use krb_readers::{
    TicketCheck, run_klist, run_ktcheck, run_ktfind, run_ktmatch, run_overview, run_show,
    run_ticket_check,
};
use std::alloc::Allocator;
use std::io::{Read, Write};
use std::slice;

/// The name of a file that a command line leaves out, or why there is none.
pub type DefaultName<'a> = Result<FileName<'a>, WordFault<'a>>;

fn file_or<'a>(file: Option<FileName<'a>>, default: DefaultName<'a>) -> DefaultName<'a>
    ensures { result ≡ file_or file.entry default.entry }
{
    match file {
        Some(file) => Ok(file),
        None => default,
    }
}

fn files_or<'n, 'a>(
    names: &'n [FileName<'a>],
    default: &'n DefaultName<'a>,
) -> Result<&'n [FileName<'a>], WordFault<'a>>
    ensures { result_map (λ names. names.now) result ≡ files_or names.now default.now }
{
    if !names.is_empty() {
        return Ok(names);
    }
    match default {
        Ok(file) => Ok(slice::from_ref(file)),
        Err(fault) => Err(*fault),
    }
}

// Checks the tickets of a file. Prints nothing but a bad command line.
fn check_tickets<A: Allocator + Copy, F: Files, R: Read, W: Write, E: Write>(
    alloc: A,
    check: TicketCheck,
    now: Option<u32>,
    file: DefaultName<'_>,
    world: &mut World<F, R, W, E>,
) -> u8
    ensures { ChecksTickets F.Files world.old world.new result check now file.entry }
{
    match file {
        Ok(file) => run_ticket_check(alloc, check, now, file, &mut world.files),
        Err(WordFault::NoMemory) => 4,
        Err(fault) => report_word_fault(fault, &mut world.err),
    }
}

// Runs an action, and returns the exit status.
fn run_action<A: Allocator + Copy, F: Files, R: Read, W: Write, E: Write>(
    alloc: A,
    action: &Action<'_>,
    now: Option<u32>,
    default: DefaultName<'_>,
    world: &mut World<F, R, W, E>,
) -> u8
    ensures { EndsAction F.Files world.old world.new result now default.entry action.now }
{
    match action {
        Action::Klist(options, names) => match files_or(names, &default) {
            Ok(names) => run_klist(alloc, options, names, world),
            Err(fault) => report_word_fault(fault, &mut world.err),
        },
        Action::Overview(json, names) => match files_or(names, &default) {
            Ok(names) => run_overview(alloc, *json, now, names, world),
            Err(fault) => report_word_fault(fault, &mut world.err),
        },
        Action::CheckTicket(check, names) => {
            let file = file_or(names.first().copied(), default);
            check_tickets(alloc, *check, now, file, world)
        }
        Action::Ktfind(options, file) => run_ktfind(alloc, options, *file, world),
        Action::Ktedit(v1_order, file) => run_ktedit(alloc, *v1_order, *file, world),
        Action::Ktcheck(options, names) => match files_or(names, &default) {
            Ok(names) => run_ktcheck(alloc, options, now, names, world),
            Err(fault) => report_word_fault(fault, &mut world.err),
        },
        Action::Show(options, names) => match files_or(names, &default) {
            Ok(names) => run_show(alloc, *options, now, names, world),
            Err(fault) => report_word_fault(fault, &mut world.err),
        },
        Action::Ktmatch(options, keytab, names) => match files_or(names, &default) {
            Ok(names) => run_ktmatch(alloc, options, *keytab, names, world),
            Err(fault) => report_word_fault(fault, &mut world.err),
        },
        Action::Ktremove(options, names) => run_ktremove(alloc, options, now, names, world),
        Action::Ktcopy(options, from, to) => run_ktcopy(alloc, options, *from, *to, world),
        Action::Ktdiff(options, a, b) => run_ktdiff(alloc, options, *a, *b, world),
        Action::Ktutil(options) => {
            let now = now.unwrap_or(0);
            run_ktutil(alloc, options.v1_order, options.prompts, now, world)
        }
        Action::Ccedit(file) => run_ccedit(alloc, *file, world),
        Action::Ccremove(options, names) => run_ccremove(alloc, options, now, names, world),
        Action::Hold(kind, file) => run_hold(alloc, *kind, *file, world),
        Action::HoldOnTerminal => print(b"", Err(RunError::OutputIsTerminal), world),
        Action::Help(text) => print(text.as_bytes(), Ok(Verdict::Well), world),
    }
}

/// Runs an action, or reports why the command line was not read, and returns the exit status. `default` is the name of
/// the file if the line leaves it out. ktutil adds entries with the time `now`, in seconds, or 0 if the clock was not
/// read. A failure of `err` changes nothing else. A check of tickets prints and reports nothing.
pub fn respond<A: Allocator + Copy, F: Files, R: Read, W: Write, E: Write>(
    alloc: A,
    parsed: &Result<Action<'_>, WordFault<'_>>,
    now: Option<u32>,
    default: DefaultName<'_>,
    world: &mut World<F, R, W, E>,
) -> u8
    ensures { EndsParsed F.Files world.old world.new result now default.entry parsed.now }
{
    match parsed {
        Ok(action) => run_action(alloc, action, now, default, world),
        Err(fault) => report_word_fault(*fault, &mut world.err),
    }
}
