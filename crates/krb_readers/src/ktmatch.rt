//! ktmatch: says whether a keytab opens the tickets of caches.

mod command;
mod page;
mod state;
mod verdict;
pub(crate) mod words;

ghost use Rattle.std.specs.Prelude.{◌≡◌, nat_lt, length};
ghost use Rattle.krb_readers.specs.Ktmatch.{EndsBy, EndsMatches, MatchesAll, LinesAreOfEach, MatchesCaches, MatchesEach, MatchesNext, NamesEntry, first_state, none_error, plan_of};

use crate::ktmatch::command::MatchFiles;
use crate::ktmatch::state::MatchState;
use crate::ktmatch::verdict::sought;
use crate::ktmatch::words::MatchOptions;
use krb_driver::{
    Details, ErrorOutput, FileError, FileName, Judged, KeytabUse, Made, Output, Ran, RunError,
    TicketsSought, World, finish, give, name_near, report, run_over,
};
use krb_files::Files;
use krb_match::{EntryNames, Matcher};
use krb_wire::NoMemory;
use std::alloc::Allocator;
use std::io::{Read, Write};
use std::slice;

// Explains the entry that is named after the tickets of a cache, and its fault.
fn name_entry<A: Allocator + Copy, E: Write>(
    matcher: &Matcher<'_, A>,
    last: Option<Judged>,
    file: &[u8],
    err: &mut ErrorOutput<E>,
)
    ensures { NamesEntry matcher.now.0 file.now last err.old err.new }
{
    let Some(judged) = last else {
        return;
    };
    match judged.near {
        Some(number) => name_near(Some(matcher.entry_text(number)), file, judged.fault, err),
        None => name_near(None, file, judged.fault, err),
    }
}

// Matches the tickets of a cache after others.
fn match_next<A: Allocator + Copy, B: Allocator, F: Files, R: Read, W: Write, E: Write>(
    alloc: A,
    command: &MatchFiles<'_, '_, A, B>,
    before: Ran<MatchState>,
    file: FileName<'_>,
    world: &mut World<F, R, W, E>,
) -> Ran<MatchState>
    ensures { MatchesNext F.Files command.now.matcher.now.0 (plan_of command.now) file.entry
        (record { world = world.old; state = before.state; status = before.status })
        (record { world = world.new; state = result.state; status = result.status }) }
{
    let names = slice::from_ref(&file);
    let Ran { state, status } = run_over(alloc, command, before.state, names, world);
    let name = file.name.as_bytes();
    name_entry(command.matcher, state.last, name, &mut world.err);
    Ran {
        state,
        status: before.status.max(status),
    }
}

// Matches the tickets of caches, one after the other.
fn match_caches<A: Allocator + Copy, B: Allocator, F: Files, R: Read, W: Write, E: Write>(
    alloc: A,
    command: &MatchFiles<'_, '_, A, B>,
    names: &[FileName<'_>],
    world: &mut World<F, R, W, E>,
) -> Ran<MatchState>
    ensures { MatchesEach F.Files command.now.matcher.now.0 (plan_of command.now) names.now (record { world = world.old; state = first_state; status = 0 })
        (record { world = world.new; state = result.state; status = result.status }) }
{
    let mut ran = Ran {
        state: MatchState::first(),
        status: 0,
    };
    'names: for file in names {
        ran = match_next(alloc, command, ran, *file, world);
        if ran.state.is_last {
            return ran;
        }
    }
    ran
}

const SPENT: FileError<'static> = FileError {
    file: "",
    error: RunError::NoMemory,
};

fn end_by<A: Allocator + Copy, F: Files, R: Read, W: Write, E: Write>(
    alloc: A,
    met: FileError<'_>,
    world: &mut World<F, R, W, E>,
) -> u8
    ensures { EndsBy F.Files met.entry.file.now met.entry.error world.old world.new result }
{
    let made: Result<Made<A, Output<A>>, FileError<'_>> = Err(met);
    finish(alloc, met.file, None, made, world).status
}

// Returns the error if no ticket of any cache was looked at, and the file that its message names.
fn none_error<'f>(sought: TicketsSought, names: &[FileName<'f>]) -> (RunError, &'f str)
    ensures error { result.0 ≡ (none_error sought names.now).0 }
    ensures file { result.1.now ≡ (none_error sought names.now).1 }
{
    match names {
        [file] => (RunError::NoTicketIn(sought), file.name),
        _ => (RunError::NoTickets(sought), ""),
    }
}

// Ends the runs over caches, and returns the exit status: reports if no ticket of any was looked at.
fn end_matches<F: Files, R: Read, W: Write, E: Write>(
    sought: TicketsSought,
    names: &[FileName<'_>],
    ran: Ran<MatchState>,
    world: &mut World<F, R, W, E>,
) -> u8
    ensures { EndsMatches F.Files sought names.now ran.state ran.status world.old world.new result }
{
    if !ran.state.is_none() {
        return ran.status;
    }
    let (error, file) = none_error(sought, names);
    let details = Details::unsaved(None);
    let status = report(Err(error), file.as_bytes(), None, details, &mut world.err);
    ran.status.max(status)
}

// Matches the tickets of caches, and returns the exit status.
fn match_with<A: Allocator + Copy, B: Allocator, F: Files, R: Read, W: Write, E: Write>(
    alloc: A,
    command: &MatchFiles<'_, '_, A, B>,
    names: &[FileName<'_>],
    world: &mut World<F, R, W, E>,
) -> u8
    ensures { command.now.are_several ≡ nat_lt 1 (length names.now)
        → MatchesCaches F.Files command.now.options.now command.now.keytab.now command.now.matcher.now names.now world.old world.new result }
{
    let ran = match_caches(alloc, command, names, world);
    end_matches(sought(command.options), names, ran, world)
}

/// Says of the tickets of caches, one cache after the other, whether a keytab opens them, and returns the greatest status.
/// With several caches each line begins with the name of its file, without a newline; JSON is one object a line. Words
/// explain each word once, at the first cache that has it. Ends before any cache if the keytab is missing, none or damaged,
/// and early if memory runs out or the output fails.
pub fn run_ktmatch<A: Allocator + Copy, B: Allocator, F: Files, R: Read, W: Write, E: Write>(
    alloc: A,
    options: &MatchOptions<B>,
    keytab: FileName<'_>,
    names: &[FileName<'_>],
    world: &mut World<F, R, W, E>,
) -> u8
    ensures { MatchesAll F.Files options.now keytab.entry world.old world.new result names.now }
{
    let whole = KeytabUse::Change(options.v1_order);
    let opened = match give(alloc, whole, &mut world.files, keytab) {
        Ok(opened) => opened,
        Err(met) => return end_by(alloc, met, world),
    };
    let Ok(entry_names) = EntryNames::of(alloc, &opened, world.err.explains) else {
        return end_by(alloc, SPENT, world);
    };
    let Ok(matcher) = Matcher::of(alloc, &opened, &entry_names) else {
        return end_by(alloc, SPENT, world);
    };
    let command = MatchFiles {
        options,
        keytab: keytab.name,
        matcher: &matcher,
        are_several: names.len() > 1,
    };
    match_with(alloc, &command, names, world)
}

/// The lines of a cache among several are those of the cache alone, each after its name.
pub fn lines_are_those_of_each()
    ensures { LinesAreOfEach }
{}
