//! ccremove: removes tickets from a credential cache.

ghost use Rattle.std.specs.Prelude.{◌≡◌, IfOk};
ghost use Rattle.krb_ccache.specs.Store.{image_of};
ghost use Rattle.krb_audit.specs.Tickets.{SelectsTickets, selected_tickets};
ghost use Rattle.krb_driver.specs.Several.{label_of};
ghost use Rattle.krb_editors.specs.Ccremove.{cache_after, ccremove_plan, ended_by, none_verdict, odd_tickets, removes, ticket_removal_of};
ghost use Rattle.krb_driver.specs.Commands.{IsMade};
ghost use Rattle.krb_driver.specs.Composing.{text_effect};
ghost use Rattle.krb_driver.specs.declared.verdict.FileKind.TheVariants.{Cache as OfCache};
ghost use Rattle.krb_editors.specs.Removing.{RemovesWith};
ghost use Rattle.krb_driver.specs.Mistakes.{Refuses};
ghost use Rattle.krb_driver.specs.Spelled.{ReadsAs};

use crate::removing::{FilesSeen, run_removals};
use crate::selecting::{NONE_OK, names_given};
use krb_audit::{SelectedTickets, TicketCriteria, select_tickets};
use krb_ccache::Ccache;
use krb_driver::{
    CacheUse, CommandName, CommandWords, DRY_RUN, FileError, FileKind, FileName, IN_PLACE, Made,
    MakeResult, Matches, Mistake, OF_PATTERN, Output, OverFiles, Phrase, RunEnd, RunError, Verdict,
    Word, WordFault, World, end_before, hold_if, label_of, open, spelled_asked,
};
use krb_files::Files;
use krb_names::AskedNames;
use krb_walk::Refusal;
use krb_wire::NoMemory;
use std::alloc::{Allocator, Global};
use std::io::{Read, Write};
use std::marker::Model;

pub const CCREMOVE: CommandWords = CommandWords {
    command: CommandName::Ccremove,
    name: "ccremove",
    about: "Removes tickets from credential caches",
    usage: "\
krbfile ccremove [--in-place] [-n] [-p SERVICE].. [--match PATTERN].. [--all-services] [--expired] [--none-ok] FILE..",
    after_help: Some(
        "\
Statuses:
  0  The tickets were removed; with --expired or --none-ok: also where there are none
  1  No ticket is selected, or a file is missing, too large, damaged or no cache
  2  The command line is bad
  3  A file, the output or the clock failed
  4  Out of memory
Example: remove the tickets that have ended
  krbfile ccremove --expired krb5cc_1",
    ),
    words: &[
        DRY_RUN,
        Word::Valued(
            "service",
            'p',
            "SERVICE",
            "Tickets for that service, with its realm; may be repeated",
        ),
        OF_PATTERN,
        Word::LongFlag(
            "all-services",
            "Tickets for any service but the ticket-granting service",
        ),
        Word::LongFlag("expired", "Tickets that have ended"),
        NONE_OK,
        IN_PLACE,
        Word::RequiredOperands("FILE", "The files to remove from"),
    ],
};

/// Which tickets ccremove removes: those that meet every condition given.
#[derive(Drop)]
pub struct TicketOptions<A: Allocator> {
    /// Only those for one of these servers.
    pub servers: AskedNames<A>,
    /// Only those for services, not for the ticket-granting service.
    pub all_services: bool,
    /// Only those that have ended.
    pub expired: bool,
    /// It is no failure if there are none.
    pub none_ok: bool,
    /// Print what would be removed, and save nothing.
    pub dry_run: bool,
}

impl<A: Allocator> Model for TicketOptions<A> {
    ghost use Rattle.krb_editors.specs.Ccremove.{TicketRemoval};

    ghost Value = { TicketRemoval };

    ghost view = { λ o. record {
      servers = o.servers;
      all_services = o.all_services;
      expired = o.expired;
      none_ok = o.none_ok;
      dry_run = o.dry_run;
    } };
}

// Refuses a line that selects nothing.
fn refuse_unselected<'a, M: Matches<'a>>(matches: &M) -> Result<(), Mistake<'a>>
    ensures { Refuses (odd_tickets (M.matched matches.now)) result }
{
    if names_given(matches, "service") | (matches.flag("all-services") | matches.flag("expired")) {
        return Ok(());
    }
    Err(Phrase::NOTHING_SELECTS.of("-p, --match, --all-services or --expired"))
}

/// Returns the options of ccremove. Refuses a line that selects nothing, and a bad name or pattern.
pub fn ticket_options<'a, M: Matches<'a>>(
    alloc: Global,
    matches: &M,
) -> Result<TicketOptions<Global>, WordFault<'a>>
    ensures { ReadsAs (ticket_removal_of (M.matched matches.now)) result }
{
    refuse_unselected(matches)?;
    let servers = spelled_asked(alloc, matches, "service")?;
    Ok(TicketOptions {
        servers: servers?,
        all_services: matches.flag("all-services"),
        expired: matches.flag("expired"),
        none_ok: matches.flag("none-ok"),
        dry_run: matches.flag("dry-run"),
    })
}

/// The command ccremove. If there is a time, it removes only tickets that end at or before it.
#[derive(Clone, Copy)]
struct RemoveTickets<'f, B: Allocator> {
    options: &'f TicketOptions<B>,
    ended_by: Option<u32>,
    are_several: bool,
}

// Returns the time at or before which the selected tickets end, if only expired ones are selected.
fn ended_by<B: Allocator>(
    options: &TicketOptions<B>,
    now: Option<u32>,
) -> Result<Option<u32>, RunError>
    ensures { result ≡ ended_by options.now now }
{
    match now {
        Some(_) if options.expired => Ok(now),
        None if options.expired => Err(RunError::ClockNotRead),
        _ => Ok(None),
    }
}

// Rewrites a cache without the tickets at those places and returns its image. A cache that may be changed does not
// refuse this.
fn cut<A: Allocator + Copy>(mut cache: Ccache<A>, places: &[u32]) -> Result<Vec<u8, A>, NoMemory>
    ensures { IfOk result (λ image. image.items ≡ image_of (cache_after cache.state places.now)) }
{
    cache.remove_all(places);
    match cache.rewrite(&mut []) {
        Err(Refusal::NoMemory) => Err(NoMemory),
        _ => Ok(cache.into_image()),
    }
}

// Returns the verdict if no ticket is selected: no failure with `--none-ok`, and with `--expired` if nothing else is asked
// for or some ticket is that.
fn none_verdict<B: Allocator>(
    are_several: bool,
    options: &TicketOptions<B>,
    is_named: bool,
) -> Verdict
    ensures { result ≡ none_verdict are_several options.now is_named }
{
    let is_any = options.servers.is_any() & !options.all_services;
    if options.none_ok | (options.expired & (is_any | is_named)) {
        Verdict::Well
    } else if are_several {
        Verdict::Without
    } else {
        Verdict::NothingToRemove(FileKind::Cache)
    }
}

fn select<A: Allocator + Copy, B: Allocator>(
    alloc: A,
    command: &RemoveTickets<'_, B>,
    file: FileName<'_>,
    cache: &Ccache<A>,
) -> Result<SelectedTickets<A>, NoMemory>
    ensures { IfOk result (SelectsTickets (label_of command.now.are_several file.entry.name.now)
        command.now.options.now.servers command.now.options.now.all_services command.now.ended_by cache.now.state) }
{
    let options = command.options;
    let label = label_of(alloc, command.are_several, file)?;
    let criteria = TicketCriteria {
        servers: &options.servers,
        all_services: options.all_services,
        ended_by: command.ended_by,
    };
    select_tickets(alloc, &label, cache, &criteria)
}

// Removes the selected tickets from a cache, or only lists them in a dry run.
fn remove<'a, A: Allocator + Copy, B: Allocator>(
    alloc: A,
    command: &RemoveTickets<'_, B>,
    file: FileName<'a>,
    cache: Ccache<A>,
) -> Result<Made<A, Output<A>>, FileError<'a>>
    ensures { IsMade (removes command.now.options.now command.now.are_several file.entry.name.now cache.state
        (selected_tickets command.now.options.now.servers command.now.options.now.all_services command.now.ended_by cache.state))
        (text_effect file.entry.name.now result) }
{
    let options = command.options;
    let selected = select(alloc, command, file, &cache)?;
    if selected.places.is_empty() {
        return Ok(Made::Shows(Output {
            text: Vec::new(alloc),
            verdict: none_verdict(command.are_several, options, selected.is_named),
        }));
    }
    let text = Output {
        text: selected.text,
        verdict: Verdict::Well,
    };
    if options.dry_run {
        return Ok(Made::Shows(text));
    }
    let image = cut(cache, &selected.places)?;
    Ok(Made::Saves(image, text))
}

impl<A: Allocator + Copy, B: Allocator> OverFiles<A> for RemoveTickets<'_, B> {
    ghost use Rattle.krb_driver.specs.Commands.{always};
    ghost use Rattle.krb_editors.specs.Ccremove.{ccremove_plan};
    ghost use Rattle.krb_editors.specs.Removing.{seen_after};

    type State = FilesSeen;

    type Shown = Output<A>;

    ghost plan = { λ c seen file. always (ccremove_plan c.options.now c.ended_by c.are_several file) };

    ghost after = { seen_after };

    #[tactic(auto, unfolding(krb_driver::specs::Commands::always))]
    fn make<'f, F: Files>(
        &'f self,
        alloc: A,
        _seen: FilesSeen,
        file: FileName<'f>,
        files: &mut F,
    ) -> MakeResult<'f, A, Output<A>> {
        let options = self.options;
        hold_if(!options.dry_run, files, file);
        let cache = open(alloc, CacheUse::Change, files, file)?;
        remove(alloc, self, file, cache)
    }

    fn after(seen: FilesSeen, end: RunEnd) -> FilesSeen {
        seen.after(end)
    }
}

/// Removes the selected tickets from caches, one after the other, prints a line for each ticket, after the file's name if
/// there are several, and returns the greatest status. `now` is in seconds, or `None` if the clock was not read.
pub fn run_ccremove<A: Allocator + Copy, B: Allocator, F: Files, R: Read, W: Write, E: Write>(
    alloc: A,
    options: &TicketOptions<B>,
    now: Option<u32>,
    names: &[FileName<'_>],
    world: &mut World<F, R, W, E>,
) -> u8
    ensures { RemovesWith F.Files OfCache names.now world.old world.new result (ccremove_plan options.now)
        (ended_by options.now now) }
{
    let ended_by = match ended_by(options, now) {
        Ok(ended_by) => ended_by,
        Err(error) => return end_before(error, None, world),
    };
    let command = RemoveTickets {
        options,
        ended_by,
        are_several: names.len() > 1,
    };
    run_removals(alloc, FileKind::Cache, &command, names, world)
}
