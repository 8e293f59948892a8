//! ktmatch over one cache: its lines, or its object.

ghost use Rattle.std.specs.Prelude.{◌≡◌, IfOk};
ghost use Rattle.krb_driver.specs.Commands.{Displays, IsMade};
ghost use Rattle.krb_driver.specs.Composing.{made_effect};
ghost use Rattle.krb_readers.specs.Ktcheck.{file_page};
ghost use Rattle.krb_readers.specs.Ktmatch.{match_page, page_due, page_of, plan_of, state_after};

use crate::file_page::{FilePage, refused};
use crate::ktmatch::page::MatchObject;
use crate::ktmatch::state::MatchState;
use crate::ktmatch::verdict::{append_lines, judged_of};
use crate::ktmatch::words::MatchOptions;
use krb_ccache::Ccache;
use krb_driver::{
    CacheUse, FileError, FileName, Judged, Made, MakeResult, Output, OverFiles, RunEnd, RunError,
    Verdict, label_of, try_open,
};
use krb_files::Files;
use krb_match::{MatchedTicket, Matcher};
use krb_wire::NoMemory;
use std::alloc::Allocator;

// How many bytes a line seldom exceeds.
const USUAL_LINE: usize = 80;

/// The command ktmatch over caches, with the keytab of that name.
#[derive(Clone, Copy)]
pub struct MatchFiles<'f, 'k, A: Allocator, B: Allocator> {
    pub options: &'f MatchOptions<B>,
    pub keytab: &'f str,
    pub matcher: &'f Matcher<'k, A>,
    /// One of several caches.
    pub are_several: bool,
}

// Returns what is shown of tickets, which a cache with that fault has: their lines, or what JSON is written of.
fn page_of<'f, A: Allocator + Copy, B: Allocator>(
    alloc: A,
    command: &MatchFiles<'f, '_, A, B>,
    file: FileName<'_>,
    tickets: Vec<MatchedTicket<A>, A>,
    judged: Judged,
) -> Result<FilePage<A, MatchObject<'f, A>>, NoMemory>
    ensures { IfOk result (λ page. file_page match_page page file.entry.name.now
        ≡ page_of command.now.options.now command.now.keytab.now command.now.are_several file.entry.name.now tickets.items judged) }
{
    let (options, keytab) = (command.options, command.keytab);
    let verdict = Verdict::Judged(judged);
    if !options.json {
        let label = label_of(alloc, options.with_filename || command.are_several, file)?;
        let mut text = Vec::with_capacity(alloc, tickets.len().saturating_mul(USUAL_LINE))?;
        append_lines(options.quiet, &label, &tickets, judged.fault, &mut text)?;
        return Ok(FilePage::Lines(Output { text, verdict }));
    }
    if options.quiet && !judged.is_wrong {
        let text = Vec::new(alloc);
        return Ok(FilePage::Lines(Output { text, verdict }));
    }
    Ok(FilePage::Object(MatchObject {
        keytab,
        tickets,
        judged,
    }))
}

// Returns what is shown of a cache.
fn shown<'a, 'f, A: Allocator + Copy, B: Allocator>(
    alloc: A,
    command: &MatchFiles<'f, '_, A, B>,
    state: MatchState,
    file: FileName<'a>,
    cache: &Ccache<A>,
) -> Result<Made<A, FilePage<A, MatchObject<'f, A>>>, FileError<'a>>
    ensures { IsMade (Displays file.entry.name.now (page_due command.now.options.now command.now.keytab.now command.now.are_several command.now.matcher.now
        state file.entry.name.now cache.now.state))
        (made_effect (file_page match_page) file.entry.name.now result) }
{
    let (options, several) = (command.options, command.are_several);
    let matched = command.matcher.judge(alloc, &options.names, cache)?;
    let judged = judged_of(options, several, state, &matched, cache.fault());
    let page = page_of(alloc, command, file, matched.tickets, judged)?;
    Ok(Made::Shows(page))
}

impl<'c, A: Allocator + Copy, B: Allocator> OverFiles<A> for MatchFiles<'c, '_, A, B> {
    type State = MatchState;

    type Shown = FilePage<A, MatchObject<'c, A>>;

    ghost plan = { λ c state file mode. plan_of c state file };

    ghost after = { state_after };

    fn make<'f, F: Files>(
        &'f self,
        alloc: A,
        state: MatchState,
        file: FileName<'f>,
        files: &mut F,
    ) -> MakeResult<'f, A, FilePage<A, MatchObject<'c, A>>> {
        let options = self.options;
        let cache = match try_open(alloc, CacheUse::Match, files, file) {
            Ok(cache) => cache,
            Err(why) => return refused(options.json, file, why),
        };
        shown(alloc, self, state, file, &cache)
    }

    fn after(state: MatchState, end: RunEnd) -> MatchState {
        state.after(end)
    }
}
