//! klist -l: a line for each cache.

ghost use Rattle.std.specs.Prelude.{◌≡◌, ◌++◌, OnOk, false};
ghost use Rattle.krb_driver.specs.Commands.{IsMade, always};
ghost use Rattle.krb_driver.specs.Composing.{text_effect};
ghost use Rattle.krb_driver.specs.Mistakes.{Refuses};
ghost use Rattle.krb_driver.specs.Spelled.{Spells};
ghost use Rattle.krb_readers.specs.Overview.{SurveysAll, heading, odd_with_list, overview_of, overview_plan, overview_text, padded, summary_of, surveys};
ghost use Rattle.krb_wire.specs.Names.{name_text};

use crate::klist::ticket_check::{SeenTickets, has_ticket};
use crate::klist::words::{refuse_columns, refuse_odd_seconds, refuse_with};
use krb_ccache::Ccache;
use krb_driver::{
    CacheUse, FileError, FileName, Made, MakeResult, Matches, Mistake, Output, OverFiles, RunEnd,
    RunError, Verdict, World, append_name, end_before, open, print, run_over, typed,
};
use krb_files::Files;
use krb_json::{CacheSummary, append_summary};
use krb_text::append;
use krb_wire::{Name, NoMemory, write_name};
use std::alloc::Allocator;
use std::io::{Read, Write};

// Refuses an option that does not go with `-l`.
fn refuse_with_list<'a, M: Matches<'a>>(matches: &M) -> Result<(), Mistake<'a>>
    ensures { Refuses (odd_with_list (M.matched matches.now)) result }
{
    let list = typed(matches, "-l", "--list");
    refuse_with(matches, list, "keytab", "-k", "--keytab")?;
    refuse_with(matches, list, "silent", "-s", "--silent")?;
    refuse_columns(matches, list)?;
    refuse_with(matches, list, "times", "-t", "--times")?;
    refuse_with(matches, list, "keys", "-K", "--keys")?;
    refuse_with(matches, list, "v1-big", "--v1-big", "--v1-big")
}

/// Returns whether `klist -l` prints JSON. Refuses options that do not go together.
pub fn overview_json<'a, M: Matches<'a>>(matches: &M) -> Result<bool, Mistake<'a>>
    ensures { Spells (overview_of (M.matched matches.now)) result }
{
    refuse_odd_seconds(matches)?;
    refuse_with_list(matches)?;
    Ok(matches.flag("json"))
}

// What comes before the lines of caches, as MIT's klist has it.
const HEADING: &[u8] = b"\
Principal name                 Cache name
--------------                 ----------
";

// Returns what comes before the lines of caches: nothing before JSON.
fn heading(json: bool) -> &'static [u8]
    ensures { result.now ≡ heading json }
{
    if json { b"" } else { HEADING }
}

// As wide as the column of principals.
const BLANKS: &[u8] = b"                              ";

// Appends a name, and blanks up to 30 bytes.
fn append_padded<N: Name, A: Allocator>(name: &N, out: &mut Vec<u8, A>) -> Result<(), NoMemory>
    ensures { OnOk result (out.new.items ≡ out.old.items ++ padded (name_text (N.parts name.now))) }
{
    let start = out.len();
    write_name(name, out)?;
    let width = out.len() - start;
    if width < BLANKS.len() {
        append(&BLANKS[width..], out)?;
    }
    Ok(())
}

// Returns what JSON has of a cache at that second.
fn summary_of<A: Allocator>(cache: &Ccache<A>, now: u32) -> CacheSummary
    ensures { result ≡ summary_of now cache.now.state }
{
    let seen = SeenTickets::of(cache);
    CacheSummary {
        tickets: seen.count,
        endtime: seen.last_end(),
        is_expired: !seen.are_enough(u64::from(now)),
    }
}

#[derive(Clone, Copy)]
struct SurveyFiles {
    json: bool,
    /// The time, in seconds.
    now: u32,
}

fn append_line<A: Allocator + Copy>(
    now: u32,
    file: &str,
    cache: &Ccache<A>,
    out: &mut Vec<u8, A>,
) -> Result<(), NoMemory>
    ensures { OnOk result (out.new.items ≡ out.old.items ++ overview_text false now file.now cache.now.state) }
{
    append_padded(&cache.default_principal(), out)?;
    append(b" FILE:", out)?;
    append_name(file.as_bytes(), out)?;
    if !has_ticket(cache, u64::from(now)) {
        append(b" (Expired)", out)?;
    }
    append(b"\n", out)
}

// Returns the line of a cache, or its JSON.
fn survey<'a, A: Allocator + Copy>(
    alloc: A,
    command: SurveyFiles,
    file: &'a str,
    cache: &Ccache<A>,
) -> Result<Made<A, Output<A>>, FileError<'a>>
    ensures { IsMade (surveys command.json command.now file.now cache.now.state) (text_effect file.now result) }
{
    let mut text = Vec::new(alloc);
    if command.json {
        let summary = summary_of(cache, command.now);
        append_summary(alloc, file, &cache.default_principal(), summary, &mut text)?;
    } else {
        append_line(command.now, file, cache, &mut text)?;
    }
    Ok(Made::Shows(Output {
        text,
        verdict: Verdict::Well,
    }))
}

impl<A: Allocator + Copy> OverFiles<A> for SurveyFiles {
    type State = ();

    type Shown = Output<A>;

    ghost plan = { λ c state file. always (overview_plan c.json c.now file) };

    ghost after = { λ state end. state };

    #[tactic(auto, unfolding(krb_driver::specs::Commands::always))]
    fn make<'f, F: Files>(
        &'f self,
        alloc: A,
        _state: (),
        file: FileName<'f>,
        files: &mut F,
    ) -> MakeResult<'f, A, Output<A>> {
        let cache = open(alloc, CacheUse::Read, files, file)?;
        survey(alloc, *self, file.name, &cache)
    }

    fn after(_state: (), _end: RunEnd) {}
}

/// Prints two heading lines and a line for each cache, or JSON, and returns the greatest status. `now` is in seconds, or
/// `None` if the clock was not read. Ends early if memory runs out or the output fails.
pub fn run_overview<A: Allocator + Copy, F: Files, R: Read, W: Write, E: Write>(
    alloc: A,
    json: bool,
    now: Option<u32>,
    names: &[FileName<'_>],
    world: &mut World<F, R, W, E>,
) -> u8
    ensures { SurveysAll F.Files json now world.old world.new result names.now }
{
    let status = print(heading(json), Ok(Verdict::Well), world);
    if status > 0 {
        return status;
    }
    match now {
        Some(now) => run_over(alloc, &SurveyFiles { json, now }, (), names, world).status,
        None => end_before(RunError::ClockNotRead, None, world),
    }
}
