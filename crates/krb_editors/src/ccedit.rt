//! ccedit: edits a credential cache by a script.

ghost use Rattle.std.specs.List.{list_any};
ghost use Rattle.std.specs.Prelude.{◌≡◌, ℕ, List, IfOk, Ok, OnOk, ◌∷◌, [], map};
ghost use Rattle.krb_walk.specs.declared.event.Event.TheVariants.{Cut, Put};
ghost use Rattle.krb_walk.specs.Events.{reply_to};
ghost use Rattle.krb_walk.specs.History.{state_after};
ghost use Rattle.krb_walk.specs.Ran.{Ran};
ghost use Rattle.krb_walk.specs.ReplyContent.{content_of};
ghost use Rattle.krb_ccache.specs.Rewrite.{cache_rules};
ghost use Rattle.krb_ccache.specs.SetConfig.{entry_of, match_places, setting_events};
ghost use Rattle.krb_cache_text.specs.Script.{cache_line_in};
ghost use Rattle.krb_editors.specs.Ccedit.{RunsFairly, cache_events, cache_session, ccedit_fairly, ccedit_plan, edits, is_refusal, line_events, line_may_change};
ghost use Rattle.krb_driver.specs.Composing.{text_effect};
ghost use Rattle.krb_editors.specs.Sessions.{RunsScript, left, new_session};

use crate::edited::{may_change, read_script, replied};
use krb_cache_text::{CacheLine, CcFormat, Request};
use krb_ccache::{Ccache, Cred, Setting};
use krb_driver::{
    CacheUse, Command, CommandName, CommandWords, FileError, FileKind, FileName, IN_PLACE, Made,
    MakeResult, Output, Word, World, end_before, give, hold_if, run,
};
use krb_files::Files;
use krb_walk::{Event, Reply, Session};
use krb_wire::NoMemory;
use std::alloc::Allocator;
use std::io::{Read, Write};

pub const CCEDIT: CommandWords = CommandWords {
    command: CommandName::Ccedit,
    name: "ccedit",
    about: "Edits a credential cache by a script from the standard input",
    usage: "krbfile ccedit [--in-place] FILE < SCRIPT",
    after_help: Some(
        "\
Lines of the script, of which empty ones and those that begin with # ask for nothing:
  start                       A new walk, from the first credential
  resume PLACE                A new walk, from that place
  step WALK                   The next credential of that walk
  cut PLACE                   The removal of the credential at that place
  config KEY PRINCIPAL VALUE  A configuration value; PRINCIPAL is - for none
  rewrite                     The cache is written anew, without what was removed
Statuses:
  0  All lines were run
  1  A line is faulty, a reply is a refusal or a fault, or the file is missing, too large or no cache
  2  The command line is bad
  3  The script, the file or the output failed
  4  Out of memory
Example: write a cache anew, without what was removed
  echo rewrite | krbfile ccedit krb5cc_0",
    ),
    words: &[IN_PLACE, Word::Operand("FILE", "The file to edit")],
};

#[derive(Drop)]
struct EditCache<'f, A: Allocator> {
    file: FileName<'f>,
    lines: Vec<CacheLine<A>, A>,
}

// Returns the removals of the entries that a setting replaces.
fn removals<A: Allocator + Copy>(
    alloc: A,
    cache: &Ccache<A>,
    setting: &Setting<'_>,
) -> Result<Vec<Event<Cred<A>>, A>, NoMemory>
    ensures { IfOk result (λ events. events.items ≡ map Cut (match_places cache.now.state setting.now)) }
{
    let places = cache.setting_places(alloc, setting)?;
    Ok(
        places
            .iter()
            .map(|place| Event::Cut(*place))
            .collect(alloc)?,
    )
}

// Applies an event and adds its reply. Returns whether it was refused.
fn apply<A: Allocator + Copy>(
    session: &mut Session<Ccache<A>, A>,
    event: &Event<Cred<A>>,
    replies: &mut Vec<Reply<A>, A>,
) -> Result<bool, NoMemory>
    ensures ran { OnOk result (Ran cache_rules (cache_session session.old) (cache_session session.new)
        (event.now ∷ []) (map content_of replies.old.items) (map content_of replies.new.items)) }
    ensures refused { IfOk result (λ b. b ≡ is_refusal (reply_to cache_rules (cache_session session.old) event.now)) }
{
    let reply = session.apply(event)?;
    let is_refused = matches!(&reply, Reply::Refused(_));
    replies.push(reply)?;
    Ok(is_refused)
}

// Adds the entry of a setting. Returns whether it was refused.
fn put<A: Allocator + Copy>(
    alloc: A,
    session: &mut Session<Ccache<A>, A>,
    setting: &Setting<'_>,
    replies: &mut Vec<Reply<A>, A>,
) -> Result<bool, NoMemory>
    ensures ran { OnOk result (Ran cache_rules (cache_session session.old) (cache_session session.new)
        (Put (entry_of session.old.store.state.principal setting.now) ∷ []) (map content_of replies.old.items) (map content_of replies.new.items)) }
    ensures refused { IfOk result (λ b. b ≡ is_refusal (reply_to cache_rules (cache_session session.old)
        (Put (entry_of session.old.store.state.principal setting.now)))) }
{
    let entry = session.store().setting_entry(alloc, setting)?;
    apply(session, &Event::Put(entry), replies)
}

// Sets a value: adds its entry and, if that was not refused, removes each entry that it replaces.
fn set_value<A: Allocator + Copy>(
    alloc: A,
    session: &mut Session<Ccache<A>, A>,
    setting: &Setting<'_>,
    replies: &mut Vec<Reply<A>, A>,
) -> Result<(), NoMemory>
    ensures { OnOk result (Ran cache_rules (cache_session session.old) (cache_session session.new)
        (setting_events session.old.store.state setting.now) (map content_of replies.old.items) (map content_of replies.new.items)) }
{
    let removals = removals(alloc, session.store(), setting)?;
    if put(alloc, session, setting, replies)? {
        return Ok(());
    }
    Ok(session.run(&removals, replies)?)
}

fn run_line<A: Allocator + Copy>(
    alloc: A,
    session: &mut Session<Ccache<A>, A>,
    line: &CacheLine<A>,
    replies: &mut Vec<Reply<A>, A>,
) -> Result<(), NoMemory>
    ensures { OnOk result (Ran cache_rules (cache_session session.old) (cache_session session.new)
        (line_events (cache_session session.old) line.now) (map content_of replies.old.items) (map content_of replies.new.items)) }
{
    match line {
        Request::Event(event) => {
            apply(session, event, replies)?;
            Ok(())
        }
        Request::Setting(setting) => set_value(alloc, session, &setting.as_setting(), replies),
    }
}

// Runs lines over a cache in a new session.
fn run_lines<A: Allocator + Copy>(
    alloc: A,
    cache: Ccache<A>,
    lines: &[CacheLine<A>],
    replies: &mut Vec<Reply<A>, A>,
) -> Result<Ccache<A>, NoMemory>
    ensures ran { OnOk result (Ran cache_rules (new_session cache.state)
        (state_after cache_rules (new_session cache.state) (cache_events lines.now cache.state))
        (cache_events lines.now cache.state) (map content_of replies.old.items) (map content_of replies.new.items)) }
    ensures left { IfOk result (λ k. k.state ≡ left cache_rules cache.state (cache_events lines.now cache.state)) }
{
    let mut session = Session::new(alloc, cache);
    'lines: for line in lines {
        run_line(alloc, &mut session, line, replies)?;
    }
    Ok(session.into_store())
}

// Runs lines over a cache and returns what to save and the text of the replies.
fn edit<A: Allocator + Copy>(
    alloc: A,
    cache: Ccache<A>,
    lines: &[CacheLine<A>],
) -> Result<Made<A, Output<A>>, NoMemory>
    ensures made { IfOk result (λ made. (file : List ℕ) → text_effect file (Ok made) ≡ edits lines.now file cache.state) }
    ensures fair { IfOk result (λ made. RunsFairly lines.now cache.state) }
{
    let format = CcFormat(cache.version());
    let mut replies = Vec::new(alloc);
    let cache = run_lines(alloc, cache, lines, &mut replies)?;
    replied(
        alloc,
        FileKind::Cache,
        format,
        &replies,
        cache.into_image(),
        None,
    )
}

fn line_may_change<A: Allocator>(line: &CacheLine<A>) -> bool
    ensures { result ≡ line_may_change line.now }
{
    match line {
        Request::Event(event) => may_change(event),
        Request::Setting(_) => true,
    }
}

fn may_any_change<A: Allocator>(lines: &[CacheLine<A>]) -> bool
    ensures { result ≡ list_any line_may_change lines.now }
{
    lines.iter().any(line_may_change)
}

impl<'f, A: Allocator + Copy> Command<A> for EditCache<'f, A> {
    ghost use Rattle.krb_editors.specs.Ccedit.{ccedit_fairly, ccedit_plan};

    type Shown = Output<A>;

    ghost file = { λ c. c.file.name.now };

    ghost plan = { λ c mode. ccedit_plan c.file c.lines.items };

    // Every walk is given what is due to it.
    ghost fairly = { λ c. ccedit_fairly c.lines.items };

    fn file(&self) -> &str {
        self.file.name
    }

    fn make<F: Files>(&self, alloc: A, files: &mut F) -> MakeResult<'_, A, Self::Shown> {
        hold_if(may_any_change(&self.lines), files, self.file);
        let cache = give(alloc, CacheUse::Read, files, self.file)?;
        Ok(edit(alloc, cache, &self.lines)?)
    }
}

/// Runs the lines of the script on the input over the cache `file` in one session, saves it if they changed it,
/// prints the replies, and returns the exit status.
pub fn run_ccedit<A: Allocator + Copy, F: Files, R: Read, W: Write, E: Write>(
    alloc: A,
    file: FileName<'_>,
    world: &mut World<F, R, W, E>,
) -> u8
    ensures { RunsScript F.Files world.old world.new result (ccedit_plan file.entry) ccedit_fairly cache_line_in }
{
    match read_script(alloc, &mut world.input) {
        Ok(lines) => run(alloc, &EditCache { file, lines }, world),
        Err(error) => end_before(error, world.input.cause(), world),
    }
}
