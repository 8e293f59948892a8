//! ktedit: edits a keytab by a script.

ghost use Rattle.std.specs.Prelude.{◌≡◌, ℕ, List, IfOk, Ok};
ghost use Rattle.krb_keytab_text.specs.Script.{event_in};
ghost use Rattle.krb_audit.specs.Findings.{hides_added};
ghost use Rattle.krb_driver.specs.Composing.{text_effect};
ghost use Rattle.krb_editors.specs.Ktedit.{RunsFairly, edits, ktedit_fairly, ktedit_plan};
ghost use Rattle.krb_editors.specs.Sessions.{RunsScript};

use crate::added::run_following;
use crate::edited::{may_any_change, read_script, replied};
use krb_audit::hides_added;
use krb_driver::{
    Command, CommandName, CommandWords, FileError, FileKind, FileName, IN_PLACE, KeytabUse, Made,
    MakeResult, Output, V1_BIG, Word, World, end_before, give, hold_if, run,
};
use krb_files::Files;
use krb_keytab::{Indexed, Keytab, NewEntry};
use krb_walk::{Event, Session};
use krb_wire::{NoMemory, Order};
use std::alloc::Allocator;
use std::io::{Read, Write};

pub const KTEDIT: CommandWords = CommandWords {
    command: CommandName::Ktedit,
    name: "ktedit",
    about: "Edits a keytab by a script from the standard input",
    usage: "krbfile ktedit [--v1-big] [--in-place] FILE < SCRIPT",
    after_help: Some(
        "\
Lines of the script, of which empty ones and those that begin with # ask for nothing:
  start                         A new walk, from the first record
  resume PLACE                  A new walk, from that place
  step WALK                     The next record of that walk
  add KVNO ETYPE TIME KEY NAME  An addition; KEY is hexadecimal, or - for none
  cut PLACE                     The removal of the record at that place
  rewrite                       The keytab is written anew, without holes
Statuses:
  0  All lines were run
  1  A line is faulty, a reply is a refusal or a fault, or the file is missing, too large or no keytab
  2  The command line is bad
  3  The script, the file or the output failed
  4  Out of memory
Example: remove the record at byte 53
  echo cut 53 | krbfile ktedit host.keytab",
    ),
    words: &[
        V1_BIG,
        IN_PLACE,
        Word::Operand("FILE", "The file to edit, made where it is missing"),
    ],
};

#[derive(Drop)]
struct EditKeytab<'f, A: Allocator> {
    v1_order: Order,
    file: FileName<'f>,
    events: Vec<Event<NewEntry<A>>, A>,
}

// Returns the place from which on MIT's programs see no entry, if they miss one that was added at these places.
fn hidden_from<A: Allocator>(keytab: &Keytab<A>, added: &[u32]) -> Option<u32>
    ensures { result ≡ hides_added keytab.now.state added.now }
{
    if added.is_empty() {
        return None;
    }
    hides_added(keytab, added)
}

// Runs events over a keytab, with a table of its cells, in a new session.
fn edit<A: Allocator + Copy>(
    alloc: A,
    keytab: Keytab<A>,
    events: &[Event<NewEntry<A>>],
) -> Result<Made<A, Output<A>>, NoMemory>
    ensures made { IfOk result (λ made. (file : List ℕ) → text_effect file (Ok made) ≡ edits events.now file keytab.state) }
    ensures fair { IfOk result (λ made. RunsFairly events.now keytab.state) }
{
    let format = keytab.format();
    let Ok(keytab) = Indexed::of(alloc, keytab) else {
        return Err(NoMemory);
    };
    let mut session = Session::new(alloc, keytab);
    let mut replies = Vec::new(alloc);
    let added = run_following(alloc, &mut session, events, &mut replies)?;
    let keytab = session.into_store().into_keytab();
    let hidden = hidden_from(&keytab, &added);
    replied(
        alloc,
        FileKind::Keytab,
        format,
        &replies,
        keytab.into_image(),
        hidden,
    )
}

impl<'f, A: Allocator + Copy> Command<A> for EditKeytab<'f, A> {
    ghost use Rattle.krb_editors.specs.Ktedit.{ktedit_fairly, ktedit_plan};

    type Shown = Output<A>;

    ghost file = { λ c. c.file.name.now };

    ghost plan = { λ c mode. ktedit_plan c.v1_order c.file c.events.items };

    // Every walk is given what is due to it.
    ghost fairly = { λ c. ktedit_fairly c.v1_order c.file c.events.items };

    fn file(&self) -> &str {
        self.file.name
    }

    fn make<F: Files>(&self, alloc: A, files: &mut F) -> MakeResult<'_, A, Self::Shown> {
        hold_if(may_any_change(&self.events), files, self.file);
        let keytab = give(alloc, KeytabUse::Edit(self.v1_order), files, self.file)?;
        Ok(edit(alloc, keytab, &self.events)?)
    }
}

/// Runs the events of the script on the input over the keytab `file` in one session, saves it if they changed it,
/// prints the replies, and returns the exit status.
pub fn run_ktedit<A: Allocator + Copy, F: Files, R: Read, W: Write, E: Write>(
    alloc: A,
    v1_order: Order,
    file: FileName<'_>,
    world: &mut World<F, R, W, E>,
) -> u8
    ensures { RunsScript F.Files world.old world.new result
        (ktedit_plan v1_order file.entry) (ktedit_fairly v1_order file.entry) event_in }
{
    match read_script(alloc, &mut world.input) {
        Ok(events) => {
            let command = EditKeytab {
                v1_order,
                file,
                events,
            };
            run(alloc, &command, world)
        }
        Err(error) => end_before(error, world.input.cause(), world),
    }
}
