//! ktutil: runs the lines of the input, each after its prompt.

mod awaiting;
mod command;
mod line;
mod options;
mod state;
mod verb;
mod words;

ghost use Rattle.std.specs.Prelude.{◌≡◌, ◌&&◌, [], not};
ghost use Rattle.krb_ktutil.specs.KtutilTalk.{HandlesNext, RunsKtutil, goes_on, PromptsOn};
ghost use Rattle.krb_ktutil.specs.declared.ktutil.awaiting.Awaiting.TheVariants.{Nothing};
ghost use Rattle.krb_driver.specs.Runs.{WritesOn};

use crate::input_lines::InputLines;
use krb_driver::{
    CommandName, CommandWords, Details, ErrorOutput, IN_PLACE, RunError, V1_BIG, Verdict, World,
    finish, is_spent, report,
};
use krb_files::{Files, Watched, put};
use krb_wire::Order;
pub use line::Line;
pub use state::Ktutil;
use std::alloc::Allocator;
use std::io::{Read, Write};

/// The words of ktutil.
pub const KTUTIL: CommandWords = CommandWords {
    command: CommandName::Ktutil,
    name: "ktutil",
    about: "Edits a list of entries by commands from the standard input",
    usage: "krbfile ktutil [--v1-big] [--in-place] < COMMANDS",
    after_help: Some(
        "\
Commands, each on a line, and their short names:
  list, l [-t] [-k] [-e]     Lists the entries, with times, keys, encryption types
  read_kt, rkt FILE          Adds the entries of the file to the list
  write_kt, wkt FILE         Adds the list to the file, made where it is missing
  add_entry, addent -key -p NAME -k KVNO -e ETYPE
                             Adds an entry; the next line is its key, in hexadecimal
  delete_entry, delent SLOT  Deletes the entry of that slot
  clear_list, clear          Empties the list
  quit, q, exit              Ends
Statuses:
  0  All commands were run
  1  A command is faulty or refused, or its file is missing, too large, damaged or no keytab
  2  The command line is bad
  3  The commands, a file or the output failed
  4  Out of memory
Example: add the keys of one keytab to another
  printf 'rkt rotated.keytab\\nwkt other.keytab\\n' | krbfile ktutil",
    ),
    words: &[V1_BIG, IN_PLACE],
};

/// The state of a run of ktutil between two lines.
#[derive(Drop)]
struct Talk<A: Allocator> {
    alloc: A,
    ktutil: Ktutil<A>,
    /// The time of new entries.
    now: u32,
    /// The worst status so far.
    status: u8,
}

// Returns whether another line may come after one that ended so: not if it quits, memory ran out or the output failed.
fn goes_on(quits: bool, ending: Result<Verdict, RunError>, has_out_failed: bool) -> bool
    ensures { result ≡ (goes_on quits ending && not has_out_failed) }
{
    !quits && !is_spent(&ending) && !has_out_failed
}

impl<A: Allocator + Copy> Talk<A> {
    fn new(alloc: A, v1_order: Order, now: u32) -> Talk<A>
        ensures state { result.ktutil ≡ record { order = v1_order; entries = []; awaiting = Nothing } }
        ensures now { result.now ≡ now }
        ensures status { result.status ≡ 0 }
    {
        Talk {
            alloc,
            ktutil: Ktutil::new(alloc, v1_order),
            now,
            status: 0,
        }
    }

    // Runs a line, prints its text, reports its end, and returns whether another line may come.
    fn handle<F: Files, R: Read, W: Write, E: Write>(
        &mut self,
        number: u64,
        line: &[u8],
        world: &mut World<F, R, W, E>,
    ) -> bool
        ensures next { HandlesNext F.Files self.old.now number line.now
            (record { files = world.old.files; state = self.old.ktutil; out = world.old.out; err = world.old.err; status = self.old.status })
            (record { files = world.new.files; state = self.new.ktutil; out = world.new.out; err = world.new.err; status = self.new.status })
            result }
        ensures input { world.new.input ≡ world.old.input }
        ensures now { self.new.now ≡ self.old.now }
    {
        let Line { file, made, quits } = self.ktutil.line(&mut world.files, self.now, number, line);
        let end = finish(self.alloc, file, Some(number), made, world);
        self.status = self.status.max(end.status);
        goes_on(quits, end.ending, world.out.has_failed())
    }
}

/// Runs the lines of the input, each as soon as its end is read, up to one that quits, and returns the worst status.
/// Prints the text of a line before it reads the next one. The run also ends if memory runs out, if `out` fails, or
/// if the input fails or is too large. Writes errors to `err`, and with `prompts` a prompt before it reads a line, and
/// a newline at the end of the input; a failure of `err` changes nothing else.
pub fn run_ktutil<A: Allocator + Copy, F: Files, R: Read, W: Write, E: Write>(
    alloc: A,
    v1_order: Order,
    prompts: bool,
    now: u32,
    world: &mut World<F, R, W, E>,
) -> u8
    ensures { RunsKtutil F.Files v1_order prompts now world.old world.new result }
{
    let mut lines = InputLines::new(alloc);
    let mut talk = Talk::new(alloc, v1_order, now);
    let mut number = 0u64;
    'lines: loop {
        show_prompt(prompts, talk.ktutil.prompt(), &mut world.err);
        match lines.read_line(&mut world.input) {
            Ok(true) => {}
            Ok(false) => {
                show_prompt(prompts, b"\n", &mut world.err);
                return talk.status;
            }
            Err(fault) => {
                let details = Details::unsaved(world.input.cause());
                let error = RunError::of_input(fault);
                let status = report(Err(error), b"", None, details, &mut world.err);
                return talk.status.max(status);
            }
        }
        number += 1;
        if !talk.handle(number, lines.line(), world) {
            return talk.status;
        }
    }
}

// Writes a text; nothing if a write failed. Ignores a failure.
fn write_text<E: Write>(text: &[u8], to: &mut Watched<E>)
    ensures { WritesOn to.old to.new text.now }
{
    if to.has_failed() {
        return;
    }
    let _ = put(to, text);
}

// Writes a text, if there are prompts. Ignores a failure.
fn show_prompt<E: Write>(prompts: bool, text: &[u8], err: &mut ErrorOutput<E>)
    ensures { PromptsOn prompts text.now err.old err.new }
{
    if prompts {
        write_text(text, &mut err.to);
    }
}
