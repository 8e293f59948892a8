//! Shows, checks and edits Kerberos keytabs and credential caches.
#![tactic(auto)]

ghost use Rattle.std.specs.Prelude.{◌≡◌};

mod default_name;
mod run;

use krb_commands::{ErrorOutput, Needs, World, at_terminal, needs_of};
use krb_disk::DiskFiles;
use krb_files::{Watched, WatchedReader};
use krb_terminal::Screen;
use run::{
    announce_script, asks_for_silence, asks_to_explain, is_out_of_memory, is_told_to_explain,
    parsed, run, words_of,
};
use std::io::IsTerminal;
use std::process::ExitCode;
use std::rt;

// Returns the files of a run.
fn files_for<R: rt::Files + Alloc>(rt: &R, needs: Needs) -> DiskFiles<'_, R>
    ensures plain { result.only_plain ≡ needs.plain }
    ensures in_place { result.in_place ≡ needs.in_place }
{
    let mut files = DiskFiles::new(rt);
    if needs.plain {
        files.only_plain();
    }
    if needs.in_place {
        files.save_in_place();
    }
    files
}

fn main(rt: HostRuntime) -> ExitCode {
    let is_told = is_told_to_explain(&rt);
    let mut words = words_of(&rt);
    let mut help = String::new(rt.alloc());
    let parsed = parsed(rt.alloc(), &mut words, &mut help);
    if is_out_of_memory(&parsed) && asks_for_silence(&rt) {
        return ExitCode::from(4);
    }
    let out = rt.stdout();
    let err = rt.stderr();
    let input = rt.stdin();
    let on_terminal = err.is_terminal();
    let is_typed = input.is_terminal() && on_terminal;
    let parsed = at_terminal(parsed, out.is_terminal(), is_typed);
    let needs = needs_of(&parsed);
    let mut screen = Screen::new(out, out.is_terminal() && !needs.json);
    let mut error_screen = Screen::new(err, on_terminal);
    let status = {
        let mut world = World {
            files: files_for(&rt, needs),
            input: WatchedReader::new(input),
            out: Watched::new(&mut screen),
            err: ErrorOutput {
                to: Watched::new(&mut error_screen),
                explains: is_told || asks_to_explain(&rt) || on_terminal,
            },
        };
        if is_typed && needs.script {
            announce_script(&mut world.err.to);
        }
        run(&rt, &parsed, needs, &mut world)
    };
    let _ = screen.finish();
    let _ = error_screen.finish();
    ExitCode::from(status)
}
