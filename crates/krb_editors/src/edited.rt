//! Reads a script, and returns what to save and print after its session.

ghost use Rattle.std.specs.Prelude.{◌≡◌, ℕ, List, IfOk, Ok, map};
ghost use Rattle.std.specs.List.{list_any};
ghost use Rattle.krb_walk.specs.ReplyContent.{content_of};
ghost use Rattle.krb_keytab_text.specs.Reply.{reply_texts_by};
ghost use Rattle.krb_driver.specs.Composing.{text_effect};
ghost use Rattle.krb_editors.specs.Sessions.{is_change, may_change, replied, GivesLines};
ghost use Rattle.krb_driver.specs.Loading.{result_map};

use krb_driver::{FileKind, Made, Output, RunError, read_input, replied_verdict};
use krb_files::WatchedReader;
use krb_keytab_text::{RecordFormat, ScriptLine, parse_script, reply_lines};
use krb_walk::{Event, Reply};
use krb_wire::{NoMemory, USUAL_LIMIT};
use std::alloc::Allocator;
use std::io::Read;

pub fn may_change<I>(event: &Event<I>) -> bool
    ensures { result ≡ may_change event.now }
{
    match event {
        Event::Put(_) | Event::Cut(_) | Event::Rewrite => true,
        Event::Start | Event::Resume(_) | Event::Step(_) => false,
    }
}

pub fn may_any_change<I>(events: &[Event<I>]) -> bool
    ensures { result ≡ list_any may_change events.now }
{
    events.iter().any(may_change)
}

fn is_change<A: Allocator>(reply: &Reply<A>) -> bool
    ensures { result ≡ is_change (content_of reply.now) }
{
    match reply {
        Reply::Placed(_) | Reply::Gone(_) | Reply::Rewritten(_) => true,
        _ => false,
    }
}

fn are_changes<A: Allocator>(replies: &[Reply<A>]) -> bool
    ensures { result ≡ list_any (λ r. is_change (content_of r)) replies.now }
{
    replies.iter().any(is_change)
}

/// Returns what to print after a session with those replies, and the image to save if they report a change. From
/// `hidden` on MIT's programs see no entry, and miss one that was added.
#[tactic(auto, using(krb_text::proofs::Found::any_of_map))]
pub fn replied<A: Allocator + Copy, F: RecordFormat>(
    alloc: A,
    kind: FileKind,
    format: F,
    replies: &[Reply<A>],
    image: Vec<u8, A>,
    hidden: Option<u32>,
) -> Result<Made<A, Output<A>>, NoMemory>
    ensures { IfOk result (λ made. (file : List ℕ) → text_effect file (Ok made)
        ≡ replied kind file hidden (map content_of replies.now) image.items (reply_texts_by F.tail_of F.rewritten format (map content_of replies.now))) }
{
    let mut text = Vec::new(alloc);
    reply_lines(format, replies, &mut text)?;
    let output = Output {
        text,
        verdict: replied_verdict(kind, replies).hiding(hidden),
    };
    if are_changes(replies) {
        Ok(Made::Saves(image, output))
    } else {
        Ok(Made::Shows(output))
    }
}

/// Reads the input to its end and returns the lines of the script.
pub fn read_script<A: Allocator + Copy, L: ScriptLine<A>, R: Read>(
    alloc: A,
    input: &mut WatchedReader<R>,
) -> Result<Vec<L, A>, RunError>
    ensures { GivesLines L.line_in input.old input.new (result_map (λ lines. lines.items) result) }
{
    let text = match read_input(alloc, input, USUAL_LIMIT) {
        Ok(text) => text,
        Err(fault) => return Err(RunError::of_input(fault)),
    };
    match parse_script(alloc, &text) {
        Ok(lines) => Ok(lines),
        Err(refusal) => Err(RunError::of_script(refusal, &text)),
    }
}
