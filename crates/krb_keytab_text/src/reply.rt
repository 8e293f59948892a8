//! Replies of a session as lines of text.

ghost use Rattle.std.specs.Prelude.{◌≡◌, ◌++◌, decimal, codes, map, ℕ, List};
ghost use Rattle.krb_wire.specs.Text.{Appended, AppendedPart};
ghost use Rattle.krb_wire.specs.declared.format.KtFormat.TheVariants.{V2};
ghost use Rattle.krb_walk.specs.ReplyContent.{content_of};
ghost use Rattle.krb_text.specs.FaultLine.{fault_text};
ghost use Rattle.krb_keytab_text.specs.Reply.{walk_line, number_line, reply_text_by, reply_texts_by, format_after_by, record_tail};

use crate::line::append_tail;
use krb_keytab::read_entry;
use krb_text::{append_byte, append_fault, append_labelled};
use krb_walk::{Fault, Reply};
use krb_wire::{KtFormat, NoMemory, all_or_nothing};
use std::alloc::Allocator;

/// A format in which records given to a walk are read.
pub trait RecordFormat: Copy {
    /// The end of the line of a record with these bytes, including the newline.
    ghost tail_of: { Self → List ℕ → List ℕ };

    /// The format after a rewrite.
    ghost rewritten: { Self };

    /// Appends the end of the line of a record. If an allocation fails, part of it may have been appended.
    fn append_tail<A: Allocator>(self, bytes: &[u8], out: &mut Vec<u8, A>) -> Result<(), NoMemory>
        ensures { AppendedPart (tail_of self bytes.now) out.old out.new result };

    /// The format after a rewrite.
    fn rewritten() -> Self
        ensures { result ≡ rewritten };
}

impl RecordFormat for KtFormat {
    ghost tail_of = { record_tail };

    ghost rewritten = { V2 };

    fn append_tail<A: Allocator>(self, bytes: &[u8], out: &mut Vec<u8, A>) -> Result<(), NoMemory> {
        match read_entry(self, bytes) {
            Some(entry) => append_tail(&entry.fields(), out),
            None => append_byte(b'\n', out),
        }
    }

    fn rewritten() -> KtFormat {
        KtFormat::V2
    }
}

// Appends a label and a number, and ends the line.
fn append_number_line<A: Allocator>(
    label: &[u8],
    number: u32,
    out: &mut Vec<u8, A>,
) -> Result<(), NoMemory>
    ensures { AppendedPart (number_line label.now number) out.old out.new result }
{
    append_labelled(label, number, out)?;
    append_byte(b'\n', out)
}

// Appends the line that reports where a walk is.
fn append_place<A: Allocator>(
    walk: u32,
    label: &[u8],
    next: u32,
    out: &mut Vec<u8, A>,
) -> Result<(), NoMemory>
    ensures { AppendedPart (walk_line walk (number_line label.now next)) out.old out.new result }
{
    append_labelled(b"walk ", walk, out)?;
    append_number_line(label, next, out)
}

// Appends the line that reports the fault that a walk met.
#[tactic(auto, using(crate::proofs::Appending::part_then, crate::proofs::Appending::part_fails, krb_wire::proofs::TextLemmas::appended_part))]
fn append_walk_fault<A: Allocator>(
    walk: u32,
    fault: Fault,
    out: &mut Vec<u8, A>,
) -> Result<(), NoMemory>
    ensures { AppendedPart (walk_line walk (codes " " ++ fault_text fault)) out.old out.new result }
{
    append_labelled(b"walk ", walk, out)?;
    append_byte(b' ', out)?;
    append_fault(fault, out)
}

// Appends the line that reports the record given to a walk.
#[tactic(auto, using(crate::proofs::Appending::part_then, crate::proofs::Appending::part_fails))]
fn append_gave<F: RecordFormat, A: Allocator>(
    format: F,
    walk: u32,
    place: u32,
    next: u32,
    bytes: &[u8],
    out: &mut Vec<u8, A>,
) -> Result<(), NoMemory>
    ensures { AppendedPart (walk_line walk (codes " gave " ++ (decimal place ++ (codes " next "
        ++ (decimal next ++ F.tail_of format bytes.now))))) out.old out.new result }
{
    append_labelled(b"walk ", walk, out)?;
    append_labelled(b" gave ", place, out)?;
    append_labelled(b" next ", next, out)?;
    format.append_tail(bytes, out)
}

fn append_reply<F: RecordFormat, A: Allocator, B: Allocator>(
    format: F,
    reply: &Reply<B>,
    out: &mut Vec<u8, A>,
) -> Result<(), NoMemory>
    ensures { AppendedPart (reply_text_by F.tail_of format (content_of reply.now)) out.old out.new result }
{
    match reply {
        Reply::Started { walk, next } => append_place(*walk, b" at ", *next, out),
        Reply::Gave {
            walk,
            place,
            next,
            bytes,
        } => append_gave(format, *walk, *place, *next, bytes, out),
        Reply::Ended { walk, next } => append_place(*walk, b" end ", *next, out),
        Reply::Faulted { walk, fault } => append_walk_fault(*walk, *fault, out),
        Reply::Placed(place) => append_number_line(b"placed ", *place, out),
        Reply::Gone(place) => append_number_line(b"gone ", *place, out),
        Reply::Rewritten(end) => append_number_line(b"rewritten ", *end, out),
        Reply::Refused(code) => append_number_line(b"refused ", code.number(), out),
    }
}

// Returns the format after a reply: only a rewrite changes it.
fn format_after<F: RecordFormat, B: Allocator>(format: F, reply: &Reply<B>) -> F
    ensures { result ≡ format_after_by F.rewritten format (content_of reply.now) }
{
    match reply {
        Reply::Rewritten(_) => F::rewritten(),
        _ => format,
    }
}

fn append_replies<F: RecordFormat, A: Allocator, B: Allocator>(
    format: F,
    replies: &[Reply<B>],
    out: &mut Vec<u8, A>,
) -> Result<(), NoMemory>
    ensures { AppendedPart (reply_texts_by F.tail_of F.rewritten format (map content_of replies.now)) out.old out.new result }
{
    let mut now = format;
    'replies: for reply in replies {
        append_reply(now, reply, out)?;
        now = format_after(now, reply);
    }
    Ok(())
}

/// Appends the line of a reply. The bytes of a record given to a walk are read in `format`.
pub fn reply_line<F: RecordFormat, A: Allocator, B: Allocator>(
    format: F,
    reply: &Reply<B>,
    out: &mut Vec<u8, A>,
) -> Result<(), NoMemory>
    ensures { Appended (reply_text_by F.tail_of format (content_of reply.now)) out.old out.new result }
{
    let len = out.len();
    let appended = append_reply(format, reply, out);
    all_or_nothing(appended, len, out)
}

/// Appends the lines of replies in order. After a rewrite, records are read in the format that it writes.
pub fn reply_lines<F: RecordFormat, A: Allocator, B: Allocator>(
    format: F,
    replies: &[Reply<B>],
    out: &mut Vec<u8, A>,
) -> Result<(), NoMemory>
    ensures { Appended (reply_texts_by F.tail_of F.rewritten format (map content_of replies.now)) out.old out.new result }
{
    let len = out.len();
    let appended = append_replies(format, replies, out);
    all_or_nothing(appended, len, out)
}
