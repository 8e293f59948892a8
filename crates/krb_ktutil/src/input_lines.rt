//! Reads lines from a reader, each as soon as its end is read.

ghost use Rattle.std.specs.Prelude.{◌≡◌, ◌≢◌, ◌||◌, ◌<◌, ◌≤◌, ◌+◌, [], length, slice_range, IfOk, IfErr, IfSome, OnErr, IsErrOf, vec_len};
ghost use Rattle.krb_files.specs.Bytes.{is_read_fault};
ghost use Rattle.krb_files.specs.Loading.{most_bytes};
ghost use Rattle.krb_ktutil.specs.InputLines.{InputParts, ReadsLine, Grows, IsWithin, FindsNewline, EndsLine, HasNoMore, HasNone};

use krb_files::{LoadFault, WatchedReader, append_read, next_read};
use krb_wire::USUAL_LIMIT;
use std::alloc::Allocator;
use std::io::Read;
use std::marker::Model;

/// What was read of an input so far, and the last line read.
#[derive(Drop)]
pub struct InputLines<A: Allocator> {
    bytes: Vec<u8, A>,
    // Where the last line begins and ends, and where the next one begins.
    from: usize,
    to: usize,
    next: usize,
}

impl<A: Allocator> Model for InputLines<A> {
    ghost Value = { InputParts };

    ghost view = { λ i. record {
      read = i.bytes.items;
      line = slice_range i.bytes.items i.from i.to;
      next = i.next;
    } };

    ghost invariant = { λ i. (i.from ≤ i.to) × (i.to ≤ i.next) × (i.next ≤ vec_len i.bytes)
        × (vec_len i.bytes ≤ most_bytes + 1) };
}

// Returns the place of the first newline from `from` on.
fn newline_from(bytes: &[u8], from: usize) -> Option<usize>
    requires { from ≤ length bytes.now }
    ensures { FindsNewline bytes.now from result }
{
    let offset = bytes[from..].iter().position(|byte| *byte == b'\n')?;
    Some(from + offset)
}

// Reads until there is a newline from `next` on, or the input ends. Returns the place of the newline, if any.
#[tactic(auto, using(crate::proofs::InputLemmas::newlines))]
fn read_to_newline<A: Allocator, R: Read>(
    bytes: &mut Vec<u8, A>,
    reader: &mut WatchedReader<R>,
    next: usize,
) -> Result<Option<usize>, LoadFault>
    requires { (next ≤ vec_len bytes.old) × (vec_len bytes.old ≤ most_bytes + 1) }
    ensures ok { IfOk result (EndsLine bytes.new.items next reader.new.left) }
    ensures most { IfOk result (λ end. IfSome end (λ place. place < most_bytes)) }
    ensures none { OnErr result (HasNone (slice_range bytes.new.items next most_bytes)) }
    ensures failed { reader.new.failed ≡ (is_read_fault result || reader.old.failed) }
    ensures too_large { IsErrOf result LoadFault.TooLarge → most_bytes < vec_len bytes.new }
    ensures never { IfErr result (λ fault. fault ≢ LoadFault.Missing) }
    ensures grows { Grows bytes.old.items bytes.new.items reader.old.left reader.new.left }
    ensures within { vec_len bytes.new ≤ most_bytes + 1 }
{
    let most = USUAL_LIMIT as usize;
    let mut seen = next;
    let mut last = 0;
    'reads: loop {
        if let Some(end) = newline_from(bytes, seen) {
            if end < most {
                return Ok(Some(end));
            }
            return Err(LoadFault::TooLarge);
        }
        seen = bytes.len();
        if seen > most {
            return Err(LoadFault::TooLarge);
        }
        let room = next_read(bytes, last).min(most - seen + 1);
        last = append_read(bytes, reader, room)?;
        if last == 0 {
            return Ok(None);
        }
    }
}

impl<A: Allocator> InputLines<A> {
    /// Returns an input before the first read.
    pub fn new(alloc: A) -> InputLines<A>
        ensures { result ≡ record { read = []; line = []; next = 0 } }
    {
        InputLines {
            bytes: Vec::new(alloc),
            from: 0,
            to: 0,
            next: 0,
        }
    }

    /// Returns the last line read, without its newline.
    pub fn line(&self) -> &[u8]
        ensures { result.now ≡ self.now.line }
    {
        &self.bytes[self.from..self.to]
    }

    /// Reads the next line, and stops as soon as its end is read. Returns false at the end of the input. The last line
    /// needs no newline. Of all lines together at most `USUAL_LIMIT + 1` bytes are read.
    pub fn read_line<R: Read>(&mut self, reader: &mut WatchedReader<R>) -> Result<bool, LoadFault>
        ensures line { IfOk result (λ is_line. ReadsLine is_line self.old self.new reader.new.left) }
        // If a read fails, no line is lost, but what was cut off is not a line.
        ensures no_more { OnErr result (HasNoMore self.old self.new) }
        ensures failed { reader.new.failed ≡ (is_read_fault result || reader.old.failed) }
        ensures too_large { IsErrOf result LoadFault.TooLarge → most_bytes < length self.new.read }
        ensures never { IfErr result (λ fault. fault ≢ LoadFault.Missing) }
        ensures grows { Grows self.old.read self.new.read reader.old.left reader.new.left }
        ensures within { IsWithin self.new }
    {
        let from = self.next;
        match read_to_newline(&mut self.bytes, reader, from)? {
            Some(end) => {
                self.from = from;
                self.to = end;
                self.next = end + 1;
                Ok(true)
            }
            None => {
                let end = self.bytes.len();
                self.from = from;
                self.to = end;
                self.next = end;
                Ok(from < end)
            }
        }
    }
}
