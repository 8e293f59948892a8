//! The bytes of a component or a realm as text.

ghost use Rattle.std.specs.Prelude.{◌≡◌, ◌<◌, ◌≤◌, ◌+◌, ◌++◌, IsTrue, length, take};
ghost use Rattle.std.specs.List.{All};
ghost use Rattle.krb_wire.specs.Names.{quoted_byte, IsPlain, quote};
ghost use Rattle.krb_wire.specs.Text.{Appended, AppendedPart};

use std::alloc::{AllocError, Allocator};

// Returns false for each byte that is quoted.
fn is_plain(byte: u8) -> bool
    ensures { IsTrue result → IsPlain byte }
{
    (byte > b'\n') & (byte != b'/') & (byte != b'@') & (byte != b'\\')
}

// Returns false if a byte is quoted. Reads all bytes, many at once.
#[inline(always)]
fn is_plain_run(bytes: &[u8]) -> bool
    ensures { IsTrue result → All IsPlain bytes.now }
{
    let mut plain = true;
    for byte in bytes {
        plain &= is_plain(*byte);
    }
    plain
}

// Returns false if a byte is quoted. Tests N bytes at a time; the last run may overlap the one before.
#[inline(always)]
fn is_plain_in_runs<const N: usize>(bytes: &[u8]) -> bool
    requires nonzero { 0 < N }
    requires long { N ≤ length bytes.now }
    ensures { IsTrue result → All IsPlain bytes.now }
{
    let last = bytes.len() - N;
    let mut at = 0;
    while at < last {
        if !is_plain_run(&bytes[at..at + N]) {
            return false;
        }
        at += N;
    }
    is_plain_run(&bytes[last..])
}

// How many bytes are tested at once, if the text is that long.
const LONG_RUN: usize = 16;

const SHORT_RUN: usize = 4;

// True only if no byte is quoted, as in most names.
fn is_plain_text(bytes: &[u8]) -> bool
    ensures { IsTrue result → All IsPlain bytes.now }
{
    if bytes.len() >= LONG_RUN {
        is_plain_in_runs::<LONG_RUN>(bytes)
    } else if bytes.len() >= SHORT_RUN {
        is_plain_in_runs::<SHORT_RUN>(bytes)
    } else {
        is_plain_run(bytes)
    }
}

// What follows the backslash of each byte that is quoted, and a dot for every other byte.
static LETTERS: [u8; 256] = *b"\
    0.......btn.....................\
    .............../................\
    @...........................\\...\
    ................................\
    ................................\
    ................................\
    ................................\
    ................................";

// Writes a byte, quoted if it has to be, and returns the place after it.
#[inline(always)]
fn put_quoted(byte: u8, text: &mut [u8], at: usize) -> usize
    requires { at + 2 ≤ length text.old }
    ensures written { take result text.new ≡ take at text.old ++ quoted_byte byte }
    ensures within { result ≤ at + 2 }
{
    let letter = LETTERS[byte as usize];
    if letter == b'.' {
        text[at] = byte;
        return at + 1;
    }
    text[at] = b'\\';
    text[at + 1] = letter;
    at + 2
}

// How many bytes are quoted and then appended at once.
const BATCH: usize = 64;

fn push_batch<A: Allocator>(out: &mut Vec<u8, A>, batch: &[u8]) -> Result<(), AllocError>
    requires { length batch.now ≤ BATCH }
    ensures { Appended (quote batch.now) out.old out.new result }
{
    let mut text = [0; 2 * BATCH];
    let mut len = 0;
    for byte in batch {
        len = put_quoted(*byte, &mut text, len);
    }
    out.extend_from_slice(&text[..len])
}

#[cold]
#[inline(never)]
fn push_in_batches<A: Allocator>(out: &mut Vec<u8, A>, bytes: &[u8]) -> Result<(), AllocError>
    ensures { AppendedPart (quote bytes.now) out.old out.new result }
{
    let mut rest = bytes;
    while !rest.is_empty() {
        let (batch, after) = rest.split_at(rest.len().min(BATCH));
        push_batch(out, batch)?;
        rest = after;
    }
    Ok(())
}

// Appends a component or a realm, quoted.
#[inline]
pub fn push_quote<A: Allocator>(out: &mut Vec<u8, A>, bytes: &[u8]) -> Result<(), AllocError>
    ensures { AppendedPart (quote bytes.now) out.old out.new result }
{
    if is_plain_text(bytes) {
        return out.extend_from_slice(bytes);
    }
    push_in_batches(out, bytes)
}
