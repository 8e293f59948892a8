//! Writes each message in one write, if it fits.

ghost use Rattle.std.specs.Prelude.{◌≡◌, [], if◌then◌else◌};
ghost use Rattle.std.specs.List.{flat_map};
ghost use Rattle.krb_driver.specs.Messages.{byte_text, hidden_word, piece_text, pieces_text, quoted_word, shown_word};
ghost use Rattle.krb_driver.specs.Runs.{Adds, Sends, Writes};

use crate::file_name::name_byte;
use crate::reporting::key_start::{has_key, key_start};
use crate::reporting::lines::Line;
use crate::reporting::piece::{MessagePiece, escaped_byte, shown_byte};
use arrayvec::ArrayVec;
use itoa::Buffer;
use krb_files::{Watched, put};
use std::io::Write;

// The size of the buffer: a message and its words of at most that many bytes go out in one write.
const ROOM: usize = 4352;

/// What is printed in place of what may be a key.
const HIDDEN: &[u8] = b"a word of hexadecimal digits";

/// A buffer with the part of a message that is not yet written.
pub type Gathered = ArrayVec<u8, ROOM>;

/// Adds a text to the buffer. If there is no room for it, writes out the buffer and then the text.
pub fn add<E: Write>(text: &[u8], gathered: &mut Gathered, err: &mut Watched<E>)
    ensures { Adds err.old gathered.old.items err.new gathered.new.items text.now }
{
    if err.has_failed() {
        return;
    }
    match gathered.try_extend_from_slice(text) {
        Ok(()) => return,
        Err(_) => {}
    }
    match put(err, gathered.as_slice()) {
        Ok(()) => gathered.clear(),
        Err(_) => return,
    }
    let _ = put(err, text);
}

// Returns what is printed in place of what may be a key, if there is that.
fn hidden_if(has_key: bool) -> &'static [u8]
    ensures { result.now ≡ (if has_key then hidden_word else []) }
{
    if has_key { HIDDEN } else { b"" }
}

/// How bytes are printed.
#[derive(Clone, Copy)]
pub enum Form {
    /// As those of the name of a file.
    Name,
    /// As those of a word of the command line.
    Word,
    /// As those of a word of a script.
    Script,
}

fn add_byte<E: Write>(form: Form, byte: &u8, gathered: &mut Gathered, err: &mut Watched<E>)
    ensures { Adds err.old gathered.old.items err.new gathered.new.items (byte_text form byte.now) }
{
    match form {
        Form::Name => add(name_byte(byte), gathered, err),
        Form::Word => add(shown_byte(*byte).as_slice(), gathered, err),
        Form::Script => add(escaped_byte(*byte).as_slice(), gathered, err),
    }
}

#[tactic(auto, using(crate::proofs::Shown::adds_piece))]
fn add_bytes<E: Write>(form: Form, bytes: &[u8], gathered: &mut Gathered, err: &mut Watched<E>)
    ensures { Adds err.old gathered.old.items err.new gathered.new.items (flat_map (byte_text form) bytes.now) }
{
    'bytes: for byte in bytes {
        add_byte(form, byte, gathered, err);
    }
}

// Adds a word as it is printed: up to what may be a key.
fn add_word<E: Write>(word: &[u8], gathered: &mut Gathered, err: &mut Watched<E>)
    ensures { Adds err.old gathered.old.items err.new gathered.new.items (shown_word word.now) }
{
    let end = key_start(word);
    add_bytes(Form::Word, &word[..end], gathered, err);
    add(hidden_if(has_key(word)), gathered, err);
}

// Adds a word in quotes, unless it has what may be a key.
fn add_quoted<E: Write>(word: &[u8], gathered: &mut Gathered, err: &mut Watched<E>)
    ensures { Adds err.old gathered.old.items err.new gathered.new.items (quoted_word word.now) }
{
    if has_key(word) {
        add(HIDDEN, gathered, err);
        return;
    }
    add(b"\"", gathered, err);
    add_bytes(Form::Word, word, gathered, err);
    add(b"\"", gathered, err);
}

fn add_piece<E: Write>(piece: MessagePiece<'_>, gathered: &mut Gathered, err: &mut Watched<E>)
    ensures { Adds err.old gathered.old.items err.new gathered.new.items (piece_text piece.entry) }
{
    match piece {
        MessagePiece::Text(text) => add(text.as_bytes(), gathered, err),
        MessagePiece::Name(name) => add_bytes(Form::Name, name, gathered, err),
        MessagePiece::Operand(operand) => add(operand, gathered, err),
        MessagePiece::Number(number) => add(Buffer::new().format(number).as_bytes(), gathered, err),
        MessagePiece::Word(word) => add_word(word.as_bytes(), gathered, err),
        MessagePiece::Quoted(word) => add_quoted(word.as_bytes(), gathered, err),
        MessagePiece::Escaped(word) => add_bytes(Form::Script, word.as_bytes(), gathered, err),
    }
}

/// Adds pieces one after the other.
#[tactic(auto, using(crate::proofs::Shown::adds_piece))]
pub fn add_pieces<E: Write>(
    pieces: &[MessagePiece<'_>],
    gathered: &mut Gathered,
    err: &mut Watched<E>,
)
    ensures { Adds err.old gathered.old.items err.new gathered.new.items (pieces_text pieces.now) }
{
    'pieces: for piece in pieces {
        add_piece(*piece, gathered, err);
    }
}

/// Adds the pieces of a line.
pub fn add_line<E: Write>(line: &Line<'_>, gathered: &mut Gathered, err: &mut Watched<E>)
    ensures { Adds err.old gathered.old.items err.new gathered.new.items (pieces_text line.now.items) }
{
    add_pieces(line.as_slice(), gathered, err);
}

/// Writes out the buffer. Ignores a failure.
pub fn send<E: Write>(gathered: &Gathered, err: &mut Watched<E>)
    ensures { Sends err.old gathered.now.items err.new }
{
    if err.has_failed() {
        return;
    }
    let _ = put(err, gathered.as_slice());
}

/// Writes pieces, in one write if they fit. Ignores a failure.
pub fn write_pieces<W: Write>(pieces: &[MessagePiece<'_>], out: &mut Watched<W>)
    ensures { Writes out.old out.new (pieces_text pieces.now) }
{
    let mut gathered = ArrayVec::new();
    add_pieces(pieces, &mut gathered, out);
    send(&gathered, out);
}
