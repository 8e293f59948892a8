//! The pieces of a message.

ghost use Rattle.std.specs.Prelude.{◌≡◌};
ghost use Rattle.krb_text.specs.Escape.{escaped};
ghost use Rattle.krb_driver.specs.Messages.{shown_byte};

use crate::first_word::FirstWord;
use arrayvec::ArrayVec;

/// A piece of a message.
#[derive(Clone, Copy)]
pub enum MessagePiece<'a> {
    Text(&'a str),
    /// The name of a file. A newline becomes `\x0a`.
    Name(&'a [u8]),
    /// The name of a file as an operand, as it is.
    Operand(&'a [u8]),
    /// In decimal.
    Number(u64),
    /// A word of the command line. Each byte that is not printable becomes `\x` and two hex digits, and what may be a key
    /// is not shown.
    Word(&'a str),
    /// The same in quotes, unless it has what may be a key.
    Quoted(&'a str),
    /// A word of a script. Each byte that is not printable becomes `\x` and two hex digits, and a backslash is doubled.
    Escaped(FirstWord),
}

impl Default for MessagePiece<'_> {
    fn default() -> Self {
        MessagePiece::Text("")
    }
}

/// What each line begins with.
pub const HEAD: MessagePiece<'static> = MessagePiece::Text("krbfile: ");

/// What comes before the number of a line of the input.
pub const LINE: MessagePiece<'static> = MessagePiece::Text("krbfile: line ");

pub const COLON: MessagePiece<'static> = MessagePiece::Text(": ");

pub const END: MessagePiece<'static> = MessagePiece::Text("\n");

/// Returns a byte of a word as it is printed.
pub fn shown_byte(byte: u8) -> ArrayVec<u8, 4>
    ensures { result.items ≡ shown_byte byte }
{
    let mut shown = ArrayVec::new();
    if matches!(byte, b' '..=b'~') {
        shown.push(byte);
        return shown;
    }
    let mut text = *b"\\x..";
    hex::encode_to_slice(&[byte], &mut text[2..]).unwrap();
    ArrayVec::from(text)
}

/// Returns a byte of a script's word as it is printed.
pub fn escaped_byte(byte: u8) -> ArrayVec<u8, 4>
    ensures { result.items ≡ escaped byte }
{
    if byte != b'\\' {
        return shown_byte(byte);
    }
    let mut doubled = ArrayVec::new();
    doubled.push(byte);
    doubled.push(byte);
    doubled
}
