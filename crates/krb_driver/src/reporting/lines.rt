//! Lines for the error output, made of pieces.

ghost use Rattle.std.specs.Prelude.{◌≡◌, ◌≤◌, [], None, Some, length};
ghost use Rattle.krb_driver.specs.Messages.{numbered_line, phrase_line, words_line, pieces_text};
ghost use Rattle.krb_driver.specs.Runs.{aftermath_line, is_message};

use crate::reporting::piece::MessagePiece::{self, Number, Text};
use crate::reporting::piece::{COLON, END, HEAD, LINE};
use crate::reporting::row::Subject;
use crate::reporting::said::{Said, message};
use arrayvec::ArrayVec;
use krb_files::Aftermath;

/// The pieces of a line, or of two.
pub type Line<'a> = ArrayVec<MessagePiece<'a>, 9>;

/// Returns a line of these pieces.
pub fn line<'a>(pieces: &[MessagePiece<'a>]) -> Line<'a>
    requires { length pieces.now ≤ 9 }
    ensures { result.items ≡ pieces.now }
{
    let mut line = ArrayVec::new();
    line.try_extend_from_slice(pieces).unwrap();
    line
}

/// Returns no line.
pub fn nothing<'a>() -> Line<'a>
    ensures { result.items ≡ [] }
{
    ArrayVec::new()
}

/// Returns a text alone.
pub fn alone<'a>(text: &'static str) -> Line<'a>
    ensures { pieces_text result.items ≡ text.now }
{
    let mut line = ArrayVec::new();
    line.push(Text(text));
    line
}

/// Returns a number between a text and its phrase.
pub fn numbered_line(head: &'static str, number: u32, phrase: &'static str) -> Line<'static>
    ensures { pieces_text result.items ≡ numbered_line head.now number phrase.now }
{
    let number = Number(u64::from(number));
    line(&[Text(head), number, COLON, Text(phrase), END])
}

/// Returns words, after the line number if they are for a line of ktutil.
pub fn words<'a>(number: Option<u64>, pieces: &[MessagePiece<'a>]) -> Line<'a>
    requires { length pieces.now ≤ 6 }
    ensures { pieces_text result.items ≡ words_line number (pieces_text pieces.now) }
{
    let mut words = ArrayVec::new();
    match number {
        None => words.push(HEAD),
        Some(number) => {
            words.push(LINE);
            words.push(Number(number));
            words.push(COLON);
        }
    }
    words.try_extend_from_slice(pieces).unwrap();
    words
}

/// Returns words that are one phrase.
pub fn phrase<'a>(number: Option<u64>, text: &'static str) -> Line<'a>
    ensures { pieces_text result.items ≡ phrase_line number text.now }
{
    words(number, &[Text(text), END])
}

/// Returns whether that is reported even if no words are shown.
pub fn is_message(aftermath: Aftermath) -> bool
    ensures { result ≡ is_message aftermath }
{
    !matches!(aftermath, Aftermath::Restored)
}

/// Returns the line for what a save of `file`, or of line `line` of ktutil, left behind.
pub fn aftermath_line(aftermath: Aftermath, file: &[u8], line: Option<u64>) -> Line<'_>
    ensures { pieces_text result.items ≡ aftermath_line file.now line aftermath }
{
    match (line, aftermath) {
        (None, Aftermath::Restored) => phrase(None, Aftermath::Restored.phrase()),
        (None, aftermath) => message(Subject::File, file, Said::Alone(aftermath.phrase())),
        (line, aftermath) => phrase(line, aftermath.phrase()),
    }
}
