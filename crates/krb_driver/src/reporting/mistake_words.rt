//! The messages for a command line that was not read.

ghost use Rattle.std.specs.Prelude.{◌≡◌, ◌++◌, codes, option_map};
ghost use Rattle.krb_driver.specs.Messages.{message, pieces_text};
ghost use Rattle.krb_driver.specs.Mistakes.{help_of, mistake_head, mistake_line, mistake_parts, mistake_words, more_words, word_status, word_text};
ghost use Rattle.krb_driver.specs.Runs.{Writes};

use crate::command_line::mistake::{BadLine, Mistake, More, Phrase, WordFault};
use crate::reporting::ErrorOutput;
use crate::reporting::lines::{Line, line, nothing};
use crate::reporting::piece::MessagePiece::{self, Quoted, Text, Word};
use crate::reporting::writing::{add_line, send, write_pieces};
use arrayvec::ArrayVec;
use krb_files::Watched;
use std::io::Write;

const HEAD: MessagePiece<'static> = Text("krbfile: bad command line\nkrbfile: ");

// Returns the message for a mistake.
fn mistake_pieces(mistake: Mistake<'_>) -> Line<'_>
    ensures { pieces_text result.items ≡ mistake_head ++ mistake_line (mistake_parts mistake.entry) }
{
    let (word, other) = (mistake.word, Word(mistake.other));
    match mistake.phrase {
        Phrase::Shown(before, between, after) => {
            let (before, between, after) = (Text(before), Text(between), Text(after));
            line(&[HEAD, before, Word(word), between, other, after])
        }
        Phrase::Quoted(between) => line(&[HEAD, Quoted(word), Text(between), other]),
    }
}

// Returns the reference to the help: krbfile's, or a command's.
fn help_pieces(command: Option<&str>) -> Line<'_>
    ensures { pieces_text result.items ≡ help_of (option_map (λ name. name.now) command.entry) }
{
    let (program, command) = match command {
        None => ("; see krbfile", ""),
        Some(command) => ("; see krbfile ", command),
    };
    line(&[Text(program), Text(command), Text(" --help\n")])
}

// Returns what follows the line of a mistake.
fn more_pieces(more: More<'_>) -> Line<'_>
    ensures { pieces_text result.items ≡ more_words more.entry }
{
    match more {
        More::Nothing => nothing(),
        More::MeantCommand(name) => {
            line(&[Text("krbfile: did you mean "), Text(name), Text("?\n")])
        }
        More::MeantOption(name) => {
            line(&[Text("krbfile: did you mean --"), Text(name), Text("?\n")])
        }
        More::Help(text) => line(&[Text(text)]),
    }
}

// Reports a mistake in the command line, the help to see, and a suggestion.
fn report_mistake<E: Write>(line: BadLine<'_>, err: &mut Watched<E>)
    ensures { Writes err.old err.new (message (codes "bad command line")
        ++ mistake_words line.entry.mistake (option_map (λ name. name.now) line.entry.command) line.entry.more) }
{
    let mut gathered = ArrayVec::new();
    add_line(&mistake_pieces(line.mistake), &mut gathered, err);
    add_line(&help_pieces(line.command), &mut gathered, err);
    add_line(&more_pieces(line.more), &mut gathered, err);
    send(&gathered, err);
}

/// Reports on `err` why words were not read, and returns the exit status. Ignores a failure of `err`.
pub fn report_word_fault<E: Write>(fault: WordFault<'_>, err: &mut ErrorOutput<E>) -> u8
    ensures writes { Writes err.old.to err.new.to (word_text err.old.explains fault.entry) }
    ensures still { err.new.explains ≡ err.old.explains }
    ensures status { result ≡ word_status fault.entry }
{
    match fault {
        WordFault::NoMemory => {
            write_pieces(&[Text("krbfile: out of memory\n")], &mut err.to);
            return 4;
        }
        WordFault::BadLine(line) => {
            if err.explains {
                report_mistake(line, &mut err.to);
                return 2;
            }
        }
    }
    write_pieces(&[Text("krbfile: bad command line\n")], &mut err.to);
    2
}
