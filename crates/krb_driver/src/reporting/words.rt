//! The words that explain what ended a run.

ghost use Rattle.std.specs.Prelude.{◌≡◌, ◌++◌, codes, option_map};
ghost use Rattle.krb_driver.specs.FileNames.{shown_name};
ghost use Rattle.krb_driver.specs.Messages.{words_line, pieces_text};
ghost use Rattle.krb_driver.specs.EndingWords.{cause_words, error_words, fault_with, line_fault_phrase, listed_words, clash_words, unknown_words, verdict_words, way_words};

use crate::error::RunError;
use crate::first_word::FirstWord;
use crate::reporting::details::{About, Details};
use crate::reporting::lines::{Line, line, nothing, phrase, words};
use crate::reporting::name_words::{
    hidden_words, missing_words, other_type_words, type_words, typed_words,
};
use crate::reporting::piece::MessagePiece::{Escaped, Name, Number, Text};
use crate::reporting::piece::{END, HEAD};
use crate::reporting::row::{Explains, nothing_phrase};
use crate::verdict::Verdict;
use krb_files::Cause;
use krb_text::LineFault;
use krb_walk::Fault;

const CLASH: &str = "clash: TO has another key for this name, version and type\n";

const REPLACE: &str = "krbfile: --replace takes FROM's key\n";

// Returns what is wrong with a line of a script, or of ktutil (if `line` is given).
fn line_fault_phrase(line: Option<u64>, fault: LineFault) -> &'static str
    ensures { result.now ≡ line_fault_phrase line fault }
{
    match line {
        None => fault.phrase(),
        Some(_) => fault.ktutil_phrase(),
    }
}

// Returns the words for what keeps a save of `file` from making its new file, by its path if that is known.
fn way_words<'a>(file: &'a [u8], line: Option<u64>, path: Option<&'a str>) -> Line<'a>
    ensures { pieces_text result.items ≡ way_words file.now line (option_map (λ path. path.now) path.entry) }
{
    match path {
        Some(path) => words(line, &[Name(path.as_bytes()), Text(" is in the way\n")]),
        None => words(line, &[Name(file), Text(".krbfile is in the way\n")]),
    }
}

// Returns the words for the cause of a failed call, if it is known.
fn cause_words<'a>(file: &'a [u8], line: Option<u64>, details: Details<'a>) -> Line<'a>
    ensures { pieces_text result.items ≡ cause_words file.now line details.entry }
{
    match details.cause {
        None => nothing(),
        Some(Cause::InTheWay) => way_words(file, line, details.in_the_way),
        Some(Cause::System(number)) => {
            let number = Number(u64::from(number.unsigned_abs()));
            words(line, &[Text("error "), number, END])
        }
        Some(cause) => phrase(line, cause.phrase()),
    }
}

// Returns the words for a fault of that file, and a phrase.
fn fault_with<'a>(file: &'a [u8], fault: Fault, what: &'static str) -> Line<'a>
    ensures { pieces_text result.items ≡ fault_with file.now fault what.now }
{
    let number = Number(u64::from(fault.kind.number()));
    let place = Number(u64::from(fault.place));
    line(&[
        HEAD,
        Name(file),
        Text(": fault "),
        number,
        Text(" at "),
        place,
        Text("\nkrbfile: "),
        Text(what),
        END,
    ])
}

/// Returns the words for the fault that a listing reports, with the file's name and the fault's phrase.
pub fn listed_words(file: &[u8], fault: Fault) -> Line<'_>
    ensures { pieces_text result.items ≡ listed_words file.now fault }
{
    fault_with(file, fault, fault.kind.phrase())
}

// Returns the words for an unknown first word of a script's line.
fn unknown_words<'a>(word: FirstWord) -> Line<'a>
    ensures { pieces_text result.items ≡ unknown_words word }
{
    let phrase = Text(LineFault::UnknownWord.phrase());
    line(&[HEAD, phrase, Text(": \""), Escaped(word), Text("\"\n")])
}

/// Returns the words that explain an error.
pub fn error_words(error: RunError, about: About<'_>) -> Line<'_>
    ensures { pieces_text result.items ≡ error_words about.entry.file.now about.entry.line about.entry.details error }
{
    let About {
        file,
        line,
        details,
    } = about;
    let row = error.row();
    match row.explains {
        Explains::Nothing => nothing(),
        Explains::Phrase => phrase(line, row.phrase),
        Explains::LineFault(fault) => phrase(line, line_fault_phrase(line, fault)),
        Explains::Cause => cause_words(file, line, details),
        Explains::Missing(source) => missing_words(line, source),
        Explains::Type(kind, source) => other_type_words(line, kind, file, source),
        Explains::TypedName => typed_words(line, file),
        Explains::First(word) => unknown_words(word),
        Explains::Input(fault) => fault_with(file, fault, "what was given is damaged"),
    }
}

// Returns the words for a clash, and for who did not give `--replace`.
fn clash_words<'a>(line: Option<u64>, replaces: bool) -> Line<'a>
    ensures { pieces_text result.items ≡ clash_words line replaces }
{
    let hint = if replaces { "" } else { REPLACE };
    words(line, &[Text(CLASH), Text(hint)])
}

// Returns the words for a keytab without an entry.
fn no_entry_words(file: &[u8], line: Option<u64>) -> Line<'_>
    ensures { pieces_text result.items ≡ words_line line (shown_name file.now ++ codes " has no entry\n") }
{
    words(line, &[Name(file), Text(" has no entry\n")])
}

/// Returns the words that explain a verdict, but for what replies or findings have.
pub fn verdict_words(verdict: Verdict, file: &[u8], line: Option<u64>) -> Line<'_>
    ensures { pieces_text result.items ≡ verdict_words file.now line verdict }
{
    match verdict {
        Verdict::HiddenFrom(place) => hidden_words(file, line, place),
        Verdict::NothingToRemove(kind) => phrase(line, nothing_phrase(kind)),
        Verdict::NoEntry => no_entry_words(file, line),
        Verdict::Clashed { replaces } => clash_words(line, replaces),
        Verdict::Listed(fault) => listed_words(file, fault),
        Verdict::Well
        | Verdict::Without
        | Verdict::Differ
        | Verdict::Replied(_)
        | Verdict::Found(_)
        | Verdict::Judged(_) => nothing(),
    }
}
