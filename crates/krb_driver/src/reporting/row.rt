//! What is said of each error: one table.

ghost use Rattle.std.specs.Prelude.{◌≡◌, []};
ghost use Rattle.krb_driver.specs.ErrorRows.{Alone as SaysAlone, error_row, nothing_phrase, no_ticket_phrase, refusal_phrase, row, row_in, says_of};
ghost use Rattle.krb_driver.specs.NotOpened.{begun_phrase, not_opened_phrase};

use crate::beginning::Beginning;
use crate::error::RunError;
use crate::file_name::NameSource;
use crate::first_word::FirstWord;
use crate::not_opened::{self, Expected};
use crate::reporting::row::Explains::{First, Input, LineFault, Missing, Nothing, Type, TypedName};
use crate::reporting::row::Subject::{File, Line, Run};
use crate::reporting::said::Said::{self, Alone, Faulty, NotOpened, Refused};
use crate::verdict::FileKind::{self, Keytab};
use crate::verdict::TicketsSought;
use krb_text::LineFault::{UnknownWord as Unknown, WordCount};
use krb_walk::Code::{self, Damaged, NotFound};
use krb_walk::Fault;

// What messages say.
const INPUT_TOO_LARGE: &str = "input too large";

const NOT_WHOLE: &str = "input is not whole";

const NO_FILE: &str = "no such file";

const NO_OUTPUT: &str = "cannot write output";

const NO_CLOCK: &str = "cannot read the clock";

// Phrases that explain it.
const TOO_LARGE: &str = "it has more than 16,777,216 bytes";

const NO_FRAME: &str = "it is not a length, a newline and just as many bytes";

const NO_PASSWORDS: &str = "keys are not made from passwords here";

const SEE_HELP: &str = "see krbfile ktutil --help";

const NO_TERMINAL: &str = "the image is for a program; give it a pipe";

const CLOCK_FAILED: &str = "the clock is before 1970 or after 2106, or failed";

/// What a message is about.
#[derive(Clone, Copy)]
pub enum Subject {
    Run,
    File,
    /// A line of the input.
    Line(u64),
}

/// What explains an error.
#[derive(Clone, Copy)]
pub enum Explains {
    Nothing,
    Phrase,
    /// The fault of a line of a script, or of ktutil.
    LineFault(krb_text::LineFault),
    /// The cause of the failed call.
    Cause,
    /// Where the name of the missing file comes from.
    Missing(NameSource),
    /// The type of the file's name, and where that comes from.
    Type(FileKind, NameSource),
    /// The type that a name begins with where a file is to be written.
    TypedName,
    First(FirstWord),
    /// The fault of what was given.
    Input(Fault),
}

/// What is said of an error: the exit status of a run that it ends, its message, the words that explain it, and the name
/// that the last line of hold has for it, if that is not a number or the name of a cause.
#[derive(Clone, Copy)]
pub struct ErrorRow {
    pub status: u8,
    pub subject: Subject,
    pub said: Said,
    pub explains: Explains,
    pub phrase: &'static str,
    pub name: &'static str,
}

// Something is wrong with the input or a file, which this explains.
fn by(subject: Subject, said: Said, explains: Explains) -> ErrorRow
    ensures { row_in result ≡ row 1 subject (says_of said) explains [] [] }
{
    ErrorRow {
        status: 1,
        subject,
        said,
        explains,
        phrase: "",
        name: "",
    }
}

// Something is wrong with the input or a file, which a phrase explains.
fn wrong(subject: Subject, said: Said, phrase: &'static str) -> ErrorRow
    ensures { row_in result ≡ row 1 subject (says_of said) Explains.Phrase phrase.now [] }
{
    ErrorRow {
        phrase,
        ..by(subject, said, Explains::Phrase)
    }
}

// A call failed, which its cause explains.
fn failed(subject: Subject, what: &'static str) -> ErrorRow
    ensures { row_in result ≡ row 3 subject (SaysAlone what.now) Explains.Cause [] [] }
{
    by(subject, Alone(what), Explains::Cause).with_status(3)
}

impl ErrorRow {
    fn with_status(self, status: u8) -> ErrorRow
        ensures { row_in result ≡ record (row_in self) { status = status } }
    {
        ErrorRow { status, ..self }
    }

    fn named(self, name: &'static str) -> ErrorRow
        ensures { row_in result ≡ record (row_in self) { name = name.now } }
    {
        ErrorRow { name, ..self }
    }
}

/// Returns the phrase for a refusal by a file of that kind.
pub fn refusal_phrase(kind: FileKind, code: Code) -> &'static str
    ensures { result.now ≡ refusal_phrase kind code }
{
    match (kind, code) {
        (FileKind::Keytab, Code::Damaged) => "the file is damaged; klist -k tells where",
        (FileKind::Keytab, Code::NotAPlace) => "no record, hole or end stands at this place",
        (FileKind::Keytab, Code::NotLive) => "no entry stands at this place",
        (_, Code::Full) => "the file would be longer than 16,777,216 bytes",
        (_, Code::NotAPlace) => "no credential or end stands at this place",
        (_, Code::NotLive) => "no ticket or configuration entry stands at this place",
        (FileKind::Cache | FileKind::Either, Code::ReadOnly) => {
            "version 3 changes by a rewrite: echo rewrite | krbfile ccedit FILE"
        }
        (_, code) => code.phrase(),
    }
}

/// Returns why nothing was removed from a file.
pub fn nothing_phrase(kind: FileKind) -> &'static str
    ensures { result.now ≡ nothing_phrase kind }
{
    match kind {
        FileKind::Keytab => "no entry has what was asked for",
        FileKind::Cache | FileKind::Either => "no ticket has what was asked for",
    }
}

// Returns why no ticket was looked at.
fn no_ticket_phrase(sought: TicketsSought) -> &'static str
    ensures { result.now ≡ no_ticket_phrase sought }
{
    match sought {
        TicketsSought::Asked => nothing_phrase(FileKind::Cache),
        TicketsSought::OfServices => "no ticket of a service",
    }
}

// Returns the phrase for a file that begins so, where it was to be opened as that; or another phrase.
fn begun_phrase(begins: Beginning, expected: Expected, other: &'static str) -> &'static str
    ensures { result.now ≡ begun_phrase begins expected other.now }
{
    match (begins, expected) {
        (Beginning::Cache, Expected::Keytab) => "it begins as a credential cache",
        (Beginning::Cache, Expected::KeytabToList) => {
            "it begins as a credential cache; list it without -k"
        }
        (Beginning::Keytab, Expected::Cache) => {
            "a keytab (list it with -k), or a cache of version 1 or 2 (not read)"
        }
        (Beginning::Keytab, Expected::CacheToHold) => {
            "a keytab (hold it with -k), or a cache of version 1 or 2 (not read)"
        }
        (Beginning::Keytab, Expected::CacheToMatch) => {
            "a keytab (KEYTAB comes first), or a cache of version 1 or 2 (not read)"
        }
        (begins, Expected::Either) => begins.phrase_or("it does not begin as a keytab or a cache"),
        (begins, _) => begins.phrase_or(other),
    }
}

// Returns why a file did not open.
fn not_opened_phrase(why: not_opened::NotOpened) -> &'static str
    ensures { result.now ≡ not_opened_phrase why }
{
    let phrase = why.fault.phrase();
    if why.fault.is_bad_version() {
        return begun_phrase(why.begins, why.expected, phrase);
    }
    phrase
}

impl RunError {
    /// Returns what is said of it.
    pub fn row(self) -> ErrorRow
        ensures { row_in result ≡ error_row self }
    {
        match self {
            Self::InputTooLarge => wrong(Run, Alone(INPUT_TOO_LARGE), TOO_LARGE).named("EFBIG"),
            Self::InputNotRead => failed(Run, "cannot read input"),
            Self::InputNotWhole => wrong(Run, Alone(NOT_WHOLE), NO_FRAME).named("EBADMSG"),
            Self::DamagedInput(fault) => by(File, Refused(Damaged), Input(fault)),
            Self::FaultyLine { line, fault } => by(Line(line), Faulty(fault), LineFault(fault)),
            Self::UnknownWord { line, word } => by(Line(line), Faulty(Unknown), First(word)),
            Self::FromPassword { line } => wrong(Line(line), Faulty(WordCount), NO_PASSWORDS),
            Self::AsksForHelp { line } => wrong(Line(line), Faulty(Unknown), SEE_HELP),
            Self::LineRefused { line, code } => {
                wrong(Line(line), Refused(code), refusal_phrase(Keytab, code))
            }
            Self::NoSuchFile(source) => by(File, Alone(NO_FILE), Missing(source)).named("ENOENT"),
            Self::OtherType(kind, source) => {
                by(File, Alone(NO_FILE), Type(kind, source)).named("ENOENT")
            }
            Self::TypedName => by(File, Alone("cannot write"), TypedName).with_status(3),
            Self::FileTooLarge => wrong(File, Alone("file too large"), TOO_LARGE).named("EFBIG"),
            Self::FileNotRead => failed(File, "cannot read"),
            Self::FileNotWritten => failed(File, "cannot write"),
            Self::NotOpened(why) => wrong(File, NotOpened(why.fault), not_opened_phrase(why)),
            Self::Refused(kind, code) => wrong(File, Refused(code), refusal_phrase(kind, code)),
            Self::NothingToCopy => wrong(File, Refused(NotFound), nothing_phrase(Keytab)),
            Self::NothingSelected(kind) => wrong(Run, Refused(NotFound), nothing_phrase(kind)),
            Self::NoTicketIn(sought) => wrong(File, Refused(NotFound), no_ticket_phrase(sought)),
            Self::NoTickets(sought) => wrong(Run, Refused(NotFound), no_ticket_phrase(sought)),
            Self::OutputNotWritten => failed(Run, NO_OUTPUT),
            Self::OutputIsTerminal => wrong(Run, Alone(NO_OUTPUT), NO_TERMINAL).with_status(3),
            Self::ClockNotRead => wrong(Run, Alone(NO_CLOCK), CLOCK_FAILED).with_status(3),
            Self::NoMemory => {
                let row = by(Run, Alone("out of memory"), Nothing);
                row.with_status(4).named("ENOMEM")
            }
        }
    }
}
