//! The errors that end a run, and its exit status.

ghost use Rattle.std.specs.Prelude.{◌≡◌};
ghost use Rattle.krb_driver.specs.declared.error.RunError.TheVariants as error;
ghost use Rattle.krb_driver.specs.FirstWords.{first_word, line_at, safe_word};
ghost use Rattle.krb_driver.specs.RunErrors.{error_of_name, error_status, input_error, load_error, output_error, save_error, script_error, word_error, end_status, ending_status, is_spent};

use crate::file_name::NameSource;
use crate::first_word::FirstWord;
use crate::not_opened::NotOpened;
use crate::verdict::{FileKind, TicketsSought, Verdict};
use krb_files::{Aftermath, LoadFault, OutFault, SaveFault};
use krb_text::{LineFault, ScriptRefusal};
use krb_walk::{Code, Fault};
use krb_wire::NoMemory;

/// An error that ends a run, or a line of ktutil. Line numbers are counted from 1.
#[derive(Clone, Copy)]
pub enum RunError {
    InputTooLarge,
    InputNotRead,
    /// It is no frame of an image, or only a part of one.
    InputNotWhole,
    /// The image on it has this fault.
    DamagedInput(Fault),
    FaultyLine { line: u64, fault: LineFault },
    /// A line of a script begins with this word: its fault is its first word.
    UnknownWord { line: u64, word: FirstWord },
    /// A line of ktutil adds an entry with a key from a password: its fault is its words.
    FromPassword { line: u64 },
    /// A line of ktutil asks for help, or for its commands: its fault is its command.
    AsksForHelp { line: u64 },
    /// A keytab refused what a line read from it or added to it.
    LineRefused { line: u64, code: Code },
    NoSuchFile(NameSource),
    /// There is no such file of that kind, as its name is of a type that is not read.
    OtherType(FileKind, NameSource),
    /// Nothing is written under a name that begins with a type.
    TypedName,
    FileTooLarge,
    FileNotRead,
    FileNotWritten,
    NotOpened(NotOpened),
    /// A file of that kind refused what the run was to do.
    Refused(FileKind, Code),
    /// No entry of the file is selected, so there is nothing to copy.
    NothingToCopy,
    /// Nothing is selected in any of several files of that kind.
    NothingSelected(FileKind),
    /// No ticket of a cache was looked at.
    NoTicketIn(TicketsSought),
    /// No ticket of any of several caches was looked at.
    NoTickets(TicketsSought),
    OutputNotWritten,
    /// The output is a terminal, and an image is not for people.
    OutputIsTerminal,
    /// The clock failed, or is before 1970 or after 2106.
    ClockNotRead,
    NoMemory,
}

impl RunError {
    /// Returns the exit status of a run that it ends: 4 if out of memory, 3 if a call failed, else 1, for what is wrong
    /// with an input or a file. Of several errors the greatest status counts. (A bad command line has 2.)
    pub fn status(self) -> u8
        ensures { result ≡ error_status self }
    {
        self.row().status
    }

    /// Returns the error for a file whose name comes from there.
    pub fn of_name(self, source: NameSource) -> RunError
        ensures { result ≡ error_of_name source self }
    {
        match self {
            RunError::NoSuchFile(_) => RunError::NoSuchFile(source),
            error => error,
        }
    }

    // Returns the error for a line of a script with an unknown first word.
    fn of_word(line: u64, script: &[u8]) -> RunError
        ensures { result ≡ word_error line (safe_word (first_word (line_at script.now line))) }
    {
        match FirstWord::at(script, line) {
            Some(word) => RunError::UnknownWord { line, word },
            None => RunError::FaultyLine {
                line,
                fault: LineFault::UnknownWord,
            },
        }
    }

    /// Returns the error for a script that was refused.
    pub fn of_script(refusal: ScriptRefusal, script: &[u8]) -> RunError
        ensures { result ≡ script_error script.now refusal }
    {
        match refusal {
            ScriptRefusal::Fault {
                line,
                kind: LineFault::UnknownWord,
            } => RunError::of_word(line, script),
            ScriptRefusal::Fault { line, kind } => RunError::FaultyLine { line, fault: kind },
            ScriptRefusal::NoMemory => RunError::NoMemory,
        }
    }

    /// Returns the error for an input that was not read.
    pub fn of_input(fault: LoadFault) -> RunError
        ensures { result ≡ input_error fault }
    {
        match fault {
            LoadFault::TooLarge => RunError::InputTooLarge,
            LoadFault::NoMemory => RunError::NoMemory,
            LoadFault::Missing | LoadFault::Failed => RunError::InputNotRead,
        }
    }
}

impl From<LoadFault> for RunError {
    ghost from_gives = { λ fault given. given ≡ load_error fault };

    fn from(fault: LoadFault) -> RunError {
        match fault {
            LoadFault::Missing => RunError::NoSuchFile(NameSource::Word),
            LoadFault::TooLarge => RunError::FileTooLarge,
            LoadFault::Failed => RunError::FileNotRead,
            LoadFault::NoMemory => RunError::NoMemory,
        }
    }
}

impl From<SaveFault> for RunError {
    ghost from_gives = { λ fault given. given ≡ save_error fault };

    fn from(fault: SaveFault) -> RunError {
        match fault {
            SaveFault::Failed => RunError::FileNotWritten,
            SaveFault::NoMemory => RunError::NoMemory,
        }
    }
}

impl From<OutFault> for RunError {
    ghost from_gives = { λ fault given. given ≡ output_error fault };

    fn from(fault: OutFault) -> RunError {
        match fault {
            OutFault::Write => RunError::OutputNotWritten,
            OutFault::NoMemory => RunError::NoMemory,
        }
    }
}

impl From<NoMemory> for RunError {
    ghost from_gives = { λ _ given. given ≡ error.NoMemory };

    fn from(_refused: NoMemory) -> RunError {
        RunError::NoMemory
    }
}

/// Returns whether a run ended because memory ran out.
pub fn is_spent(ending: &Result<Verdict, RunError>) -> bool
    ensures { result ≡ is_spent ending.now }
{
    matches!(ending, Err(RunError::NoMemory))
}

// Returns the exit status of a run that ended so, but for what its save left behind.
fn ending_status(ending: Result<Verdict, RunError>) -> u8
    ensures { result ≡ ending_status ending }
{
    match ending {
        Ok(verdict) => verdict.status(),
        Err(error) => error.status(),
    }
}

/// Returns the exit status of a run that ended so, and whose save left that behind: not 0 if another program wrote beside it.
pub fn end_status(ending: Result<Verdict, RunError>, aftermath: Option<Aftermath>) -> u8
    ensures { result ≡ end_status ending aftermath }
{
    let is_beside = matches!(aftermath, Some(Aftermath::LostChange | Aftermath::Mixed));
    ending_status(ending).max(u8::from(is_beside))
}
