//! Faults of lines that are read.

ghost use Rattle.std.specs.Prelude.{◌≡◌, Some};
ghost use Rattle.krb_text.specs.declared.line_fault.LineRefusal.TheVariants.{Fault as Faulty, NoMemory as OutOfMemory};
ghost use Rattle.krb_text.specs.declared.line_fault.ScriptRefusal.TheVariants.{NoMemory as ScriptHasNoMemory};
ghost use Rattle.krb_text.specs.LineFault.{ktutil_phrase, line_fault_number, line_phrase, refusal_phrase, refusal_text};

use krb_wire::NoMemory;
use std::alloc::AllocFailed;
use std::fmt;
use thiserror::Error;

/// What is wrong with a line of a script, or with a line that ktutil reads.
#[derive(Clone, Copy, Debug, PartialEq, Eq, Error)]
pub enum LineFault {
    UnknownWord = 1,
    WordCount = 2,
    BadNumber = 3,
    BadEtype = 4,
    BadKey = 5,
    BadName = 6,
    BadSlot = 7,
    BadFileName = 8,
}

impl LineFault {
    /// Returns the number that is printed for this fault.
    pub fn number(self) -> u32
        ensures { result ≡ line_fault_number self }
    {
        self as u32
    }

    /// Returns the message for a line of a script.
    pub fn phrase(self) -> &'static str
        ensures { result.now ≡ line_phrase self }
    {
        match self {
            LineFault::UnknownWord => "unknown first word",
            LineFault::WordCount => "words are missing or left over",
            LineFault::BadNumber => "a number is not from 0 to 4294967295",
            LineFault::BadEtype => "unknown encryption type",
            LineFault::BadKey => "the key is not hexadecimal, or not as long as its type's",
            LineFault::BadName => "not a principal name with its realm",
            LineFault::BadSlot => "the list has no such slot",
            LineFault::BadFileName => "the file's name is not UTF-8",
        }
    }

    /// Returns the message for a line that ktutil reads.
    pub fn ktutil_phrase(self) -> &'static str
        ensures { result.now ≡ ktutil_phrase self }
    {
        match self {
            LineFault::UnknownWord => "unknown command",
            LineFault::WordCount => "words are wrong, missing, repeated or left over",
            LineFault::BadKey => "the key is not hexadecimal, not as long as its type's, or empty",
            fault => fault.phrase(),
        }
    }
}

impl fmt::Display for LineFault {
    ghost output = { λ fault. Some (line_phrase fault) };

    fn fmt<W: fmt::Write>(&self, f: &mut fmt::Formatter<W>) -> fmt::Result {
        f.write_str(self.phrase())
    }
}

/// Why a line, or a word of it, could not be read.
#[derive(Clone, Copy, Debug, PartialEq, Eq, Error)]
pub enum LineRefusal {
    Fault(LineFault),
    /// An allocation failed.
    NoMemory,
}

impl fmt::Display for LineRefusal {
    ghost output = { λ refusal. Some (refusal_phrase refusal) };

    fn fmt<W: fmt::Write>(&self, f: &mut fmt::Formatter<W>) -> fmt::Result {
        match self {
            LineRefusal::Fault(fault) => f.write_str(fault.phrase()),
            LineRefusal::NoMemory => f.write_str("out of memory"),
        }
    }
}

impl From<LineFault> for LineRefusal {
    ghost from_gives = { λ fault refusal. refusal ≡ Faulty fault };

    fn from(fault: LineFault) -> LineRefusal {
        LineRefusal::Fault(fault)
    }
}

impl From<NoMemory> for LineRefusal {
    ghost from_gives = { λ _ refusal. refusal ≡ OutOfMemory };

    fn from(_refused: NoMemory) -> LineRefusal {
        LineRefusal::NoMemory
    }
}

/// Why a script is refused.
#[derive(Clone, Copy, Debug, PartialEq, Eq, Error)]
pub enum ScriptRefusal {
    /// The number of the first faulty line, counted from 1, and its first fault.
    Fault { line: u64, kind: LineFault },
    /// An allocation failed.
    NoMemory,
}

impl fmt::Display for ScriptRefusal {
    ghost output = { λ refusal. Some (refusal_text refusal) };

    fn fmt<W: fmt::Write>(&self, f: &mut fmt::Formatter<W>) -> fmt::Result {
        match self {
            ScriptRefusal::Fault { line, kind } => write!(f, "line {line}: {kind}"),
            ScriptRefusal::NoMemory => f.write_str("out of memory"),
        }
    }
}

impl<T: Drop> From<AllocFailed<T>> for ScriptRefusal {
    ghost from_gives = { λ _ refusal. refusal ≡ ScriptHasNoMemory };

    fn from(_refused: AllocFailed<T>) -> ScriptRefusal {
        ScriptRefusal::NoMemory
    }
}
