//! What is wrong with an image.

ghost use Rattle.std.specs.Prelude.{◌≡◌};
ghost use Rattle.krb_walk.specs.Phrases.{fault_number, fault_phrase, fault_text};

use std::fmt;
use thiserror::Error;

/// What is wrong with the bytes after the last sound cell.
#[derive(Clone, Copy, Debug, PartialEq, Eq, Error)]
pub enum FaultKind {
    /// One to three bytes are left where a length should be.
    CutLength = 1,
    /// A length is greater than the number of bytes left.
    Overrun = 2,
    /// A record does not begin with an entry.
    BadEntry = 3,
    /// The bytes do not begin with a whole credential.
    BadCredential = 4,
}

impl FaultKind {
    /// Returns the number that is printed for it.
    pub fn number(self) -> u32
        ensures { result ≡ fault_number self }
    {
        match self {
            FaultKind::CutLength => 1,
            FaultKind::Overrun => 2,
            FaultKind::BadEntry => 3,
            FaultKind::BadCredential => 4,
        }
    }

    /// Returns its description in words.
    pub fn phrase(self) -> &'static str
        ensures { result.now ≡ fault_phrase self }
    {
        match self {
            FaultKind::CutLength => "the file ends within a length",
            FaultKind::Overrun => "a record or a hole is longer than the rest of the file",
            FaultKind::BadEntry => "a record holds no entry",
            FaultKind::BadCredential => "no whole credential follows; cut off, or being written",
        }
    }
}

impl fmt::Display for FaultKind {
    ghost use Rattle.std.specs.Prelude.{Some};

    ghost output = { λ kind. Some (fault_phrase kind) };

    fn fmt<W: fmt::Write>(&self, f: &mut fmt::Formatter<W>) -> fmt::Result {
        f.write_str(self.phrase())
    }
}

/// A fault, at the end place of the sound cells.
#[derive(Clone, Copy, Debug, PartialEq, Eq, Error)]
pub struct Fault {
    pub place: u32,
    pub kind: FaultKind,
}

impl fmt::Display for Fault {
    ghost use Rattle.std.specs.Prelude.{Some};

    ghost output = { λ fault. Some (fault_text fault) };

    fn fmt<W: fmt::Write>(&self, f: &mut fmt::Formatter<W>) -> fmt::Result {
        let number = self.kind.number();
        let place = self.place;
        let phrase = self.kind.phrase();
        write!(f, "fault {number} at {place}: {phrase}")
    }
}
