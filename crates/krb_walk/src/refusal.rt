//! Why a store or a session refuses.

ghost use Rattle.std.specs.Prelude.{◌≡◌};
ghost use Rattle.krb_walk.specs.Phrases.{code_number, code_phrase, refusal_phrase};
ghost use Rattle.krb_walk.specs.declared.refusal.Refusal.TheVariants.{Code as ByCode, NoMemory};

use krb_wire::NoMemory;
use std::alloc::{AllocError, AllocFailed};
use std::fmt;
use thiserror::Error;

/// Why an event is refused.
#[derive(Clone, Copy, Debug, PartialEq, Eq, Error)]
pub enum Code {
    Damaged = 1,
    TooLong = 2,
    Full = 3,
    NotAPlace = 4,
    NotLive = 5,
    NoSuchWalk = 6,
    TooManyWalks = 7,
    ReadOnly = 8,
    NotFound = 9,
    KvnoNotFound = 10,
    Marked = 11,
}

impl Code {
    /// Returns the number that is printed for it.
    pub fn number(self) -> u32
        ensures { result ≡ code_number self }
    {
        match self {
            Code::Damaged => 1,
            Code::TooLong => 2,
            Code::Full => 3,
            Code::NotAPlace => 4,
            Code::NotLive => 5,
            Code::NoSuchWalk => 6,
            Code::TooManyWalks => 7,
            Code::ReadOnly => 8,
            Code::NotFound => 9,
            Code::KvnoNotFound => 10,
            Code::Marked => 11,
        }
    }

    /// Returns its description, in words that fit any command.
    pub fn phrase(self) -> &'static str
        ensures { result.now ≡ code_phrase self }
    {
        match self {
            Code::Damaged => "the file is damaged; klist tells where",
            Code::TooLong => "a name or a key is too long for a keytab",
            Code::Full => "the file would be longer than its limit",
            Code::NotAPlace => "this is no place of the file",
            Code::NotLive => "nothing to remove stands at this place",
            Code::NoSuchWalk => "no such walk",
            Code::TooManyWalks => "there are 1,024 walks already",
            Code::ReadOnly => "a cache of version 3 is changed only by a rewrite",
            Code::NotFound => "no entry of this name and encryption type",
            Code::KvnoNotFound => "this name and encryption type have no such version",
            Code::Marked => "the credential bears the mark of a removed one",
        }
    }
}

impl fmt::Display for Code {
    ghost use Rattle.std.specs.Prelude.{Some};

    ghost output = { λ code. Some (code_phrase code) };

    fn fmt<W: fmt::Write>(&self, f: &mut fmt::Formatter<W>) -> fmt::Result {
        f.write_str(self.phrase())
    }
}

/// A refusal, or an allocation that failed.
#[derive(Clone, Copy, Debug, PartialEq, Eq, Error)]
pub enum Refusal {
    Code(Code),
    NoMemory,
}

impl Refusal {
    /// Returns its description, in words that fit any command.
    pub fn phrase(self) -> &'static str
        ensures { result.now ≡ refusal_phrase self }
    {
        match self {
            Refusal::Code(code) => code.phrase(),
            Refusal::NoMemory => "out of memory",
        }
    }
}

impl fmt::Display for Refusal {
    ghost use Rattle.std.specs.Prelude.{Some};

    ghost output = { λ refusal. Some (refusal_phrase refusal) };

    fn fmt<W: fmt::Write>(&self, f: &mut fmt::Formatter<W>) -> fmt::Result {
        f.write_str(self.phrase())
    }
}

impl From<Code> for Refusal {
    ghost from_gives = { λ code refusal. refusal ≡ ByCode code };

    fn from(code: Code) -> Refusal {
        Refusal::Code(code)
    }
}

impl From<NoMemory> for Refusal {
    ghost from_gives = { λ _ refusal. refusal ≡ NoMemory };

    fn from(_error: NoMemory) -> Refusal {
        Refusal::NoMemory
    }
}

impl From<AllocError> for Refusal {
    ghost from_gives = { λ _ refusal. refusal ≡ NoMemory };

    fn from(_error: AllocError) -> Refusal {
        Refusal::NoMemory
    }
}

/// Drops what was not stored.
impl<T: Drop> From<AllocFailed<T>> for Refusal {
    ghost from_gives = { λ _ refusal. refusal ≡ NoMemory };

    fn from(_error: AllocFailed<T>) -> Refusal {
        Refusal::NoMemory
    }
}
