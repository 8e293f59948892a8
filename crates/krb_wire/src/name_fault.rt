//! What is wrong with the text of a name.

ghost use Rattle.std.specs.Prelude.{◌≡◌};
ghost use Rattle.krb_wire.specs.NameOf.{name_fault_number, name_fault_phrase};

use std::fmt;
use thiserror::Error;

/// Why a text is not a name.
#[derive(Clone, Copy, Debug, PartialEq, Eq, Error)]
pub enum NameFault {
    /// It has no unquoted `@`, and there is no default realm.
    NoRealm = 1,
    /// Its last byte is a backslash that quotes nothing.
    LoneBackslash = 2,
    /// It has a second unquoted `@`.
    SecondAt = 3,
    /// It has an unquoted `/` after the `@`.
    SlashInRealm = 4,
    /// An allocation failed.
    NoMemory = 5,
}

impl NameFault {
    /// Returns its number, counted from 1 in the order above.
    pub fn number(self) -> u32
        ensures { result ≡ name_fault_number self }
    {
        match self {
            NameFault::NoRealm => 1,
            NameFault::LoneBackslash => 2,
            NameFault::SecondAt => 3,
            NameFault::SlashInRealm => 4,
            NameFault::NoMemory => 5,
        }
    }

    /// Returns its description in words.
    pub fn phrase(self) -> &'static str
        ensures { result.now ≡ name_fault_phrase self }
    {
        match self {
            NameFault::NoRealm => "no realm",
            NameFault::LoneBackslash => "a backslash at the end",
            NameFault::SecondAt => "a second @",
            NameFault::SlashInRealm => "a / in the realm",
            NameFault::NoMemory => "out of memory",
        }
    }
}

impl fmt::Display for NameFault {
    ghost use Rattle.std.specs.Prelude.{Some};

    ghost output = { λ fault. Some (name_fault_phrase fault) };

    fn fmt<W: fmt::Write>(&self, f: &mut fmt::Formatter<W>) -> fmt::Result {
        f.write_str(self.phrase())
    }
}
