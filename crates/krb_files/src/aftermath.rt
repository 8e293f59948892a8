//! What a save left behind, beside what it returned.

ghost use Rattle.std.specs.Prelude.{◌≡◌, Some};
ghost use Rattle.krb_files.specs.Phrases.{aftermath_phrase};

use std::fmt;

/// What a save left behind, beside what it returned.
#[derive(Clone, Copy, Debug, PartialEq, Eq)]
pub enum Aftermath {
    /// The save in place failed, and the old bytes that it may have written over are back.
    Restored,
    /// The save in place failed, and an old byte that it may have written over may be gone.
    Damaged,
    /// The save replaced a file that another program had changed after it was compared.
    LostChange,
    /// After the save in place the file did not have just the bytes that were written.
    Mixed,
}

impl Aftermath {
    /// Returns its phrase.
    pub fn phrase(self) -> &'static str
        ensures { result.now ≡ aftermath_phrase self }
    {
        match self {
            Aftermath::Restored => "the old bytes are back",
            Aftermath::Damaged => "the file may be damaged",
            Aftermath::LostChange => "a change of another program was lost",
            Aftermath::Mixed => {
                "another program wrote at the same time; the file may be damaged"
            }
        }
    }
}

impl fmt::Display for Aftermath {
    ghost output = { λ aftermath. Some (aftermath_phrase aftermath) };

    fn fmt<W: fmt::Write>(&self, f: &mut fmt::Formatter<W>) -> fmt::Result {
        f.write_str(self.phrase())
    }
}
