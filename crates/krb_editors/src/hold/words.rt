//! The words of hold, and the kind of file that they ask for.

ghost use Rattle.std.specs.Prelude.{◌≡◌};
ghost use Rattle.krb_driver.specs.Spelled.{Spells};
ghost use Rattle.krb_editors.specs.Hold.{hold_of};

use krb_driver::{
    CommandName, CommandWords, FileKind, IN_PLACE, Matches, Mistake, Phrase, V1_BIG, Word, v1_order,
};
use krb_wire::Order;

pub const HOLD: CommandWords = CommandWords {
    command: CommandName::Hold,
    name: "hold",
    about: "Hands a held keytab or credential cache to a program, and saves what that gives back",
    usage: "krbfile hold [-k] [--v1-big] [--in-place] FILE",
    after_help: Some(
        "\
The file's length in bytes, a newline and the file go to the standard output. Then a new
file in the same form is read from the standard input, to its end, and saved; nothing there
leaves the file as it is. No other run of krbfile changes the file meanwhile. A last line
says how it ended: saved, left, lost, damaged, or failed with the status and why.
Statuses:
  0  The file was saved, or left
  1  The file is missing, too large, damaged or of another kind, or what was given is
  2  The command line is bad
  3  The file, the input or the output failed
  4  Out of memory
Example: how many bytes a keytab has
  krbfile hold -k host.keytab < /dev/null | sed -n 1p",
    ),
    words: &[
        Word::Flag("keytab", 'k', "Hold a keytab, not a credential cache"),
        V1_BIG,
        IN_PLACE,
        Word::Operand("FILE", "The file to hold"),
    ],
};

/// The kind of file that is held: a keytab, with the byte order of version 1, or a cache.
#[derive(Clone, Copy, PartialEq, Eq)]
pub enum HoldKind {
    Keytab(Order),
    Cache,
}

impl HoldKind {
    ghost use Rattle.krb_editors.specs.Hold.{file_kind};

    pub fn file_kind(self) -> FileKind
        ensures { result ≡ file_kind self }
    {
        match self {
            HoldKind::Keytab(_) => FileKind::Keytab,
            HoldKind::Cache => FileKind::Cache,
        }
    }
}

/// Returns the kind of file that the words of hold ask for.
pub fn hold_kind<'a, M: Matches<'a>>(matches: &M) -> Result<HoldKind, Mistake<'a>>
    ensures { Spells (hold_of (M.matched matches.now)) result }
{
    if matches.flag("keytab") {
        Ok(HoldKind::Keytab(v1_order(matches)))
    } else if matches.flag("v1-big") {
        Err(Phrase::FOR_KEYTABS.of("--v1-big"))
    } else {
        Ok(HoldKind::Cache)
    }
}
