//! The words of show, and its options.

ghost use Rattle.std.specs.Prelude.{◌≡◌};
ghost use Rattle.krb_driver.specs.Spelled.{Spells};
ghost use Rattle.krb_readers.specs.Show.{default_kind, show_of};

use krb_driver::{
    CommandName, CommandWords, FileKind, Matches, Mistake, Phrase, V1_BIG, Word, times_given,
    typed, v1_order,
};
use krb_wire::Order;

/// The words of show.
pub const SHOW: CommandWords = CommandWords {
    command: CommandName::Show,
    name: "show",
    about: "Shows keytabs and credential caches to people",
    usage: "krbfile show [-k] [--v1-big] [FILE..]",
    after_help: Some(
        "\
Without FILE it shows the cache that KRB5CCNAME names, else /tmp/krb5cc_UID; with -k
the keytab that KRB5_KTNAME names, else /etc/krb5.keytab. Its form may change; scripts
take klist. ! marks a weak encryption type.
Statuses:
  0  The files were shown
  1  A file is missing, too large, damaged, or neither a keytab nor a cache
  2  The command line is bad
  3  A file, the output or the clock failed
  4  Out of memory
Example: how old keys are, and when tickets end
  krbfile show host.keytab krb5cc_0",
    ),
    words: &[
        Word::Flag("keytab", 'k', "Show the default keytab"),
        V1_BIG,
        Word::Operands("FILE", "The files to show, keytabs and caches"),
    ],
};

/// The options of show.
#[derive(Clone, Copy)]
pub struct ShowOptions {
    /// What the default is, if no file is named: a cache or a keytab.
    pub default: FileKind,
    /// The byte order of version 1 keytabs.
    pub v1_order: Order,
}

// Returns what the default is: a cache unless `-k` is given.
fn default_kind<'a, M: Matches<'a>>(matches: &M) -> FileKind
    ensures { result ≡ default_kind (M.matched matches.now) }
{
    if matches.flag("keytab") {
        FileKind::Keytab
    } else {
        FileKind::Cache
    }
}

/// Returns the options of show. Refuses `-k` with a file.
pub fn show_options<'a, M: Matches<'a>>(matches: &M) -> Result<ShowOptions, Mistake<'a>>
    ensures { Spells (show_of (M.matched matches.now)) result }
{
    if matches.flag("keytab") && times_given(matches, "FILE") > 0 {
        return Err(Phrase::DOES_NOT_GO_WITH.of_both(typed(matches, "-k", "--keytab"), "FILE"));
    }
    Ok(ShowOptions {
        default: default_kind(matches),
        v1_order: v1_order(matches),
    })
}
