//! The words of klist, and its options.

ghost use Rattle.std.specs.Prelude.{◌≡◌};
ghost use Rattle.krb_readers.specs.Klist.{apart, file_kind, list_kind, listing_of, odd_columns, odd_option, odd_seconds, odd_with_cache};
ghost use Rattle.krb_driver.specs.Mistakes.{Refuses};
ghost use Rattle.krb_driver.specs.Spelled.{Spells};

use krb_cache_text::CcColumns;
use krb_driver::{
    CommandName, CommandWords, FileKind, Matches, Mistake, Phrase, V1_BIG, Word, refuse_twice,
    times_given, typed, v1_order,
};
use krb_keytab_text::KtColumns;
use krb_wire::Order;

pub const KLIST: CommandWords = CommandWords {
    command: CommandName::Klist,
    name: "klist",
    about: "Lists a keytab or a credential cache",
    usage: "\
krbfile klist [-c] [-e] [-f] [-C] [--json] [FILE..]
       krbfile klist -k [-t] [-K] [-e] [--v1-big] [--json] [FILE..]
       krbfile klist -l [-c] [--json] [FILE..]
       krbfile klist -s [--for SECONDS] [-c] [FILE]",
    after_help: Some(
        "\
Without FILE it lists the cache that KRB5CCNAME names, else /tmp/krb5cc_UID; with -k
the keytab that KRB5_KTNAME names, else /etc/krb5.keytab.
Statuses:
  0  The files were listed; with -s: there is a ticket to go on with
  1  A file is missing, too large, damaged or of another kind; with -s: there is no such ticket
  2  The command line is bad
  3  A file, the output or the clock failed
  4  Out of memory
Example: the entries of a keytab, with encryption types
  krbfile klist -k -e host.keytab",
    ),
    words: &[
        Word::Flag("cache", 'c', "List a credential cache (the default)"),
        Word::Flag("flags", 'f', "Show the flags of tickets"),
        Word::Flag("config", 'C', "Show configuration entries"),
        Word::Flag("keytab", 'k', "List a keytab"),
        Word::Flag("times", 't', "Show the times of entries"),
        Word::Flag("keys", 'K', "Show the keys of entries"),
        Word::Flag("enctypes", 'e', "Show encryption types"),
        V1_BIG,
        Word::LongFlag(
            "json",
            "Print each file as one JSON object; keys only with -K",
        ),
        Word::Flag("list", 'l', "Print a line for each cache"),
        Word::Flag(
            "silent",
            's',
            "Print nothing; status 0 if there is a ticket to go on with",
        ),
        Word::LongValued(
            "for",
            "SECONDS",
            "With -s: the ticket is valid for so many seconds more",
        ),
        Word::Operands("FILE", "The files to list"),
    ],
};

/// The kind of file that klist lists, and the columns that it shows.
#[derive(Clone, Copy)]
pub enum ListKind {
    Keytab(KtColumns),
    Cache(CcColumns),
}

impl ListKind {
    pub fn file_kind(self) -> FileKind
        ensures { result ≡ file_kind self }
    {
        match self {
            ListKind::Keytab(_) => FileKind::Keytab,
            ListKind::Cache(_) => FileKind::Cache,
        }
    }
}

#[derive(Clone, Copy)]
pub struct KlistOptions {
    pub kind: ListKind,
    /// The byte order of version 1 keytabs.
    pub v1_order: Order,
    /// Print each file as one JSON object, whatever the columns; the keys of a keytab only with their column.
    pub json: bool,
}

/// Refuses `--for` if it is given twice, or without `-s`.
pub fn refuse_odd_seconds<'a, M: Matches<'a>>(matches: &M) -> Result<(), Mistake<'a>>
    ensures { Refuses (odd_seconds (M.matched matches.now)) result }
{
    refuse_twice(matches, "for", "--for", "--for")?;
    if times_given(matches, "for") > 0 && !matches.flag("silent") {
        return Err(Phrase::ONLY_WITH.of_both("--for", "-s"));
    }
    Ok(())
}

/// Refuses an option that does not go with `own`.
pub fn refuse_with<'a, M: Matches<'a>>(
    matches: &M,
    own: &'a str,
    name: &str,
    letter: &'a str,
    long: &'a str,
) -> Result<(), Mistake<'a>>
    ensures { Refuses (apart (M.matched matches.now) own.now name.now letter.now long.now) result }
{
    if matches.flag(name) {
        return Err(Phrase::DOES_NOT_GO_WITH.of_both(own, typed(matches, letter, long)));
    }
    Ok(())
}

/// Refuses an option of how a cache is listed, which does not go with `own`.
pub fn refuse_columns<'a, M: Matches<'a>>(matches: &M, own: &'a str) -> Result<(), Mistake<'a>>
    ensures { Refuses (odd_columns (M.matched matches.now) own.now) result }
{
    refuse_with(matches, own, "enctypes", "-e", "--enctypes")?;
    refuse_with(matches, own, "flags", "-f", "--flags")?;
    refuse_with(matches, own, "config", "-C", "--config")
}

/// Refuses an option that goes only with `-k`.
pub fn refuse_with_cache<'a, M: Matches<'a>>(matches: &M) -> Result<(), Mistake<'a>>
    ensures { Refuses (odd_with_cache (M.matched matches.now)) result }
{
    if matches.flag("times") {
        Err(Phrase::FOR_KEYTABS.of(typed(matches, "-t", "--times")))
    } else if matches.flag("keys") {
        Err(Phrase::FOR_KEYTABS.of(typed(matches, "-K", "--keys")))
    } else if matches.flag("v1-big") {
        Err(Phrase::FOR_KEYTABS.of("--v1-big"))
    } else {
        Ok(())
    }
}

// Refuses an option that is for the other kind of file.
fn refuse_odd_option<'a, M: Matches<'a>>(matches: &M) -> Result<(), Mistake<'a>>
    ensures { Refuses (odd_option (M.matched matches.now)) result }
{
    if !matches.flag("keytab") {
        return refuse_with_cache(matches);
    }
    let keytab = typed(matches, "-k", "--keytab");
    if matches.flag("cache") {
        Err(Phrase::DOES_NOT_GO_WITH.of_both(typed(matches, "-c", "--cache"), keytab))
    } else if matches.flag("flags") {
        Err(Phrase::DOES_NOT_GO_WITH.of_both(typed(matches, "-f", "--flags"), keytab))
    } else if matches.flag("config") {
        Err(Phrase::DOES_NOT_GO_WITH.of_both(typed(matches, "-C", "--config"), keytab))
    } else {
        Ok(())
    }
}

// Returns the kind of file, a cache unless `-k` is given, and the columns, each selected by its own option.
fn list_kind<'a, M: Matches<'a>>(matches: &M) -> ListKind
    ensures { result ≡ list_kind (M.matched matches.now) }
{
    if matches.flag("keytab") {
        ListKind::Keytab(KtColumns {
            times: matches.flag("times"),
            etypes: matches.flag("enctypes"),
            keys: matches.flag("keys"),
        })
    } else {
        ListKind::Cache(CcColumns {
            flags: matches.flag("flags"),
            etypes: matches.flag("enctypes"),
            configs: matches.flag("config"),
        })
    }
}

/// Returns the options of a listing. Refuses options that do not go together.
pub fn klist_options<'a, M: Matches<'a>>(matches: &M) -> Result<KlistOptions, Mistake<'a>>
    ensures { Spells (listing_of (M.matched matches.now)) result }
{
    refuse_odd_seconds(matches)?;
    refuse_odd_option(matches)?;
    Ok(KlistOptions {
        kind: list_kind(matches),
        v1_order: v1_order(matches),
        json: matches.flag("json"),
    })
}
