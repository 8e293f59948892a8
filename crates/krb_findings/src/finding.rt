//! What a check of a keytab can find, and what a keytab says of a ticket that it does not open: one table, which lines,
//! words, JSON and `--allow` read.

ghost use Rattle.std.specs.Prelude.{◌≡◌};
ghost use Rattle.std.specs.List.{find};
ghost use Rattle.std.specs.Str.{bytes_eq};
ghost use Rattle.krb_findings.specs.Table.{all_findings, bit_of, row_of};

/// What a check of a keytab can find, and after that what a keytab can say of a ticket that it does not open.
#[derive(Clone, Copy, Debug, PartialEq, Eq)]
pub enum Finding {
    Weak,
    Hidden,
    Same,
    Clash,
    Old,
    Mode,
    Size,
    Aged,
    Missing,
    Empty,
    Nostrong,
    Unwanted,
    User,
    Unread,
    Name,
    Kvno,
    Etype,
}

/// The findings of a check, in the order in which words explain them.
pub const FINDINGS: [Finding; 12] = [
    Finding::Weak,
    Finding::Hidden,
    Finding::Same,
    Finding::Clash,
    Finding::Old,
    Finding::Mode,
    Finding::Size,
    Finding::Aged,
    Finding::Missing,
    Finding::Empty,
    Finding::Nostrong,
    Finding::Unwanted,
];

/// What is said of tickets, in the order in which words explain it.
pub const ABOUT_TICKETS: [Finding; 5] = [
    Finding::User,
    Finding::Unread,
    Finding::Name,
    Finding::Kvno,
    Finding::Etype,
];

/// The findings about an entry, in the order of its lines.
pub const ABOUT_ENTRIES: [Finding; 7] = [
    Finding::Weak,
    Finding::Size,
    Finding::Hidden,
    Finding::Same,
    Finding::Clash,
    Finding::Old,
    Finding::Aged,
];

/// The findings about a name, in the order of their lines. They are found at its first entry.
pub const ABOUT_NAMES: [Finding; 2] = [Finding::Nostrong, Finding::Unwanted];

/// What is said of a finding.
#[derive(Clone, Copy, Debug)]
pub struct FindingRow {
    /// What its line begins with.
    pub word: &'static str,
    pub phrase: &'static str,
    /// It makes the status 1.
    pub counts: bool,
}

fn row(word: &'static str, phrase: &'static str, counts: bool) -> FindingRow
    ensures word { result.word.now ≡ word.now }
    ensures phrase { result.phrase.now ≡ phrase.now }
    ensures counts { result.counts ≡ counts }
{
    FindingRow {
        word,
        phrase,
        counts,
    }
}

impl Finding {
    /// Returns what is said of it.
    pub fn row(self) -> FindingRow
        ensures word { result.word.now ≡ (row_of self).word }
        ensures phrase { result.phrase.now ≡ (row_of self).phrase }
        ensures counts { result.counts ≡ (row_of self).counts }
    {
        match self {
            Finding::Weak => row(
                "weak",
                "an encryption type that MIT calls weak or deprecated",
                true,
            ),
            Finding::Hidden => row(
                "hidden",
                "MIT's programs see no entry from this one on",
                true,
            ),
            Finding::Same => row("same", "this key stands there twice", true),
            Finding::Clash => row("clash", "two keys for one name, version and type", true),
            Finding::Old => row("old", "a newer version of this name stands there", false),
            Finding::Mode => row(
                "mode",
                "users other than the owner may read or change this file",
                false,
            ),
            Finding::Size => row("size", "a key that is not as long as its type's", true),
            Finding::Aged => row("aged", "a key that is older than was asked", true),
            Finding::Missing => row("missing", "no entry of a name that was asked for", true),
            Finding::Empty => row("empty", "a keytab without an entry", true),
            Finding::Nostrong => row(
                "nostrong",
                "a name whose newest version has only weak keys",
                true,
            ),
            Finding::Unwanted => row("unwanted", "a name that was not asked for", true),
            Finding::User => row("user", "no keytab opens this ticket", false),
            Finding::Unread => row("unread", "the ticket is not in Kerberos' form", true),
            Finding::Name => row("name", "the keytab has no entry of this name", true),
            Finding::Kvno => row("kvno", "the keytab has other versions of this name", true),
            Finding::Etype => row(
                "etype",
                "the keytab has no key of this type in that version",
                true,
            ),
        }
    }

    /// Returns the finding of a check whose lines begin with a word.
    pub fn named(word: &str) -> Option<Finding>
        ensures { result ≡ find (λ finding. bytes_eq (row_of finding).word word.now) all_findings }
    {
        FINDINGS
            .iter()
            .copied()
            .find(|finding| finding.row().word == word)
    }

    /// Returns its bit in a set.
    pub(crate) fn bit(self) -> u32
        ensures { result ≡ bit_of self }
    {
        1 << (self as u32)
    }
}
