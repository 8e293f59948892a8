//! The words of ktcheck, and its options.

ghost use Rattle.std.specs.Prelude.{map};
ghost use Rattle.krb_readers.specs.KtcheckWords.{keytab_check_of, odd_only, spelled_finding, spelled_findings};
ghost use Rattle.krb_driver.specs.Mistakes.{Refuses};
ghost use Rattle.krb_driver.specs.Spelled.{ReadsAs, Spells};

use krb_driver::{
    CommandName, CommandWords, Matches, Mistake, Phrase, V1_BIG, Word, WordFault, refuse_twice,
    spelled_names, spelled_seconds, times_given, v1_order,
};
use krb_findings::{Finding, FindingSet};
use krb_wire::Order;
use std::alloc::{Allocator, Global};
use std::marker::Model;

pub const KTCHECK: CommandWords = CommandWords {
    command: CommandName::Ktcheck,
    name: "ktcheck",
    about: "Reports what is wrong with keytabs",
    usage: "\
krbfile ktcheck [--v1-big] [-q] [-H] [--json] [--allow WORD].. [--older SECONDS]
                       [--want NAME].. [--only] [FILE..]",
    after_help: Some(
        "\
Without FILE it checks the keytab that KRB5_KTNAME names, else /etc/krb5.keytab.
Findings, a line each. The status is 1 for all but old, and for mode if any user may read or write:
{findings}
Statuses:
  0  Nothing is wrong but what is allowed
  1  Something is wrong, or a file is missing, too large or no keytab
  2  The command line is bad
  3  A file or the output failed
  4  Out of memory
Example: what is wrong with keytabs, where weak keys are wanted
  krbfile ktcheck -q --allow weak --allow nostrong host.keytab mixed.keytab",
    ),
    words: &[
        V1_BIG,
        Word::Flag("quiet", 'q', "Print only what counts for the status"),
        Word::Flag(
            "with-filename",
            'H',
            "Begin lines with the name of the file, of one too",
        ),
        Word::LongFlag("json", "Print each file as one JSON object"),
        Word::LongValued(
            "allow",
            "WORD",
            "Findings that do not count for the status, by their words; may be repeated",
        ),
        Word::LongValued(
            "older",
            "SECONDS",
            "Find keys that are not old and have that age: seconds, or 15m, 10h, 7d",
        ),
        Word::LongValued(
            "want",
            "NAME",
            "Find that a name with its realm has no entry; may be repeated",
        ),
        Word::LongFlag("only", "Find each name that --want does not ask for"),
        Word::Operands("FILE", "The files to check"),
    ],
};

/// What ktcheck is asked for.
#[derive(Drop)]
pub struct CheckOptions<A: Allocator> {
    /// The byte order of version 1 keytabs.
    pub v1_order: Order,
    /// Print only what counts for the status.
    pub quiet: bool,
    /// Print each file as one JSON object.
    pub json: bool,
    /// Lines begin with the name of their file, of one file too.
    pub with_filename: bool,
    /// The findings that do not count for the status.
    pub allowed: FindingSet,
    /// An entry that is not old is aged if it has that many seconds.
    pub older: Option<u32>,
    /// The names that have to be there, as they are printed.
    pub wanted: Vec<Vec<u8, A>, A>,
    /// Names that are not wanted are found.
    pub only: bool,
}

impl<A: Allocator> Model for CheckOptions<A> {
    ghost use Rattle.std.specs.Prelude.{map};
    ghost use Rattle.std.specs.Vec.{vec_items};
    ghost use Rattle.krb_readers.specs.KtcheckWords.{KeytabCheck};

    ghost Value = { KeytabCheck };

    ghost view = { λ o. record {
      v1_order = o.v1_order;
      quiet = o.quiet;
      json = o.json;
      with_filename = o.with_filename;
      allowed = o.allowed;
      older = o.older;
      wanted = map vec_items o.wanted.items;
      only = o.only;
    } };
}

fn finding<'a>(word: &'a str) -> Result<FindingSet, Mistake<'a>>
    ensures { Spells (spelled_finding word.now) result }
{
    match Finding::named(word) {
        Some(finding) => Ok(FindingSet::only_if(true, finding)),
        None => Err(Phrase::NO_FINDING.of(word)),
    }
}

#[tactic(auto, using(crate::proofs::Options::folds_left))]
fn findings<'a>(words: &[&'a str]) -> Result<FindingSet, Mistake<'a>>
    ensures { Spells (spelled_findings (map (λ word. word.now) words.now)) result }
{
    let mut findings = FindingSet::none();
    'words: for word in words {
        findings = findings.and(finding(word)?);
    }
    Ok(findings)
}

// Refuses `--only` without `--want`.
fn refuse_odd_only<'a, M: Matches<'a>>(matches: &M) -> Result<(), Mistake<'a>>
    ensures { Refuses (odd_only (M.matched matches.now)) result }
{
    if matches.flag("only") && times_given(matches, "want") == 0 {
        return Err(Phrase::GOES_WITH.of_both("--only", "--want"));
    }
    Ok(())
}

/// Returns the options of ktcheck. Refuses an age that is given twice, `--only` without a name, a word that is no
/// finding, and an age and a name that cannot be read.
pub fn check_options<'a, M: Matches<'a>>(
    alloc: Global,
    matches: &M,
) -> Result<CheckOptions<Global>, WordFault<'a>>
    ensures { ReadsAs (keytab_check_of (M.matched matches.now)) result }
{
    refuse_twice(matches, "older", "--older", "--older")?;
    refuse_odd_only(matches)?;
    let allowed = findings(matches.values("allow"))?;
    let older = spelled_seconds(matches, "older")?;
    let wanted = spelled_names(alloc, matches, "want")?;
    Ok(CheckOptions {
        v1_order: v1_order(matches),
        quiet: matches.flag("quiet"),
        json: matches.flag("json"),
        with_filename: matches.flag("with-filename"),
        allowed,
        older,
        wanted: wanted?,
        only: matches.flag("only"),
    })
}
