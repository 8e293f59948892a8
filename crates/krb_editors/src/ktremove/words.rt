//! The words of ktremove, and its options.

ghost use Rattle.krb_driver.specs.Mistakes.{Refuses};
ghost use Rattle.krb_driver.specs.Spelled.{ReadsAs, Spells};
ghost use Rattle.krb_editors.specs.Ktremove.{odd_age, odd_keep, odd_options, of_same, removal_of, removed_kvno, unselected, versions_given};
ghost use Rattle.std.specs.Prelude.{◌≡◌};

use crate::selecting::{
    NONE_OK, OF_ENCTYPE, OF_PRINCIPAL, is_given, names_given, spelled_kvno, spelled_selection,
};
use krb_audit::{SelectedKvno, Selection};
use krb_driver::{
    CommandName, CommandWords, DRY_RUN, IN_PLACE, Matches, Mistake, OF_PATTERN, Phrase, V1_BIG,
    Word, WordFault, first_value, refuse_twice, spelled_count, spelled_seconds, typed, v1_order,
};
use krb_wire::Order;
use std::alloc::{Allocator, Global};
use std::marker::Model;

pub const KTREMOVE: CommandWords = CommandWords {
    command: CommandName::Ktremove,
    name: "ktremove",
    about: "Removes entries from keytabs",
    usage: "\
krbfile ktremove [--v1-big] [--in-place] [-n] [-p NAME].. [--match PATTERN].. [-k KVNO|old | --keep N] [--age SECONDS] [-e ETYPE].. [--same] [--none-ok] FILE..",
    after_help: Some(
        "\
Statuses:
  0  The entries were removed; with -k old, --keep, --same or --none-ok: also where there are none
  1  No entry is selected, or a file is missing, too large, damaged or no keytab
  2  The command line is bad
  3  A file, the output or the clock failed
  4  Out of memory
Example: which keys have been replaced by a newer version
  krbfile ktremove -n -k old rotated.keytab",
    ),
    words: &[
        DRY_RUN,
        OF_PRINCIPAL,
        OF_PATTERN,
        Word::Valued(
            "kvno",
            'k',
            "KVNO",
            "Entries of that version; old: those older than the newest",
        ),
        Word::LongValued(
            "keep",
            "N",
            "Entries of none of the N newest versions of their name; 1 is -k old",
        ),
        Word::LongValued(
            "age",
            "SECONDS",
            "With -k old or --keep: where the oldest version that stays has been there so long",
        ),
        OF_ENCTYPE,
        Word::LongFlag(
            "same",
            "Entries that repeat an earlier one, key and all: same of ktcheck",
        ),
        NONE_OK,
        V1_BIG,
        IN_PLACE,
        Word::RequiredOperands("FILE", "The files to remove from"),
    ],
};

/// Which entries ktremove removes.
#[derive(Drop)]
pub struct RemoveOptions<A: Allocator> {
    pub selection: Selection<A>,
    /// It is no failure if there are none.
    pub none_ok: bool,
    /// Print what would be removed, and save nothing.
    pub dry_run: bool,
    /// The byte order of version 1 keytabs.
    pub v1_order: Order,
}

impl<A: Allocator> Model for RemoveOptions<A> {
    ghost use Rattle.krb_editors.specs.Ktremove.{Removal};

    ghost Value = { Removal };

    ghost view = { λ o. record {
      selection = o.selection;
      none_ok = o.none_ok;
      dry_run = o.dry_run;
      v1_order = o.v1_order;
    } };
}

// Refuses `--keep` beside `-k`.
fn refuse_keep<'a, M: Matches<'a>>(matches: &M) -> Result<(), Mistake<'a>>
    ensures { Refuses (odd_keep (M.matched matches.now)) result }
{
    if is_given(matches, "keep") && is_given(matches, "kvno") {
        return Err(Phrase::DOES_NOT_GO_WITH.of_both("--keep", typed(matches, "-k", "--kvno")));
    }
    Ok(())
}

// Refuses `--age` without `-k old` or `--keep`.
fn refuse_age<'a, M: Matches<'a>>(matches: &M) -> Result<(), Mistake<'a>>
    ensures { Refuses (odd_age (M.matched matches.now)) result }
{
    let has_newer = is_given(matches, "keep");
    if is_given(matches, "age") && !has_newer && first_value(matches, "kvno") != Some("old") {
        return Err(Phrase::ONLY_WITH.of_both("--age", "-k old or --keep"));
    }
    Ok(())
}

// Returns whether versions or doubles are asked for.
fn versions_given<'a, M: Matches<'a>>(matches: &M) -> bool
    ensures { result ≡ versions_given (M.matched matches.now) }
{
    is_given(matches, "kvno") | (is_given(matches, "keep") | matches.flag("same"))
}

// Refuses a line that selects nothing.
fn refuse_unselected<'a, M: Matches<'a>>(matches: &M) -> Result<(), Mistake<'a>>
    ensures { Refuses (unselected (M.matched matches.now)) result }
{
    if names_given(matches, "principal")
        | (versions_given(matches) | is_given(matches, "enctype"))
    {
        return Ok(());
    }
    Err(Phrase::NOTHING_SELECTS.of("-p, --match, -k, -e, --keep or --same"))
}

// Refuses options that are given twice or that do not go together, and a line that selects nothing.
fn refuse_odd_options<'a, M: Matches<'a>>(matches: &M) -> Result<(), Mistake<'a>>
    ensures { Refuses (odd_options (M.matched matches.now)) result }
{
    refuse_twice(matches, "kvno", "-k", "--kvno")?;
    refuse_twice(matches, "keep", "--keep", "--keep")?;
    refuse_twice(matches, "age", "--age", "--age")?;
    refuse_keep(matches)?;
    refuse_age(matches)?;
    refuse_unselected(matches)
}

// Returns the kvnos that `-k`, `--keep` and `--age` select.
fn removed_kvno<'a, M: Matches<'a>>(matches: &M) -> Result<SelectedKvno, Mistake<'a>>
    ensures { Spells (removed_kvno (M.matched matches.now)) result }
{
    let age = spelled_seconds(matches, "age")?;
    match spelled_count(matches, "keep")? {
        Some(keep) => Ok(SelectedKvno::Beyond(keep, age)),
        None => spelled_kvno(matches, "old", SelectedKvno::Beyond(1, age)),
    }
}

// Returns a selection of doubles alone, or not.
fn of_same(selection: Selection<Global>, only_same: bool) -> Selection<Global>
    ensures { result ≡ of_same only_same selection }
{
    Selection {
        only_same,
        ..selection
    }
}

/// Returns the options of ktremove. Refuses `-k`, `--keep` or `--age` given twice, `--keep` with `-k`, `--age` without
/// `-k old` or `--keep`, a line that selects nothing, and a bad value.
pub fn remove_options<'a, M: Matches<'a>>(
    alloc: Global,
    matches: &M,
) -> Result<RemoveOptions<Global>, WordFault<'a>>
    ensures { ReadsAs (removal_of (M.matched matches.now)) result }
{
    refuse_odd_options(matches)?;
    let kvno = removed_kvno(matches)?;
    let selection = spelled_selection(alloc, matches, kvno)?;
    Ok(RemoveOptions {
        selection: of_same(selection?, matches.flag("same")),
        none_ok: matches.flag("none-ok"),
        dry_run: matches.flag("dry-run"),
        v1_order: v1_order(matches),
    })
}
