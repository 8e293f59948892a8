//! Which entries the words of a command select, and their new name and version.

ghost use Rattle.std.specs.Prelude.{◌≡◌, codes, option_map};
ghost use Rattle.krb_wire.specs.Reading.{principal_parts};
ghost use Rattle.krb_driver.specs.Mistakes.{first_value};
ghost use Rattle.krb_driver.specs.Spelled.{Spells, SpellsInMemory};
ghost use Rattle.krb_editors.specs.Selecting.{is_given, is_of_any, names_given, one_name_given, selection_of, spelled_kvno, spelled_new_kvno, spelled_new_name};

use krb_audit::{SelectedKvno, Selection};
use krb_driver::{
    Matches, Mistake, Spelled, Word, first_value, spelled_asked, spelled_etypes, spelled_name,
    spelled_version, times_given,
};
use krb_wire::{NoMemory, Principal};
use std::alloc::{Allocator, Global};

pub const OF_PRINCIPAL: Word = Word::Valued(
    "principal",
    'p',
    "NAME",
    "Entries of that principal, with its realm; may be repeated",
);

pub const OF_ENCTYPE: Word = Word::Valued(
    "enctype",
    'e',
    "ETYPE",
    "Entries of that encryption type, by name or number; weak: of any weak one; may be repeated",
);

pub const NONE_OK: Word = Word::LongFlag("none-ok", "It is no failure if nothing is selected");

pub fn is_given<'a, M: Matches<'a>>(matches: &M, name: &str) -> bool
    ensures { result ≡ is_given (M.matched matches.now) name.now }
{
    times_given(matches, name) > 0
}

/// Returns whether names are given, by that option or by patterns.
pub fn names_given<'a, M: Matches<'a>>(matches: &M, option: &str) -> bool
    ensures { result ≡ names_given (M.matched matches.now) option.now }
{
    is_given(matches, option) | is_given(matches, "match")
}

/// Returns whether just one name is given, and no pattern.
pub fn one_name_given<'a, M: Matches<'a>>(matches: &M) -> bool
    ensures { result ≡ one_name_given (M.matched matches.now) }
{
    times_given(matches, "principal") == 1 && times_given(matches, "match") == 0
}

/// Returns whether a selection is of any name and any encryption type.
pub fn is_of_any<A: Allocator>(selection: &Selection<A>) -> bool
    ensures { result ≡ is_of_any selection.now }
{
    selection.names.is_any() && selection.enctypes.is_empty()
}

/// Returns the kvnos that the value of `-k` selects, or `Any` without one. The word `name` selects `named`.
pub fn spelled_kvno<'a, M: Matches<'a>>(
    matches: &M,
    name: &str,
    named: SelectedKvno,
) -> Result<SelectedKvno, Mistake<'a>>
    ensures { Spells (spelled_kvno name.now named (first_value (M.matched matches.now) (codes "kvno"))) result }
{
    match first_value(matches, "kvno") {
        None => Ok(SelectedKvno::Any),
        Some(word) if word == name => Ok(named),
        Some(word) => Ok(SelectedKvno::Exactly(spelled_version(word)?)),
    }
}

/// Returns the selection of these kvnos, and of the enctypes and names that `-e`, `-p` and `--match` spell.
pub fn spelled_selection<'a, M: Matches<'a>>(
    alloc: Global,
    matches: &M,
    kvno: SelectedKvno,
) -> Spelled<'a, Selection<Global>>
    ensures { SpellsInMemory (λ selection. selection) (selection_of kvno (M.matched matches.now)) result }
{
    let enctypes = spelled_etypes(alloc, matches, "enctype")?;
    let names = spelled_asked(alloc, matches, "principal")?;
    match (names, enctypes) {
        (Ok(names), Ok(enctypes)) => Ok(Ok(Selection {
            names,
            kvno,
            enctypes,
            only_same: false,
        })),
        _ => Ok(Err(NoMemory)),
    }
}

/// Returns the new name of what is copied, if one is given.
#[tactic(auto, using(krb_driver::proofs::Spelled::mapped_err))]
pub fn spelled_new_name<'a, M: Matches<'a>>(
    alloc: Global,
    matches: &M,
) -> Spelled<'a, Option<Principal<Global>>>
    ensures { SpellsInMemory (option_map principal_parts) (spelled_new_name (first_value (M.matched matches.now) (codes "as"))) result }
{
    let Some(word) = first_value(matches, "as") else {
        return Ok(Ok(None));
    };
    Ok(spelled_name(alloc, word)?.map(Some))
}

/// Returns the new version of what is copied, if one is given.
pub fn spelled_new_kvno<'a, M: Matches<'a>>(matches: &M) -> Result<Option<u32>, Mistake<'a>>
    ensures { Spells (spelled_new_kvno (first_value (M.matched matches.now) (codes "as-kvno"))) result }
{
    match first_value(matches, "as-kvno") {
        None => Ok(None),
        Some(word) => Ok(Some(spelled_version(word)?)),
    }
}
