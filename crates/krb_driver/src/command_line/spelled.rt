//! What words of a command line spell.

ghost use Rattle.std.specs.Prelude.{◌≡◌, ◌++◌, ◌∷◌, [], IfOk, IsOkAnd, map};
ghost use Rattle.std.specs.Vec.{vec_items};
ghost use Rattle.krb_wire.specs.Reading.{principal_parts};
ghost use Rattle.krb_driver.specs.Mistakes.{first_value};
ghost use Rattle.krb_driver.specs.Spelled.{Spells, SpellsInMemory, count_in, each, printed_name, selected_etypes, spelled_asked, spelled_count, spelled_etype, spelled_etypes, spelled_name, spelled_pattern, spelled_seconds, spelled_version, weak_etypes};

use crate::command_line::matches::{Matches, first_value};
use crate::command_line::mistake::{Mistake, Phrase};
use krb_names::{AskedNames, parse_pattern};
use krb_text::{etype_of, parse_seconds, parse_u32};
use krb_wire::{NameFault, NoMemory, Principal, parse_name, write_name};
use std::alloc::Global;

/// What words spell, unless an allocation failed; or else the first mistake in them.
pub type Spelled<'a, T> = Result<Result<T, NoMemory>, Mistake<'a>>;

/// Parses a word as a principal name with a realm.
pub fn spelled_name<'a>(alloc: Global, word: &'a str) -> Spelled<'a, Principal<Global>>
    ensures { SpellsInMemory principal_parts (spelled_name word.now) result }
{
    match parse_name(alloc, word.as_bytes(), None) {
        Ok(name) => Ok(Ok(name)),
        Err(NameFault::NoMemory) => Ok(Err(NoMemory)),
        Err(fault) => Err(Phrase::FAULTY_NAME.of_both(word, fault.phrase())),
    }
}

// Parses a word as a pattern of principal names with a realm.
fn spelled_pattern<'a>(alloc: Global, word: &'a str) -> Spelled<'a, Principal<Global>>
    ensures { SpellsInMemory principal_parts (spelled_pattern word.now) result }
{
    match parse_pattern(alloc, word.as_bytes()) {
        Ok(pattern) => Ok(Ok(pattern)),
        Err(NameFault::NoMemory) => Ok(Err(NoMemory)),
        Err(fault) => Err(Phrase::FAULTY_NAME.of_both(word, fault.phrase())),
    }
}

// Parses a word as a principal name with a realm, and returns it as it is printed.
#[tactic(auto, using(crate::proofs::Spelled::mapped_err))]
fn printed_name<'a>(alloc: Global, word: &'a str) -> Spelled<'a, Vec<u8>>
    ensures { SpellsInMemory vec_items (printed_name word.now) result }
{
    let Ok(name) = spelled_name(alloc, word)? else {
        return Ok(Err(NoMemory));
    };
    let mut text = Vec::new(alloc);
    match write_name(&name, &mut text) {
        Ok(()) => Ok(Ok(text)),
        Err(error) => Ok(Err(error)),
    }
}

// Returns values with one more, unless an allocation failed for one of them.
fn added<T: Drop>(
    values: Result<Vec<T>, NoMemory>,
    value: Result<T, NoMemory>,
) -> Result<Vec<T>, NoMemory>
    ensures { IfOk result (λ all. IsOkAnd values (λ values. IsOkAnd value (λ value. all.items ≡ values.items ++ value ∷ []))) }
{
    let mut values = values?;
    values.push(value?)?;
    Ok(values)
}

/// Parses the values of an option as principal names with a realm, and returns these as they are printed.
pub fn spelled_names<'a, M: Matches<'a>>(
    alloc: Global,
    matches: &M,
    option: &str,
) -> Spelled<'a, Vec<Vec<u8>>>
    ensures { SpellsInMemory (λ names. map vec_items names.items) (each printed_name ((M.matched matches.now).values option.now)) result }
{
    let words = matches.values(option);
    let mut names = Ok(Vec::new(alloc));
    'words: for word in words {
        let name = printed_name(alloc, *word)?;
        names = added(names, name);
    }
    Ok(names)
}

// Parses the values of an option as patterns of principal names with a realm.
fn spelled_patterns<'a, M: Matches<'a>>(
    alloc: Global,
    matches: &M,
    option: &str,
) -> Spelled<'a, Vec<Principal<Global>>>
    ensures { SpellsInMemory (λ patterns. map principal_parts patterns.items) (each spelled_pattern ((M.matched matches.now).values option.now)) result }
{
    let words = matches.values(option);
    let mut patterns = Ok(Vec::new(alloc));
    'words: for word in words {
        let pattern = spelled_pattern(alloc, *word)?;
        patterns = added(patterns, pattern);
    }
    Ok(patterns)
}

// Returns the names of those texts and patterns, unless memory ran out on the way.
fn asked_names(
    texts: Result<Vec<Vec<u8>>, NoMemory>,
    patterns: Result<Vec<Principal<Global>>, NoMemory>,
) -> Result<AskedNames<Global>, NoMemory>
    ensures texts { IfOk result (λ asked. IsOkAnd texts (λ texts. map vec_items texts.items ≡ asked.texts)) }
    ensures patterns { IfOk result (λ asked. IsOkAnd patterns (λ patterns. map principal_parts patterns.items ≡ asked.patterns)) }
{
    Ok(AskedNames {
        texts: texts?,
        patterns: patterns?,
    })
}

/// Parses the values of an option as principal names with a realm, and those of `--match` as patterns.
pub fn spelled_asked<'a, M: Matches<'a>>(
    alloc: Global,
    matches: &M,
    option: &str,
) -> Spelled<'a, AskedNames<Global>>
    ensures { SpellsInMemory (λ asked. asked) (spelled_asked (M.matched matches.now) option.now) result }
{
    let texts = spelled_names(alloc, matches, option)?;
    let patterns = spelled_patterns(alloc, matches, "match")?;
    Ok(asked_names(texts, patterns))
}

/// Parses a word as an encryption type, by name or number.
pub fn spelled_etype<'a>(word: &'a str) -> Result<u16, Mistake<'a>>
    ensures { Spells (spelled_etype word.now) result }
{
    match etype_of(word.as_bytes()) {
        Some(etype) => Ok(etype),
        None => Err(Phrase::NO_ETYPE.of(word)),
    }
}

// Returns the weak encryption types.
#[tactic(auto, unfolding(krb_text::specs::Etype::etype_table))]
fn weak_etypes(alloc: Global) -> Result<Vec<u16>, NoMemory>
    ensures { IfOk result (λ etypes. etypes.items ≡ weak_etypes) }
{
    Ok(vec![in alloc; 1, 2, 3, 4, 6, 8, 16, 23, 24]?)
}

// Parses a word as `weak`, in either case, which selects all weak encryption types, or as one type.
fn selected_etypes<'a>(alloc: Global, word: &'a str) -> Spelled<'a, Vec<u16>>
    ensures { SpellsInMemory vec_items (selected_etypes word.now) result }
{
    if word.as_bytes().eq_ignore_ascii_case(b"weak") {
        return Ok(weak_etypes(alloc));
    }
    let etype = spelled_etype(word)?;
    Ok(added(Ok(Vec::new(alloc)), Ok(etype)))
}

// Returns encryption types with more, unless an allocation failed for one of them.
fn joined(
    etypes: Result<Vec<u16>, NoMemory>,
    more: Result<Vec<u16>, NoMemory>,
) -> Result<Vec<u16>, NoMemory>
    ensures { IfOk result (λ all. IsOkAnd etypes (λ etypes. IsOkAnd more (λ more. all.items ≡ etypes.items ++ more.items))) }
{
    let mut etypes = etypes?;
    etypes.extend_from_slice(&more?)?;
    Ok(etypes)
}

/// Parses the values of an option as encryption types, by name or number, or `weak` for all weak ones.
pub fn spelled_etypes<'a, M: Matches<'a>>(
    alloc: Global,
    matches: &M,
    option: &str,
) -> Spelled<'a, Vec<u16>>
    ensures { SpellsInMemory vec_items (spelled_etypes ((M.matched matches.now).values option.now)) result }
{
    let words = matches.values(option);
    let mut etypes = Ok(Vec::new(alloc));
    'words: for word in words {
        let more = selected_etypes(alloc, *word)?;
        etypes = joined(etypes, more);
    }
    Ok(etypes)
}

/// Parses a word as a version.
pub fn spelled_version<'a>(word: &'a str) -> Result<u32, Mistake<'a>>
    ensures { Spells (spelled_version word.now) result }
{
    match parse_u32(word.as_bytes()) {
        Some(version) => Ok(version),
        None => Err(Phrase::NO_VERSION.of(word)),
    }
}

// Parses a word as a number from 1 to 255.
fn parse_count(word: &[u8]) -> Option<u8>
    ensures { result ≡ count_in word.now }
{
    match u8::try_from(parse_u32(word)?) {
        Ok(count) if count > 0 => Some(count),
        _ => None,
    }
}

/// Parses the first value of an option, if there is one, as a count from 1 to 255.
pub fn spelled_count<'a, M: Matches<'a>>(
    matches: &M,
    option: &str,
) -> Result<Option<u8>, Mistake<'a>>
    ensures { Spells (spelled_count (first_value (M.matched matches.now) option.now)) result }
{
    let Some(word) = first_value(matches, option) else {
        return Ok(None);
    };
    match parse_count(word.as_bytes()) {
        Some(count) => Ok(Some(count)),
        None => Err(Phrase::NO_COUNT.of(word)),
    }
}

/// Parses the first value of an option, if there is one, as a time in seconds.
pub fn spelled_seconds<'a, M: Matches<'a>>(
    matches: &M,
    option: &str,
) -> Result<Option<u32>, Mistake<'a>>
    ensures { Spells (spelled_seconds (first_value (M.matched matches.now) option.now)) result }
{
    let Some(word) = first_value(matches, option) else {
        return Ok(None);
    };
    match parse_seconds(word.as_bytes()) {
        Some(seconds) => Ok(Some(seconds)),
        None => Err(Phrase::NO_TIME.of(word)),
    }
}
