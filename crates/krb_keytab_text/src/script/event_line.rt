//! The lines of a script for a keytab: each is an event, and `add` has the words of an entry.

ghost use Rattle.std.specs.Prelude.{◌≡◌};
ghost use Rattle.krb_text.specs.LineFault.{Reads};
ghost use Rattle.krb_keytab_text.specs.Script.{entry_in, event_in, addition_of, digits_of, entry_of};

use crate::script::ScriptLine;
use crate::script::command::common_event;
use krb_keytab::NewEntry;
use krb_text::{
    LineFault, LineRefusal, Words, etype_word, is_key, name_word, number_word, parse_key,
};
use krb_walk::Event;
use std::alloc::Allocator;
use std::marker::Model;

// The words after `add`: four words, and the name, which is the rest of the line.
#[derive(Drop)]
struct Addition<'a> {
    kvno: &'a [u8],
    etype: &'a [u8],
    time: &'a [u8],
    key: &'a [u8],
    name: &'a [u8],
}

impl<'a> Model for Addition<'a> {
    ghost use Rattle.krb_keytab_text.specs.Script.{Addition as AdditionWords};

    ghost Value = { AdditionWords };

    ghost view = { λ a. record {
      kvno = a.kvno.now;
      etype = a.etype.now;
      time = a.time.now;
      key = a.key.now;
      name = a.name.now;
    } };
}

// Splits off four words; the rest is the name.
fn addition_of(mut words: Words<'_>) -> Option<Addition<'_>>
    ensures { result ≡ addition_of words.entry }
{
    let kvno = words.next()?;
    let etype = words.next()?;
    let time = words.next()?;
    let key = words.next()?;
    let name = words.rest()?;
    Some(Addition {
        kvno,
        etype,
        time,
        key,
        name,
    })
}

// Returns the digits of a key: none for `-`.
fn digits_of(word: &[u8]) -> &[u8]
    ensures { result.now ≡ digits_of word.now }
{
    if word == b"-".as_slice() { &[] } else { word }
}

// Parses the entry; the first fault, from left to right, is returned.
fn entry_of<A: Allocator + Copy>(alloc: A, words: Addition<'_>) -> Result<NewEntry<A>, LineRefusal>
    ensures { Reads (λ e. e) (entry_of words.entry) result }
{
    let kvno = number_word(words.kvno)?;
    let enctype = etype_word(words.etype)?;
    let timestamp = number_word(words.time)?;
    let digits = digits_of(words.key);
    if !is_key(enctype, digits) {
        return Err(LineFault::BadKey.into());
    }
    // Allocations come last: the key is known to be valid, and `name_word` allocates only once the name is.
    let principal = name_word(alloc, words.name)?;
    let key = parse_key(alloc, enctype, digits)?;
    Ok(NewEntry {
        principal,
        timestamp,
        kvno,
        enctype,
        key,
    })
}

/// Parses the words after `add` as an entry.
pub fn parse_addition<A: Allocator + Copy>(
    alloc: A,
    words: Words<'_>,
) -> Result<NewEntry<A>, LineRefusal>
    ensures { Reads (λ e. e) (entry_in words.entry) result }
{
    entry_of(alloc, addition_of(words).ok_or(LineFault::WordCount)?)
}

// Parses a line as an event.
fn parse_event<A: Allocator + Copy>(
    alloc: A,
    line: &[u8],
) -> Result<Event<NewEntry<A>>, LineRefusal>
    ensures { Reads (λ e. e) (event_in line.now) result }
{
    let mut words = Words::of(line);
    let word = words.next().ok_or(LineFault::UnknownWord)?;
    if word == b"add".as_slice() {
        return Ok(Event::Put(parse_addition(alloc, words)?));
    }
    Ok(common_event(word, words)?)
}

impl<A: Allocator + Copy> ScriptLine<A> for Event<NewEntry<A>> {
    ghost line_in = { event_in };

    fn parse(alloc: A, line: &[u8]) -> Result<Event<NewEntry<A>>, LineRefusal> {
        parse_event(alloc, line)
    }
}
