//! Parses the options of `add_entry`.

ghost use Rattle.std.specs.Prelude.{◌≡◌, ◌<◌, ◌+◌, ◌∷◌, true, Some, None, IfOk, IfSome, MatchOption, length};
ghost use Rattle.std.specs.Option.{option_copied};
ghost use Rattle.krb_wire.specs.Reading.{principal_parts};
ghost use Rattle.krb_ktutil.specs.KtutilCommand.{AddOptions as Options, words, no_options, is_new_key, with_option, options_in, awaited_by, awaited_of, has_password, key_prompt};
ghost use Rattle.krb_text.specs.LineFault.{Reads};

use crate::ktutil::awaiting::Addition;
use crate::ktutil::words::next_word;
use krb_text::{LineFault, LineRefusal, append, etype_word, name_word, number_word};
use krb_wire::{NoMemory, Principal, write_name};
use std::alloc::Allocator;
use std::marker::Model;

// Whether `-key` is given, and the words after `-p`, `-k` and `-e`.
#[derive(Default, Drop)]
struct AddOptions<'a> {
    key: bool,
    name: Option<&'a [u8]>,
    kvno: Option<&'a [u8]>,
    etype: Option<&'a [u8]>,
}

impl<'a> Model for AddOptions<'a> {
    ghost Value = { Options };

    ghost view = { λ o. record {
      key = o.key;
      name = option_copied o.name;
      version = option_copied o.kvno;
      enctype = option_copied o.etype;
    } };
}

impl<'a> AddOptions<'a> {
    // Returns the options with one more, which has a value, or `None` if it is unknown or given twice.
    fn with(mut self, option: &[u8], word: &'a [u8]) -> Option<AddOptions<'a>>
        ensures { result ≡ with_option self.entry option.now word.now }
    {
        if option == b"-p".as_slice() && self.name.is_none() {
            self.name = Some(word);
        } else if option == b"-k".as_slice() && self.kvno.is_none() {
            self.kvno = Some(word);
        } else if option == b"-e".as_slice() && self.etype.is_none() {
            self.etype = Some(word);
        } else {
            return None;
        }
        Some(self)
    }

    // Returns whether an option is `-key`, for the first time.
    fn is_new_key(&self, option: &[u8]) -> bool
        ensures { result ≡ is_new_key self.now option.now }
    {
        option == b"-key".as_slice() && !self.key
    }

    // Returns the options with one more, and the rest of the line after it.
    #[tactic(auto, using(crate::proofs::WordLemmas::options_in_key))]
    fn take(self, option: &[u8], after: &'a [u8]) -> Option<(AddOptions<'a>, &'a [u8])>
        ensures more { MatchOption result (options_in self.entry (option.now ∷ words after.now) ≡ None)
            (λ x. options_in self.entry (option.now ∷ words after.now) ≡ options_in x.0 (words x.1.now)) }
        ensures shorter { IfSome result (λ x. length x.1.now < length after.now + 1) }
    {
        if self.is_new_key(option) {
            return Some((AddOptions { key: true, ..self }, after));
        }
        let (word, others) = next_word(after)?;
        Some((self.with(option, word)?, others))
    }
}

fn options(rest: &[u8]) -> Option<AddOptions<'_>>
    ensures { result ≡ options_in no_options (words rest.now) }
{
    let mut options = AddOptions::default();
    let mut rest = rest;
    'options: while let Some((option, after)) = next_word(rest) {
        let (more, others) = options.take(option, after)?;
        options = more;
        rest = others;
    }
    Some(options)
}

// Returns the prompt for the key of a name.
fn prompt_for<A: Allocator>(alloc: A, principal: &Principal<A>) -> Result<Vec<u8, A>, NoMemory>
    ensures { IfOk result (λ text. text.items ≡ key_prompt (principal_parts principal.now)) }
{
    let mut text = Vec::new(alloc);
    append(b"Key for ", &mut text)?;
    write_name(principal, &mut text)?;
    append(b" (hex): ", &mut text)?;
    Ok(text)
}

// Parses three words as an entry: first its kvno, then its enctype, then its name.
fn addition_of<A: Allocator + Copy>(
    alloc: A,
    name: &[u8],
    kvno: &[u8],
    etype: &[u8],
) -> Result<Addition<A>, LineRefusal>
    ensures { Reads (λ x. x) (awaited_by true (Some name.now) (Some kvno.now) (Some etype.now)) result }
{
    let kvno = number_word(kvno)?;
    let enctype = etype_word(etype)?;
    let principal = name_word(alloc, name)?;
    let prompt = prompt_for(alloc, &principal)?;
    Ok(Addition {
        principal,
        kvno,
        enctype,
        prompt,
    })
}

/// Returns whether one of the words is just `-password`.
pub fn has_password(rest: &[u8]) -> bool
    ensures { result ≡ has_password (words rest.now) }
{
    let mut rest = rest;
    'words: while let Some((word, after)) = next_word(rest) {
        if word == b"-password".as_slice() {
            return true;
        }
        rest = after;
    }
    false
}

/// Parses the words after `add_entry` as an entry whose key is still to come.
pub fn addition<A: Allocator + Copy>(alloc: A, rest: &[u8]) -> Result<Addition<A>, LineRefusal>
    ensures { Reads (λ x. x) (awaited_of (words rest.now)) result }
{
    let options = options(rest).ok_or(LineFault::WordCount)?;
    let (true, Some(name), Some(kvno), Some(etype)) = (
        options.key,
        options.name,
        options.kvno,
        options.etype,
    ) else {
        return Err(LineFault::WordCount.into());
    };
    addition_of(alloc, name, kvno, etype)
}
