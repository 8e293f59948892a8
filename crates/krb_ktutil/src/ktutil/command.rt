//! Parses the words after a command.

ghost use Rattle.std.specs.Prelude.{◌≡◌};
ghost use Rattle.krb_driver.specs.Loading.{result_map};
ghost use Rattle.krb_ktutil.specs.KtutilCommand.{words, after, are_none, only, file_word, slot_of, plain_columns, with_column, columns_in};
ghost use Rattle.krb_text.specs.Word.{number_word};

use crate::ktutil::words::next_word;
use krb_keytab_text::KtColumns;
use krb_text::{LineFault, number_word};

/// Returns whether there is no word.
pub fn is_bare(rest: &[u8]) -> bool
    ensures { result ≡ are_none (words rest.now) }
{
    next_word(rest).is_none()
}

// Returns the word, if there is exactly one.
fn only(rest: &[u8]) -> Result<&[u8], LineFault>
    ensures { result_map (λ word. word.now) result ≡ only (words rest.now) }
{
    let (word, after) = next_word(rest).ok_or(LineFault::WordCount)?;
    if is_bare(after) {
        Ok(word)
    } else {
        Err(LineFault::WordCount)
    }
}

/// Parses the only word as the name of a file, with its type if it has one.
#[tactic(auto, using(crate::proofs::WordLemmas::utf8))]
pub fn file_name(rest: &[u8]) -> Result<&str, LineFault>
    ensures { result_map (λ name. name.now) result ≡ after file_word (only (words rest.now)) }
{
    match str::from_utf8(only(rest)?) {
        Ok(name) => Ok(name),
        Err(_) => Err(LineFault::BadFileName),
    }
}

/// Parses the only word as one of `count` slots, counted from 1.
pub fn slot(rest: &[u8], count: usize) -> Result<u32, LineFault>
    ensures { result ≡ after (slot_of count) (after number_word (only (words rest.now))) }
{
    let slot = number_word(only(rest)?)?;
    if 0 < slot && slot as usize <= count {
        Ok(slot)
    } else {
        Err(LineFault::BadSlot)
    }
}

fn with_column(mut columns: KtColumns, option: &[u8]) -> Option<KtColumns>
    ensures { result ≡ with_column columns option.now }
{
    if option == b"-t".as_slice() && !columns.times {
        columns.times = true;
    } else if option == b"-k".as_slice() && !columns.keys {
        columns.keys = true;
    } else if option == b"-e".as_slice() && !columns.etypes {
        columns.etypes = true;
    } else {
        return None;
    }
    Some(columns)
}

/// Parses the options of a listing. Each may be given once.
pub fn columns(rest: &[u8]) -> Option<KtColumns>
    ensures { result ≡ columns_in plain_columns (words rest.now) }
{
    let mut columns = KtColumns::default();
    let mut rest = rest;
    'options: while let Some((option, after)) = next_word(rest) {
        columns = with_column(columns, option)?;
        rest = after;
    }
    Some(columns)
}
