//! Values of short options that begin with `=`.

ghost use Rattle.std.specs.Prelude.{◌≡◌, IfOk, OnOk, map, option_map, string_bytes};
ghost use Rattle.krb_command_line.specs.Words.{double_equals, doubled};

use crate::bad_line::{command_of, words_behind};
use crate::bundle::bundled_value;
use crate::options::before_equals;
use clap::{Arg, Command};
use std::alloc::{AllocError, Global};

// Returns a bundle with one more `=` before its value, if that begins with one. No letter before it is an `=`.
fn doubled(alloc: Global, options: &[Arg<'_>], word: &str) -> Result<Option<String>, AllocError>
    ensures { IfOk result (λ text. option_map string_bytes text ≡ doubled options.now word.now) }
{
    match bundled_value(options, word) {
        Ok(Some(value)) if value.starts_with('=') => {
            Ok(Some(format!(in alloc; "{}={value}", before_equals(word))?))
        }
        _ => Ok(None),
    }
}

/// Doubles each `=` at the start of a short option's value: clap removes one, as after a long option.
pub fn double_equals(
    alloc: Global,
    krbfile: &Command<'_>,
    words: &mut [String],
) -> Result<(), AllocError>
    ensures { OnOk result (map string_bytes words.new ≡ double_equals krbfile.now words.old) }
{
    let Some(command) = command_of(krbfile, words_behind(words)) else {
        return Ok(());
    };
    let options = command.get_arguments();
    'words: for word in words.iter_mut() {
        if word.as_str() == "--" {
            return Ok(());
        }
        if let Some(text) = doubled(alloc, options, word.as_str())? {
            *word = text;
        }
    }
    Ok(())
}
