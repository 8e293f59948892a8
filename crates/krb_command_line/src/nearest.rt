//! What was meant by an unknown word.

ghost use Rattle.std.specs.Prelude.{◌≡◌, IfOk, bytes_eq, option_copied};
ghost use Rattle.std.specs.Map.{lookup};
ghost use Rattle.krb_command_line.specs.Nearest.{elsewhere, nearest};

use crate::options::before_equals;
use clap::Command;
use krb_driver::More;
use std::alloc::{AllocError, Global};
use strsim::osa_distance;

// Returns the name that is nearer to a word than every other, and not far from it.
fn nearest<'a>(alloc: Global, word: &str, names: &[&'a str]) -> Result<Option<&'a str>, AllocError>
    ensures { IfOk result (λ found. found ≡ nearest word.now names.now) }
{
    let mut found = None;
    let mut least = 3; // from there on a word is too far
    for name in names {
        let distance = osa_distance(alloc, word, *name)?;
        if distance < least {
            found = Some(*name);
            least = distance;
        } else if distance == least {
            found = None;
        }
    }
    Ok(found)
}

// Returns what does here what a command of that name does in another program.
fn command_elsewhere(word: &str) -> Option<&'static str>
    ensures { option_copied result ≡ lookup (λ name. bytes_eq word.now name) elsewhere }
{
    match word {
        "list" | "ls" => Some("klist"),
        "get" => Some("ktfind"),
        "add" | "copy" | "merge" => Some("ktcopy"),
        "rename" => Some("ktcopy --as"),
        "diff" => Some("ktdiff"),
        "check" => Some("ktcheck"),
        "delete" | "del" | "rm" | "remove" | "ktdel" => Some("ktremove"),
        "purge" => Some("ktremove -k old"),
        _ => None,
    }
}

/// Returns the command that was meant by a word, if another program calls it that, or one is near.
pub fn meant_command<'a>(
    alloc: Global,
    krbfile: &Command<'a>,
    word: &str,
) -> Result<More<'a>, AllocError> {
    if let Some(command) = command_elsewhere(word) {
        return Ok(More::MeantCommand(command));
    }
    // `help` is among the commands, as clap adds it.
    let commands = krbfile.get_subcommands().iter();
    let names: Vec<&'a str> = commands.map(|command| command.get_name()).collect(alloc)?;
    match nearest(alloc, word, &names)? {
        Some(name) => Ok(More::MeantCommand(name)),
        None => Ok(More::Nothing),
    }
}

/// Returns the long option of a command that was meant by a word, if that is one: the one that is near, or alone begins
/// with it.
pub fn meant_option<'a>(
    alloc: Global,
    command: &Command<'a>,
    word: &str,
) -> Result<More<'a>, AllocError> {
    let Some(option) = word.strip_prefix("--") else {
        return Ok(More::Nothing);
    };
    let option = before_equals(option);
    let long = command
        .get_arguments()
        .iter()
        .filter_map(|it| it.get_long());
    let names: Vec<&'a str> = long.filter(|name| *name != "help").collect(alloc)?;
    if let Some(name) = nearest(alloc, option, &names)? {
        return Ok(More::MeantOption(name));
    }
    let mut longer = names.iter().filter(|name| name.starts_with(option));
    match (longer.next(), longer.next()) {
        (Some(name), None) => Ok(More::MeantOption(*name)),
        _ => Ok(More::Nothing),
    }
}
