//! The command lines, for clap.

use clap::{Arg, ArgAction, Command};
use krb_driver::{CommandWords, Word};
use std::alloc::{AllocError, Global};

/// The version, and the toolchain that proves and compiles it.
const VERSION: &str = "2.0 (rattle logic dac8208d650f15bf)";

fn operands<'a>(alloc: Global, name: &'static str, help: &'static str) -> Arg<'a> {
    Arg::new(alloc, name)
        .num_args(1..)
        .action(ArgAction::Append)
        .help(help)
}

fn flag<'a>(alloc: Global, name: &'static str, help: &'static str) -> Arg<'a> {
    let flag = Arg::new(alloc, name).long(name).help(help);
    flag.action(ArgAction::SetTrue)
}

fn valued<'a>(
    alloc: Global,
    name: &'static str,
    value: &'static str,
    help: &'static str,
) -> Arg<'a> {
    let option = Arg::new(alloc, name).long(name).help(help);
    option.value_name(value).action(ArgAction::Append)
}

fn arg_of<'a>(alloc: Global, word: Word) -> Arg<'a> {
    match word {
        Word::Flag(name, letter, help) => flag(alloc, name, help).short(letter),
        Word::LongFlag(name, help) => flag(alloc, name, help),
        Word::Valued(name, letter, value, help) => valued(alloc, name, value, help).short(letter),
        Word::LongValued(name, value, help) => valued(alloc, name, value, help),
        Word::Operand(name, help) => Arg::new(alloc, name).required(true).help(help),
        Word::Operands(name, help) => operands(alloc, name, help),
        Word::RequiredOperands(name, help) => operands(alloc, name, help).required(true),
    }
}

fn command_of<'a>(alloc: Global, line: &CommandWords) -> Result<Command<'a>, AllocError> {
    let mut command = Command::new(alloc, line.name)
        .about(line.about)
        .override_usage(line.usage)
        .args_override_self(true);
    if let Some(text) = line.after_help {
        command = command.after_help(text);
    }
    for word in line.words {
        command = command.arg(arg_of(alloc, *word))?;
    }
    command.arg(explain(alloc).hide(true))
}

// Returns the option that shows words, before a command or behind it.
fn explain<'a>(alloc: Global) -> Arg<'a> {
    flag(
        alloc,
        "explain",
        "Explain errors in words, as on a terminal",
    )
}

/// Returns the command lines of the commands: if the word is a command's name, only that command's, so that a run does
/// not build the others, and otherwise all.
pub fn krbfile_command<'a>(
    alloc: Global,
    lines: &[CommandWords],
    word: Option<&str>,
) -> Result<Command<'a>, AllocError> {
    let mut krbfile = Command::new(alloc, "krbfile")
        .version(VERSION)
        .about("Lists and edits Kerberos keytabs and credential caches")
        .subcommand_required(true)
        .arg(explain(alloc))?;
    let is_alone = lines.iter().any(|line| word == Some(line.name));
    for line in lines {
        if !is_alone || word == Some(line.name) {
            krbfile = krbfile.subcommand(command_of(alloc, line)?)?;
        }
    }
    Ok(krbfile)
}
