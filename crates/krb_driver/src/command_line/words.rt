//! The words of a command, as help shows them.

/// An option: its long name, its letter and the name of its value if it has them, and its help text. Or an operand.
#[derive(Clone, Copy)]
pub enum Word {
    Flag(&'static str, char, &'static str),
    LongFlag(&'static str, &'static str),
    Valued(&'static str, char, &'static str, &'static str),
    LongValued(&'static str, &'static str, &'static str),
    Operand(&'static str, &'static str),
    /// It may be left out, and given as often as wanted.
    Operands(&'static str, &'static str),
    /// It is given at least once.
    RequiredOperands(&'static str, &'static str),
}

/// The commands.
#[derive(Clone, Copy)]
pub enum CommandName {
    Klist,
    Show,
    Ktmatch,
    Ktedit,
    Ktfind,
    Ktremove,
    Ktcopy,
    Ktdiff,
    Ktcheck,
    Ccedit,
    Ccremove,
    Ktutil,
    Hold,
}

/// A command: its name, its help text, its usage, the help text after that, and its words.
#[derive(Clone, Copy)]
pub struct CommandWords {
    pub command: CommandName,
    pub name: &'static str,
    pub about: &'static str,
    pub usage: &'static str,
    pub after_help: Option<&'static str>,
    pub words: &'static [Word],
}

/// The flag `--v1-big`.
pub const V1_BIG: Word = Word::LongFlag("v1-big", "Version 1 files are big-endian");

/// The flag `--in-place`.
pub const IN_PLACE: Word = Word::LongFlag(
    "in-place",
    "Write the file where it stands, and make no new one",
);

/// The flag `-n`, `--dry-run`.
pub const DRY_RUN: Word = Word::Flag("dry-run", 'n', "Show what would be removed; change nothing");

/// The option `--match`, beside that of names.
pub const OF_PATTERN: Word = Word::LongValued(
    "match",
    "PATTERN",
    "Those whose name and realm fit, with * for any bytes; may be repeated",
);
