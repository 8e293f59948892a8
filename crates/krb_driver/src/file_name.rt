//! The names of files: an operand may begin with a type, as in `FILE:/etc/krb5.keytab`.

ghost use Rattle.std.specs.Prelude.{◌==◌, ◌≡◌, ◌<◌, ◌++◌, IfSome, OnOk, false, length, option_copied, option_map};
ghost use Rattle.std.specs.List.{list_any, position_from};
ghost use Rattle.krb_driver.specs.FileNames.{IsNamed, has_type, is_no_letter, is_type, name_byte, shown_name, stripped, type_of, untyped, without_own};

use crate::verdict::FileKind;
use krb_wire::NoMemory;
use std::alloc::Allocator;

/// Where the name of a file comes from.
#[derive(Clone, Copy, Debug, PartialEq, Eq)]
pub enum NameSource {
    /// A word of the command line, or of a line of ktutil.
    Word,
    /// A word with an `@`, of a command that takes principals by `-p`: it may be meant as one.
    LikePrincipal,
    /// KRB5CCNAME in the environment.
    CacheVariable,
    /// KRB5_KTNAME in the environment.
    KeytabVariable,
    /// The default name.
    Default,
}

/// The name of a file without its type; or, of a type that is not read, the whole word, such as `KCM:0`.
#[derive(Clone, Copy)]
pub struct FileName<'a> {
    /// What the file is to be.
    pub kind: FileKind,
    pub name: &'a str,
    pub is_other_type: bool,
    pub source: NameSource,
    /// The file is to be saved in place, so it has to be there.
    pub in_place: bool,
}

fn is_no_letter(byte: u8) -> bool
    ensures { result ≡ is_no_letter byte }
{
    !matches!(byte, b'A'..=b'Z' | b'a'..=b'z')
}

// Returns whether some byte is not a letter.
fn has_other(head: &[u8]) -> bool
    ensures { result ≡ list_any is_no_letter head.now }
{
    head.iter().any(|byte| is_no_letter(*byte))
}

// Returns whether what comes before a colon is a type: two or more letters.
fn is_type(head: &[u8]) -> bool
    ensures { result ≡ is_type head.now }
{
    head.len() > 1 && !has_other(head)
}

// Returns where the first colon is.
fn first_colon(word: &[u8]) -> Option<usize>
    ensures is { result ≡ position_from (λ b. b == 58) 0 word.now }
    ensures within { IfSome result (λ at. at < length word.now) }
{
    word.iter().position(|byte| *byte == b':')
}

/// Returns the type that a word begins with, with its colon.
pub fn type_of(word: &[u8]) -> Option<&[u8]>
    ensures { option_copied result ≡ type_of word.now }
{
    let at = first_colon(word)?;
    if is_type(&word[..at]) {
        Some(&word[..at + 1])
    } else {
        None
    }
}

fn has_type(word: &[u8]) -> bool
    ensures { result ≡ has_type word.now }
{
    type_of(word).is_some()
}

// Returns a word without that prefix, if it begins with it.
#[tactic(auto, using(crate::proofs::Words::strips))]
fn stripped<'a>(word: &'a str, prefix: &str) -> Option<&'a str>
    ensures { option_map (λ rest. rest.now) result ≡ stripped prefix.now word.now }
{
    word.strip_prefix(prefix)
}

// Returns a word without the type that files of that kind alone have, if it begins with that.
fn without_own(kind: FileKind, word: &str) -> Option<&str>
    ensures { option_map (λ rest. rest.now) result ≡ without_own kind word.now }
{
    match kind {
        FileKind::Keytab => stripped(word, "WRFILE:"),
        FileKind::Cache => stripped(word, "DIR::"),
        FileKind::Either => match stripped(word, "WRFILE:") {
            None => stripped(word, "DIR::"),
            name => name,
        },
    }
}

// Returns a word without the type of files that are read, if it begins with that.
fn untyped(kind: FileKind, word: &str) -> Option<&str>
    ensures { option_map (λ rest. rest.now) result ≡ untyped kind word.now }
{
    match stripped(word, "FILE:") {
        None => without_own(kind, word),
        name => name,
    }
}

impl<'a> FileName<'a> {
    /// Returns the name that a word gives: without `FILE:`, of a keytab also without `WRFILE:`, of a cache without `DIR::`,
    /// of either without any of them.
    pub fn of(kind: FileKind, word: &'a str, source: NameSource) -> FileName<'a>
        ensures named { IsNamed kind word.now source result }
        ensures in_place { result.in_place ≡ false }
    {
        match untyped(kind, word) {
            Some(name) => FileName {
                kind,
                name,
                is_other_type: false,
                source,
                in_place: false,
            },
            None => FileName {
                kind,
                name: word,
                is_other_type: has_type(word.as_bytes()),
                source,
                in_place: false,
            },
        }
    }

    /// Returns the same name of a file that is to be saved in place if `in_place`.
    pub fn saved(self, in_place: bool) -> FileName<'a>
        ensures kind { result.kind ≡ self.entry.kind }
        ensures name { result.name.now ≡ self.entry.name.now }
        ensures other { result.is_other_type ≡ self.entry.is_other_type }
        ensures source { result.source ≡ self.entry.source }
        ensures in_place { result.in_place ≡ in_place }
    {
        FileName { in_place, ..self }
    }
}

/// Returns a byte of a file's name as messages show it: a newline as `\x0a`, so that no name makes a line of its own.
pub fn name_byte(byte: &u8) -> &[u8]
    ensures { result.now ≡ name_byte byte.now }
{
    if *byte == b'\n' {
        b"\\x0a"
    } else {
        std::slice::from_ref(byte)
    }
}

/// Appends the name of a file as messages show it.
pub fn append_name<A: Allocator>(name: &[u8], text: &mut Vec<u8, A>) -> Result<(), NoMemory>
    ensures { OnOk result (text.new.items ≡ text.old.items ++ shown_name name.now) }
{
    'bytes: for byte in name {
        text.extend_from_slice(name_byte(byte))?;
    }
    Ok(())
}
