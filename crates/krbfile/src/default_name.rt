//! The name of a file that a command line leaves out.

ghost use Rattle.std.specs.Prelude.{◌≡◌, ◌<◌, ◌==◌, IfSome, length, string_bytes};
ghost use Rattle.std.specs.List.{position_from};
ghost use Rattle.std.specs.Result.{result_map_both};
ghost use Rattle.krb_driver.specs.Mistakes.{in_command};
ghost use Rattle.krbfile.specs.DefaultNames.{GivesName, IsCacheName, IsCacheOf, IsFile, first_number, parts_of, user_in, variable_of};

use krb_commands::{DefaultName, FileKind, FileName, LeftOut, NameSource, Phrase, WordFault};
use krb_text::{Lines, parse_u32};
use std::alloc::Global;
use std::env::VarError;
use std::io::ErrorKind;
use std::{env, fs, io, rt};

/// The keytab of a host.
const KEYTAB: &str = "/etc/krb5.keytab";

/// What the system reports of a process. Its user numbers are in the line `Uid:`, first the real one.
const STATUS: &str = "/proc/self/status";

/// A name that no word gives, or why there is none.
#[derive(Drop)]
pub struct FoundName {
    kind: FileKind,
    source: NameSource,
    text: Result<String, WordFault<'static>>,
}

impl FoundName {
    /// Returns none: no file is left out.
    pub fn none() -> FoundName {
        FoundName {
            kind: FileKind::Keytab,
            source: NameSource::Default,
            text: Err(WordFault::from(Phrase::MISSING.of("FILE"))),
        }
    }

    /// Returns the file of that name, or why there is none.
    pub fn file(&self) -> DefaultName<'_>
        ensures { IsFile self.now result }
    {
        match &self.text {
            Ok(text) => Ok(FileName::of(self.kind, text.as_str(), self.source)),
            Err(fault) => Err(*fault),
        }
    }
}

// Returns where the first tab is.
fn first_tab(text: &[u8]) -> Option<usize>
    ensures is { result ≡ position_from (λ b. b == 9) 0 text.now }
    ensures within { IfSome result (λ at. at < length text.now) }
{
    text.iter().position(|byte| *byte == b'\t')
}

// Returns the number before a first tab.
fn first_number(numbers: &[u8]) -> Option<u32>
    ensures { result ≡ first_number numbers.now }
{
    match first_tab(numbers) {
        Some(end) => parse_u32(&numbers[..end]),
        None => parse_u32(numbers),
    }
}

// Returns the number of the real user, by what the system reports of a process.
fn user_in(status: &[u8]) -> Option<u32>
    ensures { result ≡ user_in status.now }
{
    'lines: for line in Lines::of(status) {
        if line.starts_with(b"Uid:\t") {
            return first_number(&line[5..]);
        }
    }
    None
}

// Returns the default name of the cache of a user, if one is known.
fn cache_of(alloc: Global, user: Option<u32>) -> Result<String, WordFault<'static>>
    ensures { IsCacheOf user (result_map_both string_bytes (λ fault. fault) result) }
{
    match user {
        Some(user) => Ok(format!(in alloc; "/tmp/krb5cc_{user}")?),
        None => Err(WordFault::from(Phrase::MISSING.of("FILE"))),
    }
}

// Returns the default name of a user's cache, by what was read of the process.
fn cache_name(alloc: Global, status: io::Result<Vec<u8>>) -> Result<String, WordFault<'static>>
    ensures { IsCacheName (result_map_both (λ bytes. bytes.items) (λ error. error) status) (result_map_both string_bytes (λ fault. fault) result) }
{
    match status {
        Ok(status) => cache_of(alloc, user_in(&status)),
        Err(error) if matches!(error.kind(), ErrorKind::OutOfMemory) => Err(WordFault::NoMemory),
        Err(_) => cache_of(alloc, None),
    }
}

// Returns the default name of a file of that kind.
fn default_text<R: rt::Files + AllocGlobal>(
    rt: &R,
    kind: FileKind,
) -> Result<String, WordFault<'static>> {
    match kind {
        FileKind::Keytab => Ok(String::from_str(rt.alloc(), KEYTAB)?),
        FileKind::Cache | FileKind::Either => cache_name(rt.alloc(), fs::read(rt, STATUS)),
    }
}

// Returns a default name as a found one; the reason why there is none gets the command's name.
fn default_name(
    kind: FileKind,
    command: &'static str,
    text: Result<String, WordFault<'static>>,
) -> FoundName
    ensures { parts_of result ≡ (kind, NameSource.Default, result_map_both string_bytes (in_command command.entry) text.entry) }
{
    FoundName {
        kind,
        source: NameSource::Default,
        text: match text {
            Ok(text) => Ok(text),
            Err(fault) => Err(fault.in_command(command)),
        },
    }
}

// Returns the variable that names a file of that kind, and what a name in it comes from.
fn variable_of(kind: FileKind) -> (&'static str, NameSource)
    ensures { (result.0.now, result.1) ≡ variable_of kind }
{
    match kind {
        FileKind::Keytab => ("KRB5_KTNAME", NameSource::KeytabVariable),
        FileKind::Cache | FileKind::Either => ("KRB5CCNAME", NameSource::CacheVariable),
    }
}

// Returns the name that the environment's answer gives, or why it gives none. A variable that is not set or is empty
// leaves it to the default.
fn given_name(
    file: LeftOut,
    command: &'static str,
    answer: Result<String, VarError>,
) -> Option<FoundName>
    ensures { GivesName file command.now (result_map_both string_bytes (λ error. error) answer) result }
{
    let (variable, source) = variable_of(file.default);
    let text = match answer {
        Ok(text) if text.as_str() == "" => return None,
        Err(VarError::NotPresent) => return None,
        Ok(text) => Ok(text),
        Err(VarError::NotUnicode) => {
            Err(WordFault::from(Phrase::VARIABLE_NOT_TEXT.of(variable)).in_command(command))
        }
        Err(VarError::OutOfMemory) => Err(WordFault::NoMemory),
    };
    Some(FoundName {
        kind: file.kind(),
        source,
        text,
    })
}

/// Returns the name of a file that the line of that command leaves out: the one in the environment, or else the default.
pub fn found_name<R: rt::Env + rt::Files + AllocGlobal>(
    rt: &R,
    file: LeftOut,
    command: &'static str,
) -> FoundName {
    match given_name(file, command, env::var(rt, variable_of(file.default).0)) {
        Some(found) => found,
        None => default_name(file.kind(), command, default_text(rt, file.default)),
    }
}
