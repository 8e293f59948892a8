//! ktfind: looks up an entry in a keytab.

ghost use Rattle.krb_driver.specs.Commands.{Runs, always, any, IsMade};
ghost use Rattle.krb_driver.specs.Composing.{text_effect};
ghost use Rattle.krb_readers.specs.Ktfind.{entry_sought_of, finds, ktfind_plan};
ghost use Rattle.krb_driver.specs.Spelled.{ReadsAs};

use krb_driver::{
    Command, CommandName, CommandWords, FileError, FileKind, FileName, KeytabUse, Made, MakeResult,
    Matches, Output, RunError, V1_BIG, Verdict, Word, WordFault, World, open, run, spelled_etype,
    spelled_name, spelled_version, v1_order,
};
use krb_files::Files;
use krb_keytab::Keytab;
use krb_keytab_text::found_text;
use krb_wire::{Order, Principal};
use std::alloc::{Allocator, Global};
use std::io::{Read, Write};
use std::marker::Model;

pub const KTFIND: CommandWords = CommandWords {
    command: CommandName::Ktfind,
    name: "ktfind",
    about: "Finds an entry in a keytab",
    usage: "krbfile ktfind [--v1-big] FILE KVNO ETYPE NAME",
    after_help: Some(
        "\
Statuses:
  0  The entry was found
  1  There is no such entry, or the file is missing, too large, damaged or no keytab
  2  The command line is bad
  3  The file or the output failed
  4  Out of memory
Example: the newest key of b@R, of whatever type
  krbfile ktfind host.keytab 0 0 b@R",
    ),
    words: &[
        V1_BIG,
        Word::Operand("FILE", "The file to look in"),
        Word::Operand("KVNO", "The key version, 0 for the highest"),
        Word::Operand("ETYPE", "The encryption type by name or number, 0 for any"),
        Word::Operand("NAME", "The principal, with its realm"),
    ],
};

#[derive(Drop)]
pub struct FindOptions<A: Allocator> {
    pub name: Principal<A>,
    /// 0 for the highest.
    pub kvno: u32,
    /// 0 for any.
    pub enctype: u16,
    /// The byte order of version 1 keytabs.
    pub v1_order: Order,
}

impl<A: Allocator> Model for FindOptions<A> {
    ghost use Rattle.krb_wire.specs.Reading.{principal_parts};
    ghost use Rattle.krb_readers.specs.Ktfind.{EntrySought};

    ghost Value = { EntrySought };

    ghost view = { λ o. record {
      name = principal_parts o.name;
      kvno = o.kvno;
      enctype = o.enctype;
      v1_order = o.v1_order;
    } };
}

/// Parses the words of ktfind: a kvno, an enctype, and a principal with its realm.
pub fn find_options<'a, M: Matches<'a>>(
    alloc: Global,
    matches: &M,
) -> Result<FindOptions<Global>, WordFault<'a>>
    ensures { ReadsAs (entry_sought_of (M.matched matches.now)) result }
{
    let kvno = spelled_version(matches.operand("KVNO"))?;
    let enctype = spelled_etype(matches.operand("ETYPE"))?;
    let name = spelled_name(alloc, matches.operand("NAME"))?;
    Ok(FindOptions {
        name: name?,
        kvno,
        enctype,
        v1_order: v1_order(matches),
    })
}

#[derive(Clone, Copy)]
struct FindEntry<'f, B: Allocator> {
    options: &'f FindOptions<B>,
    file: FileName<'f>,
}

// Looks up the entry and returns its line.
fn find<'a, A: Allocator, B: Allocator>(
    alloc: A,
    command: &FindEntry<'a, B>,
    keytab: &Keytab<A>,
) -> Result<Made<A, Output<A>>, FileError<'a>>
    ensures { IsMade (finds command.now.options.now command.now.file.name.now keytab.now.state)
        (text_effect command.now.file.name.now result) }
{
    let options = command.options;
    match keytab.find(&options.name, options.kvno, options.enctype) {
        Ok((place, entry)) => Ok(Made::Shows(Output {
            text: found_text(alloc, place, &entry)?,
            verdict: Verdict::Well,
        })),
        Err(code) => Err(FileError {
            file: command.file.name,
            error: RunError::Refused(FileKind::Keytab, code),
        }),
    }
}

impl<'f, A: Allocator + Copy, B: Allocator> Command<A> for FindEntry<'f, B> {
    type Shown = Output<A>;

    ghost file = { λ c. c.file.name.now };

    ghost plan = { λ c mode. ktfind_plan c.options.now c.file };

    fn file(&self) -> &str {
        self.file.name
    }

    fn make<F: Files>(&self, alloc: A, files: &mut F) -> MakeResult<'_, A, Self::Shown> {
        let options = self.options;
        let keytab = open(alloc, KeytabUse::Read(options.v1_order), files, self.file)?;
        find(alloc, self, &keytab)
    }
}

/// Looks up an entry in the keytab `file`, prints it, and returns the exit status.
#[tactic(auto, unfolding(krb_driver::specs::Commands::always))]
pub fn run_ktfind<A: Allocator + Copy, B: Allocator, F: Files, R: Read, W: Write, E: Write>(
    alloc: A,
    options: &FindOptions<B>,
    file: FileName<'_>,
    world: &mut World<F, R, W, E>,
) -> u8
    ensures { Runs F.Files (always (ktfind_plan options.now file.entry)) any world.old world.new result }
{
    run(alloc, &FindEntry { options, file }, world)
}
