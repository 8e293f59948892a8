//! ktcheck: reports what an administrator should know about keytabs.

pub(crate) mod page;
pub(crate) mod words;

ghost use Rattle.std.specs.Prelude.{◌≡◌};
ghost use Rattle.krb_driver.specs.Commands.{Displays, IsMade};
ghost use Rattle.krb_driver.specs.Composing.{made_effect};
ghost use Rattle.krb_readers.specs.Ktcheck.{ChecksWith, aged_by, check_page, explained_after, explained_by, file_page, found, page_of, plan_of};

use crate::file_page::{FilePage, refused};
use crate::ktcheck::page::{CheckObject, check_lines};
use crate::ktcheck::words::CheckOptions;
use krb_driver::{
    FileError, FileName, KeytabUse, Made, MakeResult, OverFiles, RunEnd, RunError, Verdict, World,
    end_before, run_over, try_open,
};
use krb_files::Files;
use krb_findings::FindingSet;
use std::alloc::Allocator;
use std::io::{Read, Write};

#[derive(Clone, Copy)]
struct CheckFiles<'f, B: Allocator> {
    options: &'f CheckOptions<B>,
    /// The second by which an entry is aged.
    aged_by: Option<u32>,
    are_several: bool,
}

// Returns what is shown of a keytab: its lines, or what JSON is written of, in pieces.
fn shown<'a, 'c, A: Allocator + Copy, B: Allocator>(
    alloc: A,
    are_several: bool,
    file: FileName<'a>,
    object: CheckObject<'c, A, B>,
) -> Result<Made<A, FilePage<A, CheckObject<'c, A, B>>>, FileError<'a>>
    ensures { IsMade (Displays file.entry.name.now (page_of object.entry.options.now are_several object.entry.explained file.entry.name.now
        (found object.entry.options.now object.entry.aged_by object.entry.mode object.entry.keytab.state))) (made_effect (file_page check_page) file.entry.name.now result) }
{
    let options = object.options;
    if options.json {
        return Ok(Made::Shows(FilePage::Object(object)));
    }
    let lines = check_lines(alloc, &object, are_several, file)?;
    Ok(Made::Shows(FilePage::Lines(lines)))
}

// Returns the findings that the end of a file's check explains.
fn explained_by(ending: Result<Verdict, RunError>) -> FindingSet
    ensures { result ≡ explained_by ending }
{
    match ending {
        Ok(Verdict::Found(findings)) => findings.words,
        _ => FindingSet::none(),
    }
}

impl<'c, A: Allocator + Copy, B: Allocator> OverFiles<A> for CheckFiles<'c, B> {
    /// The findings that were explained before.
    type State = FindingSet;

    type Shown = FilePage<A, CheckObject<'c, A, B>>;

    ghost plan = { λ c. plan_of c.options.now c.aged_by c.are_several };

    ghost after = { explained_after };

    fn make<'f, F: Files>(
        &'f self,
        alloc: A,
        explained: FindingSet,
        file: FileName<'f>,
        files: &mut F,
    ) -> MakeResult<'f, A, FilePage<A, CheckObject<'c, A, B>>> {
        let options = self.options;
        let keytab = match try_open(alloc, KeytabUse::Read(options.v1_order), files, file) {
            Ok(keytab) => keytab,
            Err(why) => return refused(options.json, file, why),
        };
        let object = CheckObject {
            options,
            aged_by: self.aged_by,
            explained,
            mode: files.mode(),
            keytab,
        };
        shown(alloc, self.are_several, file, object)
    }

    fn after(explained: FindingSet, end: RunEnd) -> FindingSet
        ensures { result ≡ explained_after explained end }
    {
        explained.and(explained_by(end.ending))
    }
}

// Returns the second by which an entry is aged, if an age is given and the clock is not below it.
fn aged_by(older: Option<u32>, now: Option<u32>) -> Result<Option<u32>, RunError>
    ensures { result ≡ aged_by older now }
{
    match (older, now) {
        (None, _) => Ok(None),
        (Some(_), None) => Err(RunError::ClockNotRead),
        (Some(seconds), Some(now)) => Ok(now.checked_sub(seconds)),
    }
}

/// Prints what an administrator should know about keytabs, a file after the other, and returns the greatest status. With
/// several files each line begins with the name of its file, without a newline; JSON is one object a line. Words explain
/// each finding once, at the first file that has it. `now` is in seconds, or `None` if the clock was not read. Ends early
/// if memory runs out or the output fails.
pub fn run_ktcheck<A: Allocator + Copy, B: Allocator, F: Files, R: Read, W: Write, E: Write>(
    alloc: A,
    options: &CheckOptions<B>,
    now: Option<u32>,
    names: &[FileName<'_>],
    world: &mut World<F, R, W, E>,
) -> u8
    ensures { ChecksWith F.Files options.now world.old world.new result names.now (aged_by options.now.older now) }
{
    let command = match aged_by(options.older, now) {
        Ok(aged_by) => CheckFiles {
            options,
            aged_by,
            are_several: names.len() > 1,
        },
        Err(error) => return end_before(error, None, world),
    };
    run_over(alloc, &command, FindingSet::none(), names, world).status
}
