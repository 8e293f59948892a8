//! What a command is, the world that it runs in, and the driver that runs one.

ghost use Rattle.std.specs.Prelude.{◌≡◌, ℕ, List};
ghost use Rattle.krb_driver.specs.Commands.{EndsCommand, Finishes, Runs, Settles, ShowsEnd, reported_aftermath, Effect, Page, about, is_save};
ghost use Rattle.krb_driver.specs.Composing.{made_effect, ready_end};

use crate::error::{RunError, is_spent};
use crate::file_name::FileName;
use crate::holding::release;
use crate::reporting::details::{Details, details_of};
use crate::reporting::{ErrorOutput, report, show};
use crate::verdict::Verdict;
use krb_files::{Files, Watched, WatchedReader};
use krb_wire::NoMemory;
use std::alloc::Allocator;
use std::io::{Read, Write};

/// The files and the streams of a run.
#[derive(Drop)]
pub struct World<F: Files, R: Read, W: Write, E: Write> {
    pub files: F,
    /// The input of scripts, and of the lines of ktutil.
    pub input: WatchedReader<R>,
    pub out: Watched<W>,
    /// Where errors are reported.
    pub err: ErrorOutput<E>,
}

/// An error, and the file that it is about.
#[derive(Clone, Copy)]
pub struct FileError<'a> {
    pub file: &'a str,
    pub error: RunError,
}

impl<'a> FileError<'a> {
    ghost use Rattle.krb_driver.specs.RunErrors.{error_of_name};

    /// Returns the error of the file of that name.
    pub fn of(file: FileName<'a>, error: RunError) -> FileError<'a>
        ensures file { result.file.now ≡ file.entry.name.now }
        ensures error { result.error ≡ error_of_name file.entry.source error }
    {
        FileError {
            file: file.name,
            error: error.of_name(file.source),
        }
    }
}

impl<'a> From<NoMemory> for FileError<'a> {
    ghost use Rattle.krb_driver.specs.declared.error.RunError.TheVariants as error;

    ghost from_gives = { λ _ met. met.error ≡ error.NoMemory };

    fn from(_no_memory: NoMemory) -> FileError<'a> {
        FileError {
            file: "",
            error: RunError::NoMemory,
        }
    }
}

/// A finished text, and the verdict of the run that prints it.
#[derive(Drop)]
pub struct Output<A: Allocator> {
    pub text: Vec<u8, A>,
    pub verdict: Verdict,
}

/// How a run ended, and its exit status.
#[derive(Clone, Copy)]
pub struct RunEnd {
    pub ending: Result<Verdict, RunError>,
    pub status: u8,
}

/// What `Command::make` returns: what to show, or what to save.
#[derive(Drop)]
pub enum Made<A: Allocator, S: Drop> {
    /// Save nothing, and show this.
    Shows(S),
    /// Save the image, then print the text.
    Saves(Vec<u8, A>, Output<A>),
}

/// What a command made, or the error that it met.
pub type MakeResult<'a, A, S> = Result<Made<A, S>, FileError<'a>>;

// What is left to show after the save.
#[derive(Drop)]
enum Ready<A: Allocator, S: Drop> {
    Shows(S),
    Prints(Output<A>),
}

/// What a run shows at its end.
pub trait Show<A: Allocator + Copy>: Drop {
    ghost use Rattle.std.specs.Prelude.{ℕ, List, IsFalse};
    ghost use Rattle.krb_driver.specs.Commands.{ShowsPage, Page};

    /// The page that it shows for the file of that name.
    ghost page: { Self → List ℕ → Page };

    /// Prints it.
    fn show<W: Write>(
        &self,
        alloc: A,
        file: &str,
        out: &mut Watched<W>,
    ) -> Result<Verdict, RunError>
        requires { IsFalse out.old.failed }
        ensures { ShowsPage out.old out.new result (page self.now file.now) };
}

impl<A: Allocator + Copy> Show<A> for Output<A> {
    ghost use Rattle.krb_driver.specs.Composing.{output_page};

    ghost page = { λ shown file. output_page shown };

    fn show<W: Write>(
        &self,
        alloc: A,
        file: &str,
        out: &mut Watched<W>,
    ) -> Result<Verdict, RunError> {
        show(&self.text, Ok(self.verdict), out)
    }
}

/// A command: a plan over files, what it shows, and the file that it saves.
pub trait Command<A: Allocator + Copy> {
    ghost use Rattle.std.specs.Prelude.{◌≡◌, ℕ, List, Option};
    ghost use Rattle.krb_driver.specs.Commands.{MakesFairly, any, CommandPlan};
    ghost use Rattle.krb_driver.specs.Composing.{made_effect};
    ghost use Rattle.krb_files.specs.Loading.{Answer};

    /// What it shows.
    type Shown: Show<A>;

    /// The name of its file, which its messages give; it saves no other.
    ghost file: { Self → List ℕ };

    /// Its plan, by the mode of the file that it loads last, which ktcheck reports.
    ghost plan: { Self → Option ℕ → CommandPlan };

    /// What else holds of the results of its loads.
    ghost fairly: { Self → List Answer → Type 0 } = { λ _. any };

    /// Returns the name of its file.
    fn file(&self) -> &str
        ensures { result.now ≡ file self.now };

    /// Loads its files, holds those that it may change, and returns what to save and show.
    fn make<F: Files>(&self, alloc: A, files: &mut F) -> MakeResult<'_, A, Self::Shown>
        ensures { MakesFairly F.Files files.old (plan self.now (F.Files.mode files.new)) (fairly self.now)
            (made_effect Self.Shown.page (file self.now) result) files.new };
}

// Saves what was made, if it is to be saved, and returns what is left to show.
fn settle<'a, A: Allocator, S: Drop, F: Files>(
    file: &'a str,
    made: Result<Made<A, S>, FileError<'a>>,
    files: &mut F,
) -> Result<Ready<A, S>, FileError<'a>>
    ensures { (page : S → List ℕ → Page) → Settles F.Files files.old (made_effect page file.now made.entry) files.new
        (ready_end page file.now result) }
{
    match made {
        Ok(Made::Shows(shown)) => Ok(Ready::Shows(shown)),
        Ok(Made::Saves(image, text)) => match files.save(file, &image) {
            Ok(()) => Ok(Ready::Prints(text)),
            Err(fault) => Err(FileError {
                file,
                error: RunError::from(fault),
            }),
        },
        Err(met) => Err(met),
    }
}

// Returns whether what was made is to be saved.
fn is_save<A: Allocator, S: Drop>(made: &Result<Made<A, S>, FileError<'_>>) -> bool
    ensures { (page : S → List ℕ → Page) (file : List ℕ) → result ≡ is_save (made_effect page file made.now) }
{
    matches!(made, Ok(Made::Saves(_, _)))
}

// Returns what to report of a run, or of a line of ktutil: each reports only what its own save left behind.
fn details_to_report<'a>(
    line: Option<u64>,
    saves: bool,
    ending: &Result<Verdict, RunError>,
    details: Details<'a>,
) -> Details<'a>
    ensures { (effect : Effect) → saves ≡ is_save effect → result.aftermath ≡ reported_aftermath line effect ending.now details.entry.aftermath }
{
    if saves && (line.is_none() || !is_spent(ending)) {
        return details;
    }
    Details {
        aftermath: None,
        ..details
    }
}

// Returns the file that the messages name: the error's, or else the command's.
fn about<'a, A: Allocator, S: Drop>(
    ready: &Result<Ready<A, S>, FileError<'a>>,
    file: &'a str,
) -> &'a str
    ensures { (page : S → List ℕ → Page) → result.now ≡ about (ready_end page file.now ready.now) }
{
    match ready {
        Ok(_) => file,
        Err(met) => met.file,
    }
}

// Prints what a command shows, or returns its error.
fn show_ready<A: Allocator + Copy, S: Show<A>, W: Write>(
    alloc: A,
    file: &str,
    ready: Result<Ready<A, S>, FileError<'_>>,
    out: &mut Watched<W>,
) -> Result<Verdict, RunError>
    ensures { ShowsEnd out.old out.new result (ready_end S.page file.now ready.entry) }
{
    if out.has_failed() {
        return Err(RunError::OutputNotWritten);
    }
    match ready {
        Ok(Ready::Shows(shown)) => shown.show(alloc, file, out),
        Ok(Ready::Prints(text)) => text.show(alloc, file, out),
        Err(met) => Err(met.error),
    }
}

/// Does what was made for `file`, at the end of a run or of that line of ktutil: saves it if it is to be saved,
/// releases the files, shows what is left, reports errors and what the save left behind on the error output, and returns
/// how that ended. Prints nothing before the release, as the reader of the output may be slow. A failure to report changes nothing else.
pub fn finish<A: Allocator + Copy, S: Show<A>, F: Files, R: Read, W: Write, E: Write>(
    alloc: A,
    file: &str,
    line: Option<u64>,
    made: Result<Made<A, S>, FileError<'_>>,
    world: &mut World<F, R, W, E>,
) -> RunEnd
    ensures finishes { Finishes F.Files line (made_effect S.page file.now made.entry) world.old.files world.new.files
        world.old.out world.new.out world.old.err world.new.err result }
    ensures input { world.new.input ≡ world.old.input }
{
    let saves = is_save(&made);
    let ready = settle(file, made, &mut world.files);
    release(&mut world.files);
    let named = about(&ready, file);
    let ending = show_ready(alloc, file, ready, &mut world.out);
    let details = details_of(&ending, &world.files, &world.out);
    let details = details_to_report(line, saves, &ending, details);
    let status = report(ending, named.as_bytes(), line, details, &mut world.err);
    RunEnd { ending, status }
}

// Runs a command, and returns how it ended and its exit status.
fn run_to_end<A: Allocator + Copy, C: Command<A>, F: Files, R: Read, W: Write, E: Write>(
    alloc: A,
    command: &C,
    world: &mut World<F, R, W, E>,
) -> RunEnd
    ensures { EndsCommand F.Files (C.plan command.now) (C.fairly command.now) world.old world.new result }
{
    let made = command.make(alloc, &mut world.files);
    finish(alloc, command.file(), None, made, world)
}

/// Runs a command, and returns its exit status.
pub fn run<A: Allocator + Copy, C: Command<A>, F: Files, R: Read, W: Write, E: Write>(
    alloc: A,
    command: &C,
    world: &mut World<F, R, W, E>,
) -> u8
    ensures { Runs F.Files (C.plan command.now) (C.fairly command.now) world.old world.new result }
{
    run_to_end(alloc, command, world).status
}
