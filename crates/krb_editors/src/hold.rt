//! hold: prints the image of a file to another program, and saves the one that this gives back.

ghost use Rattle.std.specs.Prelude.{◌≡◌, ◌⊎◌, bytes_eq, Err, Some, option_map};
ghost use Rattle.krb_driver.specs.declared.error.RunError.TheVariants.{NoMemory};
ghost use Rattle.krb_driver.specs.Loading.{EndsLoads, result_map};
ghost use Rattle.krb_files.specs.Files.{answer_of};
ghost use Rattle.krb_editors.specs.Hold.{ChecksHold, EditsHeld, Exchanges, Receives, RunsHold, SavesIf, held_in};
ghost use Rattle.krb_editors.specs.HoldEnds.{end_of};

mod frame;
mod images;
mod last_line;
pub(crate) mod words;

use crate::hold::frame::{MOST_FRAME, print_frame};
use crate::hold::images::{given_by, whole};
use crate::hold::last_line::{Outcome, tell_end};
use crate::hold::words::HoldKind;
use krb_driver::{
    Details, FileError, FileName, Opener, RunError, Verdict, World, details_of, give, hold_if,
    read_input, release, report,
};
use krb_files::{Cause, Files, LoadFault, Watched, WatchedReader};
use krb_wire::USUAL_LIMIT;
use std::alloc::Allocator;
use std::io::{Read, Write};

impl HoldKind {
    // Gives the image of what was loaded. A missing keytab that is not to be saved in place gives that of an empty one.
    fn opened<A: Allocator + Copy>(
        self,
        alloc: A,
        in_place: bool,
        loaded: Result<Vec<u8, A>, LoadFault>,
    ) -> Result<Vec<u8, A>, RunError>
        ensures gives { (result_map (λ image. image.items) result ≡ Err NoMemory)
            ⊎ (result_map (λ image. image.items) result ≡ held_in self in_place (answer_of loaded)) }
        ensures ends { EndsLoads (held_in self in_place) }
    {
        match loaded {
            Ok(image) => whole(self, image),
            Err(LoadFault::Missing) if matches!(self, HoldKind::Keytab(_)) && !in_place => {
                Vec::from_slice(alloc, &[5, 2]).map_err(|_| RunError::NoMemory)
            }
            Err(fault) => Err(RunError::from(fault)),
        }
    }
}

impl<A: Allocator + Copy> Opener<A> for HoldKind {
    ghost use Rattle.std.specs.Prelude.{List, ℕ};
    ghost use Rattle.krb_editors.specs.Hold.{held_in};

    type Opened = Vec<u8, A>;

    ghost State = { List ℕ };

    ghost state_of = { λ image. image.items };

    ghost gives = { held_in };

    fn load<F: Files>(
        &self,
        alloc: A,
        in_place: bool,
        files: &mut F,
        name: &str,
    ) -> Result<Vec<u8, A>, RunError> {
        let loaded = files.load(alloc, name, USUAL_LIMIT);
        self.opened(alloc, in_place, loaded)
    }
}

// Fails if the held file could not be saved, as far as its hold shows.
fn check_hold<'a, F: Files>(files: &mut F, file: FileName<'a>) -> Result<(), FileError<'a>>
    ensures { ChecksHold F.Files file.entry.name.now files.old (end_of result) files.new }
{
    files.check_hold().map_err(|fault| FileError {
        file: file.name,
        error: RunError::from(fault),
    })
}

// Reads the input to its end, and returns the image that it gives, unless it is empty.
fn receive<A: Allocator, R: Read>(
    alloc: A,
    kind: HoldKind,
    input: &mut WatchedReader<R>,
) -> Result<Option<Vec<u8, A>>, RunError>
    ensures { Receives kind input.old input.new (result_map (λ given. option_map (λ image. image.items) given) result) }
{
    let text = match read_input(alloc, input, MOST_FRAME) {
        Ok(text) => text,
        Err(fault) => return Err(RunError::of_input(fault)),
    };
    if text.is_empty() {
        return Ok(None);
    }
    Ok(Some(given_by(kind, text)?))
}

// Saves an image, unless it is the one that was loaded.
fn save_other<'a, F: Files>(
    files: &mut F,
    file: FileName<'a>,
    loaded: &[u8],
    image: &[u8],
) -> Result<Outcome, FileError<'a>>
    ensures { SavesIf F.Files file.entry.name.now loaded.now files.old files.new (end_of result) (bytes_eq image.now loaded.now) image.now }
{
    if image == loaded {
        return Ok(Outcome::Left);
    }
    match files.save(file.name, image) {
        Ok(()) => Ok(Outcome::Saved),
        Err(fault) => Err(FileError {
            file: file.name,
            error: RunError::from(fault),
        }),
    }
}

// Prints an image that was loaded, and then saves the one that the input gives back.
fn exchange<'a, A: Allocator, F: Files, R: Read, W: Write, E: Write>(
    alloc: A,
    kind: HoldKind,
    loaded: &[u8],
    file: FileName<'a>,
    world: &mut World<F, R, W, E>,
) -> Result<Outcome, FileError<'a>>
    requires { F.Files.held world.old.files ≡ Some file.name.now }
    ensures { Exchanges F.Files kind file.entry world.new (end_of result) world.old loaded.now }
{
    if let Err(error) = print_frame(loaded, &mut world.out) {
        return Err(FileError {
            file: file.name,
            error,
        });
    }
    match receive(alloc, kind, &mut world.input) {
        Ok(None) => Ok(Outcome::Left),
        Ok(Some(image)) => save_other(&mut world.files, file, loaded, &image),
        Err(error) => Err(FileError {
            file: "input",
            error,
        }),
    }
}

// Holds a file, loads it, and lets the other program change it.
fn edit_held<'a, A: Allocator + Copy, F: Files, R: Read, W: Write, E: Write>(
    alloc: A,
    kind: HoldKind,
    file: FileName<'a>,
    world: &mut World<F, R, W, E>,
) -> Result<Outcome, FileError<'a>>
    ensures { EditsHeld F.Files kind file.entry world.new (end_of result) world.old }
{
    let files = &mut world.files;
    hold_if(true, files, file);
    let loaded = match give(alloc, kind, files, file) {
        Ok(loaded) => loaded,
        Err(met) => return Err(met),
    };
    match check_hold(files, file) {
        Ok(()) => exchange(alloc, kind, &loaded, file, world),
        Err(met) => Err(met),
    }
}

// Returns the details of a run that ended so, with the cause of the input if that failed.
fn details_of_hold<'a, F: Files, W: Write>(
    ending: &Result<Verdict, RunError>,
    files: &'a F,
    out: &Watched<W>,
    input: Option<Cause>,
) -> Details<'a>
    ensures { result.aftermath ≡ F.Files.aftermath files.now }
{
    let details = details_of(ending, files, out);
    match ending {
        Err(RunError::InputNotRead) => Details {
            cause: input,
            ..details
        },
        _ => details,
    }
}

/// Holds a file of that kind, prints the frame of its image, reads a frame from the input to its end, saves the image in
/// that, and returns the exit status. An empty input leaves the file as it was. The hold lasts from before the load
/// until then. A last line says how the run ended.
pub fn run_hold<A: Allocator + Copy, F: Files, R: Read, W: Write, E: Write>(
    alloc: A,
    kind: HoldKind,
    file: FileName<'_>,
    world: &mut World<F, R, W, E>,
) -> u8
    ensures { RunsHold F.Files world.old world.new result kind file.entry }
{
    let done = edit_held(alloc, kind, file, world);
    release(&mut world.files);
    let (ending, named) = match done {
        Ok(_) => (Ok(Verdict::Well), file.name),
        Err(met) => (Err(met.error), met.file),
    };
    let input = world.input.cause();
    let details = details_of_hold(&ending, &world.files, &world.out, input);
    let status = report(ending, named.as_bytes(), None, details, &mut world.err);
    tell_end(
        done,
        status,
        details.cause,
        details.aftermath,
        &mut world.out,
    );
    status
}
