//! What ktcheck and ktmatch show of a file.

ghost use Rattle.std.specs.Prelude.{◌≡◌, IsFalse};
ghost use Rattle.krb_driver.specs.Commands.{ShowsPage};
ghost use Rattle.krb_driver.specs.Composing.{made_effect};
ghost use Rattle.krb_readers.specs.Ktcheck.{file_page, refused_effect, refused_page};

use krb_driver::{FileError, FileName, Made, Output, RunError, Show, Verdict, append_said};
use krb_files::Watched;
use krb_json::refused_json;
use std::alloc::Allocator;
use std::io::Write;

/// The lines of a file, or its object.
#[derive(Drop)]
pub enum FilePage<A: Allocator, O: Drop> {
    Lines(Output<A>),
    Object(O),
    /// As JSON, a file that gave no keytab, or no cache.
    Refused(RunError),
}

/// Returns what is shown of a file that gave no keytab, or no cache: JSON has an object for it, unless memory ran out.
pub fn refused<'a, A: Allocator + Copy, O: Show<A>>(
    json: bool,
    file: FileName<'a>,
    why: RunError,
) -> Result<Made<A, FilePage<A, O>>, FileError<'a>>
    ensures { made_effect (file_page O.page) file.entry.name.now result ≡ refused_effect json file.entry.name.now why }
{
    if json && !matches!(why, RunError::NoMemory) {
        return Ok(Made::Shows(FilePage::Refused(why)));
    }
    Err(FileError {
        file: file.name,
        error: why,
    })
}

// Prints that object, and returns the error.
fn show_refused<A: Allocator + Copy, W: Write>(
    alloc: A,
    why: RunError,
    file: &str,
    out: &mut Watched<W>,
) -> Result<Verdict, RunError>
    requires { IsFalse out.old.failed }
    ensures { ShowsPage out.old out.new result (refused_page file.now why) }
{
    let mut said = Vec::new(alloc);
    append_said(why, &mut said)?;
    refused_json(alloc, file, &said, why.status(), out)?;
    Err(why)
}

impl<A: Allocator + Copy, O: Show<A>> Show<A> for FilePage<A, O> {
    ghost page = { file_page O.page };

    fn show<W: Write>(
        &self,
        alloc: A,
        file: &str,
        out: &mut Watched<W>,
    ) -> Result<Verdict, RunError> {
        match self {
            FilePage::Lines(output) => output.show(alloc, file, out),
            FilePage::Object(object) => object.show(alloc, file, out),
            FilePage::Refused(why) => show_refused(alloc, *why, file, out),
        }
    }
}
