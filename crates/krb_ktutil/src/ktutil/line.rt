//! What a line of ktutil comes to.

ghost use Rattle.std.specs.Prelude.{◌≡◌, [], false};
ghost use Rattle.krb_driver.specs.Commands.{Displays, Fails, text};
ghost use Rattle.krb_driver.specs.declared.verdict.Verdict.TheVariants.{Well};
ghost use Rattle.krb_ktutil.specs.KtutilPlan.{line_effect};

use krb_driver::{FileError, Made, Output, RunError, Verdict};
use std::alloc::Allocator;

/// What a line comes to: what is to be shown or saved.
#[derive(Drop)]
pub struct Line<'l, A: Allocator> {
    /// The file that it reads or writes, or an empty name.
    pub file: &'l str,
    pub made: Result<Made<A, Output<A>>, FileError<'l>>,
    /// No line comes after it.
    pub quits: bool,
}

impl<'l, A: Allocator> Line<'l, A> {
    /// Returns that of a line that prints a text.
    pub fn prints(out: Vec<u8, A>) -> Line<'l, A>
        ensures effect { line_effect result ≡ Displays [] (text out.items Well) }
        ensures quits { result.quits ≡ false }
    {
        Line {
            file: "",
            made: Ok(Made::Shows(Output {
                text: out,
                verdict: Verdict::Well,
            })),
            quits: false,
        }
    }

    /// Returns that of a line that prints nothing.
    pub fn done(alloc: A) -> Line<'l, A>
        ensures effect { line_effect result ≡ Displays [] (text [] Well) }
        ensures quits { result.quits ≡ false }
    {
        Line::prints(Vec::new(alloc))
    }

    /// Returns that of a line with an error about a file, or about the empty name.
    pub fn fails(file: &'l str, error: RunError) -> Line<'l, A>
        ensures effect { line_effect result ≡ Fails file.now error }
        ensures quits { result.quits ≡ false }
    {
        Line {
            file,
            made: Err(FileError { file, error }),
            quits: false,
        }
    }
}
