//! A file that could not be checked as JSON.

ghost use Rattle.std.specs.Prelude.{◌≡◌, ◌++◌, Some, IfOk, OnOk, IsFalse};
ghost use Rattle.json.specs.Json.{document};
ghost use Rattle.json.specs.Tree.{json_tokens};
ghost use Rattle.krb_text.specs.Gathered.{Prints};
ghost use Rattle.krb_json.specs.Check.{refused_value, refused_json_text};
ghost use Rattle.krb_json.specs.Escaped.{json_text};

use crate::piece::Piece;
use crate::put::Label;
use krb_files::{OutFault, Watched, put};
use krb_wire::NoMemory;
use std::alloc::Allocator;
use std::io::Write;

impl<A: Allocator> Piece<A> {
    // Writes a file that could not be checked as an object.
    #[tactic(auto, unfolding(crate::specs::Check::refused_value))]
    fn refused(&mut self, file: &str, error: &[u8], status: u8) -> Result<(), NoMemory>
        ensures { OnOk result (self.new ≡ self.old ++ json_tokens (refused_value file.now error.now status)) }
    {
        self.begin_object()?;
        self.string("file", file)?;
        self.text(Label::Error, error)?;
        self.number("status", status as u64)?;
        self.end_object()
    }
}

// Returns the text of a file that could not be checked, and a newline.
fn refused_text<A: Allocator + Copy>(
    alloc: A,
    file: &str,
    error: &[u8],
    status: u8,
) -> Result<Vec<u8, A>, NoMemory>
    ensures { IfOk result (λ text. text.items ≡ refused_json_text file.now error.now status) }
{
    let mut piece = Piece::new(alloc);
    let mut text = Vec::new(alloc);
    piece.refused(file, error, status)?;
    piece.append_to(false, &mut text)?;
    text.push(b'\n')?;
    Ok(text)
}

/// Writes a file that could not be checked as one JSON object (RFC 8259) and a newline: its name, the error, and the
/// status that it comes to. If a write fails, a prefix of the text has been written.
#[tactic(auto, using(crate::proofs::ReadBack::refused_is_read))]
pub fn refused_json<A: Allocator + Copy, W: Write>(
    alloc: A,
    file: &str,
    error: &[u8],
    status: u8,
    out: &mut Watched<W>,
) -> Result<(), OutFault>
    requires { IsFalse out.old.failed }
    ensures prints { Prints out.old out.new result (refused_json_text file.now error.now status) }
    // A reader parses the text as this value.
    ensures reads_back { document (json_text (refused_value file.now error.now status))
        ≡ Some (refused_value file.now error.now status) }
{
    let text = refused_text(alloc, file, error, status)?;
    put(out, &text)
}
