//! An image as programs hand it to each other: its length, a newline, and its bytes.

ghost use Rattle.std.specs.Prelude.{◌≡◌, ◌==◌, ◌<◌, ◌≤◌, IfSome, Ok, length, option_map};
ghost use Rattle.std.specs.List.{position_from};
ghost use Rattle.krb_driver.specs.declared.verdict.Verdict.TheVariants.{Well};
ghost use Rattle.krb_driver.specs.Messages.{pieces_text};
ghost use Rattle.krb_driver.specs.Runs.{Shows};
ghost use Rattle.krb_editors.specs.Hold.{framed, frame, head_len};

use krb_driver::MessagePiece::{self, Number, Operand, Text};
use krb_driver::{RunError, Verdict, write_pieces};
use krb_files::Watched;
use krb_text::parse_u32;
use std::alloc::Allocator;
use std::io::Write;

/// The most bytes of a frame of an image that is not too large: ten digits, a newline, and 16 MiB.
pub const MOST_FRAME: u32 = 16_777_227;

fn frame_of(image: &[u8]) -> [MessagePiece<'_>; 3]
    ensures { pieces_text result ≡ frame image.now }
{
    [Number(image.len() as u64), Text("\n"), Operand(image)]
}

pub fn print_frame<W: Write>(image: &[u8], out: &mut Watched<W>) -> Result<Verdict, RunError>
    ensures { Shows (record { out = frame image.now; ending = Ok Well }) out.old out.new result }
{
    write_pieces(&frame_of(image), out);
    if out.has_failed() {
        return Err(RunError::OutputNotWritten);
    }
    Ok(Verdict::Well)
}

fn first_newline(text: &[u8]) -> Option<usize>
    ensures is { result ≡ position_from (λ b. b == 10) 0 text.now }
    ensures within { IfSome result (λ end. end < length text.now) }
{
    text.iter().position(|byte| *byte == b'\n')
}

// Returns the length of what comes before the image in a frame, if the text is just one frame.
fn head_len(text: &[u8]) -> Option<usize>
    ensures is { result ≡ head_len text.now }
    ensures within { IfSome result (λ head. head ≤ length text.now) }
{
    let end = first_newline(text)?;
    let len = parse_u32(&text[..end])?;
    let head = end + 1;
    if text.len() - head == len as usize {
        Some(head)
    } else {
        None
    }
}

/// Returns the image in a frame, in its memory, if the text is just one frame.
pub fn image_in<A: Allocator>(text: Vec<u8, A>) -> Option<Vec<u8, A>>
    ensures { option_map (λ image. image.items) result ≡ framed text.items }
{
    let head = head_len(&text)?;
    let mut image = text;
    drop(image.drain(..head));
    Some(image)
}
