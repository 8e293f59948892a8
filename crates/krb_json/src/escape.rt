//! Escapes the control characters that JSON allows as they are: 7f, and U+0080 to U+009F.

ghost use Rattle.std.specs.Prelude.{◌≡◌, ◌++◌, false, OnOk};
ghost use Rattle.krb_wire.specs.Controls.{escaped};
ghost use Rattle.krb_wire.specs.declared.controls.Style.TheVariants.{Json};

use arrayvec::ArrayVec;
use krb_wire::NoMemory;
use krb_wire::controls::{FIRST, Style, add};
use memchr::memchr2;
use std::alloc::Allocator;

const DELETE: u8 = 0x7f;

// Appends a text, escaped.
#[tactic(auto, unfolding(krb_wire::specs::Controls::escaped))]
fn append_slowly<A: Allocator>(text: &[u8], out: &mut Vec<u8, A>) -> Result<(), NoMemory>
    ensures { OnOk result (out.new.items ≡ out.old.items ++ escaped Json false text.now) }
{
    let mut holds = false;
    'bytes: for byte in text {
        let mut shown = ArrayVec::<u8, 9>::new();
        holds = add(Style::Json, *byte, holds, &mut shown);
        out.extend_from_slice(shown.as_slice())?;
    }
    if holds {
        out.push(FIRST)?;
    }
    Ok(())
}

/// Appends a text of JSON, in which those characters are escaped.
#[tactic(auto, using(crate::proofs::EscapedLemmas::escaped_plain))]
pub fn append_escaped<A: Allocator>(text: &[u8], out: &mut Vec<u8, A>) -> Result<(), NoMemory>
    ensures { OnOk result (out.new.items ≡ out.old.items ++ escaped Json false text.now) }
{
    let Some(_) = memchr2(DELETE, FIRST, text) else {
        return Ok(out.extend_from_slice(text)?);
    };
    append_slowly(text, out)
}
