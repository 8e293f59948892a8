//! Appending bytes and numbers to a `Vec`.

ghost use Rattle.std.specs.Prelude.{◌++◌, ◌∷◌, [], decimal};
ghost use Rattle.krb_wire.specs.Text.{Appended, AppendedPart};
ghost use Rattle.krb_text.specs.Numbers.{right_in_4};

use itoa::{Buffer, write_digits};
use krb_wire::NoMemory;
use std::alloc::Allocator;

/// Appends the bytes.
pub fn append<A: Allocator>(bytes: &[u8], out: &mut Vec<u8, A>) -> Result<(), NoMemory>
    ensures { Appended bytes.now out.old out.new result }
{
    Ok(out.extend_from_slice(bytes)?)
}

/// Appends one byte.
pub fn append_byte<A: Allocator>(byte: u8, out: &mut Vec<u8, A>) -> Result<(), NoMemory>
    ensures { Appended (byte ∷ []) out.old out.new result }
{
    Ok(out.push(byte)?)
}

/// Appends `label` and `number` in decimal.
pub fn append_labelled<A: Allocator>(
    label: &[u8],
    number: u32,
    out: &mut Vec<u8, A>,
) -> Result<(), NoMemory>
    ensures { AppendedPart (label.now ++ decimal number) out.old out.new result }
{
    let mut buffer = Buffer::new();
    append(label, out)?;
    append(buffer.format(number).as_bytes(), out)
}

/// Appends a number in decimal, right-aligned in four columns, and a space.
#[inline(always)]
pub fn append_right_in_4<A: Allocator>(number: u64, out: &mut Vec<u8, A>) -> Result<(), NoMemory>
    ensures { Appended (right_in_4 number ++ 32 ∷ []) out.old out.new result }
{
    let mut text = [b' '; 21];
    let start = write_digits(number, &mut text, 20);
    if start < 16 {
        return append(&text[start..], out);
    }
    // There are rarely more than four digits: a slice of this fixed length is copied without a call.
    append(&text[16..], out)
}
