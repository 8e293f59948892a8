//! Any bytes as printable text.

ghost use Rattle.std.specs.Prelude.{◌≡◌, ◌++◌, [], ◌∷◌, codes};
ghost use Rattle.krb_wire.specs.Text.{AppendedPart};
ghost use Rattle.hex.specs.Hex.{encode_lower};
ghost use Rattle.krb_text.specs.Escape.{escaped, escaped_text};

use crate::bytes::{append, append_byte};
use krb_wire::NoMemory;
use std::alloc::Allocator;

// Returns `\x` and the two hexadecimal digits of a byte.
fn hexadecimal(byte: u8) -> [u8; 4]
    ensures { result ≡ codes "\\x" ++ encode_lower (byte ∷ []) }
{
    let mut text = *b"\\x..";
    hex::encode_to_slice(&[byte], &mut text[2..]).unwrap();
    text
}

fn append_escaped_byte<A: Allocator>(byte: u8, out: &mut Vec<u8, A>) -> Result<(), NoMemory>
    ensures { AppendedPart (escaped byte) out.old out.new result }
{
    match byte {
        b'\\' => append(b"\\\\", out),
        b' '..=b'~' => append_byte(byte, out),
        _ => append(&hexadecimal(byte), out),
    }
}

/// Appends the bytes as printable text, on one line.
pub fn append_escaped<A: Allocator>(bytes: &[u8], out: &mut Vec<u8, A>) -> Result<(), NoMemory>
    ensures { AppendedPart (escaped_text bytes.now) out.old out.new result }
{
    'bytes: for byte in bytes {
        append_escaped_byte(*byte, out)?;
    }
    Ok(())
}
