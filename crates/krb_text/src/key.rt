//! Keys as hexadecimal text.

ghost use Rattle.std.specs.Prelude.{◌≡◌, ◌+◌, ◌*◌, ◌^◌, ◌≤◌, MatchOption, is_ok, is_some, length};
ghost use Rattle.std.specs.Char.{is_ascii_hexdigit};
ghost use Rattle.std.specs.List.{list_all};
ghost use Rattle.hex.specs.Hex.{decode_of};
ghost use Rattle.krb_wire.specs.Text.{Appended};
ghost use Rattle.krb_text.specs.Etype.{key_text_of, key_in, is_key_size};
ghost use Rattle.krb_text.specs.LineFault.{Reads};
ghost use Rattle.krb_text.specs.Word.{key_word};

use crate::etype::key_size;
use crate::line_fault::{LineFault, LineRefusal};
use krb_wire::NoMemory;
use std::alloc::Allocator;

// Writes the text of the key to `room`, which is exactly as long.
fn fill_text(key: &[u8], room: &mut [u8])
    requires { length room.old ≡ 2 + 2 * length key.now }
    ensures { room.new ≡ key_text_of key.now }
{
    room[..2].copy_from_slice(b"0x");
    hex::encode_to_slice(key, &mut room[2..]).unwrap();
}

// Returns where the text of a key of `key` bytes ends if it begins at `start`, or `None` on overflow.
fn end_of(start: usize, key: usize) -> Option<usize>
    ensures { MatchOption result (2 ^ 64 ≤ start + 2 + 2 * key)
        (λ end. end ≡ start + 2 + 2 * key) }
{
    key.checked_mul(2)?.checked_add(2)?.checked_add(start)
}

/// Appends `0x` and the key's bytes in lower-case hexadecimal.
pub fn key_text<A: Allocator>(key: &[u8], out: &mut Vec<u8, A>) -> Result<(), NoMemory>
    ensures { Appended (key_text_of key.now) out.old out.new result }
{
    let start = out.len();
    let Some(end) = end_of(start, key.len()) else {
        return Err(NoMemory);
    };
    out.resize(end, 0)?;
    fill_text(key, &mut out[start..]);
    Ok(())
}

// Whether a key of the enctype may have `size` bytes. Any size will do if the enctype's is not known.
fn is_key_size(etype: u16, size: usize) -> bool
    ensures { result ≡ is_key_size etype size }
{
    key_size(etype).is_none_or(|right| size == right)
}

fn are_hex_digits(text: &[u8]) -> bool
    ensures { result ≡ list_all is_ascii_hexdigit text.now }
{
    text.iter().all(u8::is_ascii_hexdigit)
}

// Whether the text is bytes in hexadecimal, two digits each.
fn is_hexadecimal(text: &[u8]) -> bool
    ensures { result ≡ is_ok (decode_of text.now) }
{
    text.len() % 2 == 0 && are_hex_digits(text)
}

/// Returns whether `digits` is a key of the enctype in hexadecimal.
pub fn is_key(etype: u16, digits: &[u8]) -> bool
    ensures { result ≡ is_some (key_in etype digits.now) }
{
    is_hexadecimal(digits) && is_key_size(etype, digits.len() / 2)
}

/// Returns the key that `digits` is in hexadecimal, in either case. If the table has the enctype, the key must have
/// that enctype's size.
pub fn parse_key<A: Allocator>(
    alloc: A,
    etype: u16,
    digits: &[u8],
) -> Result<Vec<u8, A>, LineRefusal>
    ensures { Reads (λ key. key.items) (key_word etype digits.now) result }
{
    if !is_key(etype, digits) {
        return Err(LineFault::BadKey.into());
    }
    hex::decode(alloc, digits).map_err(|_| LineRefusal::NoMemory)
}
