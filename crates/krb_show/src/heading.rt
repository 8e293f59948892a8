//! What the first line of a view says of a file.

ghost use Rattle.std.specs.Prelude.{◌≡◌, ◌++◌, OnOk};
ghost use Rattle.krb_show.specs.Heading.{count_note, mode_note};

use itoa::Buffer;
use krb_audit::{append_mode_digits, is_open_file, is_open_to_all};
use krb_text::append;
use krb_wire::NoMemory;
use std::alloc::Allocator;

/// Appends a number and words about it, unless it is 0.
pub fn append_count_note<A: Allocator>(
    count: usize,
    words: &[u8],
    out: &mut Vec<u8, A>,
) -> Result<(), NoMemory>
    ensures { OnOk result (out.new.items ≡ out.old.items ++ count_note count words.now) }
{
    if count == 0 {
        return Ok(());
    }
    append(b", ", out)?;
    append(Buffer::new().format(count).as_bytes(), out)?;
    append(words, out)
}

/// Appends the mode of a plain file that group or others may read or write.
pub fn append_mode_note<A: Allocator>(
    mode: Option<u32>,
    out: &mut Vec<u8, A>,
) -> Result<(), NoMemory>
    ensures { OnOk result (out.new.items ≡ out.old.items ++ mode_note mode) }
{
    match mode {
        Some(bits) if is_open_file(mode) => {
            append(b", mode ", out)?;
            append_mode_digits(bits, out)?;
            append(if is_open_to_all(mode) { b"!" } else { b"" }, out)
        }
        _ => Ok(()),
    }
}
