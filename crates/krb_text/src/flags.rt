//! Ticket flags as letters.

ghost use Rattle.krb_wire.specs.Text.{Appended, AppendedPart};
ghost use Rattle.krb_text.specs.Flags.{letters_among, flag_letters_of};

use crate::bytes::append_byte;
use krb_wire::{NoMemory, all_or_nothing};
use std::alloc::Allocator;

// The flags that have a letter, in the order in which they are shown.
const FLAGS: [(u32, u8); 14] = [
    (0x4000_0000, b'F'),
    (0x2000_0000, b'f'),
    (0x1000_0000, b'P'),
    (0x0800_0000, b'p'),
    (0x0400_0000, b'D'),
    (0x0200_0000, b'd'),
    (0x0100_0000, b'i'),
    (0x0080_0000, b'R'),
    (0x0040_0000, b'I'),
    (0x0010_0000, b'H'),
    (0x0020_0000, b'A'),
    (0x0008_0000, b'T'),
    (0x0004_0000, b'O'),
    (0x0000_8000, b'a'),
];

// Appends the letters of the flags in `table` that are set.
fn append_letters<A: Allocator>(
    table: &[(u32, u8)],
    flags: u32,
    out: &mut Vec<u8, A>,
) -> Result<(), NoMemory>
    ensures { AppendedPart (letters_among flags table.now) out.old out.new result }
{
    'flags: for &(bit, letter) in table {
        if flags & bit != 0 {
            append_byte(letter, out)?;
        }
    }
    Ok(())
}

/// Appends a letter for each ticket flag that is set and has one: forwardable `F`, forwarded `f`, proxiable `P`,
/// proxy `p`, postdateable `D`, postdated `d`, invalid `i`, renewable `R`, initial `I`, hardware authenticated `H`,
/// preauthenticated `A`, transit policy checked `T`, ok as delegate `O`, anonymous `a`.
pub fn flag_letters<A: Allocator>(flags: u32, out: &mut Vec<u8, A>) -> Result<(), NoMemory>
    ensures { Appended (flag_letters_of flags) out.old out.new result }
{
    let len = out.len();
    let appended = append_letters(&FLAGS, flags, out);
    all_or_nothing(appended, len, out)
}
