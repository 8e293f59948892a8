//! File modes.

ghost use Rattle.std.specs.Prelude.{◌≡◌, ◌++◌, OnOk};
ghost use Rattle.krb_audit.specs.CheckUp.{has_mode, is_open, is_open_to_all};
ghost use Rattle.krb_audit.specs.Report.{mode_digits, octal};

use krb_text::{append, append_byte};
use krb_wire::NoMemory;
use std::alloc::Allocator;

/// Returns whether group or others may read or write a file of that mode.
pub(crate) fn is_open(mode: u32) -> bool
    ensures { result ≡ is_open mode }
{
    mode & 0o66 != 0
}

/// Returns whether the mode is reported: group or others may read or write the plain file.
pub fn is_open_file(mode: Option<u32>) -> bool
    ensures { result ≡ has_mode is_open mode }
{
    mode.is_some_and(|mode| is_open(mode))
}

/// Returns whether others may read or write the plain file.
pub fn is_open_to_all(mode: Option<u32>) -> bool
    ensures { result ≡ has_mode is_open_to_all mode }
{
    mode.is_some_and(|mode| mode & 0o6 != 0)
}

// Appends a number in octal without leading zeros: at most its last `places` digits.
fn append_octal<A: Allocator>(
    places: u32,
    number: u32,
    out: &mut Vec<u8, A>,
) -> Result<(), NoMemory>
    ensures { OnOk result (out.new.items ≡ out.old.items ++ octal places number) }
{
    if places == 0 || number == 0 {
        return Ok(());
    }
    append_octal(places - 1, number / 8, out)?;
    append_byte(b'0' + (number % 8) as u8, out)
}

/// Appends the twelve low bits of a mode in octal, without leading zeros.
pub fn append_mode_digits<A: Allocator>(mode: u32, out: &mut Vec<u8, A>) -> Result<(), NoMemory>
    ensures { OnOk result (out.new.items ≡ out.old.items ++ mode_digits mode) }
{
    let bits = mode % 0o10000;
    if bits == 0 {
        return append(b"0", out);
    }
    append_octal(4, bits, out)
}
