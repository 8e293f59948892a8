//! The name of a file as an operand, as a shell reads it.

ghost use Rattle.std.specs.Prelude.{◌≡◌, ◌==◌, ◌<◌, length, MatchOption};
ghost use Rattle.std.specs.List.{flat_map, list_all, list_any};
ghost use Rattle.krb_driver.specs.Hints.{Extends, folder_for, is_alike, is_plain, operand_text, quote_for, quoted_byte};

use crate::file_name::type_of;
use arrayvec::ArrayVec;

/// An operand of at most 256 bytes.
pub type Operand = ArrayVec<u8, 256>;

fn contains(bytes: &[u8], wanted: u8) -> bool
    ensures { result ≡ list_any (λ b. b == wanted) bytes.now }
{
    bytes.iter().any(|byte| *byte == wanted)
}

// Returns whether a shell reads a byte as it is.
fn is_plain(byte: u8) -> bool
    ensures { result ≡ is_plain byte }
{
    byte.is_ascii_alphanumeric() || contains(b"_-./:@%+,=", byte)
}

fn are_plain(name: &[u8]) -> bool
    ensures { result ≡ list_all is_plain name.now }
{
    name.iter().all(|byte| is_plain(*byte))
}

// Returns the quote around a name that has other bytes.
fn quote_for(name: &[u8]) -> &'static [u8]
    ensures { result.now ≡ quote_for name.now }
{
    if are_plain(name) { b"" } else { b"'" }
}

// Returns the folder before a name that would be read as an option or as a type.
fn folder_for(name: &[u8]) -> &'static [u8]
    ensures { result.now ≡ folder_for name.now }
{
    if name.first() == Some(&b'-') || type_of(name).is_some() {
        b"./"
    } else {
        b""
    }
}

// Returns a byte between single quotes.
fn quoted_byte(byte: &u8) -> &[u8]
    ensures { result.now ≡ quoted_byte byte.now }
{
    if *byte == b'\'' {
        b"'\\''"
    } else {
        std::slice::from_ref(byte)
    }
}

fn is_alike(byte: u8) -> bool
    ensures { result ≡ is_alike byte }
{
    matches!(byte, b' '..=b'~') && byte != b'\\'
}

/// Returns whether all shells read a name alike.
pub fn are_alike(name: &[u8]) -> bool
    ensures { result ≡ list_all is_alike name.now }
{
    name.iter().all(|byte| is_alike(*byte))
}

// Appends a text, or returns `None` if the operand would be too long.
fn append(operand: &mut Operand, text: &[u8]) -> Option<()>
    ensures { Extends operand.old.items text.now operand.new.items result }
{
    operand.try_extend_from_slice(text).ok()
}

// Appends the bytes between single quotes.
fn append_quoted(operand: &mut Operand, name: &[u8]) -> Option<()>
    ensures { Extends operand.old.items (flat_map quoted_byte name.now) operand.new.items result }
{
    'bytes: for byte in name {
        append(operand, quoted_byte(byte))?;
    }
    Some(())
}

/// Returns the name of a file as an operand, unless it would be longer than 256 bytes.
pub fn operand_of(name: &[u8]) -> Option<Operand>
    ensures { MatchOption result (256 < length (operand_text name.now)) (λ operand. operand.items ≡ operand_text name.now) }
{
    let quote = quote_for(name);
    let mut operand = Operand::new();
    append(&mut operand, quote)?;
    append(&mut operand, folder_for(name))?;
    append_quoted(&mut operand, name)?;
    append(&mut operand, quote)?;
    Some(operand)
}
