//! Short names of encryption types.

ghost use Rattle.std.specs.Prelude.{◌≡◌};
ghost use Rattle.krb_wire.specs.Text.{AppendedPart};
ghost use Rattle.krb_show.specs.EtypeNames.{encryption_cell, etype_cell, has_weak_encryption, short_name, wide_etype_cell};

use itoa::Buffer;
use krb_ccache::TicketEncryption;
use krb_text::{append, append_byte, append_labelled, etype_short_name, is_weak};
use krb_wire::NoMemory;
use std::alloc::Allocator;

// Appends the short name of an enctype, or its number.
fn append_name<A: Allocator>(etype: u16, out: &mut Vec<u8, A>) -> Result<(), NoMemory>
    ensures { AppendedPart (short_name etype) out.old out.new result }
{
    match etype_short_name(etype) {
        Some(name) => append(name.as_bytes(), out),
        None => append_labelled(b"", etype as u32, out),
    }
}

/// Appends an enctype as a cell.
#[tactic(auto, unfolding(crate::specs::EtypeNames::etype_cell))]
pub fn append_etype<A: Allocator>(etype: u16, out: &mut Vec<u8, A>) -> Result<(), NoMemory>
    ensures { AppendedPart (etype_cell etype) out.old out.new result }
{
    append_name(etype, out)?;
    if is_weak(etype) {
        return append_byte(b'!', out);
    }
    Ok(())
}

// Appends an enctype of 32 bits.
fn append_wide_etype<A: Allocator>(etype: i32, out: &mut Vec<u8, A>) -> Result<(), NoMemory>
    ensures { AppendedPart (wide_etype_cell etype) out.old out.new result }
{
    match u16::try_from(etype).ok() {
        Some(etype) => append_etype(etype, out),
        None => append(Buffer::new().format(etype).as_bytes(), out),
    }
}

/// Returns whether a ticket is encrypted by a weak enctype.
pub fn has_weak_encryption(encryption: Option<TicketEncryption>) -> bool
    ensures { result ≡ has_weak_encryption encryption }
{
    let Some(encryption) = encryption else {
        return false;
    };
    match u16::try_from(encryption.etype).ok() {
        Some(etype) => is_weak(etype),
        None => false,
    }
}

/// Appends how a ticket is encrypted as a cell.
pub fn append_encryption<A: Allocator>(
    encryption: Option<TicketEncryption>,
    out: &mut Vec<u8, A>,
) -> Result<(), NoMemory>
    ensures { AppendedPart (encryption_cell encryption) out.old out.new result }
{
    let Some(encryption) = encryption else {
        return append(b"-", out);
    };
    append_wide_etype(encryption.etype, out)?;
    match encryption.kvno {
        Some(kvno) => append_labelled(b" kvno ", kvno, out),
        None => Ok(()),
    }
}
