//! Records of keytabs of version 2, spelled out by hand, and their entries.

use super::joined;
use krb_keytab::{Keytab, NewEntry};
use krb_walk::{Code, Refusal};
use krb_wire::{Limits, Order, Principal, parse_name};
use std::alloc::Allocator;

/// The head of a keytab.
pub const HEAD: &[u8] = b"\x05\x02";

/// A record of 51 bytes: `host/a@R`, version 3, enctype 17.
pub const HOST: &[u8] =
    b"\0\0\0\x2f\0\x02\0\x01R\0\x04host\0\x01a\0\0\0\x01\x65\x53\xf1\0\x03\0\x11\0\x10\
\0\x01\x02\x03\x04\x05\x06\x07\x08\x09\x0a\x0b\x0c\x0d\x0e\x0f\0\0\0\x03";

/// A record of 45 bytes: `b@R`, version 3, enctype 17.
pub const B: &[u8] = b"\0\0\0\x29\0\x01\0\x01R\0\x01b\0\0\0\x01\x65\x53\xf1\0\x03\0\x11\0\x10\
\x10\x11\x12\x13\x14\x15\x16\x17\x18\x19\x1a\x1b\x1c\x1d\x1e\x1f\0\0\0\x03";

/// The key of `B`.
pub const HIGH_KEY: &[u8] = b"\x10\x11\x12\x13\x14\x15\x16\x17\x18\x19\x1a\x1b\x1c\x1d\x1e\x1f";

/// Returns the name of a text that is one.
pub fn name_of<A: Allocator + Copy>(alloc: A, text: &[u8]) -> Result<Principal<A>, Refusal> {
    parse_name(alloc, text, None).map_err(|_| Refusal::NoMemory)
}

/// Returns the entry of `B`.
pub fn b<A: Allocator + Copy>(alloc: A) -> Result<NewEntry<A>, Refusal> {
    Ok(NewEntry {
        principal: name_of(alloc, b"b@R")?,
        timestamp: 1_700_000_000,
        kvno: 3,
        enctype: 17,
        key: Vec::from_slice(alloc, HIGH_KEY)?,
    })
}

/// Returns the keytab of an image in pieces.
pub fn keytab_of<A: Allocator + Copy>(alloc: A, pieces: &[&[u8]]) -> Result<Keytab<A>, Refusal> {
    let opened = Keytab::open(joined(alloc, pieces)?, Order::Little, Limits::usual());
    opened.map_err(|_| Refusal::Code(Code::Damaged))
}
