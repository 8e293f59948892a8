//! Which images open as keytabs.

ghost use Rattle.std.specs.Prelude.{◌≡◌, ◌≤◌, length, drop, IfOk, IfErr, Ok, Err};
ghost use Rattle.krb_keytab.specs.Cells.{contents, image as image_of};
ghost use Rattle.krb_keytab.specs.Image.{IsKnownEnd};
ghost use Rattle.krb_keytab.specs.Store.{format_of, open_result, IsImage};
ghost use Rattle.krb_keytab.specs.Open.{open_fault_number, open_fault_phrase};

use crate::image::{CellsEnd, end_of_cells, spelled_of};
use krb_wire::{KtFormat, Order};
use std::alloc::Allocator;
use std::fmt;
use thiserror::Error;

/// Why an image is not a keytab.
#[derive(Clone, Copy, Debug, PartialEq, Eq, Error)]
pub enum KtOpenFault {
    /// It has fewer than two bytes.
    TooShort = 1,
    /// Its first byte is not 5, or its second neither 1 nor 2.
    BadVersion = 2,
    /// It is longer than the limit.
    TooLarge = 3,
}

impl KtOpenFault {
    /// Returns its number, as printed in messages.
    pub fn number(self) -> u32
        ensures { result ≡ open_fault_number self }
    {
        match self {
            KtOpenFault::TooShort => 1,
            KtOpenFault::BadVersion => 2,
            KtOpenFault::TooLarge => 3,
        }
    }

    /// Returns what it is, in words.
    pub fn phrase(self) -> &'static str
        ensures { result.now ≡ open_fault_phrase self }
    {
        match self {
            KtOpenFault::TooShort => "it has fewer than two bytes",
            KtOpenFault::BadVersion => "it does not begin as a keytab of version 1 or 2",
            KtOpenFault::TooLarge => "it is longer than the limit",
        }
    }
}

impl fmt::Display for KtOpenFault {
    ghost use Rattle.std.specs.Prelude.{Some};

    ghost output = { λ fault. Some (open_fault_phrase fault) };

    fn fmt<W: fmt::Write>(&self, f: &mut fmt::Formatter<W>) -> fmt::Result {
        f.write_str(self.phrase())
    }
}

/// An image that is not a keytab, handed back unchanged.
#[derive(Drop)]
pub struct KtOpenRefused<A: Allocator> {
    pub why: KtOpenFault,
    pub image: Vec<u8, A>,
}

impl<A: Allocator> fmt::Display for KtOpenRefused<A> {
    ghost use Rattle.std.specs.Prelude.{Some};

    ghost output = { λ refused. Some (open_fault_phrase refused.why) };

    fn fmt<W: fmt::Write>(&self, f: &mut fmt::Formatter<W>) -> fmt::Result {
        f.write_str(self.why.phrase())
    }
}

/// Drops the image.
impl<A: Allocator> From<KtOpenRefused<A>> for KtOpenFault {
    ghost from_gives = { λ refused why. why ≡ refused.why };

    fn from(refused: KtOpenRefused<A>) -> KtOpenFault {
        refused.why
    }
}

/// What is known of an image that is a keytab.
#[derive(Clone, Copy)]
pub struct Head {
    pub format: KtFormat,
    pub limit: u32,
    pub end: CellsEnd,
    pub count: u32,
}

/// Returns what is known of an image, or why it is not a keytab. Reads each entry once, and takes no memory.
pub fn read_head(v1_order: Order, limit: u32, image: &[u8]) -> Result<Head, KtOpenFault>
    requires { limit ≤ 1073741824 }
    ensures ok { IfOk result (λ h. open_result v1_order limit image.now ≡ Ok (record {
      format = h.format;
      limit = h.limit;
      contents = contents h.format (drop 2 image.now);
    })) }
    ensures kept { IfOk result (λ h. IsImage h.format h.limit image.now) }
    ensures known { IfOk result (λ h. IsKnownEnd h.format image.now h.end) }
    ensures count { IfOk result (λ h. h.count ≡ length (contents h.format (drop 2 image.now)).cells) }
    ensures spelled { IfOk result (λ h. image.now
        ≡ image_of h.format (contents h.format (drop 2 image.now))) }
    ensures err { IfErr result (λ why. open_result v1_order limit image.now ≡ Err why) }
{
    if image.len() < 2 {
        return Err(KtOpenFault::TooShort);
    }
    let Some(format) = format_in(v1_order, image) else {
        return Err(KtOpenFault::BadVersion);
    };
    if image.len() > limit as usize {
        return Err(KtOpenFault::TooLarge);
    }
    let _ = spelled_of(format, image);
    let (end, count) = end_of_cells(format, image);
    Ok(Head {
        format,
        limit,
        end,
        count,
    })
}

/// Returns the format by the first two bytes, or `None` if they are not of a keytab. Version 1 has that byte order.
pub fn format_in(v1_order: Order, image: &[u8]) -> Option<KtFormat>
    requires { 2 ≤ length image.now }
    ensures { result ≡ format_of v1_order image.now }
{
    if image[0] != 5 {
        return None;
    }
    match image[1] {
        1 => Some(KtFormat::V1(v1_order)),
        2 => Some(KtFormat::V2),
        _ => None,
    }
}
