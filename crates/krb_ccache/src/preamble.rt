//! The preamble of a version 4 image: version, header and default principal, before the credentials.

ghost use Rattle.std.specs.Prelude.{◌≡◌, ◌≤◌, ◌<◌, ◌^◌, ◌+◌, length, IfSome, IfNone, vec_len};
ghost use Rattle.std.specs.List.{splice};
ghost use Rattle.krb_wire.specs.Text.{HasRoom, Puts};
ghost use Rattle.krb_wire.specs.Spelling.{FitsCc};
ghost use Rattle.krb_ccache.specs.declared.version.Version.TheVariants.{V4};
ghost use Rattle.krb_ccache.specs.Header.{header, offset_in};
ghost use Rattle.krb_ccache.specs.Changes.{new_header, new_preamble};

use crate::offset::Offset;
use krb_wire::{Name, Order, Pen, cc_principal_len};
use std::alloc::Allocator;

// Returns the length of a header with this offset.
pub fn header_len(offset: Option<Offset>) -> usize
    ensures { result ≡ length (header V4 (new_header offset)) }
{
    match offset {
        None => 2,
        Some(_) => 14,
    }
}

/// Shows that a new header has the offset that it is made for.
pub fn new_header_has_its_offset(offset: Option<Offset>)
    ensures { offset_in (new_header offset) ≡ offset }
{
    if let Some(offset) = offset {
        let _seconds = offset.seconds;
        let _micros = offset.micros;
    }
}

// Writes a header with this offset.
fn put_header(offset: Option<Offset>, pen: &mut Pen<'_>)
    requires { HasRoom pen.old (header V4 (new_header offset)) }
    ensures { Puts pen.old pen.new (header V4 (new_header offset)) }
{
    let Some(offset) = offset else {
        pen.put_u16(Order::Big, 0);
        return;
    };
    pen.put_u16(Order::Big, 12);
    pen.put_u16(Order::Big, 1);
    pen.put_u16(Order::Big, 8);
    pen.put_u32(Order::Big, offset.seconds.cast_unsigned());
    pen.put_u32(Order::Big, offset.micros.cast_unsigned());
}

/// Returns the length of the preamble, or `None` if it is more than `most`.
pub fn preamble_len<N: Name>(principal: &N, offset: Option<Offset>, most: usize) -> Option<usize>
    requires { most ≤ 2 ^ 30 }
    ensures some { IfSome result (λ n. n ≡ length (new_preamble (N.parts principal.now) offset)) }
    ensures within { IfSome result (λ n. n ≤ most) }
    ensures fits { IfSome result (λ n. FitsCc (N.parts principal.now)) }
    ensures none { IfNone result (most < length (new_preamble (N.parts principal.now) offset)) }
{
    let _name_type = principal.name_type();
    let before = 2 + header_len(offset);
    let len = cc_principal_len(principal)?;
    let room = most.checked_sub(before)?;
    if len > room as u64 {
        return None;
    }
    Some(before + len as usize)
}

/// Writes the preamble.
pub fn put_preamble<N: Name>(principal: &N, offset: Option<Offset>, pen: &mut Pen<'_>)
    requires fits { FitsCc (N.parts principal.now) }
    requires room { HasRoom pen.old (new_preamble (N.parts principal.now) offset) }
    ensures { Puts pen.old pen.new (new_preamble (N.parts principal.now) offset) }
{
    pen.put_u8(5);
    pen.put_u8(4);
    put_header(offset, pen);
    pen.put_cc_principal(principal);
}

// Writes the preamble over the bytes from `at` on.
fn put_over<N: Name>(principal: &N, offset: Option<Offset>, out: &mut [u8], at: usize)
    requires fits { FitsCc (N.parts principal.now) }
    requires room { at + length (new_preamble (N.parts principal.now) offset) ≤ length out.old }
    ensures { out.new ≡ splice out.old at (at + length (new_preamble (N.parts principal.now) offset)) (new_preamble (N.parts principal.now) offset) }
{
    put_preamble(principal, offset, &mut Pen::new(out, at));
}

/// Writes the preamble as the whole of an image.
pub fn write_preamble<N: Name, A: Allocator>(
    principal: &N,
    offset: Option<Offset>,
    image: &mut Vec<u8, A>,
)
    requires fits { FitsCc (N.parts principal.now) }
    requires len { vec_len image.old ≡ length (new_preamble (N.parts principal.now) offset) }
    ensures { image.new.items ≡ new_preamble (N.parts principal.now) offset }
{
    put_over(principal, offset, image, 0);
}
