//! The header of a version 4 cache.

ghost use Rattle.std.specs.Prelude.{◌≡◌, is_some};
ghost use Rattle.std.specs.List.{filter_map};
ghost use Rattle.krb_wire.specs.Reading.{Gives};
ghost use Rattle.krb_cells.specs.Contents.{contents};
ghost use Rattle.krb_ccache.specs.Header.{field_at, fields_format, fields_in, header_end, offset_of, first_of, header_offset, field_of};

use crate::offset::Offset;
use crate::version::Version;
use krb_wire::{Order, read_u32, split_data16, split_u16};

// Returns the tag and the value of the field that the bytes begin with, if any, and the bytes after it.
#[inline(always)]
#[tactic(auto, unfolding(crate::specs::Header::field_at))]
fn split_field(bytes: &[u8]) -> Option<((u16, &[u8]), &[u8])>
    ensures { Gives (λ x. (field_of x.0, x.1.now)) result (field_at bytes.now) }
{
    let (tag, rest) = split_u16(Order::Big, bytes)?;
    let (value, rest) = split_data16(Order::Big, rest)?;
    Some(((tag, value), rest))
}

// Returns whether fields fill the bytes exactly.
fn are_fields(bytes: &[u8]) -> bool
    ensures { result ≡ is_some (fields_in bytes.now) }
{
    let mut rest = bytes;
    while let Some((_, after)) = split_field(rest) {
        rest = after;
    }
    rest.is_empty()
}

/// Returns the bytes after the header, or `None` if it is damaged. Version 3 has no header.
#[tactic(auto, unfolding(crate::specs::Header::header_at))]
pub fn skip_header(version: Version, bytes: &[u8]) -> Option<&[u8]>
    ensures { Gives (λ x. x.now) result (header_end version bytes.now) }
{
    match version {
        Version::V3 => Some(bytes),
        Version::V4 => {
            let (fields, after) = split_data16(Order::Big, bytes)?;
            if !are_fields(fields) {
                return None;
            }
            Some(after)
        }
    }
}

// Returns the time offset of a field, if it has one: its tag is 1 and its length 8.
fn offset_of(tag: u16, value: &[u8]) -> Option<Offset>
    ensures { result ≡ offset_of (record { tag = tag; value = value.now }) }
{
    if tag != 1 || value.len() != 8 {
        return None;
    }
    let (seconds, micros) = value.split_at(4);
    Some(Offset {
        seconds: read_u32(Order::Big, seconds).cast_signed(),
        micros: read_u32(Order::Big, micros).cast_signed(),
    })
}

// Returns the first time offset among the fields.
fn first_offset(fields: &[u8]) -> Option<Offset>
    ensures { result ≡ first_of (filter_map offset_of (contents fields_format fields.now).cells) }
{
    let mut rest = fields;
    while let Some(((tag, value), after)) = split_field(rest) {
        if let Some(offset) = offset_of(tag, value) {
            return Some(offset);
        }
        rest = after;
    }
    None
}

/// Returns the time offset in the header that the bytes begin with, if any.
pub fn header_offset(version: Version, bytes: &[u8]) -> Option<Offset>
    ensures { result ≡ header_offset version bytes.now }
{
    match version {
        Version::V3 => None,
        Version::V4 => {
            let (fields, _) = split_data16(Order::Big, bytes)?;
            first_offset(fields)
        }
    }
}
