//! Session keys of credentials.

ghost use Rattle.krb_wire.specs.Reading.{Gives};
ghost use Rattle.krb_ccache.specs.Credential.{Key, second_enctype_at, key_at};

use crate::version::Version;
use krb_wire::{Order, split_data32, split_u16};
use std::marker::Model;

/// A session key with its enctype, borrowed from an image.
#[derive(Drop)]
pub struct KeyView<'a> {
    pub enctype: u16,
    pub second_enctype: u16,
    pub bytes: &'a [u8],
}

impl<'a> Model for KeyView<'a> {
    ghost Value = { Key };

    ghost view = { λ k. record { enctype = k.enctype; second_enctype = k.second_enctype; bytes = k.bytes.now } };
}

// Returns the second enctype and the bytes after it. Version 4 has none: it reads as 0.
fn split_second_enctype(version: Version, bytes: &[u8]) -> Option<(u16, &[u8])>
    ensures { Gives (λ x. (x.0, x.1.now)) result (second_enctype_at version bytes.now) }
{
    match version {
        Version::V3 => split_u16(Order::Big, bytes),
        Version::V4 => Some((0, bytes)),
    }
}

/// Returns the key that the bytes begin with, if any, and the bytes after it.
#[inline(always)]
#[tactic(auto, unfolding(crate::specs::Credential::key_at))]
pub fn split_key(version: Version, bytes: &[u8]) -> Option<(KeyView<'_>, &[u8])>
    ensures { Gives (λ x. (x.0, x.1.now)) result (key_at version bytes.now) }
{
    let (enctype, rest) = split_u16(Order::Big, bytes)?;
    let (second_enctype, rest) = split_second_enctype(version, rest)?;
    let (bytes, rest) = split_data32(Order::Big, rest)?;
    Some((
        KeyView {
            enctype,
            second_enctype,
            bytes,
        },
        rest,
    ))
}
