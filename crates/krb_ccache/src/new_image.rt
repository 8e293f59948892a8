//! The image of a rewrite: a preamble, and the live credentials in version 4.

ghost use Rattle.std.specs.Prelude.{◌≡◌, ◌≤◌, ◌<◌, ◌^◌, ◌+◌, ◌++◌, [], length, IsSome, IfOk, IfSome, IfNone, Some, None};
ghost use Rattle.krb_wire.specs.Text.{HasRoom, Puts};
ghost use Rattle.krb_wire.specs.Reading.{Gives};
ghost use Rattle.krb_wire.specs.Spelling.{FitsCc};
ghost use Rattle.krb_ccache.specs.declared.version.Version.TheVariants.{V4};
ghost use Rattle.krb_ccache.specs.Credential.{CredParts, credential, credential_at, in_version_4};
ghost use Rattle.krb_ccache.specs.Changes.{new_preamble};
ghost use Rattle.krb_ccache.specs.Rewrite.{new_texts, after_first_enctype, ReadsNewText};

use crate::cells::bytes_fit;
use crate::credential::view::split_credential;
use crate::offset::Offset;
use crate::preamble::put_preamble;
use crate::version::Version;
use krb_wire::{Name, NoMemory, Order, Pen, split_cc_principal, split_u16, tail};
use std::alloc::Allocator;

// Returns the bytes after the first enctype of the credential that the bytes begin with, if any.
#[tactic(auto, unfolding(crate::specs::Rewrite::after_first_enctype))]
fn skip_first_enctype(bytes: &[u8]) -> Option<&[u8]>
    ensures { Gives (λ x. x.now) result (after_first_enctype bytes.now) }
{
    let (_, rest) = split_cc_principal(bytes)?;
    let (_, rest) = split_cc_principal(rest)?;
    let (_, rest) = split_u16(Order::Big, rest)?;
    Some(rest)
}

// Returns the bytes of a credential without its second enctype: those before it, and those after it.
fn around_second_enctype(version: Version, text: &[u8]) -> (&[u8], &[u8])
    requires { IsSome (credential_at version text.now) }
    ensures { (c : CredParts) → credential_at version text.now ≡ Some (c, [])
        → result.0.now ++ result.1.now ≡ credential V4 (in_version_4 c) }
{
    bytes_fit(text);
    match version {
        Version::V4 => text.split_at(text.len()),
        Version::V3 => {
            let Some(rest) = skip_first_enctype(text) else {
                unreachable!()
            };
            let at = text.len() - rest.len();
            (text.split_at(at).0, tail(text, at + 2))
        }
    }
}

// Reads the credential that the bytes begin with. The first two slices together are its new text, which is empty if
// it is removed; the third is the bytes after it.
fn next_text(version: Version, bytes: &[u8]) -> Option<(&[u8], &[u8], &[u8])>
    ensures some { IfSome result (λ x. ReadsNewText version bytes.now (x.0.now ++ x.1.now) x.2.now) }
    ensures none { IfNone result (credential_at version bytes.now ≡ None) }
{
    bytes_fit(bytes);
    let (credential, after) = split_credential(version, bytes)?;
    let text = bytes.split_at(bytes.len() - after.len()).0;
    if credential.is_marked() {
        let (none, _) = text.split_at(0);
        return Some((none, none, after));
    }
    let (first, second) = around_second_enctype(version, text);
    Some((first, second, after))
}

/// Returns how many of `room` bytes are left after the new texts, or `None` if the texts do not fit.
pub fn room_after_texts(version: Version, bytes: &[u8], room: usize) -> Option<usize>
    requires { room ≤ 2 ^ 30 }
    ensures some { IfSome result (λ n. n + length (new_texts version bytes.now) ≡ room) }
    ensures none { IfNone result (room < length (new_texts version bytes.now)) }
{
    let mut rest = bytes;
    let mut room = room;
    while let Some((first, second, after)) = next_text(version, rest) {
        room = room.checked_sub(first.len() + second.len())?;
        rest = after;
    }
    Some(room)
}

// Writes the new texts.
fn put_texts(version: Version, bytes: &[u8], pen: &mut Pen<'_>)
    requires { HasRoom pen.old (new_texts version bytes.now) }
    ensures { Puts pen.old pen.new (new_texts version bytes.now) }
{
    let mut rest = bytes;
    while let Some((first, second, after)) = next_text(version, rest) {
        pen.put_bytes(first);
        pen.put_bytes(second);
        rest = after;
    }
}

// Writes a whole image: the preamble and the new texts.
fn write_image<N: Name>(
    principal: &N,
    offset: Option<Offset>,
    version: Version,
    cells: &[u8],
    out: &mut [u8],
)
    requires fits { FitsCc (N.parts principal.now) }
    requires len { length out.old ≡ length (new_preamble (N.parts principal.now) offset) + length (new_texts version cells.now) }
    ensures { out.new ≡ new_preamble (N.parts principal.now) offset ++ new_texts version cells.now }
{
    let mut pen = Pen::new(out, 0);
    put_preamble(principal, offset, &mut pen);
    put_texts(version, cells, &mut pen);
}

/// Builds the image of a rewrite, in memory of exactly its length.
pub fn build_image<N: Name, A: Allocator>(
    alloc: A,
    principal: &N,
    offset: Option<Offset>,
    version: Version,
    cells: &[u8],
    len: usize,
) -> Result<Vec<u8, A>, NoMemory>
    requires fits { FitsCc (N.parts principal.now) }
    requires len { len ≡ length (new_preamble (N.parts principal.now) offset) + length (new_texts version cells.now) }
    ensures { IfOk result (λ v. v.items ≡ new_preamble (N.parts principal.now) offset ++ new_texts version cells.now) }
{
    let mut image = Vec::from_elem(alloc, 0, len)?;
    write_image(principal, offset, version, cells, &mut image);
    Ok(image)
}
