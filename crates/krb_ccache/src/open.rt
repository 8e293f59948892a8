//! Opening an image: whether it is a cache, and where its parts are.

pub(crate) mod header;

ghost use Rattle.std.specs.Prelude.{◌≡◌, ◌≤◌, ℕ, length, drop, IfOk, IfErr, Ok, Err};
ghost use Rattle.krb_ccache.specs.Header.{header_at};
ghost use Rattle.krb_ccache.specs.Laws.{AreBytes};
ghost use Rattle.krb_ccache.specs.Store.{version_in, open_header, open_result, image_of};
ghost use Rattle.krb_ccache.specs.Open.{open_fault_number, open_fault_phrase, cache_of, credentials_len, ArePlaces, IsImage, Reopens};

use crate::cells::bytes_fit;
use crate::credential::view::split_credential;
use crate::open::header::skip_header;
use crate::version::Version;
use krb_wire::{split_cc_principal, tail};
use std::alloc::Allocator;
use std::fmt;
use thiserror::Error;

/// Why an image is not a cache.
#[derive(Clone, Copy, Debug, PartialEq, Eq, Error)]
pub enum CcOpenFault {
    /// It has fewer than two bytes.
    TooShort = 1,
    /// Its first byte is not 5, or its second neither 3 nor 4.
    BadVersion = 2,
    /// It is longer than the limit.
    TooLarge = 3,
    /// Its header runs past the end of the image, or fields do not fill the header exactly.
    BadHeader = 4,
    /// No default principal follows the header.
    BadDefault = 5,
}

impl CcOpenFault {
    /// Returns the number that messages give it.
    pub fn number(self) -> u32
        ensures { result ≡ open_fault_number self }
    {
        match self {
            CcOpenFault::TooShort => 1,
            CcOpenFault::BadVersion => 2,
            CcOpenFault::TooLarge => 3,
            CcOpenFault::BadHeader => 4,
            CcOpenFault::BadDefault => 5,
        }
    }

    /// Returns what is wrong, in words.
    pub fn phrase(self) -> &'static str
        ensures { result.now ≡ open_fault_phrase self }
    {
        match self {
            CcOpenFault::TooShort => "it has fewer than two bytes",
            CcOpenFault::BadVersion => "it does not begin as a cache of version 3 or 4",
            CcOpenFault::TooLarge => "it is longer than the limit",
            CcOpenFault::BadHeader => "its header is damaged",
            CcOpenFault::BadDefault => "it has no default principal",
        }
    }
}

impl fmt::Display for CcOpenFault {
    ghost use Rattle.std.specs.Prelude.{Some};

    ghost output = { λ fault. Some (open_fault_phrase fault) };

    fn fmt<W: fmt::Write>(&self, f: &mut fmt::Formatter<W>) -> fmt::Result {
        f.write_str(self.phrase())
    }
}

/// An image that is not a cache, handed back unchanged, and why.
#[derive(Drop)]
pub struct CcOpenRefused<A: Allocator> {
    pub why: CcOpenFault,
    pub image: Vec<u8, A>,
}

impl<A: Allocator> fmt::Display for CcOpenRefused<A> {
    ghost use Rattle.std.specs.Prelude.{Some};

    ghost output = { λ refused. Some (open_fault_phrase refused.why) };

    fn fmt<W: fmt::Write>(&self, f: &mut fmt::Formatter<W>) -> fmt::Result {
        f.write_str(self.why.phrase())
    }
}

/// Drops the image and keeps the fault.
impl<A: Allocator> From<CcOpenRefused<A>> for CcOpenFault {
    ghost from_gives = { λ refused why. why ≡ refused.why };

    fn from(refused: CcOpenRefused<A>) -> CcOpenFault {
        refused.why
    }
}

/// Where the default principal and the first credential of an image start, and where the credentials end.
#[derive(Clone, Copy)]
pub struct Places {
    pub principal: usize,
    pub first: usize,
    pub end: usize,
}

/// The version and the limit of an image, and where its parts are.
#[derive(Clone, Copy)]
pub struct Layout {
    pub version: Version,
    pub limit: u32,
    pub places: Places,
}

// Returns the version in the first two bytes, if they have one.
fn version_in(image: &[u8]) -> Option<Version>
    requires { 2 ≤ length image.now }
    ensures { result ≡ version_in image.now }
{
    if image[0] != 5 {
        return None;
    }
    match image[1] {
        3 => Some(Version::V3),
        4 => Some(Version::V4),
        _ => None,
    }
}

// Returns the total length of the credentials that the bytes begin with. Reads each once.
fn credentials_len(version: Version, bytes: &[u8]) -> usize
    ensures value { result ≡ credentials_len version bytes.now }
    ensures within { result ≤ length bytes.now }
{
    let mut rest = bytes;
    while let Some((_, after)) = split_credential(version, rest) {
        rest = after;
    }
    bytes.len() - rest.len()
}

// Returns where the parts of an image of this version are.
fn read_places(version: Version, image: &[u8]) -> Result<Places, CcOpenFault>
    requires { 2 ≤ length image.now }
    ensures ok { IfOk result (ArePlaces version image.now) }
    ensures err { IfErr result (λ why. (limit : ℕ)
        → open_header version limit (header_at version (drop 2 image.now)) ≡ Err why) }
{
    bytes_fit(image);
    let rest = tail(image, 2);
    let Some(after) = skip_header(version, rest) else {
        return Err(CcOpenFault::BadHeader);
    };
    let Some((_, cells)) = split_cc_principal(after) else {
        return Err(CcOpenFault::BadDefault);
    };
    let len = credentials_len(version, cells);
    let principal = image.len() - after.len();
    let first = image.len() - cells.len();
    Ok(Places {
        principal,
        first,
        end: first + len,
    })
}

/// Returns the layout of an image, or why it is not a cache. Reads each credential once and takes no memory.
pub fn read_layout(limit: u32, image: &[u8]) -> Result<Layout, CcOpenFault>
    requires { limit ≤ 1073741824 }
    ensures ok { IfOk result (λ h. open_result limit image.now
        ≡ Ok (cache_of h image.now)) }
    ensures kept { IfOk result (λ h. IsImage h image.now) }
    ensures err { IfErr result (λ why. open_result limit image.now ≡ Err why) }
{
    if image.len() < 2 {
        return Err(CcOpenFault::TooShort);
    }
    let Some(version) = version_in(image) else {
        return Err(CcOpenFault::BadVersion);
    };
    if image.len() > limit as usize {
        return Err(CcOpenFault::TooLarge);
    }
    let places = read_places(version, image)?;
    Ok(Layout {
        version,
        limit,
        places,
    })
}

/// Returns the image unchanged; the clauses name the cache that it spells.
pub fn as_spelling(layout: Layout, image: &[u8]) -> &[u8]
    requires { IsImage layout image.now }
    ensures same { result.now ≡ image.now }
    ensures spelled { result.now ≡ image_of (cache_of layout image.now) }
    ensures bytes { AreBytes result.now }
    ensures reopens { Reopens (cache_of layout image.now) result.now }
{
    bytes_fit(image);
    image
}
