//! The image of a cache with its layout.

ghost use Rattle.std.specs.Prelude.{◌≡◌, ◌≤◌, ◌-◌, take, drop, length};
ghost use Rattle.krb_ccache.specs.Header.{offset_in};
ghost use Rattle.krb_ccache.specs.Store.{store_of, image_of, fault_kind};
ghost use Rattle.krb_ccache.specs.Open.{Reopens};
ghost use Rattle.krb_ccache.specs.Laws.{AreBytes};
ghost use Rattle.krb_ccache.specs.Credentials.{all_credentials, AreCredentials};

use crate::cells::bytes_fit;
use crate::credentials::AllCredentials;
use crate::offset::Offset;
use crate::open::header::header_offset;
use crate::open::{Layout, as_spelling};
use crate::version::Version;
use krb_cells::Cells;
use krb_walk::FaultKind;
use krb_wire::{PrincipalView, split_cc_principal, tail};
use std::marker::Model;

/// A borrowed image that is a cache, with its layout. Contracts see the cache.
#[derive(Drop)]
pub struct CacheView<'a> {
    pub layout: Layout,
    pub image: &'a [u8],
}

impl<'a> Model for CacheView<'a> {
    ghost use Rattle.krb_ccache.specs.Store.{CacheState};
    ghost use Rattle.krb_ccache.specs.Open.{cache_of, IsImage};

    ghost Value = { CacheState };

    ghost view = { λ v. cache_of v.layout v.image.now };

    ghost invariant = { λ v. IsImage v.layout v.image.now };
}

// Returns the bytes from `from` up to `to`.
fn between(bytes: &[u8], from: usize, to: usize) -> &[u8]
    requires ahead { from ≤ to }
    requires within { to ≤ length bytes.now }
    ensures { result.now ≡ take (to - from) (drop from bytes.now) }
{
    &bytes[from..to]
}

impl<'a> CacheView<'a> {
    /// Returns the bytes of the image.
    pub fn spelled(&self) -> &'a [u8]
        ensures spelled { result.now ≡ image_of self.now }
        ensures bytes { AreBytes result.now }
        ensures reopens { Reopens self.now result.now }
    {
        as_spelling(self.layout, self.image)
    }

    // Returns the kind of the fault after the last credential, if bytes are left that begin with none.
    fn fault(&self) -> Option<FaultKind>
        ensures { result ≡ fault_kind self.now.contents.end }
    {
        bytes_fit(self.image);
        if self.layout.places.end == self.image.len() {
            return None;
        }
        Some(FaultKind::BadCredential)
    }

    // Returns the place of the first credential, and the bytes of all of them.
    fn placed(&self) -> (usize, &'a [u8])
        ensures { AreCredentials self.now result.0 result.1.now }
    {
        bytes_fit(self.image);
        let first = self.layout.places.first;
        (first, between(self.image, first, self.layout.places.end))
    }

    /// Returns the cells of the cache, as a store.
    pub fn cells(&self) -> Cells<'a, Version>
        ensures { result ≡ store_of self.now }
    {
        let (first, bytes) = self.placed();
        bytes_fit(bytes);
        Cells::of(self.layout.version, first, bytes, self.fault())
    }

    /// Returns an iterator over all credentials, removed ones too.
    pub fn credentials(&self) -> AllCredentials<'a>
        ensures { result ≡ all_credentials self.now }
    {
        let (place, bytes) = self.placed();
        AllCredentials {
            version: self.layout.version,
            place,
            bytes,
        }
    }

    /// Returns the default principal, which follows the header.
    pub fn default_principal(&self) -> PrincipalView<'a>
        ensures { result ≡ self.now.principal }
    {
        let Some((name, _)) = split_cc_principal(tail(self.image, self.layout.places.principal))
        else {
            unreachable!()
        };
        name
    }

    /// Returns the time offset in the header, if there is one.
    #[tactic(auto, using(crate::proofs::ImageLemmas::offset_is))]
    pub fn offset(&self) -> Option<Offset>
        ensures { result ≡ offset_in self.now.header }
    {
        header_offset(self.layout.version, tail(self.image, 2))
    }
}
