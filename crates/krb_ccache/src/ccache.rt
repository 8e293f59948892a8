//! A credential cache in memory, kept as its image.

mod changes;
mod rewrite;
mod settings;
mod view;

ghost use Rattle.std.specs.Prelude.{◌≡◌, IfOk, IfErr, IfSome, IfNone, Ok, Err, Some, None, option_copied, vec_capacity};
ghost use Rattle.krb_walk.specs.Store.{end_of, fault_of, live_bytes};
ghost use Rattle.krb_ccache.specs.Credential.{credential};
ghost use Rattle.krb_ccache.specs.Header.{offset_in};
ghost use Rattle.krb_ccache.specs.Store.{open_result, image_of, store_of, placed_credentials, credential_at_place};
ghost use Rattle.krb_ccache.specs.Config.{config_of};
ghost use Rattle.krb_ccache.specs.Laws.{AreBytes};
ghost use Rattle.krb_ccache.specs.Open.{InMemory, Reopens};

use crate::ccache::view::CacheView;
use crate::config::query::Query;
use crate::credential::view::CredView;
use crate::credentials::Credentials;
use crate::offset::Offset;
use crate::open::{CcOpenRefused, Layout, as_spelling, read_layout};
use crate::version::Version;
use krb_walk::Fault;
use krb_wire::{Limits, PrincipalView};
use std::alloc::Allocator;
use std::marker::Model;

/// A credential cache in memory, kept as the bytes of its file. Contracts see its state (version, limit, and the one
/// header, default principal and list of credentials that the image spells) and its room: how many bytes its memory
/// holds. A call that takes no memory keeps the room.
#[derive(Drop)]
pub struct Ccache<A: Allocator> {
    image: Vec<u8, A>,
    layout: Layout,
    // The place of the last removal: the next one scans from there if its place is not before it.
    removed: Option<u32>,
}

impl<A: Allocator> Model for Ccache<A> {
    ghost use Rattle.std.specs.Prelude.{IfSome, vec_capacity};
    ghost use Rattle.krb_walk.specs.Store.{IsPlace};
    ghost use Rattle.krb_ccache.specs.Store.{store_of};
    ghost use Rattle.krb_ccache.specs.Open.{InMemory, IsImage, cache_of};

    ghost Value = { InMemory };

    ghost view = { λ k. record {
      state = cache_of k.layout k.image.items;
      room = vec_capacity k.image;
    } };

    ghost invariant = { λ k. IsImage k.layout k.image.items
        × IfSome k.removed (IsPlace (store_of (cache_of k.layout k.image.items))) };
}

impl<A: Allocator> Ccache<A> {
    /// Opens an image as a cache. A damaged one opens too, with the credentials before its fault. Reads each credential
    /// once and takes no memory.
    pub fn open(image: Vec<u8, A>, limits: Limits) -> Result<Ccache<A>, CcOpenRefused<A>>
        ensures ok { IfOk result (λ k. open_result limits image.items ≡ Ok k.state) }
        // The bytes are unchanged.
        ensures kept { IfOk result (λ k. image_of k.state ≡ image.items) }
        ensures room { IfOk result (λ k. k.room ≡ vec_capacity image) }
        ensures err { IfErr result (λ e. (open_result limits image.items ≡ Err e.why)
            × (e.image ≡ image)) }
    {
        match read_layout(limits.image(), &image) {
            Ok(layout) => {
                let _ = as_spelling(layout, &image);
                Ok(Ccache {
                    image,
                    layout,
                    removed: None,
                })
            }
            Err(why) => Err(CcOpenRefused { why, image }),
        }
    }

    // Returns a view of the image with its layout.
    pub(crate) fn view(&self) -> CacheView<'_>
        ensures { result ≡ self.now.state }
    {
        CacheView {
            layout: self.layout,
            image: &self.image,
        }
    }

    /// Returns the bytes of its image.
    pub fn image(&self) -> &[u8]
        ensures spelled { result.now ≡ image_of self.now.state }
        ensures bytes { AreBytes result.now }
        // They open as this cache again.
        ensures reopens { Reopens self.now.state result.now }
    {
        self.view().spelled()
    }

    /// Consumes the cache and returns its image, without a copy.
    pub fn into_image(self) -> Vec<u8, A>
        ensures spelled { result.items ≡ image_of self.state }
        ensures reopens { Reopens self.state result.items }
        ensures room { vec_capacity result ≡ self.room }
    {
        let _ = as_spelling(self.layout, &self.image);
        let Ccache { image, .. } = self;
        image
    }

    /// Returns the version of its format.
    pub fn version(&self) -> Version
        ensures { result ≡ self.now.state.version }
    {
        self.layout.version
    }

    /// Returns the principal that the cache belongs to.
    pub fn default_principal(&self) -> PrincipalView<'_>
        ensures { result ≡ self.now.state.principal }
    {
        self.view().default_principal()
    }

    /// Returns the KDC time offset, or `None` if the header has none. A version 3 cache has no header.
    pub fn offset(&self) -> Option<Offset>
        ensures { result ≡ offset_in self.now.state.header }
    {
        self.view().offset()
    }

    /// Returns the place after the last credential.
    pub fn end(&self) -> u32
        ensures { result ≡ end_of (store_of self.now.state) }
    {
        self.view().cells().end()
    }

    /// Returns the fault after the last credential, if there is one: bytes that begin with no credential.
    pub fn fault(&self) -> Option<Fault>
        ensures { result ≡ fault_of (store_of self.now.state) }
    {
        self.view().cells().fault()
    }

    /// Returns an iterator over the live credentials with their places, in file order, up to the end or the fault.
    pub fn credentials(&self) -> Credentials<'_>
        ensures { result ≡ placed_credentials self.now.state }
    {
        Credentials::of(self.view().credentials())
    }

    /// Returns the live credential that starts at `place`, or `None` if none does. Scans from the start; to read all
    /// credentials, use `credentials`.
    pub fn cred_at(&self, place: u32) -> Option<CredView<'_>>
        ensures none { IfNone result (live_bytes (store_of self.now.state) place ≡ None) }
        ensures found { IfSome result (λ c. live_bytes (store_of self.now.state) place
            ≡ Some (credential self.now.state.version c)) }
        ensures exact { result ≡ credential_at_place self.now.state place }
    {
        self.view().credentials().find(place as usize)
    }

    /// Returns the value of the default principal's first configuration entry for `key` and the text `principal`, or
    /// for `key` alone if that is `None`. One pass, without copies.
    pub fn config(&self, key: &[u8], principal: Option<&[u8]>) -> Option<&[u8]>
        ensures { option_copied result ≡ config_of self.now.state key.now (option_copied principal.entry) }
    {
        let owner = self.default_principal();
        let query = Query {
            owner: &owner,
            key,
            principal,
        };
        for (_, credential) in self.credentials() {
            if query.matches(&credential) {
                return Some(credential.ticket());
            }
        }
        None
    }
}
