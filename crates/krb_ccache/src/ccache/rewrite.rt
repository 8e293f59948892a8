//! The rewrite of a cache.

ghost use Rattle.std.specs.Prelude.{◌≡◌, ◌<◌, ◌≤◌, length, map, Ok, Err, IfSome, IfNone, IfOk, IfErr, OnOk, OnErr};
ghost use Rattle.std.specs.List.{AllByRecursion};
ghost use Rattle.krb_walk.specs.Rules.{RewriteGives};
ghost use Rattle.krb_walk.specs.Store.{IsPlace};
ghost use Rattle.krb_walk.specs.Ranks.{carry, Rewrites};
ghost use Rattle.krb_ccache.specs.Header.{offset_in};
ghost use Rattle.krb_ccache.specs.Store.{image_of, store_of};
ghost use Rattle.krb_ccache.specs.Changes.{new_preamble};
ghost use Rattle.krb_ccache.specs.Rewrite.{rewrite_of, rewrite_result};

use super::Ccache;
use crate::cells::bytes_fit;
use crate::new_image::{build_image, room_after_texts};
use crate::open::{Layout, Places};
use crate::preamble::{header_len, preamble_len};
use crate::version::Version;
use krb_cells::carry_to;
use krb_walk::{Code, Refusal};
use krb_wire::{NoMemory, tail};
use std::alloc::Allocator;

impl<A: Allocator> Ccache<A> {
    // Returns where the credentials start in the new image and how long it is, or `None` if it exceeds the limit.
    fn new_lens(&self) -> Option<(usize, usize)>
        ensures first { IfSome result (λ x. x.0 ≡ length (new_preamble self.now.state.principal (offset_in self.now.state.header))) }
        ensures len { IfSome result (λ x. x.1 ≡ length (image_of (rewrite_of self.now.state))) }
        ensures within { IfSome result (λ x. x.1 ≤ self.now.state.limit) }
        ensures none { IfNone result (self.now.state.limit < length (image_of (rewrite_of self.now.state))) }
    {
        let limit = self.layout.limit as usize;
        let front = preamble_len(&self.default_principal(), self.offset(), limit)?;
        let cells = tail(&self.image, self.layout.places.first);
        let room = room_after_texts(self.layout.version, cells, limit - front)?;
        Some((front, limit - room))
    }
}

impl<A: Allocator + Copy> Ccache<A> {
    // Builds the new image, in memory of exactly its length.
    fn new_image(&self, len: usize) -> Result<Vec<u8, A>, NoMemory>
        requires { len ≡ length (image_of (rewrite_of self.now.state)) }
        ensures { IfOk result (λ v. v.items ≡ image_of (rewrite_of self.now.state)) }
    {
        bytes_fit(&self.image);
        let cells = tail(&self.image, self.layout.places.first);
        build_image(
            *self.image.allocator(),
            &self.default_principal(),
            self.offset(),
            self.layout.version,
            cells,
            len,
        )
    }

    // Builds the rewritten cache, or returns why the rewrite is refused.
    fn new_cache(&self) -> Result<Ccache<A>, Refusal>
        ensures ok { IfOk result (λ k. k.state ≡ rewrite_of self.now.state) }
        ensures gives { OnOk result (rewrite_result self.now.state ≡ Ok (rewrite_of self.now.state)) }
        ensures rewrites { OnOk result (Rewrites (store_of self.now.state) (store_of (rewrite_of self.now.state))) }
        ensures err { IfErr result (λ e. RewriteGives (rewrite_result self.now.state) self.now.state (Err e) self.now.state) }
    {
        if self.fault().is_some() {
            return Err(Refusal::Code(Code::Damaged));
        }
        let Some((first, len)) = self.new_lens() else {
            return Err(Refusal::Code(Code::Full));
        };
        let image = self.new_image(len)?;
        bytes_fit(&self.image);
        bytes_fit(&image);
        let layout = Layout {
            version: Version::V4,
            limit: self.layout.limit,
            places: Places {
                principal: 2 + header_len(self.offset()),
                first,
                end: len,
            },
        };
        Ok(Ccache {
            image,
            layout,
            removed: None,
        })
    }

    /// Rewrites the cache in version 4: a header with nothing but the time offset, if there is one, the default
    /// principal, and the live credentials in order. Moves each cursor to the new place of the first live credential at
    /// or after it, or to the new end. Refuses a damaged cache, and then a new image that would be longer than the
    /// limit. Allocates once, for the new image.
    pub fn rewrite(&mut self, cursors: &mut [u32]) -> Result<(), Refusal>
        requires { AllByRecursion (IsPlace (store_of self.old.state)) cursors.old }
        ensures gives { RewriteGives (rewrite_result self.old.state) self.old.state result self.new.state }
        ensures rewrites { OnOk result (Rewrites (store_of self.old.state) (store_of self.new.state)) }
        ensures carries { OnOk result (cursors.new ≡ map (carry (store_of self.old.state) (store_of self.new.state)) cursors.old) }
        ensures keeps { OnErr result (cursors.new ≡ cursors.old) }
        ensures room { OnErr result (self.new.room ≡ self.old.room) }
    {
        let new = self.new_cache()?;
        bytes_fit(&self.image);
        let Places { first, end, .. } = self.layout.places;
        carry_to(
            self.layout.version,
            &mut self.image,
            first,
            end,
            new.view().cells(),
            cursors,
        );
        *self = new;
        Ok(())
    }
}
