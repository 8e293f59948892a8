//! Opens a file as a keytab or a cache, as its first bytes say.

ghost use Rattle.std.specs.Prelude.{◌≡◌};
ghost use Rattle.krb_driver.specs.Either.{contents_of, state_of};
ghost use Rattle.krb_driver.specs.Loading.{result_map};

use crate::beginning::begins_as;
use crate::error::RunError;
use crate::loading::{cache_of, keytab_of};
use crate::not_opened::Expected;
use crate::opening::Opener;
use krb_ccache::Ccache;
use krb_files::Files;
use krb_keytab::Keytab;
use krb_wire::{Order, USUAL_LIMIT};
use std::alloc::Allocator;

/// What a file is.
#[derive(Drop)]
pub enum Contents<A: Allocator> {
    Keytab(Keytab<A>),
    Cache(Ccache<A>),
}

// Opens an image that begins as a keytab as one, and any other as a cache. `v1_order` is the byte order of version 1.
fn contents_of<A: Allocator>(v1_order: Order, image: Vec<u8, A>) -> Result<Contents<A>, RunError>
    ensures { result_map state_of result ≡ contents_of v1_order image.items }
{
    if begins_as(&image).is_keytab() {
        let keytab = keytab_of(Expected::Keytab, v1_order, image)?;
        return Ok(Contents::Keytab(keytab));
    }
    let cache = cache_of(Expected::Either, image)?;
    Ok(Contents::Cache(cache))
}

/// A keytab or a cache, as its first bytes say. The byte order is that of keytabs of version 1.
#[derive(Clone, Copy)]
pub struct EitherUse(pub Order);

impl<A: Allocator + Copy> Opener<A> for EitherUse {
    ghost use Rattle.krb_driver.specs.Either.{EitherState, contents_in, state_of};

    type Opened = Contents<A>;

    ghost State = { EitherState };

    ghost state_of = { state_of };

    ghost gives = { λ either in_place. contents_in either.0 };

    fn load<F: Files>(
        &self,
        alloc: A,
        in_place: bool,
        files: &mut F,
        name: &str,
    ) -> Result<Contents<A>, RunError> {
        let image = files.load(alloc, name, USUAL_LIMIT)?;
        contents_of(self.0, image)
    }
}
