//! Appending a credential to an image.

ghost use Rattle.std.specs.Prelude.{◌≡◌, ◌≤◌, ◌<◌, ◌^◌, ◌+◌, ◌++◌, [], length, replicate, IfOk, OnOk, OnErr, vec_len, vec_capacity};
ghost use Rattle.std.specs.List.{splice};
ghost use Rattle.krb_ccache.specs.declared.version.Version.TheVariants.{V4};
ghost use Rattle.krb_ccache.specs.Credential.{credential, FitsCredential};
ghost use Rattle.krb_ccache.specs.Changes.{with_last};
ghost use Rattle.krb_ccache.specs.Open.{cache_of, Holds, IsImage};

use crate::cells::bytes_fit;
use crate::credential::Cred;
use crate::open::{Layout, Places};
use krb_wire::Pen;
use std::alloc::{AllocError, Allocator};

// Appends `more` zero bytes to an image.
fn grow<A: Allocator>(image: &mut Vec<u8, A>, more: usize) -> Result<(), AllocError>
    requires { vec_len image.old + more ≤ 2 ^ 30 }
    ensures ok { OnOk result (image.new.items ≡ image.old.items ++ replicate more 0) }
    ensures err { OnErr result (image.new.items ≡ image.old.items) }
    ensures full { OnErr result (vec_capacity image.old < vec_len image.old + more) }
{
    let len = image.len();
    image.resize(len + more, 0)
}

// Writes a credential over the bytes from `at` on.
fn put_over<A: Allocator>(cred: &Cred<A>, out: &mut [u8], at: usize)
    requires fits { FitsCredential V4 cred.now }
    requires room { at + length (credential V4 cred.now) ≤ length out.old }
    ensures { out.new ≡ splice out.old at (at + length (credential V4 cred.now)) (credential V4 cred.now) }
{
    cred.put(&mut Pen::new(out, at));
}

// Like `put_over`, in a `Vec`.
fn put_into<A: Allocator, B: Allocator>(image: &mut Vec<u8, A>, at: usize, cred: &Cred<B>)
    requires fits { FitsCredential V4 cred.now }
    requires room { at + length (credential V4 cred.now) ≤ vec_len image.old }
    ensures { image.new.items ≡ splice image.old.items at (at + length (credential V4 cred.now)) (credential V4 cred.now) }
{
    put_over(cred, image, at);
}

/// Appends a credential of `len` bytes to an image and returns the new layout.
pub fn append_credential<A: Allocator, B: Allocator>(
    image: &mut Vec<u8, A>,
    layout: Layout,
    cred: &Cred<B>,
    len: usize,
) -> Result<Layout, AllocError>
    requires kept { IsImage layout image.old.items }
    requires version { layout.version ≡ V4 }
    requires whole { (cache_of layout image.old.items).contents.end ≡ [] }
    requires fits { FitsCredential V4 cred.now }
    requires len { len ≡ length (credential V4 cred.now) }
    requires room { vec_len image.old + len ≤ layout.limit }
    ensures ok { IfOk result (λ h. Holds h image.new.items (with_last (cache_of layout image.old.items) cred.now)) }
    ensures err { OnErr result (image.new.items ≡ image.old.items) }
    ensures full { OnErr result (vec_capacity image.old < vec_len image.old + len) }
{
    bytes_fit(image);
    let end = image.len();
    grow(image, len)?;
    put_into(image, end, cred);
    bytes_fit(image);
    let places = Places {
        end: end + len,
        ..layout.places
    };
    Ok(Layout { places, ..layout })
}
