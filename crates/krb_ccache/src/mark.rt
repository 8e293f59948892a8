//! The removed mark, written over a credential in place.

ghost use Rattle.std.specs.Prelude.{◌≡◌, ◌≤◌, ◌+◌, ℕ, List, length, drop, IsSome, Some};
ghost use Rattle.std.specs.List.{splice};
ghost use Rattle.krb_wire.specs.Reading.{Gives};
ghost use Rattle.krb_ccache.specs.Credential.{CredParts, number32, credential, credential_at};
ghost use Rattle.krb_ccache.specs.Changes.{add_mark, with_mark};
ghost use Rattle.krb_ccache.specs.Credentials.{times_from};
ghost use Rattle.krb_ccache.specs.Open.{cache_of, Holds, IsImage};
ghost use Rattle.krb_ccache.specs.Store.{credential_at_place};

use crate::cells::bytes_fit;
use crate::credential::key::split_key;
use crate::credential::times::{MARKED_AUTHTIME, MARKED_ENDTIME};
use crate::open::Layout;
use crate::version::Version;
use krb_wire::{Order, Pen, split_cc_principal, tail};

// Returns the bytes from the times on of the credential that the bytes begin with, if any.
#[tactic(auto, unfolding(crate::specs::Credentials::times_from))]
fn skip_to_times(version: Version, bytes: &[u8]) -> Option<&[u8]>
    ensures { Gives (λ x. x.now) result (times_from version bytes.now) }
{
    let (_, rest) = split_cc_principal(bytes)?;
    let (_, rest) = split_cc_principal(rest)?;
    let (_, rest) = split_key(version, rest)?;
    Some(rest)
}

// Writes a time over the four bytes at `at`.
fn put_time(time: u32, image: &mut [u8], at: usize)
    requires { at + 4 ≤ length image.old }
    ensures { image.new ≡ splice image.old at (at + 4) (number32 time) }
{
    Pen::new(image, at).put_u32(Order::Big, time);
}

// Marks the credential at `place` as removed: writes two of its times, and no other byte.
fn mark(version: Version, image: &mut [u8], place: usize)
    requires within { place ≤ length image.old }
    requires there { IsSome (credential_at version (drop place image.old)) }
    ensures marked { (c : CredParts) (rest : List ℕ) → credential_at version (drop place image.old) ≡ Some (c, rest)
        → image.new ≡ splice image.old place (place + length (credential version c)) (credential version (add_mark c)) }
    ensures len { length image.new ≡ length image.old }
{
    bytes_fit(image);
    let Some(times) = skip_to_times(version, tail(image, place)) else {
        unreachable!()
    };
    let authtime = image.len() - times.len();
    put_time(MARKED_AUTHTIME, image, authtime);
    put_time(MARKED_ENDTIME, image, authtime + 8);
}

/// Marks the live credential at `place` of an image as removed.
pub fn mark_in_image(layout: Layout, image: &mut [u8], place: usize)
    requires kept { IsImage layout image.old }
    requires live { IsSome (credential_at_place (cache_of layout image.old) place) }
    ensures marked { Holds layout image.new (with_mark (cache_of layout image.old) place) }
    ensures len { length image.new ≡ length image.old }
{
    bytes_fit(image);
    mark(layout.version, image, place);
    bytes_fit(image);
}
