//! Images of keytabs and caches without a fault.

ghost use Rattle.std.specs.Prelude.{◌≡◌, IfOk};
ghost use Rattle.krb_walk.specs.declared.refusal.Code.TheVariants.{Damaged};
ghost use Rattle.krb_driver.specs.declared.error.RunError.TheVariants.{Refused};
ghost use Rattle.krb_driver.specs.Loading.{result_map};
ghost use Rattle.krb_editors.specs.Hold.{framed, fault_in, file_kind, given_by, whole_in};

use crate::hold::frame::image_in;
use crate::hold::words::HoldKind;
use krb_driver::{Expected, RunError, cache_of, keytab_of};
use krb_walk::{Code, Fault};
use krb_wire::USUAL_LIMIT;
use std::alloc::Allocator;

// Opens an image of that kind, and returns it with its fault, if it has one.
fn opened<A: Allocator>(
    kind: HoldKind,
    image: Vec<u8, A>,
) -> Result<(Vec<u8, A>, Option<Fault>), RunError>
    ensures fault { result_map (λ given. given.1) result ≡ fault_in kind image.items }
    // The bytes are kept as they are.
    ensures kept { IfOk result (λ given. given.0.items ≡ image.items) }
{
    match kind {
        HoldKind::Keytab(v1_order) => {
            let keytab = keytab_of(Expected::Keytab, v1_order, image)?;
            let fault = keytab.fault();
            Ok((keytab.into_image(), fault))
        }
        HoldKind::Cache => {
            let cache = cache_of(Expected::CacheToHold, image)?;
            let fault = cache.fault();
            Ok((cache.into_image(), fault))
        }
    }
}

/// Returns the image of a file, which is to be of that kind and not damaged.
pub fn whole<A: Allocator>(kind: HoldKind, image: Vec<u8, A>) -> Result<Vec<u8, A>, RunError>
    ensures { result_map (λ image. image.items) result ≡ whole_in (λ fault. Refused (file_kind kind) Damaged) kind image.items }
{
    match opened(kind, image)? {
        (image, None) => Ok(image),
        (_, Some(_)) => Err(RunError::Refused(kind.file_kind(), Code::Damaged)),
    }
}

/// Returns the image in the frame that was given.
pub fn given_by<A: Allocator>(kind: HoldKind, text: Vec<u8, A>) -> Result<Vec<u8, A>, RunError>
    ensures { result_map (λ image. image.items) result ≡ given_by kind (framed text.items) }
{
    let Some(image) = image_in(text) else {
        return Err(RunError::InputNotWhole);
    };
    if image.len() > USUAL_LIMIT as usize {
        return Err(RunError::InputTooLarge);
    }
    match opened(kind, image)? {
        (image, None) => Ok(image),
        (_, Some(fault)) => Err(RunError::DamagedInput(fault)),
    }
}
