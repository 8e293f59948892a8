//! Opens images as keytabs and caches, and reads the standard input.

ghost use Rattle.std.specs.Prelude.{◌≡◌, ◌⊎◌, Err, IfOk, Ok};
ghost use Rattle.krb_ccache.specs.Store.{image_of as cache_image};
ghost use Rattle.krb_files.specs.Files.{answer_of};
ghost use Rattle.krb_keytab.specs.Store.{empty, image_of};
ghost use Rattle.krb_wire.specs.declared.format.KtFormat.TheVariants.{V2};
ghost use Rattle.krb_files.specs.Loading.{most_bytes};
ghost use Rattle.krb_driver.specs.declared.error.RunError.TheVariants as error;
ghost use Rattle.krb_driver.specs.Loading.{fresh_in, keytab_or_empty, opened_cache, opened_keytab, result_map, GivesInput};

use crate::beginning::begins_as;
use crate::error::RunError;
use crate::not_opened::{Expected, NotOpened, OpenFault};
use krb_ccache::Ccache;
use krb_files::{LoadFault, WatchedReader, load};
use krb_keytab::Keytab;
use krb_wire::{KtFormat, Limits, Order};
use std::alloc::Allocator;
use std::io::Read;

/// What a load of a file returned.
pub type Loaded<A> = Result<Vec<u8, A>, LoadFault>;

/// Opens an image as a keytab. `v1_order` is the byte order of version 1.
pub fn keytab_of<A: Allocator>(
    expected: Expected,
    v1_order: Order,
    image: Vec<u8, A>,
) -> Result<Keytab<A>, RunError>
    ensures opens { result_map (λ k. k.state) result ≡ opened_keytab expected v1_order image.items }
    // The bytes are kept as they are.
    ensures kept { IfOk result (λ k. image_of k.state ≡ image.items) }
{
    match Keytab::open(image, v1_order, Limits::usual()) {
        Ok(keytab) => Ok(keytab),
        Err(refused) => Err(RunError::NotOpened(NotOpened {
            fault: OpenFault::Keytab(refused.why),
            begins: begins_as(&refused.image),
            expected,
        })),
    }
}

/// Opens an image as a cache.
pub fn cache_of<A: Allocator>(expected: Expected, image: Vec<u8, A>) -> Result<Ccache<A>, RunError>
    ensures opens { result_map (λ k. k.state) result ≡ opened_cache expected image.items }
    // The bytes are kept as they are.
    ensures kept { IfOk result (λ k. cache_image k.state ≡ image.items) }
{
    match Ccache::open(image, Limits::usual()) {
        Ok(cache) => Ok(cache),
        Err(refused) => Err(RunError::NotOpened(NotOpened {
            fault: OpenFault::Cache(refused.why),
            begins: begins_as(&refused.image),
            expected,
        })),
    }
}

// Returns an empty keytab of version 2.
fn new_keytab<A: Allocator + Copy>(alloc: A) -> Result<Keytab<A>, RunError>
    ensures { (result_map (λ k. k.state) result ≡ Ok (empty V2 most_bytes)) ⊎ (result_map (λ k. k.state) result ≡ Err error.NoMemory) }
{
    match Keytab::create(alloc, KtFormat::V2, Limits::usual()) {
        Ok(keytab) => Ok(keytab),
        Err(_) => Err(RunError::NoMemory),
    }
}

/// Opens what was loaded as a keytab, or returns an empty one of version 2 if the file is missing and not to be saved in
/// place.
pub fn keytab_or_new<A: Allocator + Copy>(
    alloc: A,
    v1_order: Order,
    in_place: bool,
    loaded: Loaded<A>,
) -> Result<Keytab<A>, RunError>
    ensures { (result_map (λ k. k.state) result ≡ keytab_or_empty v1_order in_place (answer_of loaded))
        ⊎ (result_map (λ k. k.state) result ≡ Err error.NoMemory) }
{
    match loaded {
        Err(LoadFault::Missing) if !in_place => new_keytab(alloc),
        loaded => keytab_of(Expected::Keytab, v1_order, loaded?),
    }
}

/// Like `keytab_or_new`, where a file of no bytes gives an empty keytab too.
pub fn keytab_or_fresh<A: Allocator + Copy>(
    alloc: A,
    v1_order: Order,
    in_place: bool,
    loaded: Loaded<A>,
) -> Result<Keytab<A>, RunError>
    ensures { (result_map (λ k. k.state) result ≡ fresh_in v1_order in_place (answer_of loaded))
        ⊎ (result_map (λ k. k.state) result ≡ Err error.NoMemory) }
{
    match loaded {
        Ok(image) if image.is_empty() => new_keytab(alloc),
        loaded => keytab_or_new(alloc, v1_order, in_place, loaded),
    }
}

/// Reads the input to its end, if it has at most `most` bytes.
pub fn read_input<A: Allocator, R: Read>(
    alloc: A,
    input: &mut WatchedReader<R>,
    most: u32,
) -> Result<Vec<u8, A>, LoadFault>
    ensures { GivesInput most input.old input.new (answer_of result) }
{
    load(alloc, input, most, 0)
}
