//! Replacing one cell of an image by another of its size.

ghost use Rattle.std.specs.Prelude.{◌≡◌, length, drop, IfSome, IsSome, Some};
ghost use Rattle.krb_keytab.specs.Cells.{contents};
ghost use Rattle.krb_walk.specs.Store.{live_bytes};
ghost use Rattle.krb_keytab.specs.Store.{store_of_image};
ghost use Rattle.krb_keytab.specs.CellViews.{AreKnown};
ghost use Rattle.krb_keytab.specs.Image.{IsChanged};
ghost use Rattle.krb_keytab.specs.Changes.{replaced_at, zero_hole, record_in, hole_from};

use crate::cells::Hole;
use crate::form::Form;
use crate::image::CellsEnd;
use crate::put::{bytes_fit, put_hole, put_record};
use krb_wire::{KtFormat, Name};

/// Turns the live cell at `place`, of `size` bytes, into a hole of zeros.
pub fn free_cell(format: KtFormat, image: &mut [u8], end: CellsEnd, place: usize, size: usize)
    requires known { AreKnown format image.old 2 end }
    requires live { IsSome (live_bytes (store_of_image format image.old) place) }
    requires size { IfSome (live_bytes (store_of_image format image.old) place) (λ b. length b ≡ size) }
    ensures len { length image.new ≡ length image.old }
    ensures count { length (contents format (drop 2 image.new)).cells ≡ length (contents format (drop 2 image.old)).cells }
    ensures changed { IsChanged format image.old image.new (record {
      cells = replaced_at 2 zero_hole place (contents format (drop 2 image.old)).cells;
      end = (contents format (drop 2 image.old)).end;
    }) end }
{
    bytes_fit(image);
    let _ = end;
    put_hole(format, image, place, size);
}

/// Turns the first hole that is large enough into a record of its size.
pub fn fill_hole<N: Name>(image: &mut [u8], end: CellsEnd, hole: Hole, form: &Form<'_, N>)
    requires known { AreKnown form.now.format image.old 2 end }
    requires hole { hole_from 2 (length form.now.bytes)
        (contents form.now.format (drop 2 image.old)).cells ≡ Some hole }
    ensures len { length image.new ≡ length image.old }
    ensures count { length (contents form.now.format (drop 2 image.new)).cells
        ≡ length (contents form.now.format (drop 2 image.old)).cells }
    ensures changed { IsChanged form.now.format image.old image.new (record {
      cells = replaced_at 2 (record_in form.now.bytes) hole.place
          (contents form.now.format (drop 2 image.old)).cells;
      end = (contents form.now.format (drop 2 image.old)).end;
    }) end }
{
    bytes_fit(image);
    let _ = form.len();
    put_record(image, hole.place, hole.size, form);
}
