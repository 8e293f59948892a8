//! Writing cells over an image in place.

ghost use Rattle.std.specs.Prelude.{◌≡◌, ◌≤◌, ◌<◌, ◌^◌, ◌+◌, length, replicate};
ghost use Rattle.std.specs.List.{splice};
ghost use Rattle.krb_wire.specs.Text.{HasRoom, Puts};
ghost use Rattle.krb_wire.specs.Spelling.{order_of};
ghost use Rattle.krb_keytab.specs.Cells.{cell, Live, Free};
ghost use Rattle.krb_keytab.specs.Changes.{with_zeros};
ghost use Rattle.krb_keytab.specs.Laws.{AreBytes};

use crate::form::Form;
use crate::length::Length;
use krb_wire::{KtFormat, Name, Pen};

/// Each number of a slice of bytes is below 256.
pub fn bytes_fit(bytes: &[u8])
    ensures { AreBytes bytes.now }
{}

/// Overwrites the bytes at `at` with a hole of `size` zeros.
pub fn put_hole(format: KtFormat, image: &mut [u8], at: usize, size: usize)
    requires room { at + 4 + size ≤ length image.old }
    requires some { 0 < size }
    requires small { size ≤ 2 ^ 31 }
    ensures { image.new ≡ splice image.old at (at + 4 + size)
        (cell (order_of format) (Free (replicate size 0))) }
{
    let mut pen = Pen::new(image, at);
    pen.put_u32(format.order(), Length::Free(size as u32).field());
    pen.put_zeros(size);
}

/// Writes a record that holds a written form, and no more.
pub fn put_form<N: Name>(form: &Form<'_, N>, pen: &mut Pen<'_>)
    requires room { HasRoom pen.old (cell (order_of form.now.format) (Live form.now.bytes)) }
    requires small { length form.now.bytes < 2 ^ 31 }
    ensures { Puts pen.old pen.new (cell (order_of form.now.format) (Live form.now.bytes)) }
{
    let order = form.format().order();
    pen.put_u32(order, Length::Live(form.len() as u32).field());
    form.put(pen);
}

/// Overwrites the bytes at `at` with a record of `size` bytes: a written form, and zeros after it.
pub fn put_record<N: Name>(image: &mut [u8], at: usize, size: usize, form: &Form<'_, N>)
    requires room { at + 4 + size ≤ length image.old }
    requires fits { length form.now.bytes ≤ size }
    requires some { 0 < size }
    requires small { size < 2 ^ 31 }
    ensures { image.new ≡ splice image.old at (at + 4 + size)
        (cell (order_of form.now.format) (Live (with_zeros form.now.bytes size))) }
{
    let order = form.format().order();
    let mut pen = Pen::new(image, at);
    pen.put_u32(order, Length::Live(size as u32).field());
    form.put(&mut pen);
    pen.put_zeros(size - form.len());
}
