//! Adding records after the cells of an image.

ghost use Rattle.std.specs.Prelude.{◌≡◌, ◌≤◌, ◌<◌, ◌^◌, ◌+◌, ◌-◌, ◌++◌, ◌∷◌, [], None, length, drop, take, replicate, IfOk, OnOk, OnErr, vec_len, vec_capacity};
ghost use Rattle.std.specs.List.{splice};
ghost use Rattle.krb_wire.specs.Spelling.{order_of};
ghost use Rattle.krb_keytab.specs.Cells.{cell, contents, Live, kind_of};
ghost use Rattle.krb_keytab.specs.Image.{IsKnownEnd, IsChanged, mark_len, len_with};
ghost use Rattle.krb_keytab.specs.Changes.{end_after};

use crate::form::Form;
use crate::image::{CellsEnd, Ending};
use crate::put::{bytes_fit, put_form};
use krb_wire::{Name, Pen};
use std::alloc::{AllocError, Allocator};

// Returns how many bytes an end mark takes after an appended record: it is kept there.
fn mark_len(ending: Ending) -> usize
    ensures { result ≡ mark_len ending }
{
    match ending {
        Ending::Mark => 4,
        _ => 0,
    }
}

/// Returns the length of the image with a record of `need` bytes after its cells.
pub fn len_with(end: CellsEnd, need: usize) -> usize
    requires place { end.place ≤ 2 ^ 30 }
    requires need { need < 2 ^ 34 }
    ensures { result ≡ len_with end need }
{
    end.place + 4 + need + mark_len(end.ending)
}

// Sets the length, and keeps the bytes before `at`. Takes memory only if the image becomes longer.
fn set_len<A: Allocator>(image: &mut Vec<u8, A>, at: usize, len: usize) -> Result<(), AllocError>
    requires kept { at ≤ vec_len image.old }
    requires beyond { at ≤ len }
    ensures ok { OnOk result (take at image.new.items ≡ take at image.old.items) }
    ensures len { OnOk result (vec_len image.new ≡ len) }
    ensures err { OnErr result (image.new.items ≡ image.old.items) }
    ensures full { OnErr result (vec_len image.old < len) }
    ensures room { len ≤ vec_len image.old → vec_capacity image.new ≡ vec_capacity image.old }
{
    if len <= image.len() {
        image.truncate(len);
        return Ok(());
    }
    image.resize(len, 0)
}

// Overwrites all bytes from `at` on with a record, and zeros after it.
fn put_last<N: Name>(image: &mut [u8], at: usize, form: &Form<'_, N>)
    requires room { at + 4 + length form.now.bytes ≤ length image.old }
    requires small { length form.now.bytes < 2 ^ 31 }
    ensures { image.new ≡ splice image.old at (length image.old)
        (cell (order_of form.now.format) (Live form.now.bytes)
        ++ replicate (length image.old - (at + 4 + length form.now.bytes)) 0) }
{
    let need = form.len();
    let len = image.len();
    let mut pen = Pen::new(image, at);
    put_form(form, &mut pen);
    pen.put_zeros(len - (at + 4 + need));
}

// Like `put_last`, in a `Vec` whose length stays.
fn put_after<A: Allocator, N: Name>(image: &mut Vec<u8, A>, at: usize, form: &Form<'_, N>)
    requires room { at + 4 + length form.now.bytes ≤ vec_len image.old }
    requires small { length form.now.bytes < 2 ^ 31 }
    ensures len { vec_len image.new ≡ vec_len image.old }
    ensures room { vec_capacity image.new ≡ vec_capacity image.old }
    ensures written { image.new.items ≡ splice image.old.items at (length image.old.items)
        (cell (order_of form.now.format) (Live form.now.bytes)
        ++ replicate (length image.old.items - (at + 4 + length form.now.bytes)) 0) }
{
    put_last(image, at, form);
}

/// Adds a record after the cells, and keeps the end mark if there is one. Returns where the cells end then.
pub fn append_record<A: Allocator, N: Name>(
    image: &mut Vec<u8, A>,
    end: CellsEnd,
    form: &Form<'_, N>,
) -> Result<CellsEnd, AllocError>
    requires long { 2 ≤ vec_len image.old }
    requires small { vec_len image.old ≤ 2 ^ 30 }
    requires room { len_with end (length form.now.bytes) ≤ 2 ^ 30 }
    requires known { IsKnownEnd form.now.format image.old.items end }
    requires whole { kind_of (contents form.now.format (drop 2 image.old.items)).end ≡ None }
    ensures changed { IfOk result (λ e. IsChanged form.now.format image.old.items image.new.items
        (record {
          cells = (contents form.now.format (drop 2 image.old.items)).cells
              ++ Live form.now.bytes ∷ [];
          end = end_after (contents form.now.format (drop 2 image.old.items)).end;
        }) e) }
    ensures len { OnOk result (vec_len image.new ≡ len_with end (length form.now.bytes)) }
    ensures err { OnErr result (image.new.items ≡ image.old.items) }
    ensures full { OnErr result (vec_len image.old < len_with end (length form.now.bytes)) }
    // No memory is taken unless the image becomes longer.
    ensures room { len_with end (length form.now.bytes) ≤ vec_len image.old
        → vec_capacity image.new ≡ vec_capacity image.old }
{
    bytes_fit(image);
    let need = form.len();
    set_len(image, end.place, len_with(end, need))?;
    let after = CellsEnd {
        place: end.place + 4 + need,
        ending: end.ending,
    };
    put_after(image, end.place, form);
    Ok(after)
}
