//! Bytes that C reads in place, and names as text: parsing those from C, and writing those into a buffer of C.

ghost use Rattle.std.specs.Prelude.{◌≡◌, ◌<◌, Ok, None, IfOk, IfErr, option_copied};
ghost use Rattle.krb_wire.specs.Reading.{principal_parts};
ghost use Rattle.krb_wire.specs.NameOf.{name_of};
ghost use Rattle.krb_wire.specs.Names.{name_text};
ghost use Rattle.krb_c.specs.Text.{Copies, in_room, IsUnread, AreShown, ShowsBytes};

use crate::heap::{Heap, heap};
use crate::status::{DONE, NO_MEMORY, of_code, of_name};
use krb_walk::Code;
use krb_wire::{Name, Principal, parse_name, write_name};
use std::alloc::Global;
use std::ptr;

/// A pointer to the first byte, and the number of bytes. They are in the memory of a keytab or a cache, and valid until
/// it is changed or closed.
#[repr(C)]
#[derive(Drop)]
pub struct KrbfBytes {
    pub at: *const u8,
    pub len: usize,
}

/// Returns the pointer and the number of bytes. The pointer is null if there are none.
pub fn bytes_of(bytes: &[u8]) -> KrbfBytes
    ensures { AreShown result bytes.now }
{
    let at = match bytes.first() {
        Some(first) => ptr::from_ref(first),
        None => ptr::null(),
    };
    KrbfBytes {
        at,
        len: bytes.len(),
    }
}

/// Returns the name of a text, or the status that says why it has none.
#[tactic(auto, using(crate::proofs::NameLemmas::fault_is))]
pub fn read_name(alloc: Global, text: &[u8]) -> Result<Principal<Heap>, u32>
    ensures ok { IfOk result (λ name. name_of text.now None ≡ Ok (principal_parts name)) }
    ensures err { IfErr result (IsUnread (name_of text.now None)) }
    ensures failed { IfErr result (λ status. 0 < status) }
{
    match parse_name(heap(alloc), text, None) {
        Ok(name) => Ok(name),
        Err(fault) => Err(of_name(fault)),
    }
}

/// Shows the bytes of a name or a number, or returns that there are none.
pub fn show(bytes: Option<&[u8]>, shown: &mut KrbfBytes) -> u32
    ensures { ShowsBytes (option_copied bytes.entry) result shown.old shown.new }
{
    let Some(bytes) = bytes else {
        return of_code(Code::NotFound);
    };
    *shown = bytes_of(bytes);
    DONE
}

/// Copies as many of the items as fit into the buffer `room`.
pub fn put_items<T: Copy>(room: &mut [T], items: &[T])
    ensures { room.new ≡ in_room room.old items.now }
{
    let len = items.len().min(room.len());
    room[..len].copy_from_slice(&items[..len]);
}

/// Copies as much of a name's text as fits into the buffer `room`, and reports the length of the whole text.
pub fn copy_name<N: Name>(alloc: Global, name: &N, room: &mut [u8], len: &mut usize) -> u32
    ensures { Copies (name_text (N.parts name.now)) result room.old room.new len.old len.new }
{
    let mut text = Vec::new(heap(alloc));
    let Ok(()) = write_name(name, &mut text) else {
        return NO_MEMORY;
    };
    put_items(room, &text);
    *len = text.len();
    DONE
}
