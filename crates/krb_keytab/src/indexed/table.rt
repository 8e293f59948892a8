//! A table of cells, in order.

ghost use Rattle.std.specs.Prelude.{◌≡◌, ◌<◌, ◌≤◌, ◌+◌, ◌^◌, [], length, IfOk, vec_len, vec_capacity};
ghost use Rattle.krb_keytab.specs.Slot.{slots_from, places, IsRising, IsRank};

use crate::indexed::slot::Slot;
use crate::keytab::Keytab;
use krb_wire::NoMemory;
use std::alloc::Allocator;

// Pushes a slot for each cell of a keytab into an empty table that has room for them.
fn push_slots<A: Allocator, B: Allocator>(slots: &mut Vec<Slot, A>, keytab: &Keytab<B>)
    requires empty { slots.old.items ≡ [] }
    requires room { length keytab.now.state.contents.cells ≤ vec_capacity slots.old }
    ensures slots { slots.new.items ≡ slots_from 2 keytab.now.state.contents.cells }
    ensures len { vec_len slots.new ≡ length keytab.now.state.contents.cells }
    ensures room { vec_capacity slots.new ≡ vec_capacity slots.old }
{
    for (place, cell) in keytab.cells() {
        slots.push_reserved(Slot::of(place, cell));
    }
}

/// Returns the table of a keytab's cells, with room for exactly one more.
pub fn table_of<A: Allocator, B: Allocator>(
    alloc: A,
    keytab: &Keytab<B>,
) -> Result<Vec<Slot, A>, NoMemory>
    ensures slots { IfOk result (λ t. t.items ≡ slots_from 2 keytab.now.state.contents.cells) }
    ensures room { IfOk result (λ t. vec_capacity t ≡ vec_len t + 1) }
    ensures few { IfOk result (λ t. vec_len t < 2 ^ 30) }
{
    let count = keytab.cell_count() as usize;
    let mut slots = Vec::with_capacity(alloc, count + 1)?;
    push_slots(&mut slots, keytab);
    Ok(slots)
}

/// Returns how many cells start before `place`, by binary search.
pub fn rank(slots: &[Slot], place: u32) -> usize
    requires { IsRising (places slots.now) }
    ensures { IsRank (places slots.now) place result }
{
    slots.partition_point(|slot| slot.place < place)
}
