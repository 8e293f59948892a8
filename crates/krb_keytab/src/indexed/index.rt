//! Table and tree together: adding a cell, and changing one.

ghost use Rattle.std.specs.Prelude.{◌≡◌, ◌<◌, ◌≤◌, ◌+◌, ◌*◌, ◌^◌, ◌++◌, ◌∷◌, [], ℕ, length, slice_set, max, IsOk, OnOk, vec_len, vec_capacity};
ghost use Rattle.krb_keytab.specs.Slot.{free_size};
ghost use Rattle.krb_keytab.specs.Tree.{IsHeightFor, HasRoomFor, IsGrown};

use crate::indexed::slot::Slot;
use crate::indexed::tree::{Tree, height_for};
use krb_wire::NoMemory;
use std::alloc::{AllocError, Allocator};

// Returns for how many more cells a full table takes room. A cell takes 8 bytes there, and a leaf 8 in the tree: with
// one more cell both take at most 24 bytes per cell. That still holds when the tree becomes higher, since by then the
// table is full.
fn more_room(count: usize) -> usize
    requires { count < 2 ^ 30 }
    ensures some { 0 < result }
    ensures bytes { (height : ℕ) → IsHeightFor (count + 1) height
        → 8 * (count + result) + 8 * 2 ^ height ≤ 24 * (count + 1) }
    ensures leaves { (height : ℕ) → IsHeightFor (count + 1) height → count + result ≤ 2 ^ height }
{
    let leaves = height_for(count + 1).leaves;
    leaves.min(3 * (count + 1) - leaves) - count
}

// Takes room for more cells if the table is full, within the bound of `bytes`.
fn reserve_slots<A: Allocator>(slots: &mut Vec<Slot, A>) -> Result<(), AllocError>
    requires { vec_len slots.old < 2 ^ 30 }
    ensures slots { slots.new.items ≡ slots.old.items }
    ensures len { vec_len slots.new ≡ vec_len slots.old }
    ensures more { vec_capacity slots.old ≤ vec_capacity slots.new }
    ensures room { OnOk result (vec_len slots.new < vec_capacity slots.new) }
    ensures bytes { OnOk result ((height : ℕ) → IsHeightFor (vec_len slots.old + 1) height
        → 8 * vec_capacity slots.new + 8 * 2 ^ height
        ≤ max (8 * vec_capacity slots.old + 8 * 2 ^ height) (24 * (vec_len slots.old + 1))) }
    ensures memory { vec_len slots.old < vec_capacity slots.old → IsOk result }
{
    if slots.len() < slots.capacity() {
        return Ok(());
    }
    slots.reserve_exact(more_room(slots.len()))
}

/// Takes room for one more cell, if there is none.
pub fn reserve_one<A: Allocator>(
    slots: &mut Vec<Slot, A>,
    tree: &mut Tree<A>,
) -> Result<(), NoMemory>
    requires { vec_len slots.old < 2 ^ 30 }
    ensures slots { slots.new.items ≡ slots.old.items }
    ensures len { vec_len slots.new ≡ vec_len slots.old }
    ensures sizes { tree.new.sizes ≡ tree.old.sizes }
    ensures height { tree.new.height ≡ tree.old.height }
    ensures more_slots { vec_capacity slots.old ≤ vec_capacity slots.new }
    ensures more_nodes { tree.old.room ≤ tree.new.room }
    ensures slot_room { OnOk result (vec_len slots.new < vec_capacity slots.new) }
    ensures node_room { OnOk result (HasRoomFor (vec_len slots.new + 1) tree.new) }
    ensures memory { vec_len slots.old < vec_capacity slots.old → HasRoomFor (vec_len slots.old + 1) tree.old → IsOk result }
{
    reserve_slots(slots)?;
    tree.reserve(slots.len() + 1)?;
    Ok(())
}

// Adds a leaf, for which there is room, to a tree over `count` cells.
fn add_leaf<A: Allocator>(tree: &mut Tree<A>, count: usize)
    requires few { count < 2 ^ 30 }
    requires room { HasRoomFor (count + 1) tree.old }
    requires height { IsHeightFor count tree.old.height }
    ensures grown { IsGrown count tree.old tree.new }
{
    if count < tree.leaves() {
        return;
    }
    tree.double();
}

/// Adds a live cell after the others, for which there is room.
pub fn push_live<A: Allocator>(slots: &mut Vec<Slot, A>, tree: &mut Tree<A>, slot: Slot)
    requires few { vec_len slots.old < 2 ^ 30 }
    requires slot_room { vec_len slots.old < vec_capacity slots.old }
    requires node_room { HasRoomFor (vec_len slots.old + 1) tree.old }
    requires height { IsHeightFor (vec_len slots.old) tree.old.height }
    ensures slots { slots.new.items ≡ slots.old.items ++ slot ∷ [] }
    ensures grown { IsGrown (vec_len slots.old) tree.old tree.new }
{
    add_leaf(tree, slots.len());
    slots.push_reserved(slot);
}

/// Sets the slot of the cell with this number, and its free size in the tree.
pub fn put_slot<A: Allocator>(
    slots: &mut Vec<Slot, A>,
    tree: &mut Tree<A>,
    number: usize,
    slot: Slot,
)
    requires there { number < vec_len slots.old }
    requires leaf { number < length tree.old.sizes }
    ensures slots { slots.new.items ≡ slice_set slots.old.items number slot }
    ensures len { vec_len slots.new ≡ vec_len slots.old }
    ensures slot_room { vec_capacity slots.new ≡ vec_capacity slots.old }
    ensures sizes { tree.new.sizes ≡ slice_set tree.old.sizes number (free_size slot) }
    ensures height { tree.new.height ≡ tree.old.height }
    ensures node_room { tree.new.room ≡ tree.old.room }
{
    slots[number] = slot;
    tree.set(number, slot.free_size());
}
