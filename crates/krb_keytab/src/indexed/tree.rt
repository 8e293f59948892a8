//! A tree over a list of sizes.

ghost use Rattle.std.specs.Prelude.{◌≡◌, ◌<◌, ◌≤◌, ◌+◌, ◌-◌, ◌*◌, ◌^◌, ◌++◌, length, map, drop, take, replicate, slice_set, IfOk, IsOk, OnOk, vec_len, vec_capacity};
ghost use Rattle.krb_keytab.specs.Nodes.{AreNodes};
ghost use Rattle.krb_keytab.specs.Slot.{free_size};
ghost use Rattle.krb_keytab.specs.Tree.{first_fit, looks_for, IsHeightFor, HasRoomFor};

use crate::indexed::nodes::{first_leaf, put_leaf, raise_all};
use crate::indexed::slot::Slot;
use krb_wire::NoMemory;
use std::alloc::{AllocError, Allocator};
use std::marker::Model;

/// A list of sizes, whose number is a power of two, and over each two the greater of them, up to the greatest of all.
/// Contracts see the sizes, the number of levels over them, and for how many nodes there is room.
#[derive(Drop)]
pub struct Tree<A: Allocator> {
    nodes: Vec<u32, A>,
    height: u32,
}

impl<A: Allocator> Model for Tree<A> {
    ghost use Rattle.std.specs.Prelude.{◌^◌, drop, vec_capacity};
    ghost use Rattle.krb_keytab.specs.Tree.{SizeTree};
    ghost use Rattle.krb_keytab.specs.Nodes.{IsTree};

    ghost Value = { SizeTree };

    ghost view = { λ t. record {
      sizes = drop (2 ^ t.height) t.nodes.items;
      height = t.height;
      room = vec_capacity t.nodes;
    } };

    ghost invariant = { λ t. IsTree t.height t.nodes.items };
}

// Sets the leaves to the free size of each cell, and computes the nodes over them.
fn put_leaves(nodes: &mut [u32], leaves: usize, slots: &[Slot])
    requires len { length nodes.old ≡ 2 * leaves }
    requires some { 0 < leaves }
    requires fits { length slots.now ≤ leaves }
    ensures len { length nodes.new ≡ length nodes.old }
    ensures inner { AreNodes leaves nodes.new }
    ensures leaves { drop leaves nodes.new ≡ map free_size slots.now ++ drop (leaves + length slots.now) nodes.old }
{
    put_sizes(&mut nodes[leaves..], slots);
    raise_all(nodes, leaves);
}

// Overwrites the first of the sizes with the free size of each cell.
fn put_sizes(sizes: &mut [u32], slots: &[Slot])
    requires { length slots.now ≤ length sizes.old }
    ensures { sizes.new ≡ map free_size slots.now ++ drop (length slots.now) sizes.old }
{
    for i in 0..slots.len() {
        sizes[i] = slots[i].free_size();
    }
}

// Appends `more` zeros. There is room for them.
fn add_zeros<A: Allocator>(nodes: &mut Vec<u32, A>, more: usize)
    requires room { vec_len nodes.old + more ≤ vec_capacity nodes.old }
    ensures items { nodes.new.items ≡ nodes.old.items ++ replicate more 0 }
    ensures len { vec_len nodes.new ≡ vec_len nodes.old + more }
    ensures room { vec_capacity nodes.old ≤ vec_capacity nodes.new }
{
    let len = nodes.len() + more;
    let _ = nodes.resize(len, 0);
}

// Turns the tree at the front of the nodes into one with twice as many leaves.
fn spread(nodes: &mut [u32], leaves: usize)
    requires len { length nodes.old ≡ 4 * leaves }
    requires some { 0 < leaves }
    ensures len { length nodes.new ≡ length nodes.old }
    ensures inner { AreNodes (2 * leaves) nodes.new }
    ensures leaves { drop (2 * leaves) nodes.new ≡ take leaves (drop leaves nodes.old) ++ drop (3 * leaves) nodes.old }
{
    nodes.copy_within(leaves..2 * leaves, 2 * leaves);
    raise_all(nodes, 2 * leaves);
}

impl<A: Allocator> Tree<A> {
    /// Returns the tree over the free size of each cell, with room for one more.
    #[tactic(auto, using(crate::proofs::SizeLemmas::filled))]
    pub fn of(alloc: A, slots: &[Slot]) -> Result<Tree<A>, NoMemory>
        requires { length slots.now < 2 ^ 30 }
        ensures sizes { IfOk result (λ t. t.sizes
            ≡ map free_size slots.now ++ replicate (2 ^ t.height - length slots.now) 0) }
        ensures height { IfOk result (λ t. IsHeightFor (length slots.now) t.height) }
        ensures room { IfOk result (λ t. HasRoomFor (length slots.now + 1) t) }
    {
        let height = height_for(slots.len());
        let more = height_for(slots.len() + 1);
        let mut nodes = Vec::with_capacity(alloc, 2 * more.leaves)?;
        add_zeros(&mut nodes, 2 * height.leaves);
        put_leaves(&mut nodes, height.leaves, slots);
        Ok(Tree {
            nodes,
            height: height.levels,
        })
    }

    /// Returns how many sizes there are.
    pub fn leaves(&self) -> usize
        ensures leaves { result ≡ length self.now.sizes }
        ensures power { result ≡ 2 ^ self.now.height }
        ensures low { self.now.height ≤ 30 }
        ensures room { 2 * result ≤ self.now.room }
    {
        self.nodes.len() / 2
    }

    /// Returns the number of the first size of at least `need`, and how many nodes were read to find it.
    pub fn first_fit(&self, need: usize) -> (Option<usize>, u32)
        ensures first { result.0 ≡ first_fit need self.now.sizes }
        ensures looks { result.1 ≡ looks_for self.now.height result.0 }
    {
        first_leaf(&self.nodes, self.height, need)
    }

    /// Sets one of the sizes.
    pub fn set(&mut self, leaf: usize, size: u32)
        requires { leaf < length self.old.sizes }
        ensures sizes { self.new.sizes ≡ slice_set self.old.sizes leaf size }
        ensures height { self.new.height ≡ self.old.height }
        ensures room { self.new.room ≡ self.old.room }
    {
        let leaves = self.leaves();
        put_leaf(&mut self.nodes, leaves, leaf, size);
    }

    /// Takes room for this many sizes.
    pub fn reserve(&mut self, count: usize) -> Result<(), AllocError>
        requires { count ≤ 2 ^ 30 }
        ensures sizes { self.new.sizes ≡ self.old.sizes }
        ensures height { self.new.height ≡ self.old.height }
        ensures room { OnOk result (HasRoomFor count self.new) }
        ensures memory { HasRoomFor count self.old → IsOk result }
        ensures grows { self.old.room ≤ self.new.room }
        ensures kept { HasRoomFor count self.old → self.new.room ≡ self.old.room }
    {
        let nodes = 2 * height_for(count).leaves;
        if nodes <= self.nodes.capacity() {
            return Ok(());
        }
        self.nodes.reserve_exact(nodes - self.nodes.len())
    }

    /// Doubles the number of sizes, for which there is room. The new ones are 0.
    pub fn double(&mut self)
        requires low { self.old.height < 30 }
        requires room { 4 * length self.old.sizes ≤ self.old.room }
        ensures sizes { self.new.sizes ≡ self.old.sizes ++ replicate (length self.old.sizes) 0 }
        ensures height { self.new.height ≡ self.old.height + 1 }
        ensures room { self.old.room ≤ self.new.room }
    {
        let leaves = self.leaves();
        add_zeros(&mut self.nodes, 2 * leaves);
        spread(&mut self.nodes, leaves);
        self.height += 1;
    }
}

/// A number of levels, and how many leaves are under them.
#[derive(Clone, Copy, Debug, PartialEq, Eq)]
pub struct Height {
    pub levels: u32,
    pub leaves: usize,
}

/// Returns the least height with at least `count` leaves. Their number is a power of two.
pub fn height_for(count: usize) -> Height
    requires { count ≤ 2 ^ 30 }
    ensures least { IsHeightFor count result.levels }
    ensures leaves { result.leaves ≡ 2 ^ result.levels }
    ensures few { 0 < count → result.leaves < 2 * count }
    ensures low { result.levels ≤ 30 }
{
    let mut levels: u32 = 0;
    let mut leaves: usize = 1;
    while leaves < count {
        levels += 1;
        leaves *= 2;
    }
    Height { levels, leaves }
}
