//! The nodes of a tree, in one slice: each has the greater of its two children.

ghost use Rattle.std.specs.Prelude.{◌≡◌, ◌<◌, ◌+◌, ◌-◌, ◌*◌, ◌/◌, ◌^◌, length, drop, max, slice_index, slice_set};
ghost use Rattle.krb_keytab.specs.Nodes.{AreNodes, AreNodesBut, IsTree, child_with};
ghost use Rattle.krb_keytab.specs.Tree.{first_fit, looks_for};

/// Returns the value of a node, and counts the look. Nothing else reads nodes, so that `looks` counts them all.
pub fn look(nodes: &[u32], node: usize, looks: &mut u32) -> u32
    requires there { node < length nodes.now }
    requires few { looks.old < 64 }
    ensures value { result ≡ slice_index nodes.now node }
    ensures counted { looks.new ≡ looks.old + 1 }
{
    *looks += 1;
    nodes[node]
}

// Returns the greater of the children of a node.
fn greater_child(nodes: &[u32], node: usize) -> u32
    requires { 2 * node + 1 < length nodes.now }
    ensures { result ≡ max (slice_index nodes.now (2 * node)) (slice_index nodes.now (2 * node + 1)) }
{
    let mut looks = 0;
    let left = look(nodes, 2 * node, &mut looks);
    let right = look(nodes, 2 * node + 1, &mut looks);
    left.max(right)
}

// Recomputes the nodes over `node`, up to the root.
fn raise(nodes: &mut [u32], leaves: usize, node: usize)
    requires len { length nodes.old ≡ 2 * leaves }
    requires above { 0 < node }
    requires below { node < 2 * leaves }
    requires others { AreNodesBut (node / 2) leaves nodes.old }
    ensures len { length nodes.new ≡ length nodes.old }
    ensures inner { AreNodes leaves nodes.new }
    ensures leaves { drop leaves nodes.new ≡ drop leaves nodes.old }
{
    let mut at = node;
    while at > 1 {
        at = at / 2;
        nodes[at] = greater_child(nodes, at);
    }
}

/// Computes all nodes over the leaves.
pub fn raise_all(nodes: &mut [u32], leaves: usize)
    requires len { length nodes.old ≡ 2 * leaves }
    requires some { 0 < leaves }
    ensures len { length nodes.new ≡ length nodes.old }
    ensures inner { AreNodes leaves nodes.new }
    ensures leaves { drop leaves nodes.new ≡ drop leaves nodes.old }
{
    for done in 1..leaves {
        let at = leaves - done;
        nodes[at] = greater_child(nodes, at);
    }
}

/// Sets the size of a leaf, and recomputes the nodes over it.
pub fn put_leaf(nodes: &mut [u32], leaves: usize, leaf: usize, size: u32)
    requires len { length nodes.old ≡ 2 * leaves }
    requires there { leaf < leaves }
    requires inner { AreNodes leaves nodes.old }
    ensures len { length nodes.new ≡ length nodes.old }
    ensures inner { AreNodes leaves nodes.new }
    ensures leaves { drop leaves nodes.new ≡ slice_set (drop leaves nodes.old) leaf size }
{
    nodes[leaves + leaf] = size;
    raise(nodes, leaves, leaves + leaf);
}

// Returns the first child of a node with a leaf of at least `need` under it, if there is one. Reads only the left
// child.
fn child_with(nodes: &[u32], node: usize, need: usize, looks: &mut u32) -> usize
    requires there { 2 * node + 1 < length nodes.now }
    requires few { looks.old < 64 }
    ensures value { result ≡ child_with need node nodes.now }
    ensures counted { looks.new ≡ looks.old + 1 }
{
    let left = 2 * node;
    if need <= look(nodes, left, looks) as usize {
        return left;
    }
    left + 1
}

/// Returns the first leaf of at least `need`, and how many nodes were read to find it: one on each level, since a
/// right child is taken unread, or the root alone if there is no such leaf.
pub fn first_leaf(nodes: &[u32], height: u32, need: usize) -> (Option<usize>, u32)
    requires { IsTree height nodes.now }
    ensures first { result.0 ≡ first_fit need (drop (2 ^ height) nodes.now) }
    ensures looks { result.1 ≡ looks_for height result.0 }
{
    let mut looks = 0;
    if (look(nodes, 1, &mut looks) as usize) < need {
        return (None, looks);
    }
    let mut node: usize = 1;
    'levels: for _level in 0..height {
        node = child_with(nodes, node, need, &mut looks);
    }
    (Some(node - nodes.len() / 2), looks)
}
