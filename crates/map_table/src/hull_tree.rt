//! A tree of hulls over leaves, and a search for the next leaf that meets some bytes.

ghost use Rattle.std.specs.Prelude.{◌≡◌, ◌<◌, ◌*◌, IfOk, MatchOption, length};
ghost use Rattle.map_table.specs.Hulls.{AllPast, AreHulls, Encloses, IsNextLeaf, is_past, node_at};

use permission_map::Memory;
use std::alloc::Global;
use std::marker::Model;

/// The bytes from `base` up to `end`, and a number: that of the extent for a leaf, otherwise the lowest of the extents
/// inside the hull.
#[derive(Clone, Copy)]
pub(crate) struct Hull {
    pub(crate) base: u64,
    pub(crate) end: u64,
    pub(crate) number: usize,
}

const EMPTY: Hull = Hull {
    base: 0,
    end: 0,
    number: 0,
};

/// Returns the smallest hull of both, with the lower number.
fn join(a: Hull, b: Hull) -> Hull
    ensures first { Encloses result a }
    ensures second { Encloses result b }
{
    Hull {
        base: a.base.min(b.base),
        end: a.end.max(b.end),
        number: a.number.min(b.number),
    }
}

/// Returns whether the hull has no number below `bound`, or ends before `first` or begins at `end` or later.
fn is_past(hull: Hull, bound: usize, first: u64, end: u64) -> bool
    ensures { result ≡ is_past hull bound first end }
{
    bound <= hull.number || end <= hull.base || hull.end <= first
}

/// Returns the node with an index: a leaf, or the hull of its two children.
fn node(hulls: &[Hull], leaves: &[Hull], index: usize) -> Hull
    requires hulls { length hulls.now ≡ length leaves.now }
    requires inside { index < 2 * length leaves.now }
    ensures { result ≡ node_at hulls.now leaves.now index }
{
    if index < leaves.len() {
        hulls[index]
    } else {
        leaves[index - leaves.len()]
    }
}

/// Returns the hulls of leaves. The only error is a failed allocation.
fn hulls_of(alloc: Global, leaves: &[Hull]) -> Result<Vec<Hull>, Memory>
    ensures { IfOk result (λ hulls. AreHulls hulls.items leaves.now) }
{
    let mut hulls = vec![in alloc; EMPTY; leaves.len()]?;
    let mut i = leaves.len();
    while 1 < i {
        i -= 1;
        let left = node(hulls.as_slice(), leaves, 2 * i);
        let right = node(hulls.as_slice(), leaves, 2 * i + 1);
        hulls[i] = join(left, right);
    }
    Ok(hulls)
}

/// Leaves by their indices, under a binary tree of hulls: with n leaves, node n + k is leaf k, and node m, from 1 to n
/// - 1, is the hull of the nodes 2m and 2m + 1, with the lower of their numbers.
#[derive(Drop)]
pub(crate) struct HullTree {
    leaves: Vec<Hull>,
    hulls: Vec<Hull>,
}

impl Model for HullTree {
    ghost use Rattle.std.specs.Prelude.{List};
    ghost use Rattle.map_table.specs.declared.hull_tree.Hull.{Hull};
    ghost use Rattle.map_table.specs.Hulls.{AreHulls};

    ghost Value = { List Hull };

    ghost view = { λ t. t.leaves.items };

    ghost invariant = { λ t. AreHulls t.hulls.items t.leaves.items };
}

impl HullTree {
    /// Builds the tree of leaves. The only error is a failed allocation.
    pub(crate) fn new(alloc: Global, leaves: Vec<Hull>) -> Result<HullTree, Memory>
        ensures { IfOk result (λ tree. tree ≡ leaves.items) }
    {
        let hulls = hulls_of(alloc, leaves.as_slice())?;
        Ok(HullTree { leaves, hulls })
    }

    /// Returns the leaves, by their indices.
    pub(crate) fn leaves(&self) -> &[Hull]
        ensures { result.now ≡ self.now }
    {
        self.leaves.as_slice()
    }

    /// Returns the index of the first leaf, from `from` on, with a number below `bound`, that begins before byte `end`
    /// and ends after byte `first`, or `None`. If a node does not qualify, all leaves below it are skipped.
    pub(crate) fn next_leaf(&self, from: usize, bound: usize, first: u64, end: u64) -> Option<usize>
        ensures { MatchOption result (AllPast self.now from (length self.now) bound first end)
            (λ place. IsNextLeaf self.now from bound first end place) }
    {
        let count = self.leaves.len();
        if count <= from {
            return None;
        }
        let mut leaf = count + from;
        let mut height = 0u32;
        while leaf < 2 * count {
            let index = leaf >> height;
            let hull = node(self.hulls.as_slice(), self.leaves.as_slice(), index);
            if is_past(hull, bound, first, end) {
                leaf = (index + 1) << height;
                if 1 < index {
                    height += 1;
                }
            } else if height == 0 {
                return Some(leaf - count);
            } else {
                height -= 1;
            }
        }
        None
    }
}
