//! Numbered extents, and a search for the next one that meets some bytes.

ghost use Rattle.std.specs.Prelude.{◌≡◌, IfOk, MatchOption, length};
ghost use Rattle.std.specs.List.Sorted.{IsPermutation};
ghost use Rattle.map_table.specs.Hulls.{hull_of, numbered};
ghost use Rattle.map_table.specs.Meetings.{IsCut, IsNextMeeting, MissesAll};

use crate::hull_tree::{Hull, HullTree};
use permission_map::Memory;
use pmp_match::Extent;
use std::alloc::Global;
use std::marker::Model;

/// Returns the bytes and the number of an extent as a hull.
fn hull_of(number: usize, extent: &Extent) -> Hull
    ensures { result ≡ hull_of number extent.now }
{
    Hull {
        base: extent.base,
        end: extent.end,
        number,
    }
}

/// Returns the hull of each extent. The only error is a failed allocation.
fn number_extents(alloc: Global, extents: &[Extent]) -> Result<Vec<Hull>, Memory>
    ensures { IfOk result (λ all. all.items ≡ numbered 0 extents.now) }
{
    let mut all = Vec::with_capacity(alloc, extents.len())?;
    for i in 0..extents.len() {
        all.push(hull_of(i, &extents[i]))?;
    }
    Ok(all)
}

/// Returns the hulls by ascending base. The only error is a failed allocation.
fn leaves_of(alloc: Global, extents: &[Extent]) -> Result<Vec<Hull>, Memory>
    ensures { IfOk result (λ leaves. IsPermutation (numbered 0 extents.now) leaves.items) }
{
    let mut leaves = number_extents(alloc, extents)?;
    leaves.sort_unstable_by_key(|leaf| leaf.base);
    Ok(leaves)
}

/// Numbered extents. The tree also stores the bytes and the number of each by ascending base. It takes 72 bytes for
/// each extent.
#[derive(Drop)]
pub struct ExtentTree {
    extents: Vec<Extent>,
    tree: HullTree,
}

impl Model for ExtentTree {
    ghost use Rattle.std.specs.Prelude.{List};
    ghost use Rattle.std.specs.List.Sorted.{IsPermutation};
    ghost use Rattle.pmp_encoding.specs.declared.extent.Extent.{Extent};
    ghost use Rattle.map_table.specs.Hulls.{numbered};

    ghost Value = { List Extent };

    ghost view = { λ t. t.extents.items };

    ghost invariant = { λ t. IsPermutation (numbered 0 t.extents.items) t.tree };
}

impl ExtentTree {
    /// Builds the tree of a list of extents. The only error is a failed allocation.
    pub fn new(alloc: Global, extents: &[Extent]) -> Result<ExtentTree, Memory>
        ensures { IfOk result (λ tree. tree ≡ extents.now) }
    {
        let leaves = leaves_of(alloc, extents)?;
        let tree = HullTree::new(alloc, leaves)?;
        let mut all = Vec::new(alloc);
        all.extend_from_slice(extents)?;
        Ok(ExtentTree { extents: all, tree })
    }

    /// Returns the extents, by their numbers.
    pub fn extents(&self) -> &[Extent]
        ensures { result.now ≡ self.now }
    {
        self.extents.as_slice()
    }

    /// Returns the number of the first extent, from number `from` on, that begins before byte `end` and ends after byte
    /// `first`, or `None`. Each leaf that is found lowers the bound for the rest of the search.
    pub fn next_meeting(&self, from: usize, first: u64, end: u64) -> Option<usize>
        ensures { MatchOption result (MissesAll self.now from (length self.now) first end)
            (λ number. IsNextMeeting self.now from first end number) }
    {
        let count = self.extents.len();
        let mut best = count;
        let mut place = 0;
        while let Some(found) = self.tree.next_leaf(place, best, first, end) {
            let number = self.tree.leaves()[found].number;
            place = found + 1;
            if from <= number {
                best = number;
            }
        }
        if best < count {
            return Some(best);
        }
        None
    }

    /// Returns the lowest start of an extent with a number below `bound` that begins before byte `end` and ends after
    /// byte `first`, or `end` if there are no such extents.
    pub(crate) fn next_cut(&self, bound: usize, first: u64, end: u64) -> u64
        ensures { IsCut self.now bound first end result }
    {
        let mut cut = end;
        let mut place = 0;
        while let Some(found) = self.tree.next_leaf(place, bound, first, cut) {
            cut = self.tree.leaves()[found].base;
            place = found + 1;
        }
        cut
    }
}
