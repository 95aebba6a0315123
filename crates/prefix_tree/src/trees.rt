//! The canonical tree of a view.

ghost use Rattle.std.specs.Prelude.{◌≡◌, ◌<◌, ◌≤◌, ◌*◌, ◌+◌, ◌^◌, ◌↔◌, IfOk, OnOk, List, length};
ghost use Rattle.permission_map.specs.declared.fault.MapFault as MapFault;
ghost use Rattle.permission_map.specs.declared.runs.Run.{Run};
ghost use Rattle.permission_map.specs.Runs.{view_of_runs};
ghost use Rattle.pmp_encoding.specs.Views.{overwritten};
ghost use Rattle.prefix_tree.specs.Trees.{TreeMeans, view_of_tree, Fits, IsCanonical};
ghost use Rattle.prefix_tree.specs.TreeOf.{tree_of};
ghost use Rattle.prefix_tree.specs.RunsOf.{AreRunsOf};
ghost use Rattle.prefix_tree.specs.Counts.{splits, leaves};
ghost use Rattle.prefix_tree.specs.Shapes.{shape_of};

use crate::blocks::Block;
use crate::join::run_count;
use crate::map_blocks::MapBlock;
use crate::map_tree::build_block;
use crate::overwrite::overwritten_block;
use permission_map::{MapFault, Memory, PermissionMap, Run};
use pmp_encoding::{Perm, SPACE_PAGES};
use std::alloc::Global;
use std::marker::Model;

/// Maximum number of maximal runs of a permission other than none that a view may have.
const MOST_RUNS: u64 = 4096;

/// The canonical tree of a view of the 2^44 pages of the space. Contracts see its shape.
#[derive(Drop)]
pub struct Tree {
    alloc: Global,
    root: Block,
}

impl Model for Tree {
    ghost use Rattle.prefix_tree.specs.Trees.{PermTree};
    ghost use Rattle.prefix_tree.specs.Coding.{tree_code};

    ghost Value = { PermTree };

    ghost coded = { tree_code };

    ghost use Rattle.prefix_tree.specs.Shapes.{shape_of, IsRoot};

    ghost view = { λ t. shape_of t.root };

    ghost invariant = { λ t. IsRoot t.root };
}

/// Builds the tree of the map's view. It splits exactly the blocks that have more than one permission.
///
/// The time is proportional to the number of blocks that the edges of the map's runs cut, at most 44 for each edge.
pub fn build(alloc: Global, map: &PermissionMap) -> Result<Tree, Memory>
    ensures means { IfOk result (λ t. TreeMeans (view_of_runs map.now) t) }
    ensures canonical { IfOk result (λ t. IsCanonical t) }
    ensures tree { IfOk result (λ t. t ≡ tree_of (view_of_runs map.now)) }
{
    let root = build_block(alloc, &MapBlock::of(map))?;
    Ok(Tree { alloc, root })
}

impl Tree {
    /// Returns the block of the whole space.
    pub fn root(&self) -> &Block
        ensures shape { shape_of result.now ≡ self.now }
        ensures fits { Fits 44 self.now }
        ensures canonical { IsCanonical self.now }
    {
        &self.root
    }

    /// Returns the tree of the view with the permission in the `count` pages from `first` on. This tree is unchanged.
    ///
    /// Only blocks that an end of the range cuts are new, at most 44 for each end; all others are shared. Fails with
    /// `PastEnd` if the range ends after the last page, with `TooManyRanges` if the new view has more than 4096 maximal
    /// runs of a permission other than none, and with `Memory` if an allocation fails. An empty range gives the same
    /// tree.
    pub fn with_range(&self, first: u64, count: u64, perm: Perm) -> Result<Tree, MapFault>
        ensures means { IfOk result (λ t. TreeMeans (overwritten
            (view_of_tree self.now) first count perm) t) }
        ensures canonical { IfOk result (λ t. IsCanonical t) }
        ensures nothing { count ≡ 0 → IfOk result (λ t. t ≡ self.now) }
        ensures past_end { (result ≡ Err MapFault.PastEnd) ↔ (2 ^ 44 < first + count) }
        ensures too_many { result ≡ Err MapFault.TooManyRanges
            → (first + count ≤ 2 ^ 44)
            × ((runs : List Run)
            × AreRunsOf (overwritten (view_of_tree self.now) first count perm) runs
            × (4096 < length runs)) }
        ensures few { OnOk result ((runs : List Run)
            → AreRunsOf (overwritten (view_of_tree self.now) first count perm) runs
            → length runs ≤ 4096) }
    {
        if first > SPACE_PAGES || count > SPACE_PAGES - first {
            return Err(MapFault::PastEnd);
        }
        let run = Run { first, count, perm };
        let Ok(root) = overwritten_block(self.alloc, &self.root, 0, 44, &run) else {
            return Err(MapFault::Memory);
        };
        if run_count(&root) > MOST_RUNS {
            return Err(MapFault::TooManyRanges);
        }
        Ok(Tree {
            alloc: self.alloc,
            root,
        })
    }

    /// Returns the number of split blocks, one less than the number of uniform blocks. It is stored, not counted.
    #[tactic(auto, using(crate::proofs::Edges::splits_most, crate::proofs::Edges::leaves_splits))]
    pub fn branches(&self) -> usize
        ensures value { result ≡ splits self.now }
        ensures leaves { leaves self.now ≡ result + 1 }
        ensures most { result ≤ 44 * 8192 }
    {
        self.root.summary().branches
    }
}
