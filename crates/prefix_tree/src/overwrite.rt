//! Builds a version of a tree with a range overwritten.

ghost use Rattle.std.specs.Prelude.{◌≡◌, ◌+◌, ◌^◌, ◌≤◌, ◌<◌, ℕ, IfOk};
ghost use Rattle.pmp_encoding.specs.declared.perm.Perm.{Perm};
ghost use Rattle.pmp_encoding.specs.Views.{overwritten};
ghost use Rattle.prefix_tree.specs.Trees.{TreeMeansAt, Fits, IsCanonical};
ghost use Rattle.prefix_tree.specs.Overlaps.{IsOverlap};
ghost use Rattle.prefix_tree.specs.Joined.{lower_half, upper_half};
ghost use Rattle.prefix_tree.specs.Shapes.{shape_of, IsSummed};

use crate::blocks::Block;
use crate::join::join;
use permission_map::Run;
use pmp_encoding::pages_of;
use std::alloc::{AllocError, Global};

/// The position of a block relative to a run of pages.
#[derive(Clone, Copy)]
enum Overlap {
    /// No page of the block is in the run.
    Apart,
    /// Every page of the block is in the run.
    Within,
    /// The block has more than one page, and may have pages both in the run and outside it.
    Partly,
}

/// Returns the position of the 2^height pages from `first` on relative to the run.
fn overlap_of(run: &Run, first: u64, height: u32) -> Overlap
    requires height { height ≤ 44 }
    requires first { first + 2 ^ height ≤ 2 ^ 44 }
    requires run { run.now.first + run.now.count ≤ 2 ^ 44 }
    ensures { IsOverlap run.now first height result }
{
    let end = first + pages_of(height);
    let run_end = run.first + run.count;
    if run.count == 0 || run_end <= first || end <= run.first {
        return Overlap::Apart;
    }
    if run.first <= first && end <= run_end {
        return Overlap::Within;
    }
    Overlap::Partly
}

/// Returns the two halves of a block. Both halves of a uniform block are represented by the block itself.
fn halves_of(block: &Block) -> (&Block, &Block)
    requires { IsSummed block.now }
    ensures lower { shape_of result.0.now ≡ lower_half (shape_of block.now) }
    ensures upper { shape_of result.1.now ≡ upper_half (shape_of block.now) }
    ensures lower_summed { IsSummed result.0.now }
    ensures upper_summed { IsSummed result.1.now }
{
    match block {
        Block::Leaf(_) => (block, block),
        Block::Branch(halves) => (&halves.0, &halves.1),
    }
}

/// Returns the block of the 2^height pages from `first` on with the pages of the run overwritten. Blocks that do not
/// meet the run are shared.
pub fn overwritten_block(
    alloc: Global,
    block: &Block,
    first: u64,
    height: u32,
    run: &Run,
) -> Result<Block, AllocError>
    requires height { height ≤ 44 }
    requires first { first + 2 ^ height ≤ 2 ^ 44 }
    requires run { run.now.first + run.now.count ≤ 2 ^ 44 }
    requires fits { Fits height (shape_of block.now) }
    requires canonical { IsCanonical (shape_of block.now) }
    requires summed { IsSummed block.now }
    ensures means { IfOk result (λ b.
        (view : ℕ → Perm) → TreeMeansAt view height first (shape_of block.now)
        → TreeMeansAt (overwritten view run.now.first run.now.count run.now.perm)
        height first (shape_of b)) }
    ensures fits { IfOk result (λ b. Fits height (shape_of b)) }
    ensures canonical { IfOk result (λ b. IsCanonical (shape_of b)) }
    ensures summed { IfOk result (λ b. IsSummed b) }
{
    match overlap_of(run, first, height) {
        Overlap::Apart => return block.share(),
        Overlap::Within => return Ok(Block::Leaf(run.perm)),
        Overlap::Partly => {}
    }
    let middle = first + pages_of(height - 1);
    let (low, high) = halves_of(block);
    let lower = overwritten_block(alloc, low, first, height - 1, run)?;
    let upper = overwritten_block(alloc, high, middle, height - 1, run)?;
    join(alloc, lower, upper)
}
