//! Builds a tree from a map.

ghost use Rattle.std.specs.Prelude.{◌≡◌, IfOk};
ghost use Rattle.prefix_tree.specs.Shapes.{shape_of, IsSummed};
ghost use Rattle.prefix_tree.specs.Trees.{Fits};

use crate::blocks::Block;
use crate::halving::Halving;
use crate::join::split;
use crate::map_blocks::MapBlock;
use std::alloc::{AllocError, Global};

/// Builds the block of a tree from a block of a map.
pub fn build_block(alloc: Global, block: &MapBlock<'_>) -> Result<Block, AllocError>
    requires { Fits 44 block.now }
    ensures shape { IfOk result (λ b. shape_of b ≡ block.now) }
    ensures summed { IfOk result (λ b. IsSummed b) }
{
    if let Some(perm) = block.one_perm() {
        return Ok(Block::Leaf(perm));
    }
    let (lower, upper) = block.halves();
    let lower = build_block(alloc, &lower)?;
    let upper = build_block(alloc, &upper)?;
    split(alloc, lower, upper)
}
