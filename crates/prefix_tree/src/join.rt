//! Joins two halves to a block.

ghost use Rattle.std.specs.Prelude.{◌≡◌, IfOk};
ghost use Rattle.prefix_tree.specs.Trees.{Fits, Split};
ghost use Rattle.prefix_tree.specs.Counts.{starts, runs_in};
ghost use Rattle.prefix_tree.specs.Shapes.{shape_of, IsSummed, Sums};
ghost use Rattle.prefix_tree.specs.Joined.{joined, shared_perm};

use crate::blocks::{Block, Summary};
use pmp_encoding::Perm;
use std::alloc::{AllocError, Global};
use std::rc::Rc;

/// Returns 1 if a run starts at a page with permission `perm` that follows one with permission `before`, otherwise 0.
pub fn starts_behind(before: Perm, perm: Perm) -> u64
    ensures { result ≡ starts before perm }
{
    if perm == Perm::NoAccess || perm == before {
        return 0;
    }
    1
}

/// Returns the counts of the block with these halves.
#[tactic(auto, using(crate::proofs::Counted::splits_small, crate::proofs::Counted::starts_inside_small, crate::proofs::Counted::starts_most))]
fn summary_of(lower: &Block, upper: &Block) -> Summary
    requires lower_fits { Fits 43 (shape_of lower.now) }
    requires upper_fits { Fits 43 (shape_of upper.now) }
    requires lower { IsSummed lower.now }
    requires upper { IsSummed upper.now }
    ensures { Sums result (Split (shape_of lower.now) (shape_of upper.now)) }
{
    let lower = lower.summary();
    let upper = upper.summary();
    let between = starts_behind(lower.last, upper.first);
    Summary {
        first: lower.first,
        last: upper.last,
        starts: lower.starts + (between + upper.starts),
        branches: 1 + (lower.branches + upper.branches),
    }
}

/// Returns the block that is split into these halves.
pub fn split(alloc: Global, lower: Block, upper: Block) -> Result<Block, AllocError>
    requires lower_fits { Fits 43 (shape_of lower) }
    requires upper_fits { Fits 43 (shape_of upper) }
    requires lower { IsSummed lower }
    requires upper { IsSummed upper }
    ensures shape { IfOk result (λ b. shape_of b ≡ Split (shape_of lower) (shape_of upper)) }
    ensures summed { IfOk result (λ b. IsSummed b) }
{
    let summary = summary_of(&lower, &upper);
    Ok(Block::Branch(Rc::new(alloc, (lower, upper, summary))?))
}

/// Returns the block with these halves, which is split unless both are uniform with the same permission.
pub fn join(alloc: Global, lower: Block, upper: Block) -> Result<Block, AllocError>
    requires lower_fits { Fits 43 (shape_of lower) }
    requires upper_fits { Fits 43 (shape_of upper) }
    requires lower { IsSummed lower }
    requires upper { IsSummed upper }
    ensures shape { IfOk result (λ b. shape_of b ≡ joined (shape_of lower) (shape_of upper)) }
    ensures summed { IfOk result (λ b. IsSummed b) }
{
    if let Some(perm) = shared_perm(&lower, &upper) {
        return Ok(Block::Leaf(perm));
    }
    split(alloc, lower, upper)
}

/// Returns the permission of both halves, if both are uniform with the same one.
fn shared_perm(lower: &Block, upper: &Block) -> Option<Perm>
    ensures { result ≡ shared_perm (shape_of lower.now) (shape_of upper.now) }
{
    let perm = lower.one_perm()?;
    let other = upper.one_perm()?;
    if perm == other {
        return Some(perm);
    }
    None
}

/// Returns the number of runs of the whole space.
#[tactic(auto, using(crate::proofs::Counted::starts_inside_whole, crate::proofs::Counted::starts_most))]
pub fn run_count(root: &Block) -> u64
    requires fits { Fits 44 (shape_of root.now) }
    requires summed { IsSummed root.now }
    ensures { result ≡ runs_in (shape_of root.now) }
{
    let summary = root.summary();
    starts_behind(Perm::NoAccess, summary.first) + summary.starts
}
