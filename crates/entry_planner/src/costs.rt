//! The cost of a block: its least number of entries, and the permissions that attain it.

use crate::perm_set::PermSet;
use crate::sibling::sibling_of;
use pmp_encoding::Perm;
use prefix_tree::{Chain, Halving};
use std::alloc::AllocError;

/// The cost of a block: the least number of entries, and the set of inherited permissions for which it costs that. For
/// every other permission it costs one more.
#[derive(Clone, Copy)]
pub struct BlockCost {
    pub least: u32,
    pub best: PermSet,
}

/// The cost of a split block, in eight bytes: the least number of entries, the permissions that are best for both
/// halves, and those that are best for either half. The block costs least for those in `both` or, if there are none,
/// for those in `either`.
#[derive(Clone, Copy)]
pub struct SplitCost {
    pub least: u32,
    pub both: PermSet,
    pub either: PermSet,
}

ghost use Rattle.std.specs.Prelude.{◌≡◌, ◌+◌, ◌%◌, ◌<◌, ◌≤◌, ◌^◌, ◌++◌, List, [], ◌∷◌, IfOk, OnOk, reverse, if◌then◌else◌};
ghost use Rattle.entry_planner.specs.declared.costs.BlockCost.{BlockCost};
ghost use Rattle.entry_planner.specs.declared.costs.SplitCost.{SplitCost};
ghost use Rattle.entry_planner.specs.Best.{least_cost};
ghost use Rattle.entry_planner.specs.PermSets.{has};
ghost use Rattle.entry_planner.specs.SplitCosts.{as_block, split_cost, splits_in};
ghost use Rattle.entry_planner.specs.Plans.{block_cost, cost_of};
ghost use Rattle.prefix_tree.specs.Counts.{splits};
ghost use Rattle.prefix_tree.specs.Chains.{IsChain, chained};
ghost use Rattle.prefix_tree.specs.Trees.{PermTree, Uniform, Split};

/// For each set and each permission, in the fixed order: 1 if the permission is not in the set, otherwise 0.
static MORE: [[u32; 6]; 64] = [
    [1, 1, 1, 1, 1, 1],
    [0, 1, 1, 1, 1, 1],
    [1, 0, 1, 1, 1, 1],
    [0, 0, 1, 1, 1, 1],
    [1, 1, 0, 1, 1, 1],
    [0, 1, 0, 1, 1, 1],
    [1, 0, 0, 1, 1, 1],
    [0, 0, 0, 1, 1, 1],
    [1, 1, 1, 0, 1, 1],
    [0, 1, 1, 0, 1, 1],
    [1, 0, 1, 0, 1, 1],
    [0, 0, 1, 0, 1, 1],
    [1, 1, 0, 0, 1, 1],
    [0, 1, 0, 0, 1, 1],
    [1, 0, 0, 0, 1, 1],
    [0, 0, 0, 0, 1, 1],
    [1, 1, 1, 1, 0, 1],
    [0, 1, 1, 1, 0, 1],
    [1, 0, 1, 1, 0, 1],
    [0, 0, 1, 1, 0, 1],
    [1, 1, 0, 1, 0, 1],
    [0, 1, 0, 1, 0, 1],
    [1, 0, 0, 1, 0, 1],
    [0, 0, 0, 1, 0, 1],
    [1, 1, 1, 0, 0, 1],
    [0, 1, 1, 0, 0, 1],
    [1, 0, 1, 0, 0, 1],
    [0, 0, 1, 0, 0, 1],
    [1, 1, 0, 0, 0, 1],
    [0, 1, 0, 0, 0, 1],
    [1, 0, 0, 0, 0, 1],
    [0, 0, 0, 0, 0, 1],
    [1, 1, 1, 1, 1, 0],
    [0, 1, 1, 1, 1, 0],
    [1, 0, 1, 1, 1, 0],
    [0, 0, 1, 1, 1, 0],
    [1, 1, 0, 1, 1, 0],
    [0, 1, 0, 1, 1, 0],
    [1, 0, 0, 1, 1, 0],
    [0, 0, 0, 1, 1, 0],
    [1, 1, 1, 0, 1, 0],
    [0, 1, 1, 0, 1, 0],
    [1, 0, 1, 0, 1, 0],
    [0, 0, 1, 0, 1, 0],
    [1, 1, 0, 0, 1, 0],
    [0, 1, 0, 0, 1, 0],
    [1, 0, 0, 0, 1, 0],
    [0, 0, 0, 0, 1, 0],
    [1, 1, 1, 1, 0, 0],
    [0, 1, 1, 1, 0, 0],
    [1, 0, 1, 1, 0, 0],
    [0, 0, 1, 1, 0, 0],
    [1, 1, 0, 1, 0, 0],
    [0, 1, 0, 1, 0, 0],
    [1, 0, 0, 1, 0, 0],
    [0, 0, 0, 1, 0, 0],
    [1, 1, 1, 0, 0, 0],
    [0, 1, 1, 0, 0, 0],
    [1, 0, 1, 0, 0, 0],
    [0, 0, 1, 0, 0, 0],
    [1, 1, 0, 0, 0, 0],
    [0, 1, 0, 0, 0, 0],
    [1, 0, 0, 0, 0, 0],
    [0, 0, 0, 0, 0, 0],
];

/// Returns 1 if a block costs more for this permission than for the best, otherwise 0.
#[inline(always)]
fn more_under(best: PermSet, perm: Perm) -> u32
    ensures value { result ≡ (if has best.bits perm then 0 else 1) }
    ensures most { result ≤ 1 }
{
    MORE[(best.bits % 64) as usize][perm.index()]
}

impl BlockCost {
    /// Returns the cost of the block if it inherits a permission.
    pub fn under(self, perm: Perm) -> u32
        requires { self.least + 1 < 2 ^ 32 }
        ensures { result ≡ cost_of self perm }
    {
        self.least + more_under(self.best, perm)
    }
}

/// Returns the cost of a uniform block, which is 0 for its own permission.
fn cost_of_uniform(perm: Perm) -> BlockCost
    ensures { result ≡ block_cost (Uniform perm) }
{
    BlockCost {
        least: 0,
        best: PermSet::only(perm),
    }
}

impl SplitCost {
    /// Returns the cost as that of a block.
    #[inline(always)]
    pub fn as_block(self) -> BlockCost
        ensures { result ≡ as_block self }
    {
        let best = if self.both.is_empty() {
            self.either
        } else {
            self.both
        };
        BlockCost {
            least: self.least,
            best,
        }
    }
}

/// Returns the cost of a split block from the costs of its halves.
#[inline(always)]
fn cost_of_split(lower: BlockCost, upper: BlockCost) -> SplitCost
    requires { lower.least + upper.least + 1 < 2 ^ 32 }
    ensures most { result.least ≤ lower.least + upper.least + 1 }
    ensures cost { (low high : PermTree) → lower ≡ block_cost low → upper ≡ block_cost high
        → result ≡ split_cost low high }
{
    let both = lower.best.intersection(upper.best);
    let either = lower.best.union(upper.best);
    let together = lower.least + upper.least;
    let least = if both.is_empty() {
        together + 1
    } else {
        together
    };
    SplitCost {
        least,
        both,
        either,
    }
}

/// Appends the cost of a split block, after those of its upper and its lower half.
#[inline(always)]
fn add_split(
    low: BlockCost,
    high: BlockCost,
    costs: &mut Vec<SplitCost>,
) -> Result<BlockCost, AllocError>
    requires { low.least + high.least + 1 < 2 ^ 32 }
    ensures own { IfOk result (λ cost.
        (lower upper : PermTree) → low ≡ block_cost lower → high ≡ block_cost upper
        → cost ≡ block_cost (Split lower upper)) }
    ensures costs { OnOk result ((lower upper : PermTree) → low ≡ block_cost lower
        → high ≡ block_cost upper
        → costs.new.items ≡ costs.old.items ++ split_cost lower upper ∷ []) }
    ensures most { IfOk result (λ cost. cost.least ≤ low.least + high.least + 1) }
{
    let cost = cost_of_split(low, high);
    costs.push(cost)?;
    Ok(cost.as_block())
}

/// Appends the costs of the split blocks of a chain after those of its smallest block, the smaller before the larger.
fn add_chain_costs(
    chain: Chain,
    smallest: BlockCost,
    costs: &mut Vec<SplitCost>,
) -> Result<BlockCost, AllocError>
    requires chain { IsChain chain }
    requires small { smallest.least + chain.levels < 2 ^ 20 }
    ensures own { IfOk result (λ cost.
        (tree : PermTree) → smallest ≡ block_cost tree → cost ≡ block_cost (chained chain tree)) }
    ensures costs { OnOk result ((tree : PermTree) (first : List SplitCost)
        → smallest ≡ block_cost tree
        → costs.old.items ≡ first ++ reverse (splits_in tree)
        → costs.new.items ≡ first ++ reverse (splits_in (chained chain tree))) }
{
    let before = cost_of_uniform(chain.before);
    let behind = cost_of_uniform(chain.behind);
    let mut cost = smallest;
    let mut rest = chain.place;
    for level in 0..chain.levels {
        // The order of the halves makes no difference to their cost.
        cost = add_split(sibling_of(rest, before, behind), cost, costs)?;
        rest /= 2;
    }
    Ok(cost)
}

/// Appends the costs of the split blocks of a block, in reverse preorder.
pub fn add_costs<H: Halving>(block: &H, costs: &mut Vec<SplitCost>) -> Result<BlockCost, AllocError>
    requires { splits (H.shape block.now) < 2 ^ 20 }
    ensures own { IfOk result (λ cost. cost ≡ block_cost (H.shape block.now)) }
    ensures costs { OnOk result (costs.new.items ≡ costs.old.items
        ++ reverse (splits_in (H.shape block.now))) }
{
    if let Some(perm) = block.one_perm() {
        return Ok(cost_of_uniform(perm));
    }
    if let Some((chain, smallest)) = block.chain() {
        let cost = add_costs(&smallest, costs)?;
        let cost = add_chain_costs(chain, cost, costs)?;
        return Ok(cost);
    }
    let (lower, upper) = block.halves();
    let high = add_costs(&upper, costs)?;
    let low = add_costs(&lower, costs)?;
    let cost = add_split(low, high, costs)?;
    Ok(cost)
}
