//! The costs of the split blocks of a tree, as a plan stores them.

ghost use Rattle.std.specs.Prelude.{◌≡◌, ◌+◌, ◌^◌, ◌<◌, All, length, map, reverse};
ghost use Rattle.entry_planner.specs.SplitCosts.{as_block};
ghost use Rattle.entry_planner.specs.Plans.{cost_in};

use crate::costs::SplitCost;
use pmp_encoding::Perm;
use std::marker::Model;

/// The cost of each split block of a tree. The blocks are numbered from 0 in preorder: a block, then those of its lower
/// half, then those of its upper half.
#[derive(Drop)]
pub struct SplitCosts {
    /// In reverse preorder.
    costs: Vec<SplitCost>,
}

impl Model for SplitCosts {
    ghost use Rattle.std.specs.Prelude.{◌+◌, ◌^◌, ◌<◌, All, List, map, reverse};
    ghost use Rattle.entry_planner.specs.declared.costs.BlockCost.{BlockCost};
    ghost use Rattle.entry_planner.specs.SplitCosts.{as_block};

    ghost Value = { List BlockCost };

    ghost view = { λ c. map as_block (reverse c.costs.items) };

    ghost invariant = { λ c.
        All (λ d. d.least + 1 < 2 ^ 32) (map as_block (reverse c.costs.items)) };
}

impl SplitCosts {
    /// Takes the costs in reverse preorder.
    pub(crate) fn new(costs: Vec<SplitCost>) -> SplitCosts
        requires { All (λ d. d.least + 1 < 2 ^ 32) (map as_block (reverse costs.items)) }
        ensures { result ≡ map as_block (reverse costs.items) }
    {
        SplitCosts { costs }
    }

    /// Returns the number of split blocks.
    pub fn branches(&self) -> usize
        ensures { result ≡ length self.now }
    {
        self.costs.len()
    }

    /// Returns the cost of the i-th split block if it inherits a permission, as [`Plan::cost`](crate::Plan::cost) does.
    pub fn cost(&self, i: usize, perm: Perm) -> u32
        requires { i < length self.now }
        ensures { result ≡ cost_in self.now i perm }
    {
        let last = self.branches() - 1;
        self.costs[last - i].as_block().under(perm)
    }
}
