//! A tree with its choices.

ghost use Rattle.std.specs.Prelude.{◌≡◌, ◌≤◌, ◌*◌, IfOk};
ghost use Rattle.prefix_tree.specs.Counts.{splits};
ghost use Rattle.chain_planner.specs.Choices.{AreCosts, IsCosted, IsPartsOf, tree_in};

use crate::choices::Choices;
use crate::costs::{Costs, join, uniform_costs};
use pmp_encoding::Perm;
use prefix_tree::Halving;
use std::alloc::{AllocError, Global};

/// A block of one permission, or a split block with its choices.
#[derive(Drop)]
pub enum Costed {
    Leaf(Perm),
    Branch(Box<(Costed, Costed, Choices)>),
}

/// The parts of such a block.
#[derive(Clone, Copy)]
pub enum Parts<'a> {
    /// Every page of the block has this permission.
    Leaf(Perm),
    /// The lower half, the upper half, and the choices.
    Halves(&'a Costed, &'a Costed, &'a Choices),
}

impl Costed {
    /// The permission of the block, or its halves and its choices.
    pub fn parts(&self) -> Parts<'_>
        requires { IsCosted self.now }
        ensures { IsPartsOf result self.now }
    {
        match self {
            Costed::Leaf(perm) => Parts::Leaf(*perm),
            Costed::Branch(parts) => Parts::Halves(&parts.0, &parts.1, &parts.2),
        }
    }
}

/// Computes the choices of all split blocks of a block, and the costs of the block.
pub fn with_choices<H: Halving>(alloc: Global, block: &H) -> Result<(Costed, Costs), AllocError>
    requires { splits (H.shape block.now) ≤ 88 * 4096 }
    ensures tree { IfOk result (λ r. tree_in r.0 ≡ H.shape block.now) }
    ensures choices { IfOk result (λ r. IsCosted r.0) }
    ensures costs { IfOk result (λ r. AreCosts r.1 (H.shape block.now)) }
{
    if let Some(perm) = block.one_perm() {
        return Ok((Costed::Leaf(perm), uniform_costs(perm)));
    }
    let (lower, upper) = block.halves();
    let (low, low_costs) = with_choices(alloc, &lower)?;
    let (high, high_costs) = with_choices(alloc, &upper)?;
    let joined = join(&low_costs, &high_costs);
    let halves = Box::new(alloc, (low, high, joined.choices))?;
    Ok((Costed::Branch(halves), joined.costs))
}
