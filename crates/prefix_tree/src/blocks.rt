//! The blocks of a tree.

ghost use Rattle.std.specs.Prelude.{◌≡◌, IfOk};

use pmp_encoding::Perm;
use std::alloc::{AllocError, Global};
use std::rc::Rc;

/// Counts of a split block, stored so that a new version need not walk the halves that it shares.
#[derive(Clone, Copy)]
pub struct Summary {
    /// The permission of the first page.
    pub first: Perm,
    /// The permission of the last page.
    pub last: Perm,
    /// The number of runs that start after the first page.
    pub starts: u64,
    /// The number of split blocks, including this one.
    pub branches: usize,
}

/// An aligned block of pages: uniform, with one permission, or split into two halves that other versions may share.
#[derive(Drop)]
pub enum Block {
    Leaf(Perm),
    Branch(Rc<(Block, Block, Summary)>),
}

/// The parts of a block.
#[derive(Clone, Copy)]
pub enum Parts<'a> {
    /// Every page of the block has this permission.
    Leaf(Perm),
    /// The block is split into a lower and an upper half.
    Halves(&'a Block, &'a Block),
}

impl Block {
    ghost use Rattle.prefix_tree.specs.Counts.{splits, first_perm, last_perm, starts_inside};
    ghost use Rattle.prefix_tree.specs.Shapes.{shape_of, IsSummed};
    ghost use Rattle.prefix_tree.specs.PartsOf.{IsPartsOf};
    ghost use Rattle.prefix_tree.specs.Joined.{one_perm};

    /// Returns the permission of a uniform block, or the two halves. The lower half has the lower addresses.
    pub fn parts(&self) -> Parts<'_>
        ensures { IsPartsOf result (shape_of self.now) }
    {
        match self {
            Block::Leaf(perm) => Parts::Leaf(*perm),
            Block::Branch(halves) => Parts::Halves(&halves.0, &halves.1),
        }
    }

    /// Returns the permission of a block that is not split.
    pub fn one_perm(&self) -> Option<Perm>
        ensures { result ≡ one_perm (shape_of self.now) }
    {
        match self {
            Block::Leaf(perm) => Some(*perm),
            Block::Branch(..) => None,
        }
    }

    /// Returns the counts of the block.
    pub fn summary(&self) -> Summary
        requires { IsSummed self.now }
        ensures first { result.first ≡ first_perm (shape_of self.now) }
        ensures last { result.last ≡ last_perm (shape_of self.now) }
        ensures starts { result.starts ≡ starts_inside (shape_of self.now) }
        ensures branches { result.branches ≡ splits (shape_of self.now) }
    {
        match self {
            Block::Leaf(perm) => Summary {
                first: *perm,
                last: *perm,
                starts: 0,
                branches: 0,
            },
            Block::Branch(halves) => halves.2,
        }
    }

    /// Returns another owner of the same block. Does not allocate.
    pub fn share(&self) -> Result<Block, AllocError>
        requires { IsSummed self.now }
        ensures shape { IfOk result (λ b. shape_of b ≡ shape_of self.now) }
        ensures summed { IfOk result (λ b. IsSummed b) }
    {
        match self {
            Block::Leaf(perm) => Ok(Block::Leaf(*perm)),
            Block::Branch(halves) => Ok(Block::Branch(halves.clone()?)),
        }
    }
}
