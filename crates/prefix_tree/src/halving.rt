//! A trait for blocks that split into halves, of a tree or of a map.

ghost use Rattle.std.specs.Prelude.{◌≡◌, IfSome, None};
ghost use Rattle.prefix_tree.specs.Chains.{IsChain, chained};
ghost use Rattle.prefix_tree.specs.Joined.{one_perm};
ghost use Rattle.prefix_tree.specs.Shapes.{shape_of};
ghost use Rattle.prefix_tree.specs.Trees.{PermTree, Split};

use crate::blocks::Block;
use crate::chains::Chain;
use pmp_encoding::Perm;

/// A block of pages that is uniform or splits into two halves. Code that walks a tree from the top can walk any such
/// block: those of a tree, or those of a map, for which no tree is built.
pub trait Halving: Drop {
    ghost shape: { Self → PermTree };

    /// Returns the permission of a block that is not split.
    fn one_perm(&self) -> Option<Perm>
        ensures { result ≡ one_perm (shape self.now) };

    /// Returns the chain from a split block down to a smaller block that contains all of its edges, if one is known.
    /// Nearly all split blocks of a map are in chains.
    fn chain(&self) -> Option<(Chain, Self)>
        requires { one_perm (shape self.now) ≡ None }
        ensures { IfSome result (λ r. IsChain r.0
            × (shape self.now ≡ chained r.0 (shape r.1))) };

    /// Returns the two halves of a split block, the lower first.
    fn halves(&self) -> (Self, Self)
        requires { one_perm (shape self.now) ≡ None }
        ensures { shape self.now ≡ Split (shape result.0) (shape result.1) };
}

impl<'a> Halving for &'a Block {
    ghost shape = { λ b. shape_of b.now };

    fn one_perm(&self) -> Option<Perm> {
        Block::one_perm(*self)
    }

    fn chain(&self) -> Option<(Chain, &'a Block)> {
        None
    }

    fn halves(&self) -> (&'a Block, &'a Block) {
        match *self {
            Block::Branch(halves) => (&halves.0, &halves.1),
            Block::Leaf(_) => unreachable!(),
        }
    }
}
