//! Laws of trees: the views they mean, and the uniqueness of the canonical tree.

ghost use Rattle.std.specs.Prelude.{◌≡◌, ◌^◌, ◌<◌, ℕ};
ghost use Rattle.pmp_encoding.specs.declared.perm.Perm.{Perm};
ghost use Rattle.prefix_tree.specs.TreeOf.{tree_of};
ghost use Rattle.prefix_tree.specs.Trees.{PermTree, TreeMeans, view_of_tree, Fits, IsCanonical, SplitsOnlyMixed};

/// A tree means its own view, and every view that it means is equal to that one on all pages of the space.
pub fn meaning_law()
    ensures own { (tree : PermTree) → Fits 44 tree → TreeMeans (view_of_tree tree) tree }
    ensures other { (view : ℕ → Perm) (tree : PermTree) → TreeMeans view tree → (page : ℕ)
        → page < 2 ^ 44
        → view_of_tree tree page ≡ view page }
{}

/// Each view has exactly one canonical tree, `tree_of` the view, and each block that it splits contains two
/// permissions.
pub fn canonical_law()
    ensures one { (view : ℕ → Perm) (a b : PermTree) → IsCanonical a → IsCanonical b
        → TreeMeans view a
        → TreeMeans view b → a ≡ b }
    ensures tree { (view : ℕ → Perm) → IsCanonical (tree_of view)
        × TreeMeans view (tree_of view) }
    ensures mixed { (view : ℕ → Perm) (tree : PermTree) → IsCanonical tree
        → TreeMeans view tree
        → SplitsOnlyMixed view tree }
{}
