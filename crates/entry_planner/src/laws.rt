//! Laws of costs, and a proof that no shorter list means the view.

ghost use Rattle.std.specs.Prelude.{◌≡◌, ◌+◌, ◌≤◌, ◌↔◌, ℕ, All, List, if◌then◌else◌};
ghost use Rattle.pmp_encoding.specs.declared.perm.Perm.{Perm};
ghost use Rattle.pmp_encoding.specs.declared.perm.Perm.TheVariants.{NoAccess};
ghost use Rattle.pmp_encoding.specs.declared.region.Entry.{Entry};
ghost use Rattle.pmp_match.specs.Meaning.{Means, Needs, View};
ghost use Rattle.prefix_tree.specs.TreeOf.{tree_of};
ghost use Rattle.prefix_tree.specs.Trees.{PermTree, TreeMeans};
ghost use Rattle.entry_planner.specs.Best.{is_best, least_cost};
ghost use Rattle.entry_planner.specs.Choice.{AreChosen};
ghost use Rattle.entry_planner.specs.Costs.{cost};
ghost use Rattle.entry_planner.specs.Reach.{EndsWithin, HasNoneBehind};

/// The root's cost for no access is the number of entries that the view of the tree needs.
pub fn least_cost_law()
    ensures { (view : View) (tree : PermTree) → TreeMeans view tree
        → Needs view (cost tree NoAccess) }
{}

/// A block costs its least number for its best permissions, and one more for every other.
pub fn best_law()
    ensures { (tree : PermTree) (p : Perm)
        → cost tree p ≡ least_cost tree + (if is_best tree p then 0 else 1) }
{}

/// The entries chosen for a view end within the first `2 ^ k` pages iff no later page has a permission.
pub fn reach_law()
    ensures { (view : View) (entries : List Entry) (k : ℕ) → k ≤ 44 → Means entries view
        → AreChosen (tree_of view) entries → All (EndsWithin k) entries ↔ HasNoneBehind k view }
{}
