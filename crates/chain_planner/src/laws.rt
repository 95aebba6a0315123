//! The reason why no shorter chained list means the view.

ghost use Rattle.std.specs.Prelude.{◌≤◌, ◌↔◌, ℕ, List};
ghost use Rattle.pmp_encoding.specs.declared.extent.Extent.{Extent};
ghost use Rattle.pmp_encoding.specs.Views.{View};
ghost use Rattle.pmp_encoding.specs.declared.xlen.Xlen.{Xlen};
ghost use Rattle.prefix_tree.specs.Trees.{PermTree, TreeMeansAt};
ghost use Rattle.pmp_match.specs.declared.registers.Registers.{Registers};
ghost use Rattle.pmp_match.specs.RegisterDecision.{ExtentsMean};
ghost use Rattle.pmp_match.specs.RegisterMatching.{AreExtents};
ghost use Rattle.chain_planner.specs.ChainCosts.{chained_cost};
ghost use Rattle.chain_planner.specs.Chained.{Chained, IsChained, extents_of, length_of, space_log2};
ghost use Rattle.chain_planner.specs.Spelled.{Holds};

/// The recursion over the tree of a view's pages is a lower bound on every chained list that means the view.
pub fn least_chained_law()
    ensures { (xlen : Xlen) (place : ℕ) (view : View) (tree : PermTree) (list : Chained)
        → TreeMeansAt view (space_log2 xlen) 0 tree
        → IsChained xlen place list → ExtentsMean (extents_of list) view
        → chained_cost place tree ≤ length_of list }
{}

/// Registers that hold a chained list from entry 0 on, and have no other entry, mean the same view as the list, whatever `mseccfg` is.
pub fn held_law()
    ensures { (registers : Registers) (list : Chained) (xs : List Extent) (view : View)
        → IsChained registers.xlen 0 list → Holds registers list → AreExtents registers xs
        → ExtentsMean xs view ↔ ExtentsMean (extents_of list) view }
{}
