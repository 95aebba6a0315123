//! Laws of maps: each view has one list of runs, and a range adds few runs.

ghost use Rattle.std.specs.Prelude.{◌≡◌, ◌≤◌, ◌+◌, ℕ, List, length};
ghost use Rattle.pmp_encoding.specs.declared.perm.Perm.{Perm};
ghost use Rattle.permission_map.specs.declared.runs.Run.{Run};
ghost use Rattle.permission_map.specs.Runs.{AreRuns, view_of_runs};
ghost use Rattle.pmp_encoding.specs.Views.{SameView, overwritten};

/// The view determines the runs: maps with the same view have the same runs.
pub fn same_runs_law()
    ensures { (runs others : List Run) → AreRuns runs → AreRuns others
        → SameView (view_of_runs runs) (view_of_runs others) → runs ≡ others }
{}

/// Overwriting one range of a view adds at most two runs.
pub fn runs_law()
    ensures { (runs after : List Run) (first count : ℕ) (perm : Perm) → AreRuns runs
        → AreRuns after
        → SameView (view_of_runs after) (overwritten (view_of_runs runs) first count perm)
        → length after ≤ length runs + 2 }
{}
