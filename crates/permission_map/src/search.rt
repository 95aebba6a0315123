//! Searches the runs for a page.

ghost use Rattle.std.specs.Prelude.{◌≡◌, ◌≤◌, ◌<◌, ℕ, MatchOption, All, length, take, drop};
ghost use Rattle.pmp_encoding.specs.declared.perm.Perm.TheVariants.{NoAccess};
ghost use Rattle.permission_map.specs.Runs.{AreRuns, end_of, view_of_runs};
ghost use Rattle.permission_map.specs.Search.{IsNext};

use crate::runs::Run;

/// Counts the runs that end at or before the page.
fn over(runs: &[Run], page: u64) -> usize
    requires { AreRuns runs.now }
    ensures bound { result ≤ length runs.now }
    ensures front { All (λ run. end_of run ≤ page) (take result runs.now) }
    ensures rest { All (λ run. page < end_of run) (drop result runs.now) }
{
    runs.partition_point(|run| run.is_over(page))
}

/// Returns the first run that ends after the page.
pub(crate) fn next(runs: &[Run], page: u64) -> Option<Run>
    requires { AreRuns runs.now }
    ensures { MatchOption result ((q : ℕ) → page ≤ q → view_of_runs runs.now q ≡ NoAccess)
        (λ run. IsNext runs.now page run) }
{
    let index = over(runs, page);
    if index < runs.len() {
        Some(runs[index])
    } else {
        None
    }
}

/// Counts the runs that end before the page without touching it.
pub(crate) fn clear_of(runs: &[Run], first: u64) -> usize
    requires { AreRuns runs.now }
    ensures bound { result ≤ length runs.now }
    ensures front { All (λ run. end_of run < first) (take result runs.now) }
    ensures rest { All (λ run. first ≤ end_of run) (drop result runs.now) }
{
    runs.partition_point(|run| run.is_clear_of(first))
}

/// Counts the runs that begin at or before the page.
pub(crate) fn begun(runs: &[Run], page: u64) -> usize
    requires { AreRuns runs.now }
    ensures bound { result ≤ length runs.now }
    ensures front { All (λ run. run.first ≤ page) (take result runs.now) }
    ensures rest { All (λ run. page < run.first) (drop result runs.now) }
{
    runs.partition_point(|run| run.first <= page)
}
