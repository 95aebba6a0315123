//! Overwrites a range of runs.

ghost use Rattle.std.specs.Prelude.{◌≡◌, ◌+◌, ◌++◌, ◌^◌, ◌≤◌, ◌<◌, All, List, Option, length, take, drop, option_to_list, vec_len, vec_capacity};
ghost use Rattle.pmp_encoding.specs.declared.perm.Perm.TheVariants.{NoAccess};
ghost use Rattle.permission_map.specs.declared.runs.Run.{Run};
ghost use Rattle.permission_map.specs.Runs.{AreRuns, end_of};
ghost use Rattle.permission_map.specs.Overwrite.{AreOverwritten, IsBelow, IsAbove, IsNew, Becomes};

use crate::fault::MapFault;
use crate::runs::Run;
use crate::search::{begun, clear_of};
use pmp_encoding::Perm;

/// Maximum number of runs of a map.
pub(crate) const MOST_RUNS: usize = 4096;

/// Returns the part below the range of a run that crosses or touches its first page, and the first page of the new run.
fn rest_below(runs: &[Run], kept: usize, first: u64, perm: Perm) -> (Option<Run>, u64)
    requires runs { AreRuns runs.now }
    requires inside { kept ≤ length runs.now }
    requires low { All (λ run. end_of run < first) (take kept runs.now) }
    requires high { All (λ run. first ≤ end_of run) (drop kept runs.now) }
    ensures { IsBelow runs.now first perm (take kept runs.now ++ option_to_list result.0) result.1 }
{
    if kept == runs.len() {
        return (None, first);
    }
    let run = runs[kept];
    if run.first >= first {
        return (None, first);
    }
    if run.perm == perm {
        return (None, run.first);
    }
    let rest = Run {
        first: run.first,
        count: first - run.first,
        perm: run.perm,
    };
    (Some(rest), first)
}

/// Returns the part after the range of a run that crosses or touches its end, and the end of the new run.
fn rest_above(runs: &[Run], gone: usize, end: u64, perm: Perm) -> (Option<Run>, u64)
    requires runs { AreRuns runs.now }
    requires inside { gone ≤ length runs.now }
    requires space { end ≤ 2 ^ 44 }
    requires low { All (λ run. run.first ≤ end) (take gone runs.now) }
    requires high { All (λ run. end < run.first) (drop gone runs.now) }
    ensures { IsAbove runs.now end perm (option_to_list result.0 ++ drop gone runs.now) result.1 }
{
    if gone == 0 {
        return (None, end);
    }
    let run = runs[gone - 1];
    if run.is_over(end) {
        return (None, end);
    }
    let stop = run.first + run.count;
    if run.perm == perm {
        return (None, stop);
    }
    let rest = Run {
        first: end,
        count: stop - end,
        perm: run.perm,
    };
    (Some(rest), end)
}

/// Returns the new run, unless it allows nothing.
fn new_run(start: u64, stop: u64, perm: Perm) -> Option<Run>
    requires { start ≤ stop }
    ensures { IsNew start stop perm result }
{
    if perm == Perm::NoAccess {
        return None;
    }
    Some(Run {
        first: start,
        count: stop - start,
        perm,
    })
}

/// Inserts a run, if there is one. The vector has room for it.
fn put(runs: &mut Vec<Run>, at: usize, run: Option<Run>)
    requires at { at ≤ vec_len runs.old }
    requires room { vec_len runs.old + length (option_to_list run) ≤ vec_capacity runs.old }
    ensures items { runs.new.items ≡ take at runs.old.items
        ++ (option_to_list run ++ drop at runs.old.items) }
    ensures len { vec_len runs.new ≡ vec_len runs.old + length (option_to_list run) }
    ensures capacity { vec_capacity runs.old ≤ vec_capacity runs.new }
{
    if let Some(run) = run {
        let Ok(()) = runs.insert(at, run) else {
            unreachable!();
        };
    }
}

/// Counts the runs: 0 or 1.
fn count_of(run: &Option<Run>) -> usize
    ensures { result ≡ length (option_to_list run.now) }
{
    usize::from(run.is_some())
}

/// Removes the runs `from..to`.
fn take_out(runs: &mut Vec<Run>, from: usize, to: usize)
    requires order { from ≤ to }
    requires inside { to ≤ vec_len runs.old }
    ensures items { runs.new.items ≡ take from runs.old.items ++ drop to runs.old.items }
    ensures len { vec_len runs.new + to ≡ vec_len runs.old + from }
    ensures capacity { vec_capacity runs.new ≡ vec_capacity runs.old }
{
    drop(runs.drain(from..to));
}

/// Replaces the runs `from..to` by at most three.
fn replace(
    runs: &mut Vec<Run>,
    from: usize,
    to: usize,
    below: Option<Run>,
    new: Option<Run>,
    above: Option<Run>,
) -> Result<(), MapFault>
    requires order { from ≤ to }
    requires inside { to ≤ vec_len runs.old }
    requires few { vec_len runs.old ≤ 4096 }
    ensures { Becomes runs.old.items runs.new.items
        (take from runs.old.items ++ (option_to_list below ++
        (option_to_list new ++ (option_to_list above ++ drop to runs.old.items))))
        result }
{
    let len = runs.len();
    let wanted = from + count_of(&below) + count_of(&new) + count_of(&above) + (len - to);
    if wanted > MOST_RUNS {
        return Err(MapFault::TooManyRanges);
    }
    if wanted > len {
        let Ok(()) = runs.reserve(wanted - len) else {
            return Err(MapFault::Memory);
        };
    }
    take_out(runs, from, to);
    put(runs, from, above);
    put(runs, from, new);
    put(runs, from, below);
    Ok(())
}

/// Sets the permission of the `count` pages from `first` on, or leaves the runs unchanged.
pub(crate) fn overwrite(
    runs: &mut Vec<Run>,
    first: u64,
    count: u64,
    perm: Perm,
) -> Result<(), MapFault>
    requires runs { AreRuns runs.old.items }
    requires few { length runs.old.items ≤ 4096 }
    requires inside { first + count ≤ 2 ^ 44 }
    ensures { (wanted : List Run) × AreOverwritten runs.old.items first count perm wanted
        × Becomes runs.old.items runs.new.items wanted result }
{
    if count == 0 {
        return Ok(());
    }
    let end = first + count;
    let from = clear_of(runs, first);
    let to = begun(runs, end);
    let (below, start) = rest_below(runs, from, first, perm);
    let (above, stop) = rest_above(runs, to, end, perm);
    let new = new_run(start, stop, perm);
    replace(runs, from, to, below, new, above)
}
