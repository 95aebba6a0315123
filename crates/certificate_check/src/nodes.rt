//! Reads the tree of a certificate, and checks each leaf against the map and each branch against its halves.

ghost use Rattle.std.specs.Prelude.{◌≡◌, ℕ, ◌+◌, ◌-◌, ◌<◌, ◌≤◌, ◌^◌, ◌∷◌, IfOk, OnOk, IsOk, IfErr, MatchResult};
ghost use Rattle.pmp_encoding.specs.declared.perm.Perm.{Perm};
ghost use Rattle.permission_map.specs.Runs.{view_of_runs};
ghost use Rattle.certificate_format.specs.Costs.{cost_of};
ghost use Rattle.certificate_check.specs.declared.refusal.CheckRefusal.{CheckRefusal};
ghost use Rattle.certificate_check.specs.Later.{AgreeFrom};
ghost use Rattle.certificate_check.specs.Nodes.{IsAllowed, BranchFault, NodeFault, IsNodeRead, ReadsNode};
ghost use Rattle.certificate_check.specs.Windows.{place, Reads};

use crate::numbers::{are_too_high, costs_of_leaf, sums_of};
use crate::parts::{costs, perm, tag};
use crate::refusal::CheckRefusal;
use crate::runs::RunsAhead;
use crate::window::Window;
use certificate_format::{SixCosts, Tag};
use permission_map::PermissionMap;
use pmp_encoding::pages_of;
use text_lines::Source;

/// Reads the part after the tag of a leaf of the 2^log2 pages from `first` on.
#[inline(always)]
fn leaf<R: Source>(
    window: &mut Window,
    source: &mut R,
    runs: &mut RunsAhead,
    log2: u32,
    first: u64,
) -> Result<SixCosts, CheckRefusal>
    requires depth { log2 ≤ 44 }
    requires inside { first + 2 ^ log2 ≤ 2 ^ 44 }
    ensures read { Reads (place R.remaining R.failures window.old source.old)
        (place R.remaining R.failures window.new source.new)
        (λ left rest. ReadsNode (view_of_runs runs.old) log2 first result (0 ∷ left) rest) }
    ensures same { OnOk result (AgreeFrom first (view_of_runs runs.new) (view_of_runs runs.old)) }
{
    let perm = perm(window, source)?;
    let end = first + pages_of(log2);
    let Some(found) = runs.uniform(first, end) else {
        return Err(CheckRefusal::LeafNotUniform);
    };
    if perm != found {
        return Err(CheckRefusal::WrongLeaf);
    }
    Ok(costs_of_leaf(perm))
}

/// Returns the numbers of a split block if its halves allow them.
#[inline(always)]
fn branch(costs: &SixCosts, lower: &SixCosts, upper: &SixCosts) -> Result<SixCosts, CheckRefusal>
    ensures numbers { IfOk result (λ numbers.
        (p : Perm) → cost_of numbers p ≡ cost_of costs.now p) }
    ensures allowed { OnOk result (IsAllowed (cost_of costs.now) (cost_of lower.now)
        (cost_of upper.now)) }
    ensures given { IsAllowed (cost_of costs.now) (cost_of lower.now) (cost_of upper.now)
        → IsOk result }
    ensures fault { IfErr result (BranchFault (cost_of costs.now) (cost_of lower.now)
        (cost_of upper.now)) }
{
    let Some(sums) = sums_of(lower, upper) else {
        return Err(CheckRefusal::CostOverflow);
    };
    if are_too_high(costs, &sums) {
        return Err(CheckRefusal::CostTooHigh);
    }
    Ok(*costs)
}

/// Reads the part after the tag of a split block of 2^log2 pages from `first` on, and returns its numbers.
#[cycle(nodes)]
fn split<R: Source>(
    window: &mut Window,
    source: &mut R,
    runs: &mut RunsAhead,
    log2: u32,
    first: u64,
) -> Result<SixCosts, CheckRefusal>
    requires depth { log2 ≤ 44 }
    requires inside { first + 2 ^ log2 ≤ 2 ^ 44 }
    ensures read { Reads (place R.remaining R.failures window.old source.old)
        (place R.remaining R.failures window.new source.new)
        (λ left rest. ReadsNode (view_of_runs runs.old) log2 first result (1 ∷ left) rest) }
    ensures same { OnOk result (AgreeFrom (first + 2 ^ log2) (view_of_runs runs.new)
        (view_of_runs runs.old)) }
{
    if log2 == 0 {
        return Err(CheckRefusal::TooDeep);
    }
    let costs = costs(window, source)?;
    let half = log2 - 1;
    let middle = first + pages_of(half);
    let lower = node(window, source, runs, half, first)?;
    let upper = node(window, source, runs, half, middle)?;
    branch(&costs, &lower, &upper)
}

/// Reads the node of the block of 2^log2 pages from `first` on, and returns its numbers. The runs then continue from
/// the block's end. (A leaf, which most halves are, is read in the caller without a call.)
#[inline(always)]
#[cycle(nodes)]
fn node<R: Source>(
    window: &mut Window,
    source: &mut R,
    runs: &mut RunsAhead,
    log2: u32,
    first: u64,
) -> Result<SixCosts, CheckRefusal>
    requires depth { log2 ≤ 44 }
    requires inside { first + 2 ^ log2 ≤ 2 ^ 44 }
    ensures read { Reads (place R.remaining R.failures window.old source.old)
        (place R.remaining R.failures window.new source.new)
        (λ left rest. ReadsNode (view_of_runs runs.old) log2 first result left rest) }
    ensures same { OnOk result (AgreeFrom (first + 2 ^ log2) (view_of_runs runs.new)
        (view_of_runs runs.old)) }
{
    match tag(window, source)? {
        Tag::Leaf => leaf(window, source, runs, log2, first),
        Tag::Branch => split(window, source, runs, log2, first),
    }
}

/// Reads the root's node, and returns its numbers: lower bounds on the number of entries of the map. A map with the
/// maximum number of runs has numbers below 2^19.
pub(crate) fn root<R: Source>(
    window: &mut Window,
    source: &mut R,
    map: &PermissionMap,
) -> Result<SixCosts, CheckRefusal>
    ensures read { Reads (place R.remaining R.failures window.old source.old)
        (place R.remaining R.failures window.new source.new)
        (λ left rest. MatchResult result (IsNodeRead (view_of_runs map.now) 44 0 left rest)
        (NodeFault (view_of_runs map.now) 44 0 left)) }
    ensures few { IfOk result (λ numbers. numbers.no_access < 2 ^ 19) }
{
    let mut runs = RunsAhead::of(map);
    node(window, source, &mut runs, 44, 0)
}
