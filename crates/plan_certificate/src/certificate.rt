//! Writes the certificate as bytes in memory.

ghost use Rattle.std.specs.Prelude.{◌≡◌, ◌-◌, ◌*◌, ◌≤◌, ◌<◌, ◌^◌, IfOk, length};
ghost use Rattle.text_lines.specs.Writings.{writing, Prints};
ghost use Rattle.prefix_tree.specs.Trees.{Fits};
ghost use Rattle.prefix_tree.specs.Counts.{splits};
ghost use Rattle.prefix_tree.specs.TreeOf.{tree_of};
ghost use Rattle.permission_map.specs.Runs.{view_of_runs};
ghost use Rattle.entry_planner.specs.Plans.{costed};
ghost use Rattle.certificate_format.specs.Spelling.{Spells};
ghost use Rattle.plan_certificate.specs.Written.{version_for, certificate_bytes, certificate_for};

use crate::pieces::send;
use crate::written_plan::WrittenPlan;
use entry_planner::Plan;
use permission_map::{Memory, PermissionMap};
use pmp_encoding::{Limit, PackedEntry};
use prefix_tree::{Halving, MapBlock, Tree};
use std::alloc::{AllocError, Global};
use text_lines::{Counted, DeviceFault, Sink};

/// Writes the certificate of the space for a plan with the same number of split blocks.
fn write_of<H: Halving, P: WrittenPlan>(
    alloc: Global,
    root: &H,
    plan: &P,
    limit: Limit,
) -> Result<Vec<u8>, Memory>
    requires fits { Fits 44 (H.shape root.now) }
    requires splits { splits (H.shape root.now) ≡ length (P.planned plan.now).costs }
    requires most { splits (H.shape root.now) ≤ 88 * 4096 }
    ensures bytes { IfOk result (λ v.
        v.items ≡ certificate_bytes (version_for limit) (P.planned plan.now).entries
        (costed (P.planned plan.now).costs 0 (H.shape root.now))) }
    ensures spells { IfOk result (λ v.
        Spells v.items (version_for limit) (P.planned plan.now).entries
        (costed (P.planned plan.now).costs 0 (H.shape root.now))) }
{
    let room = 12 + 9 * plan.count() as usize + 27 * plan.split_costs().branches();
    let mut sink = Counted::new(Vec::with_capacity(alloc, room)?);
    let Ok(()) = send(root, plan, limit, &mut sink) else {
        return Err(AllocError);
    };
    Ok(sink.into_inner())
}

/// Writes the certificate of a tree and its plan, for harts with `limit` entries: version 1 for sixteen, version 2 for
/// sixty-four. It contains the canonical pairs of the plan's entries, and the tree with the plan's costs. The tree and
/// the plan must have the same number of [`branches`](Tree::branches).
pub fn write(alloc: Global, tree: &Tree, plan: &Plan, limit: Limit) -> Result<Vec<u8>, Memory>
    requires { splits tree.now ≡ length plan.now.costs }
    ensures bytes { IfOk result (λ v.
        v.items ≡ certificate_bytes (version_for limit) plan.now.entries
        (costed plan.now.costs 0 tree.now)) }
    ensures spells { IfOk result (λ v.
        Spells v.items (version_for limit) plan.now.entries (costed plan.now.costs 0 tree.now)) }
{
    let branches = tree.branches();
    prove!(branches == plan.branches());
    let bytes = write_of(alloc, &tree.root(), plan, limit)?;
    Ok(bytes)
}

/// Writes the certificate of a map and its plan, as [`write`] does for the canonical tree of its view. No tree is
/// built.
pub fn write_map(
    alloc: Global,
    map: &PermissionMap,
    plan: &Plan<PackedEntry>,
    limit: Limit,
) -> Result<Vec<u8>, Memory>
    requires { splits (tree_of (view_of_runs map.now)) ≡ length plan.now.costs }
    ensures bytes { IfOk result (λ v.
        v.items ≡ certificate_bytes (version_for limit) plan.now.entries
        (costed plan.now.costs 0 (tree_of (view_of_runs map.now)))) }
    ensures spells { IfOk result (λ v.
        Spells v.items (version_for limit) plan.now.entries
        (costed plan.now.costs 0 (tree_of (view_of_runs map.now)))) }
{
    let bytes = write_of(alloc, &MapBlock::of(map), plan, limit)?;
    Ok(bytes)
}

/// Sends the certificate that [`write_map`] returns to a sink, piece by piece, so that it is never in memory as a
/// whole.
pub fn send_map<W: Sink>(
    map: &PermissionMap,
    plan: &Plan<PackedEntry>,
    limit: Limit,
    sink: &mut W,
) -> Result<(), DeviceFault>
    requires splits { splits (tree_of (view_of_runs map.now)) ≡ length plan.now.costs }
    ensures { Prints (certificate_for limit plan.now (tree_of (view_of_runs map.now)))
        (writing W.contents W.failures W.stalls sink.old sink.new) result }
{
    let Ok(()) = send(&MapBlock::of(map), plan, limit, sink) else {
        return Err(DeviceFault);
    };
    Ok(())
}
