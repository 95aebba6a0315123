//! Plans a tree or a map.

ghost use Rattle.std.specs.Prelude.{◌≡◌, ◌≤◌, ◌*◌, List, length, All, IfOk, reverse};
ghost use Rattle.pmp_encoding.specs.declared.perm.Perm.TheVariants.{NoAccess};
ghost use Rattle.pmp_encoding.specs.declared.region.Entry.{Entry};
ghost use Rattle.pmp_match.specs.Bounds.{IsSoundBound, bound_of};
ghost use Rattle.pmp_match.specs.Meaning.{IsFewest};
ghost use Rattle.prefix_tree.specs.Counts.{splits};
ghost use Rattle.prefix_tree.specs.Trees.{Fits, view_of_tree};
ghost use Rattle.entry_planner.specs.Order.{AreInOrder};
ghost use Rattle.entry_planner.specs.Choice.{AreChosen};
ghost use Rattle.entry_planner.specs.SplitCosts.{splits_in};
ghost use Rattle.entry_planner.specs.Plans.{CostsAre, IsMade, costed};
ghost use Rattle.permission_map.specs.Runs.{view_of_runs};
ghost use Rattle.prefix_tree.specs.TreeOf.{tree_of};

use crate::costs::{SplitCost, add_costs};
use crate::order::in_order;
use crate::placement::{PageBlock, place_entries};
use crate::planned::Plan;
use crate::shelves::Shelves;
use permission_map::{Memory, PermissionMap};
use pmp_encoding::{PackedEntry, Perm};
use prefix_tree::{Halving, MapBlock, Tree};
use std::alloc::Global;

/// Returns the entries of the whole space, which inherits no access, in order.
fn entries_of<H: Halving>(
    alloc: Global,
    root: &H,
    least: u32,
    costs: &[SplitCost],
) -> Result<Vec<PackedEntry>, Memory>
    requires fits { Fits 44 (H.shape root.now) }
    requires costs { costs.now ≡ reverse (splits_in (H.shape root.now)) }
    ensures chosen { IfOk result (λ v. AreChosen (H.shape root.now) v.items) }
    ensures order { IfOk result (λ v. AreInOrder v.items) }
{
    let mut placed = Shelves::with_room(alloc, least)?;
    let space = PageBlock { first: 0, log2: 44 };
    let _ = place_entries(root, space, Perm::NoAccess, costs, &mut placed)?;
    Ok(in_order(alloc, placed))
}

/// Plans a tree: returns the fewest entries that mean its view, and the cost of each of its split blocks.
///
/// At every naturally aligned access in the space, the list allows supervisor and user mode exactly what the view
/// allows, and no list of entries of any regions in any order that does so is shorter. Its regions consist of whole
/// pages, in order of ascending size and, for one size, of ascending address. Among the lists with these properties it
/// is the one of ORTC's pass down: starting from the whole space, which inherits no access, a split block gets an entry
/// only if that saves more than it costs, for the first permission in the order none, R, RW, X, RX, RWX for which its
/// halves cost least. Fails only if an allocation fails. (RISC-V Privileged Architecture, Physical Memory Protection:
/// priority and matching logic. The passes up and down are those of ORTC, Draves and others, 1999, with permissions for
/// next hops and no access for the default route.)
pub fn plan(alloc: Global, tree: &Tree) -> Result<Plan, Memory>
    ensures fewest { IfOk result (λ plan. IsFewest (view_of_tree tree.now) plan.entries) }
    ensures pages { IfOk result (λ plan. All (λ e. 12 ≤ e.region.log2) plan.entries) }
    ensures order { IfOk result (λ plan. AreInOrder plan.entries) }
    ensures choice { IfOk result (λ plan. AreChosen tree.now plan.entries) }
    ensures costs { IfOk result (λ plan. CostsAre plan.costs 0 tree.now) }
    ensures branches { IfOk result (λ plan. length plan.costs ≡ splits tree.now) }
    ensures bound { IfOk result (λ plan. IsSoundBound (view_of_tree tree.now)
        (costed plan.costs 0 tree.now)) }
    ensures root { IfOk result (λ plan. bound_of (costed plan.costs 0 tree.now) NoAccess
        ≡ length plan.entries) }
{
    let packed = plan_of(alloc, &tree.root(), tree.branches())?;
    let plan = packed.unpacked(alloc)?;
    Ok(plan)
}

/// Plans a map as [`plan`] does the canonical tree of its view. That tree has at most 44 split blocks for each of the
/// two ends of a run, and is not built. The entries stay packed.
pub fn plan_map(alloc: Global, map: &PermissionMap) -> Result<Plan<PackedEntry>, Memory>
    ensures fewest { IfOk result (λ plan. IsFewest (view_of_runs map.now) plan.entries) }
    ensures pages { IfOk result (λ plan. All (λ e. 12 ≤ e.region.log2) plan.entries) }
    ensures order { IfOk result (λ plan. AreInOrder plan.entries) }
    ensures choice { IfOk result (λ plan.
        AreChosen (tree_of (view_of_runs map.now)) plan.entries) }
    ensures costs { IfOk result (λ plan. CostsAre plan.costs 0 (tree_of (view_of_runs map.now))) }
    ensures branches { IfOk result (λ plan.
        length plan.costs ≡ splits (tree_of (view_of_runs map.now))) }
    ensures most { IfOk result (λ plan. length plan.costs ≤ 44 * 8192) }
    ensures bound { IfOk result (λ plan.
        IsSoundBound (view_of_runs map.now)
        (costed plan.costs 0 (tree_of (view_of_runs map.now)))) }
    ensures root { IfOk result (λ plan.
        bound_of (costed plan.costs 0 (tree_of (view_of_runs map.now)))
        NoAccess ≡ length plan.entries) }
{
    let most = 88 * map.ranges().len();
    let plan = plan_of(alloc, &MapBlock::of(map), most)?;
    Ok(plan)
}

/// Plans the space, which has at most `most` split blocks.
fn plan_of<H: Halving>(alloc: Global, root: &H, most: usize) -> Result<Plan<PackedEntry>, Memory>
    requires fits { Fits 44 (H.shape root.now) }
    requires splits { splits (H.shape root.now) ≤ most }
    requires most { most ≤ 88 * 4096 }
    ensures { IfOk result (λ plan. IsMade (H.shape root.now) plan) }
{
    let mut costs = Vec::with_capacity(alloc, most)?;
    let cost = add_costs(root, &mut costs)?;
    let entries = entries_of(alloc, root, cost.least + 1, costs.as_slice())?;
    Ok(Plan::<PackedEntry>::new(entries, costs))
}
