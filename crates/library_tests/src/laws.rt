//! Proved examples: a list and its view, and costs of trees, worked out by hand; and the law that the certificate of a
//! plan is accepted.

ghost use Rattle.std.specs.Prelude.{◌≡◌, IfOk, Ok};
ghost use Rattle.pmp_encoding.specs.declared.perm.Perm.TheVariants.{NoAccess, ReadWriteExecute};
ghost use Rattle.pmp_match.specs.Meaning.{Means, Needs};
ghost use Rattle.permission_map.specs.Runs.{view_of_runs};
ghost use Rattle.prefix_tree.specs.Trees.{TreeMeans, Uniform};
ghost use Rattle.entry_planner.specs.Costs.{cost};
ghost use Rattle.library_tests.specs.BootList.{boot_list, boot_view};
ghost use Rattle.library_tests.specs.WorkedTrees.{boot_tree, seven_tree};

use certificate_check::{CheckRefusal, check};
use entry_planner::plan;
use permission_map::{Memory, PermissionMap};
use plan_certificate::write;
use pmp_encoding::Limit;
use prefix_tree::Tree;
use std::alloc::Global;

/// Returns the number of entries of the plan of a tree, and the result of checking the plan's certificate. If the tree
/// means the map, the certificate is accepted with that number, and the map needs that many entries. The only error is
/// a failed allocation.
pub fn checked_plan(
    alloc: Global,
    map: &PermissionMap,
    tree: &Tree,
    limit: Limit,
) -> Result<(u32, Result<u32, CheckRefusal>), Memory>
    ensures accepted { TreeMeans (view_of_runs map.now) tree.now
        → IfOk result (λ checked. checked.1 ≡ Ok checked.0) }
    ensures needed { TreeMeans (view_of_runs map.now) tree.now
        → IfOk result (λ checked. Needs (view_of_runs map.now) checked.0) }
{
    let _branches = tree.branches();
    let plan = plan(alloc, tree)?;
    let bytes = write(alloc, tree, &plan, limit)?;
    Ok((plan.needed(), check(map, bytes.as_slice())))
}

/// The list at boot means the host's view at boot, which needs three entries.
pub fn boot_row()
    ensures means { Means boot_list boot_view }
    ensures needs { Needs boot_view 3 }
{}

/// Costs worked out by hand.
pub fn worked_rows()
    ensures empty { cost (Uniform NoAccess) NoAccess ≡ 0 }
    ensures whole { cost (Uniform ReadWriteExecute) NoAccess ≡ 1 }
    ensures boot { cost boot_tree NoAccess ≡ 3 }
    ensures seven { cost seven_tree NoAccess ≡ 2 }
{}
