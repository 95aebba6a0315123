//! Plans an enclave's view, and the host's view with some pages overwritten.

ghost use Rattle.std.specs.Prelude.{◌+◌, ◌^◌, ◌≤◌, IfOk};
ghost use Rattle.pmp_match.specs.Meaning.{IsFewest};
ghost use Rattle.permission_map.specs.Views.{overwritten};
ghost use Rattle.prefix_tree.specs.Trees.{TreeMeans, IsCanonical};
ghost use Rattle.measurement.specs.Requests.{HasCounts, HasPlaces};
ghost use Rattle.enclave_table.specs.Views.{host_view, enclave_view};

use crate::table::Table;
use crate::views::enclave_map;
use entry_planner::{Plan, plan, plan_map};
use measurement::Create;
use permission_map::{MapFault, Memory};
use pmp_encoding::{PageRange, Perm};
use prefix_tree::Tree;
use std::alloc::{AllocError, Global};

/// Plans an enclave's view.
pub(crate) fn enclave_plan(alloc: Global, parts: &Create) -> Result<Plan, Memory>
    requires counts { HasCounts parts.now }
    requires places { HasPlaces parts.now }
    ensures { IfOk result (λ plan. IsFewest (enclave_view parts.now) plan.entries) }
{
    let map = enclave_map(alloc, parts)?;
    let packed = plan_map(alloc, &map)?;
    let plan = packed.unpacked(alloc)?;
    Ok(plan)
}

/// The tree and the plan of a host's view.
#[derive(Drop)]
pub(crate) struct PlannedView {
    pub(crate) tree: Tree,
    pub(crate) plan: Plan,
}

impl Table {
    /// Plans the host's view with some pages overwritten.
    pub(crate) fn host_plan(&self, pages: PageRange, perm: Perm) -> Result<PlannedView, Memory>
        requires { pages.first + pages.count ≤ 2 ^ 44 }
        ensures means { IfOk result (λ planned.
            TreeMeans (overwritten (host_view self.now.table) pages.first pages.count perm)
            planned.tree) }
        ensures canonical { IfOk result (λ planned. IsCanonical planned.tree) }
        ensures fewest { IfOk result (λ planned.
            IsFewest (overwritten (host_view self.now.table) pages.first pages.count perm)
            planned.plan.entries) }
    {
        self.cite_invariant();
        let tree = match self.host_tree().with_range(pages.first, pages.count, perm) {
            Ok(tree) => tree,
            Err(MapFault::Memory) => return Err(AllocError),
            Err(MapFault::TooManyRanges) => unreachable!(),
            Err(MapFault::PastEnd) => unreachable!(),
        };
        let plan = plan(self.alloc(), &tree)?;
        Ok(PlannedView { tree, plan })
    }
}
