//! The fewest entries of a view, if they fit in a bank.

ghost use Rattle.std.specs.Prelude.{ℕ, ◌+◌, ◌^◌, ◌<◌, ◌≤◌, IfOk, IfErr, length};
ghost use Rattle.pmp_encoding.specs.declared.perm.Perm.{Perm};
ghost use Rattle.pmp_match.specs.Meaning.{IsFewest};
ghost use Rattle.permission_map.specs.Views.{overwritten};
ghost use Rattle.prefix_tree.specs.Trees.{TreeMeans, IsCanonical};
ghost use Rattle.measurement.specs.Requests.{HasCounts, HasPlaces};
ghost use Rattle.enclave_table.specs.Views.{host_view, enclave_view};
ghost use Rattle.enclave_table.specs.Fewest.{IsListOf, IsWant};

use crate::entry_list::EntryList;
use crate::planned::{PlannedView, enclave_plan};
use crate::refusal::Refusal;
use crate::table::Table;
use entry_planner::Plan;
use measurement::Create;
use pmp_encoding::{Limit, PageRange, Perm};
use prefix_tree::Tree;
use std::alloc::Global;

/// Returns the entries of a plan, if they fit.
fn list_of_plan(limit: Limit, plan: Plan) -> Result<EntryList, Refusal>
    ensures list { (view : ℕ → Perm) → IsFewest view plan.entries
        → IfOk result (λ list. IsListOf limit view list) }
    ensures want { (view : ℕ → Perm) → IsFewest view plan.entries
        → IfErr result (λ refusal. IsWant limit view refusal) }
{
    if plan.needed() > limit.number() {
        return Err(Refusal::NoEntries);
    }
    Ok(EntryList::of(plan))
}

/// Returns the fewest entries of an enclave's view, if they fit.
pub(crate) fn enclave_list(
    alloc: Global,
    limit: Limit,
    parts: &Create,
) -> Result<EntryList, Refusal>
    requires counts { HasCounts parts.now }
    requires places { HasPlaces parts.now }
    ensures list { IfOk result (λ list. IsListOf limit (enclave_view parts.now) list) }
    ensures want { IfErr result (λ refusal. IsWant limit (enclave_view parts.now) refusal) }
{
    let Ok(plan) = enclave_plan(alloc, parts) else {
        return Err(Refusal::NoMemory);
    };
    list_of_plan(limit, plan)
}

/// The tree and the entries of a host's view.
#[derive(Drop)]
pub(crate) struct HostView {
    pub(crate) tree: Tree,
    pub(crate) list: EntryList,
}

impl Table {
    /// Returns the host's view with some pages overwritten, if its entries fit.
    pub(crate) fn host_with(&self, pages: PageRange, perm: Perm) -> Result<HostView, Refusal>
        requires { pages.first + pages.count ≤ 2 ^ 44 }
        ensures means { IfOk result (λ host.
            TreeMeans (overwritten (host_view self.now.table) pages.first pages.count perm)
            host.tree) }
        ensures canonical { IfOk result (λ host. IsCanonical host.tree) }
        ensures list { IfOk result (λ host.
            IsListOf self.now.table.layout.limit
            (overwritten (host_view self.now.table) pages.first pages.count perm) host.list) }
        ensures want { IfErr result (λ refusal.
            IsWant self.now.table.layout.limit
            (overwritten (host_view self.now.table) pages.first pages.count perm) refusal) }
    {
        let Ok(PlannedView { tree, plan }) = self.host_plan(pages, perm) else {
            return Err(Refusal::NoMemory);
        };
        let list = list_of_plan(self.limit(), plan)?;
        Ok(HostView { tree, list })
    }
}
