//! A plan: the fewest entries of a view, with the costs of its blocks.

use crate::costs::SplitCost;
use crate::split_costs::SplitCosts;
use pmp_encoding::{Entry, PackedEntry, Perm};
use std::alloc::{AllocError, Global};
use std::marker::Model;

/// The fewest entries of a tree's view, and the cost of each split block of the tree, which proves that no shorter list
/// means the view. A plan of a map stores each entry in eight bytes, as a [`PackedEntry`]; contracts see the same plan.
#[derive(Drop)]
pub struct Plan<E = Entry> {
    pub(crate) entries: Vec<E>,
    costs: SplitCosts,
}

impl<E> Model for Plan<E> {
    ghost use Rattle.std.specs.Prelude.{◌^◌, ◌<◌, length};
    ghost use Rattle.entry_planner.specs.Plans.{PlanOf};

    ghost Value = { PlanOf E };

    ghost view = { λ p. record { entries = p.entries.items; costs = p.costs } };

    ghost invariant = { λ p. length p.entries.items < 2 ^ 32 };
}

ghost use Rattle.std.specs.Prelude.{◌≡◌, ◌^◌, ◌<◌, length, map, reverse, IfOk};
ghost use Rattle.entry_planner.specs.SplitCosts.{as_block};
ghost use Rattle.entry_planner.specs.Plans.{AreSmall, cost_in};

impl<E> Plan<E> {
    /// Returns the entries in the order in which they go into a bank: by ascending size, and those of one size by
    /// ascending address.
    pub fn entries(&self) -> &[E]
        ensures { result.now ≡ self.now.entries }
    {
        self.entries.as_slice()
    }

    /// Returns the entries without the costs.
    pub fn into_entries(self) -> Vec<E>
        ensures { result.items ≡ self.entries }
    {
        self.entries
    }

    /// Returns the number of entries.
    pub fn needed(&self) -> u32
        ensures { result ≡ length self.now.entries }
    {
        self.entries.len() as u32
    }

    /// Returns the number of split blocks of the tree.
    pub fn branches(&self) -> usize
        ensures { result ≡ length self.now.costs }
    {
        self.costs.branches()
    }

    /// Returns the cost of the i-th split block if it inherits a permission, that of the smallest entry around it: the
    /// least number of entries that then give its pages their permissions. The tree's split blocks are numbered from 0
    /// in preorder: a block, then those of its lower half, then those of its upper half. A uniform block costs 0 if it
    /// inherits its own permission, otherwise 1.
    pub fn cost(&self, i: usize, perm: Perm) -> u32
        requires { i < length self.now.costs }
        ensures { result ≡ cost_in self.now.costs i perm }
    {
        self.costs.cost(i, perm)
    }

    /// Returns the costs of all split blocks.
    pub fn costs(&self) -> &SplitCosts
        ensures { result.now ≡ self.now.costs }
    {
        &self.costs
    }
}

/// Unpacks entries.
fn unpacked(alloc: Global, packed: &[PackedEntry]) -> Result<Vec<Entry>, AllocError>
    ensures { IfOk result (λ entries. entries.items ≡ packed.now) }
{
    let mut entries = Vec::with_capacity(alloc, packed.len())?;
    for entry in packed {
        entries.push(entry.entry())?;
    }
    Ok(entries)
}

impl Plan<PackedEntry> {
    /// Returns the plan with these entries and costs, the costs in reverse preorder.
    pub(crate) fn new(entries: Vec<PackedEntry>, costs: Vec<SplitCost>) -> Plan<PackedEntry>
        requires { AreSmall
            (record { entries = entries.items; costs = map as_block (reverse costs.items) }) }
        ensures { result
            ≡ record { entries = entries.items; costs = map as_block (reverse costs.items) } }
    {
        Plan {
            entries,
            costs: SplitCosts::new(costs),
        }
    }

    /// Unpacks the entries. Fails only if an allocation fails.
    pub fn unpacked(self, alloc: Global) -> Result<Plan, AllocError>
        ensures { IfOk result (λ plan. plan ≡ self) }
    {
        let Plan { entries, costs } = self;
        let entries = unpacked(alloc, entries.as_slice())?;
        Ok(Plan { entries, costs })
    }
}
