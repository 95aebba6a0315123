//! Boots the table of a platform.

ghost use Rattle.std.specs.Prelude.{◌≡◌, ◌<◌, None, replicate, length, IfOk, IfErr};
ghost use Rattle.enclave_table.specs.Fewest.{FitsIn};
ghost use Rattle.enclave_table.specs.Views.{host_view};
ghost use Rattle.enclave_table.specs.Boot.{opening_table, IsBootFault};

use crate::enclave::Enclave;
use crate::entry_list::EntryList;
use crate::table::Table;
use entry_planner::plan;
use permission_map::Memory;
use platforms::{BootFault, Platform};
use prefix_tree::build;
use std::alloc::Global;

/// Returns 64 places without enclaves.
fn no_enclaves(alloc: Global) -> Result<Vec<Option<Enclave>>, Memory>
    ensures { IfOk result (λ v. v.items ≡ replicate 64 None) }
{
    let mut enclaves = Vec::new(alloc);
    enclaves.reserve(64)?;
    for _ in 0..64u64 {
        enclaves.push(None)?;
    }
    Ok(enclaves)
}

/// Returns 64 empty lists of entries.
fn no_lists(alloc: Global) -> Result<Vec<EntryList>, Memory>
    ensures { IfOk result (λ v. length v.items ≡ 64) }
{
    let mut lists = Vec::new(alloc);
    for _ in 0..64u64 {
        lists.push(EntryList::empty(alloc))?;
    }
    Ok(lists)
}

impl Table {
    /// Returns the table of a platform without enclaves.
    pub fn boot(alloc: Global, platform: Platform) -> Result<Table, BootFault>
        ensures opening { IfOk result (λ table. table.table ≡ opening_table platform) }
        ensures fits { IfOk result (λ table.
            FitsIn platform.limit (host_view (opening_table platform))) }
        ensures fault { IfErr result (λ fault. IsBootFault platform fault) }
    {
        platform.cite_invariant();
        let Ok(map) = platform.permissions(alloc) else {
            return Err(BootFault::Memory);
        };
        let Ok(tree) = build(alloc, &map) else {
            return Err(BootFault::Memory);
        };
        let Ok(plan) = plan(alloc, &tree) else {
            return Err(BootFault::Memory);
        };
        if plan.needed() > platform.limit().number() {
            return Err(BootFault::NeedsMoreEntries(u64::from(plan.needed())));
        }
        let list = EntryList::of(plan);
        let Ok(enclaves) = no_enclaves(alloc) else {
            return Err(BootFault::Memory);
        };
        let Ok(lists) = no_lists(alloc) else {
            return Err(BootFault::Memory);
        };
        Ok(Table {
            alloc,
            platform,
            enclaves,
            lists,
            host_tree: tree,
            host_list: list,
            blank: None,
        })
    }
}
