//! Tests of plans with a chain.

use crate::ChainPlan;
use permission_map::PermissionMap;
use pmp_encoding::{Perm, Xlen};

#[test]
fn a_range_takes_two_entries_at_entry_0_and_behind_others(rt: HostRuntime) {
    let mut map = PermissionMap::new(rt.alloc());
    assert!(rt; map.set_range(1, 5, Perm::Read).is_ok());
    let first = ChainPlan::of(rt.alloc(), &map, Xlen::Rv64, 0).expect(&rt, "memory");
    assert!(rt; first.blocks.len() + first.tops.len() == 2 && first.off.is_none());
    let behind = ChainPlan::of(rt.alloc(), &map, Xlen::Rv32, 3).expect(&rt, "memory");
    assert!(rt; behind.blocks.is_empty() && behind.tops.len() == 1 && behind.off.is_some());
}
