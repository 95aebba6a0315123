//! Tests of the costs of a split block in a plan.

use crate::plans::plan;
use permission_map::PermissionMap;
use pmp_encoding::Perm;
use prefix_tree::build;

#[test]
fn half_of_the_space_costs_one_under_no_access_and_under_full_access(rt: HostRuntime) {
    let mut map = PermissionMap::new(rt.alloc());
    let half = 1 << 43;
    assert!(rt; map.set_range(0, half, Perm::ReadWriteExecute).is_ok());
    let tree = build(rt.alloc(), &map).expect(&rt, "memory");
    let plan = plan(rt.alloc(), &tree).expect(&rt, "memory");
    assert!(rt; plan.branches() == 1);
    assert!(rt; plan.cost(0, Perm::NoAccess) == 1);
    assert!(rt; plan.cost(0, Perm::ReadWriteExecute) == 1);
    assert!(rt; plan.cost(0, Perm::Read) == 2);
    assert!(rt; plan.cost(0, Perm::ReadWrite) == 2);
    assert!(rt; plan.cost(0, Perm::Execute) == 2);
    assert!(rt; plan.cost(0, Perm::ReadExecute) == 2);
}
