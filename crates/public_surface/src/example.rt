//! The example in the guide: a map, the fewest entries that mean it, a bank with these entries, and an access judged by
//! the bank.

use entry_planner::plan;
use permission_map::{MapFault, PermissionMap};
use pmp_encoding::{Bank, Limit, Perm};
use prefix_tree::build;
use std::alloc::Global;

/// Returns the bank of a hart with 128 MiB of RAM whose first 2 MiB belong to the firmware, or `None` if sixteen entries are not
/// enough.
pub fn bank_of_host(alloc: Global) -> Result<Option<Bank>, MapFault> {
    let mut map = PermissionMap::new(alloc);
    map.set_range(0x80000, 0x8000, Perm::ReadWriteExecute)?; // pages, not bytes
    map.set_range(0x80000, 0x200, Perm::NoAccess)?;
    let tree = build(alloc, &map).map_err(|_| MapFault::Memory)?;
    let plan = plan(alloc, &tree).map_err(|_| MapFault::Memory)?; // plan.needed() is 2
    if plan.needed() > 16 {
        return Ok(None);
    }
    Ok(Some(Bank::of(plan.entries(), Limit::Sixteen)))
}

#[cfg(test)]
mod tests {
    use super::bank_of_host;
    use pmp_match::{Access, Cause, Kind, Mode, judge};
    use std::process::Abort;

    /// Returns a load of eight bytes by the host.
    fn load(rt: &impl Abort, address: u64) -> Access {
        Access::new(Mode::Supervisor, Kind::Load, 8, address).expect(rt, "an access")
    }

    #[test]
    fn host_reaches_its_ram_and_not_the_firmware(rt: HostRuntime) {
        let bank = bank_of_host(rt.alloc())
            .expect(&rt, "memory")
            .expect(&rt, "a bank");
        assert!(rt; bank.cfg0() == 0x1f18);
        assert!(rt; judge(&bank, &load(&rt, 0x801f_fff8)) == Err(Cause::LoadFault));
        assert!(rt; judge(&bank, &load(&rt, 0x8020_0000)) == Ok(()));
    }
}
