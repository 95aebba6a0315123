//! The permission of each page of a platform, as a map.

ghost use Rattle.std.specs.Prelude.{◌≡◌, ◌+◌, ◌^◌, ◌≤◌, [], cond, length, IfOk, OnOk};
ghost use Rattle.std.specs.List.{All, list_any};
ghost use Rattle.pmp_encoding.specs.declared.perm.Perm.TheVariants.{NoAccess, ReadWriteExecute};
ghost use Rattle.permission_map.specs.Runs.{view_of_runs};
ghost use Rattle.pmp_encoding.specs.Views.{SameView, overwritten};
ghost use Rattle.platforms.specs.Platform.{device_perm, platform_perm};
ghost use Rattle.platforms.specs.Ranges.{IsRange, has_page, device_range};

use crate::platform::Platform;
use permission_map::{MapFault, Memory, PermissionMap};
use pmp_encoding::{PageRange, Perm};
use std::alloc::{AllocError, Global};

/// Sets the permission of some pages of a map that has far fewer than the maximum number of ranges, so that it fails
/// only if an allocation fails.
pub fn set_pages(map: &mut PermissionMap, pages: PageRange, perm: Perm) -> Result<(), Memory>
    requires inside { pages.first + pages.count ≤ 2 ^ 44 }
    requires few { length map.old ≤ 4000 }
    ensures view { OnOk result (SameView (view_of_runs map.new)
        (overwritten (view_of_runs map.old) pages.first pages.count perm)) }
    ensures few { OnOk result (length map.new ≤ length map.old + 2) }
{
    let _runs = map.ranges();
    match map.set_range(pages.first, pages.count, perm) {
        Ok(()) => Ok(()),
        Err(MapFault::Memory) => Err(AllocError),
        Err(MapFault::TooManyRanges) => unreachable!(),
        Err(MapFault::PastEnd) => unreachable!(),
    }
}

/// Sets the permission of each device; if two have a page in common, the first takes precedence.
fn put_devices(perms: &mut PermissionMap, devices: &[(u64, u64, Perm)]) -> Result<(), Memory>
    requires empty { perms.old ≡ [] }
    requires ranges { All (λ device. IsRange (device_range device)) devices.now }
    requires few { length devices.now ≤ 32 }
    ensures view { OnOk result (SameView (view_of_runs perms.new) (device_perm devices.now)) }
    ensures few { OnOk result (length perms.new ≤ 64) }
{
    let mut i = devices.len();
    while i > 0 {
        i -= 1;
        let device = devices[i];
        set_pages(perms, PageRange::of_bytes(device.0, device.1), device.2)?;
    }
    Ok(())
}

/// Allows everything in memory.
fn put_memory(perms: &mut PermissionMap, ram: &[(u64, u64)]) -> Result<(), Memory>
    requires ranges { All IsRange ram.now }
    requires few { length ram.now ≤ 32 }
    requires few_perms { length perms.old ≤ 64 }
    ensures view { OnOk result (SameView (view_of_runs perms.new) (λ page. cond (list_any
        (λ range. has_page range page) ram.now) ReadWriteExecute (view_of_runs perms.old page))) }
    ensures few { OnOk result (length perms.new ≤ 128) }
{
    let mut i = ram.len();
    while i > 0 {
        i -= 1;
        let range = ram[i];
        let pages = PageRange::of_bytes(range.0, range.1);
        set_pages(perms, pages, Perm::ReadWriteExecute)?;
    }
    Ok(())
}

impl Platform {
    /// Returns the permissions of the platform, with none on the monitor's pages.
    pub fn permissions(&self, alloc: Global) -> Result<PermissionMap, Memory>
        ensures view { IfOk result (λ map.
            SameView (view_of_runs map) (λ page.
            cond (has_page self.now.monitor page) NoAccess (platform_perm self.now page))) }
        ensures few { IfOk result (λ map. length map ≤ 130) }
    {
        let mut map = PermissionMap::new(alloc);
        put_devices(&mut map, self.devices.as_slice())?;
        put_memory(&mut map, self.ram.as_slice())?;
        set_pages(&mut map, self.monitor_pages(), Perm::NoAccess)?;
        Ok(map)
    }
}
