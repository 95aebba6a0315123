//! Settings in C's layout, and the map that they make one after another.

ghost use Rattle.std.specs.Prelude.{◌≡◌, ◌≢◌, ℕ, List, [], IfErr, IfNone, IfOk, IfSome, OnOk, Err, ◌⊎◌};
ghost use Rattle.pmp_encoding.specs.declared.perm.Perm.{Perm};
ghost use Rattle.pmp_encoding.specs.Perms.{bits_of};
ghost use Rattle.permission_map.specs.declared.runs.Run.{Run};
ghost use Rattle.planner_for_c.specs.declared.settings.SettingFault.{SettingFault};
ghost use Rattle.planner_for_c.specs.Settings.{FaultIn, IsRefusedFor, LeadTo, Sets};
ghost use Rattle.planner_for_c.specs.Codes.{fault_code, place_of, refusal_code};

use permission_map::{MapFault, PermissionMap};
use pmp_encoding::{PAGE_SIZE, Perm};
use std::alloc::Global;

/// A permission of supervisor and user mode on whole pages. A later setting overrides an earlier one.
#[repr(C)]
#[derive(Clone, Copy)]
pub struct Setting {
    /// The first address, a multiple of 4096.
    pub base: u64,
    /// The number of bytes, a multiple of 4096.
    pub size: u64,
    /// Read is 1, write 2, execute 4: 0, 1, 3, 4, 5 or 7.
    pub perm: u64,
}

/// The reason why a setting is refused. If several apply, it is the first.
#[derive(Clone, Copy)]
pub enum SettingFault {
    /// The base is not a multiple of 4096.
    UnalignedBase,
    /// The size is not a multiple of 4096.
    UnalignedSize,
    /// The number does not encode a permission.
    UnknownPerm,
    /// The last byte is at or above 2^56.
    PastEnd,
    /// The map would have more than 4096 ranges.
    TooManyRanges,
}

/// The reason why one setting is not applied.
#[derive(Clone, Copy)]
enum Unset {
    Fault(SettingFault),
    Memory,
}

/// The reason why settings make no map.
#[derive(Clone, Copy)]
pub(crate) enum NoMap {
    /// The setting of this index is refused.
    Setting(usize, SettingFault),
    /// An allocation failed.
    Memory,
}

impl NoMap {
    /// Returns the code of the refusal, and stores the index of a refused setting in `at_fault`.
    pub(crate) fn report(self, at_fault: &mut u64) -> i64
        ensures code { result ≡ refusal_code self }
        ensures place { at_fault.new ≡ place_of self at_fault.old }
    {
        match self {
            NoMap::Setting(place, fault) => {
                *at_fault = place as u64;
                fault.code()
            }
            NoMap::Memory => -6,
        }
    }
}

impl SettingFault {
    fn code(self) -> i64
        ensures { result ≡ fault_code self }
    {
        match self {
            SettingFault::UnalignedBase => -1,
            SettingFault::UnalignedSize => -2,
            SettingFault::UnknownPerm => -3,
            SettingFault::PastEnd => -4,
            SettingFault::TooManyRanges => -5,
        }
    }
}

/// Returns the permission with these bits.
fn perm_of(bits: u64) -> Option<Perm>
    ensures some { IfSome result (λ perm. bits_of perm ≡ bits) }
    ensures none { IfNone result ((perm : Perm) → bits_of perm ≢ bits) }
{
    if bits > 7 {
        return None;
    }
    Perm::from_bits(bits as u8)
}

/// Applies a setting to the map, or leaves the map unchanged.
fn set(map: &mut PermissionMap, setting: &Setting) -> Result<(), Unset>
    ensures done { OnOk result (Sets map.old setting.now map.new) }
    ensures fault { (fault : SettingFault) → result ≡ Err (Unset.Fault fault)
        → IsRefusedFor fault map.old setting.now }
{
    if setting.base % PAGE_SIZE != 0 {
        return Err(Unset::Fault(SettingFault::UnalignedBase));
    }
    if setting.size % PAGE_SIZE != 0 {
        return Err(Unset::Fault(SettingFault::UnalignedSize));
    }
    let Some(perm) = perm_of(setting.perm) else {
        return Err(Unset::Fault(SettingFault::UnknownPerm));
    };
    match map.set_range(setting.base / PAGE_SIZE, setting.size / PAGE_SIZE, perm) {
        Ok(()) => Ok(()),
        Err(MapFault::PastEnd) => Err(Unset::Fault(SettingFault::PastEnd)),
        Err(MapFault::TooManyRanges) => Err(Unset::Fault(SettingFault::TooManyRanges)),
        Err(MapFault::Memory) => Err(Unset::Memory),
    }
}

/// Applies the settings one after another to a map without any permission.
pub(crate) fn map_of(alloc: Global, settings: &[Setting]) -> Result<PermissionMap, NoMap>
    ensures made { IfOk result (LeadTo [] settings.now) }
    ensures fault { (i : ℕ) (fault : SettingFault) → result ≡ Err (NoMap.Setting i fault)
        → FaultIn [] settings.now i fault }
{
    let mut map = PermissionMap::new(alloc);
    let mut rest = settings;
    while let [setting, later @ ..] = rest {
        match set(&mut map, setting) {
            Ok(()) => {}
            Err(Unset::Fault(fault)) => {
                return Err(NoMap::Setting(settings.len() - rest.len(), fault));
            }
            Err(Unset::Memory) => return Err(NoMap::Memory),
        }
        rest = later;
    }
    Ok(map)
}
