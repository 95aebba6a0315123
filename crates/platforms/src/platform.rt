//! A platform: the locations of memory, devices and the monitor.

ghost use Rattle.std.specs.Prelude.{◌≡◌, ◌≢◌, ◌<◌, ◌≤◌, ◌+◌, ◌/◌, ◌^◌, ◌↔◌, IsTrue, IfOk, IfErr, length};
ghost use Rattle.std.specs.List.{All};
ghost use Rattle.pmp_encoding.specs.declared.limit.Limit.TheVariants.{Sixteen};
ghost use Rattle.pmp_encoding.specs.Limits.{limit_number};
ghost use Rattle.platforms.specs.Platform.{IsLayout, PlatformLayout, platform_fault_number, platform_rules};
ghost use Rattle.platforms.specs.CheckLists.{AllPass, FailsFirst};
ghost use Rattle.platforms.specs.Ranges.{AreAmong, IsRange, device_range};

use crate::ranges::{all_ranges, are_among, devices_on_ranges, each_apart, is_range};
use arrayvec::ArrayVec;
use pmp_encoding::{Limit, PAGE_SIZE, PageRange, Perm};
use std::marker::Model;

/// Maximum number of ranges of memory, and of devices.
const MOST: usize = 32;

/// The reason why ranges or numbers do not form a platform: the applicable fault of the lowest number.
#[derive(Clone, Copy, PartialEq, Eq, Debug)]
pub enum PlatformFault {
    /// A base or a size is not a multiple of 4096, a size is zero, or a range ends above 2^56.
    BadRange = 1,
    /// Two of the memory and device ranges have a page in common.
    Overlap = 2,
    /// A page of the monitor is not in memory.
    MonitorNotRam = 3,
    /// There is no range of memory, or more than 32, or more than 32 devices.
    BadNumber = 4,
    /// There are not one to four harts.
    BadHarts = 5,
    /// The number of entries is neither 16 nor 64.
    BadEntries = 6,
}

impl PlatformFault {
    /// Returns the number, from 1 to 6.
    pub fn number(self) -> u8
        ensures { result ≡ platform_fault_number self }
    {
        self as u8
    }
}

/// The locations of memory, devices and the monitor, the number of harts, and their number of PMP entries. It does not
/// allocate. Contracts see it as its `PlatformLayout`.
#[derive(Drop)]
pub struct Platform {
    monitor: (u64, u64),
    pub(crate) ram: ArrayVec<(u64, u64), 32>,
    pub(crate) devices: ArrayVec<(u64, u64, Perm), 32>,
    pub(crate) harts: u8,
    limit: Limit,
}

impl Model for Platform {
    ghost use Rattle.platforms.specs.Platform.{PlatformLayout, IsLayout};

    ghost Value = { PlatformLayout };

    ghost view = { λ p. record { monitor = p.monitor; ram = p.ram.items; devices = p.devices.items; harts = p.harts; limit = p.limit } };

    ghost invariant = { λ p. IsLayout (record { monitor = p.monitor; ram = p.ram.items; devices = p.devices.items; harts = p.harts; limit = p.limit }) };
}

/// Returns whether each range consists of whole pages, at least one, below 2^56.
fn are_ranges(monitor: (u64, u64), ram: &[(u64, u64)], devices: &[(u64, u64, Perm)]) -> bool
    ensures { IsTrue result ↔ (IsRange monitor × All IsRange ram.now
        × All (λ device. IsRange (device_range device)) devices.now) }
{
    is_range(monitor) && all_ranges(ram) && devices_on_ranges(devices)
}

/// Returns whether there is memory, and neither list is too long.
fn are_few(ram: &[(u64, u64)], devices: &[(u64, u64, Perm)]) -> bool
    ensures { IsTrue result ↔ ((0 < length ram.now) × (length ram.now ≤ 32)
        × (length devices.now ≤ 32)) }
{
    !ram.is_empty() && ram.len() <= MOST && devices.len() <= MOST
}

/// Copies the items into an array with room for 32.
fn to_array<T: Copy + Default>(items: &[T]) -> ArrayVec<T, 32>
    requires { length items.now ≤ 32 }
    ensures { result.items ≡ items.now }
{
    let mut kept = ArrayVec::new();
    let Ok(()) = kept.try_extend_from_slice(items) else {
        unreachable!();
    };
    kept
}

impl Platform {
    /// Does nothing: a proof cites the invariant of every platform by this call.
    pub fn cite_invariant(&self)
        ensures { IsLayout self.now }
    {
        let _harts = self.harts;
    }

    /// Returns the platform with the monitor in that range, and these memory ranges and devices. A range is its base
    /// and its size in bytes; a device also has a permission. The platform has one hart with sixteen entries.
    ///
    /// Fails with the applicable fault of the lowest number from [`PlatformFault::BadRange`] to
    /// [`PlatformFault::BadNumber`].
    pub fn new(
        monitor: (u64, u64),
        ram: &[(u64, u64)],
        devices: &[(u64, u64, Perm)],
    ) -> Result<Platform, PlatformFault>
        ensures rules { IfOk result (λ p. AllPass (platform_rules monitor ram.now devices.now)) }
        ensures value { IfOk result (λ p.
            p ≡ record {
              monitor = monitor;
              ram = ram.now;
              devices = devices.now;
              harts = 1;
              limit = Sixteen;
            }) }
        ensures fault { IfErr result (λ f.
            FailsFirst (platform_rules monitor ram.now devices.now) f) }
    {
        if !are_ranges(monitor, ram, devices) {
            return Err(PlatformFault::BadRange);
        }
        if !each_apart(ram, devices) {
            return Err(PlatformFault::Overlap);
        }
        if !are_among(ram, monitor.0 / PAGE_SIZE, monitor.1 / PAGE_SIZE) {
            return Err(PlatformFault::MonitorNotRam);
        }
        if !are_few(ram, devices) {
            return Err(PlatformFault::BadNumber);
        }
        Ok(Platform {
            monitor,
            ram: to_array(ram),
            devices: to_array(devices),
            harts: 1,
            limit: Limit::Sixteen,
        })
    }

    /// Returns the platform with this number of harts, one to four.
    pub fn with_harts(self, harts: u8) -> Result<Platform, PlatformFault>
        ensures value { IfOk result (λ p. (0 < harts) × (harts ≤ 4)
            × (p ≡ record self { harts = harts })) }
        ensures fault { IfErr result (λ f. (f ≡ PlatformFault.BadHarts)
            × ((0 < harts) → 4 < harts)) }
    {
        if harts == 0 || harts > 4 {
            return Err(PlatformFault::BadHarts);
        }
        let mut platform = self;
        platform.harts = harts;
        Ok(platform)
    }

    /// Returns the platform with this number of PMP entries for each hart, 16 or 64.
    pub fn with_entries(self, entries: u8) -> Result<Platform, PlatformFault>
        ensures value { IfOk result (λ p.
            (limit_number p.limit ≡ entries) × (p ≡ record self { limit = p.limit })) }
        ensures fault { IfErr result (λ f. (f ≡ PlatformFault.BadEntries) × (entries ≢ 16)
            × (entries ≢ 64)) }
    {
        let Some(limit) = Limit::of(u32::from(entries)) else {
            return Err(PlatformFault::BadEntries);
        };
        let mut platform = self;
        platform.limit = limit;
        Ok(platform)
    }

    /// Returns the number of harts.
    pub fn harts(&self) -> u8
        ensures value { result ≡ self.now.harts }
        ensures some { 0 < self.now.harts }
        ensures most { self.now.harts ≤ 4 }
    {
        self.harts
    }

    /// Returns the number of PMP entries of each hart.
    pub fn limit(&self) -> Limit
        ensures { result ≡ self.now.limit }
    {
        self.limit
    }

    /// Returns the pages of the monitor.
    pub fn monitor_pages(&self) -> PageRange
        ensures value { result ≡ record {
          first = self.now.monitor.0 / 4096;
          count =
              self.now.monitor.1 / 4096;
        } }
        ensures inside { result.first + result.count ≤ 2 ^ 44 }
    {
        PageRange::of_bytes(self.monitor.0, self.monitor.1)
    }

    /// Returns whether all of the pages are memory.
    pub fn has_memory(&self, pages: PageRange) -> bool
        requires { pages.first + pages.count < 2 ^ 64 }
        ensures { IsTrue result ↔ AreAmong self.now.ram pages.first pages.count }
    {
        are_among(self.ram.as_slice(), pages.first, pages.count)
    }
}
