//! Ranges of a platform: whole pages inside the space, without pages in common.

ghost use Rattle.std.specs.Prelude.{◌≡◌, ◌+◌, ◌^◌, ◌<◌, ◌≤◌, ◌↔◌, ℕ, ◌++◌, IsTrue, IfSome, IfNone, true, false, map};
ghost use Rattle.std.specs.List.{All, list_any};
ghost use Rattle.platforms.specs.Ranges.{IsRange, AreRangesApart, EachApart, AreAmong, has_page, device_range};

use pmp_encoding::{PAGE_SIZE, PageRange, Perm, SPACE_SIZE};

/// Returns whether the range, a base and a size in bytes, consists of whole pages, at least one, below 2^56.
pub(crate) fn is_range(range: (u64, u64)) -> bool
    ensures { IsTrue result ↔ IsRange range }
{
    let (base, size) = range;
    base % PAGE_SIZE == 0
        && size % PAGE_SIZE == 0
        && size > 0
        && base <= SPACE_SIZE
        && size <= SPACE_SIZE - base
}

/// Returns whether all are such ranges.
pub(crate) fn all_ranges(ranges: &[(u64, u64)]) -> bool
    ensures { IsTrue result ↔ All IsRange ranges.now }
{
    ranges.iter().all(|range| is_range(*range))
}

/// Returns whether the range of each device is such a range.
pub(crate) fn devices_on_ranges(devices: &[(u64, u64, Perm)]) -> bool
    ensures { IsTrue result ↔ All (λ device. IsRange (device_range device)) devices.now }
{
    devices.iter().all(|device| is_range((device.0, device.1)))
}

/// Returns whether two ranges have no page in common.
fn are_apart(range: (u64, u64), other: (u64, u64)) -> bool
    ensures { IsTrue result ↔ AreRangesApart range other }
{
    let pages = PageRange::of_bytes(range.0, range.1);
    pages.is_apart_from(PageRange::of_bytes(other.0, other.1))
}

/// Returns whether a range has no page in common with any of the others.
fn is_clear(range: (u64, u64), others: &[(u64, u64)]) -> bool
    ensures { IsTrue result ↔ All (AreRangesApart range) others.now }
{
    others.iter().all(|other| are_apart(range, *other))
}

/// Returns whether a range has no page in common with any of the devices.
fn is_clear_of_devices(range: (u64, u64), devices: &[(u64, u64, Perm)]) -> bool
    ensures { IsTrue result ↔ All (λ device.
        AreRangesApart range (device_range device)) devices.now }
{
    devices
        .iter()
        .all(|device| are_apart(range, (device.0, device.1)))
}

/// Returns whether no two of the devices have a page in common.
fn devices_apart(devices: &[(u64, u64, Perm)]) -> bool
    ensures { IsTrue result ↔ EachApart (map device_range devices.now) }
{
    for (i, device) in devices.iter().enumerate() {
        if !is_clear_of_devices((device.0, device.1), &devices[i + 1..]) {
            return false;
        }
    }
    true
}

/// Returns whether no two of all the ranges and devices have a page in common.
pub(crate) fn each_apart(ranges: &[(u64, u64)], devices: &[(u64, u64, Perm)]) -> bool
    ensures { IsTrue result ↔ EachApart (ranges.now ++ map device_range devices.now) }
{
    for (i, range) in ranges.iter().enumerate() {
        if !is_clear(*range, &ranges[i + 1..]) || !is_clear_of_devices(*range, devices) {
            return false;
        }
    }
    devices_apart(devices)
}

/// Returns the end of the range that contains the page.
fn end_at(ranges: &[(u64, u64)], page: u64) -> Option<u64>
    ensures behind { IfSome result (λ end. page < end) }
    ensures covered { IfSome result (λ end.
        (q : ℕ) → page ≤ q → q < end → list_any (λ range. has_page range q) ranges.now ≡ true) }
    ensures none { IfNone result (list_any (λ range. has_page range page) ranges.now ≡ false) }
{
    for range in ranges {
        let pages = PageRange::of_bytes(range.0, range.1);
        if pages.has(page) {
            return Some(pages.first + pages.count);
        }
    }
    None
}

/// Returns whether each of the pages is in one of the ranges. The pages may span several adjacent ranges.
pub(crate) fn are_among(ranges: &[(u64, u64)], first: u64, count: u64) -> bool
    requires { first + count < 2 ^ 64 }
    ensures { IsTrue result ↔ AreAmong ranges.now first count }
{
    let end = first + count;
    let mut at = first;
    while at < end {
        let Some(next) = end_at(ranges, at) else {
            return false;
        };
        at = next;
    }
    true
}
