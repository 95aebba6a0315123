//! Two ranges of a platform file that have a page in common.

ghost use Rattle.std.specs.Prelude.{◌≡◌, ◌+◌, ◌<◌, ◌↔◌, ℕ, IfOk, IfSome, IsTrue, None, Some, drop, get_or, map, slice_get};
ghost use Rattle.std.specs.List.{All};
ghost use Rattle.platforms.specs.Ranges.{AreRangesApart, EachApart};
ghost use Rattle.input_files.specs.Overlaps.{IsOverlap, placed_ranges};
ghost use Rattle.input_files.specs.declared.breach.PlacedRange.{PlacedRange};

use crate::breach::{PlacedRange, TomlPath};
use pmp_encoding::{PageRange, Perm};
use std::alloc::{AllocError, Global};

/// Returns whether two ranges have no page in common.
fn are_apart(bounds: (u64, u64), other: (u64, u64)) -> bool
    ensures { IsTrue result ↔ AreRangesApart bounds other }
{
    let pages = PageRange::of_bytes(bounds.0, bounds.1);
    pages.is_apart_from(PageRange::of_bytes(other.0, other.1))
}

/// Returns the first of some ranges that has a page in common with this one.
fn first_meeting(bounds: (u64, u64), others: &[PlacedRange]) -> Option<PlacedRange>
    ensures some { IfSome result (λ other. (i : ℕ) × (slice_get others.now i ≡ Some other)
        × (AreRangesApart bounds other.bounds → ⊥)
        × ((j : ℕ) (d : PlacedRange) → j < i
        → AreRangesApart bounds (get_or others.now j d).bounds)) }
    ensures none { result ≡ None
        → All (λ other. AreRangesApart bounds other.bounds) others.now }
{
    for other in others {
        if !are_apart(bounds, other.bounds) {
            return Some(*other);
        }
    }
    None
}

/// Returns the first two of some ranges that have a page in common.
pub(crate) fn overlap_in(ranges: &[PlacedRange]) -> Option<(PlacedRange, PlacedRange)>
    ensures some { IfSome result (λ two. IsOverlap ranges.now two.0 two.1) }
    ensures none { result ≡ None → EachApart (map (λ range. range.bounds) ranges.now) }
{
    for (i, range) in ranges.iter().enumerate() {
        if let Some(other) = first_meeting(range.bounds, &ranges[i + 1..]) {
            return Some((other, *range));
        }
    }
    None
}

/// Returns the ranges of memory and of devices, each with its place.
pub(crate) fn placed_ranges(
    alloc: Global,
    ram: &[(u64, u64)],
    devices: &[(u64, u64, Perm)],
) -> Result<Vec<PlacedRange>, AllocError>
    ensures { IfOk result (λ all. all.items ≡ placed_ranges ram.now devices.now) }
{
    let mut all = Vec::new(alloc);
    for (i, range) in ram.iter().enumerate() {
        all.push(PlacedRange {
            place: TomlPath::Ram(i as u64 + 1),
            bounds: *range,
        })?;
    }
    for (i, device) in devices.iter().enumerate() {
        all.push(PlacedRange {
            place: TomlPath::Device(i as u64 + 1),
            bounds: (device.0, device.1),
        })?;
    }
    Ok(all)
}
