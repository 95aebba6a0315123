//! The map of the permissions that extents give the first byte of each page.

ghost use Rattle.std.specs.Prelude.{◌≡◌, ◌+◌, ◌*◌, ◌^◌, ◌<◌, ◌≤◌, All, Err, IfOk};
ghost use Rattle.permission_map.specs.Runs.{view_of_runs};
ghost use Rattle.pmp_match.specs.RegisterDecision.{IsWords};
ghost use Rattle.register_audit.specs.declared.fault.NoMapReason as NoMapReason;
ghost use Rattle.register_audit.specs.Pages.{HasFirstBytes, IsTooFine};

use crate::fault::NoMapReason;
use map_table::stretches;
use permission_map::{MapFault, PermissionMap};
use pmp_encoding::PAGE_SIZE;
use pmp_match::Extent;
use std::alloc::Global;

/// Returns the first page that does not begin before the byte.
fn page_from(byte: u64) -> u64
    requires { byte ≤ 2 ^ 56 }
    ensures from { byte ≤ 4096 * result }
    ensures first { 4096 * result < byte + 4096 }
{
    (byte + PAGE_SIZE - 1) / PAGE_SIZE
}

/// Returns the map in which each page has the permission that the extents give its first byte.
pub(crate) fn first_bytes(alloc: Global, extents: &[Extent]) -> Result<PermissionMap, NoMapReason>
    requires { All IsWords extents.now }
    ensures map { IfOk result (λ map. HasFirstBytes extents.now (view_of_runs map)) }
    ensures many { result ≡ Err NoMapReason.TooManyRanges → IsTooFine extents.now }
{
    let mut map = PermissionMap::new(alloc);
    let all = stretches(alloc, &map, extents)?;
    for stretch in &all {
        let from = page_from(stretch.first);
        let to = page_from(stretch.end);
        match map.set_range(from, to - from, stretch.given) {
            Ok(()) => {}
            Err(MapFault::TooManyRanges) => return Err(NoMapReason::TooManyRanges),
            Err(MapFault::PastEnd | MapFault::Memory) => return Err(NoMapReason::Memory),
        }
    }
    Ok(map)
}
