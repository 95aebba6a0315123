//! All entries that a deciding entry overrides, by the addresses that they match.

ghost use Rattle.std.specs.Prelude.{◌≡◌, ◌+◌, ◌<◌, IfOk, drop, length};
ghost use Rattle.map_table.specs.Rows.{overridden_from};

use crate::{ExtentTree, Stretch};
use permission_map::Memory;
use std::alloc::Global;

/// Returns the numbers of the extents after number i that contain a byte of the stretch. The only error is a failed
/// allocation.
pub(crate) fn all_overridden(
    alloc: Global,
    extents: &ExtentTree,
    i: usize,
    stretch: &Stretch,
) -> Result<Vec<usize>, Memory>
    requires { i < length extents.now }
    ensures { IfOk result (λ found. found.items ≡ overridden_from (i + 1)
        (drop (i + 1) extents.now) stretch.now) }
{
    let count = extents.extents().len();
    let mut found = Vec::new(alloc);
    let mut from = i + 1;
    while from < count {
        let Some(j) = extents.next_meeting(from, stretch.first, stretch.end) else {
            return Ok(found);
        };
        found.push(j)?;
        from = j + 1;
    }
    Ok(found)
}
