//! The entries that a deciding entry overrides, by the addresses that they match.

ghost use Rattle.std.specs.Prelude.{◌≡◌, ◌+◌, ◌<◌, drop, length, take};
ghost use Rattle.map_table.specs.Rows.{overridden_from};

use crate::{ExtentTree, Stretch};
use arrayvec::ArrayVec;

/// Returns the numbers of the first extents after number i that contain a byte of the stretch, at most three.
pub(crate) fn overridden(extents: &ExtentTree, i: usize, stretch: &Stretch) -> ArrayVec<usize, 3>
    requires { i < length extents.now }
    ensures { result.items ≡ take 3 (overridden_from (i + 1)
        (drop (i + 1) extents.now) stretch.now) }
{
    let count = extents.extents().len();
    let mut found = ArrayVec::new();
    let mut from = i + 1;
    while from < count && !found.is_full() {
        let Some(j) = extents.next_meeting(from, stretch.first, stretch.end) else {
            return found;
        };
        found.push(j);
        from = j + 1;
    }
    found
}
