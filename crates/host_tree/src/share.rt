//! The part of a board that its host may use.

ghost use Rattle.std.specs.Prelude.{◌≡◌, drop};
ghost use Rattle.device_tree.specs.Windows.{path_of};
ghost use Rattle.host_tree.specs.Shares.{is_around, is_hosts, is_within};

use device_tree::{Extent, Way};

/// The part of a board that its host may use: the harts below a number, and ranges of addresses of devices and memory.
#[derive(Clone, Copy)]
pub struct Share<'a> {
    pub harts: u64,
    pub ranges: &'a [Extent],
}

/// Returns whether all of an extent is in the range.
fn is_around(range: Extent, extent: Extent) -> bool
    ensures { result ≡ is_around range extent }
{
    range.base <= extent.base
        && extent.base - range.base < range.size
        && extent.size <= range.size - (extent.base - range.base)
}

/// Returns whether all of an extent is in one of the ranges.
fn is_within(ranges: &[Extent], extent: Extent) -> bool
    ensures { result ≡ is_within ranges.now extent }
{
    for range in ranges {
        if is_around(*range, extent) {
            return true;
        }
    }
    false
}

impl Share<'_> {
    /// Returns whether the host may use a row of registers, that is, whether the row's extent in the root's address
    /// space is in one of the host's ranges.
    pub(crate) fn has(&self, way: &Way, row: Extent) -> bool
        ensures { result ≡ is_hosts self.now.ranges.now (path_of way.now) row }
    {
        match way.at_root(row) {
            Some(extent) => is_within(self.ranges, extent),
            None => false,
        }
    }
}
