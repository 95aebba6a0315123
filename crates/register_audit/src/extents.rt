//! An access by its bytes.

ghost use Rattle.std.specs.Prelude.{◌^◌, ◌<◌, ◌↔◌, IsTrue};
ghost use Rattle.pmp_match.specs.RegisterDecision.{ContainsAll, IsWords, Meets};

use pmp_match::{Access, Extent};

/// Returns whether the extent contains some byte of the access.
pub(crate) fn meets(extent: &Extent, access: &Access) -> bool
    requires words { IsWords extent.now }
    requires inside { access.now.address < 2 ^ 56 }
    ensures { IsTrue result ↔ Meets extent.now access.now }
{
    extent.base < access.address + u64::from(access.size) && access.address < extent.end
}

/// Returns whether the extent contains each byte of the access.
pub(crate) fn contains(extent: &Extent, access: &Access) -> bool
    requires { access.now.address < 2 ^ 56 }
    ensures { IsTrue result ↔ ContainsAll extent.now access.now }
{
    extent.base <= access.address && access.address + u64::from(access.size) <= extent.end
}
