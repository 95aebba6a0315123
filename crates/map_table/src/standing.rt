//! The permission of a map from a page on.

ghost use Rattle.std.specs.Prelude.{◌≡◌, ◌≢◌, ℕ, ◌+◌, ◌^◌, ◌<◌, ◌≤◌};
ghost use Rattle.pmp_encoding.specs.declared.perm.Perm.TheVariants.{NoAccess};
ghost use Rattle.permission_map.specs.Runs.{view_of_runs};

use permission_map::PermissionMap;
use pmp_encoding::{Perm, SPACE_PAGES};

/// The permission of each page from some page to before `end`.
#[derive(Clone, Copy)]
pub(crate) struct Standing {
    pub(crate) end: u64,
    pub(crate) wanted: Perm,
}

/// Returns the permission of the map at a page, and how far it stays the same.
pub(crate) fn standing_from(map: &PermissionMap, page: u64) -> Standing
    requires { page < 2 ^ 44 }
    ensures some { page < result.end }
    ensures inside { result.end ≤ 2 ^ 44 }
    ensures wanted { (q : ℕ) → page ≤ q → q < result.end
        → view_of_runs map.now q ≡ result.wanted }
    ensures changes { result.end < 2 ^ 44 → view_of_runs map.now result.end ≢ result.wanted }
{
    let Some(run) = map.next_run(page) else {
        return Standing {
            end: SPACE_PAGES,
            wanted: Perm::NoAccess,
        };
    };
    if page < run.first {
        return Standing {
            end: run.first,
            wanted: Perm::NoAccess,
        };
    }
    Standing {
        end: run.first + run.count,
        wanted: run.perm,
    }
}
