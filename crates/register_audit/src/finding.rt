//! Extents against a map.

ghost use Rattle.std.specs.Prelude.{◌≡◌, ◌≢◌, All, IfOk, MatchOption, false, true};
ghost use Rattle.permission_map.specs.Runs.{view_of_runs};
ghost use Rattle.pmp_match.specs.RegisterDecision.{IsWords};
ghost use Rattle.register_audit.specs.Findings.{IsFinding, IsFirstOdd, agrees};

use crate::cut_access::first_cut;
use map_table::{Stretch, stretches};
use permission_map::{Memory, PermissionMap};
use pmp_match::Extent;
use std::alloc::Global;

/// The result of comparing extents with a map.
#[derive(Clone, Copy)]
pub enum Finding {
    /// They mean the map.
    Means,
    /// The first stretch on which they give another permission than the map.
    Differs(Stretch),
    /// They give each byte the map's permission, but cut an access that the map lets through.
    Cuts {
        /// The number of the first entry that cuts one.
        entry: usize,
        /// The lowest byte of the lowest eight that it cuts.
        at: u64,
    },
}

pub(crate) fn is_odd(stretch: &Stretch) -> bool
    ensures odd { result ≡ true → stretch.now.wanted ≢ stretch.now.given }
    ensures same { result ≡ false → agrees stretch.now }
{
    stretch.wanted != stretch.given
}

/// Returns the first stretch on which the extents give another permission than the map.
fn first_odd(all: &[Stretch]) -> Option<Stretch>
    ensures { MatchOption result (All agrees all.now) (IsFirstOdd all.now) }
{
    for stretch in all {
        if is_odd(stretch) {
            return Some(*stretch);
        }
    }
    None
}

/// Compares extents with a map. The only error is a failed allocation.
pub fn compare(alloc: Global, map: &PermissionMap, extents: &[Extent]) -> Result<Finding, Memory>
    requires { All IsWords extents.now }
    ensures { IfOk result (IsFinding (view_of_runs map.now) extents.now) }
{
    let all = stretches(alloc, map, extents)?;
    if let Some(stretch) = first_odd(all.as_slice()) {
        return Ok(Finding::Differs(stretch));
    }
    if let Some(cut) = first_cut(map, extents) {
        return Ok(Finding::Cuts {
            entry: cut.entry,
            at: cut.at,
        });
    }
    Ok(Finding::Means)
}
