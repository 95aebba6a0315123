//! The stretches on which the permissions of registers and a map differ.

ghost use Rattle.std.specs.Prelude.{◌≡◌, ◌≢◌, ◌++◌, ℕ, IfOk, List, false, true};
ghost use Rattle.permission_map.specs.Runs.{view_of_runs};
ghost use Rattle.pmp_encoding.specs.declared.extent.Extent.{Extent};
ghost use Rattle.pmp_match.specs.RegisterMatching.{AreExtents};
ghost use Rattle.map_table.specs.declared.stretch.Stretch.{Stretch};
ghost use Rattle.register_audit.specs.Differences.{AreDifferences, AreOdd};

use crate::finding::is_odd;
use crate::modes::given_by;
use map_table::{Stretch, stretches};
use permission_map::{Memory, PermissionMap};
use pmp_match::{Mode, Registers, extents_of};
use std::alloc::Global;

/// Returns the stretches on which a map and registers differ, in their order.
fn odd_among(alloc: Global, all: &[Stretch]) -> Result<Vec<Stretch>, Memory>
    ensures { IfOk result (λ odd. AreOdd all.now odd.items) }
{
    let mut odd = Vec::new(alloc);
    for stretch in all {
        if is_odd(stretch) {
            odd.push(*stretch)?;
        }
    }
    Ok(odd)
}

/// Returns each stretch on which registers without a reserved value give a mode another permission than the map. The
/// only error is a failed allocation.
pub(crate) fn differences_of(
    alloc: Global,
    mode: Mode,
    map: &PermissionMap,
    registers: &Registers,
) -> Result<Vec<Stretch>, Memory>
    requires { (extents : List Extent) × AreExtents registers.now extents }
    ensures { IfOk result (λ odd.
        AreDifferences mode (view_of_runs map.now) registers.now odd.items) }
{
    let Ok(extents) = extents_of(registers) else {
        unreachable!();
    };
    let given = given_by(alloc, mode, registers, &extents)?;
    let all = stretches(alloc, map, given.as_slice())?;
    let odd = odd_among(alloc, all.as_slice())?;
    Ok(odd)
}
