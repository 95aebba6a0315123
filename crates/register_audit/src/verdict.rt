//! Compares registers with a map.

ghost use Rattle.std.specs.Prelude.{◌≡◌, ℕ, ◌≤◌, IfOk};
ghost use Rattle.permission_map.specs.Runs.{view_of_runs};
ghost use Rattle.register_audit.specs.Registers.{count_on, one_on};
ghost use Rattle.register_audit.specs.Verdicts.{IsVerdict};

use crate::finding::{Finding, compare};
use crate::modes::given_by;
use map_table::Stretch;
use permission_map::{Memory, PermissionMap};
use pmp_match::{Mode, Registers, ReservedAt, extents_of};
use std::alloc::Global;

/// The result of comparing registers with a map.
#[derive(Clone, Copy)]
pub enum Verdict {
    /// They mean it, with this number of entries.
    Means {
        /// The number of entries that are not OFF.
        count: usize,
    },
    /// The first stretch on which they give another permission than the map.
    Differs(Stretch),
    /// They give each byte the map's permission, but cut an access that the map lets through.
    Cuts {
        /// The number of the first entry that cuts one.
        entry: usize,
        /// The lowest byte of the lowest eight that it cuts.
        at: u64,
    },
    /// The first entry with a reserved value, because of which they mean nothing.
    NoMeaning(ReservedAt),
}

/// Returns 0 for an entry that is OFF, otherwise 1.
fn one_on(cfg: u8) -> usize
    ensures value { result ≡ one_on cfg }
    ensures most { result ≤ 1 }
{
    if cfg / 8 % 4 == 0 { 0 } else { 1 }
}

/// Counts the entries that are not OFF.
pub fn count_on(registers: &Registers) -> usize
    ensures { result ≡ count_on registers.now.cfgs }
{
    let mut count = 0;
    for cfg in &registers.cfgs {
        count += one_on(*cfg);
    }
    count
}

/// Compares registers with a map, for a mode. The only error is a failed allocation.
pub fn verdict_of(
    alloc: Global,
    mode: Mode,
    map: &PermissionMap,
    registers: &Registers,
) -> Result<Verdict, Memory>
    ensures { IfOk result (IsVerdict mode (view_of_runs map.now) registers.now) }
{
    let extents = match extents_of(registers) {
        Ok(extents) => extents,
        Err(found) => return Ok(Verdict::NoMeaning(found)),
    };
    let given = given_by(alloc, mode, registers, &extents)?;
    match compare(alloc, map, given.as_slice())? {
        Finding::Means => Ok(Verdict::Means {
            count: count_on(registers),
        }),
        Finding::Differs(stretch) => Ok(Verdict::Differs(stretch)),
        Finding::Cuts { entry, at } => Ok(Verdict::Cuts { entry, at }),
    }
}
