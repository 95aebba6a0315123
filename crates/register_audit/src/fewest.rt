//! The fewest entries for a map.

ghost use Rattle.std.specs.Prelude.{IfOk};
ghost use Rattle.permission_map.specs.Runs.{view_of_runs};
ghost use Rattle.entry_planner.specs.Reach.{HasNoneBehind};
ghost use Rattle.chain_planner.specs.Chained.{space_log2};
ghost use Rattle.register_audit.specs.Fewest.{NeedsWithChain};

use chain_planner::ChainPlan;
use permission_map::{Memory, PermissionMap};
use pmp_encoding::Xlen;
use std::alloc::Global;

/// The lengths of the shortest lists of entries that mean a map.
#[derive(Clone, Copy)]
pub(crate) struct Fewest {
    /// The fewest NA4 and NAPOT entries.
    pub(crate) blocks: u64,
    /// The fewest entries with a chain of TOR entries.
    pub(crate) chained: u64,
}

/// Returns the length of the shortest list for a map that has NA4 and NAPOT entries, then at most one OFF entry, which
/// counts, then one chain of TOR entries, for registers of this width. The map must give nothing beyond the bytes that
/// they reach. The only error is a failed allocation.
pub fn fewest_with_chain(alloc: Global, map: &PermissionMap, xlen: Xlen) -> Result<u64, Memory>
    ensures { HasNoneBehind (space_log2 xlen) (view_of_runs map.now)
        → IfOk result (NeedsWithChain xlen (view_of_runs map.now)) }
{
    let plan = ChainPlan::of(alloc, map, xlen, 0)?;
    Ok(plan.needed() as u64)
}
