//! The fewest NA4 and NAPOT entries before one chain of TOR entries that mean a map.
//!
//! A chained list consists of NA4 and NAPOT entries in any order, then at most one OFF entry, then TOR entries by rising address,
//! each of which begins at the address of the entry before it. (RISC-V Privileged Architecture, Physical Memory Protection:
//! address matching) [`ChainPlan::of`] returns such a list that lets supervisor and user accesses do just what a map lets them do.
//! No chained list that does so is shorter; the OFF entry counts.
//!
//! The costs of a block depend on the permissions that the chain has at its two edges. A list without an entry of the whole block
//! splits into its halves, and each change of the chain's permission is in one half or at the middle. Below such an entry the chain
//! is hidden, and only whether its permission changes counts. A chain that begins under the last entry before it takes no OFF entry,
//! because that entry's address register contains an address of its own block.
//!
//! ```
//! let plan = ChainPlan::of(alloc, &map, Xlen::Rv64, 0)?;
//! // plan.blocks, then plan.off as an OFF entry, then plan.tops as TOR entries
//! ```
#![tactic(auto)]

mod chain_plan;
mod choices;
mod costed;
mod costs;
mod keys;
mod laws;
mod pairs;
mod placement;
mod six;
#[cfg(test)]
mod tests;
mod tops;
mod turns;

pub use chain_plan::ChainPlan;
pub use laws::{held_law, least_chained_law};
pub use tops::Top;
