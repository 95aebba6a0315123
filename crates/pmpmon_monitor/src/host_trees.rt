//! Reads and prepares a board's device tree for firmware before the host begins.

ghost use Rattle.std.specs.Prelude.{◌≡◌, ◌↔◌, ◌⊎◌, ◌++◌, IsTrue, List, ℕ, drop, length, pos};
ghost use Rattle.host_tree.specs.HostTrees.{IsHosts, LeavesFree};
ghost use Rattle.host_tree.specs.Platforms.{IsFound, portion_in, reserved_in};
ghost use Rattle.host_tree.specs.Refusals.{IsBoardOfFault, IsHostTreeFault, IsPlaceFault};
ghost use Rattle.host_tree.specs.declared.fault.HostTreeFault.{HostTreeFault};
ghost use Rattle.pmpmon_monitor.specs.Codes.{IsCode, IsMemory, IsTreeCode, range};

use device_tree::{BoardReason, Extent, RowFault, TreeReason};
use host_tree::{
    HostTreeFault, MakeFault, PlaceFault, PlatformWords, WriteFault, find_platform, put_host_tree,
};
use std::alloc::Global;

/// The status codes.
const DONE: i64 = 0;

const NOT_READ: i64 = 1;

const NO_ROOM: i64 = 2;

const NO_MEMORY: i64 = 3;

/// Returns whether an allocation failed, or could not succeed because the tree would have 4 GiB.
fn is_memory(fault: HostTreeFault) -> bool
    ensures { IsTrue result ↔ IsMemory fault }
{
    match fault {
        HostTreeFault::NotRead(fault) => fault.reason == TreeReason::Memory,
        HostTreeFault::NotMade(MakeFault::NotUnderstood(reason)) => {
            reason == BoardReason::BadRows(RowFault::Memory)
        }
        HostTreeFault::NotMade(MakeFault::BadCells) => false,
        HostTreeFault::NotMade(MakeFault::NotWritten(fault)) => {
            fault == WriteFault::Memory || fault == WriteFault::TooLarge
        }
    }
}

/// Returns the status code of a fault.
fn code_of(fault: HostTreeFault) -> i64
    ensures memory { IsMemory fault → result ≡ pos 3 }
    ensures other { (IsMemory fault → ⊥) → result ≡ pos 1 }
    ensures code { IsTreeCode result }
{
    if is_memory(fault) {
        return NO_MEMORY;
    }
    NOT_READ
}

/// Clips the platform to the board whose tree `tree` begins with. Returns 0, or leaves the platform unchanged and
/// returns 1 if the tree cannot be read or 3 if an allocation fails.
#[unsafe(no_mangle)]
pub extern "C" fn pmpmon_find_platform(
    alloc: Global,
    tree: &[u8],
    platform: &mut PlatformWords,
) -> i64
    ensures found { result ≡ pos 0 → IsFound tree.now platform.old platform.new }
    ensures code { (result ≡ pos 0) ⊎ IsTreeCode result }
    ensures refused { IsTreeCode result → platform.new ≡ platform.old }
    // The reason why the tree cannot be read.
    ensures unread { result ≡ pos 1 → (fault : HostTreeFault) × (IsMemory fault → ⊥)
        × IsBoardOfFault tree.now fault }
{
    match find_platform(alloc, tree, platform) {
        Ok(()) => DONE,
        Err(fault) => code_of(fault),
    }
}

/// Overwrites the board's tree, which `tree` begins with, with the host's, in which the monitor's range is reserved,
/// and the pool of enclaves if it has a size; the bytes after the tree do not change. Returns 0, or leaves the bytes
/// unchanged and returns 1 if the tree cannot be read, 2 if the host's does not fit, or 3 if an allocation fails or the
/// host's tree would have 4 GiB.
#[unsafe(no_mangle)]
pub extern "C" fn pmpmon_put_host_tree(
    alloc: Global,
    platform: &PlatformWords,
    pool_base: u64,
    pool_size: u64,
    tree: &mut [u8],
) -> i64
    ensures code { (result ≡ pos 0) ⊎ IsCode result }
    ensures done { result ≡ pos 0 → (out : List ℕ)
        × (tree.new ≡ out ++ drop (length out) tree.old)
        × IsHosts (portion_in platform.now)
        (reserved_in platform.now (range pool_base pool_size)) tree.old out
        × LeavesFree (portion_in platform.now)
        (reserved_in platform.now (range pool_base pool_size)) tree.old out }
    ensures refused { IsCode result → tree.new ≡ tree.old }
    // The reason why the tree cannot be read, and the reason why the host's does not fit.
    ensures unread { result ≡ pos 1 → (fault : HostTreeFault) × (IsMemory fault → ⊥)
        × IsHostTreeFault (reserved_in platform.now (range pool_base pool_size)) tree.old fault }
    ensures room { result ≡ pos 2 → IsPlaceFault platform.now (range pool_base pool_size)
        tree.old PlaceFault.NoRoom }
{
    let pool = Extent {
        base: pool_base,
        size: pool_size,
    };
    match put_host_tree(alloc, platform, pool, tree) {
        Ok(()) => DONE,
        Err(PlaceFault::NoTree(fault)) => code_of(fault),
        Err(PlaceFault::NoRoom) => NO_ROOM,
    }
}
