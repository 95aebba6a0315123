//! Replaces the board's tree with the host's.

ghost use Rattle.std.specs.Prelude.{◌≡◌, ◌<◌, ◌++◌, IfErr, IfOk, OnErr, OnOk, List, ℕ, drop, length};
ghost use Rattle.host_tree.specs.Platforms.{portion_in, reserved_in};
ghost use Rattle.host_tree.specs.HostTrees.{IsHosts, LacksRoom, LeavesFree};
ghost use Rattle.host_tree.specs.Refusals.{IsHostTreeFault, IsPlaceFault};

use crate::fault::{HostTreeFault, MakeFault};
use crate::host::host_tree;
use crate::platform::PlatformWords;
use crate::reserved::{Purpose, Reserved};
use crate::share::Share;
use crate::write_fault::WriteFault;
use device_tree::Extent;
use std::alloc::Global;

/// The free bytes after the tree for whoever extends it, if there is room for them.
const FREE: u32 = 4096;

/// The reason why a board's tree is unchanged.
#[derive(Clone, Copy, Debug, PartialEq, Eq)]
pub enum PlaceFault {
    /// The host's tree cannot be made.
    NoTree(HostTreeFault),
    /// The tree is longer than its place.
    NoRoom,
}

/// Lists the reserved ranges: the monitor's, and the pool of enclaves if it has a size.
fn reserved_in(
    alloc: Global,
    platform: &PlatformWords,
    pool: Extent,
) -> Result<Vec<Reserved>, MakeFault>
    ensures ok { IfOk result (λ list. list.items ≡ reserved_in platform.now pool) }
    ensures refused { IfErr result (λ fault. fault ≡ MakeFault.NotWritten WriteFault.Memory) }
{
    let mut list = Vec::new(alloc);
    let monitor = Reserved {
        purpose: Purpose::Monitor,
        extent: Extent {
            base: platform.monitor_base,
            size: platform.monitor_size,
        },
    };
    let Ok(()) = list.push(monitor) else {
        return Err(MakeFault::NotWritten(WriteFault::Memory));
    };
    if pool.size == 0 {
        return Ok(list);
    }
    let Ok(()) = list.push(Reserved {
        purpose: Purpose::Pool,
        extent: pool,
    }) else {
        return Err(MakeFault::NotWritten(WriteFault::Memory));
    };
    Ok(list)
}

/// Copies `bytes` to the beginning of `place` if they fit.
fn put_front(place: &mut [u8], bytes: &[u8]) -> Result<(), PlaceFault>
    ensures done { OnOk result (place.new ≡ bytes.now ++ drop (length bytes.now) place.old) }
    ensures kept { OnErr result (place.new ≡ place.old) }
    ensures refused { IfErr result (λ fault. (fault ≡ PlaceFault.NoRoom)
        × (length place.old < length bytes.now)) }
{
    if bytes.len() > place.len() {
        return Err(PlaceFault::NoRoom);
    }
    place[..bytes.len()].copy_from_slice(bytes);
    Ok(())
}

/// Builds the host's tree, with free bytes if there is room for them.
fn tree_for(
    alloc: Global,
    platform: &PlatformWords,
    pool: Extent,
    place: &[u8],
) -> Result<Vec<u8>, HostTreeFault>
    ensures ok { IfOk result (λ out. IsHosts (portion_in platform.now)
        (reserved_in platform.now pool) place.now out.items) }
    ensures room { IfOk result (λ out. length place.now < length out.items → LacksRoom
        (portion_in platform.now) (reserved_in platform.now pool) place.now 0) }
    ensures free { IfOk result (λ out. LeavesFree (portion_in platform.now)
        (reserved_in platform.now pool) place.now out.items) }
    ensures refused { IfErr result
        (IsHostTreeFault (reserved_in platform.now pool) place.now) }
{
    let ranges = match platform.ranges(alloc) {
        Ok(ranges) => ranges,
        Err(fault) => return Err(HostTreeFault::NotMade(fault)),
    };
    let share = Share {
        harts: platform.harts,
        ranges: ranges.as_slice(),
    };
    let reserved = match reserved_in(alloc, platform, pool) {
        Ok(reserved) => reserved,
        Err(fault) => return Err(HostTreeFault::NotMade(fault)),
    };
    let tree = host_tree(alloc, &share, place, reserved.as_slice(), FREE)?;
    if tree.len() <= place.len() {
        return Ok(tree);
    }
    let shorter = host_tree(alloc, &share, place, reserved.as_slice(), 0)?;
    Ok(shorter)
}

/// Overwrites the board's tree, which `place` begins with, with the host's. The pool is reserved too if it has a size.
/// The bytes after the tree do not change.
///
/// On failure, because the host's tree cannot be made or does not fit, `place` is unchanged. Allocations can fail.
pub fn put_host_tree(
    alloc: Global,
    platform: &PlatformWords,
    pool: Extent,
    place: &mut [u8],
) -> Result<(), PlaceFault>
    ensures done { OnOk result ((out : List ℕ)
        × (place.new ≡ out ++ drop (length out) place.old)
        × IsHosts (portion_in platform.now) (reserved_in platform.now pool) place.old out
        × LeavesFree (portion_in platform.now) (reserved_in platform.now pool) place.old out) }
    ensures kept { OnErr result (place.new ≡ place.old) }
    ensures refused { IfErr result (IsPlaceFault platform.now pool place.old) }
{
    match tree_for(alloc, platform, pool, place) {
        Ok(tree) => put_front(place, tree.as_slice()),
        Err(fault) => Err(PlaceFault::NoTree(fault)),
    }
}
