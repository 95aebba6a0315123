//! The parts of a row of registers, each with its address at the root.

ghost use Rattle.std.specs.Prelude.{◌≡◌, ◌+◌, ◌<◌, ◌≤◌, ◌^◌, IfErr, IfOk};
ghost use Rattle.device_tree.specs.BoardRefusals.{IsRefusal};
ghost use Rattle.device_tree.specs.Windows.{AreParts, IsPart, at_root, bus_size, in_one_piece, is_same_address, moved, path_of, root_address};

use crate::rows::{Extent, RowFault};
use crate::ways::{RowPart, Way};
use std::alloc::Global;

/// Maximum number of steps to translate a row. Each step goes through one window of each bus.
const MOST_STEPS: u64 = 64;

/// Returns the number of bytes of an extent whose addresses have 64 bits.
fn bus_size(extent: Extent) -> u64
    ensures { result ≡ bus_size extent }
{
    if extent.base == 0 {
        return extent.size;
    }
    extent.size.min(u64::MAX - extent.base + 1)
}

/// Returns whether a part and the address `next` are consecutive at the root, or both have no address there.
fn continues(part: &RowPart, next: Option<u64>) -> bool
    ensures { result ≡ is_same_address next (moved part.now.size part.now.root) }
{
    match (part.root, next) {
        (None, None) => true,
        (Some(before), Some(next)) => next >= before && next - before == part.size,
        _ => false,
    }
}

/// Returns the part that begins at an address, with at most `most` bytes.
fn part_at(way: &Way, address: u64, most: u64) -> RowPart
    requires { 0 < most }
    ensures { IsPart (root_address (path_of way.now)) address most result }
{
    let step = way.step(address);
    RowPart {
        base: address,
        size: step.len.min(most),
        root: step.root,
    }
}

/// Splits a row into its parts.
///
/// Fails with `TooMany` after `MOST_STEPS` steps, and with `Memory` if an allocation fails.
pub(crate) fn parts_of(alloc: Global, way: &Way, row: Extent) -> Result<Vec<RowPart>, RowFault>
    ensures ok { IfOk result (λ parts.
        AreParts (root_address (path_of way.now)) row.base (bus_size row) parts.items) }
    ensures refused { IfErr result IsRefusal }
{
    let mut parts = Vec::new(alloc);
    let size = bus_size(row);
    if size == 0 {
        return Ok(parts);
    }
    let mut part = part_at(way, row.base, size);
    let mut left = size - part.size;
    let mut steps = 0;
    'parts: while left > 0 {
        if steps >= MOST_STEPS {
            return Err(RowFault::TooMany);
        }
        steps += 1;
        let next = part_at(way, part.base + part.size, left);
        left -= next.size;
        if continues(&part, next.root) {
            part.size += next.size;
        } else {
            let Ok(()) = parts.push(part) else {
                return Err(RowFault::Memory);
            };
            part = next;
        }
    }
    let Ok(()) = parts.push(part) else {
        return Err(RowFault::Memory);
    };
    Ok(parts)
}

/// Translates an extent of a bus to the root, if all of it is one piece there.
fn in_one_piece(way: &Way, extent: Extent) -> Option<Extent>
    ensures { result ≡ in_one_piece (root_address (path_of way.now)) extent }
{
    if bus_size(extent) < extent.size {
        return None;
    }
    let first = way.step(extent.base);
    let base = first.root?;
    let mut part = RowPart {
        base: extent.base,
        size: first.len.min(extent.size),
        root: first.root,
    };
    'piece: while part.size < extent.size {
        let next = part_at(way, part.base + part.size, extent.size - part.size);
        if !continues(&part, next.root) {
            return None;
        }
        part.size += next.size;
    }
    Some(Extent {
        base,
        size: extent.size,
    })
}

impl Way {
    /// Translates the extent to the root, if all of it is one piece there.
    pub fn at_root(&self, extent: Extent) -> Option<Extent>
        ensures { result ≡ at_root (path_of self.now) extent }
    {
        match self {
            Way::Same => Some(extent),
            Way::Bus(_) => in_one_piece(self, extent),
        }
    }
}
