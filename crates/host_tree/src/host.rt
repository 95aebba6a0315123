//! Writes the tree of the host.

ghost use Rattle.std.specs.Prelude.{◌≡◌, ◌≤◌, ◌+◌, IfErr, IfOk, OnOk, [], ℕ, length};
ghost use Rattle.device_tree.specs.Pieces.{parts_of};
ghost use Rattle.device_tree.specs.Nodes.{Tree, parts_of_tree};
ghost use Rattle.device_tree.specs.Trees.{SpellsTree};
ghost use Rattle.device_tree.specs.Words.{word_at};
ghost use Rattle.host_tree.specs.Written.{Adds, HasFree, plain_size};
ghost use Rattle.host_tree.specs.HostTrees.{IsHostTree, IsHosts, Needs, portion_of};
ghost use Rattle.host_tree.specs.Refusals.{IsHostTreeFault, IsMakeFault};

use crate::fault::{HostTreeFault, MakeFault};
use crate::properties::put_properties;
use crate::put::{put_begin, put_end};
use crate::reserved::Reserved;
use crate::root::put_children;
use crate::share::Share;
use crate::whole::Ends;
use crate::writer::TreeWriter;
use byteorder::{BigEndian, ByteOrder};
use device_tree::{BoardReason, DeviceTree, PlacedPiece, cells_of, head_of, read_tree};
use std::alloc::Global;

/// Writes the host's tree for a board whose tree has these pieces.
fn put_tree<'a>(
    alloc: Global,
    share: &Share<'_>,
    pieces: &'a [PlacedPiece<'a>],
    ranges: &[Reserved],
    writer: &mut TreeWriter,
) -> Result<(), MakeFault>
    ensures put { OnOk result ((board : Tree) → parts_of pieces.now ≡ parts_of_tree board
        → (made : Tree) × IsHostTree (portion_of share.now) ranges.now board made
        × Adds writer.old writer.new (parts_of_tree made)) }
    ensures refused { IfErr result (λ fault. (board : Tree)
        → parts_of pieces.now ≡ parts_of_tree board → IsMakeFault board ranges.now [] fault) }
{
    let Some(root) = head_of(pieces) else {
        return Ok(());
    };
    let Some(cells) = cells_of(root.properties) else {
        return Err(MakeFault::NotUnderstood(BoardReason::BadCells));
    };
    put_begin(writer, root.name)?;
    put_properties(alloc, writer, root.properties, false, false)?;
    put_children(alloc, share, root.inner, &cells, ranges, writer)?;
    put_end(writer)?;
    Ok(())
}

/// Reads the number of the boot hart from a tree's header.
fn boot_hart_of(bytes: &[u8]) -> u32
    requires { 32 ≤ length bytes.now }
    ensures { result ≡ word_at bytes.now 28 }
{
    BigEndian::read_u32(&bytes[28..])
}

/// Serializes the host's tree for a board's tree that was read.
fn written<'a>(
    alloc: Global,
    share: &Share<'_>,
    read: &DeviceTree<'a>,
    ranges: &[Reserved],
    boot_hart: u32,
    free: u32,
) -> Result<Vec<u8>, MakeFault>
    ensures ok { IfOk result (λ out. (board : Tree)
        → parts_of read.now.pieces.items ≡ parts_of_tree board
        → (made : Tree) × IsHostTree (portion_of share.now) ranges.now board made
        × SpellsTree out.items made read.now.reservations.items
        × (length out.items ≤ plain_size made read.now.reservations.items + free)) }
    ensures free { IfOk result (λ out. HasFree out.items free) }
    ensures boot_hart { IfOk result (λ out. word_at out.items 28 ≡ boot_hart) }
    ensures refused { IfErr result (λ fault. (board : Tree)
        → parts_of read.now.pieces.items ≡ parts_of_tree board
        → IsMakeFault board ranges.now read.now.reservations.items fault) }
{
    let mut writer = TreeWriter::new(alloc);
    put_tree(alloc, share, read.pieces.as_slice(), ranges, &mut writer)?;
    let ends = Ends {
        reservations: read.reservations.as_slice(),
        boot_hart,
        free,
    };
    match writer.finish(alloc, &ends) {
        Ok(bytes) => Ok(bytes),
        Err(fault) => Err(MakeFault::NotWritten(fault)),
    }
}

/// Builds the host's device tree from the one that a board's bytes begin with. A node whose registers the host may not
/// use, and a hart that it may not use, get the status `disabled` (Devicetree Specification 0.4, section 2.3.4). The
/// extensions that the monitor closes are removed from each hart: names between `_` or zeros, without a version. Each
/// range becomes a child of `/reserved-memory` with `no-map` (section 3.5). Nothing else changes. `free` bytes are left
/// at the end.
///
/// Fails if the bytes begin with no tree, the cells or rows of a node cannot be read, a range does not fit into the
/// root's cells, which must be one or two, or the tree would reach 4 GiB. An allocation can fail for each piece and
/// each byte.
pub fn host_tree(
    alloc: Global,
    share: &Share<'_>,
    bytes: &[u8],
    ranges: &[Reserved],
    free: u32,
) -> Result<Vec<u8>, HostTreeFault>
    ensures ok { IfOk result (λ out.
        IsHosts (portion_of share.now) ranges.now bytes.now out.items) }
    ensures size { IfOk result (λ out. (size : ℕ)
        × Needs (portion_of share.now) ranges.now bytes.now size
        × (length out.items ≤ size + free)) }
    ensures free { IfOk result (λ out. HasFree out.items free) }
    ensures refused { IfErr result (IsHostTreeFault ranges.now bytes.now) }
{
    match read_tree(alloc, bytes) {
        Ok(read) => {
            let boot_hart = boot_hart_of(bytes);
            match written(alloc, share, &read, ranges, boot_hart, free) {
                Ok(out) => Ok(out),
                Err(fault) => Err(HostTreeFault::NotMade(fault)),
            }
        }
        Err(fault) => Err(HostTreeFault::NotRead(fault)),
    }
}
