//! A tree in bytes.

ghost use Rattle.std.specs.Prelude.{◌≡◌, ◌≢◌, ℕ, List, IfErr, IfOk};
ghost use Rattle.device_tree.specs.declared.reservations.Reservation.{Reservation};
ghost use Rattle.device_tree.specs.Pieces.{parts_of};
ghost use Rattle.device_tree.specs.Nodes.{AreWithin, Tree, parts_of_tree};
ghost use Rattle.device_tree.specs.Trees.{ReadsAs, SpellsTree, front_of};
ghost use Rattle.device_tree.specs.Places.{ArePlaced, block_of};
ghost use Rattle.device_tree.specs.Refusals.{IsTreeFault};

use crate::fault::{TreeFault, TreeReason};
use crate::header::{
    check_header, front_of, reservations_of, strings_of, structure_of, structure_offset,
};
use crate::nesting::check_tree;
use crate::pieces::{PlacedPiece, pieces_in};
use crate::reservations::{Reservation, reservations_in};
use std::alloc::Global;

/// A flattened device tree: its memory reservations, and the pieces of its structure block. Names and values are
/// borrowed from the bytes.
#[derive(Drop)]
pub struct DeviceTree<'a> {
    pub reservations: Vec<Reservation>,
    pub pieces: Vec<PlacedPiece<'a>>,
}

/// Reads a tree that occupies all of the bytes.
fn read_whole<'a>(alloc: Global, bytes: &'a [u8]) -> Result<DeviceTree<'a>, TreeFault>
    ensures ok { IfOk result (λ read. (tree : Tree)
        × SpellsTree bytes.now tree read.reservations.items
        × AreWithin 63 tree.children
        × (parts_of read.pieces.items ≡ parts_of_tree tree)) }
    ensures refused { IfErr result (λ fault. fault.reason ≢ TreeReason.Memory
        → (tree : Tree) (reservations : List Reservation)
        → SpellsTree bytes.now tree reservations → AreWithin 63 tree.children → ⊥) }
    ensures places { IfOk result (λ read. ArePlaced (block_of bytes.now) read.pieces.items) }
    ensures reason { IfErr result (λ fault. fault.reason ≢ TreeReason.Memory
        → IsTreeFault bytes.now fault) }
{
    match check_header(bytes) {
        Ok(()) => {}
        Err(fault) => return Err(fault),
    }
    let reserved = reservations_of(bytes);
    let reservations = match reservations_in(alloc, reserved, bytes.len() - reserved.len()) {
        Ok(reservations) => reservations,
        Err(fault) => return Err(fault),
    };
    let block = structure_of(bytes);
    let start = structure_offset(bytes);
    let pieces = match pieces_in(alloc, strings_of(bytes), block, start) {
        Ok(pieces) => pieces,
        Err(fault) => return Err(fault),
    };
    match check_tree(pieces.as_slice(), start + block.len() - 4) {
        Ok(()) => Ok(DeviceTree {
            reservations,
            pieces,
        }),
        Err(fault) => Err(fault),
    }
}

/// Reads the tree at the front of the bytes: version 17 of the format, with at most 64 levels of nodes. Ignores bytes
/// after the header's total size, which QEMU writes.
///
/// Fails with the first fault. Each reservation and each piece allocates.
pub fn read_tree<'a>(alloc: Global, bytes: &'a [u8]) -> Result<DeviceTree<'a>, TreeFault>
    ensures ok { IfOk result (λ read. (tree : Tree)
        × ReadsAs bytes.now tree read.reservations.items
        × (parts_of read.pieces.items ≡ parts_of_tree tree)) }
    ensures refused { IfErr result (λ fault. fault.reason ≢ TreeReason.Memory
        → (tree : Tree) (reservations : List Reservation)
        → ReadsAs bytes.now tree reservations → ⊥) }
    ensures places { IfOk result (λ read.
        ArePlaced (block_of (front_of bytes.now)) read.pieces.items) }
    ensures reason { IfErr result (λ fault. fault.reason ≢ TreeReason.Memory
        → IsTreeFault (front_of bytes.now) fault) }
{
    match front_of(bytes) {
        Some(front) => match read_whole(alloc, front) {
            Ok(read) => Ok(read),
            Err(fault) => Err(fault),
        },
        None => Err(TreeFault {
            reason: TreeReason::ShortHeader,
            offset: 0,
        }),
    }
}

/// Bytes spell at most one tree and one list of reservations.
pub fn one_tree_law()
    ensures { (bytes : List ℕ) (tree other : Tree) (reservations others : List Reservation)
        → SpellsTree bytes tree reservations → SpellsTree bytes other others
        → (tree ≡ other) × (reservations ≡ others) }
{}
