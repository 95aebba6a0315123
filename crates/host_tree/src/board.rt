//! The harts and the memory of a board, read from its tree.

ghost use Rattle.std.specs.Prelude.{◌≡◌, ◌⊎◌, ◌++◌, IfErr, IfOk, OnOk, List, true, false};
ghost use Rattle.device_tree.specs.declared.reservations.Reservation.{Reservation};
ghost use Rattle.device_tree.specs.Pieces.{parts_of};
ghost use Rattle.device_tree.specs.Nodes.{Tree, parts_of_tree};
ghost use Rattle.device_tree.specs.Trees.{ReadsAs};
ghost use Rattle.device_tree.specs.declared.rows.Extent.{Extent};
ghost use Rattle.device_tree.specs.declared.registers.Found.{Found};
ghost use Rattle.device_tree.specs.Meaning.{Range, TreeSays, said_of};
ghost use Rattle.device_tree.specs.declared.board_fault.BoardReason.{BoardReason};
ghost use Rattle.device_tree.specs.BoardRefusals.{HasNoRanges};
ghost use Rattle.host_tree.specs.Boards.{extents_of, is_kind, one_extent};
ghost use Rattle.host_tree.specs.Refusals.{IsBoardOfFault};

use crate::fault::{HostTreeFault, MakeFault};
use crate::write_fault::WriteFault;
use device_tree::{Extent, Found, Kind, PlacedPiece, ranges_of, read_tree};
use std::alloc::Global;

/// The hart numbers of a board, each as the base of an extent of size 0, and its ranges of memory.
#[derive(Drop)]
pub struct Board {
    pub harts: Vec<Extent>,
    pub memory: Vec<Extent>,
}

/// Returns whether the kind is that of harts or, if `is_hart` is false, that of memory.
fn is_kind(kind: Kind, is_hart: bool) -> bool
    ensures { result ≡ is_kind kind is_hart }
{
    match kind {
        Kind::Hart => is_hart,
        Kind::Memory => !is_hart,
        _ => false,
    }
}

/// Appends the extent of `found` if it is of the wanted kind.
fn note(list: &mut Vec<Extent>, found: Found<'_>, is_hart: bool) -> Result<(), MakeFault>
    ensures noted { OnOk result (list.new.items ≡ list.old.items
        ++ one_extent is_hart found.entry.kind found.entry.extent) }
    ensures refused { IfErr result (λ fault. fault ≡ MakeFault.NotWritten WriteFault.Memory) }
{
    if !is_kind(found.kind, is_hart) {
        return Ok(());
    }
    let Ok(()) = list.push(found.extent) else {
        return Err(MakeFault::NotWritten(WriteFault::Memory));
    };
    Ok(())
}

/// Returns the extents of all ranges of the wanted kind.
fn extents_of(alloc: Global, found: &[Found<'_>], is_hart: bool) -> Result<Vec<Extent>, MakeFault>
    ensures ok { IfOk result (λ list. list.items ≡ extents_of is_hart (said_of found.now)) }
    ensures refused { IfErr result (λ fault. fault ≡ MakeFault.NotWritten WriteFault.Memory) }
{
    let mut list = Vec::new(alloc);
    for one in found {
        note(&mut list, *one, is_hart)?;
    }
    Ok(list)
}

/// Collects harts and memory from the pieces of a tree.
fn board_in<'a>(alloc: Global, pieces: &'a [PlacedPiece<'a>]) -> Result<Board, MakeFault>
    ensures ok { IfOk result (λ board. (tree : Tree) → parts_of pieces.now ≡ parts_of_tree tree
        → (ranges : List Range) × TreeSays tree ranges
        × (board.harts.items ≡ extents_of true ranges)
        × (board.memory.items ≡ extents_of false ranges)) }
    ensures refused { IfErr result (λ fault. (fault ≡ MakeFault.NotWritten WriteFault.Memory)
        ⊎ ((reason : BoardReason) × (fault ≡ MakeFault.NotUnderstood reason)
        × ((tree : Tree) → parts_of pieces.now ≡ parts_of_tree tree → HasNoRanges tree reason))) }
{
    let found = match ranges_of(alloc, pieces) {
        Ok(found) => found,
        Err(fault) => return Err(MakeFault::NotUnderstood(fault.reason)),
    };
    let harts = extents_of(alloc, found.as_slice(), true)?;
    let memory = extents_of(alloc, found.as_slice(), false)?;
    Ok(Board { harts, memory })
}

/// Reads the harts and the memory of the board whose tree `bytes` begin with, in the tree's order.
///
/// Fails if the bytes begin with no tree or if the cells or rows of a node cannot be read. An allocation can fail for
/// each piece.
pub fn board_of(alloc: Global, bytes: &[u8]) -> Result<Board, HostTreeFault>
    ensures ok { IfOk result (λ board. (tree : Tree) × (reservations : List Reservation)
        × ReadsAs bytes.now tree reservations × (ranges : List Range) × TreeSays tree ranges
        × (board.harts.items ≡ extents_of true ranges)
        × (board.memory.items ≡ extents_of false ranges)) }
    ensures refused { IfErr result (IsBoardOfFault bytes.now) }
{
    match read_tree(alloc, bytes) {
        Ok(read) => match board_in(alloc, read.pieces.as_slice()) {
            Ok(board) => Ok(board),
            Err(fault) => Err(HostTreeFault::NotMade(fault)),
        },
        Err(fault) => Err(HostTreeFault::NotRead(fault)),
    }
}
