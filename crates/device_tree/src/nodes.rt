//! The ranges of memory and devices that a tree describes.

ghost use Rattle.std.specs.Prelude.{◌≡◌, ◌≤◌, ◌++◌, List, IfErr, IfOk, OnOk, codes, length};
ghost use Rattle.device_tree.specs.Pieces.{Part, parts_of};
ghost use Rattle.device_tree.specs.Nodes.{BeginsNoNode, Nodes, Tree, parts_of_nodes, parts_of_tree};
ghost use Rattle.device_tree.specs.Windows.{path_of};
ghost use Rattle.device_tree.specs.Properties.{value_in};
ghost use Rattle.device_tree.specs.Meaning.{AreOwn, Range, Say, TreeSays, live_kind, said_of};
ghost use Rattle.device_tree.specs.BoardRefusals.{BeginAt, IsBoardFault, IsBoardFaultIn, IsNodeFault, SayNone};
ghost use Rattle.device_tree.specs.Places.{ArePlaced, Block};
ghost use Rattle.device_tree.specs.declared.pieces.PlacedPiece.{PlacedPiece};

use crate::PlacedPiece;
use crate::board_fault::{BoardFault, BoardReason};
use crate::cells::Cells;
use crate::head::{Head, after_end, head_of};
use crate::inner::inner_of;
use crate::kinds::Place;
use crate::node::note_own;
use crate::properties::value_of;
use crate::registers::{Found, cells_of, kind_of};
use crate::rows::RowFault;
use crate::ways::Way;
use std::alloc::Global;

/// Appends the ranges of the node itself.
fn note_head<'a>(
    alloc: Global,
    head: &Head<'a>,
    place: Place,
    bus: (&Cells, &Way),
    found: &mut Vec<Found<'a>>,
) -> Result<(), RowFault>
    ensures noted { OnOk result ((own : List Range)
        × AreOwn (live_kind place (parts_of head.now.properties.now))
        (value_in (codes "reg") (parts_of head.now.properties.now))
        bus.entry.0.now (path_of bus.entry.1.now) head.now.name.now own
        × (said_of found.new.items ≡ said_of found.old.items ++ own)) }
    ensures refused { IfErr result (λ fault. IsNodeFault place bus.entry.0.now
        (parts_of head.now.properties.now) (BoardReason.BadRows fault)) }
{
    let reg = value_of(head.properties, b"reg".as_slice());
    let node = (kind_of(place, head.properties), head.name, head.offset);
    note_own(alloc, reg, bus, node, found)
}

/// Appends the ranges of the nodes at the front, and returns the pieces after them.
fn note_nodes<'a>(
    alloc: Global,
    pieces: &'a [PlacedPiece<'a>],
    place: Place,
    bus: (&Cells, &Way),
    found: &mut Vec<Found<'a>>,
) -> Result<&'a [PlacedPiece<'a>], BoardFault>
    ensures len { IfOk result (λ rest. length rest.now ≤ length pieces.now) }
    ensures ok { IfOk result (λ rest. (nodes : Nodes) (behind : List Part)
        → parts_of pieces.now ≡ parts_of_nodes nodes ++ behind → BeginsNoNode behind
        → (parts_of rest.now ≡ behind)
        × (ranges : List Range)
        × Say place bus.entry.0.now (path_of bus.entry.1.now) nodes ranges
        × (said_of found.new.items ≡ said_of found.old.items ++ ranges)) }
    ensures behind { IfOk result (λ rest. (before : List PlacedPiece)
        × (pieces.now ≡ before ++ rest.now)) }
    ensures refused { IfErr result (λ fault. (nodes : Nodes) (behind : List Part)
        → parts_of pieces.now ≡ parts_of_nodes nodes ++ behind → BeginsNoNode behind
        → (from : List Part)
        × SayNone place bus.entry.0.now (path_of bus.entry.1.now) nodes from fault.reason
        × BeginAt pieces.now (from ++ behind) fault.offset) }
{
    let mut rest = pieces;
    'nodes: loop {
        let Some(head) = head_of(rest) else {
            break 'nodes;
        };
        let offset = head.offset;
        match note_head(alloc, &head, place, bus, found) {
            Ok(()) => {}
            Err(fault) => {
                return Err(BoardFault {
                    reason: BoardReason::BadRows(fault),
                    offset,
                });
            }
        }
        let inner = match inner_of(alloc, head.name, head.properties, place, bus) {
            Ok(inner) => inner,
            Err(reason) => return Err(BoardFault { reason, offset }),
        };
        let inner_bus = (&inner.cells, &inner.way);
        let behind = match note_nodes(alloc, head.inner, inner.place, inner_bus, found) {
            Ok(behind) => behind,
            Err(fault) => return Err(fault),
        };
        rest = after_end(behind);
    }
    Ok(rest)
}

/// Returns the ranges of memory and devices that the tree of these pieces describes, in its order.
///
/// Fails at the first node whose cells are not numbers from 0 to 4, whose `reg` is used and has invalid rows, or whose
/// `ranges` has invalid rows and addresses of at most two cells. Each range and each row allocates.
pub fn ranges_of<'a>(
    alloc: Global,
    pieces: &'a [PlacedPiece<'a>],
) -> Result<Vec<Found<'a>>, BoardFault>
    ensures ok { IfOk result (λ found. (tree : Tree) → parts_of pieces.now ≡ parts_of_tree tree
        → TreeSays tree (said_of found.items)) }
    ensures refused { IfErr result (λ fault. (tree : Tree)
        → parts_of pieces.now ≡ parts_of_tree tree → IsBoardFault pieces.now tree fault) }
    ensures place { IfErr result (λ fault. (block : Block) (tree : Tree)
        → parts_of pieces.now ≡ parts_of_tree tree → ArePlaced block pieces.now
        → IsBoardFaultIn block tree fault) }
{
    let mut found = Vec::new(alloc);
    let Some(root) = head_of(pieces) else {
        return Ok(found);
    };
    let Some(cells) = cells_of(root.properties) else {
        return Err(BoardFault {
            reason: BoardReason::BadCells,
            offset: root.offset,
        });
    };
    match note_nodes(
        alloc,
        root.inner,
        Place::BelowRoot,
        (&cells, &Way::Same),
        &mut found,
    ) {
        Ok(_) => Ok(found),
        Err(fault) => Err(fault),
    }
}

/// A tree describes at most one list of ranges.
pub fn one_list_law()
    ensures { (tree : Tree) (ranges others : List Range)
        → TreeSays tree ranges → TreeSays tree others → ranges ≡ others }
{}
