//! The properties of a node that affect its children.

ghost use Rattle.std.specs.Prelude.{◌≡◌, ◌≤◌, Option, IfErr, IfOk, codes};
ghost use Rattle.device_tree.specs.Pieces.{parts_of};
ghost use Rattle.device_tree.specs.Windows.{Path, path_of};
ghost use Rattle.device_tree.specs.Properties.{value_in};
ghost use Rattle.device_tree.specs.Meaning.{AreCells, IsInnerWay, inner_place, path_or};
ghost use Rattle.device_tree.specs.BoardRefusals.{IsNodeFault};

use crate::PlacedPiece;
use crate::board_fault::BoardReason;
use crate::cells::Cells;
use crate::kinds::Place;
use crate::node::{inner_way, place_by};
use crate::properties::{is_okay, value_of};
use crate::registers::cells_of;
use crate::ways::Way;
use std::alloc::Global;

/// Facts that the children of a node inherit: cells, place, and the translation of their addresses to the root.
#[derive(Drop)]
pub struct Inner {
    pub cells: Cells,
    pub place: Place,
    pub way: Way,
}

/// Returns these facts for the children of a node with this name, given its own place and the cells and the translation
/// of its bus.
///
/// Fails if its cells are not numbers from 0 to 4, if the rows of its `ranges` are invalid, or if an allocation fails.
pub fn inner_of<'a>(
    alloc: Global,
    name: &[u8],
    properties: &'a [PlacedPiece<'a>],
    place: Place,
    bus: (&Cells, &Way),
) -> Result<Inner, BoardReason>
    ensures ok { IfOk result (λ inner. (found : Option Path)
        × AreCells (parts_of properties.now) inner.cells
        × IsInnerWay (value_in (codes "ranges") (parts_of properties.now)) inner.cells
        bus.entry.0.now.address (path_of bus.entry.1.now) found
        × (inner.place ≡ inner_place place name.now (parts_of properties.now) found)
        × (path_of inner.way ≡ path_or found)) }
    ensures refused { IfErr result
        (IsNodeFault place bus.entry.0.now (parts_of properties.now)) }
{
    let Some(cells) = cells_of(properties) else {
        return Err(BoardReason::BadCells);
    };
    let ranges = value_of(properties, b"ranges".as_slice());
    let (outer, way) = bus;
    let found = match inner_way(alloc, ranges, &cells, outer.address, way) {
        Ok(found) => found,
        Err(fault) => return Err(BoardReason::BadRows(fault)),
    };
    let is_reserved = name == b"reserved-memory".as_slice();
    let place = place_by(place, is_reserved, is_okay(properties), found.is_some());
    let way = found.unwrap_or(Way::Same);
    Ok(Inner { cells, place, way })
}
