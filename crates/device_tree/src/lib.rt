//! Reads flattened device trees, and finds the memory, the devices and the harts of a board in them.
//!
//! [`read_tree`] checks a tree and returns its pieces, or the reason for rejecting it with its offset. [`ranges_of`]
//! returns the memory, the reserved ranges and the devices of a board, each translated to addresses of the root, with
//! the name of its node.
#![tactic(auto)]

mod board_fault;
#[cfg(test)]
mod board_tests;
mod bytes;
mod cells;
mod fault;
mod head;
mod header;
mod inner;
mod kinds;
mod machine_devices;
mod nesting;
mod node;
mod nodes;
mod parts;
mod pieces;
mod properties;
mod registers;
mod reservations;
mod rows;
#[cfg(test)]
mod tests;
mod tree;
mod ways;
mod words;

pub use board_fault::{BoardFault, BoardReason};
pub use cells::Cells;
pub use fault::{TreeFault, TreeReason};
pub use head::{Head, after_end, head_of};
pub use inner::{Inner, inner_of};
pub use kinds::{Kind, Place};
pub use nodes::{one_list_law, ranges_of};
pub use pieces::{Piece, PlacedPiece};
pub use properties::value_of;
pub use registers::{Found, cells_of, is_hart, kind_of};
pub use reservations::Reservation;
pub use rows::{Extent, RowFault, rows_of};
pub use tree::{DeviceTree, one_tree_law, read_tree};
pub use ways::{RowPart, Way, Window};
