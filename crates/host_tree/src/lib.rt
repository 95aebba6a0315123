//! Builds the host's device tree from the board's: nodes that the host may not use are disabled, and reserved ranges
//! are added.
#![tactic(auto)]

mod blocks;
mod board;
mod bytes;
mod close;
mod extensions;
mod fault;
mod header;
mod host;
mod in_place;
mod names;
mod own_node;
mod parent;
mod platform;
mod properties;
mod put;
mod reservations;
mod reserved;
mod root;
mod share;
#[cfg(test)]
mod tests;
mod there;
mod walk;
mod whole;
mod write_fault;
mod writer;
#[cfg(test)]
mod writer_tests;

pub use board::{Board, board_of};
pub use fault::{HostTreeFault, MakeFault};
pub use host::host_tree;
pub use in_place::{PlaceFault, put_host_tree};
pub use platform::{PlatformWords, find_platform};
pub use reserved::{Purpose, Reserved};
pub use share::Share;
pub use there::{harts_there, memory_there};
pub use whole::Ends;
pub use write_fault::WriteFault;
pub use writer::TreeWriter;
