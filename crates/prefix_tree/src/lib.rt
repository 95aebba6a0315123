//! A view of the physical address space as a canonical tree of aligned blocks; versions share unchanged blocks.
//!
//! The root is the space of `2 ^ 44` pages of 4096 bytes. A [`Block`] has one permission or is split into two halves.
//! Only blocks with more than one permission are split, so each view has exactly one tree. Halves are held by `Rc`:
//! contracts see a tree as its shape (`PermTree` in `specs/Trees.antt`), which has no pointers. The layers above use
//! four facts:
//!
//! - [`build`] returns the canonical tree that means the map's view;
//! - [`Tree::with_range`] returns the canonical tree that means the old view with the range overwritten; it fails as
//!   `set_range` of a map does, and the old tree stays;
//! - [`Tree::root`] and [`Block::parts`] walk the shape, which is split at most 44 times on each path down;
//! - two canonical trees of one view are equal ([`canonical_law`]), and a tree means its own view ([`meaning_law`]).
//!
//! A tree is at most 44 blocks deep, which bounds every recursion over it, including the one that drops it.
//!
//! ```text
//! let tree = build(alloc, &map)?;
//! let next = tree.with_range(0x80000, 0x200, Perm::NoAccess)?;
//! match next.root().parts() {
//!     Parts::Leaf(perm) => ..,
//!     Parts::Halves(lower, upper) => ..,
//! }
//! ```
#![tactic(auto)]

mod blocks;
mod chains;
mod halving;
mod join;
mod laws;
mod map_blocks;
mod map_tree;
mod overwrite;
mod trees;

pub use blocks::{Block, Parts};
pub use chains::Chain;
pub use halving::Halving;
pub use laws::{canonical_law, meaning_law};
pub use map_blocks::MapBlock;
pub use trees::{Tree, build};
