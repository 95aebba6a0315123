//! Writes the certificate of a tree and its plan.
//!
//! For the layer above: the bytes that [`write`] returns encode the plan's entries and the tree with the plan's costs,
//! and nothing else; [`send_map`] sends the same bytes piece by piece and does not allocate. The bytes of a plan are a
//! certificate ([`certificate_law`]). The format and the cursor that reads it are in `certificate_format`, which this
//! crate re-exports.
//!
//! ```rust
//! let tree = build(alloc, &map)?;
//! let plan = plan(alloc, &tree)?;
//! let bytes = write(alloc, &tree, &plan, Limit::Sixteen)?;
//! ```
#![tactic(auto)]

mod certificate;
mod laws;
mod pieces;
mod written_plan;

pub use certificate::{send_map, write, write_map};
pub use certificate_format::{Header, ReadFault, Reader, Tag, Version};
pub use laws::certificate_law;
