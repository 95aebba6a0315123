//! The byte format of a certificate, and a cursor that reads it.
//!
//! A certificate contains a list of PMP entries and a tree of lower bounds: a block of the address space has one
//! permission, or six numbers and two halves. A reader can verify that the list means the view and that no shorter list
//! does. This crate does not depend on how certificates are made or checked.
//!
//! For the layer above: [`Reader`] returns the parts one by one, exactly as `specs/Spelling.antt` defines them, and
//! does not advance on a fault. It borrows its bytes, copies none of them and does not allocate.
//!
//! ```rust
//! let mut reader = Reader::new(bytes);
//! let header = reader.header()?;
//! for _ in 0..header.count {
//!     let entry = reader.entry()?;
//!     decode(entry.cfg(), entry.address());
//! }
//! ```
#![tactic(auto)]

mod costs;
mod fault;
mod header;
mod parts;
mod reader;

pub use costs::{BranchCosts, SixCosts};
pub use fault::ReadFault;
pub use header::{Header, Version};
pub use parts::EntryBytes;
pub use reader::{Reader, Tag};
