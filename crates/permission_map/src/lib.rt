//! A view of the physical address space, stored as its maximal runs of pages with one permission.
//!
//! A page is 4096 bytes, and the space has `2 ^ 44` pages, as the 56-bit physical addresses of the RISC-V privileged
//! architecture allow. Contracts see a [`PermissionMap`] as the list of its [`Run`]s, and `specs/Runs.antt` defines the
//! view of such a list. The layers above use four facts:
//!
//! - `set_range` changes the permission of the pages of the range and of no other page, or returns a [`MapFault`] and
//!   changes nothing;
//! - `get`, `uniform` and `next_run` answer according to the view;
//! - the runs are maximal and in order, and the view determines them (`same_runs_law`);
//! - one range adds at most two runs (`runs_law`).
//!
//! A [`MapBuilder`] sets many ranges one after another, as a map file does, with the same contract for `set_range`, and
//! is converted into a map at the end. It stores the points at which the permission changes instead of runs.
//!
//! ```text
//! let mut map = PermissionMap::new(alloc);
//! map.set_range(0x80000, 0x8000, Perm::ReadWriteExecute)?;
//! map.set_range(0x80000, 0x200, Perm::NoAccess)?;
//! assert_eq!(map.get(0x80200), Perm::ReadWriteExecute);
//! assert_eq!(map.ranges().len(), 1);
//! ```
#![tactic(auto)]

mod builder;
mod changes;
mod fault;
mod laws;
mod map;
mod overwrite;
mod points;
mod runs;
mod search;

pub use builder::MapBuilder;
pub use fault::MapFault;
pub use laws::{runs_law, same_runs_law};
pub use map::{Memory, PermissionMap};
pub use runs::Run;
