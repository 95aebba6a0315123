//! Checks a certificate of fewest entries against a map. It trusts neither who made the certificate nor how.
//!
//! A certificate contains a list of PMP entries and a table of lower bounds: a tree of blocks, each of one permission
//! or split into halves, with six numbers for each split block. If the table is a sound bound of the map, no list that
//! means the map has fewer entries than the root's number.
//!
//! For the layer above: [`check`] returns `Ok(n)` iff the bytes are a right certificate with n entries. The bytes then
//! contain n entries that mean the map, and no list of fewer entries, of any regions and in any order, means it. Each
//! [`CheckRefusal`] is returned iff the fault of that name is in the bytes, after parts that are right. It does not
//! allocate. [`check_source`] gives the same verdict on the bytes of a source. It stores the entries, nine bytes each,
//! and reads the nodes through a window of 16 KiB. The crate depends on `certificate_format`, but on no crate of trees
//! or plans.
//!
//! The entries may be in any order. If they form at most 45 chains, as a planner's list sorted by size and address
//! does, the sweep keeps a position in each chain, so that it reads each entry once. Otherwise it visits the entries by
//! ascending first page: a scan of all entries gathers those that begin next. One scan is enough for up to 131,072
//! entries; of more, each scan gathers at least 65,536, or the rest.
//!
//! ```rust
//! let mut map = PermissionMap::new(alloc);
//! map.set_range(0, 1 << 44, Perm::ReadWriteExecute)?;
//! let whole_space = b"PMPC\x01\x01\x00\x00\x00\x1F\xFF\xFF\xFF\xFF\xFF\xFF\x1F\x00\x00\x07";
//! assert_eq!(rt; check(&map, whole_space), Ok(1));
//! ```
#![tactic(auto)]

mod begun;
mod certificate;
mod chains;
mod entries;
mod entry_list;
mod keys;
mod nodes;
mod numbers;
mod parts;
mod piece;
mod refusal;
mod runs;
mod sizes;
mod source;
mod stop;
mod sweep;
mod window;

pub use certificate::check;
pub use refusal::CheckRefusal;
pub use source::check_source;
