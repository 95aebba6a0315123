//! The register pairs of RISC-V physical memory protection (PMP) on RV64, encoded and decoded without loss.
//!
//! An [`Entry`] is a permission on an aligned block of the physical address space, of 4 bytes (NA4) or of 2^3 to 2^56
//! bytes (NAPOT). A pair of a configuration byte and an address register means an entry, is OFF, or has a fault; TOR,
//! locked entries and reserved bits are faults here. `encode` returns the canonical pair of an entry. `decode` returns
//! the entry that a pair means, `None` if it is OFF, or its fault. A [`Bank`] holds eight configuration words and 64
//! address registers, and its entries are those of the pairs below its limit, in order. A [`PackedEntry`] is an entry
//! in eight bytes, for long lists. Nothing here allocates. (RISC-V Privileged Architecture, Physical Memory Protection)
//!
//! For the layers above: `decode` inverts `encode`, and `encode` inverts `decode` except that 54 trailing ones become
//! 53; a bank made from a list has that list.
//!
//! ```
//! let Some(region) = Region::new(0x8000_0000, 12) else { return; };
//! let page = Entry { region, perm: Perm::ReadWriteExecute };
//! let bank = Bank::of([page].as_slice(), Limit::Sixteen);
//! // bank.cfg0() is 0x1F and bank.addr(0) is 0x2000_01FF
//! ```
//!
//! An [`Xlen`] is the width of a hart's registers, RV32 or RV64. It determines the number of hexadecimal digits of a
//! register, the number of entries in a configuration word, the number of words and their names, and whether the hart's
//! address registers can express the regions of a list of entries.
//!
//! ```rust
//! let words = Xlen::Rv32.words(Limit::Sixteen); // 4, of four entries each
//! ```
//!
//! Pages of the physical address space, and views, which give each page a permission.
//!
//! A page is 4096 bytes, and the space has `2 ^ 44` pages, as the 56-bit physical addresses of the RISC-V privileged
//! architecture allow. A page's number is the address of its first byte divided by 4096. A block is `2 ^ log2` pages,
//! aligned to its size. Nothing here allocates.
//!
//! For the layers above: the constants of the space, the number of pages of a block, whether a range contains a page,
//! and whether two ranges are disjoint. `specs/Views.antt` defines views, a view with one range overwritten, equality
//! of views, and blocks of one permission.
//!
//! ```
//! let text = PageRange { first: 0x80000, count: 16 };
//! let data = PageRange::of_bytes(0x8001_0000, 2 * PAGE_SIZE);
//! // text.has(0x8000F), data.first is 0x80010, and text.is_apart_from(data)
//! ```
#![tactic(auto)]

mod bank;
mod csr;
mod extent;
mod fault;
mod laws;
mod limit;
mod packed_entry;
mod pages;
mod perm;
mod region;
mod register_pair;
mod xlen;

pub use bank::Bank;
pub use extent::Extent;
pub use fault::EncodingFault;
pub use laws::{bank_law, faultless_law, list_law, one_law, pair_law, round_trip_law};
pub use limit::Limit;
pub use packed_entry::PackedEntry;
pub use pages::{PAGE_SIZE, PageRange, SPACE_PAGES, pages_of};
pub use perm::Perm;
pub use region::{Entry, Region, SPACE_SIZE};
pub use register_pair::decode;
pub use xlen::Xlen;
