//! A platform: the ranges of memory, the devices, the monitor's own range, the number of harts, and their number of PMP
//! entries.
//!
//! A [`Platform`] satisfies these rules: its ranges consist of whole pages, no two of them have a page in common, the
//! monitor lies in memory, and there are one to four harts. It does not allocate. It gives each page a permission, as a
//! map: everything in memory, the given permission on a device, and nothing on the monitor's pages and elsewhere.
//!
//! Contract for the layer above: [`Platform::new`] returns a platform iff the rules hold, and otherwise the applicable
//! fault of the lowest number. [`Platform::permissions`] and [`set_pages`] allocate.
//!
//! ```
//! let platform = Platform::new(monitor, &ram, &devices)?.with_entries(64)?;
//! let map = platform.permissions(alloc)?;
//! ```
#![tactic(auto)]

mod boot_fault;
mod permissions;
mod platform;
mod ranges;

pub use boot_fault::BootFault;
pub use permissions::set_pages;
pub use platform::{Platform, PlatformFault};
