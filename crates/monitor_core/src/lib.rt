//! The monitor on one to four harts, without memory, traces, register sets or loaded PMP entries.
//!
//! A [`Core`] is booted for a platform. It stores the table of enclaves, the world on each hart, and the marked harts.
//! [`Core::serve`] serves the call that the world on a hart made with its registers; it returns the answer and the
//! pages that the caller must zero before the hart continues, and reports changes of register sets ([`SetChanges`]).
//! The caller stores the sets, one for the host of each hart and one for each enclave. [`Core::interrupt`] does the
//! same for the timer. The caller also supplies the digest of a new enclave: from memory, whose pages are then
//! measured, or from an earlier measurement. The digest can also be taken after the answer: [`Answer::made`] returns
//! the parts of the enclave, and [`Core::give_digest`] writes the digest to the table. [`Core::entries`] returns the
//! PMP entries that a hart should have.
//!
//! For the layer above: each call is a step of the small machine in `specs/Steps`, which has no PMP entries and no
//! bytes, for any register sets. In every state the entries of a hart mean the view of its world, and no list of
//! entries of any regions in any order that means it is shorter. A hart is marked when another hart's call changes the
//! host's view: before it continues, it loads the host's entries, and [`Core::wake`] removes the mark.
//!
//! Only boot, and a creation or a destruction that passes its other checks, allocate memory.
//!
//! ```text
//! let mut core = Core::boot(alloc, platform)?;
//! let mut changes = SetChanges::none();
//! let served = core.serve(hart, &registers, &digests, &mut changes);
//! put_changes(hart, &changes);
//! if served.load {
//!     load(core.entries(hart));
//! }
//! ```
#![tactic(auto)]

mod answer;
mod boot;
mod call_registers;
mod calls;
mod crossings;
mod current;
mod laws;
mod ownership;
mod parts;
mod refused;
mod set_changes;
mod steps;

pub use answer::{Answer, Served};
pub use enclave_table::{Table, World};
pub use laws::loading_law;
pub use measurement::{Create, Digests, MeasuresPages, Pages, TakenDigest};
pub use platforms::{BootFault, Platform};
pub use pmp_encoding::{Entry, PageRange};
pub use sbi_decode::Registers;
pub use set_changes::{ChangeKind, SetChange, SetChanges};
pub use steps::Core;
