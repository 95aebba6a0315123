//! The planner, the checker and the judge for programs in C and for firmware, declared in `include/pmpmon.h`.
//!
//! All parameters and results have 64 bits, because the lowered code is also compiled for RV64, whose calling
//! convention requires shorter numbers to be extended in a way that the lowered code does not guarantee.
//!
//! ```c
//! int64_t needed = pmpmon_plan(settings, 2, 16, &registers, &at_fault);
//! ```
#![tactic(auto)]

mod access;
mod check;
mod judge;
mod plan;
mod registers;
mod settings;

pub use access::AccessWords;
pub use check::pmpmon_check;
pub use judge::pmpmon_judge;
pub use plan::{pmpmon_needed, pmpmon_plan};
pub use registers::Registers;
pub use settings::{Setting, SettingFault};
