//! Decides what the firmware does at each trap, and answers the host's calls of the Supervisor Binary Interface (SBI).
//!
//! The firmware asks for a [`Decision`] at each trap and carries it out. The decision depends on the cause, the world
//! that trapped, the host's call, the states of the harts and the host's PMP entries. Nothing here allocates memory or
//! reads a register.
//!
//! For the layer above: no trap of an enclave reaches a function of SBI ([`enclave_law`]). An interrupt, a fence or a
//! start names only harts of the board. Each hart is in one of SBI's states, and [`decide`] changes it as chapter 9
//! specifies.
//!
//! The interface is version 1.0 of the RISC-V Supervisor Binary Interface Specification, to which chapter numbers
//! refer. Writing a byte to the console is a function of version 2.0 (chapter 12).
//!
//! ```text
//! let decision = decide(world, cause, &call, &caller, &bank, &mut harts);
//! ```
#![tactic(auto)]

mod action;
mod bank_words;
mod base;
mod bits;
mod caller;
mod decision;
mod dispatch;
mod error;
mod extension;
mod hart_lists;
mod harts;
mod host_call;
mod hsm;
mod laws;
mod outcome;
mod owner;
mod remote;
mod srst;
mod start_address;
mod trap_decision;

pub use action::{Action, action_of};
pub use bank_words::BankWords;
pub use base::{base_outcome, stops_outcome};
pub use caller::Caller;
pub use decision::Decision;
pub use dispatch::outcome_of;
pub use error::SbiError;
pub use extension::Extension;
pub use hart_lists::hart_list;
pub use harts::{HartState, Harts};
pub use host_call::HostCall;
pub use hsm::hsm_outcome;
pub use laws::enclave_law;
pub use outcome::Outcome;
pub use owner::{TrapOwner, owner_of, world_of};
pub use remote::{ipi_outcome, rfence_outcome};
pub use srst::srst_outcome;
pub use start_address::is_executable;
pub use trap_decision::decide;
