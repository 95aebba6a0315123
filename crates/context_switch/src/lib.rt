//! Switches worlds on a hart: the registers, the world and the PMP entries change together.
//!
//! A [`Hart`] runs a world, the host or an enclave, with its registers and its bank of entries loaded. [`Contexts`]
//! stores the registers of the suspended worlds: one set for the host of each of four harts, and one for each enclave,
//! which may resume on any hart. Nothing here allocates.
//!
//! Contract for the layer above: [`switch`] saves the hart's registers as those of the current world, loads those of
//! the new world, and changes no other set. The hart then runs the new world, with the bank that the entries make and
//! the limit that it had. The hart keeps its number.
//!
//! ```
//! let mut hart = Hart::new(0, host_entries, Limit::Sixteen);
//! let mut contexts = Contexts::new();
//! contexts.set(0, World::Enclave(1), first_registers);
//! switch(&mut hart, &mut contexts, World::Enclave(1), enclave_entries);
//! // .. the enclave runs, until it stops:
//! switch(&mut hart, &mut contexts, World::Host, host_entries);
//! ```
#![tactic(auto)]

mod contexts;
mod hart;
mod world_switch;

pub use contexts::Contexts;
pub use hart::Hart;
pub use sbi_decode::World;
pub use world_switch::switch;
