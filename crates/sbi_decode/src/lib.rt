//! The integer registers of an RV64 hart, and the monitor's call that they name.
//!
//! The calls follow the RISC-V Supervisor Binary Interface (section Binary Encoding): the extension id in a7, the
//! function id in a6, and the arguments from a0 on. Contract for the layer above: [`decode`] returns the call that a7,
//! a6 and a0 to a5 name, or [`NotSupported`] iff they name none. Nothing here allocates.
//!
//! ```
//! let mut registers = Registers::new();
//! registers.set(17, EXTENSION_ID);
//! registers.set(16, 5);
//! registers.set(10, 9);
//! match decode(&registers) { Ok(Call::Exit { value }) => .., .. }
//! ```
//!
//! A [`World`] is what runs on a hart: the host, or an enclave by its id.
//!
//! The table of enclaves and the switch between worlds do not depend on one another, and both use [`World`]. The
//! definitions beside it list the worlds, and the owner of a world's registers on a hart: each hart has a host of its
//! own, and an enclave is the same on every hart.
//!
//! ```
//! let world = World::Enclave(1);
//! ```
#![tactic(auto)]

mod calls;
mod named_call;
mod registers;
mod world;

pub use calls::{Call, EXTENSION_ID, NotSupported};
pub use named_call::decode;
pub use registers::Registers;
pub use world::World;
