//! The access decisions of a list of PMP entries, the views that lists mean, and the proof that no shorter list can
//! mean a view.
//!
//! The first entry whose region contains a byte of an access decides it: the region must contain all of its bytes and,
//! outside machine mode, the entry's permission must include the kind of the access. (RISC-V Privileged Architecture,
//! Physical Memory Protection) A view is a permission for each page. A list means a view if supervisor and user mode
//! may make exactly the aligned accesses that the view allows. A view needs n entries if some list of n entries means
//! it and no shorter list does. Nothing here allocates.
//!
//! For the layers above: `judge` decides an access by the bank's list, `Segments::judge` does so faster for many
//! accesses by one bank, and no list that means a view has fewer entries than a sound bound of the view.
//!
//! ```
//! let bank = Bank::of(entries, Limit::Sixteen);
//! let Some(access) = Access::new(Mode::User, Kind::Load, 8, 0x8000_0000) else { return; };
//! let answer = judge(&bank, &access);
//! // Ok(()), or the cause, as Err(Cause::LoadFault)
//! ```
//!
//! This crate also gives the meaning of any PMP registers of RV64 or RV32: OFF, TOR, NA4 and NAPOT, locked or not, in
//! any order.
//!
//! Each entry matches an [`Extent`] of addresses. It is empty if the entry is OFF; with TOR it goes from the previous
//! entry's address register up to but excluding its own; with NA4 and NAPOT it is an aligned block. [`extents_of`]
//! returns the extent of each of the 64 entries, or the first entry that has a reserved value. Without Smepmp the lock
//! bit L does not affect supervisor and user mode. A hart of RV64 keeps bits 53:0 of an address register, and the other
//! bits are ignored; a hart of RV32 keeps all 32 bits and has only addresses below 2^34. On a hart with sixteen entries
//! the others are zero. Nothing here allocates. (RISC-V Privileged Architecture, Physical Memory Protection)
//!
//! `mseccfg` of Smepmp changes the meaning of the bits L, R, W and X of an entry ([`Security`]). The extents are those
//! of supervisor and user mode. [`machine_perm`] returns the permission that an entry gives machine mode, and
//! [`machine_default`] that of machine mode for addresses that no entry matches. (RISC-V Privileged Architecture,
//! Smepmp)
//!
//! For the layers above: the accesses of supervisor and user mode that a list of extents allows, the views that it
//! means (`specs/Decision.antt`), and the law that a list of NA4 and NAPOT entries allows the same accesses as its
//! extents ([`instance_law`]).
//!
//! ```
//! let extents = extents_of(&registers)?;
//! // extents[3] has the addresses that entry 3 matches, and its permission
//! ```
#![tactic(auto)]

mod access;
mod cause;
mod deciders;
mod extents;
mod judgement;
mod laws;
mod register_laws;
mod registers;
mod reserved;
mod segments;
mod smepmp;

pub use access::{Access, Kind, Mode};
pub use cause::Cause;
pub use deciders::{Decider, Deciders};
pub use extents::{extent_of, extents_of};
pub use judgement::{access_fault, holds, is_aligned, is_machine, judge, misaligned, touches};
pub use laws::{byte_law, decision_law, judgement_law, least_law, needs_law, page_law};
pub use pmp_encoding::Extent;
pub use register_laws::{extents_law, instance_law, registers_byte_law};
pub use registers::Registers;
pub use reserved::{Reserved, ReservedAt};
pub use segments::Segments;
pub use smepmp::{Security, machine_default, machine_perm};
