//! A model of a board that runs the firmware, and its laws: memory, harts that load the PMP entries of the monitor's
//! answers, and worlds that act arbitrarily between traps.
//!
//! The firmware's theorem, `firmware_law` of `trap_server`, is about bytes: frames of traps that are read, and answers
//! that are written. This crate gives these bytes their effects. `specs/Board` defines each event of a board, with the
//! duties of the code around the monitor (`firmware/DESIGN.md`): an access by a world, of any kind, address and value;
//! a computation; a write of control words; a trap that a hart serves without the loop; the stop and the start of a
//! hart; and a trap that the loop serves. A hart judges accesses only by the list of entries that it loaded last. The
//! board's memory is RAM outside the monitor's pages; the relevant contents of these pages, such as register sets, are
//! separate fields of the state. `specs/Held` defines the control registers, of which only some bits are writable.
//!
//! For the layer above: after boot and any list of events, on one to four harts, each access is allowed exactly as the
//! view of its world allows it, and no world except an enclave itself reads or changes its private pages or its
//! registers ([`board_law`]). A trap may take time while other harts run ([`time_law`]), and the pages of a new enclave
//! do not change until it is entered ([`pages_law`]). The code around the loop may rely on bounds of each answer's
//! words ([`answers_law`]). Each run of the model is a run of a board ([`model_law`]).
//!
//! The crate contains laws and no other code. It models only the PMP behaviour of a hart, as `pmp_match` defines it:
//! caches and DMA are not modelled.
#![tactic(auto)]

mod laws;

pub use laws::{answers_law, board_law, model_law, pages_law, time_law};
