//! Serves the traps of a board's harts: reads each trap as a frame and writes the monitor's answer as a frame.
//!
//! The source delivers the platform and then the harts' traps one after another. For each trap, the sink receives an
//! answer that tells the hart how to go on: the status and value of the call, the world, the changes of register sets,
//! the pages to zero, the other harts that must load the host's entries, the entries of each world whose view changed,
//! and the control words of an enclave that is entered. `docs/formats/calls.md`, "Frames", specifies the layouts.
//!
//! Integer registers stay with the harts: one set for the host of each hart and one for each enclave. A trap contains
//! only the registers of a call, a0 to a7, and an answer describes the changes of sets. The proofs hold whatever the
//! sets contain.
//!
//! For the layer above: each trap served is one step of the monitor (`monitor_core`), and its answer is written before
//! the next trap is read. After the answer to a successful creation, the pages of the new enclave are read once, by
//! rising address, and measured as they arrive; nothing else is ever requested. An invalid frame ends the loop with a
//! frame of its own and changes nothing.
//!
//! ```text
//! let served = serve_traps(alloc, &mut source, &mut sink);
//! ```
//!
//! # Control registers, by the world that runs
//!
//! Besides the PMP entries, these registers decide what a world can do: whether its addresses are translated, how wide
//! its registers are, which handler takes its traps, and which interrupts reach it. A host writes them freely; an
//! enclave runs in user mode and cannot write any. A host's words stay with its hart, which keeps them while an enclave
//! runs there. An enclave's words are fixed by a table, [`HostWords::of_enclave`], and the answer contains them when a
//! host enters the enclave.
//!
//! For the layer above: a hart saves its host's words when an answer contains others, and restores them when the host
//! goes on after an enclave. Hence no world receives a word of another ([`control_words_law`]). Nothing here allocates
//! memory.
//!
//! ```
//! let given = trap.host.words_given(before, after);
//! ```
//!
//! # Frames between the harts of a board and the monitor
//!
//! A frame consists of little-endian 64-bit words. Its first word is a tag that determines the meaning of the others;
//! `docs/formats/calls.md`, "Frames", specifies the layouts. The loop reads the platform ([`read_platform`]), then the
//! traps of its harts ([`read_trap`]), and the pages that it requests ([`digest_of`]). It writes answers
//! ([`put_front`], [`put_list`], [`put_given`]), requests for pages, and the reason for its end ([`end_frame`]).
//!
//! For the layer above: whatever is read is consumed whole, and an invalid frame is distinct from a failed device.
//! Nothing here allocates memory.
#![tactic(auto)]

mod answer;
mod control_laws;
mod end;
mod fault;
mod frame;
mod frame_bytes;
mod frame_fault;
mod host_words;
mod laws;
mod numbers;
mod page_digest;
mod platform_frame;
mod service;
mod serving;
mod trap;
mod trap_loop;
mod words;

pub use answer::{Head, NewLists, put_front, put_given, put_list};
pub use control_laws::control_words_law;
pub use end::{EndReason, end_frame};
pub use fault::ServeFault;
pub use frame::{AnswerBytes, ShortBytes, TrapBytes};
pub use frame_fault::FrameFault;
pub use host_words::HostWords;
pub use laws::{firmware_law, frames_law};
pub use numbers::served_number;
pub use page_digest::digest_of;
pub use platform_frame::read_platform;
pub use serving::serve_on;
pub use trap::{Trap, TrapEvent, read_trap};
pub use trap_loop::serve_traps;
pub use words::ControlWords;
