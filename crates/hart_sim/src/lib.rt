//! A modelled RV64 machine: one to four harts with their registers and PMP entries, memory, and the monitor's calls.
//!
//! A [`Machine`] is booted for a platform, and [`Machine::step`] performs one event on one hart: an access by
//! supervisor or user mode, a setting of a register, a call to the monitor, or the timer's interrupt. Only the
//! registers loaded on the hart judge an access. The monitor's core serves calls and interrupts, and
//! `context_switch::switch` switches the hart between worlds. [`run`] performs the event of each line of a trace and
//! writes a line for each reply. A caller that needs more control uses the same steps: [`Machine::event_in`] returns
//! the event of a line, [`push_reply`] appends the text of the reply, and [`Machine::called_with`] returns the call
//! that an event makes.
//!
//! For the layer above: each reply and the state after it are a step of the small machine in `specs/Steps`, which has
//! no PMP entries in it; after boot and after every event the list of each hart that is not marked means the view of
//! its world, no list of entries of any regions in any order that means it is shorter, and the hart's bank is
//! `Bank::of` the list. A hart is marked when another hart's call changes the host's view: it loads the host's entries
//! before its next event. The laws state the consequences for whole runs: [`privacy_law`], [`private_bytes_law`],
//! [`worlds_law`], [`creation_law`], [`destruction_law`].
//!
//! [`Memory`] has a byte at each address of the physical address space, and a page that has not been written reads as
//! zero. Only a store to such a page, and a creation or a destruction that passes its other checks, allocate.
//!
//! ```text
//! let mut machine = Machine::boot(rt.alloc(), platform)?;
//! let reply = machine.step(0, Event::Irq);
//! run(&mut machine, &mut trace, &mut report)?;
//! ```
#![tactic(auto)]

mod access;
mod answers;
mod banks;
mod boot;
mod call_registers;
mod ecall;
mod hart_registers;
mod laws;
mod machine;
mod memory;
mod page_bytes;
mod page_group;
mod page_span;
mod parts;
mod step;
mod trace_run;

pub use hart_trace::{Event, Reply, parse_line, push_reply};
pub use laws::{
    creation_law, destruction_law, headline_law, loaded_law, platform_law, privacy_law,
    private_bytes_law, report_law, step_law, worlds_law,
};
pub use machine::Machine;
pub use memory::Memory;
pub use text_lines::{Counted, DeviceFault, NotUnderstood, RunFault, Sink, Source, fakes};
pub use trace_run::{run, run_lines};
