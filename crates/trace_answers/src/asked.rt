//! The requests of events, in terms of the machine before each event.

ghost use Rattle.std.specs.Prelude.{◌≡◌, ◌<◌};
ghost use Rattle.hart_trace.specs.declared.event.Event.{Event};
ghost use Rattle.trace_answers.specs.Reasons.{IsReason};
ghost use Rattle.trace_answers.specs.Asked.{by_met, IsAsked, IsDeed};

use crate::reasons::{Reason, reason_of};
use hart_sim::{Event, Machine};
use pmp_encoding::Bank;
use pmp_match::Access;
use sbi_decode::{Call, World};

/// The request of an event.
#[derive(Clone, Copy)]
pub enum Deed {
    /// An access, and the reason for its outcome.
    Access(Access, Reason),
    /// A write of a register, by its number.
    Setting(u8, u64),
    /// A call, and the function of the monitor that the registers name, if any.
    Call(Option<Call>),
    /// A timer interrupt.
    Interrupt,
}

/// The request of an event, with its hart and world.
#[derive(Clone, Copy)]
pub struct Asked {
    /// The hart of the event.
    pub hart: u8,
    /// The world that runs there before the event.
    pub world: World,
    /// The request.
    pub deed: Deed,
}

/// Returns the reason for the outcome of an access on a hart. A marked hart uses the host's list.
fn reason_on(machine: &Machine, hart: u8, access: &Access) -> Reason
    requires { hart < 4 }
    ensures { IsReason (by_met machine.now hart) access.now result }
{
    if machine.marked(hart) {
        let table = machine.table();
        let woken = Bank::of(table.host_entries(), table.limit());
        return reason_of(&woken, access);
    }
    reason_of(machine.bank(hart), access)
}

/// Returns the request of an event on a hart of a machine.
fn deed_of(machine: &Machine, hart: u8, event: &Event) -> Deed
    requires { hart < 4 }
    ensures { IsDeed machine.now hart event.now result }
{
    match event {
        Event::Access(access, _) => Deed::Access(*access, reason_on(machine, hart, access)),
        Event::Reg(n, value) => Deed::Setting(*n, *value),
        Event::Ecall(words) => Deed::Call(machine.called_with(hart, words.as_slice())),
        Event::Irq => Deed::Interrupt,
    }
}

/// Returns the request of an event on a hart of a machine, before the event happens.
pub fn asked_of(machine: &Machine, hart: u8, event: &Event) -> Asked
    requires { hart < 4 }
    ensures { IsAsked machine.now hart event.now result }
{
    Asked {
        hart,
        world: machine.world(hart),
        deed: deed_of(machine, hart, event),
    }
}
