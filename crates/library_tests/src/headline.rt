//! Uses of the headline of the machine: an enclave lives on two harts, a machine runs two traces and one more event,
//! and the headline applies to the machine after it.

ghost use Rattle.std.specs.Prelude.{◌≡◌, ℕ, List, [], ◌∷◌, ◌++◌};
ghost use Rattle.platforms.specs.Platform.{PlatformLayout};
ghost use Rattle.hart_trace.specs.declared.event.Event.{Event};
ghost use Rattle.hart_sim.specs.After.{After};
ghost use Rattle.hart_sim.specs.Headline.{Headline};
ghost use Rattle.hart_sim.specs.Machines.{state_of};
ghost use Rattle.hart_trace.specs.declared.reply.Reply.{Reply};
ghost use Rattle.library_tests.specs.Life.{life_of};

use arrayvec::ArrayVec;
use hart_sim::{Event, Machine, Reply, Sink, Source, headline_law, run};

/// An enclave lives on two harts: the first creates and runs it, the timer stops it there, the second resumes it, it
/// exits there, and the first destroys it. Whatever happened before, the headline holds after these six events and
/// their replies.
pub fn life(
    machine: &mut Machine,
    create: ArrayVec<u64, 8>,
    enter: ArrayVec<u64, 8>,
    resume: ArrayVec<u64, 8>,
    leave: ArrayVec<u64, 8>,
    destroy: ArrayVec<u64, 8>,
) -> [Reply; 6]
    requires { (state_of machine.old).table.layout.harts ≡ 2 }
    ensures { (platform : PlatformLayout) (events : List (ℕ × Event))
        (replies : List Reply)
        → After platform events replies machine.old
        → Headline platform (events ++ life_of create enter resume leave destroy)
        (replies ++ result) machine.new }
{
    let created = machine.step(0, Event::Ecall(create));
    let entered = machine.step(0, Event::Ecall(enter));
    let stopped = machine.step(0, Event::Irq);
    let resumed = machine.step(1, Event::Ecall(resume));
    let left = machine.step(1, Event::Ecall(leave));
    let destroyed = machine.step(0, Event::Ecall(destroy));
    headline_law();
    [created, entered, stopped, resumed, left, destroyed]
}

/// Runs two traces on a machine, followed by a timer interrupt on its first hart. However each run ends, the headline
/// holds after everything that happened before and since.
pub fn runs_on<R: Source, W: Sink>(
    machine: &mut Machine,
    first: &mut R,
    second: &mut R,
    report: &mut W,
    other: &mut W,
) -> Reply
    ensures { (platform : PlatformLayout) (events : List (ℕ × Event))
        (replies : List Reply)
        → After platform events replies machine.old
        → (more : List (ℕ × Event)) × (answered : List Reply)
        × Headline platform (events ++ more ++ (0, Event.Irq) ∷ [])
        (replies ++ answered ++ result ∷ []) machine.new }
{
    let _ = run(machine, first, report);
    let _ = run(machine, second, other);
    let _harts = machine.harts();
    let reply = machine.step(0, Event::Irq);
    headline_law();
    reply
}
