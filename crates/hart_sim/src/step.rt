//! An event on a hart: the hart loads the host's entries if needed, and then the event takes place.

use crate::hart_registers::set_register;
use crate::parts::MachineParts;
use hart_trace::{Event, Reply};

impl MachineParts {
    ghost use Rattle.std.specs.Prelude.{◌≡◌, ℕ, ◌<◌, ◌↔◌, List, false, Err, Some};
    ghost use Rattle.pmp_encoding.specs.declared.bank.Bank.{Bank};
    ghost use Rattle.pmp_encoding.specs.declared.region.Entry.{Entry};
    ghost use Rattle.pmp_encoding.specs.Banks.{HasList};
    ghost use Rattle.pmp_match.specs.declared.access.Access.{Access};
    ghost use Rattle.pmp_match.specs.declared.cause.Cause.{Cause};
    ghost use Rattle.pmp_match.specs.Judgement.{Judges};
    ghost use Rattle.monitor_core.specs.Cores.{core_kept};
    ghost use Rattle.hart_trace.specs.declared.event.Event.{Event};
    ghost use Rattle.hart_sim.specs.Banks.{AreBanksRight, MeetsList};
    ghost use Rattle.hart_sim.specs.Frames.{IsOn, KeepsFrame};
    ghost use Rattle.hart_sim.specs.Parts.{state_in, bank_in};
    ghost use Rattle.hart_sim.specs.States.{awoken};
    ghost use Rattle.hart_sim.specs.Steps.{DoesEvent, DoesBy, IsEvent, Step};

    /// Sets a register of the world on a hart.
    #[inline(always)]
    fn set_register(&mut self, hart: u8, n: u8, value: u64) -> Reply
        requires on { IsOn self.old hart }
        requires few { hart < 4 }
        requires awake { (state_in self.old).marked hart ≡ false }
        requires register { n < 32 }
        ensures frame { KeepsFrame self.old self.new hart }
        ensures step { DoesEvent (Event.Reg n value) (state_in self.old) hart result
            (state_in self.new) }
    {
        set_register(&mut self.harts[hart as usize], n, value);
        Reply::Done
    }

    /// Performs an event on a hart that is not marked.
    #[inline(always)]
    fn happen(&mut self, hart: u8, event: Event) -> Reply
        requires on { IsOn self.old hart }
        requires few { hart < 4 }
        requires event { IsEvent event }
        requires awake { (state_in self.old).marked hart ≡ false }
        ensures frame { KeepsFrame self.old self.new hart }
        ensures judged { (access : Access) (value : ℕ) → event ≡ Event.Access access value
            → (bank : Bank) (list : List Entry) (cause : Cause)
            → bank_in self.old hart ≡ Some bank → HasList bank list
            → (result ≡ Reply.Fault cause) ↔ Judges list access (Err cause) }
        ensures loaded { (access : Access) (value : ℕ) → event ≡ Event.Access access value
            → self.new.harts ≡ self.old.harts }
        ensures step { AreBanksRight (state_in self.old) (bank_in self.old)
            → DoesEvent event (state_in self.old) hart result (state_in self.new) }
        ensures effect { let met = bank_in self.old hart in
            DoesBy (λ list. (bank : Bank) × (met ≡ Some bank) × HasList bank list)
            event (state_in self.old) hart result (state_in self.new) }
    {
        match event {
            Event::Access(access, value) => self.access(hart, &access, value),
            Event::Reg(n, value) => self.set_register(hart, n, value),
            Event::Ecall(words) => self.ecall(hart, words.as_slice()),
            Event::Irq => self.interrupt(hart),
        }
    }

    /// Performs an event on a hart, which first loads the host's entries if it is marked.
    #[inline(always)]
    pub(crate) fn step(&mut self, hart: u8, event: Event) -> Reply
        requires on { IsOn self.old hart }
        requires few { hart < 4 }
        requires event { IsEvent event }
        ensures frame { KeepsFrame self.old self.new hart }
        ensures judged { (access : Access) (value : ℕ) (list : List Entry) (cause : Cause)
            → event ≡ Event.Access access value
            → MeetsList (state_in self.old) (core_kept self.old.core) (bank_in self.old) hart
            list
            → (result ≡ Reply.Fault cause) ↔ Judges list access (Err cause) }
        ensures loaded { (access : Access) (value : ℕ) (list : List Entry) (bank : Bank)
            → event ≡ Event.Access access value
            → MeetsList (state_in self.old) (core_kept self.old.core) (bank_in self.old) hart
            list
            → bank_in self.new hart ≡ Some bank → HasList bank list }
        ensures step { AreBanksRight (state_in self.old) (bank_in self.old)
            → Step (state_in self.old) hart event result (state_in self.new) }
        ensures effect { let s = state_in self.old in
            DoesBy (MeetsList s (core_kept self.old.core) (bank_in self.old) hart)
            event (awoken s hart) hart result (state_in self.new) }
    {
        self.wake(hart);
        self.happen(hart, event)
    }
}
