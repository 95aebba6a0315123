//! Accesses: judged by the loaded bank, then performed in memory.

ghost use Rattle.std.specs.Prelude.{◌≡◌, ◌%◌};
ghost use Rattle.hart_sim.specs.Effects.{ReachesMemory};

use crate::Memory;
use crate::parts::MachineParts;
use hart_trace::Reply;
use pmp_match::{Access, Kind, judge};
use std::alloc::Global;

/// Performs an allowed access. Allocates only for a store to a page that has not been written.
#[inline(always)]
fn reach(memory: &mut Memory, alloc: Global, access: &Access, value: u64) -> Reply
    requires { access.now.address % access.now.size ≡ 0 }
    ensures { ReachesMemory access.now.kind memory.old access.now value result memory.new }
{
    let address = access.addr();
    let size = access.size() as usize;
    match access.kind() {
        Kind::Fetch => Reply::Done,
        Kind::Load => Reply::Loaded(memory.load(address, size)),
        Kind::Store => match memory.store(alloc, address, size, value) {
            Ok(()) => Reply::Done,
            Err(_) => Reply::NoMemory,
        },
    }
}

impl MachineParts {
    ghost use Rattle.std.specs.Prelude.{◌≡◌, ◌≢◌, ◌↔◌, ◌<◌, List, false, Result, Err, Some};
    ghost use Rattle.pmp_encoding.specs.declared.bank.Bank.{Bank};
    ghost use Rattle.pmp_encoding.specs.declared.region.Entry.{Entry};
    ghost use Rattle.pmp_encoding.specs.Banks.{HasList};
    ghost use Rattle.pmp_match.specs.declared.cause.Cause.{Cause};
    ghost use Rattle.pmp_match.specs.Judgement.{Judges};
    ghost use Rattle.pmp_match.specs.declared.access.Mode.TheVariants.{Machine};
    ghost use Rattle.hart_sim.specs.Banks.{AreBanksRight};
    ghost use Rattle.hart_sim.specs.Frames.{IsOn, KeepsFrame};
    ghost use Rattle.hart_sim.specs.Parts.{state_in, bank_in};
    ghost use Rattle.hart_sim.specs.States.{view_on};
    ghost use Rattle.hart_sim.specs.Steps.{Accesses, verdict};

    /// Performs an access on a hart that is not marked. On every machine the loaded bank decides whether it faults or
    /// takes effect; if the banks are right, that is the decision of the view of the hart's world.
    #[inline(always)]
    pub(crate) fn access(&mut self, hart: u8, access: &Access, value: u64) -> Reply
        requires on { IsOn self.old hart }
        requires few { hart < 4 }
        requires awake { (state_in self.old).marked hart ≡ false }
        requires event { access.now.mode ≢ Machine }
        ensures frame { KeepsFrame self.old self.new hart }
        ensures judged { (bank : Bank) (list : List Entry) (cause : Cause)
            → bank_in self.old hart ≡ Some bank
            → HasList bank list
            → (result ≡ Reply.Fault cause) ↔ Judges list access.now (Err cause) }
        ensures step { AreBanksRight (state_in self.old) (bank_in self.old)
            → (let s = state_in self.old in
            Accesses (verdict (view_on s hart) access.now) s access.now value result
            (state_in self.new)) }
        ensures effect { (bank : Bank) (list : List Entry) (said : Result (Unit {0}) Cause)
            → bank_in self.old hart ≡ Some bank
            → HasList bank list → Judges list access.now said
            → Accesses said (state_in self.old) access.now value result (state_in self.new) }
        ensures harts { self.new.harts ≡ self.old.harts }
    {
        match judge(self.bank(hart), access) {
            Ok(()) => reach(&mut self.memory, self.alloc, access, value),
            Err(cause) => Reply::Fault(cause),
        }
    }
}
