//! Refusals of calls.

use crate::answer::{Answer, Served, word_below_zero};
use crate::parts::MonitorParts;
use crate::set_changes::SetChanges;
use enclave_table::Refusal;

impl MonitorParts {
    ghost use Rattle.std.specs.Prelude.{◌≡◌, ◌<◌, ◌≤◌};
    ghost use Rattle.enclave_table.specs.Refusals.{refusal_number};
    ghost use Rattle.sbi_decode.specs.Registers.{RegisterFile};
    ghost use Rattle.sbi_decode.specs.Runners.{Runner};
    ghost use Rattle.monitor_core.specs.Frames.{IsOn, KeepsFrame, LoadsAnew, SaysLater};
    ghost use Rattle.monitor_core.specs.Parts.{bare, state_in};
    ghost use Rattle.monitor_core.specs.SetChanges.{later};
    ghost use Rattle.monitor_core.specs.Steps.{Refuses};

    /// Refuses a call with the negated number as its status.
    pub(crate) fn refuse(&mut self, hart: u8, number: u64, changes: &mut SetChanges) -> Served
        requires on { IsOn self.old hart }
        requires low { 1 ≤ number }
        requires high { number ≤ 112 }
        ensures frame { KeepsFrame self.old self.new }
        ensures said { SaysLater changes.old changes.new }
        ensures step { (sets : Runner → RegisterFile) → Refuses number (state_in self.old sets)
            hart result.answer result.zero (state_in self.new (later hart changes.new sets)) }
        ensures load { LoadsAnew result.load (bare self.old) (bare self.new) hart }
    {
        self.answer(hart, word_below_zero(number), 0, changes);
        Served {
            answer: Answer::refused(number),
            zero: None,
            load: false,
        }
    }

    /// Refuses a call for this reason.
    pub(crate) fn refuse_for(
        &mut self,
        hart: u8,
        refusal: Refusal,
        changes: &mut SetChanges,
    ) -> Served
        requires on { IsOn self.old hart }
        ensures frame { KeepsFrame self.old self.new }
        ensures said { SaysLater changes.old changes.new }
        ensures step { (sets : Runner → RegisterFile)
            → Refuses (refusal_number refusal) (state_in self.old sets) hart result.answer
            result.zero (state_in self.new (later hart changes.new sets)) }
        ensures load { LoadsAnew result.load (bare self.old) (bare self.new) hart }
    {
        self.refuse(hart, u64::from(refusal.number()), changes)
    }
}
