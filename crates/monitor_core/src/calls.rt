//! Serves a call by the registers that name it.

use crate::answer::Served;
use crate::parts::MonitorParts;
use crate::set_changes::SetChanges;
use enclave_table::Entering;
use measurement::{Create, Digests};
use sbi_decode::{Call, Registers, decode};

impl MonitorParts {
    ghost use Rattle.std.specs.Prelude.{◌≡◌, ◌<◌, false};
    ghost use Rattle.sbi_decode.specs.Calls.{call_of};
    ghost use Rattle.sbi_decode.specs.Registers.{RegisterFile};
    ghost use Rattle.sbi_decode.specs.Runners.{Runner};
    ghost use Rattle.monitor_core.specs.Changes.{past_call, with_running};
    ghost use Rattle.monitor_core.specs.Frames.{IsOn, KeepsFrame, LoadsAnew, SaysLater};
    ghost use Rattle.monitor_core.specs.Parts.{bare, mark_in, state_in};
    ghost use Rattle.monitor_core.specs.SetChanges.{AreOfSets, changed, later};
    ghost use Rattle.monitor_core.specs.States.{running_registers};
    ghost use Rattle.monitor_core.specs.Steps.{DoesCall};

    /// Serves the call that the registers name, made by the world on a hart.
    fn call<D: Digests>(
        &mut self,
        hart: u8,
        asked: &Registers,
        digests: &D,
        changes: &mut SetChanges,
    ) -> Served
        requires on { IsOn self.old hart }
        requires awake { mark_in self.old.marked hart ≡ false }
        ensures frame { KeepsFrame self.old self.new }
        ensures said { SaysLater changes.old changes.new }
        ensures step { (sets : Runner → RegisterFile)
            → DoesCall (call_of asked.now) (D.digest_of digests.now) (state_in self.old sets) hart
            result.answer result.zero (state_in self.new (later hart changes.new sets)) }
        ensures load { LoadsAnew result.load (bare self.old) (bare self.new) hart }
    {
        let Ok(call) = decode(asked) else {
            return self.refuse(hart, 2, changes);
        };
        match call {
            Call::Create {
                base,
                text_pages,
                data_pages,
                shared_base,
                shared_count,
                entry_offset,
            } => self.create(
                hart,
                digests,
                Create {
                    base,
                    text_pages,
                    data_pages,
                    shared_base,
                    shared_count,
                    entry_offset,
                },
                changes,
            ),
            Call::Destroy { id } => self.destroy(hart, id, changes),
            Call::Run { id } => self.enter(hart, id, Entering::Run, changes),
            Call::Stop => self.stop(hart, changes),
            Call::Resume { id } => self.enter(hart, id, Entering::Resume, changes),
            Call::Exit { value } => self.exit(hart, value, changes),
            Call::Measure { id, k } => self.measure(hart, id, k, changes),
        }
    }

    /// Serves the call of the world on a hart, after advancing its registers past the call instruction.
    pub(crate) fn serve<D: Digests>(
        &mut self,
        hart: u8,
        asked: &Registers,
        digests: &D,
        changes: &mut SetChanges,
    ) -> Served
        requires on { IsOn self.old hart }
        requires awake { mark_in self.old.marked hart ≡ false }
        ensures frame { KeepsFrame self.old self.new }
        ensures sets { AreOfSets changes.new }
        ensures step { (sets : Runner → RegisterFile) → let s = state_in self.old sets in
            let file = past_call (running_registers s hart) in
            DoesCall (call_of asked.now) (D.digest_of digests.now) (with_running s hart file) hart
            result.answer result.zero (state_in self.new (changed hart changes.new sets)) }
        ensures load { LoadsAnew result.load (bare self.old) (bare self.new) hart }
    {
        let who = self.running(hart);
        changes.first.past_call(who);
        self.call(hart, asked, digests, changes)
    }
}
