//! The switches between the host and an enclave: run, resume, stop, exit, and the timer.

ghost use Rattle.std.specs.Prelude.{◌≡◌, ℕ, ◌+◌, ◌≤◌};
ghost use Rattle.enclave_table.specs.declared.enclave.Enclave.{Enclave};
ghost use Rattle.monitor_core.specs.Frames.{SaysLater};
ghost use Rattle.monitor_core.specs.SetChanges.{later};
ghost use Rattle.monitor_core.specs.States.{MonitorState};
ghost use Rattle.monitor_core.specs.Steps.{entering_with};

use crate::answer::{Answer, Served};
use crate::parts::MonitorParts;
use crate::set_changes::SetChanges;
use enclave_table::{Entering, Leaving, Refusal, World};

/// Records the registers with which an enclave continues: those of a first entry, or those it had when it was stopped.
fn prepare(id: u64, entering: Entering, pc: u64, changes: &mut SetChanges)
    requires low { 1 ≤ id }
    requires high { id ≤ 64 }
    ensures said { SaysLater changes.old changes.new }
    ensures state { (s : MonitorState) (hart : ℕ) (e : Enclave)
        → pc ≡ e.parts.base + e.parts.entry_offset
        → record s { registers = later hart changes.new s.registers }
        ≡ entering_with entering s id e }
{
    changes.third.nothing();
    match entering {
        Entering::Run => changes.second.begin(id, pc),
        Entering::Resume => changes.second.nothing(),
    }
}

impl MonitorParts {
    ghost use Rattle.std.specs.Prelude.{◌≡◌, ℕ, ◌<◌, false, IfErr, OnOk, OnErr, Some, []};
    ghost use Rattle.enclave_table.specs.Checks.{leave_checks};
    ghost use Rattle.enclave_table.specs.Lives.{Leaves, state_after};
    ghost use Rattle.platforms.specs.CheckLists.{FailsFirst};
    ghost use Rattle.sbi_decode.specs.Registers.{RegisterFile};
    ghost use Rattle.sbi_decode.specs.Runners.{Runner};
    ghost use Rattle.sbi_decode.specs.declared.world.World.TheVariants.{Host};
    ghost use Rattle.monitor_core.specs.Changes.{in_world};
    ghost use Rattle.monitor_core.specs.Frames.{IsOn, KeepsFrame, LoadsAnew, SaysLater};
    ghost use Rattle.monitor_core.specs.Parts.{bare, mark_in, state_in, world_in};
    ghost use Rattle.monitor_core.specs.SetChanges.{AreOfSets, changed, later};
    ghost use Rattle.monitor_core.specs.Steps.{DoesCall, DoesEnter, Interrupts};
    ghost use Rattle.sbi_decode.specs.declared.calls.Call.TheVariants as calls;

    /// Run and resume: enters an enclave on a hart. It is inlined to avoid a bytewise copy of its result.
    #[inline(always)]
    pub(crate) fn enter(
        &mut self,
        hart: u8,
        id: u64,
        entering: Entering,
        changes: &mut SetChanges,
    ) -> Served
        requires on { IsOn self.old hart }
        requires awake { mark_in self.old.marked hart ≡ false }
        ensures frame { KeepsFrame self.old self.new }
        ensures said { SaysLater changes.old changes.new }
        ensures step { (sets : Runner → RegisterFile)
            → DoesEnter entering id (state_in self.old sets) hart result.answer result.zero
            (state_in self.new (later hart changes.new sets)) }
        ensures load { LoadsAnew result.load (bare self.old) (bare self.new) hart }
    {
        let world = self.world(hart);
        match self.table.enter(world, id, entering) {
            Ok(()) => {}
            Err(refusal) => return self.refuse_for(hart, refusal, changes),
        }
        self.table.cite_invariant();
        let Some(pc) = self.table.entry_point(id) else {
            unreachable!();
        };
        prepare(id, entering, pc, changes);
        self.go_to(hart, World::Enclave(id));
        Served {
            answer: Answer::done(0),
            zero: None,
            load: true,
        }
    }

    /// Leaves the enclave on a hart for the host.
    fn leave(&mut self, hart: u8, leaving: Leaving) -> Result<(), Refusal>
        requires on { IsOn self.old hart }
        ensures frame { KeepsFrame self.old self.new }
        ensures done { OnOk result ((id : ℕ)
            × Leaves self.old.table.table (world_in self.old.worlds hart) (state_after leaving) id
            self.new.table.table) }
        ensures state { OnOk result ((sets : Runner → RegisterFile) → state_in self.new sets
            ≡ in_world (record (state_in self.old sets) { table = self.new.table.table }) hart
            Host) }
        ensures refused { IfErr result (λ refusal.
            FailsFirst (leave_checks (world_in self.old.worlds hart)) refusal) }
        ensures kept { OnErr result (self.new ≡ self.old) }
    {
        let world = self.world(hart);
        match self.table.leave(world, leaving) {
            Ok(_) => {}
            Err(refusal) => return Err(refusal),
        }
        self.go_to(hart, World::Host);
        Ok(())
    }

    /// Exits the enclave on a hart, with a value for the host.
    pub(crate) fn exit(&mut self, hart: u8, value: u64, changes: &mut SetChanges) -> Served
        requires on { IsOn self.old hart }
        ensures frame { KeepsFrame self.old self.new }
        ensures said { SaysLater changes.old changes.new }
        ensures step { (sets : Runner → RegisterFile)
            → DoesCall (Some (calls.Exit value)) (λ parts. []) (state_in self.old sets) hart
            result.answer result.zero (state_in self.new (later hart changes.new sets)) }
        ensures load { LoadsAnew result.load (bare self.old) (bare self.new) hart }
    {
        let enclave = self.running(hart);
        match self.leave(hart, Leaving::Exit) {
            Ok(()) => {
                changes.second.clear(enclave);
                changes.third.answer(0, 0, value);
                Served {
                    answer: Answer::done(value),
                    zero: None,
                    load: true,
                }
            }
            Err(refusal) => self.refuse_for(hart, refusal, changes),
        }
    }

    /// Stops the enclave on a hart at its own request.
    pub(crate) fn stop(&mut self, hart: u8, changes: &mut SetChanges) -> Served
        requires on { IsOn self.old hart }
        ensures frame { KeepsFrame self.old self.new }
        ensures said { SaysLater changes.old changes.new }
        ensures step { (sets : Runner → RegisterFile)
            → DoesCall (Some calls.Stop) (λ parts. []) (state_in self.old sets) hart
            result.answer result.zero (state_in self.new (later hart changes.new sets)) }
        ensures load { LoadsAnew result.load (bare self.old) (bare self.new) hart }
    {
        let enclave = self.running(hart);
        match self.leave(hart, Leaving::Stop) {
            Ok(()) => {
                changes.second.answer(enclave, 0, 0);
                changes.third.answer(0, 1, 0);
                Served {
                    answer: Answer::done(0),
                    zero: None,
                    load: true,
                }
            }
            Err(refusal) => self.refuse_for(hart, refusal, changes),
        }
    }

    /// Serves the timer's interrupt. Returns whether the hart's entries must be reloaded.
    pub(crate) fn pause(&mut self, hart: u8, changes: &mut SetChanges) -> bool
        requires on { IsOn self.old hart }
        ensures frame { KeepsFrame self.old self.new }
        ensures sets { AreOfSets changes.new }
        ensures step { (sets : Runner → RegisterFile) → let s = state_in self.old sets in
            Interrupts (s.worlds hart) s hart (state_in self.new (changed hart changes.new sets)) }
        ensures load { LoadsAnew result (bare self.old) (bare self.new) hart }
    {
        changes.first.nothing();
        changes.second.nothing();
        changes.third.nothing();
        match self.world(hart) {
            World::Host => false,
            World::Enclave(_) => {
                let Ok(()) = self.leave(hart, Leaving::Stop) else {
                    unreachable!();
                };
                changes.first.answer(0, 1, 0);
                true
            }
        }
    }
}
