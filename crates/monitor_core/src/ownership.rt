//! The calls on enclaves as owners: create, destroy, and a word of a digest.

use crate::answer::{Answer, Served};
use crate::parts::MonitorParts;
use crate::set_changes::SetChanges;
use enclave_table::firmware::{create_by, give_digest};
use measurement::{Create, Digests};

impl MonitorParts {
    ghost use Rattle.std.specs.Prelude.{◌≡◌, ◌<◌, ◌≤◌, Some, []};
    ghost use Rattle.enclave_table.specs.Enclaves.{Live};
    ghost use Rattle.enclave_table.specs.declared.enclave.Enclave.{Enclave};
    ghost use Rattle.sbi_decode.specs.Registers.{RegisterFile, zeros};
    ghost use Rattle.sbi_decode.specs.Runners.{Runner, EnclaveOf};
    ghost use Rattle.monitor_core.specs.Changes.{answering, having_digest, with_registers};
    ghost use Rattle.monitor_core.specs.Frames.{IsOn, KeepsFrame, LoadsAnew, SaysLater};
    ghost use Rattle.monitor_core.specs.Parts.{HoldsTogether, bare, state_in};
    ghost use Rattle.monitor_core.specs.SetChanges.{later};
    ghost use Rattle.monitor_core.specs.Steps.{DoesCall};
    ghost use Rattle.sbi_decode.specs.declared.calls.Call.TheVariants as calls;

    /// Creates an enclave, with the digest of its parts.
    pub(crate) fn create<D: Digests>(
        &mut self,
        hart: u8,
        digests: &D,
        asked: Create,
        changes: &mut SetChanges,
    ) -> Served
        requires on { IsOn self.old hart }
        ensures frame { KeepsFrame self.old self.new }
        ensures said { SaysLater changes.old changes.new }
        ensures step { (sets : Runner → RegisterFile)
            → DoesCall (Some (calls.Create asked.base asked.text_pages asked.data_pages
            asked.shared_base asked.shared_count asked.entry_offset)) (D.digest_of digests.now)
            (state_in self.old sets) hart result.answer result.zero
            (state_in self.new (later hart changes.new sets)) }
        ensures load { LoadsAnew result.load (bare self.old) (bare self.new) hart }
    {
        self.table.cite_invariant();
        let world = self.world(hart);
        match create_by(&mut self.table, world, digests, asked) {
            Ok(id) => {
                self.answer(hart, 0, id, changes);
                self.mark_others(hart);
                Served {
                    answer: Answer::done(id),
                    zero: None,
                    load: true,
                }
            }
            Err(refusal) => self.refuse_for(hart, refusal, changes),
        }
    }

    /// Sets the digest of a live enclave.
    pub(crate) fn give_digest(&mut self, id: u64, digest: &[u8; 32])
        requires whole { HoldsTogether self.old.table self.old.worlds self.old.marked }
        requires live { (e : Enclave) × Live self.old.table.table id e }
        ensures whole { HoldsTogether self.new.table self.new.worlds self.new.marked }
        ensures state { (e : Enclave) (sets : Runner → RegisterFile)
            → Live self.old.table.table id e
            → state_in self.new sets ≡ having_digest (state_in self.old sets) id e digest.now }
    {
        give_digest(&mut self.table, id, digest);
    }

    /// Records the changes of register sets by a destruction: those of the enclave become zero, and the calling host
    /// gets 0 in a0 and a1.
    fn say_destroyed(&self, hart: u8, id: u64, changes: &mut SetChanges)
        requires hart { hart < 4 }
        requires low { 1 ≤ id }
        requires high { id ≤ 64 }
        requires whole { HoldsTogether self.now.table self.now.worlds self.now.marked }
        ensures said { SaysLater changes.old changes.new }
        ensures state { (sets : Runner → RegisterFile)
            → state_in self.now (later hart changes.new sets)
            ≡ answering (with_registers (state_in self.now sets) (EnclaveOf id) zeros) hart 0 0 }
    {
        let who = self.running(hart);
        changes.second.clear(id);
        changes.third.answer(who, 0, 0);
    }

    /// Destroys an enclave, whose private pages must then be zeroed.
    pub(crate) fn destroy(&mut self, hart: u8, id: u64, changes: &mut SetChanges) -> Served
        requires on { IsOn self.old hart }
        ensures frame { KeepsFrame self.old self.new }
        ensures said { SaysLater changes.old changes.new }
        ensures step { (sets : Runner → RegisterFile)
            → DoesCall (Some (calls.Destroy id)) (λ parts. []) (state_in self.old sets) hart
            result.answer result.zero (state_in self.new (later hart changes.new sets)) }
        ensures load { LoadsAnew result.load (bare self.old) (bare self.new) hart }
    {
        self.table.cite_invariant();
        let world = self.world(hart);
        match self.table.destroy(world, id) {
            Ok(range) => {
                self.say_destroyed(hart, id, changes);
                self.mark_others(hart);
                Served {
                    answer: Answer::done(0),
                    zero: Some(range),
                    load: true,
                }
            }
            Err(refusal) => self.refuse_for(hart, refusal, changes),
        }
    }

    /// Returns a word of an enclave's digest.
    pub(crate) fn measure(&mut self, hart: u8, id: u64, k: u64, changes: &mut SetChanges) -> Served
        requires on { IsOn self.old hart }
        ensures frame { KeepsFrame self.old self.new }
        ensures said { SaysLater changes.old changes.new }
        ensures step { (sets : Runner → RegisterFile)
            → DoesCall (Some (calls.Measure id k)) (λ parts. []) (state_in self.old sets) hart
            result.answer result.zero (state_in self.new (later hart changes.new sets)) }
        ensures load { LoadsAnew result.load (bare self.old) (bare self.new) hart }
    {
        match self.table.word(id, k) {
            Ok(word) => {
                self.answer(hart, 0, word, changes);
                Served {
                    answer: Answer::done(word),
                    zero: None,
                    load: false,
                }
            }
            Err(refusal) => self.refuse_for(hart, refusal, changes),
        }
    }
}
