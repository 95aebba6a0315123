//! The parts of the core, and the changes that a call makes to them, one part at a time.

use crate::set_changes::SetChanges;
use enclave_table::{Table, World};

/// The table of enclaves, the world on each hart, and the marked harts.
#[derive(Drop)]
pub(crate) struct MonitorParts {
    pub(crate) table: Table,
    pub(crate) worlds: [World; 4],
    pub(crate) marked: [bool; 4],
}

impl MonitorParts {
    ghost use Rattle.std.specs.Prelude.{◌≡◌, ◌≤◌, ◌<◌, ℕ, false, slice_set};
    ghost use Rattle.sbi_decode.specs.Registers.{RegisterFile};
    ghost use Rattle.sbi_decode.specs.Runners.{Runner, IsWorld, runner_of};
    ghost use Rattle.monitor_core.specs.Changes.{in_world, is_host, answering, without_mark, marking_others};
    ghost use Rattle.monitor_core.specs.Frames.{IsOn, SaysLater};
    ghost use Rattle.monitor_core.specs.Parts.{HoldsTogether, mark_in, state_in, world_in};
    ghost use Rattle.monitor_core.specs.SetChanges.{later, owner_of};

    /// Returns the world on a hart.
    pub(crate) fn world(&self, hart: u8) -> World
        requires { hart < 4 }
        ensures { result ≡ world_in self.now.worlds hart }
    {
        // (RV64 code copies the whole value byte by byte.)
        match self.worlds[hart as usize] {
            World::Host => World::Host,
            World::Enclave(id) => World::Enclave(id),
        }
    }

    /// Returns the number by which a change names the world on a hart.
    pub(crate) fn running(&self, hart: u8) -> u64
        requires hart { hart < 4 }
        requires whole { HoldsTogether self.now.table self.now.worlds self.now.marked }
        ensures owner { owner_of hart result ≡ runner_of hart (world_in self.now.worlds hart) }
        ensures most { result ≤ 64 }
    {
        self.table.cite_invariant();
        match self.world(hart) {
            World::Host => 0,
            World::Enclave(id) => id,
        }
    }

    /// Returns whether a hart is marked.
    pub(crate) fn is_marked(&self, hart: u8) -> bool
        requires { hart < 4 }
        ensures { result ≡ mark_in self.now.marked hart }
    {
        self.marked[hart as usize]
    }

    /// Records a change of register sets: two words go to a0 and a1 of the world on a hart.
    pub(crate) fn answer(&self, hart: u8, first: u64, second: u64, changes: &mut SetChanges)
        requires hart { hart < 4 }
        requires whole { HoldsTogether self.now.table self.now.worlds self.now.marked }
        ensures said { SaysLater changes.old changes.new }
        ensures state { (sets : Runner → RegisterFile)
            → state_in self.now (later hart changes.new sets)
            ≡ answering (state_in self.now sets) hart first second }
    {
        let who = self.running(hart);
        changes.second.answer(who, first, second);
        changes.third.nothing();
    }

    /// Switches a hart to another world, with the registers of that world.
    pub(crate) fn go_to(&mut self, hart: u8, to: World)
        requires { hart < 4 }
        ensures state { (sets : Runner → RegisterFile)
            → state_in self.new sets ≡ in_world (state_in self.old sets) hart to }
        ensures table { self.new.table ≡ self.old.table }
        ensures marks { self.new.marked ≡ self.old.marked }
    {
        self.worlds[hart as usize] = to;
    }

    /// Removes the mark of a hart.
    pub(crate) fn clear_mark(&mut self, hart: u8)
        requires { hart < 4 }
        ensures state { (sets : Runner → RegisterFile)
            → state_in self.new sets ≡ without_mark (state_in self.old sets) hart }
        ensures table { self.new.table ≡ self.old.table }
        ensures worlds { self.new.worlds ≡ self.old.worlds }
    {
        self.marked[hart as usize] = false;
    }

    /// Returns whether a hart is in the host's world.
    fn is_at_host(&self, hart: u8) -> bool
        requires { hart < 4 }
        ensures { result ≡ is_host (world_in self.now.worlds hart) }
    {
        matches!(self.world(hart), World::Host)
    }

    /// Marks every other hart of the platform that is in the host's world.
    pub(crate) fn mark_others(&mut self, hart: u8)
        requires on { IsOn self.old hart }
        ensures whole { HoldsTogether self.new.table self.new.worlds self.new.marked }
        ensures state { (sets : Runner → RegisterFile)
            → state_in self.new sets ≡ marking_others (state_in self.old sets) hart }
        ensures table { self.new.table ≡ self.old.table }
    {
        let harts = self.table.platform().harts();
        for other in 0..harts {
            if other != hart && self.is_at_host(other) {
                self.marked[other as usize] = true;
            }
        }
    }
}
