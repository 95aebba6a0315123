//! The core of the monitor, which stores no registers.

ghost use Rattle.monitor_core.specs.Parts.{HoldsTogether};

use crate::answer::Served;
use crate::parts::MonitorParts;
use crate::set_changes::SetChanges;
use enclave_table::{Table, World};
use measurement::Digests;
use platforms::{BootFault, Platform};
use pmp_encoding::Entry;
use sbi_decode::Registers;
use std::alloc::Global;

/// The table of enclaves, the worlds on one to four harts, and the marked harts. The caller stores the register sets of
/// each hart's host and of each enclave; the core reports how they change.
#[derive(Drop)]
pub struct Core {
    pub(crate) parts: MonitorParts,
    pub ghost whole: { HoldsTogether parts.table parts.worlds parts.marked },
}

impl Core {
    ghost use Rattle.std.specs.Prelude.{◌≡◌, ◌<◌, ◌≤◌, ℕ, List, false, length, IfOk, IfErr, IfNone, IfSome};
    ghost use Rattle.pmp_encoding.specs.Limits.{limit_number};
    ghost use Rattle.pmp_match.specs.Meaning.{IsFewest, Needs};
    ghost use Rattle.enclave_table.specs.Boot.{IsBootFault, opening_table};
    ghost use Rattle.enclave_table.specs.Enclaves.{Live};
    ghost use Rattle.enclave_table.specs.declared.enclave.Enclave.{Enclave};
    ghost use Rattle.enclave_table.specs.Fewest.{FitsIn};
    ghost use Rattle.platforms.specs.Platform.{IsLayout};
    ghost use Rattle.enclave_table.specs.Tables.{IsTable};
    ghost use Rattle.enclave_table.specs.Views.{host_view, current_view};
    ghost use Rattle.sbi_decode.specs.Calls.{call_of};
    ghost use Rattle.sbi_decode.specs.Registers.{RegisterFile};
    ghost use Rattle.sbi_decode.specs.Runners.{IsWorld, Runner};
    ghost use Rattle.monitor_core.specs.Changes.{having_digest, past_call, with_running, without_mark};
    ghost use Rattle.monitor_core.specs.Cores.{core_kept, list_of, core_marks, core_state, worlds_of};
    ghost use Rattle.monitor_core.specs.Frames.{LoadsAnew, KeepsOthers, ClearsMemory};
    ghost use Rattle.monitor_core.specs.SetChanges.{AreOfSets, changed};
    ghost use Rattle.monitor_core.specs.States.{opening_monitor, running_registers};
    ghost use Rattle.monitor_core.specs.Steps.{DoesCall, Interrupts};
    ghost use Rattle.monitor_core.specs.Worlds.{ArePlaced, IsNoWorld};
    ghost use Rattle.monitor_core.specs.Wants.{IsRefusedByNeed};
    ghost use Rattle.monitor_core.specs.Answers.{below_zero};
    ghost use Rattle.enclave_table.specs.Refusals.{refusal_number};

    /// Boots the core of a platform: no enclave, each hart in the host's world, no hart marked. The caller zeroes each
    /// register set. Fails if the host's view needs more entries than a hart of the platform has, or if an allocation
    /// fails.
    pub fn boot(alloc: Global, platform: Platform) -> Result<Core, BootFault>
        ensures state { IfOk result (λ core. (sets : Runner → RegisterFile)
            → core_state core sets ≡ record (opening_monitor platform) { registers = sets }) }
        ensures rules { IfOk result (λ _. IsLayout platform) }
        ensures fits { IfOk result (λ _. FitsIn platform.limit
            (host_view (opening_table platform))) }
        ensures fault { IfErr result (λ fault. IsBootFault platform fault) }
    {
        match MonitorParts::boot(alloc, platform) {
            Ok(parts) => {
                parts.table.cite_invariant();
                Ok(Core { parts })
            }
            Err(fault) => Err(fault),
        }
    }

    /// Does nothing: a proof cites the invariant of every core by this call, for any register sets. Its table is sound;
    /// each hart is in the host's world or in that of an enclave that is Running; each Running enclave runs on exactly
    /// one hart; and a marked hart is in the host's world.
    pub fn cite_invariant(&self)
        ensures table { IsTable (core_kept self.now).table }
        ensures worlds { (sets : Runner → RegisterFile) → ArePlaced (core_state self.now sets) }
    {
        self.parts.table.cite_invariant();
    }

    /// Returns the number of harts, 1 to 4.
    #[tactic(auto, unfolding(crate::specs::Cores::core_kept))]
    pub fn harts(&self) -> u8
        ensures value { result ≡ (core_kept self.now).table.layout.harts }
        ensures some { 0 < result }
        ensures most { result ≤ 4 }
    {
        self.parts.table.platform().harts()
    }

    /// Returns the table of enclaves.
    #[tactic(auto, unfolding(crate::specs::Cores::core_kept))]
    pub fn table(&self) -> &Table
        ensures { result.now ≡ core_kept self.now }
    {
        &self.parts.table
    }

    /// Returns the world on a hart.
    #[tactic(auto, unfolding(crate::specs::Cores::worlds_of))]
    pub fn world(&self, hart: u8) -> World
        requires { hart < 4 }
        ensures value { result ≡ worlds_of self.now hart }
        ensures is_world { IsWorld result }
    {
        self.parts.table.cite_invariant();
        self.parts.world(hart)
    }

    /// Returns whether a hart is marked: before it continues, it must load its entries and be woken.
    #[tactic(auto, unfolding(crate::specs::Cores::core_marks))]
    pub fn is_marked(&self, hart: u8) -> bool
        requires { hart < 4 }
        ensures { result ≡ core_marks self.now hart }
    {
        self.parts.is_marked(hart)
    }

    /// Returns the PMP entries that a hart should have: they mean the view of its world, and no list of any regions in
    /// any order that means that view is shorter.
    pub fn entries(&self, hart: u8) -> &[Entry]
        requires { hart < 4 }
        ensures fewest { IsFewest (current_view (core_kept self.now).table
            (worlds_of self.now hart))
            result.now }
        ensures room { length result.now ≤ limit_number (core_kept self.now).table.layout.limit }
        ensures value { result.now ≡ list_of (core_kept self.now) (worlds_of self.now hart) }
    {
        self.parts.entries(hart)
    }

    /// Returns the PMP entries of the host's view, or of the view of a live enclave, running or not.
    pub fn entries_of(&self, world: World) -> Option<&[Entry]>
        ensures none { IfNone result (IsNoWorld (core_kept self.now).table world) }
        ensures fewest { IfSome result (λ entries.
            IsFewest (current_view (core_kept self.now).table world) entries.now) }
        ensures room { IfSome result (λ entries.
            length entries.now ≤ limit_number (core_kept self.now).table.layout.limit) }
        ensures value { IfSome result (λ entries.
            entries.now ≡ list_of (core_kept self.now) world) }
    {
        self.parts.entries_of(world)
    }

    /// Returns the number of entries that the view of the world on a hart needs, which is the length of
    /// [`Core::entries`].
    pub fn used(&self, hart: u8) -> u64
        requires { hart < 4 }
        ensures { Needs (current_view (core_kept self.now).table (worlds_of self.now hart)) result }
    {
        self.parts.entries(hart).len() as u64
    }

    /// Removes the mark of a hart, which must load its entries before it continues. Nothing else changes.
    pub fn wake(&mut self, hart: u8)
        requires { hart < 4 }
        ensures state { (sets : Runner → RegisterFile)
            → core_state self.new sets ≡ without_mark (core_state self.old sets) hart }
        ensures kept { core_kept self.new ≡ core_kept self.old }
    {
        self.parts.clear_mark(hart);
    }

    /// Serves the call of the world on a hart, which these registers name; only a0 to a7 are read. It reports the
    /// changes of the register sets, whatever they contain. The caller then zeroes the pages in `zero`, reloads the
    /// entries of the hart if requested, and stops every other marked hart until that is woken. The hart then continues
    /// with the set of its world.
    pub fn serve<D: Digests>(
        &mut self,
        hart: u8,
        asked: &Registers,
        digests: &D,
        changes: &mut SetChanges,
    ) -> Served
        requires hart { hart < (core_kept self.old).table.layout.harts }
        requires awake { core_marks self.old hart ≡ false }
        ensures step { (sets : Runner → RegisterFile) → let s = core_state self.old sets in
            let file = past_call (running_registers s hart) in
            call_of (running_registers s hart) ≡ call_of asked.now
            → DoesCall (call_of file) (D.digest_of digests.now) (with_running s hart file) hart
            result.answer result.zero (core_state self.new (changed hart changes.new sets)) }
        ensures sets { AreOfSets changes.new }
        ensures load { (before after : Runner → RegisterFile)
            → LoadsAnew result.load (core_state self.old before) (core_state self.new after) hart }
        ensures others { (before after : Runner → RegisterFile)
            → KeepsOthers (core_state self.old before) (core_state self.new after) hart }
        ensures zeroed { IfSome result.zero (λ range.
            ClearsMemory (core_kept self.old).table.layout range) }
        ensures awake { core_marks self.new hart ≡ false }
        ensures platform { (core_kept self.new).table.layout ≡ (core_kept self.old).table.layout }
        ensures lists { (core_kept self.new).table ≡ (core_kept self.old).table
            → core_kept self.new ≡ core_kept self.old }
        ensures need { IsRefusedByNeed (call_of asked.now) (core_kept self.old).table
            (worlds_of self.old hart)
            (λ refusal. result.answer.status ≡ below_zero (refusal_number refusal)) }
    {
        self.parts.table.cite_invariant();
        self.parts.serve(hart, asked, digests, changes)
    }

    /// Sets the digest of a live enclave whose pages are measured after its creation. Nothing else changes.
    pub fn give_digest(&mut self, id: u64, digest: &[u8; 32])
        requires { (e : Enclave) × Live (core_kept self.old).table id e }
        ensures { (e : Enclave) (sets : Runner → RegisterFile)
            → Live (core_kept self.old).table id e
            → core_state self.new sets ≡ having_digest (core_state self.old sets) id e digest.now }
    {
        self.parts.give_digest(id, digest);
    }

    /// Serves the timer's interrupt on a hart: an enclave is stopped with its current registers, and the host continues
    /// there. In the host's world nothing changes. It reports the changes of the register sets, whatever they contain,
    /// and returns whether the hart's entries must be reloaded before it continues.
    pub fn interrupt(&mut self, hart: u8, changes: &mut SetChanges) -> bool
        requires hart { hart < (core_kept self.old).table.layout.harts }
        requires awake { core_marks self.old hart ≡ false }
        ensures step { (sets : Runner → RegisterFile) → let s = core_state self.old sets in
            Interrupts (s.worlds hart) s hart
            (core_state self.new (changed hart changes.new sets)) }
        ensures sets { AreOfSets changes.new }
        ensures load { (before after : Runner → RegisterFile)
            → LoadsAnew result (core_state self.old before) (core_state self.new after) hart }
        ensures others { (before after : Runner → RegisterFile)
            → KeepsOthers (core_state self.old before) (core_state self.new after) hart }
        ensures awake { core_marks self.new hart ≡ false }
        ensures platform { (core_kept self.new).table.layout ≡ (core_kept self.old).table.layout }
        ensures lists { (core_kept self.new).table ≡ (core_kept self.old).table
            → core_kept self.new ≡ core_kept self.old }
    {
        self.parts.pause(hart, changes)
    }
}
