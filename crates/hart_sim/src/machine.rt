//! The machine: the monitor's core, the harts, the saved registers, and memory.

ghost use Rattle.hart_sim.specs.Parts.{FitTogether};

use crate::hart_registers::registers_of;
use crate::parts::MachineParts;
use arrayvec::ArrayVec;
use hart_trace::{Event, Reply};
use monitor_core::{BootFault, Platform, Table, World};
use pmp_encoding::Bank;
use sbi_decode::Registers;
use std::alloc::Global;

/// A table of enclaves, one to four harts, and memory.
#[derive(Drop)]
pub struct Machine {
    pub(crate) parts: MachineParts,
    pub ghost fit: { FitTogether parts },
}

impl Machine {
    ghost use Rattle.std.specs.Prelude.{◌≡◌, ◌≢◌, ℕ, ◌^◌, ◌<◌, ◌≤◌, false, List, [], ◌∷◌, ◌++◌, IfOk, IfErr, Some};
    ghost use Rattle.pmp_encoding.specs.declared.bank.Bank.{Bank};
    ghost use Rattle.pmp_encoding.specs.declared.region.Entry.{Entry};
    ghost use Rattle.pmp_encoding.specs.Banks.{HasList};
    ghost use Rattle.pmp_encoding.specs.Limits.{limit_number};
    ghost use Rattle.pmp_match.specs.declared.access.Access.{Access};
    ghost use Rattle.enclave_table.specs.Boot.{IsBootFault, opening_table};
    ghost use Rattle.enclave_table.specs.Fewest.{FitsIn};
    ghost use Rattle.platforms.specs.Platform.{PlatformLayout, IsLayout};
    ghost use Rattle.enclave_table.specs.Views.{host_view};
    ghost use Rattle.hart_trace.specs.declared.event.Event.{Event};
    ghost use Rattle.hart_trace.specs.declared.reply.Reply.{Reply};
    ghost use Rattle.hart_sim.specs.Machines.{state_of, kept_of, bank_on, DoesByList, IsJudged, KeepsBanksRight, LoadsExactly};
    ghost use Rattle.hart_sim.specs.Banks.{MeetsList};
    ghost use Rattle.hart_sim.specs.Privacy.{KeepsPrivate, DeniesOthers, ZeroesDestroyed};
    ghost use Rattle.hart_sim.specs.After.{After, Happens};
    ghost use Rattle.hart_sim.specs.Promises.{AnswersByView};
    ghost use Rattle.hart_sim.specs.Wants.{RefusesByNeed};
    ghost use Rattle.hart_sim.specs.States.{opening_state};
    ghost use Rattle.hart_sim.specs.Steps.{IsEvent, Step};
    ghost use Rattle.sbi_decode.specs.Runners.{IsWorld, runner_of};

    /// Returns the PMP registers loaded on a hart.
    pub fn bank(&self, hart: u8) -> &Bank
        requires { hart < 4 }
        ensures bank { bank_on self.now hart ≡ Some result.now }
        ensures limit { limit_number result.now.limit
            ≡ limit_number (state_of self.now).table.layout.limit }
    {
        self.parts.bank(hart)
    }

    /// Returns the world on a hart.
    #[tactic(auto, unfolding(crate::specs::Machines::state_of, crate::specs::Machines::kept_of))]
    pub fn world(&self, hart: u8) -> World
        requires { hart < 4 }
        ensures { result ≡ (state_of self.now).worlds hart }
    {
        self.parts.core.world(hart)
    }

    /// Returns the registers of the world on a hart.
    pub fn registers(&self, hart: u8) -> &Registers
        requires { hart < 4 }
        ensures { let s = state_of self.now in
            result.now ≡ s.registers (runner_of hart (s.worlds hart)) }
    {
        self.parts.harts[hart as usize].registers()
    }

    /// Returns the registers of the host on a hart, or of an enclave by its id from 1 to 64, running or not.
    #[tactic(auto, unfolding(crate::specs::Machines::state_of, crate::specs::Machines::kept_of))]
    pub fn registers_of(&self, hart: u8, world: World) -> &Registers
        requires hart { hart < 4 }
        requires world { IsWorld world }
        ensures { result.now ≡ (state_of self.now).registers (runner_of hart world) }
    {
        registers_of(
            self.parts.harts.as_slice(),
            &self.parts.contexts,
            hart,
            world,
        )
    }

    /// Returns whether a hart is marked: it loads the host's entries before its next event.
    pub fn marked(&self, hart: u8) -> bool
        requires { hart < 4 }
        ensures { result ≡ (state_of self.now).marked hart }
    {
        self.parts.core.is_marked(hart)
    }

    /// Returns the byte at an address.
    #[tactic(auto, unfolding(crate::specs::Machines::state_of, crate::specs::Machines::kept_of))]
    pub fn byte(&self, address: u64) -> u8
        requires { address < 2 ^ 56 }
        ensures { result ≡ (state_of self.now).bytes address }
    {
        self.parts.memory.byte(address)
    }

    /// Returns whether a page was written since boot and not zeroed since. A store to any other page may allocate.
    #[tactic(auto, unfolding(crate::specs::Machines::state_of, crate::specs::Machines::kept_of))]
    pub fn is_written(&self, page: u64) -> bool
        requires { page < 2 ^ 44 }
        ensures { result ≡ (state_of self.now).written page }
    {
        self.parts.memory.is_written(page)
    }

    /// Returns the table of enclaves.
    #[tactic(auto, unfolding(crate::specs::Machines::state_of, crate::specs::Machines::kept_of))]
    pub fn table(&self) -> &Table
        ensures kept { result.now ≡ kept_of self.now }
        ensures state { result.now.table ≡ (state_of self.now).table }
    {
        self.parts.core.table()
    }

    /// Returns the number of harts.
    #[tactic(auto, unfolding(crate::specs::Machines::state_of, crate::specs::Machines::kept_of))]
    pub fn harts(&self) -> u8
        ensures value { result ≡ (state_of self.now).table.layout.harts }
        ensures some { 0 < result }
        ensures most { result ≤ 4 }
    {
        self.parts.core.harts()
    }

    /// Replaces the bank of a hart, as faulty hardware might. Nothing else changes. The guarantees about the entries on
    /// that hart are then void.
    #[tactic(auto, unfolding(crate::specs::Machines::state_of, crate::specs::Machines::kept_of))]
    pub fn set_bank(&mut self, hart: u8, bank: Bank)
        requires hart { hart < 4 }
        requires limit { limit_number bank.limit
            ≡ limit_number (state_of self.old).table.layout.limit }
        ensures bank { bank_on self.new hart ≡ Some bank }
        ensures others { (other : ℕ) → other ≢ hart
            → bank_on self.new other ≡ bank_on self.old other }
        ensures state { state_of self.new ≡ state_of self.old }
        ensures table { kept_of self.new ≡ kept_of self.old }
    {
        self.parts.put_bank(hart, bank);
    }

    /// Boots the machine of a platform: no enclave, each hart in the host's world with the fewest entries of its view.
    /// Fails if that view needs more entries than a hart of the platform has, or if an allocation fails.
    pub fn boot(alloc: Global, platform: Platform) -> Result<Machine, BootFault>
        ensures after { IfOk result (λ m. After platform [] [] m) }
        ensures rules { IfOk result (λ _. IsLayout platform) }
        ensures state { IfOk result (λ m. state_of m ≡ opening_state platform) }
        ensures kept { IfOk result (λ m. KeepsBanksRight m) }
        ensures fits { IfOk result (λ _. FitsIn platform.limit
            (host_view (opening_table platform))) }
        ensures fault { IfErr result (λ fault. IsBootFault platform fault) }
    {
        match MachineParts::boot(alloc, platform) {
            Ok(parts) => Ok(Machine { parts }),
            Err(fault) => Err(fault),
        }
    }

    /// Performs an event on a hart, numbered from 0. On every machine an access is decided by the list that it meets,
    /// and if entries are loaded, the bank becomes `Bank::of` them. From boot on, unless a bank has been replaced, the
    /// event is answered according to the state, and each hart that is not marked has the fewest entries of the view of
    /// its world.
    #[inline(always)]
    pub fn step(&mut self, hart: u8, event: Event) -> Reply
        requires hart { hart < (state_of self.old).table.layout.harts }
        requires event { IsEvent event }
        ensures judged { IsJudged self.old hart event result }
        ensures does { DoesByList self.old hart event result self.new }
        ensures loaded { (access : Access) (value : ℕ) (list : List Entry) (bank : Bank)
            → event ≡ Event.Access access value
            → MeetsList (state_of self.old) (kept_of self.old) (bank_on self.old) hart list
            → bank_on self.new hart ≡ Some bank → HasList bank list }
        ensures step { KeepsBanksRight self.old
            → Step (state_of self.old) hart event result (state_of self.new) }
        ensures kept { KeepsBanksRight self.old → KeepsBanksRight self.new }
        ensures others { (other : ℕ) → other ≢ hart
            → bank_on self.new other ≡ bank_on self.old other }
        ensures stays { (state_of self.old).marked hart ≡ false
            → (state_of self.new).table ≡ (state_of self.old).table
            → (state_of self.new).worlds hart ≡ (state_of self.old).worlds hart
            → bank_on self.new hart ≡ bank_on self.old hart }
        ensures exact { LoadsExactly self.old hart self.new }
        ensures lists { (state_of self.new).table ≡ (state_of self.old).table
            → kept_of self.new ≡ kept_of self.old }
        ensures platform { (state_of self.new).table.layout ≡ (state_of self.old).table.layout }
        ensures allowed { KeepsBanksRight self.old
            → AnswersByView (state_of self.old) hart event result }
        ensures denied { KeepsBanksRight self.old
            → DeniesOthers (state_of self.old) hart event result }
        ensures destroyed { KeepsBanksRight self.old
            → ZeroesDestroyed (state_of self.old) (state_of self.new) }
        ensures private { KeepsBanksRight self.old
            → KeepsPrivate (state_of self.old) hart event result (state_of self.new) }
        ensures entries { KeepsBanksRight self.old
            → RefusesByNeed (state_of self.old) hart event result }
        ensures happens { KeepsBanksRight self.old
            → Happens self.old hart event result self.new }
        ensures after { (platform : PlatformLayout) (events : List (ℕ × Event))
            (replies : List Reply)
            → After platform events replies self.old
            → After platform (events ++ (hart, event) ∷ []) (replies ++ result ∷ []) self.new }
    {
        self.parts.core.cite_invariant();
        self.parts.step(hart, event)
    }

    /// Performs a call on a hart, as [`Machine::step`] does. The words are borrowed, because an event would copy them.
    #[inline(always)]
    pub(crate) fn call(&mut self, hart: u8, words: &ArrayVec<u64, 8>) -> Reply
        requires { hart < (state_of self.old).table.layout.harts }
        ensures happens { KeepsBanksRight self.old
            → Happens self.old hart (Event.Ecall words.now) result self.new }
        ensures kept { KeepsBanksRight self.old → KeepsBanksRight self.new }
    {
        self.parts.core.cite_invariant();
        self.parts.call(hart, words)
    }
}
