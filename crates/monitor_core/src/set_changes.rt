//! The changes of register sets by a call or an interrupt on a hart.
//!
//! The caller of the monitor stores the sets. A change is applied word by word, because RV64 code copies a whole set
//! byte by byte.

use crate::call_registers::{first_registers, go_past_call, put_answer};
use sbi_decode::{Registers, World};

/// The kind of a change of one register set.
#[derive(Clone, Copy, PartialEq, Eq)]
pub enum ChangeKind {
    /// No change.
    Nothing,
    /// The pc advances past the call instruction, which is four bytes long.
    PastCall,
    /// Two words go to a0 and a1.
    Answer,
    /// The set becomes that of a first entry: a word in the pc, the enclave's id in a0, and zero in each other
    /// register.
    Begin,
    /// Every register and the pc become zero.
    Clear,
}

/// A change of one register set: the set and the kind of the change. No other set changes.
#[derive(Clone, Copy)]
pub struct SetChange {
    pub kind: ChangeKind,
    /// The owner of the set: an enclave by its id, 1 to 64, or 0 for the hart's host.
    pub enclave: u64,
    /// The word for a0, or the pc of a first entry.
    pub first: u64,
    /// The word for a1.
    pub second: u64,
}

/// Up to three changes in order.
#[derive(Clone, Copy)]
pub struct SetChanges {
    pub first: SetChange,
    pub second: SetChange,
    pub third: SetChange,
}

impl SetChange {
    ghost use Rattle.std.specs.Prelude.{◌≡◌, ◌≤◌, ℕ};
    ghost use Rattle.sbi_decode.specs.Runners.{IsWorld, runner_of};
    ghost use Rattle.monitor_core.specs.SetChanges.{change, no_change, owner_of};
    ghost use Rattle.monitor_core.specs.declared.set_changes.ChangeKind.TheVariants as kinds;

    /// Returns an empty change.
    fn none() -> SetChange
        ensures { result ≡ no_change }
    {
        SetChange {
            kind: ChangeKind::Nothing,
            enclave: 0,
            first: 0,
            second: 0,
        }
    }

    /// Returns the world whose set changes, on the hart of the event.
    pub fn world(&self) -> World
        requires { self.now.enclave ≤ 64 }
        ensures owner { (hart : ℕ) → runner_of hart result ≡ owner_of hart self.now.enclave }
        ensures known { IsWorld result }
    {
        if self.enclave == 0 {
            return World::Host;
        }
        World::Enclave(self.enclave)
    }

    /// Applies the change to the set that it names.
    pub fn apply(&self, set: &mut Registers)
        ensures { (hart : ℕ) → set.new
            ≡ change hart self.now (λ who. set.old) (owner_of hart self.now.enclave) }
    {
        match self.kind {
            ChangeKind::Nothing => {}
            ChangeKind::PastCall => go_past_call(set),
            ChangeKind::Answer => put_answer(set, self.first, self.second),
            ChangeKind::Begin => *set = first_registers(self.first, self.enclave),
            ChangeKind::Clear => *set = Registers::new(),
        }
    }

    /// Makes the change empty.
    pub(crate) fn nothing(&mut self)
        ensures kind { self.new.kind ≡ kinds.Nothing }
        ensures enclave { self.new.enclave ≡ 0 }
    {
        self.kind = ChangeKind::Nothing;
        self.enclave = 0;
    }

    /// Makes the change advance a set past a call instruction.
    pub(crate) fn past_call(&mut self, enclave: u64)
        ensures kind { self.new.kind ≡ kinds.PastCall }
        ensures enclave { self.new.enclave ≡ enclave }
    {
        self.kind = ChangeKind::PastCall;
        self.enclave = enclave;
    }

    /// Makes the change write two words to a0 and a1 of a set.
    pub(crate) fn answer(&mut self, enclave: u64, first: u64, second: u64)
        ensures { self.new ≡ record {
          kind = kinds.Answer;
          enclave = enclave;
          first = first;
          second = second;
        } }
    {
        self.kind = ChangeKind::Answer;
        self.enclave = enclave;
        self.first = first;
        self.second = second;
    }

    /// Makes the change turn a set into that of a first entry.
    pub(crate) fn begin(&mut self, id: u64, pc: u64)
        ensures kind { self.new.kind ≡ kinds.Begin }
        ensures enclave { self.new.enclave ≡ id }
        ensures pc { self.new.first ≡ pc }
    {
        self.kind = ChangeKind::Begin;
        self.enclave = id;
        self.first = pc;
    }

    /// Makes the change zero a set.
    pub(crate) fn clear(&mut self, id: u64)
        ensures kind { self.new.kind ≡ kinds.Clear }
        ensures enclave { self.new.enclave ≡ id }
    {
        self.kind = ChangeKind::Clear;
        self.enclave = id;
    }
}

impl SetChanges {
    ghost use Rattle.std.specs.Prelude.{◌≡◌};
    ghost use Rattle.monitor_core.specs.SetChanges.{no_change};

    /// Returns no changes.
    pub fn none() -> SetChanges
        ensures first { result.first ≡ no_change }
        ensures second { result.second ≡ no_change }
        ensures third { result.third ≡ no_change }
    {
        SetChanges {
            first: SetChange::none(),
            second: SetChange::none(),
            third: SetChange::none(),
        }
    }
}
