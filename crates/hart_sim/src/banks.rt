//! The banks: the entries loaded on a hart.

use crate::parts::MachineParts;
use pmp_encoding::Bank;

impl MachineParts {
    ghost use Rattle.std.specs.Prelude.{◌≡◌, ◌≢◌, ℕ, ◌<◌, true, false, Some};
    ghost use Rattle.pmp_encoding.specs.declared.bank.Bank.{Bank};
    ghost use Rattle.pmp_encoding.specs.Banks.{HasList};
    ghost use Rattle.pmp_encoding.specs.Limits.{limit_number};
    ghost use Rattle.monitor_core.specs.Cores.{core_kept};
    ghost use Rattle.monitor_core.specs.Changes.{without_mark};
    ghost use Rattle.hart_sim.specs.Frames.{IsOn, KeepsFrame};
    ghost use Rattle.hart_sim.specs.Parts.{FitTogether, state_in, bank_in};
    ghost use Rattle.hart_sim.specs.States.{core_of, with_core};

    /// Returns the bank of a hart.
    pub(crate) fn bank(&self, hart: u8) -> &Bank
        requires { hart < 4 }
        ensures { bank_in self.now hart ≡ Some result.now }
    {
        self.harts[hart as usize].bank()
    }

    /// Replaces the bank of a hart and nothing else.
    pub(crate) fn put_bank(&mut self, hart: u8, bank: Bank)
        requires hart { hart < 4 }
        requires fit { FitTogether self.old }
        requires limit { limit_number bank.limit
            ≡ limit_number (state_in self.old).table.layout.limit }
        ensures bank { bank_in self.new hart ≡ Some bank }
        ensures others { (other : ℕ) → other ≢ hart
            → bank_in self.new other ≡ bank_in self.old other }
        ensures fit { FitTogether self.new }
        ensures state { state_in self.new ≡ state_in self.old }
        ensures kept { core_kept self.new.core ≡ core_kept self.old.core }
    {
        self.harts[hart as usize].put_bank(bank);
    }

    /// Loads the host's entries on the hart and removes its mark, if it is marked.
    #[inline(always)]
    pub(crate) fn wake(&mut self, hart: u8)
        requires on { IsOn self.old hart }
        requires few { hart < 4 }
        ensures frame { KeepsFrame self.old self.new hart }
        ensures state { let s = state_in self.old in
            state_in self.new ≡ with_core s (without_mark (core_of s) hart) }
        ensures asleep { (state_in self.old).marked hart ≡ false
            → self.new.harts ≡ self.old.harts }
        ensures woken { (state_in self.old).marked hart ≡ true
            → (bank : Bank) × (bank_in self.new hart ≡ Some bank)
            × HasList bank (core_kept self.old.core).host_list }
        ensures kept { core_kept self.new.core ≡ core_kept self.old.core }
    {
        if !self.core.is_marked(hart) {
            return;
        }
        self.core.cite_invariant();
        let here = &mut self.harts[hart as usize];
        here.load(self.core.entries(hart));
        self.core.wake(hart);
    }
}
