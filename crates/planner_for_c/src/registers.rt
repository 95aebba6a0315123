//! The PMP registers in C's layout.

ghost use Rattle.std.specs.Prelude.{◌≡◌, ◌*◌, ◌<◌, ◌≤◌, ℕ, length, slice_index};
ghost use Rattle.pmp_encoding.specs.Banks.{address_at, word_at};
ghost use Rattle.planner_for_c.specs.Registers.{HoldsList};

use pmp_encoding::{Bank, Limit, PackedEntry};

/// The registers of sixty-four entries. A hart with fewer has the first of them.
#[repr(C)]
#[derive(Clone, Copy, Drop)]
pub struct Registers {
    /// pmpcfg0, pmpcfg2, .. pmpcfg14: word i is pmpcfg(2 * i).
    pub cfg: [u64; 8],
    /// pmpaddr0 to pmpaddr63.
    pub addr: [u64; 64],
}

fn put_words(bank: &Bank, cfg: &mut [u64; 8])
    ensures { (i : ℕ) → i < 8 → slice_index cfg.new i ≡ word_at bank.now (2 * i) }
{
    for i in 0..8 {
        cfg[i] = bank.cfg(2 * i);
    }
}

fn put_addresses(bank: &Bank, addr: &mut [u64; 64])
    ensures { (i : ℕ) → i < 64 → slice_index addr.new i ≡ address_at bank.now i }
{
    for i in 0..64 {
        addr[i] = bank.addr(i);
    }
}

impl Registers {
    /// Stores the entries as their canonical pairs, and zero after them.
    pub(crate) fn put(&mut self, entries: &[PackedEntry])
        requires { length entries.now ≤ 64 }
        ensures { HoldsList self.new entries.now }
    {
        let bank = Bank::of_packed(entries, Limit::SixtyFour);
        put_words(&bank, &mut self.cfg);
        put_addresses(&bank, &mut self.addr);
    }
}
