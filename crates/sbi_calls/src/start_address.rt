//! The addresses where a hart may begin.

ghost use Rattle.std.specs.Prelude.{◌≡◌, ◌^◌, ◌<◌, Bool};
ghost use Rattle.sbi_calls.specs.StartAddresses.{IsExecutable, answer_of, fetch_at};

use crate::bank_words::BankWords;
use pmp_encoding::{Entry, decode};
use pmp_match::{Access, Kind, Mode, extent_of, holds, touches};

/// The size of the physical address space in bytes.
const SPACE: u64 = 1 << 56;

/// The first fetch of supervisor mode at an address: two bytes, the size of the shortest instruction.
fn fetch_at(address: u64) -> Access
    ensures { result ≡ fetch_at address }
{
    Access {
        mode: Mode::Supervisor,
        kind: Kind::Fetch,
        size: 2,
        address,
    }
}

/// Decides a fetch by one entry; `below` is the decision of the entries after it.
fn answer_of(entry: &Entry, access: &Access, below: bool) -> bool
    requires { access.now.address < 2 ^ 56 }
    ensures { result ≡ answer_of entry.now access.now below }
{
    let extent = extent_of(entry);
    if !touches(&extent, access) {
        return below;
    }
    let end = access.address + u64::from(access.size);
    extent.base <= access.address && end <= extent.end && holds(extent.perm, access.kind)
}

/// Returns the configuration byte of an entry.
fn cfg_of(bank: &BankWords, place: usize) -> u8
    requires { place < 64 }
    ensures { result ≡ cfg_byte bank.now.cfg place }
{
    ((bank.cfg[place / 8] >> (8 * (place % 8))) % 256) as u8
}

/// Decides a fetch by the entries from `place` on; `below` is the decision of the entries after it. A register pair
/// that encodes no entry denies the fetch.
fn answer_from(bank: &BankWords, place: usize, address: u64, below: bool) -> bool
    requires place { place < 64 }
    requires address { address < 2 ^ 56 }
    ensures list { (pairs : List (ℕ × ℕ)) → ListsAnswer pairs address below
        → ListsAnswer (pair_at bank.now place ∷ pairs) address result }
    ensures first { (pairs : List (ℕ × ℕ)) → (below ≡ true) ↔ FirstAllow pairs address
        → (result ≡ true) ↔ FirstAllow (pair_at bank.now place ∷ pairs) address }
{
    match decode(cfg_of(bank, place), bank.addr[place]) {
        Ok(Some(entry)) => answer_of(&entry, &fetch_at(address), below),
        Ok(None) => below,
        Err(_) => false,
    }
}

/// Returns whether supervisor mode may execute at an address under the PMP entries of a hart: the first entry that
/// matches decides, and without a match the fetch is denied. A pair that encodes no entry denies the fetch, as do the
/// pairs after it. An odd address holds no instruction. (SBI, chapter 9, "Hart start": SBI_ERR_INVALID_ADDRESS)
#[inline(never)]
pub fn is_executable(bank: &BankWords, address: u64) -> bool
    ensures { IsExecutable bank.now address result }
{
    if address % 2 != 0 || address >= SPACE {
        return false;
    }
    let mut answer = false;
    for after in 0..64 {
        answer = answer_from(bank, 63 - after, address, answer);
    }
    answer
}

ghost use Rattle.std.specs.Prelude.{ℕ, List, ◌∷◌, ◌↔◌, true};
ghost use Rattle.pmp_encoding.specs.Registers.{cfg_byte};
ghost use Rattle.sbi_calls.specs.StartAddresses.{FirstAllow, ListsAnswer, pair_at};
