//! The PMP registers of a hart.

ghost use Rattle.pmp_encoding.specs.Registers.{AreRegisters};
ghost use Rattle.pmp_encoding.specs.Extents.{AreExtents};
ghost use Rattle.pmp_encoding.specs.Limits.{limit_number};

use crate::csr::{Csr, csr_of, fault_of_word};
use crate::extent::Extent;
use crate::fault::EncodingFault;
use crate::limit::Limit;
use crate::packed_entry::PackedEntry;
use crate::perm::Perm;
use crate::region::Entry;
use crate::register_pair::decode;

/// The PMP registers of a hart: eight configuration words pmpcfg0, pmpcfg2, .. pmpcfg14 of eight bytes each, lowest
/// byte first, and 64 address registers. No pair in a bank has a fault. With a limit of sixteen, each pair after the
/// sixteenth is zero, which is OFF. (RISC-V Privileged Architecture, Physical Memory Protection CSRs)
#[derive(Clone, Copy, PartialEq, Eq)]
pub struct Bank {
    limit: Limit,
    words: [u64; 8],
    addresses: [u64; 64],
    /// The extents of the entries in order, each decoded once. Those from `used` on are unused.
    extents: [Extent; 64],
    used: usize,
    pub ghost registers: { AreRegisters limit words addresses },
    pub ghost decoded: { AreExtents words addresses (limit_number limit) extents used },
}

/// Fills the unused places of `extents`.
const NOWHERE: Extent = Extent {
    base: 0,
    end: 0,
    perm: Perm::NoAccess,
};

impl Bank {
    ghost use Rattle.std.specs.Prelude.{◌≡◌, ◌%◌, ◌*◌, ◌^◌, ◌<◌, ◌≤◌, ◌↔◌, length, MatchOption, MatchResult, OnOk, OnErr, ℕ, List, map};
    ghost use Rattle.pmp_encoding.specs.declared.region.Entry.{Entry};
    ghost use Rattle.pmp_encoding.specs.Encoding.{IsOff, MeansEntry};
    ghost use Rattle.pmp_encoding.specs.Extents.{extent_of};
    ghost use Rattle.pmp_encoding.specs.Csrs.{IsCfgCsr, IsAddressCsr, IsCsr, IsFaultlessWord, IsFaultOfWord, WritesWord, WritesAddress};
    ghost use Rattle.pmp_encoding.specs.Banks.{word_at, cfg_at, address_at, HasList, IsBankOf};

    /// Returns the bank whose entries 0, 1, .. are `entries`, each as its canonical pair; all other pairs are OFF with
    /// address 0.
    pub fn of(entries: &[Entry], limit: Limit) -> Bank
        requires { length entries.now ≤ limit_number limit }
        ensures list { HasList result entries.now }
        ensures registers { IsBankOf result limit entries.now }
    {
        let mut bank = Bank::empty(limit);
        bank.load(entries);
        bank
    }

    /// As [`Bank::of`], for packed entries.
    pub fn of_packed(entries: &[PackedEntry], limit: Limit) -> Bank
        requires { length entries.now ≤ limit_number limit }
        ensures list { HasList result entries.now }
        ensures registers { IsBankOf result limit entries.now }
    {
        let list = unpacked(entries);
        Bank::of(&list[..entries.len()], limit)
    }

    /// Returns the bank without entries.
    fn empty(limit: Limit) -> Bank
        ensures { result.limit ≡ limit }
    {
        Bank {
            limit,
            words: [0; 8],
            addresses: [0; 64],
            extents: [NOWHERE; 64],
            used: 0,
        }
    }

    /// Sets entries 0, 1, .. to `entries`, each as its canonical pair, and all others to OFF with address 0. The limit
    /// stays.
    pub fn load(&mut self, entries: &[Entry])
        requires { length entries.now ≤ limit_number self.old.limit }
        ensures list { HasList self.new entries.now }
        ensures registers { IsBankOf self.new self.old.limit entries.now }
    {
        clear(&mut self.addresses, self.limit);
        fill(
            &mut self.words,
            &mut self.addresses,
            &mut self.extents,
            entries,
        );
        self.used = entries.len();
    }

    /// Returns the bank with these registers.
    fn holding(limit: Limit, words: [u64; 8], addresses: [u64; 64]) -> Bank
        requires { AreRegisters limit words addresses }
        ensures limit { result.limit ≡ limit }
        ensures words { result.words ≡ words }
        ensures addresses { result.addresses ≡ addresses }
    {
        let mut extents = [NOWHERE; 64];
        let mut used = 0;
        let count = limit.number() as usize;
        for i in 0..count {
            let cfg = byte_of(words[i / 8], i % 8);
            if let Some(entry) = entry_of(cfg, addresses[i]) {
                extents[used].put(&entry);
                used += 1;
            }
        }
        Bank {
            limit,
            words,
            addresses,
            extents,
            used,
        }
    }

    /// Returns the number of entries of the bank.
    pub fn limit(&self) -> Limit
        ensures { result ≡ self.now.limit }
    {
        self.limit
    }

    /// Returns the word pmpcfg(k). On RV64 only even-numbered configuration words exist.
    pub fn cfg(&self, k: usize) -> u64
        requires even { k % 2 ≡ 0 }
        requires there { k < 16 }
        ensures { result ≡ word_at self.now k }
    {
        let word = k / 2;
        self.words[word]
    }

    /// Returns pmpcfg0, which configures entries 0 to 7.
    pub fn cfg0(&self) -> u64
        ensures { result ≡ word_at self.now 0 }
    {
        self.words[0]
    }

    /// Returns pmpcfg2, which configures entries 8 to 15.
    pub fn cfg2(&self) -> u64
        ensures { result ≡ word_at self.now 2 }
    {
        self.words[1]
    }

    /// Returns the address register of entry i.
    pub fn addr(&self, i: usize) -> u64
        requires { i < 64 }
        ensures { result ≡ address_at self.now i }
    {
        self.addresses[i]
    }

    /// Decodes entry i, or returns `None` if it is OFF.
    pub fn entry(&self, i: usize) -> Option<Entry>
        requires { i < 64 }
        ensures { MatchOption result (IsOff (cfg_at self.now i) (address_at self.now i))
            (MeansEntry (cfg_at self.now i) (address_at self.now i)) }
    {
        entry_of(byte_of(self.words[i / 8], i % 8), self.addr(i))
    }

    /// Returns the extents that accesses are matched against: those of the pairs below the limit, in order, without the
    /// pairs that are OFF.
    pub fn extents(&self) -> &[Extent]
        ensures { (entries : List Entry) → HasList self.now entries
            → result.now ≡ map extent_of entries }
    {
        &self.extents[..self.used]
    }

    /// Writes the CSR of this number, as the instruction csrw does. Fails with the fault of the lowest faulty byte of a
    /// configuration word, with `AddressBits` for an address of 2^54 or more, and with `NoSuchCsr` if the bank has no
    /// CSR of this number. On failure the bank is unchanged.
    pub fn write_csr(&mut self, number: u16, value: u64) -> Result<(), EncodingFault>
        ensures unknown { (result ≡ Err EncodingFault.NoSuchCsr)
            ↔ (¬ IsCsr self.old.limit number) }
        ensures wide { (result ≡ Err EncodingFault.AddressBits)
            ↔ ((i : ℕ) × IsAddressCsr self.old.limit number i × (2 ^ 54 ≤ value)) }

        // A configuration word.
        ensures word { (k : ℕ) → IsCfgCsr self.old.limit number k
            → MatchResult result (λ _. IsFaultlessWord value) (IsFaultOfWord value) }
        ensures word_written { OnOk result ((k : ℕ) → IsCfgCsr self.old.limit number k
            → WritesWord self.old self.new k value) }

        // An address register.
        ensures address { (i : ℕ) → IsAddressCsr self.old.limit number i
            → MatchResult result (λ _. value < 2 ^ 54) (λ f. f ≡ EncodingFault.AddressBits) }
        ensures address_written { OnOk result ((i : ℕ)
            → IsAddressCsr self.old.limit number i
            → WritesAddress self.old self.new i value) }

        ensures err { OnErr result (self.new ≡ self.old) }
    {
        match csr_of(self.limit, number) {
            Some(Csr::Cfg(k)) => {
                if let Some(fault) = fault_of_word(value) {
                    return Err(fault);
                }
                self.put_word(k, value);
                Ok(())
            }
            Some(Csr::Address(i)) => {
                if value >= 1 << 54 {
                    return Err(EncodingFault::AddressBits);
                }
                self.put_address(i, value);
                Ok(())
            }
            None => Err(EncodingFault::NoSuchCsr),
        }
    }

    fn put_word(&mut self, k: usize, value: u64)
        requires even { k % 2 ≡ 0 }
        requires there { 4 * k < limit_number self.old.limit }
        requires clean { IsFaultlessWord value }
        ensures { WritesWord self.old self.new k value }
    {
        let mut words = self.words;
        words[k / 2] = value;
        *self = Bank::holding(self.limit, words, self.addresses);
    }

    fn put_address(&mut self, i: usize, value: u64)
        requires there { i < limit_number self.old.limit }
        requires small { value < 2 ^ 54 }
        ensures { WritesAddress self.old self.new i value }
    {
        let mut addresses = self.addresses;
        addresses[i] = value;
        *self = Bank::holding(self.limit, self.words, addresses);
    }
}

ghost use Rattle.std.specs.Prelude.{◌≡◌, ◌≢◌, ◌+◌, ◌*◌, ◌^◌, ◌<◌, ◌≤◌, ℕ, length, map, slice_index, take, MatchOption};
ghost use Rattle.pmp_encoding.specs.Encoding.{IsOff, MeansEntry};
ghost use Rattle.pmp_encoding.specs.Extents.{extent_of};
ghost use Rattle.pmp_encoding.specs.Filled.{AreZero, IsFilled};
ghost use Rattle.pmp_encoding.specs.Faults.{IsFaultless};
ghost use Rattle.pmp_encoding.specs.Registers.{byte_of};

/// Returns byte j of a word, counted from the lowest.
pub(crate) fn byte_of(word: u64, j: usize) -> u8
    requires { j < 8 }
    ensures { result ≡ byte_of word j }
{
    ((word >> (8 * j)) % 256) as u8
}

/// Decodes a pair without a fault.
fn entry_of(cfg: u8, address: u64) -> Option<Entry>
    requires { IsFaultless cfg address }
    ensures { MatchOption result (IsOff cfg address) (MeansEntry cfg address) }
{
    // Most pairs are OFF and need no decoding.
    if cfg == 0 {
        return None;
    }
    match decode(cfg, address) {
        Ok(entry) => entry,
        Err(_) => unreachable!(),
    }
}

/// Zeroes the address registers. Those from the limit on are zero already.
fn clear(addresses: &mut [u64; 64], limit: Limit)
    requires unused { (i : ℕ) → limit_number limit ≤ i → i < 64
        → slice_index addresses.old i ≡ 0 }
    ensures { AreZero addresses.new }
{
    match limit {
        Limit::Sixteen => addresses[..16].copy_from_slice(&[0; 16]),
        Limit::SixtyFour => *addresses = [0; 64],
    }
}

/// Fills the registers with the canonical pairs of `entries` and with zeros after them, and decodes each entry into
/// `extents`. The current word and the current entry are kept in variables: read back from memory, each entry would
/// wait for the store of the previous one.
fn fill(
    words: &mut [u64; 8],
    addresses: &mut [u64; 64],
    extents: &mut [Extent; 64],
    entries: &[Entry],
)
    requires few { length entries.now ≤ 64 }
    requires cleared { AreZero addresses.old }
    ensures registers { IsFilled entries.now words.new addresses.new (length entries.now) }
    ensures room { length extents.new ≡ 64 }
    ensures in_order { take (length entries.now) extents.new ≡ map extent_of entries.now }
{
    *words = [0; 8];
    let mut word = 0;
    for (i, entry) in entries.iter().enumerate() {
        let entry = *entry;
        let (cfg, address) = entry.encode();
        if i % 8 == 0 {
            word = 0;
        }
        word = with_byte(word, i % 8, cfg);
        words[i / 8] = word;
        addresses[i] = address;
        extents[i].put(&entry);
    }
}

/// Unpacks the entries to the start of an array of 64.
fn unpacked(entries: &[PackedEntry]) -> [Entry; 64]
    requires { length entries.now ≤ 64 }
    ensures room { length result ≡ 64 }
    ensures in_order { take (length entries.now) result ≡ entries.now }
{
    let mut list = [Entry::default(); 64];
    for (i, entry) in entries.iter().enumerate() {
        list[i] = entry.entry();
    }
    list
}

/// Sets byte j of a word whose bytes from j on are zero.
fn with_byte(word: u64, j: usize, byte: u8) -> u64
    requires place { j < 8 }
    requires above { word < 2 ^ (8 * j) }
    ensures here { byte_of result j ≡ byte }
    ensures others { (k : ℕ) → k ≢ j → byte_of result k ≡ byte_of word k }
    ensures small { result < 2 ^ (8 * (j + 1)) }
{
    word + (u64::from(byte) << (8 * j))
}
