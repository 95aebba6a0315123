//! The width of a hart's registers.

ghost use Rattle.std.specs.Prelude.{◌≡◌, ◌+◌, ◌-◌, ◌/◌, ◌<◌, ◌≤◌, ◌↔◌, true};
ghost use Rattle.std.specs.List.{list_all};
ghost use Rattle.pmp_encoding.specs.Limits.{limit_number};
ghost use Rattle.pmp_encoding.specs.Widths.{fits, is_near, register_digits, space_end, whole_word, word_count, word_entries, word_number, AreReached};

use crate::{Limit, PackedEntry};

/// The width of a hart's registers.
#[derive(Clone, Copy, PartialEq, Eq, Debug)]
pub enum Xlen {
    /// 32 bits.
    Rv32,
    /// 64 bits.
    Rv64,
}

/// Returns whether a region ends within the space that 32-bit address registers can express.
fn is_near(entry: &PackedEntry) -> bool
    ensures { result ≡ is_near entry.now }
{
    let region = entry.region();
    region.base() + (1 << region.log2()) <= 1 << 34
}

fn are_near(entries: &[PackedEntry]) -> bool
    ensures { result ≡ list_all is_near entries.now }
{
    entries.iter().all(|entry| is_near(entry))
}

impl Xlen {
    /// Returns the number of hexadecimal digits of a register.
    pub fn digits(self) -> u8
        ensures value { result ≡ register_digits self }
        ensures most { result ≤ 16 }
    {
        match self {
            Xlen::Rv32 => 8,
            Xlen::Rv64 => 16,
        }
    }

    /// Returns whether a register can hold the number.
    pub fn fits(self, value: u64) -> bool
        ensures { result ≡ fits self value }
    {
        match self {
            Xlen::Rv32 => value < 1 << 32,
            Xlen::Rv64 => true,
        }
    }

    /// Returns the end of the physical address space.
    pub fn space_end(self) -> u64
        ensures { result ≡ space_end self }
    {
        match self {
            Xlen::Rv32 => 1 << 34,
            Xlen::Rv64 => 1 << 56,
        }
    }

    /// Returns the number of entries configured by one word.
    pub fn word_entries(self) -> u8
        ensures value { result ≡ word_entries self }
        ensures some { 0 < result }
        ensures most { result ≤ 8 }
    {
        match self {
            Xlen::Rv32 => 4,
            Xlen::Rv64 => 8,
        }
    }

    /// Returns the number of configuration words for this many entries.
    pub fn words(self, limit: Limit) -> usize
        ensures value { result ≡ word_count self limit }
        ensures most { result ≤ 16 }
    {
        match self {
            Xlen::Rv32 => 2 * limit.words(),
            Xlen::Rv64 => limit.words(),
        }
    }

    /// Returns the number in the name of the i-th configuration word.
    pub fn word_number(self, i: usize) -> u64
        requires { i < 64 }
        ensures { result ≡ word_number self i }
    {
        match self {
            Xlen::Rv32 => i as u64,
            Xlen::Rv64 => 2 * i as u64,
        }
    }

    /// Returns the position of the word that contains the byte of an entry.
    pub fn word_of(self, entry: u8) -> usize
        ensures value { result ≡ entry / word_entries self }
        ensures most { result < 64 }
    {
        match self {
            Xlen::Rv32 => usize::from(entry / 4),
            Xlen::Rv64 => usize::from(entry / 8),
        }
    }

    /// Returns the position of the first word that contains no byte of an entry below `first`.
    pub fn whole_word(self, first: u8) -> usize
        ensures value { result ≡ whole_word self first }
        ensures most { result ≤ 64 }
    {
        match self {
            Xlen::Rv32 => (usize::from(first) + 3) / 4,
            Xlen::Rv64 => (usize::from(first) + 7) / 8,
        }
    }

    /// Returns whether the hart's address registers can express the regions of all these entries.
    pub fn reaches(self, entries: &[PackedEntry]) -> bool
        ensures { (result ≡ true) ↔ AreReached self entries.now }
    {
        match self {
            Xlen::Rv32 => are_near(entries),
            Xlen::Rv64 => true,
        }
    }
}
