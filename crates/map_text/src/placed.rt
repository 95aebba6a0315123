//! Entries placed on a hart, starting at one of the hart's entries.

ghost use Rattle.std.specs.Prelude.{◌≡◌, ◌+◌, ◌-◌, ◌<◌, map};
ghost use Rattle.std.specs.Int.{from_le_bytes, w32, w64};
ghost use Rattle.pmp_encoding.specs.Limits.{limit_number};
ghost use Rattle.map_text.specs.Placed.{cfg_from, entry_from, places_in_word, word_from};

use crate::listed_entry::{ChainedEntry, ListedEntry};
use pmp_encoding::{Limit, Xlen};

/// Returns entry i of the hart.
pub fn entry_from<E: ListedEntry>(entries: &[E], first: u8, i: usize) -> Option<ChainedEntry>
    ensures { result ≡ entry_from first (map E.listed entries.now) i }
{
    let first = usize::from(first);
    if i < first {
        return None;
    }
    match entries.get(i - first) {
        Some(entry) => Some(entry.listed()),
        None => None,
    }
}

/// Returns the configuration byte of entry i of the hart.
fn cfg_from<E: ListedEntry>(entries: &[E], first: u8, i: usize) -> u8
    ensures { result ≡ cfg_from first (map E.listed entries.now) i }
{
    match entry_from(entries, first, i) {
        Some(entry) => entry.registers().0,
        None => 0,
    }
}

/// Returns a word of 32 bits, whose first byte is that of entry `at`.
fn short_word<E: ListedEntry>(entries: &[E], first: u8, at: usize) -> u64
    requires { at < 256 }
    ensures { result ≡ from_le_bytes w32
        (map (λ j. cfg_from first (map E.listed entries.now) (at + j))
        (places_in_word Xlen.Rv32)) }
{
    u64::from(u32::from_le_bytes([
        cfg_from(entries, first, at),
        cfg_from(entries, first, at + 1),
        cfg_from(entries, first, at + 2),
        cfg_from(entries, first, at + 3),
    ]))
}

/// Returns a word of 64 bits, whose first byte is that of entry `at`.
fn long_word<E: ListedEntry>(entries: &[E], first: u8, at: usize) -> u64
    requires { at < 512 }
    ensures { result ≡ from_le_bytes w64
        (map (λ j. cfg_from first (map E.listed entries.now) (at + j))
        (places_in_word Xlen.Rv64)) }
{
    u64::from_le_bytes([
        cfg_from(entries, first, at),
        cfg_from(entries, first, at + 1),
        cfg_from(entries, first, at + 2),
        cfg_from(entries, first, at + 3),
        cfg_from(entries, first, at + 4),
        cfg_from(entries, first, at + 5),
        cfg_from(entries, first, at + 6),
        cfg_from(entries, first, at + 7),
    ])
}

/// Returns the i-th configuration word.
pub fn word_from<E: ListedEntry>(xlen: Xlen, entries: &[E], first: u8, i: usize) -> u64
    requires { i < 64 }
    ensures { result ≡ word_from xlen first (map E.listed entries.now) i }
{
    match xlen {
        Xlen::Rv32 => short_word(entries, first, 4 * i),
        Xlen::Rv64 => long_word(entries, first, 8 * i),
    }
}

/// Returns the number of entries of the hart from `first` on.
pub fn room_from(first: u8, limit: Limit) -> usize
    ensures { result ≡ limit_number limit - first }
{
    (limit.number() as usize).saturating_sub(usize::from(first))
}
