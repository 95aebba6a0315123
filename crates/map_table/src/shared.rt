//! A configuration word that the list shares with entries below it.

ghost use Rattle.std.specs.Prelude.{◌≡◌, ◌≤◌};
ghost use Rattle.map_table.specs.SharedTexts.{kept_bits, shared_word_count};

use pmp_encoding::{Limit, Xlen};

/// Returns the number of shared words.
pub(crate) fn shared_word_count(xlen: Xlen, limit: Limit, first: u8) -> usize
    ensures value { result ≡ shared_word_count xlen limit first }
    ensures most { result ≤ 1 }
{
    if first % xlen.word_entries() != 0 && u32::from(first) < limit.number() {
        1
    } else {
        0
    }
}

/// Returns the mask of the entries below the first in their shared word.
pub(crate) fn kept_bits(xlen: Xlen, first: u8) -> u64
    ensures { result ≡ kept_bits xlen first }
{
    (1 << (8 * (first % xlen.word_entries()))) - 1
}
