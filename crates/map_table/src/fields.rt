//! Human-readable sizes.

use arrayvec::ArrayString;
use std::fmt;
use std::fmt::Write;

/// The units of sizes, the largest first.
const UNITS: [(u64, &str); 6] = [
    (1 << 50, "PiB"),
    (1 << 40, "TiB"),
    (1 << 30, "GiB"),
    (1 << 20, "MiB"),
    (1 << 10, "KiB"),
    (1, "B"),
];

/// Maximum length of an exact size.
const MOST: usize = 8;

/// A size as text.
pub(crate) type Size = ArrayString<32>;

/// Writes a size exactly, in the largest unit that divides it.
fn exact(size: u64) -> Size {
    let mut words = Size::new();
    for (unit, name) in UNITS {
        if unit != 0 && size % unit == 0 {
            let count = size / unit;
            let _ = write!(words, "{count} {name}");
            return words;
        }
    }
    words
}

/// Writes a size rounded down after a `>`, with tenths below ten, in a unit of which it contains fewer than a thousand.
fn rounded(size: u64) -> Size {
    let (unit, name) = if size < 1000 << 20 {
        (1u64 << 20, "MiB")
    } else if size < 1000 << 30 {
        (1 << 30, "GiB")
    } else if size < 1000 << 40 {
        (1 << 40, "TiB")
    } else {
        (1 << 50, "PiB")
    };
    let whole = size / unit;
    let tenths = size % unit * 10 / unit;
    let mut words = Size::new();
    let _ = if whole < 10 {
        write!(words, ">{whole}.{tenths} {name}")
    } else {
        write!(words, ">{whole} {name}")
    };
    words
}

/// Writes a size: exactly if that is short, otherwise rounded down.
pub(crate) fn short_size(size: u64) -> Size {
    let words = exact(size);
    if words.len() > MOST {
        return rounded(size);
    }
    words
}

/// Writes a size as a column of a table, right-aligned in seven characters.
pub(crate) fn push_column(words: &mut ArrayString<128>, size: u64) -> fmt::Result {
    let short = short_size(size);
    write!(words, "{short:>7}")
}
