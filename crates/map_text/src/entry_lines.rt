//! Writes the lines of entries into a buffer.

ghost use Rattle.std.specs.Prelude.{◌≡◌, ℕ, ◌+◌, ◌*◌, ◌<◌, ◌≤◌, ◌^◌, ◌++◌, take, length, codes, decimal, map};
ghost use Rattle.text_lines.specs.Counters.{digits_of};
ghost use Rattle.text_lines.specs.Written.{hex};
ghost use Rattle.map_text.specs.ListedEntries.{address_in, cfg_in};
ghost use Rattle.map_text.specs.Plans.{entries_text};
ghost use Rattle.map_text.specs.Texts.{entry_text, register_text};

use crate::listed_entry::ListedEntry;
use pmp_encoding::Xlen;
use text_lines::{Counter, hex_digit, hex_digits};

/// Maximum number of bytes that are written for an entry: bytes after a short number are written too, and then
/// overwritten.
pub const MOST: usize = 46;

/// Writes a text at an index, and returns the index after it.
#[inline(always)]
fn put(buffer: &mut [u8], at: usize, text: &[u8]) -> usize
    requires room { at + length text.now ≤ length buffer.old }
    ensures end { result ≡ at + length text.now }
    ensures text { take result buffer.new ≡ take at buffer.old ++ text.now }
    ensures room { length buffer.new ≡ length buffer.old }
{
    let end = at + text.len();
    buffer[at..end].copy_from_slice(text);
    end
}

/// Writes a number in decimal.
#[inline(always)]
fn put_number(buffer: &mut [u8], at: usize, number: &Counter) -> usize
    requires room { at + 21 ≤ length buffer.old }
    requires len { number.now.len ≤ 20 }
    ensures end { result ≤ at + 21 }
    ensures text { take result buffer.new ≡ take at buffer.old ++ digits_of number.now }
    ensures room { length buffer.new ≡ length buffer.old }
{
    // A copy whose length the compiler knows needs no call.
    let _ = put(buffer, at, number.front.as_slice());
    let end = at + number.len;
    buffer[end] = number.last;
    end + 1
}

/// Writes the two digits of a byte.
#[inline(always)]
fn put_byte(buffer: &mut [u8], at: usize, byte: u8) -> usize
    requires room { at + 2 ≤ length buffer.old }
    ensures end { result ≡ at + 2 }
    ensures text { take result buffer.new ≡ take at buffer.old ++ hex 2 byte }
    ensures room { length buffer.new ≡ length buffer.old }
{
    put(buffer, at, &[hex_digit(byte / 16), hex_digit(byte % 16)])
}

/// Writes all digits of a register.
#[inline(always)]
fn put_register(buffer: &mut [u8], at: usize, xlen: Xlen, value: u64) -> usize
    requires room { at + 16 ≤ length buffer.old }
    ensures end { result ≤ at + 16 }
    ensures text { take result buffer.new ≡ take at buffer.old ++ register_text xlen value }
    ensures room { length buffer.new ≡ length buffer.old }
{
    match xlen {
        Xlen::Rv32 => put(buffer, at, &hex_digits(value)[8..]),
        Xlen::Rv64 => put(buffer, at, hex_digits(value).as_slice()),
    }
}

/// Writes the text before the digits of a register. It comes from a separate array, which the compiler knows not to
/// overlap the buffer.
#[inline(always)]
fn put_prefix(buffer: &mut [u8], at: usize) -> usize
    requires room { at + 3 ≤ length buffer.old }
    ensures end { result ≡ at + 3 }
    ensures text { take result buffer.new ≡ take at buffer.old ++ codes " 0x" }
    ensures room { length buffer.new ≡ length buffer.old }
{
    put(buffer, at, &[b' ', b'0', b'x'])
}

/// Writes the line of an entry.
#[inline(always)]
fn put_entry<E: ListedEntry>(
    buffer: &mut [u8],
    at: usize,
    xlen: Xlen,
    number: &Counter,
    entry: &E,
) -> usize
    requires room { at + 46 ≤ length buffer.old }
    requires len { number.now.len ≤ 20 }
    ensures end { result ≤ at + 46 }
    ensures text { (i : ℕ) → digits_of number.now ≡ decimal i → take result buffer.new
        ≡ take at buffer.old ++ entry_text xlen i (cfg_in (E.listed entry.now))
        (address_in (E.listed entry.now)) }
    ensures room { length buffer.new ≡ length buffer.old }
{
    let (cfg, address) = entry.registers();
    let at = put_number(buffer, at, number);
    let at = put_prefix(buffer, at);
    let at = put_byte(buffer, at, cfg);
    let at = put_prefix(buffer, at);
    let at = put_register(buffer, at, xlen, address);
    put(buffer, at, b"\n")
}

/// Writes the lines of entries, numbered from `first` on, at the front, and returns the index after them.
pub fn put_entries<E: ListedEntry>(
    buffer: &mut [u8],
    xlen: Xlen,
    entries: &[E],
    first: u64,
) -> usize
    requires room { 46 * length entries.now ≤ length buffer.old }
    requires numbers { first + length entries.now < 2 ^ 64 }
    ensures end { result ≤ length buffer.new }
    ensures text { take result buffer.new ≡ entries_text xlen first (map E.listed entries.now) }
    ensures room { length buffer.new ≡ length buffer.old }
{
    let mut number = Counter::of(first);
    let mut at = 0;
    for (i, entry) in entries.iter().enumerate() {
        at = put_entry(buffer, at, xlen, &number, entry);
        number.raise(first + i as u64);
    }
    at
}
