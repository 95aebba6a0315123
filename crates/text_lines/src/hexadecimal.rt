//! Reads and writes sixteen bytes at once as hexadecimal digits. Single bytes, or groups of four, take two to three
//! times as many instructions, and a mispredicted branch at the end of each number.

ghost use Rattle.std.specs.Prelude.{◌≡◌, ◌<◌, ◌≤◌, ◌++◌, ◌∷◌, [], nat_lt, length, map, take};
ghost use Rattle.std.specs.List.{prefix_len};
ghost use Rattle.text_lines.specs.Hexadecimal.{first_set, nibble_of, nibbles_value};
ghost use Rattle.text_lines.specs.Numbers.{digit_of};
ghost use Rattle.text_lines.specs.Written.{hex};

use std::simd::prelude::*;

/// The number of bytes processed at once.
pub(crate) const LANES: usize = 16;

/// Returns the index of the lowest set bit, or sixteen if no bit is set.
#[inline(always)]
fn first_set(mask: u64) -> usize
    ensures { result ≡ first_set mask }
{
    if mask == 0 {
        return LANES;
    }
    mask.trailing_zeros() as usize
}

/// Returns how many of the first sixteen bytes precede the first that is not a hexadecimal digit.
#[inline(always)]
pub(crate) fn digits_before(text: &[u8]) -> usize
    requires { 16 ≤ length text.now }
    ensures digits { result ≡ prefix_len (λ b. nat_lt (digit_of b) 16) (take 16 text.now) }
    ensures most { result ≤ 16 }
{
    let bytes = u8x16::from_slice(text);
    let from_zero = bytes - u8x16::splat(b'0');
    let from_a = (bytes | u8x16::splat(0x20)) - u8x16::splat(b'a');
    let others = from_zero.simd_ge(u8x16::splat(10)) & from_a.simd_ge(u8x16::splat(6));
    first_set(others.to_bitmask())
}

/// Returns the values of the first sixteen bytes as hexadecimal digits; the value of any other byte is its lowest four
/// bits.
#[inline(always)]
fn nibbles(text: &[u8]) -> u8x16
    requires { 16 ≤ length text.now }
    ensures { result ≡ map nibble_of (take 16 text.now) }
{
    let bytes = u8x16::from_slice(text);
    let from_a = (bytes | u8x16::splat(0x20)) - u8x16::splat(b'a');
    let nine = from_a
        .simd_lt(u8x16::splat(6))
        .select(u8x16::splat(9), u8x16::splat(0));
    (bytes & u8x16::splat(15)) + nine
}

/// Returns the number that the first sixteen bytes spell with these values, the highest digit first.
#[inline(always)]
pub(crate) fn value_of_all(text: &[u8]) -> u64
    requires { 16 ≤ length text.now }
    ensures { result ≡ nibbles_value (take 16 text.now) }
{
    let nibbles = nibbles(text);
    let high: u8x8 = nibbles.shuffle(nibbles, [0, 2, 4, 6, 8, 10, 12, 14]);
    let low: u8x8 = nibbles.shuffle(nibbles, [1, 3, 5, 7, 9, 11, 13, 15]);
    let pairs = high * u8x8::splat(16) + low;
    u64::from_be_bytes(pairs.to_array())
}

/// Returns the sixteen digits of a number, the highest first. Its bytes are in little-endian order, so the digits of
/// the last byte come first.
#[inline(always)]
pub fn word_digits(value: u64) -> u8x16
    ensures { result ≡ hex 16 value }
{
    let bytes = u64x1::splat(value).to_le_bytes();
    let high = bytes >> u8x8::splat(4);
    let low = bytes & u8x8::splat(15);
    let nibbles: u8x16 = high.shuffle(low, [7, 15, 6, 14, 5, 13, 4, 12, 3, 11, 2, 10, 1, 9, 0, 8]);
    let zeros = nibbles
        .simd_lt(u8x16::splat(10))
        .select(u8x16::splat(b'0'), u8x16::splat(b'a' - 10));
    zeros + nibbles
}

/// Returns the sixteen digits of a number, the highest first, in lower case.
#[inline(always)]
pub fn hex_digits(value: u64) -> [u8; 16]
    ensures { result ≡ hex 16 value }
{
    word_digits(value).to_array()
}

/// Returns six bytes, the sixteen digits of a number, and an LF: first sixteen bytes, and then the other seven.
#[inline(always)]
pub(crate) fn word_line(before: [u8; 16], value: u64) -> (u8x16, u8x16)
    ensures { take 16 result.0 ++ take 7 result.1 ≡ take 6 before ++ hex 16 value ++ 10 ∷ [] }
{
    let digits = word_digits(value);
    let before = u8x16::from_array(before);
    let first: u8x16 = before.shuffle(
        digits,
        [0, 1, 2, 3, 4, 5, 16, 17, 18, 19, 20, 21, 22, 23, 24, 25],
    );
    let second: u8x16 = digits.shuffle(
        u8x16::splat(b'\n'),
        [
            10, 11, 12, 13, 14, 15, 16, 17, 18, 19, 20, 21, 22, 23, 24, 25,
        ],
    );
    (first, second)
}
