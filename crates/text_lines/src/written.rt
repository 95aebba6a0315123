//! A line built piece by piece in a buffer of fixed size.

ghost use Rattle.std.specs.Prelude.{◌≡◌, [], ◌∷◌, ◌++◌, ◌+◌, ◌/◌, ◌%◌, ◌<◌, ◌≤◌, decimal, length, take};
ghost use Rattle.text_lines.specs.Writings.{writing, Prints};
ghost use Rattle.text_lines.specs.Counters.{digits_of};
ghost use Rattle.text_lines.specs.Written.{hex, hex_digit};

use crate::counter::Counter;
use crate::hexadecimal::{word_digits, word_line};
use crate::{DeviceFault, LineSink, Numbered, TEXT_ROOM};
use itoa::Buffer;
use std::marker::Model;
use std::simd::prelude::*;

/// The capacity of a [`Line`] in bytes.
pub const ROOM: usize = TEXT_ROOM;

/// A line being built.
#[derive(Drop)]
pub struct Line {
    bytes: [u8; ROOM],
    len: usize,
}

impl Model for Line {
    ghost use Rattle.std.specs.Prelude.{ℕ, List, ◌≤◌, take};

    ghost Value = { List ℕ };

    ghost view = { λ line. take line.len line.bytes };

    ghost invariant = { λ line. line.len ≤ 128 };
}

impl Line {
    /// Returns an empty line.
    #[inline(always)]
    pub fn new() -> Line
        ensures { result ≡ [] }
    {
        Line {
            bytes: [0; ROOM],
            len: 0,
        }
    }

    /// Empties the line.
    #[inline(always)]
    pub fn clear(&mut self)
        ensures { self.new ≡ [] }
    {
        self.len = 0;
    }

    /// Returns the number of bytes written.
    #[inline(always)]
    pub fn len(&self) -> usize
        ensures value { result ≡ length self.now }
        ensures fits { result ≤ 128 }
    {
        self.len
    }

    /// Returns the bytes written.
    #[inline(always)]
    pub fn as_slice(&self) -> &[u8]
        ensures value { result.now ≡ self.now }
        ensures most { length self.now ≤ 128 }
    {
        &self.bytes[..self.len]
    }

    /// Appends a byte.
    #[inline(always)]
    pub fn push(&mut self, byte: u8)
        requires { length self.old < 128 }
        ensures items { self.new ≡ self.old ++ byte ∷ [] }
        ensures len { length self.new ≡ length self.old + 1 }
    {
        self.bytes[self.len] = byte;
        self.len += 1;
    }

    /// Appends the first bytes of a text. Always copies sixteen bytes, because a copy of constant size takes neither a
    /// call nor a branch.
    #[inline(always)]
    pub fn push_front(&mut self, text: &[u8; 16], len: usize)
        requires room { length self.old + 16 ≤ 128 }
        requires few { len ≤ 16 }
        ensures items { self.new ≡ self.old ++ take len text.now }
        ensures len { length self.new ≡ length self.old + len }
    {
        self.bytes[self.len..self.len + 16].copy_from_slice(text);
        self.len += len;
    }

    /// Appends the first of sixteen lanes. All lanes are stored at once, so that a later load reads from a single
    /// store; an array might be stored in pieces.
    #[inline(always)]
    pub fn push_lanes(&mut self, lanes: u8x16, len: usize)
        requires room { length self.old + 16 ≤ 128 }
        requires few { len ≤ 16 }
        ensures items { self.new ≡ self.old ++ take len lanes }
        ensures len { length self.new ≡ length self.old + len }
    {
        lanes.copy_to_slice(&mut self.bytes[self.len..self.len + 16]);
        self.len += len;
    }

    /// Writes a number followed by the line.
    #[inline(always)]
    pub fn write_behind<M, W: LineSink<M>>(
        &self,
        number: &Counter,
        sink: &mut W,
    ) -> Result<(), DeviceFault>
        requires { number.now.len ≤ 20 }
        ensures { Prints (digits_of number.now ++ self.now)
            (writing W.contents W.failures W.stalls sink.old sink.new) result }
    {
        let text = Numbered {
            front: &number.front,
            front_len: number.len,
            last: number.last,
            text: &self.bytes,
            text_len: self.len,
        };
        sink.write_numbered(text)
    }
}

/// Returns the hexadecimal digit of a value below 16, in lower case.
pub fn hex_digit(value: u8) -> u8
    requires { value < 16 }
    ensures { result ≡ hex_digit value }
{
    if value < 10 {
        b'0' + value
    } else {
        b'a' + (value - 10)
    }
}

/// Appends the lowest `digits` hexadecimal digits of a number, the highest of them first.
pub fn push_hex(line: &mut Line, value: u64, digits: u8)
    requires { length line.old + digits ≤ 128 }
    ensures items { line.new ≡ line.old ++ hex digits value }
    ensures len { length line.new ≡ length line.old + digits }
{
    if digits == 16 {
        let end = line.len + 16;
        word_digits(value).copy_to_slice(&mut line.bytes[line.len..end]);
        line.len = end;
        return;
    }
    let mut text = [0; 128];
    let mut at = usize::from(digits);
    let mut left = value;
    while at > 0 {
        at -= 1;
        text[at] = hex_digit((left % 16) as u8);
        left /= 16;
    }
    push_text(line, &text[..usize::from(digits)]);
}

/// Appends six bytes, the sixteen digits of a number, and an LF. They are assembled in lanes and stored as sixteen
/// bytes and seven, so that a load of either part reads from one store and need not wait.
#[inline(always)]
pub fn push_word_line(line: &mut Line, before: [u8; 16], value: u64)
    requires { length line.old + 32 ≤ 128 }
    ensures items { line.new ≡ line.old ++ (take 6 before ++ hex 16 value ++ 10 ∷ []) }
    ensures len { length line.new ≡ length line.old + 23 }
{
    let (first, second) = word_line(before, value);
    line.push_lanes(first, 16);
    line.push_lanes(second, 7);
}

/// Appends a text.
pub fn push_text(line: &mut Line, text: &[u8])
    requires { length line.old + length text.now ≤ 128 }
    ensures items { line.new ≡ line.old ++ text.now }
    ensures len { length line.new ≡ length line.old + length text.now }
{
    let end = line.len + text.len();
    line.bytes[line.len..end].copy_from_slice(text);
    line.len = end;
}

/// The two digits of each number below 100, one pair after the other.
static PAIRS: [u8; 200] =
    *b"00010203040506070809101112131415161718192021222324252627282930313233343536373839404142434445464748495051525354555657585960616263646566676869707172737475767778798081828384858687888990919293949596979899";

/// Appends the two digits of a number below 100.
#[inline(always)]
fn push_pair(line: &mut Line, pair: u64)
    requires below { pair < 100 }
    requires room { length line.old + 2 ≤ 128 }
    ensures items { line.new ≡ line.old
        ++ (48 + pair / 10) ∷ (48 + pair % 10) ∷ [] }
    ensures len { length line.new ≡ length line.old + 2 }
{
    let from = pair as usize * 2;
    line.push(PAIRS[from]);
    line.push(PAIRS[from + 1]);
}

/// Appends a number below 100 in decimal.
#[inline(always)]
fn push_first(line: &mut Line, n: u64)
    requires below { n < 100 }
    requires room { length line.old + 2 ≤ 128 }
    ensures items { line.new ≡ line.old ++ decimal n }
    ensures len { length line.new ≤ length line.old + 2 }
{
    if n < 10 {
        line.push(b'0' + n as u8);
        return;
    }
    push_pair(line, n);
}

/// Appends a number below 10,000 in decimal.
#[inline(always)]
fn push_short(line: &mut Line, n: u64)
    requires below { n < 10000 }
    requires room { length line.old + 4 ≤ 128 }
    ensures items { line.new ≡ line.old ++ decimal n }
    ensures len { length line.new ≤ length line.old + 4 }
{
    if n < 100 {
        push_first(line, n);
        return;
    }
    push_first(line, n / 100);
    push_pair(line, n % 100);
}

/// Appends a number in decimal. The digits of a number below 10^8 are written in place; those of a larger one are
/// copied.
#[inline(always)]
pub fn push_decimal(line: &mut Line, n: u64)
    requires { length line.old + 20 ≤ 128 }
    ensures items { line.new ≡ line.old ++ decimal n }
    ensures len { length line.new ≤ length line.old + 20 }
{
    if n < 10000 {
        push_short(line, n);
        return;
    }
    if n < 100000000 {
        push_short(line, n / 10000);
        push_pair(line, n % 10000 / 100);
        push_pair(line, n % 10000 % 100);
        return;
    }
    let mut buffer = Buffer::new();
    let text = buffer.format(n);
    push_text(line, text.as_bytes());
}
