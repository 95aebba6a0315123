//! The bytes held for a writer, in an array of fixed size on the heap.

ghost use Rattle.std.specs.Prelude.{◌≡◌, ◌+◌, ◌-◌, ◌<◌, ◌≤◌, ◌++◌, [], ◌∷◌, IfOk, length, take, drop};
ghost use Rattle.text_lines.specs.Numbered.{numbered_text};

use crate::line_sink::{DIGITS_ROOM, Numbered, TEXT_ROOM};
use std::alloc::{AllocError, Global};
use std::marker::Model;

/// The maximal number of bytes held. A signal that ends the program can lose that many.
pub const HELD: usize = 32768;

/// The number of bytes after a number that [`HeldBytes::push_numbered`] copies. Nearly all answers have fewer.
pub const COPIED: usize = 48;

/// The number of bytes that [`HeldBytes::push_numbered`] may write: those, a number's last digit, and its other digits.
pub const MOST: usize = DIGITS_ROOM + 1 + COPIED;

/// Bytes to be written to a writer, in their order.
#[derive(Drop)]
pub struct HeldBytes {
    bytes: Box<[u8; HELD]>,
    len: usize,
}

impl Model for HeldBytes {
    ghost use Rattle.std.specs.Prelude.{ℕ, List, ◌≤◌, take};

    ghost Value = { List ℕ };

    ghost view = { λ held. take held.len held.bytes.value };

    ghost invariant = { λ held. held.len ≤ 32768 };
}

impl HeldBytes {
    /// Allocates an empty array. Not inlined, so that no caller has the array among its locals.
    #[inline(never)]
    pub fn new(alloc: Global) -> Result<HeldBytes, AllocError>
        ensures { IfOk result (λ held. held ≡ []) }
    {
        let bytes = Box::new(alloc, [0; HELD])?;
        Ok(HeldBytes { bytes, len: 0 })
    }

    /// Returns the bytes.
    #[inline(always)]
    pub fn as_slice(&self) -> &[u8]
        ensures value { result.now ≡ self.now }
        ensures most { length self.now ≤ 32768 }
    {
        &self.bytes[..self.len]
    }

    /// Returns the number of bytes.
    #[inline(always)]
    pub fn len(&self) -> usize
        ensures { result ≡ length self.now }
    {
        self.as_slice().len()
    }

    /// Returns the number of bytes that still fit.
    #[inline(always)]
    pub fn room(&self) -> usize
        ensures { result + length self.now ≡ 32768 }
    {
        HELD - self.as_slice().len()
    }

    /// Appends bytes.
    #[inline(always)]
    pub fn push(&mut self, bytes: &[u8])
        requires { length self.old + length bytes.now ≤ 32768 }
        ensures { self.new ≡ self.old ++ bytes.now }
    {
        let end = self.len + bytes.len();
        self.bytes[self.len..end].copy_from_slice(bytes);
        self.len = end;
    }

    /// Appends the first digits of a number. Always copies the whole array, as in
    /// [`push_front`](HeldBytes::push_front).
    #[inline(always)]
    fn push_digits(&mut self, digits: &[u8; DIGITS_ROOM], count: usize)
        requires room { length self.old + 20 ≤ 32768 }
        requires few { count ≤ 20 }
        ensures { self.new ≡ self.old ++ take count digits.now }
    {
        let copied = *digits;
        self.bytes[self.len..self.len + DIGITS_ROOM].copy_from_slice(&copied);
        self.len += count;
    }

    /// Appends a byte.
    #[inline(always)]
    fn push_byte(&mut self, byte: u8)
        requires { length self.old < 32768 }
        ensures { self.new ≡ self.old ++ byte ∷ [] }
    {
        self.bytes[self.len] = byte;
        self.len += 1;
    }

    /// Appends the first bytes of a short text. Always copies [`COPIED`] bytes, which takes neither a call nor a branch
    /// on `len`. They go through a local array, so that the compiler need not check whether text and bytes overlap.
    #[inline(always)]
    fn push_front(&mut self, text: &[u8; TEXT_ROOM], len: usize)
        requires room { length self.old + 48 ≤ 32768 }
        requires few { len ≤ 48 }
        ensures { self.new ≡ self.old ++ take len text.now }
    {
        let mut copied = [0; COPIED];
        copied.copy_from_slice(&text[..COPIED]);
        self.bytes[self.len..self.len + COPIED].copy_from_slice(&copied);
        self.len += len;
    }

    /// Appends a numbered text. No copy reads bytes that another has written, so none waits for another.
    #[inline(always)]
    pub fn push_numbered(&mut self, text: Numbered<'_>)
        requires room { length self.old + 69 ≤ 32768 }
        requires front { text.front_len ≤ 20 }
        requires few { text.text_len ≤ 48 }
        ensures { self.new ≡ self.old ++ numbered_text text.entry }
    {
        self.push_digits(text.front, text.front_len);
        self.push_byte(text.last);
        self.push_front(text.text, text.text_len);
    }

    /// Discards the first `count` bytes. The bytes after them move to the front.
    pub fn drop_front(&mut self, count: usize)
        requires { count ≤ length self.old }
        ensures { self.new ≡ drop count self.old }
    {
        self.bytes.copy_within(count..self.len, 0);
        self.len -= count;
    }
}
