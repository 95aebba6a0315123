//! The bytes of a source that were read but not used yet, in an array of fixed size.

ghost use Rattle.std.specs.Prelude.{◌≡◌, ◌+◌, ◌-◌, ◌^◌, ◌<◌, ◌≤◌, ◌++◌, ℕ, List, [], length, drop, MatchResult};
ghost use Rattle.std.specs.Io.KnownBytes.{Consumes, Keeps, IsAtEnd};
ghost use Rattle.text_lines.specs.Streams.{CountsFailure};

use crate::streams::{DeviceFault, Source};
use std::marker::Model;

/// Bytes that were read but not used yet, in their order, with room for `SIZE`.
#[derive(Drop)]
pub struct Buffer<const SIZE: usize> {
    bytes: [u8; SIZE],
    start: usize,
    end: usize,
}

impl<const SIZE: usize> Model for Buffer<SIZE> {
    ghost use Rattle.std.specs.Prelude.{ℕ, List, ◌≤◌, ◌≡◌, length, take, drop};

    ghost Value = { List ℕ };

    ghost view = { λ b. drop b.start (take b.end b.bytes) };

    ghost invariant = { λ b. (b.start ≤ b.end) × (b.end ≤ SIZE) × (length b.bytes ≡ SIZE) };
}

impl<const SIZE: usize> Buffer<SIZE> {
    /// Returns an empty buffer.
    pub fn new() -> Buffer<SIZE>
        ensures { result ≡ [] }
    {
        Buffer {
            bytes: [0; SIZE],
            start: 0,
            end: 0,
        }
    }

    /// Returns the bytes.
    #[inline(always)]
    pub fn as_slice(&self) -> &[u8]
        ensures value { result.now ≡ self.now }
        ensures most { length self.now ≤ SIZE }
    {
        // The prover knows the length of an array of parametric size only if the whole of it is borrowed first.
        let all = &self.bytes[..];
        &all[self.start..self.end]
    }

    /// Discards the first `count` bytes.
    #[inline(always)]
    pub fn consume(&mut self, count: usize)
        requires { count ≤ length self.old }
        ensures { self.new ≡ drop count self.old }
    {
        self.start += count;
    }

    /// Reads at most `most` more bytes and returns their number, which is zero only at the end of the source. Moves the
    /// bytes to the front of the array first.
    pub fn fill<R: Source>(&mut self, source: &mut R, most: usize) -> Result<usize, DeviceFault>
        requires room { length self.old < SIZE }
        requires some { 0 < most }
        ensures read { MatchResult result
            (λ n. (n ≤ most) × ((bytes : List ℕ) × (length bytes ≡ n)
            × Consumes (R.remaining source.old) (R.remaining source.new) bytes
            × (self.new ≡ self.old ++ bytes)) × (n ≡ 0 → IsAtEnd (R.remaining source.new)))
            (λ _. Keeps (R.remaining source.old) (R.remaining source.new) × (self.new ≡ self.old)) }
        ensures failures { CountsFailure result (R.failures source.old) (R.failures source.new) }
    {
        let held = self.end - self.start;
        // (borrows the whole array first, as in `as_slice`)
        let all = &mut self.bytes[..];
        all.copy_within(self.start..self.end, 0);
        self.start = 0;
        self.end = held;
        let room = most.min(SIZE - self.end);
        let all = &mut self.bytes[..];
        let Ok(n) = source.read(&mut all[self.end..self.end + room]) else {
            return Err(DeviceFault);
        };
        self.end += n;
        Ok(n)
    }
}
