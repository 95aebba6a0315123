//! Devices that supply or accept bytes. Each reports its bytes, if they are known, and counts its failures, so that a
//! contract can state which bytes were read and written, and that an error occurs only if a device failed.

ghost use Rattle.std.specs.Prelude.{◌≡◌, ℕ, ◌≤◌, List, Option, Some, Ok, IfOk, min, length};
ghost use Rattle.std.specs.Io.KnownBytes.{ReadConsumes, WriteAppends};
ghost use Rattle.text_lines.specs.Streams.{CountsFailure, CountsStall, inner_of, failures_of, stalls_of};
ghost use Rattle.text_lines.specs.Writings.{writing, Prints};

use std::io::{Read, Write};
use thiserror::Error;

/// A read or write of a device failed.
#[derive(Clone, Copy, Debug, PartialEq, Eq, Error)]
#[error("a device failed")]
pub struct DeviceFault;

/// A device that supplies bytes.
pub trait Source {
    /// The bytes not read yet, if they are known.
    ghost remaining: { Self → Option (List ℕ) };

    /// The number of reads that have failed. Each failure adds one, as long as 64 bits hold the number.
    ghost failures: { Self → ℕ };

    /// Reads some bytes into the front of `buf` and returns their number. Zero bytes in a non-empty buffer mean the end
    /// of the input.
    fn read(&mut self, buf: &mut [u8]) -> Result<usize, DeviceFault>
        ensures bound { IfOk result (λ n. n ≤ length buf.new) }
        ensures bytes { ReadConsumes (remaining self.old) (remaining self.new) result buf.new }
        ensures failures { CountsFailure result (failures self.old) (failures self.new) };
}

/// A device that accepts bytes.
pub trait Sink {
    /// The bytes that the device has accepted, if they are known.
    ghost contents: { Self → Option (List ℕ) };

    /// The number of writes that have failed. Each failure adds one, as long as 64 bits hold the number.
    ghost failures: { Self → ℕ };

    /// The number of writes that accepted none of their bytes, modulo 2^64.
    ghost stalls: { Self → ℕ };

    /// Accepts some bytes from the front of `buf` and returns their number.
    fn write(&mut self, buf: &[u8]) -> Result<usize, DeviceFault>
        ensures bound { IfOk result (λ n. n ≤ length buf.now) }
        ensures bytes { WriteAppends (contents self.old) (contents self.new) result buf.now }
        ensures failures { CountsFailure result (failures self.old) (failures self.new) }
        ensures stalls { CountsStall result buf.now (stalls self.old) (stalls self.new) };
}

/// Bytes in memory. Reading them never fails.
impl Source for &[u8] {
    ghost remaining = { λ bytes. Some bytes.now };

    ghost failures = { λ _. 0 };

    fn read(&mut self, buf: &mut [u8]) -> Result<usize, DeviceFault>
        ensures bound { IfOk result (λ n. n ≤ length buf.new) }
        ensures bytes { ReadConsumes (Some self.old.now) (Some self.new.now) result buf.new }
        ensures failures { CountsFailure result 0 0 }
        ensures count { result ≡ Ok (min (length buf.old) (length self.old.now)) }
    {
        let n = buf.len().min(self.len());
        buf[..n].copy_from_slice(&self[..n]);
        *self = &self[n..];
        Ok(n)
    }
}

/// A reader or writer of the standard library that counts its failures, and its writes that accepted none of their
/// bytes.
#[derive(Drop)]
pub struct Counted<T> {
    inner: T,
    failures: u64,
    stalls: u64,
}

impl<T> Counted<T> {
    /// Wraps a reader or writer that has not failed yet.
    pub fn new(inner: T) -> Counted<T>
        ensures inner { inner_of result ≡ inner }
        ensures failures { failures_of result ≡ 0 }
        ensures stalls { stalls_of result ≡ 0 }
    {
        Counted {
            inner,
            failures: 0,
            stalls: 0,
        }
    }

    /// Returns the reader or writer.
    pub fn into_inner(self) -> T
        ensures { result ≡ inner_of self }
    {
        let Counted {
            inner,
            failures: _,
            stalls: _,
        } = self;
        inner
    }
}

impl<T: Read> Source for Counted<T> {
    ghost remaining = { λ c. T.remaining (inner_of c) };

    ghost failures = { failures_of };

    #[tactic(auto, unfolding(crate::specs::Streams::GrowsByOne))]
    fn read(&mut self, buf: &mut [u8]) -> Result<usize, DeviceFault> {
        match self.inner.read(buf) {
            Ok(n) => Ok(n),
            Err(_) => {
                self.failures = self.failures.saturating_add(1);
                Err(DeviceFault)
            }
        }
    }
}

impl<T: Write> Sink for Counted<T> {
    ghost contents = { λ c. T.contents (inner_of c) };

    ghost failures = { failures_of };

    ghost stalls = { stalls_of };

    #[tactic(auto, unfolding(crate::specs::Streams::GrowsByOne))]
    fn write(&mut self, buf: &[u8]) -> Result<usize, DeviceFault> {
        match self.inner.write(buf) {
            Ok(n) => {
                if n == 0 && !buf.is_empty() {
                    self.stalls = self.stalls.wrapping_add(1);
                }
                Ok(n)
            }
            Err(_) => {
                self.failures = self.failures.saturating_add(1);
                Err(DeviceFault)
            }
        }
    }
}

/// Writes all of the bytes, with as many writes as it takes. Not inlined, because nearly all sinks accept them at once.
#[cold]
#[inline(never)]
fn write_on<W: Sink>(sink: &mut W, bytes: &[u8]) -> Result<(), DeviceFault>
    ensures { Prints bytes.now (writing W.contents W.failures W.stalls sink.old sink.new) result }
{
    let mut done = 0;
    while done < bytes.len() {
        let n = sink.write(&bytes[done..])?;
        if n == 0 {
            return Err(DeviceFault);
        }
        done += n;
    }
    Ok(())
}

/// Writes all of the bytes. A write that accepts none of its bytes is a fault too.
#[inline(always)]
pub fn write_whole<W: Sink>(sink: &mut W, bytes: &[u8]) -> Result<(), DeviceFault>
    ensures { Prints bytes.now (writing W.contents W.failures W.stalls sink.old sink.new) result }
{
    if bytes.is_empty() {
        return Ok(());
    }
    let n = sink.write(bytes)?;
    if n == bytes.len() {
        return Ok(());
    }
    if n > 0 {
        return write_on(sink, &bytes[n..]);
    }
    Err(DeviceFault)
}
