//! A sink that collects bytes for a writer of the standard library and passes them on in few writes.

ghost use Rattle.std.specs.Prelude.{◌≡◌, ◌≤◌, ◌+◌, [], IfOk, length, take, true, false, ◌<◌, Ok};
ghost use Rattle.std.specs.Io.KnownBytes.{Appends, Keeps, WriteAppends};
ghost use Rattle.text_lines.specs.HeldSink.{contents_of, held_in, failed_writes, stalled_writes, writer_of, TakesFront};
ghost use Rattle.text_lines.specs.Numbered.{numbered_text};
ghost use Rattle.text_lines.specs.Streams.{CountsFailure, CountsStall, GrowsByOne};
ghost use Rattle.text_lines.specs.Writings.{writing, Prints};

use crate::held_bytes::{COPIED, HELD, HeldBytes, MOST};
use crate::line_sink::{Held, LineSink, Numbered, write_apart};
use crate::streams::{DeviceFault, Sink};
use std::alloc::{AllocError, Global};
use std::io::Write;

/// A sink that holds up to 32768 bytes for a writer of the standard library. It passes them on when more bytes come,
/// when it is flushed and when it is closed. Bytes that the writer does not accept stay held, in their order. Dropping
/// the sink discards the held bytes, so end it with [`close`](HeldSink::close). A call that a signal interrupts counts
/// as a failure here, so the writer itself must retry.
#[derive(Drop)]
pub struct HeldSink<T> {
    writer: T,
    held: HeldBytes,
    failures: u64,
    stalls: u64,
}

impl<T> HeldSink<T> {
    /// Counts a failed write.
    #[tactic(auto, unfolding(crate::specs::Streams::GrowsByOne))]
    fn fault(&mut self) -> DeviceFault
        ensures failures { GrowsByOne (failed_writes self.old) (failed_writes self.new) }
        ensures stalls { stalled_writes self.new ≡ stalled_writes self.old }
        ensures held { held_in self.new ≡ held_in self.old }
        ensures writer { writer_of self.new ≡ writer_of self.old }
    {
        self.failures = self.failures.saturating_add(1);
        DeviceFault
    }

    /// Wraps a writer that has not failed yet. The writer is dropped if the allocation fails.
    pub fn new(alloc: Global, writer: T) -> Result<HeldSink<T>, AllocError>
    where
        T: Drop,
        ensures writer { IfOk result (λ sink. writer_of sink ≡ writer) }
        ensures held { IfOk result (λ sink. held_in sink ≡ []) }
        ensures failures { IfOk result (λ sink. failed_writes sink ≡ 0) }
        ensures stalls { IfOk result (λ sink. stalled_writes sink ≡ 0) }
    {
        let held = HeldBytes::new(alloc)?;
        Ok(HeldSink {
            writer,
            held,
            failures: 0,
            stalls: 0,
        })
    }
}

/// Writes bytes with as many writes as it takes, until all are written or a write fails or accepts none. Returns the
/// number of bytes written.
fn write_out<T: Write>(writer: &mut T, bytes: &[u8]) -> usize
    ensures bound { result ≤ length bytes.now }
    ensures bytes { Appends (T.contents writer.old) (T.contents writer.new)
        (take result bytes.now) }
{
    let mut written = 0;
    while written < bytes.len() {
        match writer.write(&bytes[written..]) {
            Ok(n) if n > 0 => written += n,
            _ => return written,
        }
    }
    written
}

impl<T: Write> HeldSink<T> {
    /// Passes the held bytes on, and returns whether the writer accepted all of them. The others stay held.
    fn hand_on(&mut self) -> bool
        ensures bytes { Keeps (contents_of T.contents self.old)
            (contents_of T.contents self.new) }
        ensures part { TakesFront (held_in self.old) (T.contents (writer_of self.old))
            (T.contents (writer_of self.new)) }
        ensures all { result ≡ true → held_in self.new ≡ [] }
        ensures failures { failed_writes self.new ≡ failed_writes self.old }
        ensures stalls { stalled_writes self.new ≡ stalled_writes self.old }
    {
        let written = write_out(&mut self.writer, self.held.as_slice());
        self.held.drop_front(written);
        self.held.room() == HELD
    }

    /// Writes to the writer directly, when nothing is held.
    fn write_through(&mut self, buf: &[u8]) -> Result<usize, DeviceFault>
        requires { held_in self.old ≡ [] }
        ensures bound { IfOk result (λ n. n ≤ length buf.now) }
        ensures bytes { WriteAppends (contents_of T.contents self.old)
            (contents_of T.contents self.new) result buf.now }
        ensures failures { CountsFailure result
            (failed_writes self.old) (failed_writes self.new) }
        ensures stalls { CountsStall result buf.now
            (stalled_writes self.old) (stalled_writes self.new) }
    {
        let Ok(n) = self.writer.write(buf) else {
            return Err(self.fault());
        };
        if n == 0 && !buf.is_empty() {
            self.stalls = self.stalls.wrapping_add(1);
        }
        Ok(n)
    }

    /// Accepts bytes for which there may be no room. Not inlined, because nearly all bytes have room.
    #[cold]
    #[inline(never)]
    fn write_past(&mut self, buf: &[u8]) -> Result<usize, DeviceFault>
        ensures bound { IfOk result (λ n. n ≤ length buf.now) }
        ensures bytes { WriteAppends (contents_of T.contents self.old)
            (contents_of T.contents self.new) result buf.now }
        ensures failures { CountsFailure result
            (failed_writes self.old) (failed_writes self.new) }
        ensures stalls { CountsStall result buf.now
            (stalled_writes self.old) (stalled_writes self.new) }
    {
        if self.held.room() < buf.len() && !self.hand_on() {
            return Err(self.fault());
        }
        if buf.len() < HELD {
            self.held.push(buf);
            return Ok(buf.len());
        }
        self.write_through(buf)
    }

    /// Passes the held bytes on, flushes the writer, and returns the writer and whether it accepted all bytes. Bytes
    /// that could not be written are discarded, without a retry.
    pub fn close(self) -> (bool, T)
        ensures whole { result.0 ≡ true
            → Keeps (contents_of T.contents self) (T.contents result.1) }
        ensures part { TakesFront (held_in self) (T.contents (writer_of self))
            (T.contents result.1) }
    {
        let mut sink = self;
        let is_whole = sink.hand_on() && sink.writer.flush().is_ok();
        let HeldSink {
            writer,
            held: _,
            failures: _,
            stalls: _,
        } = sink;
        (is_whole, writer)
    }
}

impl<T: Write> Sink for HeldSink<T> {
    ghost contents = { contents_of T.contents };

    ghost failures = { failed_writes };

    ghost stalls = { stalled_writes };

    #[inline(always)]
    fn write(&mut self, buf: &[u8]) -> Result<usize, DeviceFault>
        ensures bound { IfOk result (λ n. n ≤ length buf.now) }
        ensures bytes { WriteAppends (contents_of T.contents self.old)
            (contents_of T.contents self.new) result buf.now }
        ensures failures { CountsFailure result
            (failed_writes self.old) (failed_writes self.new) }
        ensures stalls { CountsStall result buf.now
            (stalled_writes self.old) (stalled_writes self.new) }
        ensures room { length (held_in self.old) + length buf.now < 32768
            → result ≡ Ok (length buf.now) }
    {
        if buf.len() < self.held.room() {
            self.held.push(buf);
            return Ok(buf.len());
        }
        self.write_past(buf)
    }
}

impl<T: Write> LineSink<Held> for HeldSink<T> {
    #[inline(always)]
    fn write_numbered(&mut self, text: Numbered<'_>) -> Result<(), DeviceFault>
        requires front { text.front_len ≤ 20 }
        requires text { text.text_len ≤ 128 }
        ensures prints { Prints (numbered_text text.entry)
            (writing (contents_of T.contents) failed_writes stalled_writes self.old self.new)
            result }
        ensures room { text.entry.text_len ≤ 48 → length (held_in self.old) + 69 ≤ 32768
            → result ≡ Ok tt }
    {
        if text.text_len > COPIED || self.held.len() > HELD - MOST {
            return write_apart(self, text);
        }
        self.held.push_numbered(text);
        Ok(())
    }

    fn flush(&mut self) {
        if self.hand_on() {
            let _ = self.writer.flush();
        }
    }
}
