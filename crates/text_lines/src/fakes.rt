//! Devices for tests that return or accept few bytes at a time and fail on request. Contracts define their contents and
//! the result of each call.

ghost use Rattle.std.specs.Prelude.{◌≡◌, ◌<◌, [], max};

use crate::streams::{DeviceFault, Sink, Source};
use arrayvec::ArrayVec;

/// The capacity of a [`PieceSink`] in bytes.
pub const ROOM: usize = 4096;

/// A source that returns at most `piece` bytes per read, and one if `piece` is 0.
#[derive(Drop)]
pub struct PieceSource<'a> {
    bytes: &'a [u8],
    piece: usize,
    failing: Option<u64>,
    reads: u64,
    /// The number of reads that have failed.
    pub failures: u64,
    ghost some: { 0 < piece },
}

impl<'a> PieceSource<'a> {
    ghost use Rattle.text_lines.specs.Fakes.{failing_read, piece_of, reads_of, rest_of};

    /// Returns a source of these bytes. If `failing` is Some(k), its k-th read fails, counted from 1.
    pub fn new(bytes: &'a [u8], piece: usize, failing: Option<u64>) -> PieceSource<'a>
        ensures failures { result.failures ≡ 0 }
        ensures rest { rest_of result ≡ bytes.now }
        ensures piece { piece_of result ≡ max piece 1 }
        ensures failing { failing_read result ≡ failing }
        ensures reads { reads_of result ≡ 0 }
    {
        PieceSource {
            bytes,
            piece: piece.max(1),
            failing,
            reads: 0,
            failures: 0,
        }
    }

    /// Returns the number of reads, including failed ones.
    pub fn reads(&self) -> u64
        ensures { result ≡ reads_of self.now }
    {
        self.reads
    }

    /// Returns the bytes not read yet.
    pub fn rest(&self) -> &'a [u8]
        ensures { result.now ≡ rest_of self.now }
    {
        self.bytes
    }
}

impl Source for PieceSource<'_> {
    ghost use Rattle.std.specs.Prelude.{◌≡◌, ◌≤◌, Some, IfOk, length};
    ghost use Rattle.std.specs.Io.KnownBytes.{ReadConsumes};
    ghost use Rattle.text_lines.specs.Streams.{CountsFailure};
    ghost use Rattle.text_lines.specs.Fakes.{answered, failing_read, given_by, next_call, reads_of, rest_of};

    ghost remaining = { λ s. Some (rest_of s) };

    ghost failures = { λ s. s.failures };

    #[tactic(auto, unfolding(crate::specs::Streams::GrowsByOne))]
    fn read(&mut self, buf: &mut [u8]) -> Result<usize, DeviceFault>
        ensures bound { IfOk result (λ n. n ≤ length buf.new) }
        ensures bytes { ReadConsumes (Some (rest_of self.old))
            (Some (rest_of self.new)) result buf.new }
        ensures failures { CountsFailure result self.old.failures self.new.failures }
        ensures answer { result ≡ answered (failing_read self.old) (reads_of self.new)
            (given_by self.old (length buf.old)) }
        ensures reads { reads_of self.new ≡ next_call (reads_of self.old) }
    {
        self.reads = self.reads.saturating_add(1);
        if self.failing == Some(self.reads) {
            self.failures = self.failures.saturating_add(1);
            return Err(DeviceFault);
        }
        let n = self.piece.min(buf.len()).min(self.bytes.len());
        buf[..n].copy_from_slice(&self.bytes[..n]);
        self.bytes = &self.bytes[n..];
        Ok(n)
    }
}

/// A sink that accepts at most `piece` bytes per write and at most [`ROOM`] in total. If `piece` is 0 it accepts none.
#[derive(Drop)]
pub struct PieceSink {
    taken: ArrayVec<u8, ROOM>,
    piece: usize,
    failing: Option<u64>,
    writes: u64,
    /// The number of writes that have failed.
    pub failures: u64,
    /// The number of writes that accepted none of their bytes.
    pub stalls: u64,
}

impl PieceSink {
    ghost use Rattle.text_lines.specs.Fakes.{failing_write, width_of, writes_of, written_of};

    /// Returns an empty sink. If `failing` is Some(k), its k-th write fails, counted from 1.
    pub fn new(piece: usize, failing: Option<u64>) -> PieceSink
        ensures failures { result.failures ≡ 0 }
        ensures stalls { result.stalls ≡ 0 }
        ensures written { written_of result ≡ [] }
        ensures piece { width_of result ≡ piece }
        ensures failing { failing_write result ≡ failing }
        ensures writes { writes_of result ≡ 0 }
    {
        PieceSink {
            taken: ArrayVec::new(),
            piece,
            failing,
            writes: 0,
            failures: 0,
            stalls: 0,
        }
    }

    /// Returns the number of writes, including failed ones.
    pub fn writes(&self) -> u64
        ensures { result ≡ writes_of self.now }
    {
        self.writes
    }

    /// Returns the bytes that the sink has accepted.
    pub fn written(&self) -> &[u8]
        ensures { result.now ≡ written_of self.now }
    {
        self.taken.as_slice()
    }
}

impl Sink for PieceSink {
    ghost use Rattle.std.specs.Prelude.{◌≡◌, ◌≤◌, Some, IfOk, length};
    ghost use Rattle.std.specs.Io.KnownBytes.{WriteAppends};
    ghost use Rattle.text_lines.specs.Streams.{CountsFailure, CountsStall};
    ghost use Rattle.text_lines.specs.Fakes.{answered, failing_write, next_call, taken_by, writes_of, written_of};

    ghost contents = { λ s. Some (written_of s) };

    ghost failures = { λ s. s.failures };

    ghost stalls = { λ s. s.stalls };

    #[tactic(auto, unfolding(crate::specs::Streams::GrowsByOne))]
    fn write(&mut self, buf: &[u8]) -> Result<usize, DeviceFault>
        ensures bound { IfOk result (λ n. n ≤ length buf.now) }
        ensures bytes { WriteAppends (Some (written_of self.old))
            (Some (written_of self.new)) result buf.now }
        ensures failures { CountsFailure result self.old.failures self.new.failures }
        ensures stalls { CountsStall result buf.now self.old.stalls self.new.stalls }
        ensures answer { result ≡ answered (failing_write self.old) (writes_of self.new)
            (taken_by self.old (length buf.now)) }
        ensures writes { writes_of self.new ≡ next_call (writes_of self.old) }
    {
        self.writes = self.writes.saturating_add(1);
        if self.failing == Some(self.writes) {
            self.failures = self.failures.saturating_add(1);
            return Err(DeviceFault);
        }
        let room = self.taken.remaining_capacity();
        let n = self.piece.min(buf.len()).min(room);
        let Ok(()) = self.taken.try_extend_from_slice(&buf[..n]) else {
            unreachable!();
        };
        if n == 0 && !buf.is_empty() {
            self.stalls = self.stalls.wrapping_add(1);
        }
        Ok(n)
    }
}
