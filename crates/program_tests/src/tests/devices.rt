//! Runs a command line on devices that transfer few bytes at a time and fail on request.

ghost use Rattle.std.specs.Prelude.{Some, true, refl};
ghost use Rattle.text_lines.specs.Fakes.{written_of};

use command_line::request_of_words;
use monitor_cli::perform_request;
use program_files::WholeSink;
use std::alloc::Global;
use std::process::Abort;
use text_lines::fakes::{PieceSink, PieceSource};
use text_lines::{DeviceFault, Direct, Sink};

/// A destination file, and a sink whose k-th call fails, counting the call that puts the bytes in place. The
/// destination is empty until then.
#[derive(Drop)]
struct PlacedSink {
    sink: PieceSink,
    alloc: Global,
    placed: Vec<u8>,
}

impl Sink for PlacedSink {
    ghost contents = { λ s. Some (written_of s.sink) };

    ghost failures = { λ s. s.sink.failures };

    ghost stalls = { λ s. s.sink.stalls };

    fn write(&mut self, buf: &[u8]) -> Result<usize, DeviceFault> {
        self.sink.write(buf)
    }
}

impl WholeSink for PlacedSink {
    type Inner = PieceSink;

    ghost stands = { λ s. Some s.placed.items };

    ghost is_apart = { true };

    ghost with_inner = { λ s inner. record s { sink = inner } };

    fn inner(&mut self) -> &mut PieceSink {
        &mut self.sink
    }

    #[tactic(auto, unfolding(text_lines::specs::Streams::GrowsByOne))]
    fn put_in_place(&mut self) -> Result<(), DeviceFault> {
        // An empty write is counted, and can fail like any other.
        self.sink.write(b"")?;
        match Vec::from_slice(self.alloc, self.sink.written()) {
            Ok(placed) => {
                self.placed = placed;
                Ok(())
            }
            Err(_) => {
                self.sink.failures = self.sink.failures.saturating_add(1);
                Err(DeviceFault)
            }
        }
    }

    ghost taken = { λ _ _. refl };

    ghost failed = { λ _ _. refl };

    ghost stalled = { λ _ _. refl };

    ghost apart = { λ _ _ _. refl };
}

/// The number of bytes that the inputs return per read, and the call of each device that fails, counted from 1.
#[derive(Clone, Copy)]
pub struct Failing {
    pub piece: usize,
    pub first: Option<u64>,
    pub second: Option<u64>,
    pub cert: Option<u64>,
    pub out: Option<u64>,
    pub err: Option<u64>,
}

impl Failing {
    /// Returns inputs with this many bytes per read, and devices that never fail.
    pub fn none(piece: usize) -> Failing {
        Failing {
            piece,
            first: None,
            second: None,
            cert: None,
            out: None,
            err: None,
        }
    }
}

/// The output of a command, and the final state of its devices.
#[derive(Drop)]
pub struct Tried {
    pub status: u8,
    pub out: Vec<u8>,
    pub err: Vec<u8>,
    /// True if the certificate was put in place.
    pub is_placed: bool,
    /// True if a device failed.
    pub has_failed: bool,
    /// The number of reads of the second input.
    pub second_reads: u64,
}

/// Runs a command line on two inputs and on devices that may fail.
pub fn try_on(
    rt: &impl Abort,
    alloc: Global,
    words: &[&str],
    first: &[u8],
    second: &[u8],
    failing: Failing,
) -> Tried {
    let request = request_of_words(alloc, words).expect(rt, "a command line");
    let mut first = PieceSource::new(first, failing.piece, failing.first);
    let mut second = PieceSource::new(second, failing.piece, failing.second);
    let mut cert = PlacedSink {
        sink: PieceSink::new(400, failing.cert),
        alloc,
        placed: Vec::new(alloc),
    };
    let mut out = PieceSink::new(3, failing.out);
    let mut err = PieceSink::new(3, failing.err);
    let status = perform_request::<_, _, Direct, _, _>(
        alloc,
        &request,
        &mut first,
        &mut second,
        &mut cert,
        &mut out,
        &mut err,
    );
    Tried {
        status,
        out: Vec::from_slice(alloc, out.written()).expect(rt, "memory"),
        err: Vec::from_slice(alloc, err.written()).expect(rt, "memory"),
        is_placed: !cert.placed.is_empty(),
        has_failed: first.failures > 0
            || second.failures > 0
            || cert.sink.failures > 0
            || out.failures > 0
            || err.failures > 0,
        second_reads: second.reads(),
    }
}
