//! The answers that a sink holds back when a read may block.

ghost use Rattle.std.specs.Prelude.{None};

use hart_trace::judge_lines;
use pmp_encoding::{Bank, Limit};
use pmp_match::Segments;
use text_lines::fakes::{PieceSink, PieceSource};
use text_lines::{DeviceFault, Direct, Held, LineSink, Numbered, RunFault, Sink};

/// A sink that holds all bytes until it is flushed.
#[derive(Drop)]
struct HoldingSink {
    sink: PieceSink,
    handed_on: usize,
}

impl Sink for HoldingSink {
    ghost contents = { λ _. None };

    ghost failures = { λ s. s.sink.failures };

    ghost stalls = { λ s. s.sink.stalls };

    fn write(&mut self, buf: &[u8]) -> Result<usize, DeviceFault> {
        self.sink.write(buf)
    }
}

impl LineSink<Held> for HoldingSink {
    fn write_numbered(&mut self, text: Numbered<'_>) -> Result<(), DeviceFault> {
        LineSink::<Direct>::write_numbered(&mut self.sink, text)
    }

    fn flush(&mut self) {
        self.handed_on = self.sink.written().len();
    }
}

#[test]
fn answers_are_handed_on_before_each_read(rt: HostRuntime) {
    const TRACE: &[u8] = b"load s 8 0\nload s 8 8\nload s 8 16\n";
    let bank = Bank::of(&[], Limit::Sixteen);
    let rules = Segments::of(&bank);
    // Each read returns 14 bytes: the first two end within the second and the third line. The third read fails.
    for (failing, answered) in [(1, 0), (2, 10), (3, 20)] {
        let mut source = PieceSource::new(TRACE, 14, Some(failing));
        let mut sink = HoldingSink {
            sink: PieceSink::new(4096, None),
            handed_on: 99,
        };
        let ended = judge_lines::<_, _, Held, _>(&rules, &mut source, &mut sink);
        assert!(rt; ended == Err(RunFault::Read));
        assert!(rt; sink.handed_on == answered);
    }
}
