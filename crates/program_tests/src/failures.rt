//! Judges a trace while each read and each write fails in turn.

use hart_trace::judge_trace;
use pmp_encoding::{Bank, Limit};
use text_lines::RunFault;
use text_lines::fakes::{PieceSink, PieceSource};

const TRACE: &[u8] =
    b"load s 8 0x80000ff8\n# nothing\nstore u 4 0x80000000 7\nfetch s 2 0x10000000";

const REPORT: &[u8] = b"1 fault 5\n2 fault 7\n3 fault 1\n";

/// Returns the length of the answers to the lines of the trace that end with an LF in these first bytes.
fn answers_before(trace: &[u8]) -> usize {
    let ended = trace.iter().filter(|b| **b == b'\n').count();
    match ended {
        0 => 0,
        1 | 2 => 10,
        _ => 20,
    }
}

#[test]
fn a_failing_source_leaves_the_answers_of_whole_lines(rt: HostRuntime) {
    let bank = Bank::of(&[], Limit::Sixteen);
    for piece in [1, 7, 4096] {
        for k in 1..200u64 {
            let mut source = PieceSource::new(TRACE, piece, Some(k));
            let mut sink = PieceSink::new(4096, None);
            let answer = judge_trace(&bank, &mut source, &mut sink);
            if source.failures == 0 {
                assert!(rt; answer == Ok(()));
                assert!(rt; sink.written() == REPORT);
                break;
            }
            assert!(rt; answer == Err(RunFault::Read));
            let left = source.rest().len();
            assert!(rt; left <= TRACE.len());
            let want = answers_before(&TRACE[..TRACE.len() - left]);
            assert!(rt; sink.written().len() == want);
            assert!(rt; REPORT.starts_with(sink.written()));
        }
    }
}

#[test]
fn a_failing_or_full_sink_holds_a_beginning(rt: HostRuntime) {
    let bank = Bank::of(&[], Limit::SixtyFour);
    for k in 1..40u64 {
        let mut source = PieceSource::new(TRACE, 5, None);
        let mut sink = PieceSink::new(1, Some(k));
        let answer = judge_trace(&bank, &mut source, &mut sink);
        assert!(rt; REPORT.starts_with(sink.written()));
        if sink.failures == 0 {
            assert!(rt; answer == Ok(()));
            assert!(rt; sink.written() == REPORT);
            break;
        }
        assert!(rt; answer == Err(RunFault::Write));
        assert!(rt; sink.written().len() as u64 == k.saturating_sub(1));
    }
    let mut source = PieceSource::new(TRACE, 4096, None);
    let mut none = PieceSink::new(0, None);
    assert!(rt; judge_trace(&bank, &mut source, &mut none) == Err(RunFault::Write));
    assert!(rt; none.written().len() == 0);
}
