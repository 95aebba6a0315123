//! The output after a trap frame is refused.

use std::alloc::Global;
use std::process::Abort;
use text_lines::fakes::{PieceSink, PieceSource};
use trap_server::{EndReason, ServeFault, serve_traps};

/// The size of an answer before its lists, whose number is in byte 72, and the size of a list. No answer here gives
/// control words.
const FRONT: usize = 184;

const LIST: usize = 584;

const END: &[u8] = b"end\0\0\0\0\0\x01\0\0\0\0\0\0\0\0\0\0\0\0\0\0\0";

/// Returns a platform with one hart, an interrupt there, and an invalid frame.
fn frames() -> [u8; 1528] {
    let mut bytes = [0; 1528];
    bytes[..8].copy_from_slice(b"platform");
    bytes[8] = 1;
    bytes[16] = 16;
    bytes[27] = 0x80;
    bytes[34] = 0x20;
    bytes[40] = 1;
    bytes[59] = 0x80;
    bytes[67] = 8;
    bytes[1336..1340].copy_from_slice(b"stop");
    bytes
}

/// Asserts that one last frame, and nothing else, follows that many answers.
fn ends_behind(rt: &impl Abort, alloc: Global, frames: &[u8], answers: usize) {
    let mut source = PieceSource::new(frames, 4096, None);
    let mut sink = PieceSink::new(4096, None);
    let served = serve_traps(alloc, &mut source, &mut sink);
    assert!(rt; served == Err(ServeFault::Refused(EndReason::NotUnderstood)));
    let mut written = sink.written();
    for _ in 0..answers {
        assert!(rt; written.len() > FRONT && written.starts_with(b"answer"));
        let bytes = FRONT + LIST * usize::from(written[72]);
        assert!(rt; written.len() > bytes);
        written = &written[bytes..];
    }
    assert!(rt; written == END);
}

#[test]
fn a_refused_frame_leaves_the_last_frame_and_nothing_else(rt: HostRuntime) {
    let frames = frames();
    let mut without = frames;
    without[1336] = 0;
    ends_behind(&rt, rt.alloc(), &frames[8..], 0);
    ends_behind(&rt, rt.alloc(), &without, 1);
    ends_behind(&rt, rt.alloc(), &frames, 2);
}
