//! The traps of an enclave that lives on two harts, served between one source and one sink.

use crate::firmware::serve_life;
use byteorder::{ByteOrder, LittleEndian};
use std::alloc::Global;
use std::process::Abort;
use text_lines::Counted;
use text_lines::fakes::PieceSource;

/// The number of words of an answer before its lists, and that of a list.
const FRONT: u64 = 23;

const LIST: u64 = 73;

/// The monitor's extension, in a7.
const EXTENSION: u64 = 0x0845_4E43;

/// The first page of the enclave.
const PAGE: u64 = 0x8_0200;

// The tags of frames: ASCII words with the first letter in the lowest byte.

const PLATFORM_TAG: u64 = 0x6d72_6f66_7461_6c70;

const CALL_TAG: u64 = 0x6c6c_6163;

const STOP_TAG: u64 = 0x706f_7473;

const MEASURE_TAG: u64 = 0x0065_7275_7361_656d;

const PAGE_TAG: u64 = 0x6567_6170;

const ANSWER_TAG: u64 = 0x7265_7773_6e61;

/// The interrupts that each host enables (`mie`), and the counters that user mode may read (`scounteren`).
const INTERRUPTS: u64 = 0xfff5;

const COUNTERS: u64 = 7;

/// The control words of an enclave under such a host: floating point is enabled, two of the host's interrupts are
/// enabled besides the monitor's, and user mode may read the time.
const ENCLAVE_WORDS: [u64; 9] = [0x2_0000_2000, 0, 0x2a8, 2, 0, 0, 0, 0, 0];

/// Appends little-endian words.
fn put_words(rt: &impl Abort, bytes: &mut Vec<u8>, words: &[u64]) {
    for word in words {
        let mut eight = [0; 8];
        LittleEndian::write_u64(&mut eight, *word);
        bytes.extend_from_slice(&eight).expect(rt, "memory");
    }
}

/// Appends a platform with two harts of sixteen entries: the monitor's 2 MiB at 0x80000000, in 128 MiB of memory, and a
/// device.
fn put_platform(rt: &impl Abort, frames: &mut Vec<u8>) {
    let mut words = [0; 167];
    words[0] = PLATFORM_TAG;
    words[1] = 2;
    words[2] = 16;
    words[3] = 0x8000_0000;
    words[4] = 0x20_0000;
    words[5] = 1;
    words[6] = 1;
    words[7] = 0x8000_0000;
    words[8] = 0x800_0000;
    words[71] = 0x1000_0000;
    words[72] = 0x1000;
    words[73] = 3;
    put_words(rt, frames, &words);
}

/// Appends a trap on a hart: a call of a function with three arguments, or the timer.
fn put_trap(
    rt: &impl Abort,
    frames: &mut Vec<u8>,
    tag: u64,
    hart: u64,
    function: u64,
    arguments: [u64; 3],
) {
    let mut words = [0; 12];
    words[0] = tag;
    words[1] = hart;
    words[2] = arguments[0];
    words[3] = arguments[1];
    words[4] = arguments[2];
    words[8] = function;
    words[9] = EXTENSION;
    words[10] = INTERRUPTS;
    words[11] = COUNTERS;
    put_words(rt, frames, &words);
}

/// Appends the traps of a life: the first hart creates an enclave of one page and runs it, the timer stops it there,
/// the second hart resumes it, it exits there with 7, and the first destroys it.
fn put_life(rt: &impl Abort, frames: &mut Vec<u8>) {
    put_platform(rt, frames);
    put_trap(rt, frames, CALL_TAG, 0, 0, [PAGE * 4096, 1, 0]);
    put_words(rt, frames, &[PAGE_TAG, PAGE]);
    put_words(rt, frames, &[0; 512]);
    put_trap(rt, frames, CALL_TAG, 0, 2, [1, 0, 0]);
    put_trap(rt, frames, STOP_TAG, 0, 0, [0, 0, 0]);
    put_trap(rt, frames, CALL_TAG, 1, 4, [1, 0, 0]);
    put_trap(rt, frames, CALL_TAG, 1, 5, [7, 0, 0]);
    put_trap(rt, frames, CALL_TAG, 0, 1, [1, 0, 0]);
}

/// Asserts that the output begins with these words, and returns the rest.
fn after<'a>(rt: &impl Abort, alloc: Global, written: &'a [u8], words: &[u64]) -> &'a [u8] {
    let mut front = Vec::new(alloc);
    put_words(rt, &mut front, words);
    assert!(rt; written.starts_with(front.as_slice()));
    assert!(rt; written.len() >= front.len());
    &written[front.len()..]
}

/// Asserts the head of an answer, and returns the rest after it: its hart, its world, the status and the value, the
/// number of entries, the pages to zero, the harts that are woken, the number of new lists, at most two, and the number
/// of control words, which are an enclave's.
fn after_answer<'a>(
    rt: &impl Abort,
    alloc: Global,
    written: &'a [u8],
    head: [u64; 10],
) -> &'a [u8] {
    let rest = after(rt, alloc, written, &[ANSWER_TAG]);
    let rest = after(rt, alloc, rest, &head);
    assert!(rt; head[8] <= 2);
    let bytes = (8 * (FRONT - 11 + LIST * head[8])) as usize;
    assert!(rt; rest.len() >= bytes);
    let rest = &rest[bytes..];
    if head[9] == 0 {
        return rest;
    }
    after(rt, alloc, rest, &ENCLAVE_WORDS)
}

/// Asserts the answers in turn. The host's list is new at boot, after the creation, with the enclave's, and after the
/// destruction. The pages of the creation are requested once, after its answer, and those of the destruction are listed
/// once. Control words are given only when a host enters the enclave.
fn answers_a_life(rt: &impl Abort, alloc: Global, written: &[u8]) {
    let rest = after_answer(rt, alloc, written, [0, 0, 0, 0, 3, 0, 0, 2, 1, 0]);
    let rest = after_answer(rt, alloc, rest, [0, 0, 0, 1, 4, 0, 0, 2, 2, 0]);
    let rest = after(rt, alloc, rest, &[MEASURE_TAG, PAGE, 1]);
    let rest = after_answer(rt, alloc, rest, [0, 1, 0, 0, 1, 0, 0, 0, 0, 9]);
    let rest = after_answer(rt, alloc, rest, [0, 0, 0, 0, 4, 0, 0, 0, 0, 0]);
    let rest = after_answer(rt, alloc, rest, [1, 1, 0, 0, 1, 0, 0, 0, 0, 9]);
    let rest = after_answer(rt, alloc, rest, [1, 0, 0, 7, 4, 0, 0, 0, 0, 0]);
    let rest = after_answer(rt, alloc, rest, [0, 0, 0, 0, 3, PAGE, 1, 2, 1, 0]);
    assert!(rt; rest.is_empty());
}

#[test]
fn a_life_on_two_harts_is_served(rt: HostRuntime) {
    let mut frames = Vec::new(rt.alloc());
    put_life(&rt, &mut frames);
    let mut source = PieceSource::new(frames.as_slice(), 4096, None);
    let mut sink = Counted::new(Vec::new(rt.alloc()));
    let served = serve_life(rt.alloc(), &mut source, &mut sink);
    assert!(&rt; served == Ok(()));
    let written = sink.into_inner();
    answers_a_life(&rt, rt.alloc(), written.as_slice());
}
