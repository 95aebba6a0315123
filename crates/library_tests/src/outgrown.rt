//! Calls that are refused for lack of entries, each with the number that a view needs.

use crate::machines::example_machine;
use std::alloc::Global;
use std::process::Abort;
use text_lines::Direct;
use text_lines::fakes::{PieceSink, PieceSource};
use trace_answers::explain_run;

/// Asserts the last answer to a trace on a new machine.
fn ends_with(rt: &impl Abort, alloc: Global, trace: &[u8], last: &[u8]) {
    let machine = example_machine(rt, alloc, 1);
    let mut source = PieceSource::new(trace, 100, None);
    let mut sink = PieceSink::new(100, None);
    let ran = explain_run::<_, Direct, _>(machine, &mut source, &mut sink);
    assert!(rt; ran.end == Ok(()));
    assert!(rt; sink.written().ends_with(last));
}

#[test]
fn a_creation_and_a_destruction_tell_whose_view_needs_how_many(rt: HostRuntime) {
    let rows: [(&[u8], &[u8]); 4] = [
        (
            b"ecall 0x08454E43 0 0x80200000 1 0 0 0 0\necall 0x08454E43 0 0x80202000 1 0 0 0 0\necall 0x08454E43 0 0x80204000 1 0 0 0 0\necall 0x08454E43 0 0x80206000 1 0 0 0 0\necall 0x08454E43 0 0x80208000 1 0 0 0 0\necall 0x08454E43 0 0x8020a000 1 0 0 0 0\necall 0x08454E43 0 0x8020c000 1 0 0 0 0\necall 0x08454E43 0 0x8020e000 1 0 0 0 0\necall 0x08454E43 0 0x80210000 1 0 0 0 0\necall 0x08454E43 0 0x80212000 1 0 0 0 0\necall 0x08454E43 0 0x80214000 1 0 0 0 0\necall 0x08454E43 0 0x80216000 1 0 0 0 0\necall 0x08454E43 0 0x80218000 1 0 0 0 0\necall 0x08454E43 0 0x8021a000 1 0 0 0 0\n",
            b"\n14 call -108 0x0000000000000000 0 16 # hart 0, host: create 0x8021a000, 1 page: refused, the host's view needs 17 entries\n",
        ),
        (
            b"ecall 0x08454E43 0 0x80200000 1 0 0 0 0\necall 0x08454E43 0 0x80202000 1 0 0 0 0\necall 0x08454E43 0 0x80204000 1 0 0 0 0\necall 0x08454E43 0 0x80206000 1 0 0 0 0\necall 0x08454E43 0 0x80208000 1 0 0 0 0\necall 0x08454E43 0 0x8020a000 1 0 0 0 0\necall 0x08454E43 0 0x8020c000 1 0 0 0 0\necall 0x08454E43 0 0x8020e000 1 0 0 0 0\necall 0x08454E43 0 0x80210000 1 0 0 0 0\necall 0x08454E43 0 0x80212000 1 0 0 0 0\necall 0x08454E43 0 0x80214000 1 0 0 0 0\necall 0x08454E43 0 0x80216000 1 0 0 0 0\necall 0x08454E43 0 0x80218000 1 0 0 0 0\necall 0x08454E43 0 0x84a5a000 721 303 0x85a29000 201 0\n",
            b"\n14 call -108 0x0000000000000000 0 16 # hart 0, host: create 0x84a5a000, 1024 pages: refused, the host's view needs 26 entries\n",
        ),
        (
            b"irq\necall 0x08454E43 0 0x84a5a000 721 303 0x85a29000 201 0",
            b"\n2 call -108 0x0000000000000000 0 3 # hart 0, host: create 0x84a5a000, 1024 pages: refused, the enclave's view needs 21 entries\n",
        ),
        (
            b"ecall 0x08454E43 0 0x80200000 1 0 0 0 0\necall 0x08454E43 0 0x80201000 1 0 0 0 0\necall 0x08454E43 0 0x80202000 1 0 0 0 0\necall 0x08454E43 0 0x80203000 1 0 0 0 0\necall 0x08454E43 0 0x80204000 1 0 0 0 0\necall 0x08454E43 0 0x80205000 1 0 0 0 0\necall 0x08454E43 0 0x80206000 1 0 0 0 0\necall 0x08454E43 0 0x80207000 1 0 0 0 0\necall 0x08454E43 0 0x80208000 1 0 0 0 0\necall 0x08454E43 0 0x80209000 1 0 0 0 0\necall 0x08454E43 0 0x8020a000 1 0 0 0 0\necall 0x08454E43 0 0x8020b000 1 0 0 0 0\necall 0x08454E43 0 0x8020c000 1 0 0 0 0\necall 0x08454E43 0 0x8020d000 1 0 0 0 0\necall 0x08454E43 0 0x8020e000 1 0 0 0 0\necall 0x08454E43 0 0x8020f000 1 0 0 0 0\necall 0x08454E43 0 0x80210000 1 0 0 0 0\necall 0x08454E43 0 0x80211000 1 0 0 0 0\necall 0x08454E43 0 0x80212000 1 0 0 0 0\necall 0x08454E43 0 0x80213000 1 0 0 0 0\necall 0x08454E43 0 0x80214000 1 0 0 0 0\necall 0x08454E43 0 0x80215000 1 0 0 0 0\necall 0x08454E43 0 0x80216000 1 0 0 0 0\necall 0x08454E43 0 0x80217000 1 0 0 0 0\necall 0x08454E43 0 0x80218000 1 0 0 0 0\necall 0x08454E43 0 0x80219000 1 0 0 0 0\necall 0x08454E43 0 0x8021a000 1 0 0 0 0\necall 0x08454E43 0 0x8021b000 1 0 0 0 0\necall 0x08454E43 0 0x8021c000 1 0 0 0 0\necall 0x08454E43 0 0x8021d000 1 0 0 0 0\necall 0x08454E43 0 0x8021e000 1 0 0 0 0\necall 0x08454E43 0 0x8021f000 1 0 0 0 0\necall 0x08454E43 1 1\necall 0x08454E43 1 3\necall 0x08454E43 1 5\necall 0x08454E43 1 7\necall 0x08454E43 1 9\necall 0x08454E43 1 11\necall 0x08454E43 1 13\necall 0x08454E43 1 15\necall 0x08454E43 1 17\necall 0x08454E43 1 19\necall 0x08454E43 1 21\necall 0x08454E43 1 23\necall 0x08454E43 1 25\n",
            b"\n45 call -108 0x0000000000000000 0 16 # hart 0, host: destroy 25: refused, the host's view needs 17 entries\n",
        ),
    ];
    for (trace, last) in rows {
        ends_with(&rt, rt.alloc(), trace, last);
    }
}
