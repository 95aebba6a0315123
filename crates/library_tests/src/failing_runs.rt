//! Runs whose source or sink fails.

use crate::machines::{example_machine, x};
use hart_sim::{Machine, RunFault, run};
use std::alloc::Global;
use std::process::Abort;
use text_lines::fakes::{PieceSink, PieceSource};

fn fails(
    machine: &mut Machine,
    trace: &[u8],
    read: Option<u64>,
    write: Option<u64>,
    report: &[u8],
) -> Option<RunFault> {
    let mut source = PieceSource::new(trace, 1, read);
    let mut sink = PieceSink::new(1, write);
    let end = run(machine, &mut source, &mut sink);
    if sink.written() == report {
        return end.err();
    }
    None
}

/// A run on a new machine: the trace, the read or the write that fails, the end of the run, and its report.
type Row<'a> = (&'a [u8], Option<u64>, Option<u64>, RunFault, &'a str);

/// Asserts the end and the report of each row's run.
fn all_fail(rt: &impl Abort, alloc: Global, rows: &[Row<'_>]) {
    for (trace, read, write, end, report) in rows {
        let mut machine = example_machine(rt, alloc, 1);
        let ended = fails(&mut machine, trace, *read, *write, report.as_bytes());
        assert!(rt; ended == Some(*end), "behind {report:?}");
    }
}

#[test]
fn a_failing_device_ends_a_run_behind_what_it_took(rt: HostRuntime) {
    all_fail(
        &rt,
        rt.alloc(),
        &[
            (
                b"irq\nirq\n",
                None,
                Some(14),
                RunFault::Write,
                "1 irq 0 3\n2 i",
            ),
            (b"irq\nir", Some(7), None, RunFault::Read, "1 irq 0 3\n"),
            (b"irq", Some(4), None, RunFault::Read, ""),
            (b"irq\nirq\n", None, Some(1), RunFault::Write, ""),
        ],
    );
}

/// Asserts that the second event has happened if the sink fails in its reply.
fn is_cut_in_a_reply(rt: &impl Abort, machine: &mut Machine) {
    let mut source = PieceSource::new(b"reg x5 7\nreg x5 8\nreg x5 9\n", 100, None);
    let mut sink = PieceSink::new(1, Some(8));
    assert!(rt; run(machine, &mut source, &mut sink) == Err(RunFault::Write));
    assert!(rt; sink.written() == b"1 ok\n2 ".as_slice());
    assert!(rt; x(machine, 0, 5) == 8);
}

#[test]
fn an_event_whose_reply_is_cut_has_happened(rt: HostRuntime) {
    let mut machine = example_machine(&rt, rt.alloc(), 1);
    is_cut_in_a_reply(&rt, &mut machine);
}

/// Asserts that only the first event has happened if the sink accepts no byte of its reply.
fn takes_none(rt: &impl Abort, machine: &mut Machine) {
    let mut source = PieceSource::new(b"reg x5 7\nreg x5 8\n", 100, None);
    let mut sink = PieceSink::new(0, None);
    assert!(rt; run(machine, &mut source, &mut sink) == Err(RunFault::Write));
    assert!(rt; sink.written().is_empty());
    assert!(rt; x(machine, 0, 5) == 7);
}

#[test]
fn a_writer_that_takes_no_byte_ends_a_run(rt: HostRuntime) {
    let mut machine = example_machine(&rt, rt.alloc(), 1);
    takes_none(&rt, &mut machine);
}
