//! Summaries of traces that were run on a machine.

use crate::machines::example_machine;
use hart_sim::Machine;
use std::alloc::Global;
use std::process::Abort;
use text_lines::Direct;
use text_lines::fakes::{PieceSink, PieceSource};
use trace_answers::{Tally, asked_of, explain_run, print_summary};

/// Asserts the summary of the counts on a machine.
fn is_summed_up(rt: &impl Abort, tally: &Tally, machine: &Machine, summary: &[u8]) {
    let mut sink = PieceSink::new(100, None);
    assert!(rt; print_summary(tally, machine, &mut sink) == Ok(()));
    assert!(rt; sink.written() == summary);
}

/// Asserts the summary of a trace on a new machine.
fn sums_up(rt: &impl Abort, alloc: Global, harts: u8, trace: &[u8], summary: &[u8]) {
    let machine = example_machine(rt, alloc, harts);
    let mut source = PieceSource::new(trace, 100, None);
    let mut sink = PieceSink::new(100, None);
    let ran = explain_run::<_, Direct, _>(machine, &mut source, &mut sink);
    assert!(rt; ran.end == Ok(()));
    is_summed_up(rt, &ran.tally, &ran.machine, summary);
}

/// Performs a line on a machine and counts its event.
fn count_line(tally: &mut Tally, machine: &mut Machine, line: &[u8]) {
    let Ok(Some((hart, event))) = machine.event_in(line) else {
        return;
    };
    let asked = asked_of(machine, hart, &event);
    let reply = machine.step(hart, event);
    tally.add(&asked, &reply);
}

#[test]
fn the_life_cycle_in_numbers(rt: HostRuntime) {
    sums_up(
        &rt,
        rt.alloc(),
        1,
        b"store s 8 0x80200000 0x1122334455667788\necall 0x08454E43 0 0x80200000 1 0 0 0 0\nload s 8 0x80200000\necall 0x08454E43 2 1\necall 0x08454E43 2 1\nload u 8 0x80200000\nirq\necall 0x08454E43 4 1\necall 0x08454E43 5 7\necall 0x08454E43 4 1\necall 0x08454E43 1 1\necall 0x08454E43 1 1\nload s 8 0x80200000\n",
        b"# events: 13 (accesses: 4, calls: 8, interrupts: 1)\n# faults: 1 (cause 5: 1)\n# calls: 8 (create: 1, destroy: 2, run: 2, resume: 2, exit: 1)\n# refused: 3 (-101: 1, -110: 1, -111: 1)\n# most entries loaded: 4\n# at the end: enclaves live: 0, harts marked: 0\n",
    );
}

#[test]
fn faults_by_cause_and_calls_by_registers(rt: HostRuntime) {
    sums_up(
        &rt,
        rt.alloc(),
        2,
        b"reg x17 0x08454E43\nreg x16 3\necall\necall 0x10 0\nload u 8 0x80000000\nload u 8 0x80000001\nstore u 4 0x80000000 1\nfetch u 4 0x80000000\necall 0x08454E43 6 1 0\n@1 ecall 0x08454E43 0 0x80200000 1 0 0 0 0\n",
        b"# events: 10 (accesses: 4, registers set: 2, calls: 4)\n# faults: 4 (cause 1: 1, cause 4: 1, cause 5: 1, cause 7: 1)\n# calls: 4 (create: 1, stop: 1, measure: 1, unknown: 1)\n# refused: 3 (-2: 1, -101: 1, -110: 1)\n# most entries loaded: 4\n# at the end: enclaves live: 1, harts marked: 1\n",
    );
}

#[test]
fn nothing_in_numbers(rt: HostRuntime) {
    sums_up(
        &rt,
        rt.alloc(),
        1,
        b"# nothing\n",
        b"# at the end: enclaves live: 0, harts marked: 0\n",
    );
}

/// Asserts the summary of one event on a machine.
fn counts(rt: &impl Abort, machine: &mut Machine, line: &[u8], summary: &[u8]) {
    let mut tally = Tally::new();
    count_line(&mut tally, machine, line);
    is_summed_up(rt, &tally, machine, summary);
}

#[test]
fn an_event_counted_by_itself(rt: HostRuntime) {
    let mut machine = example_machine(&rt, rt.alloc(), 2);
    counts(
        &rt,
        &mut machine,
        b"@1 load s 8 0x80000000",
        b"# events: 1 (accesses: 1)\n# faults: 1 (cause 5: 1)\n# at the end: enclaves live: 0, harts marked: 0\n",
    );
}
