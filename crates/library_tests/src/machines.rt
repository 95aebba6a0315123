//! Machines of the example platform, the reports of their runs, and their state.

use hart_sim::{Machine, RunFault, run};
use platforms::Platform;
use pmp_encoding::{Bank, Perm};
use std::alloc::Global;
use std::process::Abort;
use text_lines::fakes::{PieceSink, PieceSource};

/// Returns the example platform.
pub fn example_platform(rt: &impl Abort) -> Platform {
    Platform::new(
        (0x8000_0000, 0x20_0000),
        [(0x8000_0000, 0x800_0000)].as_slice(),
        [(0x1000_0000, 0x1000, Perm::ReadWrite)].as_slice(),
    )
    .expect(rt, "a platform")
}

/// Returns the machine of the example platform with that many harts.
pub fn example_machine(rt: &impl Abort, alloc: Global, harts: u8) -> Machine {
    let platform = example_platform(rt).with_harts(harts).expect(rt, "harts");
    Machine::boot(alloc, platform).expect(rt, "memory")
}

/// Returns whether a run of a trace ends in this way with this report.
pub fn ends(machine: &mut Machine, trace: &[u8], end: Result<(), RunFault>, report: &[u8]) -> bool {
    let mut source = PieceSource::new(trace, 100, None);
    let mut sink = PieceSink::new(100, None);
    run(machine, &mut source, &mut sink) == end && sink.written() == report
}

/// Returns whether a trace runs to its end with this report.
pub fn answers(machine: &mut Machine, trace: &[u8], report: &[u8]) -> bool {
    ends(machine, trace, Ok(()), report)
}

/// Asserts the end and the report of a trace on a new machine.
pub fn ends_anew(
    rt: &impl Abort,
    alloc: Global,
    harts: u8,
    trace: &str,
    end: Result<(), RunFault>,
    report: &[u8],
) {
    let mut machine = example_machine(rt, alloc, harts);
    assert!(rt;
        ends(&mut machine, trace.as_bytes(), end, report),
        "{trace}"
    );
}

/// Asserts that a trace runs to its end on a new machine, with this report.
pub fn answers_anew(rt: &impl Abort, alloc: Global, trace: &str, report: &[u8]) {
    ends_anew(rt, alloc, 1, trace, Ok(()), report)
}

/// Returns a register of a hart, or 0 if it does not exist.
pub fn x(machine: &Machine, hart: u8, n: usize) -> u64 {
    if hart < 4 && n <= 31 {
        return machine.registers(hart).get(n);
    }
    0
}

/// Returns the program counter of a hart.
pub fn pc(machine: &Machine, hart: u8) -> u64 {
    if hart < 4 {
        return machine.registers(hart).pc();
    }
    0
}

/// Returns a0 and a1 of the first hart, and its program counter.
pub fn a0_a1_pc(machine: &Machine) -> [u64; 3] {
    [x(machine, 0, 10), x(machine, 0, 11), pc(machine, 0)]
}

/// Returns whether the first and the second hart are marked.
pub fn marks(machine: &Machine) -> (bool, bool) {
    (machine.marked(0), machine.marked(1))
}

/// Returns a word of an enclave's digest.
pub fn word(machine: &Machine, id: u64, k: u64) -> u64 {
    machine.table().word(id, k).unwrap_or(0)
}

/// Returns the digest of an enclave as four words.
pub fn digest(machine: &Machine, id: u64) -> [u64; 4] {
    [
        word(machine, id, 0),
        word(machine, id, 1),
        word(machine, id, 2),
        word(machine, id, 3),
    ]
}

/// Replaces the bank of the first hart.
pub fn put(machine: &mut Machine, bank: Bank) {
    if bank.limit().number() == machine.table().limit().number() {
        machine.set_bank(0, bank);
    }
}
