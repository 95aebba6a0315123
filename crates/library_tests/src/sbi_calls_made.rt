//! Calls of the Supervisor Binary Interface, and their outcomes.

ghost use Rattle.std.specs.Prelude.{◌≡◌};

use sbi_calls::{BankWords, Caller, Decision, Harts, HostCall, action_of, decide, outcome_of};
use sbi_decode::World;
use std::process::Abort;

// The words of the errors -2, -3, -5 and -6.

const NOT_SUPPORTED: u64 = 0xffff_ffff_ffff_fffe;

const INVALID_PARAM: u64 = 0xffff_ffff_ffff_fffd;

const INVALID_ADDRESS: u64 = 0xffff_ffff_ffff_fffb;

const ALREADY_AVAILABLE: u64 = 0xffff_ffff_ffff_fffa;

const ALL: u64 = u64::MAX;

const HSM: u64 = 0x0048_534d;

/// Two harts, the first of which is started.
const HARTS: Harts = Harts {
    count: 2,
    started: 1,
    pending: 0,
};

fn caller(hart: u64) -> Caller
    ensures { result.hart ≡ hart }
{
    Caller {
        hart,
        vendor: 21,
        architecture: 22,
        implementation: 23,
        stop_cause: 24,
        stop_value: 25,
    }
}

/// Returns a bank that allows executing the 4096 bytes from 0x80200000 on, and reading and writing everything else.
fn bank() -> BankWords {
    let mut addr = [0; 64];
    addr[0] = 0x2008_01ff;
    addr[1] = (1 << 53) - 1;
    BankWords {
        cfg: [0x1b1d, 0, 0, 0, 0, 0, 0, 0],
        addr,
    }
}

fn call(extension: u64, function: u64, a0: u64, a1: u64) -> HostCall {
    HostCall {
        a0,
        a1,
        a2: 77,
        a3: 0,
        a4: 0,
        a5: 0,
        function,
        extension,
    }
}

/// Extension, function, a0 and a1; and the number of the action, its error, its value, and its subject.
type Row = ([u64; 4], [u64; 4]);

const ANSWERS: &[Row] = &[
    // Chapter 4
    ([0x10, 0, 0, 0], [3, 0, 0x100_0000, 0]),
    ([0x10, 3, HSM, 0], [3, 0, 1, 0]),
    ([0x10, 3, 1, 0], [3, 0, 0, 0]),
    ([0x10, 4, 0, 0], [3, 0, 21, 0]),
    ([0x10, 6, 0, 0], [3, 0, 23, 0]),
    ([0x10, 7, 0, 0], [3, NOT_SUPPORTED, 0, 0]),
    // Chapter 6
    ([0x5449_4d45, 0, 99, 0], [4, 0, 0, 99]),
    ([0x5449_4d45, 1, 0, 0], [3, NOT_SUPPORTED, 0, 0]),
    // Chapter 7, and the list of harts of chapter 3. The second hart is not started.
    ([0x0073_5049, 0, 3, 0], [5, 0, 0, 1]),
    ([0x0073_5049, 0, 0, ALL], [5, 0, 0, 1]),
    ([0x0073_5049, 0, 4, 0], [3, INVALID_PARAM, 0, 0]),
    ([0x0073_5049, 0, 2, 1], [3, INVALID_PARAM, 0, 0]),
    ([0x0073_5049, 0, 0, 2], [3, INVALID_PARAM, 0, 0]),
    // Chapter 8
    ([0x5246_4e43, 0, 3, 0], [6, 0, 0, 3]),
    ([0x5246_4e43, 1, 1, 1], [7, 0, 0, 2]),
    ([0x5246_4e43, 2, 0, ALL], [7, 0, 0, 3]),
    ([0x5246_4e43, 3, 1, 0], [3, NOT_SUPPORTED, 0, 0]),
    ([0x5246_4e43, 1, 4, 0], [3, INVALID_PARAM, 0, 0]),
    // Chapter 9
    ([HSM, 0, 0, 0x8020_0000], [3, ALREADY_AVAILABLE, 0, 0]),
    ([HSM, 0, 2, 0x8020_0000], [3, INVALID_PARAM, 0, 0]),
    ([HSM, 0, 1, 0x8020_0001], [3, INVALID_ADDRESS, 0, 0]),
    ([HSM, 0, 1, 0x8020_1000], [3, INVALID_ADDRESS, 0, 0]),
    ([HSM, 0, 1, 1 << 56], [3, INVALID_ADDRESS, 0, 0]),
    ([HSM, 0, 1, 0x8020_0ffe], [9, 0, 0, 1]),
    ([HSM, 1, 0, 0], [10, 0, 0, 0]),
    ([HSM, 2, 0, 0], [3, 0, 0, 0]),
    ([HSM, 2, 1, 0], [3, 0, 1, 0]),
    ([HSM, 2, 2, 0], [3, INVALID_PARAM, 0, 0]),
    ([HSM, 3, 0, 0], [3, NOT_SUPPORTED, 0, 0]),
    ([HSM, 3, 0x8fff_ffff, 0], [3, INVALID_PARAM, 0, 0]),
    ([HSM, 3, 0x9000_0000, 0], [3, NOT_SUPPORTED, 0, 0]),
    // Chapter 10
    ([0x5352_5354, 0, 0, 0], [11, 0, 0, 0]),
    ([0x5352_5354, 0, 0, 1], [12, 0, 0, 0]),
    ([0x5352_5354, 0, 1, 0], [13, 0, 0, 0]),
    ([0x5352_5354, 0, 2, 0], [13, 0, 0, 0]),
    ([0x5352_5354, 0, 3, 0], [3, INVALID_PARAM, 0, 0]),
    ([0x5352_5354, 0, 0xf000_0000, 0], [3, NOT_SUPPORTED, 0, 0]),
    ([0x5352_5354, 0, 0, 2], [3, INVALID_PARAM, 0, 0]),
    // Version 2.0, chapter 12
    ([0x4442_434e, 2, 0x141, 0], [8, 0, 0, 0x41]),
    ([0x4442_434e, 0, 1, 0], [3, NOT_SUPPORTED, 0, 0]),
    // The monitor's, and the firmware's own; and an extension that does not exist
    ([0x0845_4e43, 1, 1, 0], [14, 0, 0, 0]),
    ([0x0845_4e43, 2, 1, 0], [14, 0, 0, 0]),
    ([0x0a45_4e43, 0, 0, 0], [3, 0, 24, 0]),
    ([0x0a45_4e43, 1, 0, 0], [3, 0, 25, 0]),
    ([0x0050_4d55, 0, 0, 0], [3, NOT_SUPPORTED, 0, 0]),
];

/// Asserts the action of each row's call.
fn all_come_to(rt: &impl Abort, rows: &[Row]) {
    let bank = bank();
    for ([extension, function, a0, a1], wanted) in rows {
        let outcome = outcome_of(
            &call(*extension, *function, *a0, *a1),
            &caller(0),
            &HARTS,
            &bank,
        );
        let action = action_of(Decision::Host(outcome));
        let found = [action.kind, action.error, action.value, action.subject];
        assert!(rt;
            found == *wanted,
            "{extension:#x} {function} {a0:#x} {a1:#x}"
        );
    }
}

#[test]
fn calls_come_to_what_their_tables_say(rt: HostRuntime) {
    all_come_to(&rt, ANSWERS);
}

/// A world, a cause, and the number of the action.
type Trap = (World, u64, u64);

const INTERRUPT: u64 = 1 << 63;

const TRAPS: &[Trap] = &[
    (World::Host, INTERRUPT | 3, 0),
    (World::Host, INTERRUPT | 7, 1),
    (World::Host, 9, 10),
    (World::Host, 8, 2),
    (World::Host, 10, 2),
    (World::Host, 2, 2),
    (World::Enclave(1), INTERRUPT | 3, 0),
    (World::Enclave(1), INTERRUPT | 7, 17),
    (World::Enclave(1), INTERRUPT | 5, 16),
    (World::Enclave(1), 8, 15),
    (World::Enclave(1), 9, 16),
    (World::Enclave(1), 5, 16),
];

/// Asserts the action of each row's trap, with the registers of the call that stops a hart.
fn all_are_whose(rt: &impl Abort, traps: &[Trap]) {
    let bank = bank();
    let stop = call(HSM, 1, 0, 0);
    for (world, cause, kind) in traps {
        let mut harts = HARTS;
        let decision = decide(*world, *cause, &stop, &caller(0), &bank, &mut harts);
        assert!(rt; action_of(decision).kind == *kind, "{cause:#x}");
        assert!(rt; harts.started == u64::from(*kind != 10), "{cause:#x}");
    }
}

#[test]
fn traps_are_whose_their_cause_says(rt: HostRuntime) {
    all_are_whose(&rt, TRAPS);
}

/// Asserts the started and the pending harts after a trap of the host on a hart.
fn goes_on(
    rt: &impl Abort,
    harts: &mut Harts,
    hart: u64,
    cause: u64,
    call: &HostCall,
    words: [u64; 2],
) {
    let _done = decide(World::Host, cause, call, &caller(hart % 64), &bank(), harts);
    assert!(rt; [harts.started, harts.pending & !harts.started] == words);
}

#[test]
fn a_hart_is_started_begins_and_stops(rt: HostRuntime) {
    let mut harts = HARTS;
    let start = call(HSM, 0, 1, 0x8020_0000);
    let stop = call(HSM, 1, 0, 0);
    goes_on(&rt, &mut harts, 0, 9, &start, [1, 2]);
    goes_on(&rt, &mut harts, 1, INTERRUPT | 3, &stop, [3, 0]);
    goes_on(&rt, &mut harts, 1, INTERRUPT | 3, &stop, [3, 0]);
    goes_on(&rt, &mut harts, 0, 9, &start, [3, 0]);
    goes_on(&rt, &mut harts, 1, 9, &stop, [1, 0]);
}
