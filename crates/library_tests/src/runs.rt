//! Traces on booted machines. A test owns its machine for one call only, because each call beside an owned machine adds
//! an exit path to prove, on which the machine is dropped.

use crate::machines::{
    a0_a1_pc, answers, answers_anew, digest, ends_anew, example_machine, example_platform, marks,
    pc, put, x,
};
use enclave_table::World;
use hart_sim::{Machine, RunFault, run};
use pmp_encoding::{Bank, Entry, Limit, Perm, Region};
use std::alloc::Global;
use std::process::Abort;
use text_lines::fakes::{PieceSink, PieceSource};

#[test]
fn the_life_cycle_trace_gives_its_thirteen_lines(rt: HostRuntime) {
    answers_anew(
        &rt,
        rt.alloc(),
        "store s 8 0x80200000 0x1122334455667788\necall 0x08454E43 0 0x80200000 1 0 0 0 0\nload s 8 0x80200000\necall 0x08454E43 2 1\necall 0x08454E43 2 1\nload u 8 0x80200000\nirq\necall 0x08454E43 4 1\necall 0x08454E43 5 7\necall 0x08454E43 4 1\necall 0x08454E43 1 1\necall 0x08454E43 1 1\nload s 8 0x80200000\n",
        b"1 ok\n2 call 0 0x0000000000000001 0 4\n3 fault 5\n4 call 0 0x0000000000000000 1 1\n5 call -101 0x0000000000000000 1 1\n6 ok 0x1122334455667788\n7 irq 0 4\n8 call 0 0x0000000000000000 1 1\n9 call 0 0x0000000000000007 0 4\n10 call -111 0x0000000000000000 0 4\n11 call 0 0x0000000000000000 0 3\n12 call -110 0x0000000000000000 0 3\n13 ok 0x0000000000000000\n",
    );
}

/// Asserts the registers while an enclave is created, run, interrupted, resumed and left.
fn goes_through_a_life_cycle(rt: &impl Abort, machine: &mut Machine) {
    assert!(rt;
        answers(
            machine,
            b"store s 8 0x80200000 0x1122334455667788\necall 0x08454E43 0 0x80200000 1 0 0 0 0\nload s 8 0x80200000\necall 0x08454E43 2 1\n",
            b"1 ok\n2 call 0 0x0000000000000001 0 4\n3 fault 5\n4 call 0 0x0000000000000000 1 1\n"
        )
    );
    assert!(rt; (x(machine, 0, 10), pc(machine, 0)) == (1, 0x8020_0000));
    assert!(rt; machine.world(0) == World::Enclave(1));
    assert!(rt;
        answers(
            machine,
            b"ecall 0x08454E43 2 1\nload u 8 0x80200000\nirq\n",
            b"1 call -101 0x0000000000000000 1 1\n2 ok 0x1122334455667788\n3 irq 0 4\n"
        )
    );
    assert!(rt; a0_a1_pc(machine) == [1, 0, 8]);
    assert!(rt;
        answers(
            machine,
            b"ecall 0x08454E43 4 1\necall 0x08454E43 5 7\n",
            b"1 call 0 0x0000000000000000 1 1\n2 call 0 0x0000000000000007 0 4\n"
        )
    );
    assert!(rt; a0_a1_pc(machine) == [0, 7, 12]);
    assert!(rt; machine.world(0) == World::Host);
}

#[test]
fn registers_on_the_way_through_a_life_cycle(rt: HostRuntime) {
    let mut machine = example_machine(&rt, rt.alloc(), 1);
    goes_through_a_life_cycle(&rt, &mut machine);
}

/// Asserts the registers while an enclave stops itself and is resumed.
fn stops_and_goes_on(rt: &impl Abort, machine: &mut Machine) {
    assert!(rt;
        answers(
            machine,
            b"ecall 0x08454E43 0 0x80200000 1 0 0 0 0\necall 0x08454E43 2 1\necall 0x08454E43 3\n",
            b"1 call 0 0x0000000000000001 0 4\n2 call 0 0x0000000000000000 1 1\n3 call 0 0x0000000000000000 0 4\n"
        )
    );
    assert!(rt; a0_a1_pc(machine) == [1, 0, 8]);
    assert!(rt;
        answers(
            machine,
            b"ecall 0x08454E43 4 1\n",
            b"1 call 0 0x0000000000000000 1 1\n"
        )
    );
    assert!(rt; a0_a1_pc(machine) == [0, 0, 0x8020_0004]);
    assert!(rt; (x(machine, 0, 17), x(machine, 0, 16)) == (0x0845_4E43, 3));
}

#[test]
fn an_enclave_that_stopped_itself_goes_on_behind_its_call(rt: HostRuntime) {
    let mut machine = example_machine(&rt, rt.alloc(), 1);
    stops_and_goes_on(&rt, &mut machine);
}

#[test]
fn text_is_read_and_run_inside_and_closed_outside(rt: HostRuntime) {
    answers_anew(
        &rt,
        rt.alloc(),
        "ecall 0x08454E43 0 0x80200000 1 0 0 0 0\nload s 8 0x80200000\nstore s 8 0x80200000 1\nfetch s 4 0x80200000\necall 0x08454E43 2 1\nload s 8 0x80200000\nfetch s 4 0x80200000\nstore s 8 0x80200000 1\n",
        b"1 call 0 0x0000000000000001 0 4\n2 fault 5\n3 fault 7\n4 fault 1\n5 call 0 0x0000000000000000 1 1\n6 ok 0x0000000000000000\n7 ok\n8 fault 7\n",
    );
}

#[test]
fn a_destruction_makes_private_pages_zero_and_leaves_shared_ones(rt: HostRuntime) {
    answers_anew(
        &rt,
        rt.alloc(),
        "store s 8 0x80200000 7\nstore s 8 0x80210000 9\necall 0x08454E43 0 0x80210000 1 0 0x80200000 1 0\necall 0x08454E43 1 1\nload s 8 0x80200000\nload s 8 0x80210000\n",
        b"1 ok\n2 ok\n3 call 0 0x0000000000000001 0 4\n4 call 0 0x0000000000000000 0 3\n5 ok 0x0000000000000007\n6 ok 0x0000000000000000\n",
    );
}

#[test]
fn unknown_calls_are_not_supported(rt: HostRuntime) {
    answers_anew(
        &rt,
        rt.alloc(),
        "ecall 0x08454E43 7\necall 0x10 0\n",
        b"1 call -2 0x0000000000000000 0 3\n2 call -2 0x0000000000000000 0 3\n",
    );
}

/// Asserts the digests of three enclaves of two pages each, the first two of which have the same contents.
fn digests_three(rt: &impl Abort, machine: &mut Machine) {
    assert!(rt;
        answers(
            machine,
            b"store s 8 0x80200008 7\nstore s 8 0x80201010 9\nstore s 8 0x80210008 7\nstore s 8 0x80211010 9\nstore s 8 0x80220008 7\nstore s 8 0x80221010 8\necall 0x08454E43 0 0x80200000 2 0 0 0 0\necall 0x08454E43 0 0x80210000 2 0 0 0 0\necall 0x08454E43 0 0x80220000 2 0 0 0 0\n",
            b"1 ok\n2 ok\n3 ok\n4 ok\n5 ok\n6 ok\n7 call 0 0x0000000000000001 0 4\n8 call 0 0x0000000000000002 0 5\n9 call 0 0x0000000000000003 0 6\n"
        )
    );
    assert!(rt; digest(machine, 1) == digest(machine, 2));
    assert!(rt; digest(machine, 1) != digest(machine, 3));
}

#[test]
fn digests_are_of_the_contents_and_not_of_the_place(rt: HostRuntime) {
    let mut machine = example_machine(&rt, rt.alloc(), 1);
    digests_three(&rt, &mut machine);
}

/// Returns the entry of the whole space with all permissions.
fn whole_space(rt: &impl Abort) -> Entry {
    let region = Region::new(0, 56).expect(rt, "a block");
    Entry {
        region,
        perm: Perm::ReadWriteExecute,
    }
}

/// Asserts that a load is judged by the bank that was put in place.
fn judges_by_what_is_put(rt: &impl Abort, machine: &mut Machine, all: Entry) {
    put(machine, Bank::of([].as_slice(), Limit::Sixteen));
    assert!(rt; answers(machine, b"load s 8 0x80200000\n", b"1 fault 5\n"));
    put(machine, Bank::of([all].as_slice(), Limit::Sixteen));
    assert!(rt;
        answers(
            machine,
            b"load s 8 0x80000000\n",
            b"1 ok 0x0000000000000000\n"
        )
    );
}

#[test]
fn the_loaded_words_judge(rt: HostRuntime) {
    let all = whole_space(&rt);
    let mut machine = example_machine(&rt, rt.alloc(), 1);
    judges_by_what_is_put(&rt, &mut machine, all);
}

/// Asserts that a hart is marked when the view of its world changes, and no longer after it has loaded it.
fn marks_two_harts(rt: &impl Abort, machine: &mut Machine) {
    assert!(rt;
        answers(
            machine,
            b"ecall 0x08454E43 0 0x80200000 1 0 0 0 0\n",
            b"1 call 0 0x0000000000000001 0 4\n"
        )
    );
    assert!(rt; marks(machine) == (false, true));
    assert!(rt; answers(machine, b"@1 load s 8 0x80200000\n", b"1 fault 5\n"));
    assert!(rt; marks(machine) == (false, false));
    assert!(rt;
        answers(
            machine,
            b"@0 ecall 0x08454E43 2 1\n@1 ecall 0x08454E43 2 1\n@1 ecall 0x08454E43 1 1\n@1 ecall 0x08454E43 0 0x80202000 1 0 0 0 0\n",
            b"1 call 0 0x0000000000000000 1 1\n2 call -111 0x0000000000000000 0 4\n3 call -111 0x0000000000000000 0 4\n4 call 0 0x0000000000000002 0 5\n"
        )
    );
    assert!(rt; marks(machine) == (false, false));
    assert!(rt;
        answers(
            machine,
            b"@0 load u 8 0x80200000\n@0 load u 8 0x80202000\n@0 irq\n@1 ecall 0x08454E43 4 1\n@0 ecall 0x08454E43 5 7\n@1 ecall 0x08454E43 5 7\n@0 ecall 0x08454E43 1 1\n@1 load s 8 0x80200000\n",
            b"1 ok 0x0000000000000000\n2 fault 5\n3 irq 0 5\n4 call 0 0x0000000000000000 1 1\n5 call -101 0x0000000000000000 0 5\n6 call 0 0x0000000000000007 0 5\n7 call 0 0x0000000000000000 0 4\n8 ok 0x0000000000000000\n"
        )
    );
}

#[test]
fn two_harts_and_their_marks(rt: HostRuntime) {
    let mut machine = example_machine(&rt, rt.alloc(), 2);
    marks_two_harts(&rt, &mut machine);
}

/// Asserts that a creation on the first hart loads one more entry there, for the page that the host loses. The second
/// hart is marked and keeps its previous entries.
fn has_a_bank_on_each_hart(rt: &impl Abort, machine: &mut Machine) {
    assert!(rt;
        answers(
            machine,
            b"ecall 0x08454E43 0 0x80200000 1 0 0 0 0\n",
            b"1 call 0 0x0000000000000001 0 4\n"
        )
    );
    assert!(rt; machine.bank(0).cfg(0) == 0x1F18_181B);
    assert!(rt; machine.bank(1).cfg(0) == 0x1F_181B);
}

#[test]
fn each_hart_has_a_bank_of_its_own(rt: HostRuntime) {
    let mut machine = example_machine(&rt, rt.alloc(), 2);
    has_a_bank_on_each_hart(&rt, &mut machine);
}

#[test]
fn a_hart_that_there_is_not_is_not_understood(rt: HostRuntime) {
    let end = Err(RunFault::Line(2));
    let report = b"1 irq 0 3\n";
    ends_anew(&rt, rt.alloc(), 1, "@0 irq\n@1 irq\n", end, report);
    ends_anew(&rt, rt.alloc(), 2, "@1 irq\n@2 irq\n", end, report);
}

#[test]
fn lines_of_a_trace(rt: HostRuntime) {
    let rows: [(&str, Result<(), RunFault>, &[u8]); 4] = [
        ("irq", Ok(()), b"1 irq 0 3\n"),
        ("# start\n\n irq # tick\n", Ok(()), b"1 irq 0 3\n"),
        ("load s 3 0x80200000", Err(RunFault::Line(1)), b""),
        ("irq\nfoo\n", Err(RunFault::Line(2)), b"1 irq 0 3\n"),
    ];
    for (trace, end, report) in rows {
        ends_anew(&rt, rt.alloc(), 1, trace, end, report);
    }
}

/// Returns a trace of fourteen creations.
fn fourteen_creations(rt: &impl Abort, alloc: Global) -> Vec<u8> {
    let mut trace: Vec<u8> = Vec::new(alloc);
    for i in 0..14u64 {
        let base = i.saturating_mul(0x2000).saturating_add(0x8020_0000);
        let line = format!(in alloc; "ecall 0x08454E43 0 {base} 1 0 0 0 0\n").expect(rt, "memory");
        trace
            .extend_from_slice(line.as_bytes())
            .expect(rt, "memory");
    }
    trace
}

/// Asserts that the last of fourteen creations takes the seventeenth entry.
fn takes_the_seventeenth(rt: &impl Abort, machine: &mut Machine, trace: &[u8]) {
    let mut source = PieceSource::new(trace, 100, None);
    let mut sink = PieceSink::new(100, None);
    assert!(rt; run(machine, &mut source, &mut sink) == Ok(()));
    assert!(rt;
        sink.written()
            .ends_with(b"14 call 0 0x000000000000000e 0 17\n")
    );
    assert!(rt; machine.bank(0).cfg(0) == 0x1818_1818_1818_181B);
    assert!(rt; machine.bank(0).cfg(2) == 0x1818_1818_1818_1818);
    assert!(rt; machine.bank(0).cfg(4) == 0x1F);
}

#[test]
fn a_bank_of_sixty_four_entries_holds_the_seventeenth(rt: HostRuntime) {
    let trace = fourteen_creations(&rt, rt.alloc());
    let platform = example_platform(&rt)
        .with_entries(64)
        .expect(&rt, "entries");
    let mut machine = Machine::boot(rt.alloc(), platform).expect(&rt, "memory");
    takes_the_seventeenth(&rt, &mut machine, trace.as_slice());
}
