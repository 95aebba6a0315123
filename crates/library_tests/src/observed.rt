//! The observable state of what does not run: the pages that were written, and the registers of a stopped enclave.

use crate::machines::{answers, example_machine};
use enclave_table::World;
use hart_sim::Machine;
use sbi_decode::Registers;
use std::process::Abort;

const A0: usize = 10;

const T0: usize = 5;

/// Asserts that a page is written from its first store until its enclave is destroyed.
fn shows_its_written_page(rt: &impl Abort, machine: &mut Machine) {
    assert!(rt; !machine.is_written(0x8_0200));
    assert!(rt;
        answers(
            machine,
            b"store s 8 0x80200000 7\necall 0x08454E43 0 0x80200000 1 0 0 0 0\n",
            b"1 ok\n2 call 0 0x0000000000000001 0 4\n"
        )
    );
    assert!(rt; machine.is_written(0x8_0200));
    assert!(rt; !machine.is_written(0x8_0201));
    assert!(rt;
        answers(
            machine,
            b"ecall 0x08454E43 1 1\n",
            b"1 call 0 0x0000000000000000 0 3\n"
        )
    );
    assert!(rt; !machine.is_written(0x8_0200));
}

#[test]
fn a_page_is_written_from_its_first_store_on(rt: HostRuntime) {
    let mut machine = example_machine(&rt, rt.alloc(), 1);
    shows_its_written_page(&rt, &mut machine);
}

/// Returns two registers of the enclave with the id 1.
fn of_the_enclave(machine: &Machine) -> [u64; 2] {
    let registers = machine.registers_of(0, World::Enclave(1));
    [registers.get(A0), registers.get(T0)]
}

/// Asserts that the registers of an enclave are kept while it is stopped, and are zero after it has ended.
fn drops_registers(rt: &impl Abort, machine: &mut Machine) {
    assert!(rt;
        answers(
            machine,
            b"ecall 0x08454E43 0 0x80200000 1 0 0 0 0\necall 0x08454E43 2 1\nreg x5 99\nirq\n",
            b"1 call 0 0x0000000000000001 0 4\n2 call 0 0x0000000000000000 1 1\n3 ok\n4 irq 0 4\n"
        )
    );
    assert!(rt; of_the_enclave(machine) == [1, 99]);
    assert!(rt;
        answers(
            machine,
            b"ecall 0x08454E43 4 1\necall 0x08454E43 5 7\n",
            b"1 call 0 0x0000000000000000 1 1\n2 call 0 0x0000000000000007 0 4\n"
        )
    );
    assert!(rt; *machine.registers_of(0, World::Enclave(1)) == Registers::new());
}

#[test]
fn the_registers_of_an_enclave_that_ended_are_dropped(rt: HostRuntime) {
    let mut machine = example_machine(&rt, rt.alloc(), 1);
    drops_registers(&rt, &mut machine);
}
