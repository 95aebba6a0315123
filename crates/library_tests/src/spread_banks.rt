//! Puts a bank with OFF entries between its entries in place on a hart: no later load restores it.

use crate::machines::{answers, example_machine, put};
use hart_sim::Machine;
use pmp_encoding::{Bank, Limit};
use std::process::Abort;

/// The number of the CSR pmpcfg0.
const PMPCFG0: u16 = 0x3A0;

/// The number of the CSR pmpaddr0.
const PMPADDR0: u16 = 0x3B0;

/// Copies the first four entries of a bank to the positions 0, 2, 4 and 6 of another.
fn spread_out(rt: &impl Abort, bank: &Bank) -> Bank {
    let mut spread = Bank::of([].as_slice(), Limit::Sixteen);
    for i in 0..4u16 {
        let number = PMPADDR0 + 2 * i;
        spread
            .write_csr(number, bank.addr(usize::from(i)))
            .expect(rt, "an address");
    }
    let word = bank.cfg0();
    let [first, second, third, fourth, _, _, _, _] = word.to_le_bytes();
    let word = u64::from_le_bytes([first, 0, second, 0, third, 0, fourth, 0]);
    spread
        .write_csr(PMPCFG0, word)
        .expect(rt, "a configuration word");
    spread
}

/// Returns the registers of the first four entries.
fn front(bank: &Bank) -> [u64; 5] {
    [
        bank.cfg0(),
        bank.addr(0),
        bank.addr(1),
        bank.addr(2),
        bank.addr(3),
    ]
}

/// Asserts that the host's bank is compact again after its entries were spread out and an enclave ran and exited.
fn makes_the_bank_again(rt: &impl Abort, machine: &mut Machine) {
    assert!(rt;
        answers(
            machine,
            b"ecall 0x08454E43 0 0x80200000 1 0 0 0 0\n",
            b"1 call 0 0x0000000000000001 0 4\n"
        )
    );
    let own = front(machine.bank(0));
    let spread = spread_out(rt, machine.bank(0));
    put(machine, spread);
    assert!(rt; front(machine.bank(0)) == front(&spread));
    assert!(rt;
        answers(
            machine,
            b"ecall 0x08454E43 2 1\necall 0x08454E43 5 7\n",
            b"1 call 0 0x0000000000000000 1 1\n2 call 0 0x0000000000000007 0 4\n"
        )
    );
    assert!(rt; front(machine.bank(0)) == own);
}

#[test]
fn a_spread_bank_does_not_come_back(rt: HostRuntime) {
    let mut machine = example_machine(&rt, rt.alloc(), 1);
    makes_the_bank_again(&rt, &mut machine);
}
