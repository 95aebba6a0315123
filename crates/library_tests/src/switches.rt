//! Switches between worlds.

use context_switch::{Contexts, Hart, switch};
use pmp_encoding::{Bank, Entry, Limit, Perm, Region};
use sbi_decode::{Registers, World};
use std::process::Abort;

const A0: usize = 10;

/// Returns registers with this program counter and this word in a0.
fn registers_of(pc: u64, a0: u64) -> Registers {
    let mut registers = Registers::new();
    registers.set_pc(pc);
    registers.set(A0, a0);
    registers
}

/// Returns the entry of the page at this base, with all permissions.
fn page(rt: &impl Abort, base: u64) -> Entry {
    let region = Region::new(base, 12).expect(rt, "a block");
    Entry {
        region,
        perm: Perm::ReadWriteExecute,
    }
}

#[test]
fn a_new_hart_is_in_the_hosts_world(rt: HostRuntime) {
    let entries = [page(&rt, 0x8000_0000)];
    let hart = Hart::new(3, entries.as_slice(), Limit::SixtyFour);
    assert!(rt; hart.number() == 3);
    assert!(rt; hart.world() == World::Host);
    assert!(rt; *hart.registers() == Registers::new());
    assert!(rt; hart.bank().cfg0() == 0x1F);
    assert!(rt; hart.bank().addr(0) == 0x2000_01FF);
    assert!(rt; hart.bank().limit() == Limit::SixtyFour);
}

#[test]
fn registers_and_bank_are_put_in_place(rt: HostRuntime) {
    let mut hart = Hart::new(1, [].as_slice(), Limit::Sixteen);
    hart.registers_mut().set(A0, 7);
    hart.registers_mut().set_pc(0x8000_0000);
    assert!(rt; *hart.registers() == registers_of(0x8000_0000, 7));
    let bank = Bank::of([page(&rt, 0x8020_0000)].as_slice(), Limit::Sixteen);
    hart.put_bank(bank);
    assert!(rt; *hart.bank() == bank);
    assert!(rt; *hart.registers() == registers_of(0x8000_0000, 7));
    assert!(rt; hart.number() == 1);
}

#[test]
fn a_hart_loads_each_of_the_entries(rt: HostRuntime) {
    let entries = [page(&rt, 0x8000_0000), page(&rt, 0x8000_1000)];
    let mut hart = Hart::new(2, [].as_slice(), Limit::Sixteen);
    hart.load(entries.as_slice());
    assert!(rt; hart.bank().cfg0() == 0x1F1F);
    assert!(rt; hart.bank().addr(0) == 0x2000_01FF);
    assert!(rt; hart.bank().addr(1) == 0x2000_05FF);
}

/// Asserts that each host and each enclave has registers of its own.
fn keep_apart(rt: &impl Abort, contexts: &mut Contexts) {
    for hart in 0..4u8 {
        contexts.set(hart, World::Host, registers_of(0, 100 + hart as u64));
    }
    for id in 1..65u64 {
        contexts.set(0, World::Enclave(id), registers_of(0, id));
    }
    for hart in 0..4u8 {
        assert!(rt; contexts.get(hart, World::Host).get(A0) == 100 + hart as u64);
        for id in 1..65u64 {
            assert!(rt; contexts.get(hart, World::Enclave(id)).get(A0) == id);
        }
    }
}

/// Asserts that registers that were never set are zero.
fn begin_at_zero(rt: &impl Abort, contexts: &Contexts) {
    assert!(rt; contexts.get(3, World::Host) == Registers::new());
    assert!(rt; contexts.get(0, World::Enclave(64)) == Registers::new());
}

#[test]
fn each_host_and_each_enclave_has_its_own_registers(rt: HostRuntime) {
    let mut contexts = Contexts::new();
    begin_at_zero(&rt, &contexts);
    keep_apart(&rt, &mut contexts);
}

/// Asserts the registers while the host of the first hart runs the first enclave, which is stopped and resumed.
fn goes_on(rt: &impl Abort, contexts: &mut Contexts) {
    let host_entries = [page(rt, 0x8000_0000), page(rt, 0x8000_1000)];
    let enclave_entries = [page(rt, 0x8020_0000)];
    let enclave = World::Enclave(1);
    let mut hart = Hart::new(0, host_entries.as_slice(), Limit::Sixteen);

    // The host runs the enclave.
    *hart.registers_mut() = registers_of(4, 1);
    contexts.set(0, enclave, registers_of(0x8020_0000, 1));
    switch(&mut hart, contexts, enclave, enclave_entries.as_slice());
    assert!(rt; hart.world() == enclave);
    assert!(rt; *hart.registers() == registers_of(0x8020_0000, 1));
    assert!(rt; hart.bank().addr(0) == 0x2008_01FF);
    assert!(rt; hart.bank().cfg0() == 0x1F);

    // The enclave is stopped.
    *hart.registers_mut() = registers_of(0x8020_0040, 7);
    switch(&mut hart, contexts, World::Host, host_entries.as_slice());
    assert!(rt; hart.world() == World::Host);
    assert!(rt; *hart.registers() == registers_of(4, 1));
    assert!(rt; hart.bank().cfg0() == 0x1F1F);

    // The enclave is resumed.
    switch(&mut hart, contexts, enclave, enclave_entries.as_slice());
    assert!(rt; *hart.registers() == registers_of(0x8020_0040, 7));
    assert!(rt; contexts.get(0, World::Host) == registers_of(4, 1));
}

#[test]
fn a_stopped_enclave_goes_on_where_it_stopped(rt: HostRuntime) {
    let mut contexts = Contexts::new();
    goes_on(&rt, &mut contexts);
}

/// Switches a hart of sixty-four entries, with these registers of its host, to the last enclave.
fn enters(rt: &impl Abort, hart: &mut Hart, contexts: &mut Contexts, host: Registers) {
    let entries = [page(rt, 0x8020_0000), page(rt, 0x8020_1000)];
    assert!(rt; hart.bank().limit() == Limit::SixtyFour);
    *hart.registers_mut() = host;
    switch(hart, contexts, World::Enclave(64), entries.as_slice());
}

/// Stops the enclave with these registers, and switches back to the host.
fn stops(rt: &impl Abort, hart: &mut Hart, contexts: &mut Contexts, enclave: Registers) {
    let entries = [page(rt, 0x8000_0000)];
    assert!(rt; hart.bank().limit() == Limit::SixtyFour);
    *hart.registers_mut() = enclave;
    switch(hart, contexts, World::Host, entries.as_slice());
}

/// Asserts that the last enclave stops on the first hart, is resumed on the second, and stops there.
fn returns_to_its_hart(rt: &impl Abort, contexts: &mut Contexts) {
    let entries = [page(rt, 0x8000_0000)];
    let mut first = Hart::new(0, entries.as_slice(), Limit::SixtyFour);
    let mut second = Hart::new(1, entries.as_slice(), Limit::SixtyFour);
    contexts.set(0, World::Enclave(64), registers_of(0x8020_0000, 64));

    enters(rt, &mut first, contexts, registers_of(4, 10));
    stops(rt, &mut first, contexts, registers_of(0x8020_0040, 7));
    assert!(rt; *first.registers() == registers_of(4, 10));

    enters(rt, &mut second, contexts, registers_of(8, 11));
    assert!(rt; *second.registers() == registers_of(0x8020_0040, 7));
    stops(rt, &mut second, contexts, registers_of(0x8020_0040, 7));
    assert!(rt; *second.registers() == registers_of(8, 11));
    assert!(rt; second.number() == 1);
    assert!(rt; *first.registers() == registers_of(4, 10));
    assert!(rt; contexts.get(0, World::Host) == registers_of(4, 10));
}

#[test]
fn an_enclave_resumed_on_another_hart_returns_to_that_harts_host(rt: HostRuntime) {
    let mut contexts = Contexts::new();
    returns_to_its_hart(&rt, &mut contexts);
}
