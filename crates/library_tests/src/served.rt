//! Calls and interrupts on a booted core of the monitor, without memory and traces. The answers, and the numbers of
//! entries that each world needs, are those of the same life on a machine.

ghost use Rattle.std.specs.Prelude.{replicate, ◌<◌};

use monitor_core::{
    Core, MeasuresPages, PageRange, Pages, Platform, Registers, Served, SetChange, SetChanges,
    World,
};
use pmp_encoding::Perm;
use std::alloc::Global;
use std::process::Abort;

const A0: usize = 10;

const A1: usize = 11;

/// Pages of zeros.
#[derive(Drop)]
struct Zeros {}

impl Pages for Zeros {
    ghost bytes_of = { λ f page. replicate 4096 0 };

    fn copy_page(&self, page: u64, into: &mut [u8; 4096]) {
        let _page = page;
        *into = [0; 4096];
    }
}

/// A core on two harts, and its register sets: those of two hosts and of one enclave.
#[derive(Drop)]
struct Monitor {
    core: Core,
    first: Registers,
    second: Registers,
    enclave: Registers,
}

impl Monitor {
    /// Applies the core's change to one set.
    fn put_one(&mut self, hart: u8, change: &SetChange) {
        if change.enclave > 0 {
            change.apply(&mut self.enclave);
        } else if hart == 0 {
            change.apply(&mut self.first);
        } else {
            change.apply(&mut self.second);
        }
    }

    /// Applies the core's changes after an event on a hart.
    fn put(&mut self, hart: u8, changes: &SetChanges) {
        self.put_one(hart, &changes.first);
        self.put_one(hart, &changes.second);
        self.put_one(hart, &changes.third);
    }

    /// Copies the registers of the world that runs on a hart.
    fn running(&self, hart: u8) -> Registers
        requires { hart < 4 }
    {
        match self.core.world(hart) {
            World::Enclave(_) => self.enclave,
            World::Host => {
                if hart == 0 {
                    return self.first;
                }
                self.second
            }
        }
    }

    /// Sets the registers of the world that runs on a hart.
    fn put_running(&mut self, hart: u8, registers: Registers)
        requires { hart < 4 }
    {
        match self.core.world(hart) {
            World::Enclave(_) => self.enclave = registers,
            World::Host => {
                if hart == 0 {
                    self.first = registers;
                } else {
                    self.second = registers;
                }
            }
        }
    }
}

/// Returns the monitor of the example platform with two harts.
fn example_monitor(rt: &impl Abort, alloc: Global) -> Monitor {
    let platform = Platform::new(
        (0x8000_0000, 0x20_0000),
        [(0x8000_0000, 0x800_0000)].as_slice(),
        [(0x1000_0000, 0x1000, Perm::ReadWrite)].as_slice(),
    )
    .expect(rt, "a platform")
    .with_harts(2)
    .expect(rt, "harts");
    let core = Core::boot(alloc, platform).expect(rt, "memory");
    let zeros = Registers::new();
    Monitor {
        core,
        first: zeros,
        second: zeros,
        enclave: zeros,
    }
}

/// Returns the registers of a call at an address: its function, and its first three arguments.
fn call_of(pc: u64, function: u64, arguments: [u64; 3]) -> Registers {
    let mut registers = Registers::new();
    registers.set_pc(pc);
    registers.set(17, 0x0845_4E43);
    registers.set(16, function);
    registers.set(A0, arguments[0]);
    registers.set(A1, arguments[1]);
    registers.set(12, arguments[2]);
    registers
}

/// Serves a call on an existing hart that is not marked.
fn served(
    rt: &impl Abort,
    monitor: &mut Monitor,
    hart: u8,
    function: u64,
    arguments: [u64; 3],
) -> Served {
    assert!(rt; hart < 4);
    let asked = call_of(0x8040_0000, function, arguments);
    monitor.put_running(hart, asked);
    assert!(rt; hart < monitor.core.harts());
    assert!(rt; !monitor.core.is_marked(hart));
    let mut changes = SetChanges::none();
    let digests = MeasuresPages { pages: &Zeros {} };
    let served = monitor.core.serve(hart, &asked, &digests, &mut changes);
    monitor.put(hart, &changes);
    served
}

/// Interrupts such a hart with this word in a0, and returns whether it must reload its entries.
fn interrupted(rt: &impl Abort, monitor: &mut Monitor, hart: u8, a0: u64) -> bool {
    assert!(rt; hart < 4);
    let mut registers = Registers::new();
    registers.set(A0, a0);
    monitor.put_running(hart, registers);
    assert!(rt; hart < monitor.core.harts());
    assert!(rt; !monitor.core.is_marked(hart));
    let mut changes = SetChanges::none();
    let load = monitor.core.interrupt(hart, &mut changes);
    monitor.put(hart, &changes);
    load
}

/// Returns the answer to a call, and whether the hart must reload its entries.
fn told(served: &Served) -> (i64, u64, bool) {
    (served.answer.status, served.answer.value, served.load)
}

/// Returns the program counter, a0 and a1 of the world that goes on on a hart.
fn pc_a0_a1(rt: &impl Abort, monitor: &Monitor, hart: u8) -> [u64; 3] {
    assert!(rt; hart < 4);
    let registers = monitor.running(hart);
    [registers.pc(), registers.get(A0), registers.get(A1)]
}

/// Returns the world on the first hart, the number of entries that it needs, and whether each hart is marked.
fn standing(monitor: &Monitor) -> (World, u64, bool, bool) {
    (
        monitor.core.world(0),
        monitor.core.used(0),
        monitor.core.is_marked(0),
        monitor.core.is_marked(1),
    )
}

/// Creates an enclave of one page of text at 0x80200000 on the first hart, and wakes the second hart.
fn created(rt: &impl Abort, monitor: &mut Monitor) {
    let served = served(rt, monitor, 0, 0, [0x8020_0000, 1, 0]);
    monitor.core.wake(1);
    assert!(rt; told(&served) == (0, 1, true));
}

/// Runs that enclave on the first hart.
fn entered(rt: &impl Abort, monitor: &mut Monitor) {
    created(rt, monitor);
    let served = served(rt, monitor, 0, 2, [1, 0, 0]);
    assert!(rt; told(&served) == (0, 0, true));
    assert!(rt; pc_a0_a1(rt, monitor, 0) == [0x8020_0000, 1, 0]);
}

/// Asserts that a creation marks the other hart, and that the host goes on past the call with the id.
fn creation_marks(rt: &impl Abort, monitor: &mut Monitor) {
    let served = served(rt, monitor, 0, 0, [0x8020_0000, 1, 0]);
    assert!(rt; told(&served) == (0, 1, true));
    assert!(rt; served.zero == None);
    assert!(rt; pc_a0_a1(rt, monitor, 0) == [0x8040_0004, 0, 1]);
    assert!(rt; standing(monitor) == (World::Host, 4, false, true));
}

/// Asserts that an interrupt stops an enclave, that it is resumed unchanged on the other hart, and that it exits there.
fn interrupt_stops(rt: &impl Abort, monitor: &mut Monitor) {
    entered(rt, monitor);
    assert!(rt; standing(monitor) == (World::Enclave(1), 1, false, false));
    assert!(rt; interrupted(rt, monitor, 0, 77));
    assert!(rt; pc_a0_a1(rt, monitor, 0) == [0x8040_0004, 1, 0]);
    assert!(rt; standing(monitor) == (World::Host, 4, false, false));
    let resumed = served(rt, monitor, 1, 4, [1, 0, 0]);
    assert!(rt; told(&resumed) == (0, 0, true));
    assert!(rt; pc_a0_a1(rt, monitor, 1) == [0, 77, 0]);
    let left = served(rt, monitor, 1, 5, [7, 0, 0]);
    assert!(rt; told(&left) == (0, 7, true));
    assert!(rt; pc_a0_a1(rt, monitor, 1) == [0x8040_0004, 0, 7]);
}

/// Asserts that a destruction returns the pages, and that the same call is then refused and changes no entries.
fn destruction_clears(rt: &impl Abort, monitor: &mut Monitor) {
    let pages = PageRange {
        first: 0x8_0200,
        count: 1,
    };
    created(rt, monitor);
    let first = served(rt, monitor, 0, 1, [1, 0, 0]);
    assert!(rt; told(&first) == (0, 0, true));
    assert!(rt; first.zero == Some(pages));
    let again = served(rt, monitor, 0, 1, [1, 0, 0]);
    assert!(rt; told(&again) == (-110, 0, false));
    assert!(rt; again.zero == None);
    assert!(rt; standing(monitor) == (World::Host, 3, false, true));
}

#[test]
fn a_creation_marks_the_other_hosts(rt: HostRuntime) {
    let mut monitor = example_monitor(&rt, rt.alloc());
    creation_marks(&rt, &mut monitor);
}

#[test]
fn an_interrupt_stops_an_enclave(rt: HostRuntime) {
    let mut monitor = example_monitor(&rt, rt.alloc());
    interrupt_stops(&rt, &mut monitor);
}

#[test]
fn a_destruction_hands_out_the_pages(rt: HostRuntime) {
    let mut monitor = example_monitor(&rt, rt.alloc());
    destruction_clears(&rt, &mut monitor);
}
