//! Applies the headline to an enclave that lives on two harts.

use crate::headline::life;
use crate::machines::example_machine;
use arrayvec::ArrayVec;
use enclave_table::World;
use hart_sim::{Machine, Reply};
use std::process::Abort;

/// The monitor's extension, in a7.
const EXTENSION: u64 = 0x0845_4E43;

/// Returns the words of a call: a7, a6, a0 and a1.
fn words(function: u64, first: u64, second: u64) -> ArrayVec<u64, 8> {
    let mut words = ArrayVec::new();
    words.push(EXTENSION);
    words.push(function);
    words.push(first);
    words.push(second);
    words
}

fn answered(value: u64, world: u64, used: u64) -> Reply {
    Reply::Call {
        status: 0,
        value,
        world,
        used,
    }
}

/// Asserts the replies to the life of an enclave on both harts.
fn lives_on_both(rt: &impl Abort, machine: &mut Machine) {
    assert!(rt; machine.harts() == 2);
    let replies = life(
        machine,
        words(0, 0x8020_0000, 1),
        words(2, 1, 0),
        words(4, 1, 0),
        words(5, 7, 0),
        words(1, 1, 0),
    );
    let wanted = [
        answered(1, 0, 4),
        answered(0, 1, 1),
        Reply::Irq { world: 0, used: 4 },
        answered(0, 1, 1),
        answered(7, 0, 4),
        answered(0, 0, 3),
    ];
    assert!(rt; replies == wanted);
    assert!(rt; machine.world(1) == World::Host);
}

#[test]
fn an_enclave_lives_on_two_harts(rt: HostRuntime) {
    let mut machine = example_machine(&rt, rt.alloc(), 2);
    lives_on_both(&rt, &mut machine);
}
