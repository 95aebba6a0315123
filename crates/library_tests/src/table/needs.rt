//! The number of entries that the views after a creation or a destruction need, whether or not there are that many.

use super::*;

/// Asserts the number of entries that the host's view and the enclave's own would need after a creation, or that
/// another check refuses it if `wanted` is `None`.
pub fn of_creation(rt: &impl Abort, table: &Table, asked: Create, wanted: Option<CreateNeeds>) {
    let needs = table.needed_by_create(World::Host, asked);
    assert!(rt; needs.expect(rt, "memory") == wanted);
}

/// Asserts the number of entries that the host's view would need after the destruction of an enclave, or that another
/// check refuses it if `wanted` is `None`.
pub fn of_destruction(rt: &impl Abort, table: &Table, id: u64, wanted: Option<u32>) {
    let needs = table.needed_by_destroy(World::Host, id);
    assert!(rt; needs.expect(rt, "memory") == wanted);
}

#[test]
fn fourteenth_scattered_enclave_would_need_seventeen(rt: HostRuntime) {
    let fourteenth = page_at(0x8021_A000);
    let steps = [
        Step::WouldNeed(fourteenth, 17, 1),
        Step::Creates(fourteenth, Err(Refusal::NoEntries)),
        Step::WouldNeedWithout(13, 15),
    ];
    takes_on(&rt, rt.alloc(), 16, 13, 0x2000, steps.as_slice());
}

#[test]
fn destroying_every_second_page_would_need_seventeen(rt: HostRuntime) {
    let steps = [
        Step::DestroysEverySecond(1, 12),
        Step::WouldNeedWithout(25, 17),
        Step::Keeps(25),
    ];
    takes_on(&rt, rt.alloc(), 16, 32, 0x1000, steps.as_slice());
}

#[test]
fn a_refusal_by_another_check_needs_nothing(rt: HostRuntime) {
    let table = table_of(&rt, rt.alloc(), 16, 1, 0x2000);
    of_creation(&rt, &table, page_at(0x8020_0000), None);
    of_destruction(&rt, &table, 2, None);
}
