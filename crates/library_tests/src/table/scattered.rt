//! Enclaves of one page each, until the host's view needs too many entries.

use super::*;

#[test]
fn thirteenth_scattered_enclave_fits_and_fourteenth_does_not(rt: HostRuntime) {
    let steps = [
        Step::Uses(16),
        Step::Configures(0x1818_1818_1818_181B),
        Step::Creates(page_at(0x8021_A000), Err(Refusal::NoEntries)),
        Step::Uses(16),
        Step::Owns(0x8021A, Owner::Host),
    ];
    takes_on(&rt, rt.alloc(), 16, 13, 0x2000, steps.as_slice());
}

#[test]
fn an_overlap_comes_before_want_of_entries(rt: HostRuntime) {
    let mut both = page_at(0x8021_A000);
    both.shared_base = 0x8021_A000;
    both.shared_count = 1;
    let steps = [
        Step::Creates(both, Err(Refusal::Overlap)),
        Step::Creates(page_at(0x8000_0000), Err(Refusal::Overlap)),
    ];
    takes_on(&rt, rt.alloc(), 16, 13, 0x2000, steps.as_slice());
}

#[test]
fn fourteenth_scattered_enclave_fits_sixty_four_entries(rt: HostRuntime) {
    let steps = [Step::Uses(17)];
    takes_on(&rt, rt.alloc(), 64, 14, 0x2000, steps.as_slice());
}

#[test]
fn sixty_first_scattered_enclave_fits_sixty_four_entries(rt: HostRuntime) {
    let steps = [
        Step::Uses(64),
        Step::Creates(page_at(0x8027_A000), Err(Refusal::NoEntries)),
    ];
    takes_on(&rt, rt.alloc(), 64, 61, 0x2000, steps.as_slice());
}

#[test]
fn sixty_fifth_enclave_finds_the_table_full(rt: HostRuntime) {
    let steps = [
        Step::Uses(4),
        Step::Creates(page_at(0x8030_0000), Err(Refusal::TableFull)),
    ];
    takes_on(&rt, rt.alloc(), 16, 64, 0x1000, steps.as_slice());
}
