//! The checks of create, in their order.

use super::*;

#[test]
fn checks_come_in_their_order(rt: HostRuntime) {
    let mut many = page_at(0x8020_0800);
    many.text_pages = 0xFFFF_FFFF_FFFF_FFFF;
    let mut inside = page_at(0x8020_0800);
    inside.entry_offset = 1;
    let mut entry = page_at(0x1000_0000);
    entry.data_pages = 1;
    entry.entry_offset = 0x1000;
    let mut device = page_at(0x8000_0000);
    device.shared_base = 0x1000_0000;
    device.shared_count = 1;
    let steps = [
        Step::Creates(many, Err(Refusal::BadCount)),
        Step::Creates(inside, Err(Refusal::BadAddress)),
        Step::Creates(entry, Err(Refusal::BadEntry)),
        Step::Creates(device, Err(Refusal::NotRam)),
    ];
    takes_on(&rt, rt.alloc(), 16, 0, 0, steps.as_slice());
}

#[test]
fn without_shared_pages_the_shared_base_is_not_read(rt: HostRuntime) {
    let mut unused = page_at(0x8020_0000);
    unused.shared_base = 0x1234;
    let steps = [Step::Creates(unused, Ok(1))];
    takes_on(&rt, rt.alloc(), 16, 0, 0, steps.as_slice());
}
