//! Tests of the map and the platform of a small tree.

use crate::{BoardTextFault, fault_line, is_tree, map_text_of, platform_text_of};
use platforms::PlatformFault;
use std::alloc::Global;
use std::process::Abort;

/// A hart, memory of 66 KiB at 0x80000000 whose first page is in a reserved-memory node, and a bus with a UART of 256
/// bytes and a CLINT. Made by `dtc`, with a memory reservation of one page.
#[rattlefmt::skip]
const SMALL: [u8; 660] = [
    0xd0, 0x0d, 0xfe, 0xed, 0, 0, 2, 0x94, 0, 0, 0, 0x48, 0, 0, 2, 0x50, 0, 0, 0, 0x28, 0, 0, 0,
    0x11, 0, 0, 0, 0x10, 0, 0, 0, 0, 0, 0, 0, 0x44, 0, 0, 2, 8, 0, 0, 0, 0, 0x80, 0, 0x80, 0, 0, 0,
    0, 0, 0, 0, 0x10, 0, 0, 0, 0, 0, 0, 0, 0, 0, 0, 0, 0, 0, 0, 0, 0, 0, 0, 0, 0, 1, 0, 0, 0, 0, 0,
    0, 0, 3, 0, 0, 0, 4, 0, 0, 0, 0, 0, 0, 0, 1, 0, 0, 0, 3, 0, 0, 0, 4, 0, 0, 0, 0x0f, 0, 0, 0, 1,
    0, 0, 0, 1, 0x63, 0x70, 0x75, 0x73, 0, 0, 0, 0, 0, 0, 0, 3, 0, 0, 0, 4, 0, 0, 0, 0, 0, 0, 0, 1,
    0, 0, 0, 3, 0, 0, 0, 4, 0, 0, 0, 0x0f, 0, 0, 0, 0, 0, 0, 0, 1, 0x63, 0x70, 0x75, 0x40, 0x30, 0,
    0, 0, 0, 0, 0, 3, 0, 0, 0, 4, 0, 0, 0, 0x1b, 0x63, 0x70, 0x75, 0, 0, 0, 0, 3, 0, 0, 0, 4, 0, 0,
    0, 0x27, 0, 0, 0, 0, 0, 0, 0, 2, 0, 0, 0, 2, 0, 0, 0, 1, 0x6d, 0x65, 0x6d, 0x6f, 0x72, 0x79,
    0x40, 0x38, 0x30, 0x30, 0x30, 0x30, 0x30, 0x30, 0x30, 0, 0, 0, 0, 3, 0, 0, 0, 7, 0, 0, 0, 0x1b,
    0x6d, 0x65, 0x6d, 0x6f, 0x72, 0x79, 0, 0, 0, 0, 0, 3, 0, 0, 0, 8, 0, 0, 0, 0x27, 0x80, 0, 0, 0,
    0, 1, 8, 0, 0, 0, 0, 2, 0, 0, 0, 1, 0x72, 0x65, 0x73, 0x65, 0x72, 0x76, 0x65, 0x64, 0x2d, 0x6d,
    0x65, 0x6d, 0x6f, 0x72, 0x79, 0, 0, 0, 0, 3, 0, 0, 0, 4, 0, 0, 0, 0, 0, 0, 0, 1, 0, 0, 0, 3, 0,
    0, 0, 4, 0, 0, 0, 0x0f, 0, 0, 0, 1, 0, 0, 0, 3, 0, 0, 0, 0, 0, 0, 0, 0x2b, 0, 0, 0, 1, 0x6d,
    0x6f, 0x6e, 0x69, 0x74, 0x6f, 0x72, 0x40, 0x38, 0x30, 0x30, 0x30, 0x30, 0x30, 0x30, 0x30, 0, 0,
    0, 0, 0, 0, 0, 3, 0, 0, 0, 8, 0, 0, 0, 0x27, 0x80, 0, 0, 0, 0, 0, 0x10, 0, 0, 0, 0, 3, 0, 0, 0,
    0, 0, 0, 0, 0x32, 0, 0, 0, 2, 0, 0, 0, 2, 0, 0, 0, 1, 0x73, 0x6f, 0x63, 0, 0, 0, 0, 3, 0, 0, 0,
    4, 0, 0, 0, 0, 0, 0, 0, 1, 0, 0, 0, 3, 0, 0, 0, 4, 0, 0, 0, 0x0f, 0, 0, 0, 1, 0, 0, 0, 3, 0, 0,
    0, 0, 0, 0, 0, 0x2b, 0, 0, 0, 1, 0x75, 0x61, 0x72, 0x74, 0x40, 0x31, 0x30, 0x30, 0x30, 0x30,
    0x30, 0x30, 0x30, 0, 0, 0, 0, 0, 0, 3, 0, 0, 0, 8, 0, 0, 0, 0x27, 0x10, 0, 0, 0, 0, 0, 1, 0, 0,
    0, 0, 2, 0, 0, 0, 1, 0x63, 0x6c, 0x69, 0x6e, 0x74, 0x40, 0x32, 0x30, 0x30, 0x30, 0x30, 0x30,
    0x30, 0, 0, 0, 0, 0, 0, 3, 0, 0, 0, 0x1b, 0, 0, 0, 0x39, 0x73, 0x69, 0x66, 0x69, 0x76, 0x65,
    0x2c, 0x63, 0x6c, 0x69, 0x6e, 0x74, 0x30, 0, 0x72, 0x69, 0x73, 0x63, 0x76, 0x2c, 0x63, 0x6c,
    0x69, 0x6e, 0x74, 0x30, 0, 0, 0, 0, 0, 3, 0, 0, 0, 8, 0, 0, 0, 0x27, 2, 0, 0, 0, 0, 1, 0, 0, 0,
    0, 0, 2, 0, 0, 0, 2, 0, 0, 0, 2, 0, 0, 0, 9, 0x23, 0x61, 0x64, 0x64, 0x72, 0x65, 0x73, 0x73,
    0x2d, 0x63, 0x65, 0x6c, 0x6c, 0x73, 0, 0x23, 0x73, 0x69, 0x7a, 0x65, 0x2d, 0x63, 0x65, 0x6c,
    0x6c, 0x73, 0, 0x64, 0x65, 0x76, 0x69, 0x63, 0x65, 0x5f, 0x74, 0x79, 0x70, 0x65, 0, 0x72, 0x65,
    0x67, 0, 0x72, 0x61, 0x6e, 0x67, 0x65, 0x73, 0, 0x6e, 0x6f, 0x2d, 0x6d, 0x61, 0x70, 0, 0x63,
    0x6f, 0x6d, 0x70, 0x61, 0x74, 0x69, 0x62, 0x6c, 0x65, 0,
];

const MAP: &str =
    "# The map of a device tree: memory rwx, devices rw. It does not name nodes that are
# not in use, /reserved-memory without no-map or reg, and what is reached through PCI.
# uart@10000000: device 0x10000000 0x100, with the rest of its pages
0x10000000 0x1000 rw
# memory@80000000: memory 0x80000000 0x10800, of it the whole pages
0x80001000 0xf000 rwx
# left out: monitor@80000000: no-map 0x80000000 0x1000; nothing else is to map it
# left out: clint@2000000: machine mode's 0x2000000 0x10000; it is the timer of harts or interrupts them
# not left out: /memreserve/ 0x80008000 0x1000; a kernel keeps off it by itself
";

const PLATFORM: &str = "# The platform of a device tree. It does not name nodes that are not in use,
# /reserved-memory without no-map or reg, and what is reached through PCI.
# A device that reads or writes memory by itself reaches all of it: take out the
# table of each that the host is not to have.
harts = 1 # the tree has 1 in use
entries = 16 # a tree does not say how many: 16 or 64

[monitor]
# the no-map node in which memory begins
base = 0x80000000
size = 0x1000

# uart@10000000: device 0x10000000 0x100, with the rest of its pages
[[device]]
base = 0x10000000
size = 0x1000
perm = \"rw\"

# memory@80000000: memory 0x80000000 0x10800, of it the whole pages
[[ram]]
base = 0x80000000
size = 0x10000

# left out: monitor@80000000: no-map 0x80000000 0x1000; nothing else is to map it
# left out: clint@2000000: machine mode's 0x2000000 0x10000; it is the timer of harts or interrupts them
# not left out: /memreserve/ 0x80008000 0x1000; a kernel keeps off it by itself
";

fn expect_map(rt: &impl Abort, alloc: Global) {
    assert!(rt; is_tree(SMALL.as_slice()));
    let text = map_text_of(alloc, SMALL.as_slice()).expect(rt, "a map");
    assert!(rt; text.as_slice() == MAP.as_bytes());
}

#[test]
fn the_map_of_a_tree_names_its_nodes(rt: HostRuntime) {
    expect_map(&rt, rt.alloc());
}

fn expect_platform(rt: &impl Abort, alloc: Global) {
    let text = platform_text_of(alloc, SMALL.as_slice(), None).expect(rt, "a platform");
    assert!(rt; text.as_slice() == PLATFORM.as_bytes());
}

#[test]
fn the_platform_of_a_tree_names_its_nodes(rt: HostRuntime) {
    expect_platform(&rt, rt.alloc());
}

fn fault_of(alloc: Global, bytes: &[u8], given: Option<(u64, u64)>) -> Option<BoardTextFault> {
    match platform_text_of(alloc, bytes, given) {
        Ok(_) => None,
        Err(fault) => Some(fault),
    }
}

fn expect_faults(rt: &impl Abort, alloc: Global) {
    let beside = fault_of(alloc, SMALL.as_slice(), Some((0x9000_0000, 0x1000)));
    assert!(rt; beside == Some(BoardTextFault::Rule(PlatformFault::MonitorNotRam)));
    let odd = fault_of(alloc, SMALL.as_slice(), Some((0x8000_0000, 0x800)));
    assert!(rt; odd == Some(BoardTextFault::Rule(PlatformFault::BadRange)));
    let mut deaf = SMALL;
    deaf[2] = 0;
    let fault = fault_of(alloc, deaf.as_slice(), None).expect(rt, "a fault");
    let line = fault_line(&fault);
    assert!(rt; line.as_slice() == b"it does not begin with d0 0d fe ed, at byte 0".as_slice());
}

#[test]
fn what_is_no_platform_is_refused(rt: HostRuntime) {
    expect_faults(&rt, rt.alloc());
}
