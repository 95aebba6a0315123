//! Compares a small tree with `dtc`'s.

use crate::{Ends, TreeWriter, WriteFault};
use device_tree::Reservation;
use std::alloc::Global;
use std::process::Abort;

/// Made by `dtc -b 3` from `/memreserve/ 0x1000 0x2000; / { #size-cells = <2>; memory@0 { reg = [31 32 33 34 35];
/// #size-cells; }; };`.
#[rattlefmt::skip]
const WRITTEN: [u8; 172] = [
    0xd0, 0x0d, 0xfe, 0xed, 0, 0, 0, 0xac, 0, 0, 0, 0x48, 0, 0, 0, 0x9c, 0, 0, 0, 0x28, 0, 0, 0,
    0x11, 0, 0, 0, 0x10, 0, 0, 0, 0x03, 0, 0, 0, 0x10, 0, 0, 0, 0x54, 0, 0, 0, 0, 0, 0, 0x10, 0, 0,
    0, 0, 0, 0, 0, 0x20, 0, 0, 0, 0, 0, 0, 0, 0, 0, 0, 0, 0, 0, 0, 0, 0, 0, 0, 0, 0, 0x01, 0, 0, 0,
    0, 0, 0, 0, 0x03, 0, 0, 0, 0x04, 0, 0, 0, 0, 0, 0, 0, 0x02, 0, 0, 0, 0x01, 0x6d, 0x65, 0x6d,
    0x6f, 0x72, 0x79, 0x40, 0x30, 0, 0, 0, 0, 0, 0, 0, 0x03, 0, 0, 0, 0x05, 0, 0, 0, 0x0c, 0x31,
    0x32, 0x33, 0x34, 0x35, 0, 0, 0, 0, 0, 0, 0x03, 0, 0, 0, 0, 0, 0, 0, 0, 0, 0, 0, 0x02, 0, 0, 0,
    0x02, 0, 0, 0, 0x09, 0x23, 0x73, 0x69, 0x7a, 0x65, 0x2d, 0x63, 0x65, 0x6c, 0x6c, 0x73, 0, 0x72,
    0x65, 0x67, 0,
];

fn written(alloc: Global, free: u32) -> Result<Vec<u8>, WriteFault> {
    let mut writer = TreeWriter::new(alloc);
    writer.begin_node(b"".as_slice())?;
    writer.property(b"#size-cells".as_slice(), b"\0\0\0\x02".as_slice())?;
    writer.begin_node(b"memory@0".as_slice())?;
    writer.property(b"reg".as_slice(), b"12345".as_slice())?;
    writer.property(b"#size-cells".as_slice(), b"".as_slice())?;
    writer.end_node()?;
    writer.end_node()?;
    let reservations = [Reservation {
        address: 0x1000,
        size: 0x2000,
    }];
    let ends = Ends {
        reservations: reservations.as_slice(),
        boot_hart: 3,
        free,
    };
    writer.finish(alloc, &ends)
}

/// Compares from the third word on, because the second is the size.
fn expect_written(rt: &impl Abort, alloc: Global, free: u32) {
    let tree = written(alloc, free).expect(rt, "a tree");
    assert!(rt; tree.len() == WRITTEN.len() + free as usize);
    assert!(rt; tree[8..WRITTEN.len()] == WRITTEN[8..]);
}

#[test]
fn what_is_written_is_what_dtc_writes(rt: HostRuntime) {
    expect_written(&rt, rt.alloc(), 0);
    expect_written(&rt, rt.alloc(), 100);
}

#[test]
fn a_name_has_no_zero(rt: HostRuntime) {
    let mut writer = TreeWriter::new(rt.alloc());
    assert!(&rt; writer.begin_node(b"a\0".as_slice()) == Err(WriteFault::ZeroInName));
    assert!(&rt; writer.property(b"\0".as_slice(), b"".as_slice()) == Err(WriteFault::ZeroInName));
}
