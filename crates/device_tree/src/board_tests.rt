//! Tests of the ranges of a small tree.

use crate::{
    BoardFault, BoardReason, Extent, Found, Kind, PlacedPiece, RowFault, ranges_of, read_tree,
};
use std::alloc::Global;
use std::process::Abort;

/// Memory of 4 KiB at 0x80000000, and a bus whose first 4 KiB are at 0x10000000. The bus has a UART of eight bytes at
/// 0x100, a disabled device, and a device of which the bus translates only the first half. Addresses and sizes have one
/// cell. Made by `dtc`.
#[rattlefmt::skip]
const SMALL: [u8; 433] = [
    0xd0, 0x0d, 0xfe, 0xed, 0, 0, 0x01, 0xb1, 0, 0, 0, 0x38, 0, 0, 0x01, 0x78, 0, 0, 0, 0x28, 0, 0,
    0, 0x11, 0, 0, 0, 0x10, 0, 0, 0, 0, 0, 0, 0, 0x39, 0, 0, 0x01, 0x40, 0, 0, 0, 0, 0, 0, 0, 0, 0,
    0, 0, 0, 0, 0, 0, 0, 0, 0, 0, 0x01, 0, 0, 0, 0, 0, 0, 0, 0x03, 0, 0, 0, 0x04, 0, 0, 0, 0, 0, 0,
    0, 0x01, 0, 0, 0, 0x03, 0, 0, 0, 0x04, 0, 0, 0, 0x0f, 0, 0, 0, 0x01, 0, 0, 0, 0x01, 0x6d, 0x65,
    0x6d, 0x6f, 0x72, 0x79, 0x40, 0x38, 0x30, 0x30, 0x30, 0x30, 0x30, 0x30, 0x30, 0, 0, 0, 0, 0x03,
    0, 0, 0, 0x07, 0, 0, 0, 0x1b, 0x6d, 0x65, 0x6d, 0x6f, 0x72, 0x79, 0, 0, 0, 0, 0, 0x03, 0, 0, 0,
    0x08, 0, 0, 0, 0x27, 0x80, 0, 0, 0, 0, 0, 0x10, 0, 0, 0, 0, 0x02, 0, 0, 0, 0x01, 0x73, 0x6f,
    0x63, 0, 0, 0, 0, 0x03, 0, 0, 0, 0x04, 0, 0, 0, 0, 0, 0, 0, 0x01, 0, 0, 0, 0x03, 0, 0, 0, 0x04,
    0, 0, 0, 0x0f, 0, 0, 0, 0x01, 0, 0, 0, 0x03, 0, 0, 0, 0x0c, 0, 0, 0, 0x2b, 0, 0, 0, 0, 0x10, 0,
    0, 0, 0, 0, 0x10, 0, 0, 0, 0, 0x01, 0x75, 0x61, 0x72, 0x74, 0x40, 0x31, 0x30, 0x30, 0, 0, 0, 0,
    0, 0, 0, 0x03, 0, 0, 0, 0x08, 0, 0, 0, 0x27, 0, 0, 0x01, 0, 0, 0, 0, 0x08, 0, 0, 0, 0x02, 0, 0,
    0, 0x01, 0x6f, 0x66, 0x66, 0x40, 0x32, 0x30, 0x30, 0, 0, 0, 0, 0x03, 0, 0, 0, 0x09, 0, 0, 0,
    0x32, 0x64, 0x69, 0x73, 0x61, 0x62, 0x6c, 0x65, 0x64, 0, 0, 0, 0, 0, 0, 0, 0x03, 0, 0, 0, 0x08,
    0, 0, 0, 0x27, 0, 0, 0x02, 0, 0, 0, 0, 0x08, 0, 0, 0, 0x02, 0, 0, 0, 0x01, 0x65, 0x64, 0x67,
    0x65, 0x40, 0x66, 0x66, 0x30, 0, 0, 0, 0, 0, 0, 0, 0x03, 0, 0, 0, 0x08, 0, 0, 0, 0x27, 0, 0,
    0x0f, 0xf0, 0, 0, 0, 0x20, 0, 0, 0, 0x02, 0, 0, 0, 0x02, 0, 0, 0, 0x02, 0, 0, 0, 0x09, 0x23,
    0x61, 0x64, 0x64, 0x72, 0x65, 0x73, 0x73, 0x2d, 0x63, 0x65, 0x6c, 0x6c, 0x73, 0, 0x23, 0x73,
    0x69, 0x7a, 0x65, 0x2d, 0x63, 0x65, 0x6c, 0x6c, 0x73, 0, 0x64, 0x65, 0x76, 0x69, 0x63, 0x65,
    0x5f, 0x74, 0x79, 0x70, 0x65, 0, 0x72, 0x65, 0x67, 0, 0x72, 0x61, 0x6e, 0x67, 0x65, 0x73, 0,
    0x73, 0x74, 0x61, 0x74, 0x75, 0x73, 0,
];

/// Asserts the kind and the extent of one range.
fn expect_range(rt: &impl Abort, found: Found, kind: Kind, base: u64, size: u64) {
    assert!(rt; found.kind == kind);
    assert!(rt; found.extent == Extent { base, size });
}

fn expect_four<'a>(rt: &impl Abort, alloc: Global, pieces: &'a [PlacedPiece<'a>]) {
    let found = ranges_of(alloc, pieces).expect(rt, "ranges");
    assert!(rt; found.len() == 4);
    expect_range(rt, found[0], Kind::Memory, 0x8000_0000, 0x1000);
    assert!(rt; found[0].name == b"memory@80000000".as_slice());
    expect_range(rt, found[1], Kind::Device, 0x1000_0100, 8);
    assert!(rt; found[1].name == b"uart@100".as_slice());
    expect_range(rt, found[2], Kind::Device, 0x1000_0ff0, 0x10);
    expect_range(rt, found[3], Kind::Untranslated, 0x1000, 0x10);
    assert!(rt; found[3].name == b"edge@ff0".as_slice());
}

fn expect_small(rt: &impl Abort, alloc: Global) {
    let tree = read_tree(alloc, SMALL.as_slice()).expect(rt, "a tree");
    expect_four(rt, alloc, tree.pieces.as_slice());
}

#[test]
fn a_small_tree_says_its_ranges(rt: HostRuntime) {
    expect_small(&rt, rt.alloc());
}

fn fault_in<'a>(alloc: Global, pieces: &'a [PlacedPiece<'a>]) -> Option<BoardFault> {
    match ranges_of(alloc, pieces) {
        Ok(_) => None,
        Err(fault) => Some(fault),
    }
}

/// Asserts the fault of the small tree when its root has this `#address-cells`.
fn expect_fault(rt: &impl Abort, alloc: Global, cells: u8, wanted: BoardFault) {
    let mut bytes = SMALL;
    bytes[79] = cells;
    let tree = read_tree(alloc, bytes.as_slice()).expect(rt, "a tree");
    assert!(rt; fault_in(alloc, tree.pieces.as_slice()) == Some(wanted));
}

#[test]
fn cells_are_four_at_most_and_rows_whole(rt: HostRuntime) {
    let bad_cells = BoardFault {
        reason: BoardReason::BadCells,
        offset: 56,
    };
    expect_fault(&rt, rt.alloc(), 5, bad_cells);
    let bad_rows = BoardFault {
        reason: BoardReason::BadRows(RowFault::BadLength),
        offset: 96,
    };
    expect_fault(&rt, rt.alloc(), 2, bad_rows);
}
