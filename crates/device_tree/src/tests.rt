//! Tests of a small tree, and of the faults after changes of its bytes.

use crate::{Piece, PlacedPiece, Reservation, TreeFault, TreeReason, read_tree};
use std::alloc::Global;
use std::process::Abort;

/// A root with one property, one child with one property, and one reservation. A NOP token precedes the child.
const SMALL: [u8; 140] = [
    0xd0, 0x0d, 0xfe, 0xed, 0, 0, 0, 140, 0, 0, 0, 72, 0, 0, 0, 136, 0, 0, 0, 40, // magic, size, places
    0, 0, 0, 17, 0, 0, 0, 16, 0, 0, 0, 0, 0, 0, 0, 4, 0, 0, 0, 64, // versions, hart, sizes
    0, 0, 0, 0, 0, 0, 0x10, 0, 0, 0, 0, 0, 0, 0, 0x20, 0, // 40: a reservation
    0, 0, 0, 0, 0, 0, 0, 0, 0, 0, 0, 0, 0, 0, 0, 0, // 56: the end of the reservations
    0, 0, 0, 1, 0, 0, 0, 0, // 72: the root begins
    0, 0, 0, 3, 0, 0, 0, 4, 0, 0, 0, 0, 0, 0, 0, 2, // 80: its property
    0, 0, 0, 4, // 96: a NOP token
    0, 0, 0, 1, 0x6d, 0x40, 0x30, 0, // 100: the child begins
    0, 0, 0, 3, 0, 0, 0, 1, 0, 0, 0, 2, 0x78, 0, 0, 0, // 108: its property
    0, 0, 0, 2, 0, 0, 0, 2, 0, 0, 0, 9, // 124: the child, the root and the block end
    0x61, 0, 0x62, 0, // 136: the names of the properties
];

fn expect_begin(rt: &impl Abort, placed: PlacedPiece, offset: usize, wanted: &[u8]) {
    assert!(rt; placed.offset == offset);
    let Piece::Begins(name) = placed.piece else {
        panic!(rt; "no node begins");
    };
    assert!(rt; name == wanted);
}

fn expect_property(rt: &impl Abort, placed: PlacedPiece, name: &[u8], value: &[u8]) {
    let Piece::Has(found, bytes) = placed.piece else {
        panic!(rt; "no property");
    };
    assert!(rt; found == name);
    assert!(rt; bytes == value);
}

fn expect_small(rt: &impl Abort, alloc: Global) {
    let tree = read_tree(alloc, SMALL.as_slice()).expect(rt, "a tree");
    assert!(rt; tree.reservations.len() == 1);
    assert!(rt;
        tree.reservations[0]
            == Reservation {
                address: 0x1000,
                size: 0x2000
            }
    );
    assert!(rt; tree.pieces.len() == 6);
    expect_begin(rt, tree.pieces[0], 72, b"".as_slice());
    expect_property(
        rt,
        tree.pieces[1],
        b"a".as_slice(),
        b"\0\0\0\x02".as_slice(),
    );
    expect_begin(rt, tree.pieces[2], 100, b"m@0".as_slice());
    expect_property(rt, tree.pieces[3], b"b".as_slice(), b"x".as_slice());
}

#[test]
fn a_small_tree_is_read(rt: HostRuntime) {
    expect_small(&rt, rt.alloc());
}

/// An offset and the byte to store there.
type Edit = (usize, u8);

/// Returns the fault of the small tree with these changes, if there is one.
fn fault_of(alloc: Global, edits: &[Edit]) -> Option<TreeFault> {
    let mut bytes = SMALL;
    for (place, value) in edits {
        if *place < 140 {
            bytes[*place] = *value;
        }
    }
    match read_tree(alloc, bytes.as_slice()) {
        Ok(_) => None,
        Err(fault) => Some(fault),
    }
}

/// A change, the expected reason and its offset.
const ROWS: [(Edit, TreeReason, usize); 17] = [
    ((0, 0), TreeReason::BadMagic, 0),
    ((7, 141), TreeReason::BadSize, 4),
    ((23, 16), TreeReason::OldVersion, 20),
    ((27, 18), TreeReason::NewVersion, 24),
    ((11, 74), TreeReason::BadStructureBlock, 8),
    ((39, 72), TreeReason::BadStructureBlock, 8),
    ((15, 137), TreeReason::BadStringsBlock, 12),
    ((19, 44), TreeReason::BadReservationBlock, 16),
    ((19, 136), TreeReason::UnendedReservations, 136),
    ((39, 60), TreeReason::NoToken, 132),
    ((99, 5), TreeReason::UnknownToken, 96),
    ((39, 35), TreeReason::UnendedName, 100),
    ((115, 200), TreeReason::PastBlock, 108),
    ((119, 9), TreeReason::NoPropertyName, 108),
    ((39, 68), TreeReason::BytesBehindEnd, 132),
    ((76, 0x78), TreeReason::NoRoot, 72),
    ((99, 2), TreeReason::PieceBehindRoot, 100),
];

#[test]
fn each_fault_has_its_reason_and_place(rt: HostRuntime) {
    for (edit, reason, offset) in &ROWS {
        let wanted = TreeFault {
            reason: *reason,
            offset: *offset,
        };
        assert!(rt; fault_of(rt.alloc(), &[*edit]) == Some(wanted));
    }
}

#[test]
fn nodes_end_and_have_their_properties_first(rt: HostRuntime) {
    let late = [(99, 1), (104, 0), (105, 0), (106, 0), (107, 2)];
    let wanted = TreeFault {
        reason: TreeReason::LateProperty,
        offset: 108,
    };
    assert!(rt; fault_of(rt.alloc(), &late) == Some(wanted));
    let unended = TreeFault {
        reason: TreeReason::UnendedNode,
        offset: 132,
    };
    assert!(rt; fault_of(rt.alloc(), &[(127, 4)]) == Some(unended));
}

/// The header of a tree of 856 bytes, in which only the reservations precede the structure block.
const NESTED: [u8; 40] = [
    0xd0, 0x0d, 0xfe, 0xed, 0, 0, 3, 0x58, 0, 0, 0, 56, 0, 0, 0, 56, 0, 0, 0, 40, // magic, size, places
    0, 0, 0, 17, 0, 0, 0, 16, 0, 0, 0, 0, 0, 0, 0, 0, 0, 0, 3, 0x20, // versions, hart, sizes
];

/// Returns the fault of up to 65 nested nodes. NOP tokens replace the nodes that are left out.
fn fault_of_levels(alloc: Global, levels: usize) -> Option<TreeFault> {
    let mut bytes = [0; 856];
    bytes[..40].copy_from_slice(NESTED.as_slice());
    for i in 0..65 {
        let is_there = i < levels;
        bytes[56 + 8 * i + 3] = if is_there { 1 } else { 4 };
        bytes[56 + 8 * i + 7] = if is_there { 0 } else { 4 };
        bytes[576 + 4 * i + 3] = if is_there { 2 } else { 4 };
    }
    for place in [839, 843, 847, 851] {
        bytes[place] = 4;
    }
    bytes[855] = 9;
    match read_tree(alloc, bytes.as_slice()) {
        Ok(_) => None,
        Err(fault) => Some(fault),
    }
}

#[test]
fn sixty_four_levels_are_read(rt: HostRuntime) {
    assert!(rt; fault_of_levels(rt.alloc(), 64) == None);
    let wanted = TreeFault {
        reason: TreeReason::TooDeep,
        offset: 568,
    };
    assert!(rt; fault_of_levels(rt.alloc(), 65) == Some(wanted));
}
