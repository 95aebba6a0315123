//! A map and its fewest entries, cut by hand; and a list that begins and ends inside a page.

use crate::plans::map_of;
use map_table::{ExtentTree, Stretch, extents_of, stretches_by_entries};
use pmp_encoding::{Entry, Perm, Region, SPACE_SIZE};
use std::alloc::Global;
use std::process::Abort;

/// Returns the entry of that block.
fn entry(rt: &impl Abort, base: u64, log2: u32, perm: Perm) -> Entry {
    let region = Region::new(base, log2).expect(rt, "a block");
    Entry { region, perm }
}

fn stretch(first: u64, end: u64, wanted: Perm, given: Perm, entry: Option<usize>) -> Stretch {
    Stretch {
        first,
        end,
        wanted,
        given,
        entry,
    }
}

/// Returns a stretch of bytes that no entry matches and on which the map has no permission.
fn nothing(first: u64, end: u64) -> Stretch {
    stretch(first, end, Perm::NoAccess, Perm::NoAccess, None)
}

/// Asserts how the entries cut the map of the ranges.
fn cut(
    rt: &impl Abort,
    alloc: Global,
    ranges: &[(u64, u64, Perm)],
    entries: &[Entry],
    wanted: &[Stretch],
) {
    let map = map_of(rt, alloc, ranges);
    let all = stretches_by_entries(alloc, &map, entries).expect(rt, "memory");
    assert!(rt; all.as_slice() == wanted);
}

/// The lowest entry from this number on that overlaps a piece: the number, the ends of the piece, and the entry found.
type Meeting = (usize, u64, u64, Option<usize>);

/// A block: its base, and its size as a power of two.
type Block = (u64, u32);

/// Returns the extents of blocks.
fn tree_of(rt: &impl Abort, alloc: Global, blocks: &[Block]) -> ExtentTree {
    let mut entries = Vec::new(alloc);
    for (base, log2) in blocks {
        let block = entry(rt, *base, *log2, Perm::Read);
        entries.push(block).expect(rt, "memory");
    }
    let extents = extents_of(alloc, &entries).expect(rt, "memory");
    ExtentTree::new(alloc, extents.as_slice()).expect(rt, "memory")
}

/// Asserts the first block that overlaps the piece of each row.
fn meet(rt: &impl Abort, alloc: Global, blocks: &[Block], rows: &[Meeting]) {
    let tree = tree_of(rt, alloc, blocks);
    for (from, first, end, wanted) in rows {
        assert!(rt; tree.next_meeting(*from, *first, *end) == *wanted);
    }
}

/// Searches of five entries: each that contains a byte in turn, a piece between them, and one byte more on either side.
const MEETINGS: &[Meeting] = &[
    (0, 0x3000, 0x3001, Some(0)),
    (1, 0x3000, 0x3001, Some(3)),
    (4, 0x3000, 0x3001, Some(4)),
    (5, 0x3000, 0x3001, None),
    (0, 0x4000, 0x8000, None),
    (0, 0x4000, 0x8001, Some(2)),
    (0, 0x8fff, 0x9000, Some(2)),
    (0, 0x9000, 0xa000, None),
];

const FIVE: &[Block] = &[
    (0x3000, 12),
    (0x1000, 12),
    (0x8000, 12),
    (0x2000, 13),
    (0, 14),
];

/// The third block contains a byte after the end of those before it.
const RISING: &[Block] = &[(0x1000, 12), (0x2000, 12), (0x3000, 12), (0x8000, 12)];

#[test]
fn the_next_entry_that_meets_a_piece(rt: HostRuntime) {
    meet(&rt, rt.alloc(), FIVE, MEETINGS);
    meet(&rt, rt.alloc(), RISING, &[(0, 0x3000, 0x3001, Some(2))]);
}

#[test]
fn host_map_and_its_three_entries(rt: HostRuntime) {
    let ranges = [
        (0x80000, 0x8000, Perm::ReadWriteExecute),
        (0x80000, 0x200, Perm::NoAccess),
        (0x10000, 1, Perm::ReadWrite),
    ];
    let entries = [
        entry(&rt, 0x1000_0000, 12, Perm::ReadWrite),
        entry(&rt, 0x8000_0000, 21, Perm::NoAccess),
        entry(&rt, 0x8000_0000, 27, Perm::ReadWriteExecute),
    ];
    let rw = Perm::ReadWrite;
    let none = Perm::NoAccess;
    let all = Perm::ReadWriteExecute;
    let wanted = [
        nothing(0, 0x1000_0000),
        stretch(0x1000_0000, 0x1000_1000, rw, rw, Some(0)),
        nothing(0x1000_1000, 0x8000_0000),
        stretch(0x8000_0000, 0x8020_0000, none, none, Some(1)),
        stretch(0x8020_0000, 0x8800_0000, all, all, Some(2)),
        nothing(0x8800_0000, SPACE_SIZE),
    ];
    cut(&rt, rt.alloc(), &ranges, &entries, &wanted);
}

#[test]
fn four_bytes_of_a_page_and_a_run_without_entry(rt: HostRuntime) {
    let ranges = [(1, 2, Perm::Read)];
    let entries = [
        entry(&rt, 0x1004, 2, Perm::Execute),
        entry(&rt, 0x1000, 12, Perm::Read),
    ];
    let read = Perm::Read;
    let none = Perm::NoAccess;
    let wanted = [
        nothing(0, 0x1000),
        stretch(0x1000, 0x1004, read, read, Some(1)),
        stretch(0x1004, 0x1008, read, Perm::Execute, Some(0)),
        stretch(0x1008, 0x2000, read, read, Some(1)),
        stretch(0x2000, 0x3000, read, none, None),
        nothing(0x3000, SPACE_SIZE),
    ];
    cut(&rt, rt.alloc(), &ranges, &entries, &wanted);
}
