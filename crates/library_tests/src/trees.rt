//! Trees of maps and their versions.

use crate::plans::map_of;
use permission_map::{MapFault, PermissionMap};
use pmp_encoding::Perm;
use prefix_tree::{Block, Parts, Tree, build};
use std::alloc::Global;
use std::process::Abort;
use std::rc::Rc;

const PAGES: u64 = 1 << 44;

/// Returns whether two blocks are split alike, with the same permissions.
fn same(one: &Block, other: &Block, height: u32) -> bool {
    match (one.parts(), other.parts()) {
        (Parts::Leaf(perm), Parts::Leaf(wanted)) => perm == wanted,
        (Parts::Halves(lower, upper), Parts::Halves(low, high)) => {
            height > 0 && same(lower, low, height - 1) && same(upper, high, height - 1)
        }
        _ => false,
    }
}

/// A page at the bottom, two runs with a page between them, and the two pages at the top.
const EXAMPLE: &[(u64, u64, Perm)] = &[
    (0, 1, Perm::Read),
    (16, 16, Perm::ReadWrite),
    (33, 8, Perm::ReadWrite),
    (PAGES - 2, 2, Perm::ReadWriteExecute),
];

/// Returns whether a version equals the tree built from the map.
fn is_built_of(rt: &impl Abort, alloc: Global, version: &Tree, map: &PermissionMap) -> bool {
    let tree = build(alloc, map).expect(rt, "memory");
    version.branches() == tree.branches() && same(version.root(), tree.root(), 44)
}

/// Asserts that the version with the range equals the tree built from the map with the range, and that both are refused
/// alike.
fn versions_agree(alloc: Global, first: u64, count: u64, perm: Perm, rt: &impl Abort) {
    let mut map = map_of(rt, alloc, EXAMPLE);
    let old = build(alloc, &map).expect(rt, "memory");
    let wanted = map.set_range(first, count, perm);
    match old.with_range(first, count, perm) {
        Ok(version) => {
            assert!(rt; wanted.is_ok());
            assert!(rt; is_built_of(rt, alloc, &version, &map));
        }
        Err(fault) => assert!(rt; wanted.err() == Some(fault)),
    }
}

/// Returns the tree of the map with these ranges: the first page, the number of pages, the permission.
fn tree_of(rt: &impl Abort, alloc: Global, ranges: &[(u64, u64, Perm)]) -> Tree {
    build(alloc, &map_of(rt, alloc, ranges)).expect(rt, "memory")
}

/// Asserts that the tree of the ranges splits that many blocks.
fn splits(rt: &impl Abort, alloc: Global, ranges: &[(u64, u64, Perm)], wanted: usize) {
    let tree = tree_of(rt, alloc, ranges);
    assert!(rt; tree.branches() == wanted);
}

/// Asserts that the block is a leaf with this permission.
fn is_leaf(rt: &impl Abort, block: &Block, wanted: Perm) {
    let Parts::Leaf(perm) = block.parts() else {
        panic!(rt; "split");
    };
    assert!(rt; perm == wanted);
}

/// Asserts that the tree of the ranges is one leaf with this permission.
fn is_one_leaf(rt: &impl Abort, alloc: Global, ranges: &[(u64, u64, Perm)], wanted: Perm) {
    splits(rt, alloc, ranges, 0);
    let tree = tree_of(rt, alloc, ranges);
    is_leaf(rt, tree.root(), wanted);
}

/// Asserts that the block is split into two leaves with these permissions.
fn has_leaves(rt: &impl Abort, block: &Block, lower: Perm, upper: Perm) {
    let Parts::Halves(low, high) = block.parts() else {
        panic!(rt; "not split");
    };
    is_leaf(rt, low, lower);
    is_leaf(rt, high, upper);
}

const WHOLE: &[(u64, u64, Perm)] = &[(0, PAGES, Perm::ReadWriteExecute)];

const PAGE: &[(u64, u64, Perm)] = &[(0x80000, 1, Perm::ReadWriteExecute)];

const HALVES: &[(u64, u64, Perm)] = &[
    (0, PAGES / 2, Perm::Read),
    (PAGES / 2, PAGES / 2, Perm::Execute),
];

/// Asserts that the tree of the halves splits only the whole space.
fn is_split_once(rt: &impl Abort, alloc: Global) {
    splits(rt, alloc, HALVES, 1);
    let tree = tree_of(rt, alloc, HALVES);
    has_leaves(rt, tree.root(), Perm::Read, Perm::Execute);
}

#[test]
fn no_block_of_one_permission_is_split(rt: HostRuntime) {
    is_one_leaf(&rt, rt.alloc(), &[], Perm::NoAccess);
    is_one_leaf(&rt, rt.alloc(), WHOLE, Perm::ReadWriteExecute);
    is_split_once(&rt, rt.alloc());
    splits(&rt, rt.alloc(), PAGE, 44);
}

#[test]
fn versions_are_as_built_afresh(rt: HostRuntime) {
    const CASES: &[(u64, u64, Perm)] = &[
        (5, 0, Perm::Read),
        (PAGES, 0, Perm::Read),
        (1, 1, Perm::Read),
        (1, 1, Perm::Execute),
        (32, 1, Perm::ReadWrite),
        (20, 4, Perm::NoAccess),
        (20, 4, Perm::ReadWrite),
        (20, 4, Perm::Execute),
        (0, 48, Perm::ReadExecute),
        (0, PAGES, Perm::NoAccess),
        (0, PAGES, Perm::ReadWriteExecute),
        (PAGES - 1, 1, Perm::NoAccess),
        (PAGES - 3, 1, Perm::ReadWriteExecute),
        (PAGES - 4, 4, Perm::Read),
        (PAGES, 1, Perm::Read),
        (PAGES + 1, 0, Perm::Read),
        (1, PAGES, Perm::Read),
        (u64::MAX, u64::MAX, Perm::Read),
    ];
    for (first, count, perm) in CASES {
        versions_agree(rt.alloc(), *first, *count, *perm, &rt);
    }
}

/// Returns whether two trees share the halves of the upper half of the space, if both split it.
fn share_upper_halves(one: &Tree, other: &Tree) -> Option<bool> {
    let (Block::Branch(one), Block::Branch(other)) = (one.root(), other.root()) else {
        return None;
    };
    let (Block::Branch(one), Block::Branch(other)) = (&one.1, &other.1) else {
        return None;
    };
    Some(Rc::ptr_eq(one, other))
}

/// Asserts whether the version of the example with the range shares the upper half of the upper half with its tree;
/// both split it.
fn shares(rt: &impl Abort, alloc: Global, first: u64, count: u64, wanted: bool) {
    let tree = tree_of(rt, alloc, EXAMPLE);
    let version = tree
        .with_range(first, count, Perm::Execute)
        .expect(rt, "memory");
    assert!(rt; share_upper_halves(&tree, &version) == Some(wanted));
}

#[test]
fn what_the_range_does_not_meet_is_shared(rt: HostRuntime) {
    shares(&rt, rt.alloc(), 3, 5, true);
    shares(&rt, rt.alloc(), PAGES - 1, 1, false);
}

/// Sets as many runs as a map may have, each of one page.
fn set_most_runs(rt: &impl Abort, map: &mut PermissionMap) {
    for i in 0..4096u64 {
        map.set_range(i * 0x1_0000_0000, 1, Perm::Read)
            .expect(rt, "memory");
    }
}

/// Asserts why there is no version with the range, or that there is one if the fault is `None`.
fn refuses(
    rt: &impl Abort,
    tree: &Tree,
    first: u64,
    count: u64,
    perm: Perm,
    wanted: Option<MapFault>,
) {
    assert!(rt; tree.with_range(first, count, perm).err() == wanted);
}

/// Asserts that the tree splits that many blocks, and has no version with one more run.
fn is_full(rt: &impl Abort, tree: &Tree) {
    assert!(rt; tree.branches() == 4095 + 4096 * 32);
    refuses(rt, tree, 2, 1, Perm::Read, Some(MapFault::TooManyRanges));
    refuses(rt, tree, 1, 1, Perm::Read, None);
    refuses(rt, tree, 0, 2, Perm::NoAccess, None);
}

#[test]
fn most_ranges_build_and_one_more_is_refused(rt: HostRuntime) {
    let mut map = PermissionMap::new(rt.alloc());
    set_most_runs(&rt, &mut map);
    is_full(&rt, &build(rt.alloc(), &map).expect(&rt, "memory"));
    assert!(rt; map.set_range(2, 1, Perm::Read).err() == Some(MapFault::TooManyRanges));
}

/// Appends a version of the last tree in which one more page is readable.
fn push_next_version(rt: &impl Abort, versions: &mut Vec<Tree>, page: u64) {
    let last = versions.last().expect(rt, "a version");
    let next = last.with_range(page, 1, Perm::Read).expect(rt, "memory");
    versions.push(next).expect(rt, "memory");
}

#[test]
fn many_versions_are_kept_and_let_go(rt: HostRuntime) {
    let mut versions = Vec::new(rt.alloc());
    versions
        .push(tree_of(&rt, rt.alloc(), EXAMPLE))
        .expect(&rt, "memory");
    for i in 0..1000u64 {
        push_next_version(&rt, &mut versions, 64 + i);
    }
    assert!(rt; versions.len() == 1001);
}
