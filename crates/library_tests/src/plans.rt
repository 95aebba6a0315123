//! Maps, and the fewest entries that mean them.

use crate::certificates::{by_map, by_tree};
use entry_planner::{Plan, plan, plan_map};
use permission_map::PermissionMap;
use pmp_encoding::{Bank, Limit, PackedEntry, Perm};
use prefix_tree::build;
use std::alloc::Global;
use std::process::Abort;

/// All permissions, in the order of their costs.
const PERMS: [Perm; 6] = [
    Perm::NoAccess,
    Perm::Read,
    Perm::ReadWrite,
    Perm::Execute,
    Perm::ReadExecute,
    Perm::ReadWriteExecute,
];

/// A range: the first page, the number of pages, the permission.
pub type Range = (u64, u64, Perm);

/// An encoded entry: the configuration byte and the address.
type Pair = (u8, u64);

/// Returns the map with these ranges.
pub fn map_of(rt: &impl Abort, alloc: Global, ranges: &[Range]) -> PermissionMap {
    let mut map = PermissionMap::new(alloc);
    for (first, count, perm) in ranges {
        map.set_range(*first, *count, *perm).expect(rt, "memory");
    }
    map
}

/// Returns whether the entries encode as these pairs, in this order.
fn are_written(entries: &[PackedEntry], pairs: &[Pair]) -> bool {
    for (entry, pair) in entries.iter().zip(pairs) {
        if entry.encode() != *pair {
            return false;
        }
    }
    entries.len() == pairs.len()
}

/// Returns whether two plans have the same entries, in the same order.
fn have_same_entries(one: &Plan, other: &Plan<PackedEntry>) -> bool {
    for (entry, same) in one.entries().iter().zip(other.entries()) {
        if *entry != same.entry() {
            return false;
        }
    }
    one.entries().len() == other.entries().len()
}

/// Returns whether two plans have the same costs of all split blocks for all permissions.
fn have_same_costs(one: &Plan, other: &Plan<PackedEntry>) -> bool {
    if one.branches() != other.branches() {
        return false;
    }
    for i in 0..one.branches() {
        for perm in PERMS {
            if one.cost(i, perm) != other.cost(i, perm) {
                return false;
            }
        }
    }
    true
}

/// Returns whether the split blocks of a plan have these costs, for all permissions in their order.
fn have_costs(plan: &Plan, wanted: &[[u32; 6]]) -> bool {
    for i in 0..plan.branches() {
        let costs = wanted.get(i).copied().unwrap_or_default();
        for k in 0..6 {
            if plan.cost(i, PERMS[k]) != costs[k] {
                return false;
            }
        }
    }
    plan.branches() == wanted.len()
}

/// Returns whether a plan made without a tree is that of the map's tree, with the same entries and costs.
fn is_of_tree(
    rt: &impl Abort,
    alloc: Global,
    map: &PermissionMap,
    of_map: &Plan<PackedEntry>,
) -> bool {
    let tree = build(alloc, map).expect(rt, "memory");
    let plan = plan(alloc, &tree).expect(rt, "memory");
    plan.branches() == tree.branches()
        && plan.needed() == of_map.needed()
        && have_same_entries(&plan, of_map)
        && have_same_costs(&plan, of_map)
}

/// Asserts that the map has the same certificate with and without its tree.
fn is_certified_alike(rt: &impl Abort, alloc: Global, map: &PermissionMap) {
    let bytes = by_map(rt, alloc, map, Limit::Sixteen);
    assert!(rt; bytes == by_tree(rt, alloc, map, Limit::Sixteen));
}

/// Asserts that the plan of the ranges has these entries, as pairs in this order, and that the plan of their map's tree
/// is the same, with the same costs and certificate.
fn is_planned(rt: &impl Abort, alloc: Global, ranges: &[Range], pairs: &[Pair]) {
    let map = map_of(rt, alloc, ranges);
    let plan = plan_map(alloc, &map).expect(rt, "memory");
    assert!(rt; are_written(plan.entries(), pairs));
    assert!(rt; plan.needed() as usize == pairs.len());
    assert!(rt; is_of_tree(rt, alloc, &map, &plan));
    is_certified_alike(rt, alloc, &map);
}

/// Asserts the first configuration word of the bank with the list of the ranges' plan.
fn configures(rt: &impl Abort, alloc: Global, ranges: &[Range], word: u64) {
    let map = map_of(rt, alloc, ranges);
    let plan = plan_map(alloc, &map).expect(rt, "memory");
    assert!(rt; plan.entries().len() <= 16);
    assert!(rt; Bank::of_packed(plan.entries(), Limit::Sixteen).cfg0() == word);
}

/// Asserts that the map of the ranges splits as many blocks as there are rows, with these costs.
fn costs(rt: &impl Abort, alloc: Global, ranges: &[Range], rows: &[[u32; 6]]) {
    let tree = build(alloc, &map_of(rt, alloc, ranges)).expect(rt, "memory");
    let plan = plan(alloc, &tree).expect(rt, "memory");
    assert!(rt; have_costs(&plan, rows));
}

#[test]
fn empty_map_needs_no_entry(rt: HostRuntime) {
    is_planned(&rt, rt.alloc(), &[], &[]);
    costs(&rt, rt.alloc(), &[], &[]);
}

#[test]
fn boot_of_the_example_platform_uses_three_entries(rt: HostRuntime) {
    const RANGES: &[Range] = &[
        (0x80000, 0x8000, Perm::ReadWriteExecute),
        (0x80000, 0x200, Perm::NoAccess),
        (0x10000, 1, Perm::ReadWrite),
    ];
    const PAIRS: &[Pair] = &[
        (0x1B, 0x0400_01FF),
        (0x18, 0x2003_FFFF),
        (0x1F, 0x20FF_FFFF),
    ];
    is_planned(&rt, rt.alloc(), RANGES, PAIRS);
    configures(&rt, rt.alloc(), RANGES, 0x1F_181B);
}

const SEVEN_PAGES: &[Range] = &[(0x80208, 7, Perm::ReadExecute)];

/// Two pages and one page, where the second has the permission of the third.
const TIE: &[Range] = &[
    (0x80200, 1, Perm::ReadExecute),
    (0x80201, 1, Perm::ReadWrite),
    (0x80400, 1, Perm::ReadWrite),
];

/// Ranges, and the pairs of their plan.
const PLANNED: &[(&[Range], &[Pair])] = &[
    // the whole address space
    (
        &[(0, 1 << 44, Perm::ReadWriteExecute)],
        &[(0x1F, 0x001F_FFFF_FFFF_FFFF)],
    ),
    // the whole space except one page
    (
        &[
            (0, 1 << 44, Perm::ReadWriteExecute),
            (0x80000, 1, Perm::NoAccess),
        ],
        &[(0x18, 0x2000_01FF), (0x1F, 0x001F_FFFF_FFFF_FFFF)],
    ),
    // seven pages: eight, with one of them denied
    (SEVEN_PAGES, &[(0x18, 0x2008_3DFF), (0x1D, 0x2008_2FFF)]),
    // one of four pages is overridden
    (
        &[(0x80000, 4, Perm::Read), (0x80001, 1, Perm::ReadWrite)],
        &[(0x1B, 0x2000_05FF), (0x19, 0x2000_07FF)],
    ),
    // the inherited permission stays if it is best for a half
    (
        &[(0x80000, 4, Perm::Read), (0x80001, 1, Perm::NoAccess)],
        &[(0x19, 0x2000_01FF), (0x19, 0x2000_0BFF)],
    ),
    // the first permission that is best for both halves is placed
    (
        &[
            (0x80000, 4, Perm::Read),
            (0x80001, 1, Perm::ReadWrite),
            (0x80003, 1, Perm::ReadWrite),
        ],
        &[
            (0x1B, 0x2000_05FF),
            (0x1B, 0x2000_0DFF),
            (0x19, 0x2000_07FF),
        ],
    ),
    // a tie is resolved as two pages
    (
        TIE,
        &[
            (0x1D, 0x2008_01FF),
            (0x1B, 0x2008_05FF),
            (0x1B, 0x2010_01FF),
        ],
    ),
];

#[test]
fn maps_have_the_fewest_entries_with_and_without_a_tree(rt: HostRuntime) {
    for (ranges, pairs) in PLANNED {
        is_planned(&rt, rt.alloc(), ranges, pairs);
    }
    configures(&rt, rt.alloc(), SEVEN_PAGES, 0x1D18);
    configures(&rt, rt.alloc(), TIE, 0x1B_1B1D);
}

/// Asserts that the map needs that many entries.
fn needs(rt: &impl Abort, alloc: Global, map: &PermissionMap, wanted: u32) {
    let tree = build(alloc, map).expect(rt, "memory");
    let plan = plan(alloc, &tree).expect(rt, "memory");
    assert!(rt; plan.needed() == wanted);
}

/// Returns the view of the example platform's host when this many single pages, every second one from 0x80200000 on,
/// are private to enclaves.
fn host_beside_scattered_pages(rt: &impl Abort, alloc: Global, pages: u32) -> PermissionMap {
    let ranges = [
        (0x80000, 0x8000, Perm::ReadWriteExecute),
        (0x80000, 0x200, Perm::NoAccess),
        (0x10000, 1, Perm::ReadWrite),
    ];
    let mut map = map_of(rt, alloc, &ranges);
    for i in 0..pages {
        map.set_range(0x80200 + 2 * u64::from(i), 1, Perm::NoAccess)
            .expect(rt, "memory");
    }
    map
}

/// Asserts that the host beside `pages` scattered pages needs `wanted` entries.
fn scattered_pages_need(rt: &impl Abort, alloc: Global, pages: u32, wanted: u32) {
    let map = host_beside_scattered_pages(rt, alloc, pages);
    needs(rt, alloc, &map, wanted);
}

/// Asserts that the map of the ranges needs that many entries.
fn ranges_need(rt: &impl Abort, alloc: Global, ranges: &[Range], wanted: u32) {
    let map = map_of(rt, alloc, ranges);
    needs(rt, alloc, &map, wanted);
}

const TEN_SHARED: &[Range] = &[
    (0x804AB, 170, Perm::ReadExecute),
    (0x80555, 342, Perm::ReadWrite),
    (0x81000, 10, Perm::ReadWrite),
];

const ELEVEN_SHARED: &[Range] = &[
    (0x804AB, 170, Perm::ReadExecute),
    (0x80555, 342, Perm::ReadWrite),
    (0x81000, 11, Perm::ReadWrite),
];

#[test]
fn one_page_more_needs_one_entry_more(rt: HostRuntime) {
    scattered_pages_need(&rt, rt.alloc(), 13, 16);
    scattered_pages_need(&rt, rt.alloc(), 14, 17);
    ranges_need(&rt, rt.alloc(), TEN_SHARED, 16);
    ranges_need(&rt, rt.alloc(), ELEVEN_SHARED, 17);
}

#[test]
fn thirteen_scattered_pages_fill_both_configuration_words(rt: HostRuntime) {
    let map = host_beside_scattered_pages(&rt, rt.alloc(), 13);
    let plan = plan_map(rt.alloc(), &map).expect(&rt, "memory");
    assert!(rt; plan.needed() == 16);
    let bank = Bank::of_packed(plan.entries(), Limit::Sixteen);
    assert!(rt; bank.cfg0() == 0x1818_1818_1818_181B);
    assert!(rt; bank.cfg2() == 0x1F18_1818_1818_1818);
}

#[test]
fn the_lower_half_costs_one_under_either_permission(rt: HostRuntime) {
    const RANGES: &[Range] = &[(0, 1 << 43, Perm::ReadWriteExecute)];
    costs(&rt, rt.alloc(), RANGES, &[[1, 2, 2, 2, 2, 1]]);
}
