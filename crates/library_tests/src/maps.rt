//! Maps of ranges that overwrite one another.

use permission_map::{MapBuilder, MapFault, PermissionMap, Run};
use pmp_encoding::Perm;
use std::alloc::Global;
use std::process::Abort;

/// The number of pages of the address space.
const SPACE: u64 = 1 << 44;

/// A range or a run: the first page, the number of pages, the permission.
type Range = (u64, u64, Perm);

/// Returns the map after these ranges were set, one after another.
fn map_of(alloc: Global, ranges: &[Range]) -> Result<PermissionMap, MapFault> {
    let mut map = PermissionMap::new(alloc);
    for (first, count, perm) in ranges {
        map.set_range(*first, *count, *perm)?;
    }
    Ok(map)
}

/// Returns whether the runs are these, in this order.
fn are_runs(runs: &[Run], wanted: &[Range]) -> bool {
    for (run, row) in runs.iter().zip(wanted) {
        if (run.first, run.count, run.perm) != *row {
            return false;
        }
    }
    runs.len() == wanted.len()
}

/// Returns the map of a builder that receives these ranges.
fn built_of(rt: &impl Abort, alloc: Global, ranges: &[Range]) -> PermissionMap {
    let mut built = MapBuilder::new(alloc);
    for (first, count, perm) in ranges {
        built.set_range(*first, *count, *perm).expect(rt, "memory");
    }
    built.finish().expect(rt, "memory")
}

/// Asserts the runs of a map with these ranges, of its copy, and of a builder's map.
fn have_runs(rt: &impl Abort, alloc: Global, ranges: &[Range], wanted: &[Range]) {
    let map = map_of(alloc, ranges).expect(rt, "memory");
    assert!(rt; are_runs(map.ranges(), wanted));
    let copy = map.try_clone().expect(rt, "memory");
    assert!(rt; copy.ranges() == map.ranges());
    let built = built_of(rt, alloc, ranges);
    assert!(rt; built.ranges() == map.ranges());
}

/// The example, in which a later range removes the lowest pages of an earlier one.
const EXAMPLE: &[Range] = &[
    (0x80000, 0x8000, Perm::ReadWriteExecute),
    (0x80000, 0x200, Perm::NoAccess),
    (0x10000, 1, Perm::ReadWrite),
];

const LAST_PAGE: &[Range] = &[(SPACE - 1, 1, Perm::ReadExecute)];

/// Ranges, and the resulting runs.
const RUNS: &[(&[Range], &[Range])] = &[
    (&[], &[]),
    (
        EXAMPLE,
        &[
            (0x10000, 1, Perm::ReadWrite),
            (0x80200, 0x7E00, Perm::ReadWriteExecute),
        ],
    ),
    (
        &[
            (10, 5, Perm::Read),
            (20, 5, Perm::Read),
            (15, 5, Perm::Read),
        ],
        &[(10, 15, Perm::Read)],
    ),
    (
        &[(10, 10, Perm::Read), (13, 2, Perm::Execute)],
        &[
            (10, 3, Perm::Read),
            (13, 2, Perm::Execute),
            (15, 5, Perm::Read),
        ],
    ),
    (LAST_PAGE, LAST_PAGE),
    (
        &[
            (0x80000, 0x8000, Perm::ReadWriteExecute),
            (0x80000, 0x200, Perm::NoAccess),
            (0x80400, 2, Perm::Read),
            (0x80401, 3, Perm::Read),
            (SPACE - 1, 1, Perm::Execute),
            (0x803FF, 1, Perm::ReadWrite),
        ],
        &[
            (0x80200, 0x1FF, Perm::ReadWriteExecute),
            (0x803FF, 1, Perm::ReadWrite),
            (0x80400, 4, Perm::Read),
            (0x80404, 0x7BFC, Perm::ReadWriteExecute),
            (SPACE - 1, 1, Perm::Execute),
        ],
    ),
];

#[test]
fn ranges_become_maximal_runs(rt: HostRuntime) {
    for (ranges, wanted) in RUNS {
        have_runs(&rt, rt.alloc(), ranges, wanted);
    }
}

/// Asserts the permission of the page.
fn gives(rt: &impl Abort, map: &PermissionMap, page: u32, perm: Perm) {
    assert!(rt; map.get(u64::from(page)) == perm, "{page:#x}");
}

/// Asserts the permissions of a block of the example with one permission, one with two, and one with none.
fn has_blocks(rt: &impl Abort, map: &PermissionMap) {
    assert!(rt; map.uniform(0x84000, 14) == Some(Perm::ReadWriteExecute));
    assert!(rt; map.uniform(0x80000, 15) == None);
    assert!(rt; map.uniform(0x80000, 9) == Some(Perm::NoAccess));
}

#[test]
fn pages_and_blocks_of_the_example(rt: HostRuntime) {
    let map = map_of(rt.alloc(), EXAMPLE).expect(&rt, "memory");
    for (page, perm) in [
        (0x10000, Perm::ReadWrite),
        (0x801FF, Perm::NoAccess),
        (0x80200, Perm::ReadWriteExecute),
    ] {
        gives(&rt, &map, page, perm);
    }
    has_blocks(&rt, &map);
}

/// Asserts that one more run is refused, and that the map keeps its runs.
fn refuses_one_more(rt: &impl Abort, map: &mut PermissionMap) {
    let before = map.try_clone().expect(rt, "memory");
    let refused = map.set_range(8192, 1, Perm::Read);
    assert!(rt; refused == Err(MapFault::TooManyRanges));
    assert!(rt; map.ranges() == before.ranges());
}

/// Sets as many runs as allowed; one more is refused, but the last may grow.
fn fills(rt: &impl Abort, map: &mut PermissionMap) {
    for i in 0..4096u64 {
        map.set_range(2 * i, 1, Perm::Read).expect(rt, "memory");
    }
    refuses_one_more(rt, map);
    map.set_range(8191, 1, Perm::Read).expect(rt, "memory");
    assert!(rt; map.ranges().len() == 4096);
}

/// Asserts the results of setting ranges, one after another: the first page, the number of pages, the result.
fn sets(rt: &impl Abort, map: &mut PermissionMap, rows: &[(u64, u64, Result<(), MapFault>)]) {
    for (first, count, wanted) in rows {
        let answer = map.set_range(*first, *count, Perm::Read);
        assert!(rt; answer == *wanted, "{first} {count}");
    }
}

const AT_THE_END: &[(u64, u64, Result<(), MapFault>)] = &[
    (SPACE - 1, 2, Err(MapFault::PastEnd)),
    (SPACE + 1, 0, Err(MapFault::PastEnd)),
    (0, SPACE + 1, Err(MapFault::PastEnd)),
    (u64::MAX, u64::MAX, Err(MapFault::PastEnd)),
    (1, u64::MAX, Err(MapFault::PastEnd)),
    (u64::MAX, 1, Err(MapFault::PastEnd)),
    (SPACE, 0, Ok(())),
];

/// Gives a builder as many runs as allowed; one more is refused, but the last may grow.
fn fills_builder(rt: &impl Abort, built: &mut MapBuilder) {
    for i in 0..4096u64 {
        built.set_range(2 * i, 1, Perm::Read).expect(rt, "memory");
    }
    let refused = built.set_range(8192, 1, Perm::Read);
    assert!(rt; refused == Err(MapFault::TooManyRanges));
    built.set_range(8191, 1, Perm::Read).expect(rt, "memory");
}

/// Asserts that the map of a full builder has as many runs as allowed.
fn is_full(rt: &impl Abort, alloc: Global) {
    let mut built = MapBuilder::new(alloc);
    fills_builder(rt, &mut built);
    let map = built.finish().expect(rt, "memory");
    assert!(rt; map.ranges().len() == 4096);
}

#[test]
fn ranges_past_the_end_and_runs_above_the_limit_are_refused(rt: HostRuntime) {
    let mut map = PermissionMap::new(rt.alloc());
    sets(&rt, &mut map, AT_THE_END);
    fills(&rt, &mut map);
    is_full(&rt, rt.alloc());
}
