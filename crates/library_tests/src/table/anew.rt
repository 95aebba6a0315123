//! Compares the maintained tree of the host's view with one built from the view, call by call.

use super::*;
use entry_planner::plan;
use plan_certificate::write;
use prefix_tree::{Tree, build};

/// Returns the certificate of a tree and its plan.
fn certificate(rt: &impl Abort, alloc: Global, table: &Table, tree: &Tree) -> Vec<u8> {
    let plan = plan(alloc, tree).expect(rt, "memory");
    write(alloc, tree, &plan, table.limit()).expect(rt, "memory")
}

/// Returns the certificate of a tree built from the host's view.
fn certificate_anew(rt: &impl Abort, alloc: Global, table: &Table) -> Vec<u8> {
    let map = table.host_view().expect(rt, "memory");
    let tree = build(alloc, &map).expect(rt, "memory");
    certificate(rt, alloc, table, &tree)
}

/// Returns whether the maintained tree has the same certificate as one built from the host's view, and hence the same
/// plan.
fn is_as_built_anew(rt: &impl Abort, alloc: Global, table: &Table) -> bool {
    let anew = certificate_anew(rt, alloc, table);
    let kept = certificate(rt, alloc, table, table.host_tree());
    anew.as_slice() == kept.as_slice()
}

/// Destroys every second enclave from the id `first` on; each call leaves the tree as if rebuilt.
pub fn destroys_every_second(
    rt: &impl Abort,
    alloc: Global,
    table: &mut Table,
    first: u64,
    count: u64,
) {
    for k in 0..count.min(16) {
        let place = first.min(32) + 2 * k;
        destroys(rt, table, place, Ok(0x801FF + place));
        assert!(rt; is_as_built_anew(rt, alloc, table));
    }
}

/// Creates enclaves of one page each, side by side; each call leaves the tree as if rebuilt.
pub fn creates_side_by_side(rt: &impl Abort, alloc: Global, table: &mut Table, count: u64) {
    for i in 0..count.min(64) {
        creates(rt, table, page_at(0x8020_0000 + i * 0x1000), Ok(i + 1));
        assert!(rt; is_as_built_anew(rt, alloc, table));
    }
}

/// Returns the first word of an enclave's digest.
fn first_word(table: &Table, id: u64) -> Option<u64> {
    table.word(id, 0).ok()
}

/// Asserts that an enclave is not destroyed, for lack of entries, and keeps its digest.
pub fn keeps(rt: &impl Abort, table: &mut Table, id: u64) {
    let first = first_word(table, id);
    destroys(rt, table, id, Err(Refusal::NoEntries));
    assert!(rt; first_word(table, id) == first);
}

#[test]
fn destroying_every_second_page_is_refused_at_seventeen(rt: HostRuntime) {
    let steps = [
        Step::Uses(4),
        Step::DestroysEverySecond(1, 12),
        Step::Uses(16),
        Step::Keeps(25),
        Step::Uses(16),
        Step::Owns(0x80218, Owner::Private(25)),
    ];
    takes_on(&rt, rt.alloc(), 16, 32, 0x1000, steps.as_slice());
}

#[test]
fn all_of_every_second_page_fit_sixty_four_entries(rt: HostRuntime) {
    let steps = [
        Step::Uses(4),
        Step::DestroysEverySecond(1, 13),
        Step::Uses(17),
        Step::DestroysEverySecond(27, 3),
        Step::Uses(19),
    ];
    takes_on(&rt, rt.alloc(), 64, 32, 0x1000, steps.as_slice());
}

#[test]
fn each_of_thirty_two_creations_leaves_the_tree_as_if_built_anew(rt: HostRuntime) {
    let steps = [Step::CreatesSideBySide(32), Step::Uses(4)];
    takes_on(&rt, rt.alloc(), 16, 0, 0, steps.as_slice());
}
