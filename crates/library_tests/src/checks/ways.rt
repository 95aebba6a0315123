//! Handwritten certificates of trees that are split down to one page.

use super::{SEVEN_PAGES, answers, code, map_of, range_answers};
use crate::certificates::by_map;
use certificate_check::CheckRefusal;
use permission_map::PermissionMap;
use pmp_encoding::{Limit, Perm};
use std::alloc::{AllocError, Global};
use std::process::Abort;

/// A tree that is split down to one page: blocks of fewer than `2^near` pages beside the path have one permission,
/// larger ones have none.
#[derive(Clone, Copy)]
struct Way {
    page: u64,
    perm: Perm,
    near: u32,
    near_perm: Perm,
}

impl Way {
    fn beside(self, log2: u32) -> Perm {
        if log2 < self.near {
            self.near_perm
        } else {
            Perm::NoAccess
        }
    }

    /// Returns the costs of the block of 2^log2 pages that contains the page.
    fn costs(self, log2: u32) -> [u32; 6] {
        if log2 == 0 {
            return leaf_costs(self.perm);
        }
        let half = log2 - 1;
        joined(self.costs(half), leaf_costs(self.beside(half)))
    }

    /// Writes the node of that block.
    fn write(self, out: &mut Vec<u8>, log2: u32) -> Result<(), AllocError> {
        if log2 == 0 || log2 > 44 {
            return write_leaf(out, self.perm);
        }
        out.push(1)?;
        for cost in self.costs(log2) {
            out.extend_from_slice(cost.to_le_bytes().as_slice())?;
        }
        let half = log2 - 1;
        if (self.page >> half) % 2 == 0 {
            self.write(out, half)?;
            write_leaf(out, self.beside(half))
        } else {
            write_leaf(out, self.beside(half))?;
            self.write(out, half)
        }
    }
}

fn write_leaf(out: &mut Vec<u8>, perm: Perm) -> Result<(), AllocError> {
    out.push(0)?;
    out.push(perm.bits())?;
    Ok(())
}

fn leaf_costs(perm: Perm) -> [u32; 6] {
    let mut costs = [1; 6];
    costs[perm as usize] = 0;
    costs
}

fn joined(lower: [u32; 6], upper: [u32; 6]) -> [u32; 6] {
    let mut sums = [0u32; 6];
    let mut least = u32::MAX;
    for i in 0..6 {
        sums[i] = lower[i].saturating_add(upper[i]);
        least = least.min(sums[i]);
    }
    let mut costs = [0u32; 6];
    for i in 0..6 {
        costs[i] = sums[i].min(least.saturating_add(1));
    }
    costs
}

/// Returns a certificate with these entries and the tree of a path.
fn certificate(alloc: Global, pairs: &[(u8, u64)], way: Way) -> Result<Vec<u8>, AllocError> {
    let mut out = Vec::new(alloc);
    out.extend_from_slice(b"PMPC\x01".as_slice())?;
    out.push((pairs.len() % 256) as u8)?;
    out.extend_from_slice(b"\x00\x00\x00".as_slice())?;
    for (cfg, address) in pairs {
        out.push(*cfg)?;
        out.extend_from_slice(address.to_le_bytes().as_slice())?;
    }
    way.write(&mut out, 44)?;
    Ok(out)
}

fn seven_pages_way() -> Way {
    Way {
        page: 0x8020F,
        perm: Perm::NoAccess,
        near: 3,
        near_perm: Perm::ReadExecute,
    }
}

const HOLE: (u8, u64) = (0x18, 0x2008_3DFF);

const EIGHT_PAGES: (u8, u64) = (0x1D, 0x2008_2FFF);

/// Returns the certificate of seven pages, with a cost of two at the root.
fn seven_pages(rt: &impl Abort, alloc: Global) -> Vec<u8> {
    let entries = [HOLE, EIGHT_PAGES];
    let bytes = certificate(alloc, entries.as_slice(), seven_pages_way()).expect(rt, "memory");
    assert!(rt; bytes.get(28) == Some(&2));
    bytes
}

/// Asserts that the certificate of seven pages with one byte changed is refused with this number.
fn is_refused_with(
    rt: &impl Abort,
    alloc: Global,
    map: &PermissionMap,
    place: usize,
    byte: u8,
    refusal: u8,
) {
    let mut changed = seven_pages(rt, alloc);
    if let Some(there) = changed.get_mut(place) {
        *there = byte;
    }
    assert!(rt;
        code(map, changed.as_slice()) == refusal,
        "{byte} at {place}"
    );
}

#[test]
fn one_page_needs_one_entry(rt: HostRuntime) {
    let way = Way {
        page: 0x80000,
        perm: Perm::ReadWriteExecute,
        near: 0,
        near_perm: Perm::NoAccess,
    };
    let entries = [(0x1F, 0x2000_01FF)];
    let bytes = certificate(rt.alloc(), entries.as_slice(), way).expect(&rt, "memory");
    assert!(rt; bytes.len() == 1208);
    let page = (0x80000, 1, Perm::ReadWriteExecute);
    range_answers(&rt, rt.alloc(), page, bytes.as_slice(), Ok(1));
}

/// Asserts that the certificate of seven pages is accepted, and that each proper prefix of it is truncated.
fn are_all_needed(rt: &impl Abort, map: &PermissionMap, bytes: &[u8]) {
    assert!(rt; bytes.len() == 1217);
    answers(rt, map, bytes, Ok(2));
    for n in 0..1217 {
        let front = bytes.get(..n).unwrap_or_default();
        answers(rt, map, front, Err(CheckRefusal::Truncated));
    }
}

/// Asserts that these bytes are the planner's certificate of the map.
fn is_the_planners(rt: &impl Abort, alloc: Global, map: &PermissionMap, bytes: &[u8]) {
    assert!(rt; by_map(rt, alloc, map, Limit::Sixteen).as_slice() == bytes);
}

#[test]
fn seven_pages_need_two_entries_and_all_their_bytes(rt: HostRuntime) {
    let map = map_of(&rt, rt.alloc(), SEVEN_PAGES);
    let bytes = seven_pages(&rt, rt.alloc());
    is_the_planners(&rt, rt.alloc(), &map, bytes.as_slice());
    are_all_needed(&rt, &map, bytes.as_slice());
}

/// The position of a byte, its new value, and the number of the refusal.
const REFUSALS: &[(usize, u8, u8)] = &[
    (1216, 7, 10),
    (1216, 2, 5),
    (1215, 2, 4),
    (1215, 1, 3),
    (9, 0x1A, 6),
    (9, 0x10, 7),
    (28, 1, 13),
];

/// Asserts that one more byte after the certificate of seven pages is trailing.
fn is_trailing(rt: &impl Abort, alloc: Global, map: &PermissionMap) {
    let mut longer = seven_pages(rt, alloc);
    longer.push(0).expect(rt, "memory");
    answers(rt, map, &longer, Err(CheckRefusal::Trailing));
}

/// Returns the certificate of seven pages with three entries, the last of them redundant, and with this cost at the
/// root.
fn with_three_entries(rt: &impl Abort, alloc: Global, cost: u8) -> Vec<u8> {
    let entries = [HOLE, EIGHT_PAGES, EIGHT_PAGES];
    let mut bytes = certificate(alloc, entries.as_slice(), seven_pages_way()).expect(rt, "memory");
    assert!(rt; bytes.get(37) == Some(&2));
    if let Some(there) = bytes.get_mut(37) {
        *there = cost;
    }
    bytes
}

/// Asserts how the check refuses three entries with this cost at the root.
fn three_are_refused(
    rt: &impl Abort,
    alloc: Global,
    map: &PermissionMap,
    cost: u8,
    refusal: CheckRefusal,
) {
    let bytes = with_three_entries(rt, alloc, cost);
    answers(rt, map, bytes.as_slice(), Err(refusal));
}

/// Asserts that the two entries in reverse order mean another map.
fn is_another_meaning(rt: &impl Abort, alloc: Global, map: &PermissionMap) {
    let entries = [EIGHT_PAGES, HOLE];
    let exchanged = certificate(alloc, entries.as_slice(), seven_pages_way()).expect(rt, "memory");
    answers(rt, map, &exchanged, Err(CheckRefusal::WrongMeaning));
}

#[test]
fn each_refusal_has_its_place_in_the_seven_pages(rt: HostRuntime) {
    let alloc = rt.alloc();
    let map = map_of(&rt, alloc, SEVEN_PAGES);
    for (place, byte, refusal) in REFUSALS {
        is_refused_with(&rt, alloc, &map, *place, *byte, *refusal);
    }
    is_trailing(&rt, alloc, &map);
    three_are_refused(&rt, alloc, &map, 2, CheckRefusal::EntriesTooMany);
    three_are_refused(&rt, alloc, &map, 3, CheckRefusal::CostTooHigh);
    is_another_meaning(&rt, alloc, &map);
}
