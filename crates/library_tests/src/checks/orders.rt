//! Checks entries in orders other than the planner's, followed by the tree of the planner's certificate.

use crate::certificates::by_map;
use certificate_check::{CheckRefusal, check};
use permission_map::{MapFault, PermissionMap};
use plan_certificate::{ReadFault, Reader};
use pmp_encoding::{Limit, Perm};
use std::alloc::{AllocError, Global};
use std::process::Abort;

/// Returns the part of a certificate after its entries.
fn tree_in(certificate: &[u8]) -> Result<&[u8], ReadFault> {
    let mut reader = Reader::new(certificate);
    let header = reader.header()?;
    for _ in 0..header.count {
        reader.entry()?;
    }
    Ok(reader.rest())
}

/// Returns a certificate with that many entries and a tree.
fn certificate(
    alloc: Global,
    entries: &[u8],
    count: u32,
    tree: &[u8],
) -> Result<Vec<u8>, AllocError> {
    let mut bytes = Vec::new(alloc);
    bytes.extend_from_slice(b"PMPC\x01".as_slice())?;
    bytes.extend_from_slice(count.to_le_bytes().as_slice())?;
    bytes.extend_from_slice(entries)?;
    bytes.extend_from_slice(tree)?;
    Ok(bytes)
}

/// Asserts the result of checking that many entries and the map's tree.
fn answers(
    rt: &impl Abort,
    alloc: Global,
    map: &PermissionMap,
    entries: &[u8],
    count: u32,
    wanted: Result<u32, CheckRefusal>,
) {
    let planned = by_map(rt, alloc, map, Limit::Sixteen);
    let tree = tree_in(planned.as_slice()).expect(rt, "a certificate");
    let bytes = certificate(alloc, entries, count, tree).expect(rt, "memory");
    assert!(rt; check(map, &bytes) == wanted);
}

/// Returns the entries, of nine bytes each, in reverse order.
fn reversed(alloc: Global, entries: &[u8]) -> Result<Vec<u8>, AllocError> {
    let mut bytes = Vec::new(alloc);
    for entry in entries.chunks(9).rev() {
        bytes.extend_from_slice(entry)?;
    }
    Ok(bytes)
}

/// Returns the entries of every second page from 0x80000 on, fifty of them, by falling address.
fn falling_pages(alloc: Global) -> Result<Vec<u8>, AllocError> {
    let mut bytes = Vec::new(alloc);
    for i in 0..50u64 {
        let page = 0x80000 + 2 * (49 - i);
        bytes.push(0x1F)?;
        bytes.extend_from_slice((page * 1024 + 511).to_le_bytes().as_slice())?;
    }
    Ok(bytes)
}

const WRONG: Result<u32, CheckRefusal> = Err(CheckRefusal::WrongMeaning);

const TOO_MANY: Result<u32, CheckRefusal> = Err(CheckRefusal::EntriesTooMany);

/// Sets the permission of every second page from 0x80000 on, fifty of them.
fn set_pages(map: &mut PermissionMap, perm: Perm) -> Result<(), MapFault> {
    for i in 0..50 {
        map.set_range(0x80000 + 2 * i, 1, perm)?;
    }
    Ok(())
}

/// Asserts that fifty entries mean the map in either order, that one fewer does not, and that none do after the map
/// changes.
fn mean_in_any_order(
    rt: &impl Abort,
    alloc: Global,
    map: &mut PermissionMap,
    falling: &[u8],
    rising: &[u8],
) {
    assert!(rt; rising.len() == 450);
    let (fewer, _) = rising.split_at(441);
    answers(rt, alloc, map, falling, 50, Ok(50));
    answers(rt, alloc, map, rising, 50, Ok(50));
    answers(rt, alloc, map, fewer, 49, WRONG);
    map.set_range(0x80001, 1, Perm::Read).expect(rt, "memory");
    answers(rt, alloc, map, falling, 50, WRONG);
    answers(rt, alloc, map, rising, 50, WRONG);
}

/// Asserts that fifty entries mean their map by falling and by rising address.
fn mean_a_map(rt: &impl Abort, alloc: Global) {
    let mut map = PermissionMap::new(alloc);
    set_pages(&mut map, Perm::ReadWriteExecute).expect(rt, "memory");
    let falling = falling_pages(alloc).expect(rt, "memory");
    let rising = reversed(alloc, &falling).expect(rt, "memory");
    mean_in_any_order(rt, alloc, &mut map, &falling, &rising);
}

/// The read-only block of 256 pages from 0x80000 on.
const WIDE: [u8; 9] = [0x19, 0xFF, 0xFF, 0x01, 0x20, 0, 0, 0, 0];

/// Returns the map of that block, with this permission on every second of its first hundred pages.
fn wide_map(rt: &impl Abort, alloc: Global, perm: Perm) -> PermissionMap {
    let mut map = PermissionMap::new(alloc);
    map.set_range(0x80000, 256, Perm::Read).expect(rt, "memory");
    set_pages(&mut map, perm).expect(rt, "memory");
    map
}

/// Concatenates two byte strings.
fn joined(alloc: Global, one: &[u8], other: &[u8]) -> Result<Vec<u8>, AllocError> {
    let mut both = Vec::from_slice(alloc, one)?;
    both.extend_from_slice(other)?;
    Ok(both)
}

/// Makes the entries read-only.
fn with_read_alone(alloc: Global, entries: &[u8]) -> Result<Vec<u8>, AllocError> {
    let mut bytes = Vec::new(alloc);
    for entry in entries.chunks(9) {
        bytes.push(0x19)?;
        bytes.extend_from_slice(entry.get(1..).unwrap_or_default())?;
    }
    Ok(bytes)
}

/// Returns the falling pages followed by the block of 256 pages.
fn wide_last(rt: &impl Abort, alloc: Global) -> Vec<u8> {
    let falling = falling_pages(alloc).expect(rt, "memory");
    joined(alloc, &falling, WIDE.as_slice()).expect(rt, "memory")
}

/// Returns the block of 256 pages followed by the falling pages.
fn wide_first(rt: &impl Abort, alloc: Global) -> Vec<u8> {
    let falling = falling_pages(alloc).expect(rt, "memory");
    joined(alloc, WIDE.as_slice(), &falling).expect(rt, "memory")
}

/// Asserts the result of checking that many entries and the tree of the block with pages of this permission.
fn wide_answers(
    rt: &impl Abort,
    alloc: Global,
    perm: Perm,
    entries: &[u8],
    count: u32,
    wanted: Result<u32, CheckRefusal>,
) {
    let map = wide_map(rt, alloc, perm);
    answers(rt, alloc, &map, entries, count, wanted);
}

/// Asserts that the first of the falling pages and the block of 256 pages decides each page.
fn the_first_decides(rt: &impl Abort, alloc: Global) {
    let last = wide_last(rt, alloc);
    wide_answers(rt, alloc, Perm::ReadWriteExecute, &last, 51, Ok(51));
    wide_answers(rt, alloc, Perm::ReadExecute, &last, 51, WRONG);
    wide_answers(rt, alloc, Perm::Read, &last, 51, TOO_MANY);
    let first = wide_first(rt, alloc);
    wide_answers(rt, alloc, Perm::ReadWriteExecute, &first, 51, WRONG);
    wide_answers(rt, alloc, Perm::Read, &first, 51, TOO_MANY);
}

/// Returns the falling pages, the block of 256 pages, and the pages again, now read-only.
fn wide_last_and_again(rt: &impl Abort, alloc: Global) -> Vec<u8> {
    let falling = falling_pages(alloc).expect(rt, "memory");
    let again = with_read_alone(alloc, &falling).expect(rt, "memory");
    joined(alloc, &wide_last(rt, alloc), &again).expect(rt, "memory")
}

/// Asserts that duplicate entries are too many.
fn are_too_many(rt: &impl Abort, alloc: Global) {
    let twice = wide_last_and_again(rt, alloc);
    wide_answers(rt, alloc, Perm::ReadWriteExecute, &twice, 101, TOO_MANY);
}

#[test]
fn entries_in_any_order_mean_a_map(rt: HostRuntime) {
    mean_a_map(&rt, rt.alloc());
    the_first_decides(&rt, rt.alloc());
    are_too_many(&rt, rt.alloc());
}

/// Returns the map of 2,200 runs, each of the 0x55555555 pages on either side of the middle of 2^32. Each side needs a
/// block of 2^30 pages, one of 2^28 and so on down to one page: sixteen entries.
fn map_of_many_entries(alloc: Global) -> Result<PermissionMap, MapFault> {
    let mut map = PermissionMap::new(alloc);
    for i in 0..2200u64 {
        let first = i * 0x1_0000_0000 + 0x2AAA_AAAB;
        map.set_range(first, 0xAAAA_AAAA, Perm::ReadWriteExecute)?;
    }
    Ok(map)
}

/// Returns the planner's entries for that map, in reverse order.
fn many_reversed(rt: &impl Abort, alloc: Global, map: &PermissionMap) -> Vec<u8> {
    let planned = by_map(rt, alloc, map, Limit::Sixteen);
    let entries = planned.get(9..633609).expect(rt, "as many entries");
    reversed(alloc, entries).expect(rt, "memory")
}

/// Asserts that this many entries mean the map, that one fewer does not, and that none do after the map changes.
fn many_mean(rt: &impl Abort, alloc: Global, map: &mut PermissionMap, falling: &[u8]) {
    assert!(rt; falling.len() == 633600);
    answers(rt, alloc, map, falling, 70400, Ok(70400));
    let (fewer, _) = falling.split_at(633591);
    answers(rt, alloc, map, fewer, 70399, WRONG);
    map.set_range(1100 * 0x1_0000_0000 + 0x8000_0000, 1, Perm::Read)
        .expect(rt, "memory");
    answers(rt, alloc, map, falling, 70400, WRONG);
}

#[test]
fn more_entries_than_are_held_at_once_mean_a_map(rt: HostRuntime) {
    let alloc = rt.alloc();
    let mut map = map_of_many_entries(alloc).expect(&rt, "memory");
    let falling = many_reversed(&rt, alloc, &map);
    many_mean(&rt, alloc, &mut map, &falling);
}
