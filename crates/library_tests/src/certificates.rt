//! Writes certificates, byte by byte.

use crate::certificate_parts::{LOWER_HALF, read_whole, reads_entry};
use crate::plans::map_of;
use entry_planner::{plan, plan_map};
use permission_map::PermissionMap;
use plan_certificate::{Reader, Tag, send_map, write, write_map};
use pmp_encoding::{Limit, Perm};
use prefix_tree::build;
use std::alloc::Global;
use std::process::Abort;
use text_lines::fakes::PieceSink;

/// Writes the certificate of a map through its tree.
pub fn by_tree(rt: &impl Abort, alloc: Global, map: &PermissionMap, limit: Limit) -> Vec<u8> {
    let tree = build(alloc, map).expect(rt, "memory");
    let plan = plan(alloc, &tree).expect(rt, "memory");
    write(alloc, &tree, &plan, limit).expect(rt, "memory")
}

/// Writes the certificate of a map without a tree.
pub fn by_map(rt: &impl Abort, alloc: Global, map: &PermissionMap, limit: Limit) -> Vec<u8> {
    let plan = plan_map(alloc, map).expect(rt, "memory");
    write_map(alloc, map, &plan, limit).expect(rt, "memory")
}

/// Returns the certificate of a map of one range, and asserts that it is the same through the tree and without it.
fn certificate(
    rt: &impl Abort,
    alloc: Global,
    first: u64,
    count: u64,
    perm: Perm,
    limit: Limit,
) -> Vec<u8> {
    let map = map_of(rt, alloc, &[(first, count, perm)]);
    let bytes = by_tree(rt, alloc, &map, limit);
    assert!(rt; bytes == by_map(rt, alloc, &map, limit));
    bytes
}

/// Asserts the bytes of that certificate.
fn has_bytes(rt: &impl Abort, alloc: Global, range: (u64, u64, Perm), limit: Limit, wanted: &[u8]) {
    let (first, count, perm) = range;
    let bytes = certificate(rt, alloc, first, count, perm, limit);
    assert!(rt; bytes.as_slice() == wanted);
}

#[test]
fn empty_map_has_eleven_bytes(rt: HostRuntime) {
    let none = (0, 0, Perm::Read);
    let wanted = b"PMPC\x01\x00\x00\x00\x00\x00\x00".as_slice();
    has_bytes(&rt, rt.alloc(), none, Limit::Sixteen, wanted);
}

#[test]
fn whole_space_has_twenty_bytes(rt: HostRuntime) {
    let whole = (0, 1 << 44, Perm::ReadWriteExecute);
    has_bytes(
        &rt,
        rt.alloc(),
        whole,
        Limit::Sixteen,
        b"PMPC\x01\x01\0\0\0\x1F\xFF\xFF\xFF\xFF\xFF\xFF\x1F\0\0\x07",
    );
    has_bytes(
        &rt,
        rt.alloc(),
        whole,
        Limit::SixtyFour,
        b"PMPC\x02\x40\x01\0\0\0\x1F\xFF\xFF\xFF\xFF\xFF\xFF\x1F\0\0\x07",
    );
}

#[test]
fn lower_half_has_forty_seven_bytes(rt: HostRuntime) {
    let half = (0, 1 << 43, Perm::ReadWriteExecute);
    has_bytes(&rt, rt.alloc(), half, Limit::Sixteen, &LOWER_HALF);
}

/// Asserts the length of a certificate, and that it is read to its end with that many entries.
fn is_read(rt: &impl Abort, bytes: &[u8], length: usize, count: u32) {
    assert!(rt; bytes.len() == length);
    let (header, left) = read_whole(bytes).expect(rt, "memory");
    assert!(rt; (header.count, left) == (count, 0));
}

#[test]
fn one_page_splits_forty_four_blocks(rt: HostRuntime) {
    let all = Perm::ReadWriteExecute;
    let bytes = certificate(&rt, rt.alloc(), 0x80000, 1, all, Limit::Sixteen);
    is_read(&rt, bytes.as_slice(), 1208, 1);
}

/// Asserts that the reader returns a split block with this cost if nothing is inherited.
fn reads_cost(rt: &impl Abort, reader: &mut Reader, wanted: u32) {
    assert!(rt; reader.tag().expect(rt, "memory") == Tag::Branch);
    let costs = reader.costs().expect(rt, "memory");
    assert!(rt; costs.cost(Perm::NoAccess) == wanted);
}

/// Asserts that a certificate begins with the two entries of seven pages and their costs.
fn begins_with_two_entries(rt: &impl Abort, bytes: &[u8]) {
    let mut reader = Reader::new(bytes);
    let header = reader.header().expect(rt, "memory");
    assert!(rt; header.count == 2);
    reads_entry(rt, &mut reader, 0x18, 0x2008_3DFF);
    reads_entry(rt, &mut reader, 0x1D, 0x2008_2FFF);
    reads_cost(rt, &mut reader, 2);
}

#[test]
fn seven_pages_take_two_entries(rt: HostRuntime) {
    let perm = Perm::ReadExecute;
    let bytes = certificate(&rt, rt.alloc(), 0x80208, 7, perm, Limit::Sixteen);
    is_read(&rt, bytes.as_slice(), 1217, 2);
    begins_with_two_entries(&rt, bytes.as_slice());
}

/// Asserts that a sink receives the whole certificate of a map, which is these bytes.
fn is_sent(rt: &impl Abort, alloc: Global, map: &PermissionMap, bytes: &[u8]) {
    let plan = plan_map(alloc, map).expect(rt, "memory");
    let mut sink = PieceSink::new(100, None);
    assert!(rt; send_map(map, &plan, Limit::SixtyFour, &mut sink).is_ok());
    assert!(rt; sink.written() == bytes);
}

/// Asserts that a sink has received `wanted` bytes of a map's certificate when its third write fails, which is
/// reported.
fn is_cut_off(rt: &impl Abort, alloc: Global, map: &PermissionMap, wanted: usize) {
    let plan = plan_map(alloc, map).expect(rt, "memory");
    let mut failing = PieceSink::new(100, Some(3));
    assert!(rt; send_map(map, &plan, Limit::SixtyFour, &mut failing).is_err());
    assert!(rt; failing.written().len() == wanted);
}

/// Asserts that the certificate sent for the map is the one built in memory.
fn sends_what_it_holds(rt: &impl Abort, alloc: Global, map: &PermissionMap) {
    let bytes = by_map(rt, alloc, map, Limit::SixtyFour);
    is_sent(rt, alloc, map, bytes.as_slice());
}

#[test]
fn a_certificate_that_is_sent_is_the_one_that_is_held(rt: HostRuntime) {
    let map = map_of(&rt, rt.alloc(), &[(0x80208, 7, Perm::ReadExecute)]);
    sends_what_it_holds(&rt, rt.alloc(), &map);
    is_cut_off(&rt, rt.alloc(), &map, 200);
}
