//! Certificates that a source returns piece by piece.

use crate::checks::{LOWER_HALF, LOWER_HALF_SPACE, map_of};
use certificate_check::check_source;
use permission_map::PermissionMap;
use std::alloc::Global;
use std::process::Abort;
use text_lines::SourceFault;
use text_lines::fakes::PieceSource;

/// The default limit on the bytes of a source.
const MOST: u32 = 1 << 26;

/// Returns the result of checking such a source: the number of entries, or 100 plus the number of the refusal, or 200,
/// 201 and 202 if there is no verdict.
fn code(alloc: Global, map: &PermissionMap, source: &mut PieceSource, most: u32) -> u32 {
    match check_source(alloc, map, source, most) {
        Ok(Ok(header)) => header.count,
        Ok(Err(refusal)) => 100 + u32::from(refusal.number()),
        Err(SourceFault::TooLarge) => 200,
        Err(SourceFault::Read) => 201,
        Err(SourceFault::Memory) => 202,
    }
}

/// Asserts the result for the lower half's certificate with one byte changed, in pieces of this length.
fn comes_to(rt: &impl Abort, alloc: Global, piece: usize, place: usize, byte: u8, wanted: u32) {
    let map = map_of(rt, alloc, LOWER_HALF_SPACE);
    let mut bytes = LOWER_HALF;
    if let Some(there) = bytes.get_mut(place) {
        *there = byte;
    }
    let mut source = PieceSource::new(bytes.as_slice(), piece, None);
    let found = code(alloc, &map, &mut source, MOST);
    assert!(rt; found == wanted, "{byte} at {place} in pieces of {piece}");
    assert!(rt; source.rest().is_empty(), "not read to the end");
}

#[test]
fn pieces_have_any_length(rt: HostRuntime) {
    for piece in [1, 2, 8, 9, 10, 17, 18, 24, 25, 43, 46, 47, 100] {
        comes_to(&rt, rt.alloc(), piece, 0, 0x50, 1);
        comes_to(&rt, rt.alloc(), piece, 0, 0, 101);
        comes_to(&rt, rt.alloc(), piece, 5, 2, 106);
        comes_to(&rt, rt.alloc(), piece, 9, 0x80, 106);
        comes_to(&rt, rt.alloc(), piece, 44, 6, 105);
        comes_to(&rt, rt.alloc(), piece, 46, 1, 110);
    }
}

/// Asserts the result for the lower half's certificate, read byte by byte, if the read `failing` fails.
fn ends_with(rt: &impl Abort, alloc: Global, failing: Option<u64>, most: u32, wanted: u32) {
    let map = map_of(rt, alloc, LOWER_HALF_SPACE);
    let mut source = PieceSource::new(LOWER_HALF.as_slice(), 1, failing);
    let found = code(alloc, &map, &mut source, most);
    assert!(rt; found == wanted, "{found}");
}

#[test]
fn no_verdict_on_bytes_that_did_not_all_come(rt: HostRuntime) {
    ends_with(&rt, rt.alloc(), Some(1), MOST, 201);
    ends_with(&rt, rt.alloc(), Some(12), MOST, 201);
    ends_with(&rt, rt.alloc(), Some(47), MOST, 201);
    ends_with(&rt, rt.alloc(), Some(48), MOST, 201);
    ends_with(&rt, rt.alloc(), Some(49), MOST, 1);
    ends_with(&rt, rt.alloc(), None, 47, 1);
    ends_with(&rt, rt.alloc(), None, 46, 200);
    ends_with(&rt, rt.alloc(), None, 5, 200);
    ends_with(&rt, rt.alloc(), None, 0, 200);
}
