//! The results of checking certificates.

mod orders;
mod sources;
mod ways;

use certificate_check::{CheckRefusal, check};
use permission_map::PermissionMap;
use pmp_encoding::Perm;
use std::alloc::Global;
use std::process::Abort;
use std::test::Fail;

/// A certificate of the whole space with all permissions, in one entry.
const WHOLE: [u8; 20] = [
    0x50, 0x4D, 0x50, 0x43, 1, 1, 0, 0, 0, // header
    0x1F, 0xFF, 0xFF, 0xFF, 0xFF, 0xFF, 0xFF, 0x1F, 0, // entry
    0, 7, // leaf
];

/// A certificate of the lower half of the space with all permissions, in one entry.
const LOWER_HALF: [u8; 47] = [
    0x50, 0x4D, 0x50, 0x43, 1, 1, 0, 0, 0, // header
    0x1F, 0xFF, 0xFF, 0xFF, 0xFF, 0xFF, 0xFF, 0x0F, 0, // entry
    1, 1, 0, 0, 0, 2, 0, 0, 0, 2, 0, 0, 0, 2, 0, 0, 0, 2, 0, 0, 0, 1, 0, 0, 0, // branch
    0, 7, 0, 0, // leaves
];

/// A range of a map: the first page, the number of pages, the permission.
type Range = (u64, u64, Perm);

const EMPTY: Range = (0, 0, Perm::Read);

const WHOLE_SPACE: Range = (0, 1 << 44, Perm::ReadWriteExecute);

const LOWER_HALF_SPACE: Range = (0, 1 << 43, Perm::ReadWriteExecute);

/// Seven pages, the first of eight.
const SEVEN_PAGES: Range = (0x80208, 7, Perm::ReadExecute);

/// Returns the map with one range.
fn map_of(rt: &impl Abort, alloc: Global, range: Range) -> PermissionMap {
    let (first, count, perm) = range;
    let mut map = PermissionMap::new(alloc);
    map.set_range(first, count, perm).expect(rt, "memory");
    map
}

/// Asserts the result of checking these bytes against the map.
fn answers(rt: &impl Abort, map: &PermissionMap, bytes: &[u8], wanted: Result<u32, CheckRefusal>) {
    assert!(rt; check(map, bytes) == wanted);
}

/// Asserts the result of checking these bytes against the map with one range.
fn range_answers(
    rt: &impl Abort,
    alloc: Global,
    range: Range,
    bytes: &[u8],
    wanted: Result<u32, CheckRefusal>,
) {
    let map = map_of(rt, alloc, range);
    answers(rt, &map, bytes, wanted);
}

/// Returns the number of the refusal, or 0 if the certificate is accepted.
fn code(map: &PermissionMap, bytes: &[u8]) -> u8 {
    match check(map, bytes) {
        Ok(_) => 0,
        Err(refusal) => refusal as u8,
    }
}

/// Asserts that the lower half's certificate with one byte changed is refused with this number.
fn is_refused_with(rt: &impl Abort, alloc: Global, place: usize, byte: u8, refusal: u8) {
    let mut bytes = LOWER_HALF;
    if let Some(there) = bytes.get_mut(place) {
        *there = byte;
    }
    let map = map_of(rt, alloc, LOWER_HALF_SPACE);
    assert!(rt;
        code(&map, bytes.as_slice()) == refusal,
        "{byte} at {place}"
    );
}

#[test]
fn empty_map_needs_no_entry(rt: HostRuntime) {
    let bytes = [0x50, 0x4D, 0x50, 0x43, 1, 0, 0, 0, 0, 0, 0];
    range_answers(&rt, rt.alloc(), EMPTY, &bytes, Ok(0));
}

#[test]
fn whole_space_needs_one_entry(rt: HostRuntime) {
    range_answers(&rt, rt.alloc(), WHOLE_SPACE, &WHOLE, Ok(1));
    let mut one_more_one = WHOLE;
    one_more_one[16] = 0x3F;
    range_answers(&rt, rt.alloc(), WHOLE_SPACE, &one_more_one, Ok(1));
    let wrong_leaf = Err(CheckRefusal::WrongLeaf);
    range_answers(&rt, rt.alloc(), EMPTY, &WHOLE, wrong_leaf);
    let not_uniform = Err(CheckRefusal::LeafNotUniform);
    range_answers(&rt, rt.alloc(), LOWER_HALF_SPACE, &WHOLE, not_uniform);
}

#[test]
fn needless_split_is_accepted(rt: HostRuntime) {
    let bytes = [
        0x50, 0x4D, 0x50, 0x43, 1, 1, 0, 0, 0, // header
        0x1F, 0xFF, 0xFF, 0xFF, 0xFF, 0xFF, 0xFF, 0x1F, 0, // entry
        1, 1, 0, 0, 0, 1, 0, 0, 0, 1, 0, 0, 0, 1, 0, 0, 0, 1, 0, 0, 0, 0, 0, 0, 0, // branch
        0, 7, 0, 7, // leaves
    ];
    range_answers(&rt, rt.alloc(), WHOLE_SPACE, &bytes, Ok(1));
}

#[test]
fn second_version_names_its_limit(rt: HostRuntime) {
    let mut bytes = [
        0x50, 0x4D, 0x50, 0x43, 2, 0x40, 1, 0, 0, 0, // header
        0x1F, 0xFF, 0xFF, 0xFF, 0xFF, 0xFF, 0xFF, 0x1F, 0, // entry
        0, 7, // leaf
    ];
    range_answers(&rt, rt.alloc(), WHOLE_SPACE, &bytes, Ok(1));
    bytes[5] = 0x10;
    range_answers(&rt, rt.alloc(), WHOLE_SPACE, &bytes, Ok(1));
    bytes[5] = 0x20;
    let bad_limit = Err(CheckRefusal::BadLimit);
    range_answers(&rt, rt.alloc(), WHOLE_SPACE, &bytes, bad_limit);
}

#[test]
fn lower_half_needs_one_entry_and_all_its_bytes(rt: HostRuntime) {
    range_answers(&rt, rt.alloc(), LOWER_HALF_SPACE, &LOWER_HALF, Ok(1));
    let truncated = Err(CheckRefusal::Truncated);
    for n in 0..47 {
        range_answers(
            &rt,
            rt.alloc(),
            LOWER_HALF_SPACE,
            &LOWER_HALF[..n],
            truncated,
        );
    }
}

#[test]
fn each_refusal_has_its_place_in_the_lower_half(rt: HostRuntime) {
    let cases = [
        (0, 0, 1),
        (4, 3, 2),
        (5, 0, 4),
        (5, 2, 6),
        (10, 0, 7),
        (16, 0x1F, 14),
        (18, 0, 9),
        (19, 0, 13),
    ];
    for (place, byte, refusal) in cases {
        is_refused_with(&rt, rt.alloc(), place, byte, refusal);
    }
    let mut bytes = LOWER_HALF;
    for place in 19..23 {
        bytes[place] = 0xFF;
    }
    let too_high = Err(CheckRefusal::CostTooHigh);
    range_answers(&rt, rt.alloc(), LOWER_HALF_SPACE, &bytes, too_high);
}

/// Returns whether the byte lowers a bound for a permission other than none; such a bound is sound, and the root's
/// number for none is unchanged.
fn is_lesser_bound(place: usize, byte: u8) -> bool {
    match place {
        23 | 27 | 31 | 35 => byte < 2,
        39 => byte == 0,
        _ => false,
    }
}

/// Returns whether the lower half's certificate with one byte changed is accepted, and asserts that it is iff the byte
/// lowers such a bound.
fn is_right(rt: &impl Abort, map: &PermissionMap, place: usize, byte: u8) -> bool {
    let mut bytes = LOWER_HALF;
    if let Some(there) = bytes.get_mut(place) {
        *there = byte;
    }
    let answer = check(map, bytes.as_slice());
    if is_lesser_bound(place, byte) {
        assert!(rt; answer == Ok(1), "{byte} at {place}");
        true
    } else {
        assert!(rt; answer.is_err(), "{byte} at {place}");
        false
    }
}

/// Returns how many changes of one byte are accepted, and how many are refused.
fn changes_of_one_byte(rt: &impl Abort, map: &PermissionMap) -> (u32, u32) {
    let mut accepted = 0u32;
    let mut refused = 0u32;
    for place in 0..47 {
        for byte in 0..=255 {
            if byte == LOWER_HALF[place] {
                continue;
            }
            if is_right(rt, map, place, byte) {
                accepted = accepted.saturating_add(1);
            } else {
                refused = refused.saturating_add(1);
            }
        }
    }
    (accepted, refused)
}

#[test]
fn of_all_changes_of_one_byte_nine_are_right(rt: HostRuntime) {
    let map = map_of(&rt, rt.alloc(), LOWER_HALF_SPACE);
    assert!(rt; changes_of_one_byte(&rt, &map) == (9, 11976));
    let mut second_version = LOWER_HALF;
    second_version[4] = 2;
    answers(&rt, &map, &second_version, Err(CheckRefusal::BadLimit));
}

/// Returns a certificate without entries that splits 44 blocks around the first page and ends there.
fn split_down_to_a_page(alloc: Global) -> Result<Vec<u8>, Fail> {
    let mut bytes = Vec::new(alloc);
    bytes.extend_from_slice(b"PMPC\x01\x00\x00\x00\x00".as_slice())?;
    for _ in 0..44 {
        bytes.push(1)?;
        bytes.extend_from_slice([0; 24].as_slice())?;
    }
    Ok(bytes)
}

#[test]
fn a_page_that_is_split_is_too_deep(rt: HostRuntime) -> Result<(), Fail> {
    let alloc = rt.alloc();
    let mut bytes = split_down_to_a_page(alloc)?;
    assert!(rt; bytes.len() == 1109);
    for range in [EMPTY, WHOLE_SPACE, SEVEN_PAGES] {
        range_answers(&rt, alloc, range, &bytes, Err(CheckRefusal::Truncated));
    }
    bytes.push(1)?;
    for range in [EMPTY, WHOLE_SPACE, SEVEN_PAGES] {
        range_answers(&rt, alloc, range, &bytes, Err(CheckRefusal::TooDeep));
    }
    Ok(())
}
