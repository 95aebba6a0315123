//! Reads certificates part by part.

use certificate_format::{Header, ReadFault, Reader, Tag, Version};
use pmp_encoding::{Limit, Perm};
use std::process::Abort;

/// A certificate of the lower half of the space with all permissions, in one entry.
pub const LOWER_HALF: [u8; 47] = [
    0x50, 0x4D, 0x50, 0x43, 1, 1, 0, 0, 0, // header
    0x1F, 0xFF, 0xFF, 0xFF, 0xFF, 0xFF, 0xFF, 0x0F, 0, // entry
    1, 1, 0, 0, 0, 2, 0, 0, 0, 2, 0, 0, 0, 2, 0, 0, 0, 2, 0, 0, 0, 1, 0, 0, 0, // branch
    0, 7, 0, 0, // leaves
];

/// Returns the header, and the number of bytes left after the root.
pub fn read_whole(bytes: &[u8]) -> Result<(Header, usize), ReadFault> {
    let mut reader = Reader::new(bytes);
    let header = reader.header()?;
    for _ in 0..header.count {
        reader.entry()?;
    }
    let mut open = 1usize;
    while open > 0 {
        let tag = reader.tag()?;
        if tag == Tag::Leaf {
            reader.perm()?;
            open -= 1;
        } else {
            reader.costs()?;
            open = open.saturating_add(1);
        }
    }
    Ok((header, reader.rest().len()))
}

fn fault_of(bytes: &[u8]) -> Option<ReadFault> {
    match read_whole(bytes) {
        Ok(_) => None,
        Err(fault) => Some(fault),
    }
}

/// Asserts that the reader returns a header of the first version with that many entries.
fn reads_header(rt: &impl Abort, reader: &mut Reader, count: u32) {
    let header = reader.header().expect(rt, "a header");
    assert!(rt; header.version == Version::One);
    assert!(rt; (header.version.limit(), header.count) == (Limit::Sixteen, count));
}

/// Asserts that the reader returns an entry that encodes as this pair.
pub fn reads_entry(rt: &impl Abort, reader: &mut Reader, cfg: u8, address: u64) {
    let entry = reader.entry().expect(rt, "an entry");
    assert!(rt; (entry.cfg(), entry.address()) == (cfg, address));
}

/// Asserts that the reader returns a split block with these costs, for all permissions in their order.
fn reads_costs(rt: &impl Abort, reader: &mut Reader, wanted: [u32; 6]) {
    assert!(rt; reader.tag() == Ok(Tag::Branch));
    let costs = reader.costs().expect(rt, "costs");
    let all = [
        costs.cost(Perm::NoAccess),
        costs.cost(Perm::Read),
        costs.cost(Perm::ReadWrite),
        costs.cost(Perm::Execute),
        costs.cost(Perm::ReadExecute),
        costs.cost(Perm::ReadWriteExecute),
    ];
    assert!(rt; all == wanted);
}

/// Asserts that the reader returns a leaf with this permission.
fn reads_leaf(rt: &impl Abort, reader: &mut Reader, wanted: Perm) {
    assert!(rt; reader.tag() == Ok(Tag::Leaf));
    assert!(rt; reader.perm() == Ok(wanted));
}

#[test]
fn lower_half_reads_part_by_part(rt: HostRuntime) {
    let mut reader = Reader::new(LOWER_HALF.as_slice());
    reads_header(&rt, &mut reader, 1);
    reads_entry(&rt, &mut reader, 0x1F, 0x000F_FFFF_FFFF_FFFF);
    reads_costs(&rt, &mut reader, [1, 2, 2, 2, 2, 1]);
    reads_leaf(&rt, &mut reader, Perm::ReadWriteExecute);
    reads_leaf(&rt, &mut reader, Perm::NoAccess);
    assert!(rt; reader.rest().len() == 0);
}

/// Asserts the fault of the bytes, if any.
fn come_to(rt: &impl Abort, bytes: &[u8], wanted: Option<ReadFault>) {
    assert!(rt; fault_of(bytes) == wanted, "{} bytes", bytes.len());
}

#[test]
fn each_cut_of_the_lower_half_is_truncated(rt: HostRuntime) {
    for n in 0..47 {
        come_to(&rt, &LOWER_HALF[..n], Some(ReadFault::Truncated));
    }
    come_to(&rt, &LOWER_HALF, None);
}

/// Asserts the fault of the lower half with one byte changed, for each row.
fn are_told(rt: &impl Abort, rows: &[(usize, u8, ReadFault)]) {
    for (place, byte, fault) in rows {
        let mut bytes = LOWER_HALF;
        if let Some(there) = bytes.get_mut(*place) {
            *there = *byte;
        }
        let found = fault_of(bytes.as_slice());
        assert!(rt; found == Some(*fault), "{byte} at {place}");
    }
}

#[test]
fn each_fault_is_told(rt: HostRuntime) {
    are_told(
        &rt,
        &[
            (0, 1, ReadFault::BadMagic),
            (3, 0, ReadFault::BadMagic),
            (4, 0, ReadFault::BadVersion),
            (4, 3, ReadFault::BadVersion),
            (4, 2, ReadFault::BadLimit),
            (5, 0, ReadFault::BadTag),
            (18, 2, ReadFault::BadTag),
            (43, 0xFF, ReadFault::BadTag),
            (44, 2, ReadFault::BadPerm),
            (46, 8, ReadFault::BadPerm),
            (5, 5, ReadFault::Truncated),
        ],
    );
    let numbers = [
        ReadFault::BadMagic as u8,
        ReadFault::BadVersion as u8,
        ReadFault::Truncated as u8,
        ReadFault::BadTag as u8,
        ReadFault::BadPerm as u8,
        ReadFault::BadLimit as u8,
    ];
    assert!(rt; numbers == [1, 2, 3, 4, 5, 16]);
}

/// Returns the second form of the whole space, with this limit byte.
fn second_form(limit: u8) -> [u8; 21] {
    [
        0x50, 0x4D, 0x50, 0x43, 2, limit, 1, 0, 0, 0, 0x1F, 0xFF, 0xFF, 0xFF, 0xFF, 0xFF, 0xFF,
        0x1F, 0, 0, 7,
    ]
}

/// Asserts the limit of the second form with this byte, and that it is read to its end with its entry.
fn has_limit(rt: &impl Abort, byte: u8, limit: Limit) {
    let bytes = second_form(byte);
    let (header, left) = read_whole(bytes.as_slice()).expect(rt, "a certificate");
    assert!(rt; header.version == Version::Two(limit), "{byte:#x}");
    let read = (header.version.limit(), header.count, left);
    assert!(rt; read == (limit, 1, 0), "{byte:#x}");
}

#[test]
fn second_form_names_its_limit(rt: HostRuntime) {
    has_limit(&rt, 0x40, Limit::SixtyFour);
    has_limit(&rt, 0x10, Limit::Sixteen);
    come_to(&rt, &second_form(0x20), Some(ReadFault::BadLimit));
    come_to(&rt, &second_form(0x40)[..5], Some(ReadFault::Truncated));
}

#[test]
fn a_refusal_leaves_the_cursor_where_it_was(rt: HostRuntime) {
    let mut reader = Reader::new(b"PMPC\x01\x00".as_slice());
    assert!(rt; reader.header() == Err(ReadFault::Truncated));
    assert!(rt; reader.rest().len() == 6);
    assert!(rt; reader.tag() == Err(ReadFault::BadTag));
    assert!(rt; reader.perm() == Err(ReadFault::BadPerm));
    assert!(rt; reader.entry().is_err());
    assert!(rt; reader.costs().is_err());
    assert!(rt; reader.rest().len() == 6);
}
