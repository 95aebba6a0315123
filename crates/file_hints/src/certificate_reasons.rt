//! Messages for refused certificates.

ghost use Rattle.std.specs.Prelude.{◌≤◌};

use crate::kinds::FileKind;
use crate::recognized::likely_kind;
use certificate_check::{CheckRefusal, check};
use certificate_format::{Reader, Tag};
use map_text::letters;
use permission_map::PermissionMap;
use pmp_encoding::{Entry, Perm, decode, pages_of};
use std::alloc::{AllocError, Global};
use text_lines::{push, push_address, push_number};

/// Number of pages in the address space.
const SPACE: u64 = 1 << 44;

/// Maximum number of entries whose permissions are compared with the map.
const MOST: usize = 1024;

/// The place of a fault in the tree of a certificate.
#[derive(Clone, Copy)]
struct Fault {
    /// The first page of the block.
    first: u64,
    /// The number of pages, as a power of two.
    log2: u32,
    /// The permission of the leaf, if the fault is that the map has another.
    perm: Option<Perm>,
}

/// Returns the first page of a block on which the map has another permission.
fn differs_at(map: &PermissionMap, first: u64, end: u64, perm: Perm) -> Option<u64> {
    let run = map.next_run(first);
    if perm == Perm::NoAccess {
        return match run {
            Some(run) if run.first < end => Some(run.first.max(first)),
            _ => None,
        };
    }
    match run {
        Some(run) if run.first <= first && run.perm == perm => {
            let behind = run.first.saturating_add(run.count);
            if behind < end { Some(behind) } else { None }
        }
        _ => Some(first),
    }
}

/// Returns the first fault of a node for the block of 2^log2 pages from `first` on, except those of its costs.
fn fault_in(reader: &mut Reader<'_>, map: &PermissionMap, log2: u32, first: u64) -> Option<Fault>
    requires { log2 ≤ 44 }
{
    let here = Fault {
        first,
        log2,
        perm: None,
    };
    let Ok(tag) = reader.tag() else {
        return Some(here);
    };
    match tag {
        Tag::Leaf => {
            let Ok(perm) = reader.perm() else {
                return Some(here);
            };
            match differs_at(map, first, first.saturating_add(pages_of(log2)), perm) {
                Some(_) => Some(Fault {
                    first,
                    log2,
                    perm: Some(perm),
                }),
                None => None,
            }
        }
        Tag::Branch => {
            if log2 == 0 || reader.costs().is_err() {
                return Some(here);
            }
            let half = log2 - 1;
            if let Some(fault) = fault_in(reader, map, half, first) {
                return Some(fault);
            }
            fault_in(reader, map, half, first.saturating_add(pages_of(half)))
        }
    }
}

/// Skips the header and the entries of a certificate. Fails if they are invalid.
fn after_entries<'a>(bytes: &'a [u8]) -> Option<Reader<'a>> {
    let mut reader = Reader::new(bytes);
    let Ok(header) = reader.header() else {
        return None;
    };
    for _ in 0..header.count {
        if reader.entry().is_err() {
            return None;
        }
    }
    Some(reader)
}

/// Returns the number of the first invalid entry of a certificate, from 0.
fn invalid_entry(bytes: &[u8]) -> Option<u32> {
    let mut reader = Reader::new(bytes);
    let Ok(header) = reader.header() else {
        return None;
    };
    for i in 0..header.count {
        let Ok(pair) = reader.entry() else {
            return None;
        };
        match decode(pair.cfg(), pair.address()) {
            Ok(Some(entry)) if entry.region.log2() >= 12 => {}
            _ => return Some(i),
        }
    }
    None
}

/// Returns the entries of a certificate, if there are few.
fn entries_in(alloc: Global, bytes: &[u8]) -> Result<Vec<Entry>, AllocError> {
    let mut entries = Vec::new(alloc);
    let mut reader = Reader::new(bytes);
    let Ok(header) = reader.header() else {
        return Ok(entries);
    };
    for _ in 0..header.count {
        if entries.len() >= MOST {
            return Ok(entries);
        }
        let Ok(pair) = reader.entry() else {
            return Ok(entries);
        };
        if let Ok(Some(entry)) = decode(pair.cfg(), pair.address()) {
            entries.push(entry)?;
        }
    }
    Ok(entries)
}

/// Returns the first byte of an entry and its size.
fn span_of(entry: &Entry) -> (u64, u64) {
    (entry.region.base(), 1u64 << entry.region.log2().min(56))
}

/// Returns the permission of an address by the first entry that contains it.
fn perm_by(entries: &[Entry], address: u64) -> Perm {
    for entry in entries {
        let (base, size) = span_of(entry);
        if base <= address && address - base < size {
            return entry.perm;
        }
    }
    Perm::NoAccess
}

/// Returns the permission of the page of an address by a map.
fn perm_of(map: &PermissionMap, address: u64) -> Perm {
    let page = address >> 12;
    if page < SPACE {
        map.get(page)
    } else {
        Perm::NoAccess
    }
}

/// The first known address at which entries and a map differ.
#[derive(Clone, Copy)]
struct Difference {
    /// The address.
    address: u64,
    /// The permission by the entries.
    listed: Perm,
    /// The permission by the map.
    wanted: Perm,
}

/// Returns the lower of a known difference and one at an address, if there is one.
fn lower(
    map: &PermissionMap,
    entries: &[Entry],
    known: Option<Difference>,
    address: u64,
) -> Option<Difference> {
    if let Some(known) = known {
        if known.address <= address {
            return Some(known);
        }
    }
    let (listed, wanted) = (perm_by(entries, address), perm_of(map, address));
    if listed == wanted || address >> 12 >= SPACE {
        return known;
    }
    Some(Difference {
        address,
        listed,
        wanted,
    })
}

/// Returns the first address at which the entries of a certificate and a map differ. Permissions change only where an
/// entry or a run begins or ends.
fn first_difference(map: &PermissionMap, entries: &[Entry]) -> Option<Difference> {
    let mut found = lower(map, entries, None, 0);
    for entry in entries {
        let (base, size) = span_of(entry);
        found = lower(map, entries, found, base);
        found = lower(map, entries, found, base.saturating_add(size));
    }
    for run in map.ranges() {
        found = lower(map, entries, found, run.first.saturating_mul(4096));
        let behind = run.first.saturating_add(run.count);
        found = lower(map, entries, found, behind.saturating_mul(4096));
    }
    found
}

/// Appends the first and the last address of the pages of a block.
fn push_block(text: &mut Vec<u8>, fault: &Fault) -> Result<(), AllocError> {
    let first = fault.first.saturating_mul(4096);
    let size = 4096u64 << fault.log2.min(44);
    push(text, "the block ")?;
    push_address(text, first)?;
    push(text, " to ")?;
    push_address(text, first.saturating_add(size.saturating_sub(1)))
}

/// Appends the permission of a leaf, and the first page of its block at which the map has another.
fn push_leaf(
    text: &mut Vec<u8>,
    map: &PermissionMap,
    fault: &Fault,
    perm: Perm,
) -> Result<(), AllocError> {
    let end = fault.first.saturating_add(1u64 << fault.log2.min(44));
    let page = differs_at(map, fault.first, end, perm).unwrap_or(fault.first);
    push(text, " is ")?;
    push(text, letters(perm))?;
    push(text, " in the certificate; in the map the page at ")?;
    push_address(text, page.saturating_mul(4096))?;
    push(text, " is ")?;
    push(text, letters(perm_of(map, page.saturating_mul(4096))))
}

/// Returns the message for a fault in the tree.
fn push_tree(
    text: &mut Vec<u8>,
    map: &PermissionMap,
    bytes: &[u8],
    said: &str,
) -> Result<(), AllocError> {
    let found = match after_entries(bytes) {
        Some(reader) => {
            let mut reader = reader;
            fault_in(&mut reader, map, 44, 0)
        }
        None => None,
    };
    let Some(fault) = found else {
        return push(text, said);
    };
    push_block(text, &fault)?;
    if let Some(perm) = fault.perm {
        return push_leaf(text, map, &fault, perm);
    }
    push(text, ": ")?;
    push(text, said)
}

/// Appends the number of the first invalid entry.
fn push_entry(text: &mut Vec<u8>, bytes: &[u8], said: &str) -> Result<(), AllocError> {
    push(text, "entry ")?;
    push_number(text, u64::from(invalid_entry(bytes).unwrap_or(0)))?;
    push(text, said)
}

/// Appends the first address at which the entries and the map differ, if it is known.
fn push_meaning(
    alloc: Global,
    text: &mut Vec<u8>,
    map: &PermissionMap,
    bytes: &[u8],
) -> Result<(), AllocError> {
    let entries = entries_in(alloc, bytes)?;
    push(text, "the entries do not mean the map")?;
    if entries.len() >= MOST {
        return Ok(());
    }
    let Some(found) = first_difference(map, entries.as_slice()) else {
        return Ok(());
    };
    push(text, ": the page at ")?;
    push_address(text, found.address)?;
    push(text, " is ")?;
    push(text, letters(found.listed))?;
    push(text, " by the entries, and ")?;
    push(text, letters(found.wanted))?;
    push(text, " in the map")
}

/// Returns the message for bytes that do not begin as a certificate does.
fn magic_text(bytes: &[u8]) -> &'static str {
    match likely_kind(bytes) {
        Some(kind) if kind != FileKind::Certificate => kind.text(),
        _ => "a certificate begins with PMPC",
    }
}

/// Returns the message for the reason why bytes are not a right certificate of a map, with the block or page and both
/// permissions if they differ. Returns `None` if the certificate is right.
pub fn refusal_reason(
    alloc: Global,
    map: &PermissionMap,
    bytes: &[u8],
) -> Result<Option<Vec<u8>>, AllocError> {
    let Err(refusal) = check(map, bytes) else {
        return Ok(None);
    };
    let mut text = Vec::new(alloc);
    match refusal {
        CheckRefusal::BadMagic => push(&mut text, magic_text(bytes))?,
        CheckRefusal::BadVersion => push(&mut text, "the version, byte 5, is neither 1 nor 2")?,
        CheckRefusal::BadLimit => push(&mut text, "the limit, byte 6, is neither 16 nor 64")?,
        CheckRefusal::Truncated => push_tree(&mut text, map, bytes, "the file ends here")?,
        CheckRefusal::BadTag => push_tree(&mut text, map, bytes, "its tag is neither 0 nor 1")?,
        CheckRefusal::BadPerm => push_tree(&mut text, map, bytes, "it has no permission")?,
        CheckRefusal::TooDeep => push_tree(&mut text, map, bytes, "a page is split")?,
        CheckRefusal::LeafNotUniform | CheckRefusal::WrongLeaf => {
            push_tree(&mut text, map, bytes, "the map has another permission")?
        }
        CheckRefusal::BadEntry => push_entry(&mut text, bytes, " is no NA4 or NAPOT entry")?,
        CheckRefusal::SubPageEntry => push_entry(&mut text, bytes, " is smaller than a page")?,
        CheckRefusal::CostTooHigh | CheckRefusal::CostOverflow => {
            push(
                &mut text,
                "a lower bound of a block is higher than its halves allow",
            )?
        }
        CheckRefusal::EntriesTooMany => {
            push(&mut text, "it lists more entries than its lower bound")?
        }
        CheckRefusal::WrongMeaning => push_meaning(alloc, &mut text, map, bytes)?,
        CheckRefusal::Trailing => push(&mut text, "bytes follow the tree")?,
    }
    Ok(Some(text))
}
