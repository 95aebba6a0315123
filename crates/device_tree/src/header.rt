//! The header, and the blocks that it locates.

ghost use Rattle.std.specs.Prelude.{◌≡◌, ℕ, ◌+◌, ◌<◌, ◌≤◌, ◌^◌, ◌↔◌, IfErr, IfOk, IsTrue, MatchOption, OnErr, OnOk, drop, length};
ghost use Rattle.device_tree.specs.Words.{word_at};
ghost use Rattle.device_tree.specs.Trees.{AreBlocks, IsBlock, IsHeader, front_of, reservations_of, strings_of, structure_of};
ghost use Rattle.device_tree.specs.Refusals.{IsHeaderFault, field_of};

use crate::fault::{TreeFault, TreeReason};
use crate::words::after;
use byteorder::{BigEndian, ByteOrder};

/// The magic number: the first four bytes of a flattened device tree.
const MAGIC: usize = 0xd00d_feed;

/// The supported version of the format.
const VERSION: usize = 17;

/// Size of the header in bytes.
const HEADER: usize = 40;

/// Returns the four-byte number at an offset.
fn word_at(bytes: &[u8], place: usize) -> usize
    requires { place + 4 ≤ length bytes.now }
    ensures value { result ≡ word_at bytes.now place }
    ensures fits { result < 2 ^ 32 }
{
    BigEndian::read_u32(after(bytes, place)) as usize
}

/// Returns whether a block is inside the tree, after its header.
fn is_block(bytes: &[u8], place: usize, size: usize) -> bool
    requires place { place < 2 ^ 32 }
    requires size { size < 2 ^ 32 }
    ensures { IsTrue result ↔ IsBlock bytes.now place size }
{
    place >= HEADER && place + size <= bytes.len()
}

/// Returns the bytes up to the header's total size, or all of them if there are fewer, or `None` if they are too few
/// for a header.
pub(crate) fn front_of(bytes: &[u8]) -> Option<&[u8]>
    ensures { MatchOption result (length bytes.now < 40)
        (λ front. (front.now ≡ front_of bytes.now) × (40 ≤ length bytes.now)) }
{
    if bytes.len() < HEADER {
        return None;
    }
    let size = word_at(bytes, 4);
    if size > bytes.len() {
        return Some(bytes);
    }
    let (front, _) = bytes.split_at(size);
    Some(front)
}

/// Checks the blocks that the header locates.
fn check_blocks(bytes: &[u8]) -> Result<(), TreeFault>
    requires { 40 ≤ length bytes.now }
    ensures ok { OnOk result (AreBlocks bytes.now) }
    ensures refused { OnErr result (AreBlocks bytes.now → ⊥) }
    ensures reason { IfErr result (λ fault. IsHeaderFault bytes.now fault.reason) }
    ensures field { IfErr result (λ fault. fault.offset ≡ field_of fault.reason) }
{
    let structure = word_at(bytes, 8);
    if structure % 4 != 0 || !is_block(bytes, structure, word_at(bytes, 36)) {
        return Err(TreeFault {
            reason: TreeReason::BadStructureBlock,
            offset: 8,
        });
    }
    if !is_block(bytes, word_at(bytes, 12), word_at(bytes, 32)) {
        return Err(TreeFault {
            reason: TreeReason::BadStringsBlock,
            offset: 12,
        });
    }
    let reservations = word_at(bytes, 16);
    if reservations % 8 != 0 || !is_block(bytes, reservations, 0) {
        return Err(TreeFault {
            reason: TreeReason::BadReservationBlock,
            offset: 16,
        });
    }
    Ok(())
}

/// Checks that the bytes begin with the header of a supported tree.
pub(crate) fn check_header(bytes: &[u8]) -> Result<(), TreeFault>
    ensures ok { OnOk result (IsHeader bytes.now) }
    ensures refused { OnErr result (IsHeader bytes.now → ⊥) }
    ensures reason { IfErr result (λ fault. IsHeaderFault bytes.now fault.reason) }
    ensures field { IfErr result (λ fault. fault.offset ≡ field_of fault.reason) }
{
    let (reason, offset) = if bytes.len() < HEADER {
        (TreeReason::ShortHeader, 0)
    } else if word_at(bytes, 0) != MAGIC {
        (TreeReason::BadMagic, 0)
    } else if word_at(bytes, 4) != bytes.len() {
        (TreeReason::BadSize, 4)
    } else if word_at(bytes, 20) < VERSION {
        (TreeReason::OldVersion, 20)
    } else if word_at(bytes, 24) > VERSION {
        (TreeReason::NewVersion, 24)
    } else {
        return check_blocks(bytes);
    };
    Err(TreeFault { reason, offset })
}

/// Returns the structure block.
pub(crate) fn structure_of(bytes: &[u8]) -> &[u8]
    requires { IsHeader bytes.now }
    ensures { result.now ≡ structure_of bytes.now }
{
    let (block, _) = after(bytes, word_at(bytes, 8)).split_at(word_at(bytes, 36));
    block
}

/// Returns the offset of the structure block.
pub(crate) fn structure_offset(bytes: &[u8]) -> usize
    requires { IsHeader bytes.now }
    ensures { result ≡ word_at bytes.now 8 }
{
    word_at(bytes, 8)
}

/// Returns the strings block.
pub(crate) fn strings_of(bytes: &[u8]) -> &[u8]
    requires { IsHeader bytes.now }
    ensures { result.now ≡ strings_of bytes.now }
{
    let (block, _) = after(bytes, word_at(bytes, 12)).split_at(word_at(bytes, 32));
    block
}

/// Returns the bytes from the memory reservation block on.
pub(crate) fn reservations_of(bytes: &[u8]) -> &[u8]
    requires { IsHeader bytes.now }
    ensures { result.now ≡ reservations_of bytes.now }
{
    after(bytes, word_at(bytes, 16))
}
