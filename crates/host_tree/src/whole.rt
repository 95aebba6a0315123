//! The whole tree: its header and its blocks.

ghost use Rattle.std.specs.Prelude.{◌≡◌, ◌≤◌, ◌+◌, ◌*◌, ◌<◌, ◌^◌, IfErr, IfOk, OnOk, List, length};
ghost use Rattle.device_tree.specs.Nodes.{Tree, parts_of_tree};
ghost use Rattle.device_tree.specs.Trees.{SpellsTree};
ghost use Rattle.device_tree.specs.Words.{word_at};
ghost use Rattle.host_tree.specs.Refusals.{IsFinishFault};
ghost use Rattle.host_tree.specs.Written.{HasFree, HasWritten, whole_size};

use crate::bytes::{put_bytes, put_word, put_zeros};
use crate::header::{HEADER, Header, put_header};
use crate::names::word_of;
use crate::reservations::put_reservations;
use crate::write_fault::WriteFault;
use crate::writer::TreeWriter;
use device_tree::Reservation;
use std::alloc::Global;

/// The parts of a tree other than its nodes: reservations, the number of the boot hart, and the number of free bytes
/// after the strings block, into which the recipient may extend the tree.
#[derive(Clone, Copy)]
pub struct Ends<'a> {
    pub reservations: &'a [Reservation],
    pub boot_hart: u32,
    pub free: u32,
}

/// The size of `count` reservations and their terminating pair.
fn reserved_size(count: usize) -> Result<usize, WriteFault>
    ensures size { IfOk result (λ size. size ≡ 16 * (count + 1)) }
    ensures few { OnOk result (count < 2 ^ 32) }
    ensures refused { IfErr result
        (λ fault. (fault ≡ WriteFault.TooLarge) × (2 ^ 32 ≤ count)) }
{
    if count > u32::MAX as usize {
        return Err(WriteFault::TooLarge);
    }
    Ok(16 * (count + 1))
}

/// Returns the header of a tree with blocks of these sizes.
fn header_of(
    reservations: usize,
    block: usize,
    names: usize,
    ends: &Ends<'_>,
) -> Result<Header, WriteFault>
    ensures block { IfOk result (λ header. header.block ≡ 40 + 16 * (reservations + 1)) }
    ensures block_size { IfOk result (λ header. header.block_size ≡ block + 4) }
    ensures names { IfOk result (λ header. header.names ≡ header.block + header.block_size) }
    ensures names_size { IfOk result (λ header. header.names_size ≡ names) }
    ensures size { IfOk result (λ header. header.size
        ≡ header.names + header.names_size + ends.now.free) }
    ensures boot_hart { IfOk result (λ header. header.boot_hart ≡ ends.now.boot_hart) }
    ensures fits { IfOk result (λ header. header.size < 2 ^ 32) }
    ensures refused { IfErr result (λ fault. (fault ≡ WriteFault.TooLarge) × (2 ^ 32
        ≤ 40 + 16 * (reservations + 1) + (block + 4) + names + ends.now.free)) }
{
    let block_at = HEADER + reserved_size(reservations)?;
    let block = word_of(block)? as usize;
    let names = word_of(names)? as usize;
    let names_at = block_at + block + 4;
    let size = word_of(names_at + names + ends.free as usize)?;
    Ok(Header {
        size,
        block: block_at as u32,
        block_size: (block + 4) as u32,
        names: names_at as u32,
        names_size: names as u32,
        boot_hart: ends.boot_hart,
    })
}

impl TreeWriter {
    /// Returns the bytes of the tree that was written, in version 17 of the format.
    pub fn finish(&self, alloc: Global, ends: &Ends<'_>) -> Result<Vec<u8>, WriteFault>
        ensures spelt { IfOk result (λ bytes. (tree : Tree)
            → HasWritten self.now (parts_of_tree tree)
            → SpellsTree bytes.items tree ends.now.reservations.now) }
        ensures boot_hart { IfOk result (λ bytes. word_at bytes.items 28 ≡ ends.now.boot_hart) }
        ensures size { IfOk result (λ bytes. length bytes.items
            ≡ whole_size self.now (length ends.now.reservations.now) ends.now.free) }
        ensures free { IfOk result (λ bytes. HasFree bytes.items ends.now.free) }
        ensures refused { IfErr result
            (IsFinishFault self.now ends.now.reservations.now ends.now.free) }
    {
        let header = header_of(
            ends.reservations.len(),
            self.block.as_slice().len(),
            self.names.as_slice().len(),
            ends,
        )?;
        let Ok(mut out) = Vec::with_capacity(alloc, header.size as usize) else {
            return Err(WriteFault::Memory);
        };
        put_header(&mut out, &header)?;
        put_reservations(&mut out, ends.reservations)?;
        put_bytes(&mut out, self.block.as_slice())?;
        put_word(&mut out, 9)?;
        put_bytes(&mut out, self.names.as_slice())?;
        put_zeros(&mut out, ends.free as usize)?;
        Ok(out)
    }
}
