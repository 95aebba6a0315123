//! The warnings about a platform file: DMA-capable devices that its devices contain.

use crate::breach::TomlPath;
use crate::held_masters::{HeldMaster, held_masters};
use crate::key_places::header_of;
use crate::masters::Master;
use crate::platform_words::push_table;
use crate::positions::push_found;
use pmp_encoding::Perm;
use std::alloc::{AllocError, Global};
use text_lines::{push, push_address};

/// Appends what a board has in which pages.
pub(crate) fn push_master(text: &mut Vec<u8>, master: Master) -> Result<(), AllocError> {
    push(text, "on ")?;
    push(text, master.board.name())?;
    push(text, " it has ")?;
    push(text, master.kind.name())?;
    push(text, ", ")?;
    push_address(text, master.first)?;
    push(text, " to ")?;
    push_address(text, master.last)
}

/// Appends the warning about a DMA-capable device that a device of this file contains.
fn push_warning(
    said: &mut Vec<u8>,
    name: &str,
    text: &str,
    held: HeldMaster,
) -> Result<(), AllocError> {
    let device = TomlPath::Device(held.device);
    push(said, name)?;
    push_found(said, text, header_of(text, device))?;
    push(said, "warning: ")?;
    push_table(said, device)?;
    push_master(said, held.master)?;
    push(
        said,
        ", which reads and writes any memory by itself; leave these pages out\n",
    )
}

/// Returns a warning for each DMA-capable device that the devices of a platform contain.
pub(crate) fn warnings(
    alloc: Global,
    name: &str,
    text: &str,
    devices: &[(u64, u64, Perm)],
) -> Result<Vec<u8>, AllocError> {
    let found = held_masters(alloc, devices)?;
    let mut said = Vec::new(alloc);
    for held in found.as_slice() {
        push_warning(&mut said, name, text, *held)?;
    }
    Ok(said)
}
