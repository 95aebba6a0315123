//! DMA-capable devices that a platform's devices contain.

ghost use Rattle.std.specs.Prelude.{◌≡◌, ◌++◌, IfOk, OnOk};
ghost use Rattle.input_files.specs.Masters.{held_by, held_masters, holds, is_open, masters};

use crate::masters::{Master, masters};
use pmp_encoding::Perm;
use std::alloc::{AllocError, Global};

/// A DMA-capable device that a platform's device contains.
#[derive(Clone, Copy)]
pub struct HeldMaster {
    /// The number of the platform's device, counted from 1.
    pub device: u64,
    /// The DMA-capable device.
    pub master: Master,
}

/// Returns whether a permission allows anything.
fn is_open(perm: Perm) -> bool
    ensures { result ≡ is_open perm }
{
    match perm {
        Perm::NoAccess => false,
        _ => true,
    }
}

/// Whether a device opens a byte of a master.
pub(crate) fn holds(device: (u64, u64, Perm), master: Master) -> bool
    ensures { result ≡ holds device master }
{
    let (base, size, perm) = device;
    is_open(perm) && base <= master.last && (master.first < base || master.first - base < size)
}

/// Appends the DMA-capable devices that a platform's device contains.
fn push_held(
    held: &mut Vec<HeldMaster>,
    number: u64,
    device: (u64, u64, Perm),
) -> Result<(), AllocError>
    ensures { OnOk result (held.new.items
        ≡ held.old.items ++ held_by number device masters) }
{
    for master in masters() {
        if holds(device, *master) {
            held.push(HeldMaster {
                device: number,
                master: *master,
            })?;
        }
    }
    Ok(())
}

/// Returns the DMA-capable devices that a platform's devices contain.
pub(crate) fn held_masters(
    alloc: Global,
    devices: &[(u64, u64, Perm)],
) -> Result<Vec<HeldMaster>, AllocError>
    ensures { IfOk result (λ held. held.items ≡ held_masters devices.now) }
{
    let mut held = Vec::new(alloc);
    for (i, device) in devices.iter().enumerate() {
        push_held(&mut held, i as u64 + 1, *device)?;
    }
    Ok(held)
}
