//! The permissions that the entries of registers grant a mode.

ghost use Rattle.std.specs.Prelude.{◌≡◌, IfOk};
ghost use Rattle.pmp_match.specs.RegisterMatching.{AreExtents};
ghost use Rattle.register_audit.specs.Modes.{entries_from, everywhere, given_by, with_perm};

use crate::decision::{default_perm, perm_in};
use permission_map::Memory;
use pmp_encoding::{Perm, Xlen};
use pmp_match::{Extent, Mode, Registers};
use std::alloc::Global;

/// Returns the addresses of an extent with another permission.
fn with_perm(extent: &Extent, perm: Perm) -> Extent
    ensures { result ≡ with_perm extent.now perm }
{
    Extent {
        base: extent.base,
        end: extent.end,
        perm,
    }
}

/// Returns the whole space of a hart of this width with one permission.
fn everywhere(xlen: Xlen, perm: Perm) -> Extent
    ensures { result ≡ everywhere xlen perm }
{
    Extent {
        base: 0,
        end: xlen.space_end(),
        perm,
    }
}

/// Returns the permissions that entries, which match these addresses, grant a mode. The only error is a failed
/// allocation.
pub(crate) fn entries_given(
    alloc: Global,
    mode: Mode,
    registers: &Registers,
    extents: &[Extent; 64],
) -> Result<Vec<Extent>, Memory>
    ensures { IfOk result (λ given.
        given.items ≡ entries_from registers.now mode 0 extents.now) }
{
    let mut given = Vec::new(alloc);
    for (place, extent) in extents.iter().enumerate() {
        given.push(with_perm(extent, perm_in(registers, mode, place, extent)))?;
    }
    Ok(given)
}

/// Returns the same, followed by the mode's permission for the space that no entry matches.
pub(crate) fn given_by(
    alloc: Global,
    mode: Mode,
    registers: &Registers,
    extents: &[Extent; 64],
) -> Result<Vec<Extent>, Memory>
    ensures { IfOk result (λ given. given.items ≡ given_by registers.now mode extents.now) }
{
    let mut given = entries_given(alloc, mode, registers, extents)?;
    given.push(everywhere(registers.xlen, default_perm(registers, mode)))?;
    Ok(given)
}
