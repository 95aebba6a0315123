//! Decides accesses by registers.

ghost use Rattle.std.specs.Prelude.{◌≡◌, ◌^◌, ◌<◌, ◌↔◌, IsTrue};
ghost use Rattle.pmp_match.specs.RegisterDecision.{ContainsAll};
ghost use Rattle.pmp_match.specs.RegisterMatching.{AreExtents};
ghost use Rattle.register_audit.specs.Deciders.{by_entry};
ghost use Rattle.register_audit.specs.Decision.{LetsThrough, RegistersAllow, default_perm, perm_in};

use crate::extents::{contains, meets};
use pmp_encoding::Perm;
use pmp_match::{Access, Decider, Extent, Mode, Registers, holds, machine_default, machine_perm};

/// Returns the permission that the entry at an index, which matches these addresses, grants a mode.
pub(crate) fn perm_in(registers: &Registers, mode: Mode, place: usize, extent: &Extent) -> Perm
    requires { place < 64 }
    ensures { result ≡ perm_in registers.now mode place extent.now }
{
    match mode {
        Mode::Machine => machine_perm(registers.security, registers.cfgs[place]),
        Mode::Supervisor | Mode::User => extent.perm,
    }
}

/// Returns the permission of a mode if no entry contains a byte of an access.
pub(crate) fn default_perm(registers: &Registers, mode: Mode) -> Perm
    ensures { result ≡ default_perm registers.now mode }
{
    match mode {
        Mode::Machine => machine_default(registers.security),
        Mode::Supervisor | Mode::User => Perm::NoAccess,
    }
}

/// Returns whether the entry at an index, which matches these addresses, permits the access.
fn lets_through(registers: &Registers, place: usize, extent: &Extent, access: &Access) -> bool
    requires { place < 64 }
    ensures { IsTrue result ↔ LetsThrough registers.now access.now place extent.now }
{
    holds(perm_in(registers, access.mode, place, extent), access.kind)
}

/// Returns whether the entry at an index grants the access, if it decides the access.
fn grants(registers: &Registers, place: usize, extent: &Extent, access: &Access) -> bool
    requires place { place < 64 }
    requires inside { access.now.address < 2 ^ 56 }
    ensures { IsTrue result ↔ (ContainsAll extent.now access.now
        × LetsThrough registers.now access.now place extent.now) }
{
    contains(extent, access) && lets_through(registers, place, extent, access)
}

/// Returns whether registers, whose entries match these addresses, allow the access.
pub(crate) fn allow(registers: &Registers, extents: &[Extent; 64], access: &Access) -> bool
    requires extents { AreExtents registers.now extents.now }
    requires inside { access.now.address < 2 ^ 56 }
    ensures { IsTrue result ↔ RegistersAllow registers.now access.now }
{
    for place in 0..64 {
        let extent = &extents[place];
        if meets(extent, access) {
            return grants(registers, place, extent, access);
        }
    }
    holds(default_perm(registers, access.mode), access.kind)
}

/// Returns the first entry by number that contains a byte of the access, if there is one.
pub(crate) fn first_met(
    registers: &Registers,
    extents: &[Extent; 64],
    access: &Access,
) -> Option<Decider>
    requires extents { AreExtents registers.now extents.now }
    requires inside { access.now.address < 2 ^ 56 }
    ensures { by_entry registers.now access.now result }
{
    for number in 0..64 {
        let extent = extents[number];
        if meets(&extent, access) {
            return Some(Decider { number, extent });
        }
    }
    None
}
