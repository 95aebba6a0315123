//! The addresses that each entry matches.

ghost use Rattle.std.specs.Prelude.{◌≡◌, ◌/◌, ◌^◌, ◌<◌, IfErr, IfNone, IfOk, IfSome};
ghost use Rattle.pmp_encoding.specs.Extents.{extent_of};
ghost use Rattle.pmp_match.specs.RegisterMatching.{AreExtents, IsExtentAt, bottom_of, kept, within};
ghost use Rattle.pmp_match.specs.Registers.{address_at, cfg_at, user_cfg_at};
ghost use Rattle.pmp_match.specs.Reserved.{IsDefined, IsFirstReserved, IsNamedReserved};
ghost use Rattle.pmp_match.specs.Tor.{nowhere, tor_extent};

use crate::registers::Registers;
use crate::reserved::{Reserved, ReservedAt};
use crate::smepmp::{Security, user_cfg};
use pmp_encoding::{Entry, Extent, Perm, Xlen, decode};

/// Returns the empty extent.
fn no_extent() -> Extent
    ensures { result ≡ nowhere }
{
    Extent {
        base: 0,
        end: 0,
        perm: Perm::NoAccess,
    }
}

/// Returns the extent that an NA4 or NAPOT entry matches.
pub fn extent_of(entry: &Entry) -> Extent
    ensures { result ≡ extent_of entry.now }
{
    Extent {
        base: entry.region.base,
        end: entry.region.base + (1 << entry.region.log2),
        perm: entry.perm,
    }
}

/// Returns the bits of an address register that a hart keeps.
fn kept(xlen: Xlen, address: u64) -> u64
    ensures value { result ≡ kept xlen address }
    ensures small { result < 2 ^ 54 }
{
    match xlen {
        Xlen::Rv32 => address % (1 << 32),
        Xlen::Rv64 => address % (1 << 54),
    }
}

/// Cuts an extent to the hart's physical address space.
fn within(xlen: Xlen, extent: &Extent) -> Extent
    ensures { result ≡ within xlen extent.now }
{
    Extent {
        base: extent.base,
        end: extent.end.min(xlen.space_end()),
        perm: extent.perm,
    }
}

/// Returns the bottom of a TOR entry.
fn bottom_of(registers: &Registers, place: usize) -> u64
    requires { place < 64 }
    ensures value { result ≡ bottom_of registers.now place }
    ensures small { result < 2 ^ 54 }
{
    if place == 0 {
        return 0;
    }
    kept(registers.xlen, registers.addresses[place - 1])
}

/// Returns the extent of a TOR entry with these bounds.
fn tor_extent(bottom: u64, top: u64, perm: Perm) -> Extent
    requires bottom { bottom < 2 ^ 54 }
    requires top { top < 2 ^ 54 }
    ensures { result ≡ tor_extent bottom top perm }
{
    if bottom < top {
        Extent {
            base: 4 * bottom,
            end: 4 * top,
            perm,
        }
    } else {
        no_extent()
    }
}

/// Returns the reserved value of a configuration byte, if it has one.
fn reserved_of(security: Security, cfg: u8) -> Option<Reserved>
    ensures some { IfSome result (IsNamedReserved security cfg) }
    ensures none { IfNone result (IsDefined security cfg) }
{
    if !security.lockdown && cfg % 4 == 2 {
        Some(Reserved::Permission)
    } else if cfg / 32 % 4 != 0 {
        Some(Reserved::Bits)
    } else {
        None
    }
}

/// Returns the extent of the TOR entry at a position.
fn extent_of_range(registers: &Registers, place: usize, cfg: u8, top: u64) -> Extent
    requires place { place < 64 }
    requires cfg { cfg ≡ user_cfg_at registers.now place }
    requires top { top ≡ kept registers.now.xlen (address_at registers.now place) }
    requires tor { cfg / 8 ≡ 1 }
    requires defined { IsDefined registers.now.security (cfg_at registers.now place) }
    ensures { IsExtentAt registers.now place result }
{
    let bottom = bottom_of(registers, place);
    match Perm::from_bits(cfg % 8) {
        Some(perm) => tor_extent(bottom, top, perm),
        None => unreachable!(),
    }
}

/// Returns the extent of the entry at a position, which has no reserved value.
fn extent_at(registers: &Registers, place: usize) -> Extent
    requires place { place < 64 }
    requires defined { IsDefined registers.now.security (cfg_at registers.now place) }
    ensures { IsExtentAt registers.now place result }
{
    let cfg = user_cfg(registers.security, registers.cfgs[place]);
    let top = kept(registers.xlen, registers.addresses[place]);
    if cfg / 8 == 1 {
        return extent_of_range(registers, place, cfg, top);
    }
    match decode(cfg, top) {
        Ok(Some(entry)) => within(registers.xlen, &extent_of(&entry)),
        Ok(None) => no_extent(),
        Err(_) => unreachable!(),
    }
}

/// Returns the extent of each entry in order, or the first entry that has a reserved value.
pub fn extents_of(registers: &Registers) -> Result<[Extent; 64], ReservedAt>
    ensures extents { IfOk result (AreExtents registers.now) }
    ensures reserved { IfErr result (IsFirstReserved registers.now) }
{
    let mut extents = [no_extent(); 64];
    for place in 0..64 {
        if let Some(value) = reserved_of(registers.security, registers.cfgs[place]) {
            return Err(ReservedAt { place, value });
        }
        extents[place] = extent_at(registers, place);
    }
    Ok(extents)
}
