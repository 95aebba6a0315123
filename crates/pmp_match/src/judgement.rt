//! Decides accesses by the entries of a bank.

ghost use Rattle.std.specs.Prelude.{◌≡◌, ◌+◌, ◌^◌, ◌<◌, ◌&&◌, ◌||◌, ◌%◌, ◌==◌, not, bit_and, List};
ghost use Rattle.pmp_encoding.specs.declared.perm.Perm.{Perm};
ghost use Rattle.pmp_encoding.specs.Perms.{bits_of};
ghost use Rattle.pmp_encoding.specs.declared.region.Entry.{Entry};
ghost use Rattle.pmp_encoding.specs.Banks.{HasList};
ghost use Rattle.pmp_match.specs.Kinds.{holds};
ghost use Rattle.pmp_match.specs.Decision.{allows, is_machine};
ghost use Rattle.pmp_match.specs.Matching.{touches, grants, lets_through};
ghost use Rattle.pmp_match.specs.Judgement.{Judges, judgement, access_fault, misaligned};

use crate::access::{Access, Kind, Mode};
use crate::cause::Cause;
use pmp_encoding::{Bank, Extent, Perm, SPACE_SIZE};

/// Returns the permission bit that a kind of access requires.
#[inline(always)]
#[tactic(auto, using(crate::proofs::Rights::wants_execute, crate::proofs::Rights::wants_read, crate::proofs::Rights::wants_write))]
fn right(kind: Kind) -> u8
    ensures { (perm : Perm) → not (bit_and (bits_of perm) result == 0) ≡ holds perm kind }
{
    match kind {
        Kind::Fetch => 4,
        Kind::Load => 1,
        Kind::Store => 2,
    }
}

/// Returns whether the permission allows the kind, without branches: they would be mispredicted too often.
#[inline(always)]
pub fn holds(perm: Perm, kind: Kind) -> bool
    ensures { result ≡ holds perm kind }
{
    perm.bits() & right(kind) != 0
}

/// Returns whether the mode is machine mode.
#[inline(always)]
pub fn is_machine(mode: Mode) -> bool
    ensures { result ≡ is_machine mode }
{
    mode == Mode::Machine
}

/// Returns whether the extent contains a byte of the access. Both comparisons are always made, because a branch between
/// them would be mispredicted too often.
pub fn touches(extent: &Extent, access: &Access) -> bool
    requires { access.now.address < 2 ^ 56 }
    ensures { result ≡ touches extent.now access.now }
{
    (extent.base < access.address + u64::from(access.size)) & (access.address < extent.end)
}

/// Returns whether the extent allows the access, given that it is the first with a byte of it.
fn grants(extent: &Extent, access: &Access) -> bool
    requires { access.now.address < 2 ^ 56 }
    ensures { result ≡ grants extent.now access.now }
{
    let end = access.address + u64::from(access.size);
    extent.base <= access.address
        && end <= extent.end
        && (is_machine(access.mode) || holds(extent.perm, access.kind))
}

/// Skips extents at the front that contain no byte of the access, four at a time.
fn behind_misses<'a>(extents: &'a [Extent], access: &Access) -> &'a [Extent]
    requires { access.now.address < 2 ^ 56 }
    ensures { lets_through result.now access.now ≡ lets_through extents.now access.now }
{
    let mut rest = extents;
    while let [a, b, c, d, more @ ..] = rest {
        let front = touches(a, access) | touches(b, access);
        let back = touches(c, access) | touches(d, access);
        if front | back {
            return rest;
        }
        rest = more;
    }
    rest
}

/// Returns whether the first extent with a byte of the access allows it. If no extent has one, only machine mode is
/// allowed.
#[inline(always)]
fn lets_through(extents: &[Extent], access: &Access) -> bool
    requires { access.now.address < 2 ^ 56 }
    ensures { result ≡ lets_through extents.now access.now }
{
    let left = behind_misses(extents, access);
    for extent in left {
        if touches(extent, access) {
            return grants(extent, access);
        }
    }
    is_machine(access.mode)
}

/// Returns whether the bank's list allows the access.
#[inline(always)]
fn is_allowed(bank: &Bank, access: &Access) -> bool
    requires { access.now.address < 2 ^ 56 }
    ensures { (entries : List Entry) → HasList bank.now entries
        → result ≡ allows entries access.now }
{
    lets_through(bank.extents(), access)
}

/// Returns whether the address is a multiple of the size, which is a power of two.
#[inline(always)]
pub fn is_aligned(access: &Access) -> bool
    ensures { result ≡ (access.now.address % access.now.size == 0) }
{
    access.address & (u64::from(access.size) - 1) == 0
}

/// Returns the cause of a misaligned access.
pub fn misaligned(kind: Kind) -> Cause
    ensures { result ≡ misaligned kind }
{
    match kind {
        Kind::Fetch => Cause::FetchMisaligned,
        Kind::Load => Cause::LoadMisaligned,
        Kind::Store => Cause::StoreMisaligned,
    }
}

/// Returns the cause of a denied access.
#[inline(always)]
pub fn access_fault(kind: Kind) -> Cause
    ensures { result ≡ access_fault kind }
{
    match kind {
        Kind::Fetch => Cause::FetchFault,
        Kind::Load => Cause::LoadFault,
        Kind::Store => Cause::StoreFault,
    }
}

#[inline(always)]
fn judged(bank: &Bank, access: &Access) -> Result<(), Cause>
    ensures { (entries : List Entry) → HasList bank.now entries
        → result ≡ judgement entries access.now }
{
    if !is_aligned(access) {
        return Err(misaligned(access.kind));
    }
    if access.address >= SPACE_SIZE || !is_allowed(bank, access) {
        return Err(access_fault(access.kind));
    }
    Ok(())
}

/// Judges the access by the entries that the bank's registers mean, and by nothing else. Does not allocate. (RISC-V
/// Privileged Architecture, Physical Memory Protection, priority and matching logic. This project reports a misaligned
/// access first, and then one outside the space.)
#[inline(always)]
pub fn judge(bank: &Bank, access: &Access) -> Result<(), Cause>
    ensures by_its_list { (entries : List Entry) × HasList bank.now entries
        × Judges entries access.now result }
    ensures by_no_other { (entries : List Entry) → HasList bank.now entries
        → Judges entries access.now result }
{
    judged(bank, access)
}
