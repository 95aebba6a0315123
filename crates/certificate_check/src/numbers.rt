//! The numbers that the halves of a block allow for it.

ghost use Rattle.std.specs.Prelude.{◌≡◌, ◌+◌, ◌<◌, ◌≤◌, ◌^◌, ◌⊎◌, false, IsTrue, IfSome, IfNone, SomeIff};
ghost use Rattle.pmp_encoding.specs.declared.perm.Perm.{Perm};
ghost use Rattle.pmp_match.specs.Bounds.{Leaf, bound_of};
ghost use Rattle.certificate_format.specs.Costs.{cost_of};

use certificate_format::SixCosts;
use pmp_encoding::Perm;

/// The numbers of a uniform block, for each permission in the fixed order: 0 for its own, and 1 for every other.
static LEAVES: [SixCosts; 6] = [
    SixCosts {
        no_access: 0,
        read: 1,
        read_write: 1,
        execute: 1,
        read_execute: 1,
        read_write_execute: 1,
    },
    SixCosts {
        no_access: 1,
        read: 0,
        read_write: 1,
        execute: 1,
        read_execute: 1,
        read_write_execute: 1,
    },
    SixCosts {
        no_access: 1,
        read: 1,
        read_write: 0,
        execute: 1,
        read_execute: 1,
        read_write_execute: 1,
    },
    SixCosts {
        no_access: 1,
        read: 1,
        read_write: 1,
        execute: 0,
        read_execute: 1,
        read_write_execute: 1,
    },
    SixCosts {
        no_access: 1,
        read: 1,
        read_write: 1,
        execute: 1,
        read_execute: 0,
        read_write_execute: 1,
    },
    SixCosts {
        no_access: 1,
        read: 1,
        read_write: 1,
        execute: 1,
        read_execute: 1,
        read_write_execute: 0,
    },
];

/// Returns the numbers of a uniform block.
#[inline(always)]
pub(crate) fn costs_of_leaf(perm: Perm) -> SixCosts
    ensures { (p : Perm) → cost_of result p ≡ bound_of (Leaf perm) p }
{
    LEAVES[perm.index()]
}

/// Returns the sum of two numbers, if that sum plus one fits in four bytes.
fn sum(lower: u32, upper: u32) -> Option<u32>
    ensures { SomeIff result (lower + upper + 1 < 2 ^ 32) (lower + upper) }
{
    let sum = u64::from(lower) + u64::from(upper);
    if sum + 1 > u64::from(u32::MAX) {
        return None;
    }
    Some(sum as u32)
}

/// Returns the sums of the costs of two halves, if each sum plus one fits in four bytes.
pub(crate) fn sums_of(lower: &SixCosts, upper: &SixCosts) -> Option<SixCosts>
    ensures sums { IfSome result (λ sums.
        (p : Perm) → cost_of sums p ≡ cost_of lower.now p + cost_of upper.now p) }
    ensures small { IfSome result (λ sums. (p : Perm) → cost_of sums p + 1 < 2 ^ 32) }
    ensures large { IfNone result ((p : Perm)
        × (2 ^ 32 ≤ cost_of lower.now p + cost_of upper.now p + 1)) }
{
    let no_access = sum(lower.no_access, upper.no_access)?;
    let read = sum(lower.read, upper.read)?;
    let read_write = sum(lower.read_write, upper.read_write)?;
    let execute = sum(lower.execute, upper.execute)?;
    let read_execute = sum(lower.read_execute, upper.read_execute)?;
    let read_write_execute = sum(lower.read_write_execute, upper.read_write_execute)?;
    Some(SixCosts {
        no_access,
        read,
        read_write,
        execute,
        read_execute,
        read_write_execute,
    })
}

/// Returns the least of the six numbers.
fn least(costs: &SixCosts) -> u32
    ensures low { (p : Perm) → result ≤ cost_of costs.now p }
    ensures one { (p : Perm) × (result ≡ cost_of costs.now p) }
{
    let readable = costs.read.min(costs.read_write);
    let executable = costs.execute.min(costs.read_execute);
    let extremes = costs.no_access.min(costs.read_write_execute);
    let some = readable.min(executable);
    some.min(extremes)
}

/// Returns a permission whose number is greater than the other's, if there is one.
fn above(costs: &SixCosts, other: &SixCosts) -> Option<Perm>
    ensures some { IfSome result (λ p. cost_of other.now p < cost_of costs.now p) }
    ensures none { IfNone result ((p : Perm) → cost_of costs.now p ≤ cost_of other.now p) }
{
    if costs.no_access > other.no_access {
        return Some(Perm::NoAccess);
    }
    if costs.read > other.read {
        return Some(Perm::Read);
    }
    if costs.read_write > other.read_write {
        return Some(Perm::ReadWrite);
    }
    if costs.execute > other.execute {
        return Some(Perm::Execute);
    }
    if costs.read_execute > other.read_execute {
        return Some(Perm::ReadExecute);
    }
    if costs.read_write_execute > other.read_write_execute {
        return Some(Perm::ReadWriteExecute);
    }
    None
}

/// Returns whether some number is greater than the sum of the halves' numbers for the same permission, or greater than
/// one plus the least sum.
#[inline(always)]
pub(crate) fn are_too_high(costs: &SixCosts, sums: &SixCosts) -> bool
    requires { (p : Perm) → cost_of sums.now p + 1 < 2 ^ 32 }
    ensures high { IsTrue result
        → (p : Perm) × (q : Perm)
        × ((cost_of sums.now p < cost_of costs.now p)
        ⊎ (1 + cost_of sums.now q < cost_of costs.now p)) }
    ensures same { result ≡ false → (p : Perm) → cost_of costs.now p ≤ cost_of sums.now p }
    ensures any { result ≡ false → (p q : Perm)
        → cost_of costs.now p ≤ 1 + cost_of sums.now q }
{
    if above(costs, sums).is_some() {
        return true;
    }
    above(costs, &the_same(least(sums) + 1)).is_some()
}

/// Returns the same number for each permission.
fn the_same(number: u32) -> SixCosts
    ensures { (p : Perm) → cost_of result p ≡ number }
{
    SixCosts {
        no_access: number,
        read: number,
        read_write: number,
        execute: number,
        read_execute: number,
        read_write_execute: number,
    }
}
