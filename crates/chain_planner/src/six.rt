//! A value for each permission.

ghost use Rattle.std.specs.Prelude.{◌≡◌, min};
ghost use Rattle.chain_planner.specs.Sixes.{at};
ghost use Rattle.entry_planner.specs.Costs.{least_of};

use pmp_encoding::Perm;

/// A value for each permission, in the fixed order.
#[derive(Clone, Copy)]
pub struct Six<T> {
    pub none: T,
    pub read: T,
    pub read_write: T,
    pub execute: T,
    pub read_execute: T,
    pub all: T,
}

impl<T: Copy> Six<T> {
    /// The value for a permission.
    #[inline(always)]
    pub fn at(&self, perm: Perm) -> T
        ensures { result ≡ at self.now perm }
    {
        match perm {
            Perm::NoAccess => self.none,
            Perm::Read => self.read,
            Perm::ReadWrite => self.read_write,
            Perm::Execute => self.execute,
            Perm::ReadExecute => self.read_execute,
            Perm::ReadWriteExecute => self.all,
        }
    }
}

/// The smaller of two numbers.
#[inline(always)]
pub fn smaller(a: u32, b: u32) -> u32
    ensures { result ≡ min a b }
{
    if a < b { a } else { b }
}

/// The least of six numbers.
#[inline(always)]
pub fn least(numbers: &Six<u32>) -> u32
    ensures { result ≡ least_of (at numbers.now) }
{
    let last = smaller(numbers.read_execute, numbers.all);
    let fourth = smaller(numbers.execute, last);
    let third = smaller(numbers.read_write, fourth);
    let second = smaller(numbers.read, third);
    smaller(numbers.none, second)
}
