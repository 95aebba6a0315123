//! The six costs of a branch as bytes.

use byteorder::{ByteOrder, LittleEndian};
use pmp_encoding::Perm;
use std::marker::Model;

/// A number for each permission: the least number of entries of a block that inherits that permission.
#[derive(Clone, Copy)]
pub struct SixCosts {
    pub no_access: u32,
    pub read: u32,
    pub read_write: u32,
    pub execute: u32,
    pub read_execute: u32,
    pub read_write_execute: u32,
}

ghost use Rattle.std.specs.Prelude.{◌≡◌, ◌+◌, ◌^◌, ◌<◌, ◌≤◌, drop, length};
ghost use Rattle.byteorder.specs.Endian.{little_number};
ghost use Rattle.pmp_encoding.specs.declared.perm.Perm.{Perm};
ghost use Rattle.certificate_format.specs.Costs.{cost_of};
ghost use Rattle.certificate_format.specs.Spelling.{costs_bytes};

/// Reads a little-endian number of four bytes.
fn number_at(bytes: &[u8], place: usize) -> u32
    requires { place + 4 ≤ length bytes.now }
    ensures { result ≡ little_number 4 (drop place bytes.now) }
{
    LittleEndian::read_u32(&bytes[place..])
}

/// The 24 bytes of the costs of a branch: six little-endian numbers of four bytes each, in the order none, R, RW, X,
/// RX, RWX.
#[derive(Drop)]
pub struct BranchCosts<'a> {
    bytes: &'a [u8],
}

impl<'a> Model for BranchCosts<'a> {
    ghost use Rattle.std.specs.Prelude.{◌≡◌, length};
    ghost use Rattle.certificate_format.specs.declared.costs.SixCosts.{SixCosts};
    ghost use Rattle.certificate_format.specs.Costs.{costs_in};

    ghost Value = { SixCosts };

    ghost view = { λ c. costs_in c.bytes.now };

    ghost invariant = { λ c. length c.bytes.now ≡ 24 };
}

impl<'a> BranchCosts<'a> {
    pub(crate) fn of(bytes: &'a [u8]) -> BranchCosts<'a>
        requires { length bytes.now ≡ 24 }
        ensures spelled { bytes.entry.now ≡ costs_bytes (cost_of result) }
        ensures fits { (perm : Perm) → cost_of result perm < 2 ^ 32 }
    {
        BranchCosts { bytes }
    }

    /// Returns the cost if the block inherits this permission.
    pub fn cost(&self, perm: Perm) -> u32
        ensures { result ≡ cost_of self.now perm }
    {
        match perm {
            Perm::NoAccess => number_at(self.bytes, 0),
            Perm::Read => number_at(self.bytes, 4),
            Perm::ReadWrite => number_at(self.bytes, 8),
            Perm::Execute => number_at(self.bytes, 12),
            Perm::ReadExecute => number_at(self.bytes, 16),
            Perm::ReadWriteExecute => number_at(self.bytes, 20),
        }
    }

    /// Returns all six costs.
    #[inline(always)]
    pub fn six(&self) -> SixCosts
        ensures { result ≡ self.now }
    {
        let bytes = self.bytes;
        SixCosts {
            no_access: number_at(bytes, 0),
            read: number_at(bytes, 4),
            read_write: number_at(bytes, 8),
            execute: number_at(bytes, 12),
            read_execute: number_at(bytes, 16),
            read_write_execute: number_at(bytes, 20),
        }
    }
}
