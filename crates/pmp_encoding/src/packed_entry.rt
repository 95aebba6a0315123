//! An entry in eight bytes, for long lists.

ghost use Rattle.std.specs.Prelude.{◌≡◌};
ghost use Rattle.pmp_encoding.specs.PackedEntries.{HasBlock, HasBits};

use crate::perm::Perm;
use crate::region::{Entry, Region, bytes_of};
use std::marker::Model;

/// An entry in eight bytes instead of twenty-four, for long lists. Contracts see it as an [`Entry`].
#[derive(Drop)]
pub struct PackedEntry {
    /// A quarter of the lowest address, then six bits for the size and three for the permission.
    number: u64,
    ghost block: { HasBlock number },
    ghost bits: { HasBits number },
}

impl Model for PackedEntry {
    ghost use Rattle.pmp_encoding.specs.declared.region.Entry.{Entry};
    ghost use Rattle.pmp_encoding.specs.PackedEntries.{entry_in};

    ghost Value = { Entry };

    ghost view = { λ p. entry_in p.number p.block };
}

impl PackedEntry {
    ghost use Rattle.std.specs.Prelude.{◌≡◌};
    ghost use Rattle.pmp_encoding.specs.Encoding.{MeansEntry, cfg_of, address_of};

    /// Packs an entry.
    #[inline(always)]
    pub fn new(entry: Entry) -> PackedEntry
        ensures { result ≡ entry }
    {
        let size = u64::from(entry.region.log2);
        let bits = u64::from(entry.perm.bits());
        PackedEntry {
            number: entry.region.base / 4 * 512 + size * 8 + bits,
        }
    }

    /// Returns a copy.
    #[inline(always)]
    pub fn copied(&self) -> PackedEntry
        ensures { result ≡ self.now }
    {
        PackedEntry {
            number: self.number,
        }
    }

    /// Returns the binary logarithm of the region's size in bytes, from 2 to 56.
    #[inline(always)]
    pub fn log2(&self) -> u32
        ensures { result ≡ self.now.region.log2 }
    {
        (self.number / 8 % 64) as u32
    }

    /// Returns the permission.
    #[inline(always)]
    pub fn perm(&self) -> Perm
        ensures { result ≡ self.now.perm }
    {
        match self.number % 8 {
            0 => Perm::NoAccess,
            1 => Perm::Read,
            3 => Perm::ReadWrite,
            4 => Perm::Execute,
            5 => Perm::ReadExecute,
            _ => Perm::ReadWriteExecute,
        }
    }

    /// Returns the region.
    #[inline(always)]
    pub fn region(&self) -> Region
        ensures { result ≡ self.now.region }
    {
        Region {
            base: self.number / 512 * 4,
            log2: (self.number / 8 % 64) as u32,
        }
    }

    /// Unpacks the entry.
    #[inline(always)]
    pub fn entry(&self) -> Entry
        ensures { result ≡ self.now }
    {
        Entry {
            region: self.region(),
            perm: self.perm(),
        }
    }

    /// Returns the canonical pair, as [`Entry::encode`].
    #[inline(always)]
    pub fn encode(&self) -> (u8, u64)
        ensures meaning { MeansEntry result.0 result.1 self.now }
        ensures cfg { result.0 ≡ cfg_of self.now }
        ensures address { result.1 ≡ address_of self.now }
    {
        let bits = (self.number % 8) as u8;
        let quarter = self.number / 512;
        let size = self.log2();
        if size == 2 {
            (bits + 16, quarter)
        } else {
            (bits + 24, quarter + bytes_of(size - 3) - 1)
        }
    }
}
