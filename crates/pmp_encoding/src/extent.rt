//! The range of addresses that an entry matches, with its permission.

ghost use Rattle.std.specs.Prelude.{◌≡◌};
ghost use Rattle.pmp_encoding.specs.Extents.{extent_of};

use crate::perm::Perm;
use crate::region::{Entry, bytes_of};

/// The range of addresses that an entry matches, from `base` up to but excluding `end`, with its permission.
#[derive(Clone, Copy, PartialEq, Eq)]
pub struct Extent {
    /// The lowest address.
    pub base: u64,
    /// The first address after the range, at most 2^56.
    pub end: u64,
    pub perm: Perm,
}

impl Extent {
    /// Sets the extent to that of an entry, field by field: storing a whole struct would also write its padding.
    pub(crate) fn put(&mut self, entry: &Entry)
        ensures { self.new ≡ extent_of entry.now }
    {
        self.base = entry.region.base;
        self.end = entry.region.base + bytes_of(entry.region.log2);
        self.perm = entry.perm;
    }
}
