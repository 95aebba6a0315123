//! A law of the register pair of a region.

ghost use Rattle.pmp_encoding.specs.declared.region.Entry.{Entry};
ghost use Rattle.pmp_encoding.specs.Encoding.{MeansEntry};
ghost use Rattle.register_audit.specs.Blocks.{address_by, cfg_by};

use pmp_encoding::pair_law;

/// The pair of a block and a permission means the entry with both.
pub fn region_law()
    ensures { (e : Entry)
        → MeansEntry (cfg_by e.region.log2 e.perm) (address_by e.region.base e.region.log2) e }
{
    pair_law()
}
