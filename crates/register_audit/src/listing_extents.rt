//! The addresses that the entries of a listing match.

ghost use Rattle.std.specs.Prelude.{◌≡◌, IfErr, IfOk, None};
ghost use Rattle.pmp_match.specs.RegisterMatching.{AreExtents};
ghost use Rattle.register_audit.specs.SecurityBits.{unknown_bit};
ghost use Rattle.register_audit.specs.NoMeaning.{MeansNothing};

use crate::listing::Listing;
use crate::listing_texts::{reserved_line, unknown_bit_line};
use crate::security_bits::unknown_bit;
use pmp_match::{Extent, extents_of};
use text_lines::Line;

/// Returns the addresses that each entry of a listing matches, or a line with the reason why the listing means nothing.
pub fn extents_in(listing: &Listing) -> Result<[Extent; 64], Line>
    ensures modelled { IfOk result (λ _. unknown_bit listing.now.mseccfg ≡ None) }
    ensures extents { IfOk result (AreExtents listing.now.registers) }
    ensures refused { IfErr result (λ _. MeansNothing listing.now) }
{
    if let Some(bit) = unknown_bit(listing.mseccfg) {
        return Err(unknown_bit_line(listing.mseccfg, bit));
    }
    match extents_of(&listing.registers) {
        Ok(extents) => Ok(extents),
        Err(found) => Err(reserved_line(&listing.registers, &found)),
    }
}
