//! The rules of a listing.

ghost use Rattle.std.specs.Prelude.{◌≡◌, ℕ, ◌-◌, ◌^◌, ◌<◌, IfErr, IfOk, List, Some, length};
ghost use Rattle.register_audit.specs.RegisterListings.{IsFirstUnknown, listed};
ghost use Rattle.pmp_encoding.specs.declared.xlen.Xlen.{Xlen};
ghost use Rattle.register_audit.specs.Listings.{IsRuled};

use crate::rules::Rules;
use crate::{Listing, ListingNotes, extents_in, listing_of, notes_of};
use pmp_encoding::Xlen;
use text_lines::Line;

/// The rules of a listing, or the lack of them.
#[derive(Drop)]
pub enum Ruled {
    /// Registers that judge accesses.
    Rules(Rules),
    /// The line with the reason why the registers judge no access.
    Refused(Line),
}

/// The rules of a listing, and the comments on it.
#[derive(Drop)]
pub struct ListingRules {
    /// The rules.
    pub ruled: Ruled,
    /// The comments on ignored lines.
    pub notes: ListingNotes,
}

/// Returns the rules of a listing.
fn ruled_by(listing: &Listing) -> Ruled
    ensures { (xlen : Xlen) (bytes : List ℕ) → listed xlen bytes ≡ Some listing.now
        → IsRuled xlen bytes result }
{
    match extents_in(listing) {
        Ok(extents) => Ruled::Rules(Rules::by(&listing.registers, extents)),
        Err(line) => Ruled::Refused(line),
    }
}

/// Returns the rules of the registers in a listing with this width, or the line with the reason why they judge nothing:
/// an entry with a reserved value, or an unknown bit of `mseccfg`. The error is the number of the first invalid line.
pub fn rules_in(xlen: Xlen, listing: &[u8]) -> Result<ListingRules, u64>
    requires { length listing.now < 2 ^ 64 - 1 }
    ensures ruled { IfOk result (λ rules.
        IsRuled xlen listing.now rules.ruled) }
    ensures line { IfErr result (IsFirstUnknown xlen listing.now) }
{
    let leaves = listing_of(xlen, listing)?;
    Ok(ListingRules {
        ruled: ruled_by(&leaves),
        notes: notes_of(&leaves),
    })
}
