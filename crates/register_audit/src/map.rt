//! The map of a listing.

ghost use Rattle.std.specs.Prelude.{◌≡◌, ◌≢◌, ◌⊎◌, ◌-◌, ◌^◌, ◌<◌, ◌++◌, ℕ, All, Bool, Err, IfOk, List, Ok, Some, false, length, true, None};
ghost use Rattle.text_lines.specs.Writings.{writing, Breaks, TakesAll};
ghost use Rattle.pmp_encoding.specs.Views.{View};
ghost use Rattle.permission_map.specs.declared.runs.Run.{Run};
ghost use Rattle.permission_map.specs.Runs.{AreRuns, view_of_runs};
ghost use Rattle.pmp_match.specs.RegisterDecision.{IsWords};
ghost use Rattle.register_audit.specs.declared.listing.Listing.{Listing};
ghost use Rattle.register_audit.specs.RegisterListings.{IsFirstUnknown, listed};
ghost use Rattle.register_audit.specs.SecurityBits.{unknown_bit};
ghost use Rattle.register_audit.specs.declared.fault.ListingFault as ListingFault;
ghost use Rattle.register_audit.specs.declared.fault.MapOfFault as MapOfFault;
ghost use Rattle.register_audit.specs.declared.fault.NoMapReason as NoMapReason;
ghost use Rattle.register_audit.specs.Maps.{AreTooFine, IsMapFile, IsMapOf, IsMapOfExtents};
ghost use Rattle.register_audit.specs.Pages.{IsTooFine};
ghost use Rattle.register_audit.specs.MapTexts.{map_text};
ghost use Rattle.register_audit.specs.Modes.{MeanFor};

use crate::fault::{ListingFault, MapOfFault, NoMapReason};
use crate::map_texts::{below_line, cut_line, map_text};
use crate::modes::given_by;
use crate::pages::first_bytes;
use crate::{
    Finding, Listing, ListingNotes, compare, extents_in, listing_of, notes_of, text_of_line,
};
use permission_map::Memory;
use pmp_encoding::Xlen;
use pmp_match::{Extent, Mode};
use std::alloc::Global;
use text_lines::{Sink, write_whole};

/// The text about registers, and whether it is a map.
#[derive(Drop)]
struct Said {
    text: Vec<u8>,
    is_map: bool,
}

/// Returns the text about extents.
fn said_of_extents(alloc: Global, extents: &[Extent]) -> Result<Said, NoMapReason>
    requires { All IsWords extents.now }
    ensures said { IfOk result (λ said.
        IsMapOfExtents extents.now said.text.items said.is_map) }
    ensures many { result ≡ Err NoMapReason.TooManyRanges → IsTooFine extents.now }
{
    let map = first_bytes(alloc, extents)?;
    match compare(alloc, &map, extents)? {
        Finding::Means => {
            let text = map_text(alloc, &map)?;
            Ok(Said { text, is_map: true })
        }
        Finding::Differs(stretch) => {
            let text = text_of_line(alloc, &below_line(&stretch))?;
            Ok(Said {
                text,
                is_map: false,
            })
        }
        Finding::Cuts { entry, at } => {
            let text = text_of_line(alloc, &cut_line(entry, at))?;
            Ok(Said {
                text,
                is_map: false,
            })
        }
    }
}

/// Returns the text about a listing, for a mode.
fn said_of(alloc: Global, mode: Mode, listing: &Listing) -> Result<Said, NoMapReason>
    ensures said { IfOk result (λ said. IsMapOf mode listing.now said.text.items said.is_map) }
    ensures many { result ≡ Err NoMapReason.TooManyRanges → AreTooFine mode listing.now }
{
    let extents = match extents_in(listing) {
        Ok(extents) => extents,
        Err(line) => {
            let text = text_of_line(alloc, &line)?;
            return Ok(Said {
                text,
                is_map: false,
            });
        }
    };
    let given = given_by(alloc, mode, &listing.registers, &extents)?;
    let said = said_of_extents(alloc, given.as_slice())?;
    Ok(said)
}

/// The result of printing a map: whether there is one, and comments on the listing.
#[derive(Drop)]
pub struct MapAnswer {
    /// True if there is a map.
    pub is_map: bool,
    /// The comments on ignored lines.
    pub notes: ListingNotes,
}

/// Reads a listing of registers with this width, and writes the map that they mean for a mode, as the lines of a map
/// file; or one line with the reason why no map of whole pages describes the mode's permissions. If a line is invalid,
/// there are too many ranges or an allocation fails, nothing is written; if the device fails, or accepts no bytes, only
/// a beginning of the text was written.
pub fn print_map_of<W: Sink>(
    alloc: Global,
    mode: Mode,
    xlen: Xlen,
    listing: &[u8],
    out: &mut W,
) -> Result<MapAnswer, MapOfFault>
    requires { length listing.now < 2 ^ 64 - 1 }
    ensures written { IfOk result (λ answer. (text : List ℕ)
        × IsMapFile mode xlen listing.now text answer.is_map
        × TakesAll text (writing W.contents W.failures W.stalls out.old out.new)) }
    ensures means { IfOk result (λ answer. answer.is_map ≡ true → (leaves : Listing)
        × (listed xlen listing.now ≡ Some leaves) × (unknown_bit leaves.mseccfg ≡ None)
        × (runs : List Run) × AreRuns runs × MeanFor mode leaves.registers (view_of_runs runs)
        × TakesAll (map_text runs) (writing W.contents W.failures W.stalls out.old out.new)) }
    ensures none { IfOk result (λ answer. answer.is_map ≡ false → (leaves : Listing)
        × (listed xlen listing.now ≡ Some leaves)
        × (unknown_bit leaves.mseccfg ≢ None
        ⊎ ((view : View) → ¬ MeanFor mode leaves.registers view))) }
    ensures line { (n : ℕ) → result ≡ Err (MapOfFault.Listing (ListingFault.Line n))
        → IsFirstUnknown xlen listing.now n × (out.new ≡ out.old) }
    ensures many { result ≡ Err MapOfFault.TooManyRanges
        → (leaves : Listing) × (listed xlen listing.now ≡ Some leaves) × AreTooFine mode leaves
        × (out.new ≡ out.old) }
    ensures untouched { result ≡ Err (MapOfFault.Listing ListingFault.Memory)
        → out.new ≡ out.old }
    ensures broken { result ≡ Err (MapOfFault.Listing ListingFault.Device)
        → (text : List ℕ) × (is_map : Bool) × IsMapFile mode xlen listing.now text is_map
        × Breaks text (writing W.contents W.failures W.stalls out.old out.new) }
{
    let listing = match listing_of(xlen, listing) {
        Ok(listing) => listing,
        Err(number) => return Err(MapOfFault::Listing(ListingFault::Line(number))),
    };
    let said = match said_of(alloc, mode, &listing) {
        Ok(said) => said,
        Err(NoMapReason::TooManyRanges) => return Err(MapOfFault::TooManyRanges),
        Err(NoMapReason::Memory) => return Err(MapOfFault::Listing(ListingFault::Memory)),
    };
    let Ok(()) = write_whole(out, said.text.as_slice()) else {
        return Err(MapOfFault::Listing(ListingFault::Device));
    };
    Ok(MapAnswer {
        is_map: said.is_map,
        notes: notes_of(&listing),
    })
}
