//! The table of a listing.

ghost use Rattle.std.specs.Prelude.{Bool, ◌≡◌, ◌-◌, ◌^◌, ◌<◌, ℕ, Err, IfOk, List, length};
ghost use Rattle.text_lines.specs.Writings.{writing, Breaks, TakesAll};
ghost use Rattle.register_audit.specs.RegisterListings.{IsFirstUnknown};
ghost use Rattle.register_audit.specs.declared.fault.ListingFault as ListingFault;
ghost use Rattle.register_audit.specs.Tables.{IsRegisterTable, IsShown};

use crate::count_on;
use crate::decision::default_perm;
use crate::fault::ListingFault;
use crate::listing::{Listing, listing_of};
use crate::listing_extents::extents_in;
use crate::listing_texts::{push_notes, text_of_line};
use crate::modes::entries_given;
use map_table::extent_table;
use permission_map::Memory;
use pmp_encoding::Xlen;
use pmp_match::Mode;
use std::alloc::Global;
use text_lines::{Sink, write_whole};

/// The text about registers, and whether they mean something.
#[derive(Drop)]
struct Shown {
    text: Vec<u8>,
    meant: bool,
}

/// Returns the text about a listing, for a mode. The only error is a failed allocation.
fn said_of(alloc: Global, mode: Mode, listing: &Listing) -> Result<Shown, Memory>
    ensures { IfOk result (λ shown. IsShown listing.now shown.meant) }
{
    let extents = match extents_in(listing) {
        Ok(extents) => extents,
        Err(line) => {
            let text = text_of_line(alloc, &line)?;
            return Ok(Shown { text, meant: false });
        }
    };
    let registers = &listing.registers;
    let given = entries_given(alloc, mode, registers, &extents)?;
    let rest = default_perm(registers, mode);
    let on = count_on(registers);
    let end = registers.xlen.space_end();
    let text = extent_table(alloc, given.as_slice(), end, rest, on, &registers.cfgs)?;
    Ok(Shown { text, meant: true })
}

/// Reads a listing of registers with this width, and writes the table of the permissions that they grant a mode, or the
/// line with the reason why they mean nothing. Comments on ignored lines follow. Returns whether they mean something.
/// If a line is invalid or an allocation fails, nothing is written; if the device fails, or accepts no bytes, only a
/// beginning of the text was written.
pub fn print_registers<W: Sink>(
    alloc: Global,
    mode: Mode,
    xlen: Xlen,
    listing: &[u8],
    out: &mut W,
) -> Result<bool, ListingFault>
    requires { length listing.now < 2 ^ 64 - 1 }
    ensures written { IfOk result (λ meant. IsRegisterTable xlen listing.now meant
        × (text : List ℕ)
        × TakesAll text (writing W.contents W.failures W.stalls out.old out.new)) }
    ensures line { (n : ℕ) → result ≡ Err (ListingFault.Line n)
        → IsFirstUnknown xlen listing.now n × (out.new ≡ out.old) }
    ensures untouched { result ≡ Err ListingFault.Memory → out.new ≡ out.old }
    ensures broken { result ≡ Err ListingFault.Device → (meant : Bool)
        × IsRegisterTable xlen listing.now meant × (text : List ℕ)
        × Breaks text (writing W.contents W.failures W.stalls out.old out.new) }
{
    let listing = match listing_of(xlen, listing) {
        Ok(listing) => listing,
        Err(number) => return Err(ListingFault::Line(number)),
    };
    let Ok(mut shown) = said_of(alloc, mode, &listing) else {
        return Err(ListingFault::Memory);
    };
    let Ok(()) = push_notes(&mut shown.text, &listing) else {
        return Err(ListingFault::Memory);
    };
    let Ok(()) = write_whole(out, shown.text.as_slice()) else {
        return Err(ListingFault::Device);
    };
    Ok(shown.meant)
}
