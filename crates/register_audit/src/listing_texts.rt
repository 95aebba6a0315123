//! Human-readable lines about a listing.

ghost use Rattle.std.specs.Prelude.{◌≡◌, IfOk};

use crate::listing::Listing;
use crate::security_bits::foreign_bit;
use arrayvec::{ArrayString, ArrayVec};
use pmp_match::{Registers, Reserved, ReservedAt};
use std::alloc::{AllocError, Global};
use std::fmt::Write;
use text_lines::{Line, push_text};

/// The words of a line. A part that does not fit is left out.
pub(crate) type Words = ArrayString<128>;

/// Comments on a listing, about ignored lines.
pub type ListingNotes = ArrayVec<u8, 256>;

/// Maximum length of a line in bytes.
const ROOM: usize = 128;

/// Converts words to a line.
pub(crate) fn line_of(words: &Words) -> Line {
    let mut line = Line::new();
    let bytes = words.as_str().as_bytes();
    if bytes.len() <= ROOM {
        push_text(&mut line, bytes);
    }
    line
}

/// Returns a text of one line. The only error is a failed allocation.
pub fn text_of_line(alloc: Global, line: &Line) -> Result<Vec<u8>, AllocError>
    ensures { IfOk result (λ text. text.items ≡ line.now) }
{
    let mut text = Vec::new(alloc);
    text.extend_from_slice(line.as_slice())?;
    Ok(text)
}

/// Returns the line about an entry with a reserved value.
pub fn reserved_line(registers: &Registers, found: &ReservedAt) -> Line {
    let place = found.place;
    let (Some(cfg), Some(address)) = (registers.cfgs.get(place), registers.addresses.get(place))
    else {
        return Line::new();
    };
    let name = match found.value {
        Reserved::Permission => "W without R",
        Reserved::Bits => "reserved bits",
    };
    let mut words = Words::new();
    let _ = write!(words, "pair {place} 0x{cfg:02x} 0x");
    let _ = if registers.xlen.digits() == 8 {
        write!(words, "{address:08x}")
    } else {
        write!(words, "{address:016x}")
    };
    let _ = writeln!(words, ": {name}");
    line_of(&words)
}

/// Returns the line about an `mseccfg` with a bit that no extension defines.
pub fn unknown_bit_line(mseccfg: u64, bit: u8) -> Line {
    let mut words = Words::new();
    let _ = writeln!(
        words,
        "mseccfg 0x{mseccfg:016x}: no verdict, bit {bit} is not known"
    );
    line_of(&words)
}

/// Appends the comment on the first ignored line, if there is one.
fn note_passed(words: &mut ArrayString<256>, passed: Option<u64>) {
    if let Some(first) = passed {
        let _ = writeln!(
            words,
            "# lines of other registers are passed over, line {first} first"
        );
    }
}

/// Appends the comment on the lowest bit of `mseccfg` that is not about PMP, if there is one.
fn note_foreign_bit(words: &mut ArrayString<256>, bit: Option<u8>) {
    if let Some(first) = bit {
        let _ = writeln!(
            words,
            "# bits of mseccfg that are not about PMP are passed over, bit {first} first"
        );
    }
}

/// Returns the comments on the ignored parts of a listing.
pub fn notes_of(listing: &Listing) -> ListingNotes {
    let mut words = ArrayString::new();
    note_passed(&mut words, listing.passed);
    note_foreign_bit(&mut words, foreign_bit(listing.mseccfg));
    let mut notes = ArrayVec::new();
    let _ = notes.try_extend_from_slice(words.as_str().as_bytes());
    notes
}

/// Appends the comments on the ignored parts of a listing. The only error is a failed allocation.
pub fn push_notes(text: &mut Vec<u8>, listing: &Listing) -> Result<(), AllocError> {
    text.extend_from_slice(notes_of(listing).as_slice())?;
    Ok(())
}
