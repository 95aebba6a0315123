//! Human-readable lines of an audit.

use crate::fewest::Fewest;
use crate::listing_texts::{Words, line_of, reserved_line};
use crate::verdict::Verdict;
use map_table::Stretch;
use map_text::letters;
use pmp_match::{Mode, Registers};
use std::fmt::Write;
use text_lines::Line;

/// The number of entries of a hart.
const ENTRIES: usize = 64;

/// Returns the line about a stretch on which the map and the registers differ.
pub(crate) fn stretch_line(stretch: &Stretch) -> Line {
    let first = stretch.first;
    let last = stretch.end.saturating_sub(1);
    let wanted = letters(stretch.wanted);
    let given = letters(stretch.given);
    let mut words = Words::new();
    let _ = write!(
        words,
        "differs 0x{first:016x} 0x{last:016x}: map {wanted}, "
    );
    let _ = match stretch.entry {
        Some(place) if place < ENTRIES => write!(words, "entry {place}"),
        _ => write!(words, "no entry"),
    };
    let _ = writeln!(words, " {given}");
    line_of(&words)
}

/// Writes how many entries are enough for the map, given the number of entries in use: the fewest NA4 and NAPOT entries,
/// and the fewest with a chain of TOR entries if these are fewer.
fn write_fewest(words: &mut Words, fewest: Fewest, count: u64) {
    let Fewest { blocks, chained } = fewest;
    let _ = if chained >= blocks {
        write!(words, "; fewest NA4/NAPOT entries: {blocks}")
    } else if chained > count {
        write!(
            words,
            "; fewest NA4/NAPOT entries: {blocks}, before a TOR chain: {chained}"
        )
    } else {
        let are = if chained == 1 { "is" } else { "are" };
        write!(
            words,
            " where {chained} {are} enough ({blocks} without TOR)"
        )
    };
}

/// Returns the line about registers that mean the map. For supervisor and user mode it includes the fewest entries.
fn means_line(mode: Mode, fewest: Fewest, count: usize) -> Line {
    let entries = if count == 1 { "entry" } else { "entries" };
    let mut words = Words::new();
    let _ = write!(words, "means the map: {count} {entries}");
    if mode != Mode::Machine {
        write_fewest(&mut words, fewest, count as u64);
    }
    let _ = writeln!(words);
    line_of(&words)
}

/// Returns the line about eight bytes that an entry cuts.
fn cut_line(entry: usize, at: u64) -> Line {
    let last = at.saturating_add(7);
    let mut words = Words::new();
    let _ = writeln!(
        words,
        "differs 0x{at:016x} 0x{last:016x}: entry {entry} cuts an access of 8 bytes"
    );
    line_of(&words)
}

/// Returns the line of a verdict on registers for a mode. `fewest` has the fewest entries for the map.
pub(crate) fn verdict_line(
    mode: Mode,
    fewest: Fewest,
    registers: &Registers,
    verdict: &Verdict,
) -> Line {
    match verdict {
        Verdict::Means { count } => means_line(mode, fewest, *count),
        Verdict::Differs(stretch) => stretch_line(stretch),
        Verdict::Cuts { entry, at } => cut_line(*entry, *at),
        Verdict::NoMeaning(found) => reserved_line(registers, found),
    }
}
