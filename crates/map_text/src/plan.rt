//! The output of `plan`.

ghost use Rattle.std.specs.Prelude.{◌+◌, ◌-◌, ◌<◌, ◌≤◌, ◌^◌, length, map};
ghost use Rattle.text_lines.specs.Writings.{writing, Prints, PrintsOne};
ghost use Rattle.pmp_encoding.specs.Widths.{whole_word};
ghost use Rattle.map_text.specs.Plans.{IsListText, entries_text, list_text, words_text};

use crate::entry_lines::{MOST, put_entries};
use crate::line_texts::{count_line, word_line};
use crate::listed_entry::ListedEntry;
use crate::placed::{room_from, word_from};
use pmp_encoding::{Limit, Xlen};
use text_lines::{DeviceFault, Sink, write_whole};

/// Number of entries whose lines are written to the sink at once: more bytes than a `HeldSink` holds, so that it passes
/// them on without copying.
const LINES: usize = 320;

/// Writes a line for each entry.
fn print_entries<E: ListedEntry, W: Sink>(
    xlen: Xlen,
    entries: &[E],
    first: u8,
    out: &mut W,
) -> Result<(), DeviceFault>
    requires { first + length entries.now < 2 ^ 64 }
    ensures { Prints (entries_text xlen first (map E.listed entries.now))
        (writing W.contents W.failures W.stalls out.old out.new) result }
{
    let mut buffer = [0; LINES * MOST];
    let mut left = entries;
    let mut number = u64::from(first);
    while !left.is_empty() {
        let (these, others) = left.split_at(left.len().min(LINES));
        let end = put_entries(buffer.as_mut_slice(), xlen, these, number);
        write_whole(out, &buffer[..end])?;
        number += these.len() as u64;
        left = others;
    }
    Ok(())
}

/// Writes the number of entries, and a line for each.
fn print_list<E: ListedEntry, W: Sink>(
    xlen: Xlen,
    entries: &[E],
    first: u8,
    out: &mut W,
) -> Result<(), DeviceFault>
    requires { first + length entries.now < 2 ^ 64 }
    ensures { Prints (list_text xlen first (map E.listed entries.now))
        (writing W.contents W.failures W.stalls out.old out.new) result }
{
    let count = count_line(entries.len() as u64);
    write_whole(out, count.as_slice())?;
    print_entries(xlen, entries, first, out)?;
    Ok(())
}

/// Writes a line for each word below `end`, except words with an entry below the first.
fn print_words<E: ListedEntry, W: Sink>(
    xlen: Xlen,
    entries: &[E],
    first: u8,
    end: usize,
    out: &mut W,
) -> Result<(), DeviceFault>
    requires end { end ≤ 16 }
    ensures { Prints (words_text xlen first (map E.listed entries.now) (whole_word xlen first)
        (end - whole_word xlen first))
        (writing W.contents W.failures W.stalls out.old out.new) result }
{
    let begin = xlen.whole_word(first);
    for i in begin..end {
        let line = word_line(
            xlen,
            xlen.word_number(i),
            word_from(xlen, entries, first, i),
        );
        write_whole(out, line.as_slice())?;
    }
    Ok(())
}

/// Writes the number of entries, a line for each, numbered from the first on, and the configuration words without an
/// entry below the first, if the hart has room for the entries. Its address registers must reach the regions.
///
/// On an `Err` only a beginning of this text was written, and the device failed, or accepted no bytes, in this call.
pub fn print_plan<E: ListedEntry, W: Sink>(
    xlen: Xlen,
    entries: &[E],
    first: u8,
    limit: Limit,
    out: &mut W,
) -> Result<(), DeviceFault>
    requires reached { E.reaches xlen entries.now }
    requires numbers { first + length entries.now < 2 ^ 64 }
    ensures { PrintsOne (IsListText xlen limit first (map E.listed entries.now))
        (writing W.contents W.failures W.stalls out.old out.new) result }
{
    let room = room_from(first, limit);
    let count = xlen.words(limit);
    print_list(xlen, entries, first, out)?;
    if entries.len() > room {
        return Ok(());
    }
    print_words(xlen, entries, first, count, out)?;
    Ok(())
}
