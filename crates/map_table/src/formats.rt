//! Writes the registers of a list to a sink.

ghost use Rattle.std.specs.Prelude.{◌≡◌, ◌+◌, ◌-◌, ◌^◌, ◌/◌, ◌<◌, ◌≤◌, None, Some, length, map, option_map};
ghost use Rattle.text_lines.specs.Writings.{writing, Prints, PrintsOne};
ghost use Rattle.pmp_encoding.specs.Limits.{limit_number};
ghost use Rattle.pmp_encoding.specs.Widths.{whole_word, word_count};
ghost use Rattle.map_table.specs.AsmTexts.{IsAsmListText, asm_head, asm_words};
ghost use Rattle.map_table.specs.CTexts.{IsCListText, c_arrays, c_loader, c_loader_begin, c_word_writes};
ghost use Rattle.map_table.specs.Heads.{head_begin, head_below, head_end, head_rules, head_width};
ghost use Rattle.map_table.specs.JsonTexts.{IsJsonListText, json_text};
ghost use Rattle.map_table.specs.SharedTexts.{shared_word_count};

use crate::heads::{head_begin, head_below, head_end, head_rules, head_width};
use crate::names::{array_link, prefix_of};
use crate::register_rows::{print_both, print_section, print_texts, print_titled};
use crate::shared::shared_word_count;
use crate::{asm_rows, c_rows, c_writes, json_registers};
use map_text::{ListedEntry, room_from};
use pmp_encoding::{Limit, Xlen};
use text_lines::{DeviceFault, Sink, write_whole};

/// Writes the arrays of a hart's registers in C.
fn print_arrays<E: ListedEntry, W: Sink>(
    prefix: &[u8],
    link: &[u8],
    xlen: Xlen,
    entries: &[E],
    first: u8,
    limit: Limit,
    out: &mut W,
) -> Result<(), DeviceFault>
    ensures { Prints (c_arrays prefix.now link.now xlen limit first
        (map E.listed entries.now))
        (writing W.contents W.failures W.stalls out.old out.new) result }
{
    let addresses = c_rows::Addresses {
        xlen,
        entries,
        first,
    };
    let words = c_rows::Words {
        xlen,
        entries,
        first,
    };
    print_titled(
        &[
            head_begin(),
            head_width(xlen),
            head_rules(),
            head_below(first),
            head_end(),
            c_rows::begin(xlen),
            prefix,
            link,
            c_rows::addresses_size(limit),
        ],
        &addresses,
        limit.number() as usize,
        out,
    )?;
    print_titled(
        &[
            c_rows::between(xlen),
            prefix,
            link,
            c_rows::words_size(xlen, limit),
        ],
        &words,
        xlen.words(limit),
        out,
    )?;
    Ok(())
}

/// Writes the instructions for the configuration words.
fn print_word_writes<W: Sink>(
    xlen: Xlen,
    first: u8,
    limit: Limit,
    out: &mut W,
) -> Result<(), DeviceFault>
    ensures { Prints (c_word_writes xlen limit first)
        (writing W.contents W.failures W.stalls out.old out.new) result }
{
    let shared = c_writes::SharedWrites { xlen, first };
    let words = c_writes::WordWrites { xlen, first };
    let shared_count = shared_word_count(xlen, limit, first);
    let count = xlen.words(limit).saturating_sub(xlen.whole_word(first));
    print_both(&shared, shared_count, &words, count, out)
}

/// Writes the number of entries, and the function that writes the registers.
fn print_loader<W: Sink>(
    prefix: &[u8],
    link: &[u8],
    xlen: Xlen,
    first: u8,
    limit: Limit,
    count: &[u8],
    out: &mut W,
) -> Result<(), DeviceFault>
    ensures { Prints (c_loader prefix.now link.now xlen limit first count.now)
        (writing W.contents W.failures W.stalls out.old out.new) result }
{
    let address_count = room_from(first, limit);
    print_titled(
        &[
            c_rows::count_begin(),
            prefix,
            c_rows::count_is(),
            count,
            c_rows::loader_note(),
            c_rows::loader_writes(first),
            c_rows::loader_reason(),
            prefix,
            c_rows::load_addresses(xlen),
            prefix,
            link,
            c_rows::load_words(xlen),
            prefix,
            link,
            c_rows::load_begin(),
        ],
        &c_writes::AddressWrites { first },
        address_count,
        out,
    )?;
    print_word_writes(xlen, first, limit, out)?;
    write_whole(
        out,
        b"    __asm__ volatile(\"sfence.vma\" : : : \"memory\");\n}\n#endif\n",
    )?;
    Ok(())
}

/// Writes the registers of a list as C: two arrays of all address registers and configuration words, with each entry's
/// region, size and permission in a comment, below a comment on the conditions for writing them; then the number of
/// entries, and a function that writes the registers from the first entry on. With a name, such as `uart`, they are
/// called `uart_pmpaddr`, `uart_pmpcfg`, `uart_count` and `uart_load`; otherwise `pmpaddr`, `pmpcfg`, `pmp_count` and
/// `pmp_load`. The entries below the first, and their bytes of a word that they share with it, are unchanged.
///
/// On an `Err` only a beginning of this text was written, and the device failed, or accepted no bytes, in this call.
pub fn print_c<E: ListedEntry, W: Sink>(
    name: Option<&str>,
    xlen: Xlen,
    entries: &[E],
    first: u8,
    limit: Limit,
    out: &mut W,
) -> Result<(), DeviceFault>
    requires reached { E.reaches xlen entries.now }
    requires fits { length entries.now ≤ limit_number limit - first }
    ensures { PrintsOne (IsCListText (option_map (λ s. s.now) name.entry) xlen limit first
        (map E.listed entries.now))
        (writing W.contents W.failures W.stalls out.old out.new) result }
{
    let prefix = prefix_of(name);
    let link = array_link(name);
    print_arrays(prefix, link, xlen, entries, first, limit, out)?;
    let count = c_rows::number_text(entries.len());
    print_loader(prefix, link, xlen, first, limit, count.as_slice(), out)?;
    Ok(())
}

/// Writes the head of assembly, with the label of a routine.
fn print_asm_head<W: Sink>(
    label: &[u8],
    end: &[u8],
    xlen: Xlen,
    first: u8,
    out: &mut W,
) -> Result<(), DeviceFault>
    ensures { Prints (asm_head xlen first label.now end.now)
        (writing W.contents W.failures W.stalls out.old out.new) result }
{
    print_texts(
        &[
            head_begin(),
            head_width(xlen),
            head_rules(),
            head_below(first),
            head_end(),
            label,
            end,
        ],
        out,
    )
}

/// Writes the instructions for the configuration words.
fn print_asm_words<E: ListedEntry, W: Sink>(
    xlen: Xlen,
    entries: &[E],
    first: u8,
    limit: Limit,
    out: &mut W,
) -> Result<(), DeviceFault>
    ensures { Prints (asm_words xlen limit first (map E.listed entries.now))
        (writing W.contents W.failures W.stalls out.old out.new) result }
{
    let shared = asm_rows::SharedWords {
        xlen,
        entries,
        first,
    };
    let words = asm_rows::Words {
        xlen,
        entries,
        first,
    };
    let shared_count = shared_word_count(xlen, limit, first);
    let count = xlen.words(limit).saturating_sub(xlen.whole_word(first));
    print_both(&shared, shared_count, &words, count, out)
}

/// Writes the registers of a list as assembly, below the same comment: the instructions that write the address
/// registers of its entries, then those that write the configuration words, in which the entries after the list are
/// off, then `sfence.vma`. With a name they form a routine called by that name with `_load` after it. The entries below
/// the first, and their bytes of a word that they share with it, are unchanged.
///
/// On an `Err` only a beginning of this text was written, and the device failed, or accepted no bytes, in this call.
pub fn print_asm<E: ListedEntry, W: Sink>(
    name: Option<&str>,
    xlen: Xlen,
    entries: &[E],
    first: u8,
    limit: Limit,
    out: &mut W,
) -> Result<(), DeviceFault>
    requires reached { E.reaches xlen entries.now }
    requires fits { length entries.now ≤ limit_number limit - first }
    ensures { PrintsOne (IsAsmListText (option_map (λ s. s.now) name.entry) xlen limit first
        (map E.listed entries.now))
        (writing W.contents W.failures W.stalls out.old out.new) result }
{
    let addresses = asm_rows::Addresses {
        xlen,
        entries,
        first,
    };
    let label = asm_rows::label_of(name);
    let label_end = asm_rows::label_end(name);
    print_asm_head(label, label_end, xlen, first, out)?;
    let begin = asm_rows::begin(xlen, limit, first);
    print_section(begin.as_slice(), &addresses, entries.len(), out)?;
    print_asm_words(xlen, entries, first, limit, out)?;
    write_whole(out, asm_rows::end(name))?;
    Ok(())
}

/// Writes the object, with the first words of the hart.
fn print_object<E: ListedEntry, W: Sink>(
    name: &[u8],
    xlen: Xlen,
    entries: &[E],
    first: u8,
    limit: Limit,
    without_tor: Option<usize>,
    count: usize,
    out: &mut W,
) -> Result<(), DeviceFault>
    requires numbers { first + length entries.now < 2 ^ 64 }
    requires count { count ≤ 16 }
    ensures { Prints (json_text name.now xlen limit first without_tor (map E.listed entries.now)
        count)
        (writing W.contents W.failures W.stalls out.old out.new) result }
{
    let letters = json_registers::Name { bytes: name };
    let listed = json_registers::Entries {
        xlen,
        entries,
        first,
    };
    let words = json_registers::Words {
        xlen,
        entries,
        first,
    };
    print_section(b"{\n  \"map\": \"", &letters, name.len(), out)?;
    let hart = json_registers::hart(xlen, limit, first, entries.len());
    let without_tor = json_registers::without_tor(without_tor);
    print_titled(
        &[hart.as_slice(), without_tor.as_slice(), b"  \"entries\": ["],
        &listed,
        entries.len(),
        out,
    )?;
    print_section(b"\n  ],\n  \"pmpcfg\": [", &words, count, out)?;
    write_whole(out, b"\n  ]\n}\n")?;
    Ok(())
}

/// Returns the number of words to print, which is zero if the hart has no room for the entries.
fn printed_word_count(xlen: Xlen, entries: usize, first: u8, limit: Limit) -> usize
    ensures fits { entries ≤ limit_number limit - first → result ≡ word_count xlen limit }
    ensures too_many { limit_number limit - first < entries → result ≡ 0 }
    ensures most { result ≤ 16 }
{
    if entries > room_from(first, limit) {
        return 0;
    }
    xlen.words(limit)
}

/// Writes a list as one JSON object: the map's name, the limit, the first entry if it is not 0, whether the hart has room
/// for the list, each entry with its pair, its region and its permission, and the configuration words, if there is room.
/// The bytes of entries below the first are zero there.
///
/// On an `Err` only a beginning of this text was written, and the device failed, or accepted no bytes, in this call.
pub fn print_json<E: ListedEntry, W: Sink>(
    name: &str,
    xlen: Xlen,
    entries: &[E],
    first: u8,
    limit: Limit,
    out: &mut W,
) -> Result<(), DeviceFault>
    requires reached { E.reaches xlen entries.now }
    requires numbers { first + length entries.now < 2 ^ 64 }
    ensures { PrintsOne (IsJsonListText name.now xlen limit first None (map E.listed entries.now))
        (writing W.contents W.failures W.stalls out.old out.new) result }
{
    let count = printed_word_count(xlen, entries.len(), first, limit);
    print_object(
        name.as_bytes(),
        xlen,
        entries,
        first,
        limit,
        None,
        count,
        out,
    )?;
    Ok(())
}

/// Writes a list as [`print_json`], and after whether it fits the number of entries that are needed without TOR.
///
/// On an `Err` only a beginning of this text was written, and the device failed, or accepted no bytes, in this call.
pub fn print_chained_json<E: ListedEntry, W: Sink>(
    name: &str,
    xlen: Xlen,
    entries: &[E],
    first: u8,
    limit: Limit,
    without_tor: usize,
    out: &mut W,
) -> Result<(), DeviceFault>
    requires reached { E.reaches xlen entries.now }
    requires numbers { first + length entries.now < 2 ^ 64 }
    ensures { PrintsOne (IsJsonListText name.now xlen limit first (Some without_tor)
        (map E.listed entries.now))
        (writing W.contents W.failures W.stalls out.old out.new) result }
{
    let count = printed_word_count(xlen, entries.len(), first, limit);
    print_object(
        name.as_bytes(),
        xlen,
        entries,
        first,
        limit,
        Some(without_tor),
        count,
        out,
    )?;
    Ok(())
}
