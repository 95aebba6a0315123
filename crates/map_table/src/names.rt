//! Human-readable entries.

ghost use Rattle.std.specs.Prelude.{◌≡◌, ◌≤◌, ◌<◌, ◌+◌, ◌^◌, ◌++◌, map, option_map, slice_get, length};
ghost use Rattle.map_table.specs.Names.{address_or_zero, array_link, address_text, begin_text, entry_note, entry_or_off, note_text, place_text, prefix_of, range_text, region_text, size_and_perm_text};

use map_text::{ChainedEntry, ListedEntry, push_size};
use pmp_encoding::{Entry, Perm};
use text_lines::{Line, push_decimal, push_hex, push_text};

/// Returns a power of two.
pub(crate) fn power_of_two(log2: u32) -> u64
    requires { log2 ≤ 56 }
    ensures { result ≡ 2 ^ log2 }
{
    1 << log2
}

/// Appends an address in hexadecimal.
fn push_address(line: &mut Line, address: u64)
    requires { length line.old + 18 ≤ 128 }
    ensures items { line.new ≡ line.old ++ address_text address }
    ensures len { length line.new ≡ length line.old + 18 }
{
    push_text(line, b"0x");
    push_hex(line, address, 16);
}

/// Appends the size and the permission of an entry.
fn push_size_and_perm(line: &mut Line, entry: &Entry)
    requires { length line.old + 30 ≤ 128 }
    ensures items { line.new ≡ line.old ++ size_and_perm_text entry.now }
    ensures len { length line.new ≤ length line.old + 30 }
{
    push_size(line, power_of_two(entry.region.log2()));
    push_text(line, b", ");
    push_text(line, entry.perm.word().as_bytes());
}

/// Appends the start of an entry's region, its size and its permission.
fn push_region(line: &mut Line, entry: &Entry)
    requires { length line.old + 50 ≤ 128 }
    ensures items { line.new ≡ line.old ++ region_text entry.now }
    ensures len { length line.new ≤ length line.old + 50 }
{
    push_address(line, entry.region.base());
    push_text(line, b", ");
    push_size_and_perm(line, entry);
}

/// Appends the address at which a chain begins.
fn push_begin(line: &mut Line, begin: u64)
    requires { length line.old + 50 ≤ 128 }
    ensures items { line.new ≡ line.old ++ begin_text begin }
    ensures len { length line.new ≤ length line.old + 50 }
{
    push_text(line, b"the chain begins at ");
    push_address(line, begin);
}

/// Appends the first and the last address of a range, and its permission.
fn push_range(line: &mut Line, begin: u64, end: u64, perm: Perm)
    requires { length line.old + 50 ≤ 128 }
    ensures items { line.new ≡ line.old ++ range_text begin end perm }
    ensures len { length line.new ≤ length line.old + 50 }
{
    push_address(line, begin);
    push_text(line, b" to ");
    push_address(line, end.saturating_sub(1));
    push_text(line, b", ");
    push_text(line, perm.word().as_bytes());
}

/// Appends the addresses that an entry matches, and their permission.
fn push_entry_note(line: &mut Line, entry: &ChainedEntry)
    requires { length line.old + 50 ≤ 128 }
    ensures items { line.new ≡ line.old ++ entry_note entry.now }
    ensures len { length line.new ≤ length line.old + 50 }
{
    match entry {
        ChainedEntry::Block(entry) => push_region(line, entry),
        ChainedEntry::Off(begin) => push_begin(line, *begin),
        ChainedEntry::Tor { begin, end, perm } => push_range(line, *begin, *end, *perm),
    }
}

/// Appends the note on an entry, or `off` if the entry is missing.
fn push_entry_or_off(line: &mut Line, entry: Option<ChainedEntry>)
    requires { length line.old + 50 ≤ 128 }
    ensures items { line.new ≡ line.old ++ entry_or_off entry }
    ensures len { length line.new ≤ length line.old + 50 }
{
    match entry {
        Some(entry) => push_entry_note(line, &entry),
        None => push_text(line, b"off"),
    }
}

/// Appends the note beside the registers of entry i.
pub(crate) fn push_note(line: &mut Line, i: u64, entry: Option<ChainedEntry>)
    requires { length line.old + 72 ≤ 128 }
    ensures items { line.new ≡ line.old ++ note_text i entry }
    ensures len { length line.new ≤ length line.old + 72 }
{
    push_decimal(line, i);
    push_text(line, b": ");
    push_entry_or_off(line, entry);
}

/// Appends the note for entry i of a hart, where those below the first are unchanged.
pub(crate) fn push_place(line: &mut Line, first: u8, i: u64, entry: Option<ChainedEntry>)
    requires { length line.old + 72 ≤ 128 }
    ensures items { line.new ≡ line.old ++ place_text first i entry }
    ensures len { length line.new ≤ length line.old + 72 }
{
    if i < u64::from(first) {
        push_decimal(line, i);
        push_text(line, b": left as it is");
    } else {
        push_note(line, i, entry);
    }
}

/// Returns the address register of an entry, or zero if it is missing.
pub(crate) fn address_or_zero(entry: Option<ChainedEntry>) -> u64
    ensures { result ≡ address_or_zero entry }
{
    match entry {
        Some(entry) => entry.registers().1,
        None => 0,
    }
}

/// Returns the i-th entry, if there is one.
pub(crate) fn entry_at<E: ListedEntry>(entries: &[E], i: usize) -> Option<ChainedEntry>
    ensures { result ≡ slice_get (map E.listed entries.now) i }
{
    match entries.get(i) {
        Some(entry) => Some(entry.listed()),
        None => None,
    }
}

/// Returns the prefix of the names in C: the given name, otherwise `pmp`.
pub(crate) fn prefix_of<'a>(name: Option<&'a str>) -> &'a [u8]
    ensures { result.now ≡ prefix_of (option_map (λ s. s.now) name.entry) }
{
    match name {
        Some(name) => name.as_bytes(),
        None => b"pmp",
    }
}

/// Returns the middle part of the names of the arrays.
pub(crate) fn array_link<'a>(name: Option<&str>) -> &'a [u8]
    ensures { result.now ≡ array_link (option_map (λ s. s.now) name.entry) }
{
    match name {
        Some(_) => b"_pmp",
        None => b"",
    }
}
