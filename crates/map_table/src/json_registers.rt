//! The rows of JSON.

ghost use Rattle.std.specs.Prelude.{◌≡◌, ◌+◌, ◌++◌, ◌≤◌, ◌<◌, ◌^◌, length};
ghost use Rattle.map_table.specs.JsonTexts.{json_before, json_byte, json_first, json_fits, json_hart, json_limit, json_range, json_region, json_registers, json_width, json_without_tor};

use crate::names::{entry_at, power_of_two};
use crate::register_rows::{Row, Rows};
use map_text::{ChainedEntry, ListedEntry, push_register, room_from, word_from};
use pmp_encoding::{Limit, Perm, Xlen};
use text_lines::{Line, push_decimal, push_hex, push_text};

/// Returns the limit.
fn limit_text<'a>(limit: Limit) -> &'a [u8]
    ensures text { result.now ≡ json_limit limit }
    ensures most { length result.now ≤ 20 }
{
    match limit {
        Limit::Sixteen => b"\",\n  \"limit\": 16,\n",
        Limit::SixtyFour => b"\",\n  \"limit\": 64,\n",
    }
}

/// Appends the number of the first entry, if it is not 0.
fn push_first(line: &mut Line, first: u8)
    requires { length line.old + 33 ≤ 128 }
    ensures items { line.new ≡ line.old ++ json_first first }
    ensures len { length line.new ≤ length line.old + 33 }
{
    if first > 0 {
        push_text(line, b"  \"first\": ");
        push_decimal(line, u64::from(first));
        push_text(line, b",\n");
    }
}

/// Returns the width, unless it is that of RV64.
fn width_text<'a>(xlen: Xlen) -> &'a [u8]
    ensures text { result.now ≡ json_width xlen }
    ensures most { length result.now ≤ 16 }
{
    match xlen {
        Xlen::Rv32 => b"  \"xlen\": 32,\n",
        Xlen::Rv64 => b"",
    }
}

/// Returns the line that says whether the hart has room for that many entries, beginning at the first.
fn fits_text<'a>(count: usize, limit: Limit, first: u8) -> &'a [u8]
    ensures text { result.now ≡ json_fits count limit first }
    ensures most { length result.now ≤ 17 }
{
    if count <= room_from(first, limit) {
        b"  \"fits\": true,\n"
    } else {
        b"  \"fits\": false,\n"
    }
}

/// Returns the limit, the width, the first entry and whether that many entries fit.
pub(crate) fn hart(xlen: Xlen, limit: Limit, first: u8, count: usize) -> Line
    ensures { result ≡ json_hart xlen limit first count }
{
    let mut line = Line::new();
    push_text(&mut line, limit_text(limit));
    push_text(&mut line, width_text(xlen));
    push_first(&mut line, first);
    push_text(&mut line, fits_text(count, limit, first));
    line
}

/// Returns the number of entries without TOR, if it is given.
pub(crate) fn without_tor(count: Option<usize>) -> Line
    ensures { result ≡ json_without_tor count }
{
    let mut line = Line::new();
    if let Some(count) = count {
        push_text(&mut line, b"  \"without_tor\": ");
        push_decimal(&mut line, count as u64);
        push_text(&mut line, b",\n");
    }
    line
}

/// Returns a byte of a name, escaped if necessary.
fn json_byte(byte: u8) -> Line
    ensures { result ≡ json_byte byte }
{
    let mut line = Line::new();
    if byte == b'"' {
        push_text(&mut line, b"\\\"");
        return line;
    }
    if byte == b'\\' {
        push_text(&mut line, b"\\\\");
        return line;
    }
    if byte < 32 {
        push_text(&mut line, b"\\u");
        push_hex(&mut line, u64::from(byte), 4);
        return line;
    }
    line.push(byte);
    line
}

/// Returns the text before an item of a list.
fn json_before(i: usize) -> &'static [u8]
    ensures text { result.now ≡ json_before i }
    ensures most { length result.now ≤ 2 }
{
    if i == 0 { b"\n" } else { b",\n" }
}

/// A row for each byte of a name.
#[derive(Drop)]
pub(crate) struct Name<'a> {
    pub(crate) bytes: &'a [u8],
}

impl Rows for Name<'_> {
    ghost use Rattle.std.specs.Prelude.{◌≡◌, length};
    ghost use Rattle.map_table.specs.JsonTexts.{json_name_row};

    ghost row_text = { λ rows. json_name_row rows.bytes.now };

    ghost most = { λ rows. length rows.bytes.now };

    fn row(&self, i: usize) -> Row {
        Row {
            front: json_byte(self.bytes[i]),
            back: Line::new(),
        }
    }
}

/// A row for each entry.
#[derive(Drop)]
pub(crate) struct Entries<'a, E> {
    pub(crate) xlen: Xlen,
    pub(crate) entries: &'a [E],
    pub(crate) first: u8,
}

/// Returns the members with the registers of the list's entry i.
fn registers_of(xlen: Xlen, first: u8, i: usize, entry: &ChainedEntry) -> Line
    requires { first + i < 2 ^ 64 }
    ensures { result ≡ json_registers xlen first i entry.now }
{
    let (cfg, address) = entry.registers();
    let mut line = Line::new();
    push_text(&mut line, json_before(i));
    push_text(&mut line, b"    {\"index\": ");
    push_decimal(&mut line, u64::from(first) + i as u64);
    push_text(&mut line, b", \"cfg\": ");
    push_decimal(&mut line, u64::from(cfg));
    push_text(&mut line, b", \"addr\": \"0x");
    push_register(&mut line, xlen, address);
    line
}

/// Returns the members with the lowest address of a range, its size in bytes and its permission.
fn range_of(base: u64, size: u64, perm: Perm) -> Line
    ensures { result ≡ json_range base size perm }
{
    let mut line = Line::new();
    push_text(&mut line, b"\", \"base\": \"0x");
    push_hex(&mut line, base, 16);
    push_text(&mut line, b"\", \"size\": ");
    push_decimal(&mut line, size);
    push_text(&mut line, b", \"perm\": \"");
    push_text(&mut line, perm.word().as_bytes());
    push_text(&mut line, b"\"}");
    line
}

/// Returns the members with the range of an entry.
fn region_of(entry: &ChainedEntry) -> Line
    ensures { result ≡ json_region entry.now }
{
    match entry {
        ChainedEntry::Block(entry) => range_of(
            entry.region.base(),
            power_of_two(entry.region.log2()),
            entry.perm,
        ),
        ChainedEntry::Off(begin) => range_of(*begin, 0, Perm::NoAccess),
        ChainedEntry::Tor { begin, end, perm } => {
            range_of(*begin, end.saturating_sub(*begin), *perm)
        }
    }
}

impl<E: ListedEntry> Rows for Entries<'_, E> {
    ghost use Rattle.std.specs.Prelude.{◌^◌, ◌-◌, map};
    ghost use Rattle.map_table.specs.JsonTexts.{json_entry_row};

    ghost row_text = { λ rows. json_entry_row rows.xlen rows.first (map E.listed rows.entries.now) };

    ghost most = { λ rows. 2 ^ 64 - rows.first };

    fn row(&self, i: usize) -> Row {
        match entry_at(self.entries, i) {
            Some(entry) => Row {
                front: registers_of(self.xlen, self.first, i, &entry),
                back: region_of(&entry),
            },
            None => Row {
                front: Line::new(),
                back: Line::new(),
            },
        }
    }
}

/// A row for each configuration word.
#[derive(Drop)]
pub(crate) struct Words<'a, E> {
    pub(crate) xlen: Xlen,
    pub(crate) entries: &'a [E],
    pub(crate) first: u8,
}

impl<E: ListedEntry> Rows for Words<'_, E> {
    ghost use Rattle.std.specs.Prelude.{map};
    ghost use Rattle.map_table.specs.JsonTexts.{json_word_row};

    ghost row_text = { λ rows. json_word_row rows.xlen rows.first (map E.listed rows.entries.now) };

    ghost most = { λ rows. 64 };

    fn row(&self, i: usize) -> Row {
        let mut front = Line::new();
        push_text(&mut front, json_before(i));
        push_text(&mut front, b"    \"0x");
        push_register(
            &mut front,
            self.xlen,
            word_from(self.xlen, self.entries, self.first, i),
        );
        push_text(&mut front, b"\"");
        Row {
            front,
            back: Line::new(),
        }
    }
}
