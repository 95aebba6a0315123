//! Locates the key or the table of a breach in a platform file. The TOML parser does not report it, so the text is
//! searched again for lines that begin with a bare key or a header. A key in quotes, or in an inline table, is not
//! found.

ghost use Rattle.std.specs.Prelude.{◌≡◌, ◌≤◌, ◌<◌, ◌+◌, ◌-◌, ◌^◌, ◌↔◌, ◌∷◌, length, option_map, true, Some};
ghost use Rattle.std.specs.List.{prefix_len};
ghost use Rattle.text_lines.specs.Lines.{raw_lines};
ghost use Rattle.input_files.specs.KeyPlaces.{rule_word, table_word, word_about, front_len, is_bare, is_header, name_of, opening_tables, sought_by};
ghost use Rattle.input_files.specs.KeyPlaces.{Begins, Follows, IsKept, IsPlaceOf, IsSought, IsThere};

use crate::breach::{Breach, Key, TomlPath};
use platforms::PlatformFault;
use text_lines::{is_blank, len_before};

/// Returns the name of a table, if it has one.
fn table_word(table: TomlPath) -> Option<&'static str>
    ensures { option_map (λ word. word.now) result ≡ table_word table }
{
    match table {
        TomlPath::File => None,
        TomlPath::Monitor => Some("monitor"),
        TomlPath::Ram(_) => Some("ram"),
        TomlPath::Device(_) => Some("device"),
    }
}

/// Returns the key that a broken rule concerns, if there is one.
fn rule_word(fault: PlatformFault) -> Option<&'static str>
    ensures { option_map (λ word. word.now) result ≡ rule_word fault }
{
    match fault {
        PlatformFault::MonitorNotRam => Some("monitor"),
        PlatformFault::BadHarts => Some("harts"),
        PlatformFault::BadEntries => Some("entries"),
        PlatformFault::BadRange | PlatformFault::Overlap | PlatformFault::BadNumber => None,
    }
}

/// Returns the key or the name of the table that a breach concerns.
fn word_about<'a>(breach: &Breach<'a>) -> Option<&'a str>
    ensures { option_map (λ word. word.now) result ≡ word_about breach.now }
{
    match *breach {
        Breach::Unknown(_, key) => Some(key),
        Breach::NoNumber(_, key) | Breach::NoTables(key) => Some(key.name()),
        Breach::NoPerm(_) => Some(Key::Perm.name()),
        Breach::Missing(table, _) | Breach::NoPages(table) | Breach::NoTable(table) => {
            table_word(table)
        }
        Breach::Overlap(one, _) => table_word(one.place),
        Breach::Rule(fault) => rule_word(fault),
    }
}

/// The object of a search: the header of a table, or a key in a table.
#[derive(Clone, Copy)]
pub(crate) enum Sought {
    Header(TomlPath),
    KeyOf(TomlPath),
}

/// Returns the object that a breach concerns.
fn sought_by(breach: &Breach<'_>) -> Sought
    ensures { result ≡ sought_by breach.now }
{
    match *breach {
        Breach::Unknown(table, _) | Breach::NoNumber(table, _) | Breach::NoPerm(table) => {
            Sought::KeyOf(table)
        }
        Breach::Missing(table, _) | Breach::NoPages(table) | Breach::NoTable(table) => {
            Sought::Header(table)
        }
        Breach::Overlap(one, _) => Sought::Header(one.place),
        Breach::NoTables(_) | Breach::Rule(_) => Sought::KeyOf(TomlPath::File),
    }
}

/// The state of the tables at a line of a text.
#[derive(Clone, Copy)]
pub(crate) struct Tables {
    /// The table that contains the line, if it is a table of platforms.
    current: Option<TomlPath>,
    /// The number of ranges of memory so far.
    ram: u64,
    /// The number of devices so far.
    devices: u64,
}

impl Tables {
    /// Returns the state before the first line.
    fn new() -> Tables
        ensures { result ≡ opening_tables }
    {
        Tables {
            current: Some(TomlPath::File),
            ram: 0,
            devices: 0,
        }
    }

    /// Updates the state at the header of a table.
    fn begin(&mut self, name: &[u8])
        requires ram { self.old.ram < 2 ^ 64 - 1 }
        requires devices { self.old.devices < 2 ^ 64 - 1 }
        ensures { Begins name.now self.old self.new }
    {
        self.current = if name == b"monitor".as_slice() {
            Some(TomlPath::Monitor)
        } else if name == b"ram".as_slice() {
            self.ram += 1;
            Some(TomlPath::Ram(self.ram))
        } else if name == b"device".as_slice() {
            self.devices += 1;
            Some(TomlPath::Device(self.devices))
        } else {
            None
        };
    }

    /// Updates the state at a line.
    fn follow(&mut self, line: &[u8])
        requires ram { self.old.ram < 2 ^ 64 - 1 }
        requires devices { self.old.devices < 2 ^ 64 - 1 }
        ensures follows { Follows line.now self.old self.new }
        ensures ram { self.new.ram ≤ self.old.ram + 1 }
        ensures devices { self.new.devices ≤ self.old.devices + 1 }
    {
        if is_header(line) {
            self.begin(name_of(line));
        }
    }

    /// Returns whether a line with the right name matches: a header that begins the table, or a key.
    fn is_there(&self, sought: Sought, is_header: bool) -> bool
        ensures { (result ≡ true) ↔ IsThere sought self.now is_header }
    {
        match (sought, is_header) {
            (Sought::Header(table), true) | (Sought::KeyOf(table), false) => {
                self.current == Some(table)
            }
            (Sought::Header(_), false) => self.current == Some(TomlPath::File),
            (Sought::KeyOf(table), true) => table == TomlPath::File,
        }
    }

    /// Returns whether a line matches.
    fn has(&self, sought: Sought, word: &[u8], line: &[u8]) -> bool
        ensures { (result ≡ true) ↔ IsSought sought word.now self.now line.now }
    {
        name_of(line) == word && self.is_there(sought, is_header(line))
    }
}

/// Returns whether a byte can be part of a bare key of TOML.
fn is_bare(byte: u8) -> bool
    ensures { result ≡ is_bare byte }
{
    byte.is_ascii_alphanumeric() || byte == b'_' || byte == b'-'
}

/// Counts the bytes of the bare key at the front of a text.
fn bare_len(text: &[u8]) -> usize
    ensures within { result ≤ length text.now }
    ensures len { result ≡ prefix_len is_bare text.now }
{
    for (i, byte) in text.iter().enumerate() {
        if !is_bare(*byte) {
            return i;
        }
    }
    text.len()
}

/// Counts the blanks and brackets at the front of a line.
fn front_len(line: &[u8]) -> usize
    ensures within { result ≤ length line.now }
    ensures len { result ≡ front_len line.now }
{
    for (i, byte) in line.iter().enumerate() {
        if !is_blank(*byte) && *byte != b'[' {
            return i;
        }
    }
    line.len()
}

/// Returns whether a bracket is among them, that is, the line is the header of a table.
fn is_header(line: &[u8]) -> bool
    ensures { result ≡ is_header line.now }
{
    line[..front_len(line)].iter().any(|byte| *byte == b'[')
}

/// Returns the name that follows them.
fn name_of(line: &[u8]) -> &[u8]
    ensures { result.now ≡ name_of line.now }
{
    let rest = &line[front_len(line)..];
    &rest[..bare_len(rest)]
}

/// Returns the first line of a text and the rest after its LF: as `split_line` of `text_lines` does, with the sizes of
/// both.
fn first_line(text: &[u8]) -> (&[u8], &[u8])
    requires { 0 < length text.now }
    ensures lines { raw_lines text.now ≡ result.0.now ∷ raw_lines result.1.now }
    ensures shorter { length result.1.now < length text.now }
    ensures length { 0 < length result.1.now
        → length text.now ≡ length result.0.now + 1 + length result.1.now }
{
    let len = len_before(b'\n', text);
    if len == text.len() {
        return (text, &[]);
    }
    (&text[..len], &text[len + 1..])
}

/// Returns the index if the text contains the word there.
fn where_word_is(text: &[u8], at: usize, word: &[u8]) -> Option<usize>
    ensures { IsKept text.now word.now (Some at) result }
{
    if at <= text.len() && word.len() <= text.len() - at && &text[at..at + word.len()] == word {
        return Some(at);
    }
    None
}

/// Returns the index of the object with this name in a text.
fn find(text: &[u8], sought: Sought, word: &[u8]) -> Option<usize>
    ensures { IsPlaceOf text.now sought (Some word.now) result }
{
    let mut tables = Tables::new();
    let mut rest = text;
    while !rest.is_empty() {
        let (line, after) = first_line(rest);
        tables.follow(line);
        if tables.has(sought, word, line) {
            return where_word_is(text, text.len() - rest.len() + front_len(line), word);
        }
        rest = after;
    }
    None
}

/// Returns the index in a text of the object of a breach: the key, or the name in the header of the table, in the first
/// line that matches.
pub(crate) fn place_of(text: &str, breach: &Breach<'_>) -> Option<usize>
    ensures { IsPlaceOf text.now (sought_by breach.now) (word_about breach.now) result }
{
    let word = word_about(breach)?;
    find(text.as_bytes(), sought_by(breach), word.as_bytes())
}

/// Returns the index in a text of the name in the header of a table.
pub(crate) fn header_of(text: &str, table: TomlPath) -> Option<usize>
    ensures { IsPlaceOf text.now (Sought.Header table) (table_word table) result }
{
    let word = table_word(table)?;
    find(text.as_bytes(), Sought::Header(table), word.as_bytes())
}
