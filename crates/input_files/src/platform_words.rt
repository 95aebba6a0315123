//! Words of the line on a breach.

use crate::breach::{Breach, PlacedRange, TomlPath};
use platforms::PlatformFault;
use std::alloc::AllocError;
use text_lines::{push, push_address, push_number};

/// The rule on a range.
const PAGES: &str =
    "base and size are multiples of 4096, size is above 0, and the end is at most 2^56";

/// The rule on a permission.
const PERMS: &str =
    "perm is no permission; write \"none\", \"r\", \"rw\", \"x\", \"rx\" or \"rwx\"";

/// The rule on the arrays of memory and devices.
const ARRAY: &str = " is no array of tables; write its name in double brackets";

/// Appends a name and a number, such as `ram 1: `.
fn push_numbered(text: &mut Vec<u8>, name: &str, number: u64) -> Result<(), AllocError> {
    push(text, name)?;
    push_number(text, number)?;
    push(text, ": ")
}

/// Appends the name of a table, or nothing for the top level.
pub(crate) fn push_table(text: &mut Vec<u8>, place: TomlPath) -> Result<(), AllocError> {
    match place {
        TomlPath::File => Ok(()),
        TomlPath::Monitor => push(text, "monitor: "),
        TomlPath::Ram(n) => push_numbered(text, "ram ", n),
        TomlPath::Device(n) => push_numbered(text, "device ", n),
    }
}

/// Returns the text after an unknown key of a table: the list of its keys.
fn keys_text(place: TomlPath) -> &'static str {
    match place {
        TomlPath::File => "'; the keys are monitor, ram, device, harts and entries",
        TomlPath::Monitor | TomlPath::Ram(_) => "'; the keys are base and size",
        TomlPath::Device(_) => "'; the keys are base, size and perm",
    }
}

/// Returns the message for a value that is not a table.
fn table_text(place: TomlPath) -> &'static str {
    match place {
        TomlPath::File | TomlPath::Monitor | TomlPath::Ram(_) =>
            "this is no table of base and size",
        TomlPath::Device(_) => "this is no table of base, size and perm",
    }
}

/// Returns the message for a broken rule on platforms.
fn rule_text(fault: PlatformFault) -> &'static str {
    match fault {
        PlatformFault::BadRange => "a range is not of whole pages below 2^56",
        PlatformFault::Overlap => "two of the ranges of memory and devices have a page in common",
        PlatformFault::MonitorNotRam => "a page of the monitor is not in a range of memory",
        PlatformFault::BadNumber =>
            "there are at most 32 ranges of memory, at least one, and at most 32 devices",
        PlatformFault::BadHarts => "harts is 1, 2, 3 or 4",
        PlatformFault::BadEntries => "entries is 16 or 64",
    }
}

/// Appends the name of a table and a message.
fn push_said(text: &mut Vec<u8>, place: TomlPath, said: &str) -> Result<(), AllocError> {
    push_table(text, place)?;
    push(text, said)
}

/// Appends the name of a table and a message about one of its keys.
fn push_about(
    text: &mut Vec<u8>,
    place: TomlPath,
    before: &str,
    key: &str,
    after: &str,
) -> Result<(), AllocError> {
    push_table(text, place)?;
    push(text, before)?;
    push(text, key)?;
    push(text, after)
}

/// Appends a range: its table, its base and its size.
fn push_range(text: &mut Vec<u8>, range: PlacedRange) -> Result<(), AllocError> {
    push_table(text, range.place)?;
    push(text, "base ")?;
    push_address(text, range.bounds.0)?;
    push(text, ", size ")?;
    push_address(text, range.bounds.1)
}

/// Appends that a range has a page in common with another.
fn push_overlap(
    text: &mut Vec<u8>,
    one: PlacedRange,
    other: PlacedRange,
) -> Result<(), AllocError> {
    push_range(text, one)?;
    push(text, " has a page in common with ")?;
    push_range(text, other)
}

/// Appends the message for a breach.
pub(crate) fn push_breach(text: &mut Vec<u8>, breach: Breach<'_>) -> Result<(), AllocError> {
    match breach {
        Breach::Unknown(place, key) => {
            push_about(text, place, "unknown key '", key, keys_text(place))
        }
        Breach::Missing(place, key) => push_about(
            text,
            place,
            "the key ",
            key.name(),
            " is missing",
        ),
        Breach::NoNumber(place, key) => push_about(
            text,
            place,
            "the value of ",
            key.name(),
            " is no whole number from 0",
        ),
        Breach::NoPages(place) => push_said(text, place, PAGES),
        Breach::NoPerm(place) => push_said(text, place, PERMS),
        Breach::NoTable(place) => push_said(text, place, table_text(place)),
        Breach::NoTables(key) => push_about(text, TomlPath::File, "", key.name(), ARRAY),
        Breach::Overlap(one, other) => push_overlap(text, one, other),
        Breach::Rule(fault) => push(text, rule_text(fault)),
    }
}
