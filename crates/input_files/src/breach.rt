//! Breaches of the rules on platform files, with their places.

ghost use Rattle.std.specs.Prelude.{◌≡◌};
ghost use Rattle.input_files.specs.Breaches.{key_name};

use platforms::PlatformFault;

/// A key of a platform file.
#[derive(Clone, Copy)]
pub enum Key {
    /// The range of the monitor.
    Monitor,
    /// The ranges of memory.
    Ram,
    /// The devices.
    Device,
    /// The number of harts.
    Harts,
    /// The number of PMP entries of each hart.
    Entries,
    /// The start of a range, in bytes.
    Base,
    /// The size of a range, in bytes.
    Size,
    /// The host's permission for a device.
    Perm,
}

impl Key {
    /// Returns the key as it is written.
    pub fn name(self) -> &'static str
        ensures { result.now ≡ key_name self }
    {
        match self {
            Key::Monitor => "monitor",
            Key::Ram => "ram",
            Key::Device => "device",
            Key::Harts => "harts",
            Key::Entries => "entries",
            Key::Base => "base",
            Key::Size => "size",
            Key::Perm => "perm",
        }
    }
}

/// A table of a platform file.
#[derive(Clone, Copy, PartialEq, Eq)]
pub enum TomlPath {
    /// The top level of the file.
    File,
    /// The table of the monitor's range.
    Monitor,
    /// The table of a range of memory, counted from 1.
    Ram(u64),
    /// The table of a device, counted from 1.
    Device(u64),
}

/// A range of memory or of a device: its table, and its base and its size, in bytes.
#[derive(Clone, Copy)]
pub struct PlacedRange {
    pub place: TomlPath,
    pub bounds: (u64, u64),
}

/// A breach of the rules on platform files.
#[derive(Clone, Copy)]
pub enum Breach<'a> {
    /// The table may not have this key.
    Unknown(TomlPath, &'a str),
    /// The table needs this key.
    Missing(TomlPath, Key),
    /// The value of the key is not a whole number from 0.
    NoNumber(TomlPath, Key),
    /// The range does not consist of whole pages, at least one, below 2^56.
    NoPages(TomlPath),
    /// The permission of a device is not one of the six.
    NoPerm(TomlPath),
    /// The value at this place is not a table.
    NoTable(TomlPath),
    /// The value of the key is not an array of tables.
    NoTables(Key),
    /// The first of these ranges has a page in common with the second, which precedes it.
    Overlap(PlacedRange, PlacedRange),
    /// The ranges and numbers break this rule on platforms.
    Rule(PlatformFault),
}
