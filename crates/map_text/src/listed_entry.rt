//! The entries of a printed list.

ghost use Rattle.std.specs.Prelude.{◌≡◌, List};
ghost use Rattle.pmp_encoding.specs.declared.xlen.Xlen.{Xlen};
ghost use Rattle.map_text.specs.declared.listed_entry.ChainedEntry.{ChainedEntry};
ghost use Rattle.map_text.specs.ListedEntries.{address_in, cfg_in};

use pmp_encoding::{Entry, PackedEntry, Perm};

/// An entry of a list that may end in a chain of TOR entries. It contains all that its line shows, so no line depends
/// on another entry.
#[derive(Clone, Copy, PartialEq, Eq)]
pub enum ChainedEntry {
    /// An NA4 or NAPOT entry.
    Block(Entry),
    /// An OFF entry, with the address at which the chain begins.
    Off(u64),
    /// A TOR entry, which matches the addresses from `begin` up to but excluding `end`.
    Tor { begin: u64, end: u64, perm: Perm },
}

/// An entry that can be printed.
pub trait ListedEntry {
    /// The entry, as one of a list that may end in a chain.
    ghost listed: { Self → ChainedEntry };

    /// The address registers can express all of these entries.
    ghost reaches: { Xlen → List Self → Type 0 };

    /// Returns the configuration byte and the address register.
    fn registers(&self) -> (u8, u64)
        ensures cfg { result.0 ≡ cfg_in (listed self.now) }
        ensures address { result.1 ≡ address_in (listed self.now) };

    /// Returns the entry, as one of a list that may end in a chain.
    fn listed(&self) -> ChainedEntry
        ensures { result ≡ listed self.now };
}

impl ListedEntry for PackedEntry {
    ghost use Rattle.pmp_encoding.specs.Widths.{AreReached};
    ghost use Rattle.map_text.specs.declared.listed_entry.ChainedEntry.TheVariants.{Block};

    ghost listed = { λ e. Block e };

    ghost reaches = { AreReached };

    #[inline(always)]
    fn registers(&self) -> (u8, u64) {
        self.encode()
    }

    fn listed(&self) -> ChainedEntry {
        ChainedEntry::Block(self.entry())
    }
}

impl ListedEntry for ChainedEntry {
    ghost use Rattle.map_text.specs.ListedEntries.{AreWithin};

    ghost listed = { λ e. e };

    ghost reaches = { AreWithin };

    fn registers(&self) -> (u8, u64) {
        match self {
            ChainedEntry::Block(entry) => entry.encode(),
            ChainedEntry::Off(begin) => (0, begin / 4),
            ChainedEntry::Tor {
                begin: _,
                end,
                perm,
            } => (8 + perm.bits(), end / 4),
        }
    }

    fn listed(&self) -> ChainedEntry {
        *self
    }
}
