//! The setting of a line of a listing, and its effect on the listing.

ghost use Rattle.std.specs.Prelude.{◌≡◌, ◌<◌, ◌≤◌, ◌+◌, ◌-◌, ◌^◌};
ghost use Rattle.pmp_encoding.specs.Widths.{word_entries};
ghost use Rattle.register_audit.specs.Lines.{IsInside};
ghost use Rattle.register_audit.specs.RegisterListings.{agrees, count_by, first_of, hart_by, headed_by, is_next, is_of_pmp, is_same_hart, is_within, last_by, limit_by, nothing_set, pairs_by, passed_by, registers_by, security_by, set_by, set_bytes};

use crate::listing::Listing;
use pmp_encoding::Xlen;
use pmp_match::{Registers, Security};

/// The setting of a line. Entry numbers are below 64.
#[derive(Clone, Copy, Debug, PartialEq, Eq)]
pub enum Setting {
    /// A line without words.
    Nothing,
    /// The number of entries that are listed as pairs.
    Count {
        /// The number.
        entries: u64,
    },
    /// Another register, which is ignored.
    Other,
    /// `mhartid`, the number of the hart, which is ignored.
    Hart {
        /// The number.
        number: u64,
    },
    /// The heading of OpenOCD above the registers of a hart, which is ignored.
    Heading,
    /// The number of the hart's entries, from a boot log.
    Limit {
        /// The number.
        entries: u64,
    },
    /// `mseccfg`, the register of Smepmp.
    Security {
        /// Its value.
        value: u64,
    },
    /// The pair of an entry.
    Pair {
        /// The number of the entry.
        place: usize,
        /// Its configuration byte.
        cfg: u8,
        /// Its address register.
        address: u64,
    },
    /// An address register.
    Address {
        /// The number of the entry.
        place: usize,
        /// Its value.
        value: u64,
    },
    /// A configuration word: the bytes of four entries on RV32, and of eight on RV64.
    Word {
        /// The number of the first entry.
        place: usize,
        /// Its value, the lowest byte first.
        value: u64,
    },
}

/// Returns the listing before the first line.
pub(crate) fn nothing_set(xlen: Xlen) -> Listing
    ensures { result ≡ nothing_set xlen }
{
    Listing {
        registers: Registers {
            xlen,
            security: Security::of(0),
            cfgs: [0; 64],
            addresses: [0; 64],
        },
        mseccfg: 0,
        passed: None,
        entries: None,
        pairs: 0,
        last: None,
        hart: None,
        is_headed: false,
        limit: None,
        is_set: false,
    }
}

/// Returns the first ignored line, given that line n is ignored.
fn first_of(passed: Option<u64>, n: u64) -> Option<u64>
    ensures { result ≡ first_of passed n }
{
    match passed {
        Some(first) => Some(first),
        None => Some(n),
    }
}

/// Returns the bytes with `count` bytes of a word stored from an index on, the lowest first.
fn with_word(cfgs: [u8; 64], place: usize, count: usize, value: u64) -> [u8; 64]
    requires { place + count ≤ 64 }
    ensures { result ≡ set_bytes place count value cfgs }
{
    let mut bytes = cfgs;
    let mut rest = value;
    for i in place..place + count {
        bytes[i] = (rest % 256) as u8;
        rest /= 256;
    }
    bytes
}

/// Returns whether an entry is the first or the next of a counted list, or the list is not counted.
fn is_next(entries: Option<u64>, last: Option<u64>, place: u64) -> bool
    ensures { result ≡ is_next entries last place }
{
    match (entries, last) {
        (Some(_), Some(last)) => place > last && place - last == 1,
        _ => true,
    }
}

/// Returns whether a hart with this number of entries has the entry.
fn is_within(limit: Option<u64>, place: u64) -> bool
    ensures { result ≡ is_within limit place }
{
    match limit {
        Some(entries) => place < entries,
        None => true,
    }
}

/// Returns whether no other hart was named before.
fn is_same_hart(hart: Option<u64>, number: u64) -> bool
    ensures { result ≡ is_same_hart hart number }
{
    match hart {
        Some(first) => first == number,
        None => true,
    }
}

impl Setting {
    /// Returns the PMP registers after the setting.
    fn registers(self, registers: &Registers) -> Registers
        requires { IsInside registers.now.xlen self }
        ensures { result ≡ registers_by registers.now self }
    {
        let mut registers = *registers;
        match self {
            Setting::Nothing
            | Setting::Count { .. }
            | Setting::Other
            | Setting::Hart { .. }
            | Setting::Heading
            | Setting::Limit { .. } => {}
            Setting::Security { value } => registers.security = Security::of(value),
            Setting::Pair {
                place,
                cfg,
                address,
            } => {
                registers.cfgs[place] = cfg;
                registers.addresses[place] = address;
            }
            Setting::Address { place, value } => registers.addresses[place] = value,
            Setting::Word { place, value } => {
                let count = usize::from(registers.xlen.word_entries());
                registers.cfgs = with_word(registers.cfgs, place, count, value);
            }
        }
        registers
    }

    /// Returns `mseccfg` after the setting.
    fn security(self, mseccfg: u64) -> u64
        ensures { result ≡ security_by mseccfg self }
    {
        match self {
            Setting::Security { value } => value,
            _ => mseccfg,
        }
    }

    /// Returns the first ignored line after the setting, which is that of line n.
    fn passed(self, passed: Option<u64>, n: u64) -> Option<u64>
        ensures { result ≡ passed_by passed n self }
    {
        match self {
            Setting::Other | Setting::Hart { .. } | Setting::Heading => first_of(passed, n),
            _ => passed,
        }
    }

    /// Returns the stated number of pairs after the setting.
    fn count(self, entries: Option<u64>) -> Option<u64>
        ensures { result ≡ count_by entries self }
    {
        match self {
            Setting::Count { entries } => Some(entries),
            _ => entries,
        }
    }

    /// Returns the number of pairs after the setting.
    fn pairs(self, pairs: u64) -> u64
        requires { pairs < 2 ^ 64 - 1 }
        ensures { result ≡ pairs_by pairs self }
    {
        match self {
            Setting::Pair { .. } => pairs + 1,
            _ => pairs,
        }
    }

    /// Returns whether the setting is about PMP.
    fn is_of_pmp(self) -> bool
        ensures { result ≡ is_of_pmp self }
    {
        !matches!(
            self,
            Setting::Nothing
                | Setting::Other
                | Setting::Hart { .. }
                | Setting::Heading
                | Setting::Limit { .. }
        )
    }

    /// Returns the entry of the last pair after the setting.
    fn last(self, last: Option<u64>) -> Option<u64>
        ensures { result ≡ last_by last self }
    {
        match self {
            Setting::Pair { place, .. } => Some(place as u64),
            _ => last,
        }
    }

    /// Returns the hart's number after the setting.
    fn hart(self, hart: Option<u64>) -> Option<u64>
        ensures { result ≡ hart_by hart self }
    {
        match self {
            Setting::Hart { number } => Some(number),
            _ => hart,
        }
    }

    /// Returns whether a heading was read, after the setting.
    fn is_headed(self, is_headed: bool) -> bool
        ensures { result ≡ headed_by is_headed self }
    {
        match self {
            Setting::Heading => true,
            _ => is_headed,
        }
    }

    /// Returns the number of the hart's entries after the setting.
    fn limit(self, limit: Option<u64>) -> Option<u64>
        ensures { result ≡ limit_by limit self }
    {
        match self {
            Setting::Limit { entries } => Some(entries),
            _ => limit,
        }
    }

    /// Returns whether the setting agrees with the lines before it.
    pub(crate) fn agrees(self, listing: &Listing) -> bool
        ensures { result ≡ agrees listing.now self }
    {
        match self {
            Setting::Count { .. } => listing.pairs == 0,
            Setting::Pair { place, .. } => {
                is_next(listing.entries, listing.last, place as u64)
                    && is_within(listing.limit, place as u64)
            }
            Setting::Hart { number } => is_same_hart(listing.hart, number),
            Setting::Heading => !listing.is_headed,
            Setting::Limit { entries } => entries > 0 && listing.pairs <= entries,
            _ => true,
        }
    }

    /// Returns the listing after the setting of line n.
    pub(crate) fn of(self, listing: &Listing, n: u64) -> Listing
        requires inside { IsInside listing.now.registers.xlen self }
        requires few { listing.now.pairs < 2 ^ 64 - 1 }
        ensures { result ≡ set_by listing.now n self }
    {
        Listing {
            registers: self.registers(&listing.registers),
            mseccfg: self.security(listing.mseccfg),
            passed: self.passed(listing.passed, n),
            entries: self.count(listing.entries),
            pairs: self.pairs(listing.pairs),
            last: self.last(listing.last),
            hart: self.hart(listing.hart),
            is_headed: self.is_headed(listing.is_headed),
            limit: self.limit(listing.limit),
            is_set: listing.is_set || self.is_of_pmp(),
        }
    }
}
