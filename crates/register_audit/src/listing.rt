//! Reads a listing of registers line by line.

ghost use Rattle.std.specs.Prelude.{◌≡◌, ◌-◌, ◌^◌, ◌<◌, ◌≤◌, IfErr, IfOk, Some, length};
ghost use Rattle.std.specs.Option.{is_some};
ghost use Rattle.register_audit.specs.Lines.{raw_sets};
ghost use Rattle.register_audit.specs.RegisterListings.{IsFirstUnknown, IsFirstUnknownBy, has_all, is_whole, listed, listed_by, sets_alone, sets_in};
ghost use Rattle.text_lines.specs.Lines.{raw_lines};

use crate::is_boot_log;
use crate::log::log_listing;
use crate::register_lines::line_sets;
use crate::setting::nothing_set;
use pmp_encoding::Xlen;
use pmp_match::Registers;
use text_lines::{AT_ONCE, LineReader, next_line};

/// The result of reading the lines of a listing.
#[derive(Clone, Copy)]
pub struct Listing {
    /// The PMP registers. Those that no line sets are zero.
    pub registers: Registers,
    /// `mseccfg`, the register of Smepmp, or zero if no line sets it.
    pub mseccfg: u64,
    /// The number, from 1, of the first line that was ignored because it is about another register.
    pub passed: Option<u64>,
    /// The number of entries that are listed as pairs, if a line states it.
    pub entries: Option<u64>,
    /// The number of lines that set the pair of an entry.
    pub pairs: u64,
    /// The entry of the last pair.
    pub last: Option<u64>,
    /// The number of the hart, if a line states it.
    pub hart: Option<u64>,
    /// True if OpenOCD's heading was read.
    pub is_headed: bool,
    /// The number of the hart's entries, if a line of a boot log states it.
    pub limit: Option<u64>,
    /// True if a line is about PMP.
    pub is_set: bool,
}

impl Listing {
    /// Returns whether the listing is complete: some line is about PMP, and the number of pairs is the stated one.
    fn is_whole(&self) -> bool
        ensures { result ≡ is_whole self.now }
    {
        self.is_set && has_all(self.entries, self.pairs)
    }
}

/// Returns whether the number of pairs is the stated one.
fn has_all(entries: Option<u64>, pairs: u64) -> bool
    ensures { result ≡ has_all entries pairs }
{
    match entries {
        Some(n) => pairs == n,
        None => true,
    }
}

/// The result of reading lines, and their number.
#[derive(Clone, Copy)]
pub(crate) struct Left {
    /// The result.
    pub listing: Listing,
    /// The number of lines.
    pub lines: u64,
}

/// Reads the lines of a listing of registers.
fn register_listing(xlen: Xlen, bytes: &[u8]) -> Result<Left, u64>
    requires { length bytes.now < 2 ^ 64 - 1 }
    ensures listing { IfOk result (λ left.
        listed_by xlen (sets_alone xlen) bytes.now ≡ Some left.listing) }
    ensures lines { IfOk result (λ left. left.lines ≡ length (raw_lines bytes.now)) }
    ensures few { IfOk result (λ left. left.lines ≤ length bytes.now) }
    ensures unknown { IfErr result (IsFirstUnknownBy xlen (sets_alone xlen) bytes.now) }
{
    let mut listing = nothing_set(xlen);
    let mut lines = LineReader::<AT_ONCE>::with_limit(u64::MAX);
    let mut rest = bytes;
    let mut count = 0;
    while next_line(&mut lines, &mut rest)? {
        let number = lines.number();
        let Ok(setting) = line_sets(xlen, lines.line()) else {
            return Err(number);
        };
        if !setting.agrees(&listing) {
            return Err(number);
        }
        listing = setting.of(&listing, number);
        count = number;
    }
    Ok(Left {
        listing,
        lines: count,
    })
}

/// Reads the lines of a listing, each in the context of the lines before it.
fn lines_leave(xlen: Xlen, bytes: &[u8]) -> Result<Left, u64>
    requires { length bytes.now < 2 ^ 64 - 1 }
    ensures listing { IfOk result (λ left.
        listed_by xlen (sets_in xlen bytes.now) bytes.now ≡ Some left.listing) }
    ensures lines { IfOk result (λ left. left.lines ≡ length (raw_lines bytes.now)) }
    ensures few { IfOk result (λ left. left.lines ≤ length bytes.now) }
    ensures unknown { IfErr result (IsFirstUnknownBy xlen (sets_in xlen bytes.now) bytes.now) }
{
    if is_boot_log(bytes) {
        log_listing(xlen, bytes)
    } else {
        register_listing(xlen, bytes)
    }
}

/// Reads a listing of registers with this width, or returns the number of the first invalid line. In a boot log only
/// the lines about regions are read.
pub fn listing_of(xlen: Xlen, bytes: &[u8]) -> Result<Listing, u64>
    requires { length bytes.now < 2 ^ 64 - 1 }
    ensures listing { IfOk result (λ listing. listed xlen bytes.now ≡ Some listing) }
    ensures unknown { IfErr result (IsFirstUnknown xlen bytes.now) }
{
    let left = lines_leave(xlen, bytes)?;
    if left.listing.is_whole() {
        Ok(left.listing)
    } else {
        Err(left.lines + 1)
    }
}

/// Returns whether each line of a listing of registers with this width is valid.
pub fn is_listing(xlen: Xlen, bytes: &[u8]) -> bool
    requires { length bytes.now < 2 ^ 64 - 1 }
    ensures { result ≡ is_some (listed xlen bytes.now) }
{
    match listing_of(xlen, bytes) {
        Ok(_) => true,
        Err(_) => false,
    }
}
