//! The entries of a certificate, decoded from their bytes on demand.

ghost use Rattle.std.specs.Prelude.{◌≡◌, ℕ, ◌+◌, ◌*◌, ◌/◌, ◌<◌, ◌≤◌, ◌^◌};
ghost use Rattle.pmp_encoding.specs.declared.region.Entry.{Entry};

use byteorder::{ByteOrder, LittleEndian};
use pmp_encoding::{Perm, SPACE_PAGES};
use std::marker::Model;

/// The number of sizes of a region of at least a page.
pub(crate) const SIZES: usize = 45;

/// The 2^size pages from `first` up to but excluding `end`, with a permission.
#[derive(Clone, Copy)]
pub(crate) struct Span {
    pub(crate) first: u64,
    pub(crate) end: u64,
    pub(crate) size: usize,
    pub(crate) perm: Perm,
}

/// The pages of an entry, from `first` up to but excluding `end`.
#[derive(Clone, Copy)]
pub(crate) struct Bounds {
    pub(crate) first: u64,
    pub(crate) end: u64,
}

/// The entries of a certificate, nine bytes each: a configuration byte and an address. Each has at least a page.
#[derive(Drop)]
pub(crate) struct Entries<'a> {
    pub(crate) bytes: &'a [u8],
}

impl<'a> Model for Entries<'a> {
    ghost use Rattle.std.specs.Prelude.{ℕ, List};
    ghost use Rattle.certificate_check.specs.Spans.{AreEntries};

    ghost Value = { List ℕ };

    ghost view = { λ e. e.bytes.now };

    ghost invariant = { λ e. AreEntries e.bytes.now };
}

ghost use Rattle.pmp_encoding.specs.Encoding.{MeansEntry};
ghost use Rattle.certificate_check.specs.Spans.{AreBoundsOf, IsSpanAt, ReadsAs, count_in};

/// Returns the pages of an entry of at least a page, given its address register: the trailing ones encode the size of
/// the region, and the bits above them its start.
#[inline(always)]
fn bounds_of(address: u64) -> Bounds
    ensures { (cfg : ℕ) (e : Entry) → MeansEntry cfg address e → 12 ≤ e.region.log2
        → AreBoundsOf e result }
{
    let next = address.wrapping_add(1);
    let end = (address | next) / 1024 + 1;
    Bounds {
        first: (address & next) / 1024,
        end: end.min(SPACE_PAGES),
    }
}

impl<'a> Entries<'a> {
    /// Returns the number of entries.
    pub(crate) fn len(&self) -> usize
        ensures { result ≡ count_in self.now }
    {
        self.bytes.len() / 9
    }

    /// Returns the pages of an entry.
    #[inline(always)]
    pub(crate) fn bounds(&self, i: usize) -> Bounds
        requires { i < count_in self.now }
        ensures some { result.first < result.end }
        ensures inside { result.end ≤ 2 ^ 44 }
        ensures first { (s : Span) → IsSpanAt self.now i s → result.first ≡ s.first }
        ensures end { (s : Span) → IsSpanAt self.now i s → result.end ≡ s.end }
    {
        let bytes = self.bytes;
        let at = 9 * i;
        bounds_of(LittleEndian::read_u64(&bytes[at + 1..]))
    }

    /// Returns the pages of an entry, with its permission.
    pub(crate) fn span(&self, i: usize) -> Span
        requires { i < count_in self.now }
        ensures some { result.first < result.end }
        ensures inside { result.end ≤ 2 ^ 44 }
        ensures small { result.size < 45 }
        ensures value { (spans : ℕ → Span) → ReadsAs self.now spans → result ≡ spans i }
    {
        let bytes = self.bytes;
        let Some(perm) = Perm::from_bits(bytes[9 * i] % 8) else {
            unreachable!();
        };
        let Bounds { first, end } = self.bounds(i);
        Span {
            first,
            end,
            size: (end - first).trailing_zeros() as usize,
            perm,
        }
    }
}
