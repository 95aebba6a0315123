//! Pages, their numbers, and ranges of pages.

ghost use Rattle.std.specs.Prelude.{◌≡◌, ◌^◌, ◌≤◌};

/// Size of a page in bytes.
pub const PAGE_SIZE: u64 = 4096;

/// Number of pages of the physical address space.
pub const SPACE_PAGES: u64 = 1 << 44;

/// Returns the number of pages of a block of `2 ^ log2` pages. A block is at most the whole space.
pub fn pages_of(log2: u32) -> u64
    requires { log2 ≤ 44 }
    ensures { result ≡ 2 ^ log2 }
{
    1 << log2
}

/// A range of consecutive pages.
#[derive(Clone, Copy, PartialEq, Eq)]
pub struct PageRange {
    /// The number of the first page.
    pub first: u64,
    /// The number of pages.
    pub count: u64,
}

impl PageRange {
    ghost use Rattle.std.specs.Prelude.{◌≡◌, ◌+◌, ◌/◌, ◌≤◌, ◌↔◌, IsTrue};
    ghost use Rattle.pmp_encoding.specs.Views.{in_range};
    ghost use Rattle.pmp_encoding.specs.Ranges.{AreApart};

    /// Returns the pages of `size` bytes from `base` on. Both are rounded down to multiples of the page size.
    pub fn of_bytes(base: u64, size: u64) -> PageRange
        ensures first { result.first ≡ base / 4096 }
        ensures count { result.count ≡ size / 4096 }
    {
        PageRange {
            first: base / PAGE_SIZE,
            count: size / PAGE_SIZE,
        }
    }

    /// Returns whether the range contains the page.
    pub fn has(self, page: u64) -> bool
        ensures { result ≡ in_range self.first self.count page }
    {
        self.first <= page && page - self.first < self.count
    }

    /// Returns whether the range ends at or before the page.
    fn ends_by(self, page: u64) -> bool
        ensures { IsTrue result ↔ (self.first + self.count ≤ page) }
    {
        self.first <= page && self.count <= page - self.first
    }

    /// Returns whether two ranges have no page in common. An empty range is disjoint from every range.
    pub fn is_apart_from(self, other: PageRange) -> bool
        ensures { IsTrue result ↔ AreApart self other }
    {
        if self.count == 0 || other.count == 0 {
            return true;
        }
        self.ends_by(other.first) || other.ends_by(self.first)
    }
}
