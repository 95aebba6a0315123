//! The parameters of an enclave's creation.

ghost use Rattle.std.specs.Prelude.{◌≡◌, ℕ, ◌+◌, ◌*◌, ◌/◌, ◌%◌, ◌^◌, ◌<◌, ◌≤◌, ◌↔◌, IsTrue, true, false};
ghost use Rattle.pmp_encoding.specs.Views.{in_range};
ghost use Rattle.measurement.specs.Digests.{layout_of};
ghost use Rattle.measurement.specs.Requests.{parts_of, is_private, is_shared, is_part, ArePartsApart, HasCounts, HasPlaces, HasEntry};

use crate::Layout;
use pmp_encoding::{PAGE_SIZE, PageRange, SPACE_SIZE};

/// Maximum number of pages of text and data, and of shared pages.
const MOST_PRIVATE: u64 = 1024;

const MOST_SHARED: u64 = 256;

/// The parameters of an enclave's creation: the location of its pages, and its entry point.
#[derive(Clone, Copy, PartialEq, Eq)]
pub struct Create {
    /// The address of the first page of text; the data follows the text.
    pub base: u64,
    /// The number of pages of text (code).
    pub text_pages: u64,
    /// The number of pages of data after the text.
    pub data_pages: u64,
    /// The address of the first page shared with the host.
    pub shared_base: u64,
    /// The number of pages shared with the host.
    pub shared_count: u64,
    /// The entry point, in bytes from the base.
    pub entry_offset: u64,
}

/// Returns whether `count` pages from an address on are page-aligned and end in the space.
fn is_placed(base: u64, count: u64) -> bool
    requires { count ≤ 1024 }
    ensures { IsTrue result
        ↔ ((base % 4096 ≡ 0) × (base + count * 4096 ≤ 2 ^ 56)) }
{
    base % PAGE_SIZE == 0 && base <= SPACE_SIZE - count * PAGE_SIZE
}

impl Create {
    /// Returns the request in the form that is stored for an enclave: without shared pages the shared base is 0.
    pub fn normalized(self) -> Create
        ensures { result ≡ parts_of self }
    {
        let mut parts = self;
        if self.shared_count == 0 {
            parts.shared_base = 0;
        }
        parts
    }

    /// Returns whether there is some text, and there are not too many pages.
    pub fn has_counts(&self) -> bool
        ensures { IsTrue result ↔ HasCounts self.now }
    {
        self.text_pages > 0
            && self.text_pages <= MOST_PRIVATE
            && self.data_pages <= MOST_PRIVATE - self.text_pages
            && self.shared_count <= MOST_SHARED
    }

    /// Returns whether both ranges are page-aligned and end in the space.
    pub fn has_places(&self) -> bool
        requires { HasCounts self.now }
        ensures { IsTrue result ↔ HasPlaces self.now }
    {
        is_placed(self.base, self.text_pages + self.data_pages)
            && is_placed(self.shared_base, self.shared_count)
    }

    /// Returns whether the entry point is even and in the text.
    pub fn has_entry(&self) -> bool
        requires { HasCounts self.now }
        ensures { IsTrue result ↔ HasEntry self.now }
    {
        self.entry_offset % 2 == 0 && self.entry_offset < self.text_pages * PAGE_SIZE
    }

    /// Returns the measured layout.
    pub fn layout(&self) -> Layout
        ensures { result ≡ layout_of self.now }
    {
        Layout {
            text_pages: self.text_pages,
            data_pages: self.data_pages,
            shared_count: self.shared_count,
            entry_offset: self.entry_offset,
        }
    }

    /// Returns the pages of text and data.
    pub fn private_pages(&self) -> PageRange
        requires { HasCounts self.now }
        ensures value { result ≡ record {
          first = self.now.base / 4096;
          count = self.now.text_pages + self.now.data_pages;
        } }
        ensures fits { result.first + result.count < 2 ^ 64 }
        ensures inside { HasPlaces self.now → result.first + result.count ≤ 2 ^ 44 }
    {
        PageRange {
            first: self.base / PAGE_SIZE,
            count: self.text_pages + self.data_pages,
        }
    }

    /// Returns the pages shared with the host.
    pub fn shared_pages(&self) -> PageRange
        requires { HasCounts self.now }
        ensures value { result ≡ record {
          first = self.now.shared_base / 4096;
          count =
              self.now.shared_count;
        } }
        ensures fits { result.first + result.count < 2 ^ 64 }
    {
        PageRange {
            first: self.shared_base / PAGE_SIZE,
            count: self.shared_count,
        }
    }

    /// Returns whether no page is both private and shared.
    pub fn is_apart(&self) -> bool
        requires { HasCounts self.now }
        ensures { IsTrue result
            ↔ ((page : ℕ) → is_private self.now page ≡ true → is_shared self.now page ≡ false) }
    {
        self.private_pages().is_apart_from(self.shared_pages())
    }

    /// Returns whether it has no page in common with the given pages.
    pub fn is_clear_of(&self, pages: PageRange) -> bool
        requires counts { HasCounts self.now }
        requires fits { pages.first + pages.count < 2 ^ 64 }
        ensures { IsTrue result
            ↔ ((page : ℕ) → is_part self.now page ≡ true
            → in_range pages.first pages.count page ≡ true → ⊥) }
    {
        self.private_pages().is_apart_from(pages) && self.shared_pages().is_apart_from(pages)
    }

    /// Returns whether it has no page in common with another enclave.
    pub fn is_apart_from(&self, other: &Create) -> bool
        requires counts { HasCounts self.now }
        requires other_counts { HasCounts other.now }
        ensures { IsTrue result ↔ ArePartsApart self.now other.now }
    {
        self.is_clear_of(other.private_pages()) && self.is_clear_of(other.shared_pages())
    }
}
