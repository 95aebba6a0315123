//! Groups of adjacent pages, each allocated when it is first written.

ghost use Rattle.std.specs.Prelude.{◌≡◌, ◌≢◌, ℕ, ◌+◌, ◌-◌, ◌<◌, ◌≤◌, IfOk, IfSome, OnOk, OnErr, None, Some, true, if◌then◌else◌, is_some};
ghost use Rattle.pmp_encoding.specs.Registers.{byte_of};
ghost use Rattle.hart_sim.specs.Memory.{in_range};
ghost use Rattle.hart_sim.specs.Groups.{byte_in, page_at};

use crate::page_bytes::{page_of, put};
use std::alloc::{AllocError, Global};

/// Number of pages in a group.
pub(crate) const GROUP: usize = 64;

/// A page that has not been written.
const NO_PAGE: Option<Box<[u8; 4096]>> = None;

/// 64 adjacent pages, 256 KiB. A page that has not been written is not stored and reads as zero.
#[derive(Drop)]
pub struct PageGroup {
    pages: [Option<Box<[u8; 4096]>>; GROUP],
}

impl PageGroup {
    /// Returns a group without written pages.
    fn new() -> PageGroup
        ensures { (place : ℕ) → page_at result place ≡ None }
    {
        PageGroup {
            pages: [NO_PAGE; GROUP],
        }
    }

    /// Returns the bytes of a page, if it has been written.
    #[inline(always)]
    pub(crate) fn page(&self, place: usize) -> Option<&[u8; 4096]>
        requires { place < 64 }
        ensures some { IfSome result (λ page. page_at self.now place ≡ Some page.now) }
        ensures none { result ≡ None → page_at self.now place ≡ None }
    {
        match &self.pages[place] {
            Some(page) => Some(page),
            None => None,
        }
    }

    /// Stores the lowest bytes of a value in a page, which then counts as written. Allocates only for a page that has
    /// not been written.
    pub(crate) fn store(
        &mut self,
        alloc: Global,
        place: usize,
        at: usize,
        size: usize,
        value: u64,
    ) -> Result<(), AllocError>
        requires place { place < 64 }
        requires size { size ≤ 8 }
        requires inside { at + size ≤ 4096 }
        ensures bytes { OnOk result ((k : ℕ) → byte_in (page_at self.new place) k
            ≡ (if in_range at size k then byte_of value (k - at)
            else byte_in (page_at self.old place) k)) }
        ensures written { OnOk result (is_some (page_at self.new place) ≡ true) }
        ensures others { OnOk result ((other : ℕ) → other ≢ place
            → page_at self.new other ≡ page_at self.old other) }
        ensures kept { OnErr result (self.new ≡ self.old) }
        ensures new_page { OnErr result (page_at self.old place ≡ None) }
    {
        if let Some(page) = &mut self.pages[place] {
            put(page, at, size, value);
            return Ok(());
        }
        self.store_in_new_page(alloc, place, at, size, value)
    }

    /// Stores the lowest bytes of a value in a new page. It is a separate function to keep the stack frame of other
    /// stores small.
    #[cold]
    #[inline(never)]
    fn store_in_new_page(
        &mut self,
        alloc: Global,
        place: usize,
        at: usize,
        size: usize,
        value: u64,
    ) -> Result<(), AllocError>
        requires place { place < 64 }
        requires size { size ≤ 8 }
        requires inside { at + size ≤ 4096 }
        requires new { page_at self.old place ≡ None }
        ensures bytes { OnOk result ((k : ℕ) → byte_in (page_at self.new place) k
            ≡ (if in_range at size k then byte_of value (k - at)
            else byte_in (page_at self.old place) k)) }
        ensures written { OnOk result (is_some (page_at self.new place) ≡ true) }
        ensures others { OnOk result ((other : ℕ) → other ≢ place
            → page_at self.new other ≡ page_at self.old other) }
        ensures kept { OnErr result (self.new ≡ self.old) }
    {
        let page = page_of(alloc, at, size, value)?;
        self.pages[place] = Some(page);
        Ok(())
    }

    /// Zeroes the pages `from..end`, which then count as not written.
    pub(crate) fn forget(&mut self, from: usize, end: usize)
        requires order { from ≤ end }
        requires inside { end ≤ 64 }
        ensures { (place : ℕ) → page_at self.new place
            ≡ (if in_range from (end - from) place then None else page_at self.old place) }
    {
        for place in from..end {
            self.pages[place] = None;
        }
    }
}

/// Allocates a group with a value in one of its pages.
pub(crate) fn group_of(
    alloc: Global,
    place: usize,
    at: usize,
    size: usize,
    value: u64,
) -> Result<Box<PageGroup>, AllocError>
    requires place { place < 64 }
    requires size { size ≤ 8 }
    requires inside { at + size ≤ 4096 }
    ensures bytes { IfOk result (λ group. (k : ℕ) → byte_in (page_at group.value place) k
        ≡ (if in_range at size k then byte_of value (k - at) else 0)) }
    ensures written { IfOk result (λ group. is_some (page_at group.value place) ≡ true) }
    ensures others { IfOk result (λ group. (other : ℕ) → other ≢ place
        → page_at group.value other ≡ None) }
{
    let mut group = Box::new(alloc, PageGroup::new())?;
    group.store(alloc, place, at, size, value)?;
    Ok(group)
}
