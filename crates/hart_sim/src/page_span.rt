//! Spans of adjacent groups of pages, each group allocated when one of its pages is first written.

ghost use Rattle.std.specs.Prelude.{◌≡◌, ◌≢◌, ℕ, ◌+◌, ◌-◌, ◌*◌, ◌/◌, ◌<◌, ◌≤◌, ◌==◌, ◌&&◌, IfOk, IfSome, OnOk, OnErr, None, Some, false, true, if◌then◌else◌, is_some};
ghost use Rattle.pmp_encoding.specs.Registers.{byte_of};
ghost use Rattle.hart_sim.specs.Memory.{in_range};
ghost use Rattle.hart_sim.specs.Groups.{byte_in, has_group, page_on};

use crate::page_group::{GROUP, PageGroup, group_of};
use std::alloc::{AllocError, Global};

/// Number of pages in a span.
pub(crate) const SPAN: u64 = 4096;

/// A group that does not exist.
const NO_GROUP: Option<Box<PageGroup>> = None;

/// 64 adjacent groups of pages, 16 MiB.
#[derive(Drop)]
pub struct PageSpan {
    groups: [Option<Box<PageGroup>>; 64],
}

impl PageSpan {
    /// Returns a span without written pages.
    fn new() -> PageSpan
        ensures { (place : ℕ) → page_on result place ≡ None }
    {
        PageSpan {
            groups: [NO_GROUP; 64],
        }
    }

    /// Returns the bytes of a page, if it has been written.
    #[inline(always)]
    pub(crate) fn page(&self, place: usize) -> Option<&[u8; 4096]>
        requires { place < 4096 }
        ensures some { IfSome result (λ page. page_on self.now place ≡ Some page.now) }
        ensures none { result ≡ None → page_on self.now place ≡ None }
    {
        match &self.groups[place / GROUP] {
            Some(group) => group.page(place % GROUP),
            None => None,
        }
    }

    /// Stores the lowest bytes of a value in a page, which then counts as written. Allocates only for a page that has
    /// not been written.
    pub(crate) fn store(
        &mut self,
        alloc: Global,
        place: usize,
        at: usize,
        size: usize,
        value: u64,
    ) -> Result<(), AllocError>
        requires place { place < 4096 }
        requires size { size ≤ 8 }
        requires inside { at + size ≤ 4096 }
        ensures bytes { OnOk result ((k : ℕ) → byte_in (page_on self.new place) k
            ≡ (if in_range at size k then byte_of value (k - at)
            else byte_in (page_on self.old place) k)) }
        ensures written { OnOk result (is_some (page_on self.new place) ≡ true) }
        ensures others { OnOk result ((other : ℕ) → other ≢ place
            → page_on self.new other ≡ page_on self.old other) }
        ensures kept { OnErr result (self.new ≡ self.old) }
        ensures new_page { OnErr result (page_on self.old place ≡ None) }
    {
        if let Some(group) = &mut self.groups[place / GROUP] {
            return group.store(alloc, place % GROUP, at, size, value);
        }
        self.store_in_new_group(alloc, place, at, size, value)
    }

    /// Stores the lowest bytes of a value in a page of a new group. It is a separate function to keep the stack frame
    /// of other stores small.
    #[cold]
    #[inline(never)]
    fn store_in_new_group(
        &mut self,
        alloc: Global,
        place: usize,
        at: usize,
        size: usize,
        value: u64,
    ) -> Result<(), AllocError>
        requires place { place < 4096 }
        requires size { size ≤ 8 }
        requires inside { at + size ≤ 4096 }
        requires new { has_group self.old (place / 64) ≡ false }
        ensures bytes { OnOk result ((k : ℕ) → byte_in (page_on self.new place) k
            ≡ (if in_range at size k then byte_of value (k - at)
            else byte_in (page_on self.old place) k)) }
        ensures written { OnOk result (is_some (page_on self.new place) ≡ true) }
        ensures others { OnOk result ((other : ℕ) → other ≢ place
            → page_on self.new other ≡ page_on self.old other) }
        ensures kept { OnErr result (self.new ≡ self.old) }
    {
        let group = group_of(alloc, place % GROUP, at, size, value)?;
        self.groups[place / GROUP] = Some(group);
        Ok(())
    }

    /// Zeroes the pages `from..end` of a group, which then count as not written.
    fn forget_in(&mut self, group: usize, from: usize, end: usize)
        requires group { group < 64 }
        requires order { from ≤ end }
        requires inside { group * 64 < end }
        ensures { (place : ℕ) → page_on self.new place
            ≡ (if (place / 64 == group) && in_range from (end - from) place then None
            else page_on self.old place) }
    {
        let base = group * GROUP;
        let first = from.saturating_sub(base).min(GROUP);
        let last = (end - base).min(GROUP);
        if let Some(group) = &mut self.groups[group] {
            group.forget(first, last);
        }
    }

    /// Zeroes the pages `from..end`, which then count as not written.
    pub(crate) fn forget(&mut self, from: usize, end: usize)
        requires order { from ≤ end }
        requires inside { end ≤ 4096 }
        ensures { (place : ℕ) → page_on self.new place
            ≡ (if in_range from (end - from) place then None else page_on self.old place) }
    {
        for group in from / GROUP..end.div_ceil(GROUP) {
            self.forget_in(group, from, end);
        }
    }
}

/// Allocates a span with a value in one of its pages.
pub(crate) fn span_of(
    alloc: Global,
    place: usize,
    at: usize,
    size: usize,
    value: u64,
) -> Result<Box<PageSpan>, AllocError>
    requires place { place < 4096 }
    requires size { size ≤ 8 }
    requires inside { at + size ≤ 4096 }
    ensures bytes { IfOk result (λ span. (k : ℕ) → byte_in (page_on span.value place) k
        ≡ (if in_range at size k then byte_of value (k - at) else 0)) }
    ensures written { IfOk result (λ span. is_some (page_on span.value place) ≡ true) }
    ensures others { IfOk result (λ span. (other : ℕ) → other ≢ place
        → page_on span.value other ≡ None) }
{
    let mut span = Box::new(alloc, PageSpan::new())?;
    span.store(alloc, place, at, size, value)?;
    Ok(span)
}
