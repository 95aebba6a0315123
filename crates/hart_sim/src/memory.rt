//! The bytes of the physical address space, stored by pages, in spans of adjacent pages. A page that has not been
//! written is not stored and reads as zero.

ghost use Rattle.std.specs.Prelude.{◌≡◌, ℕ, ◌+◌, ◌-◌, ◌*◌, ◌/◌, ◌%◌, ◌^◌, ◌<◌, ◌≤◌, OnOk, OnErr, IfSome, None, Some, false, true, ◌==◌, ◌&&◌, if◌then◌else◌};
ghost use Rattle.hart_sim.specs.Memory.{bytes_at, number_of_bytes, in_range, stored, zeroed, byte_at, is_written};
ghost use Rattle.hart_sim.specs.Groups.{has_span, page_in};

use crate::page_bytes::{clear, copy_page, number_at};
use crate::page_span::{PageSpan, SPAN, span_of};
use measurement::Pages;
use std::alloc::{AllocError, Global};
use std::collections::BTreeMap;

/// Size of a page in bytes.
const PAGE: u64 = 4096;

/// The spans of the written pages, by number.
#[derive(Drop)]
pub struct Memory {
    spans: BTreeMap<u64, Box<PageSpan>>,
}

impl Memory {
    /// Returns memory without written pages.
    pub fn new(alloc: Global) -> Memory
        ensures bytes { (a : ℕ) → byte_at result a ≡ 0 }
        ensures written { (page : ℕ) → is_written result page ≡ false }
    {
        Memory {
            spans: BTreeMap::new(alloc),
        }
    }

    /// Returns the bytes of a page, if it has been written.
    #[inline(always)]
    fn page(&self, page: u64) -> Option<&[u8; 4096]>
        ensures some { IfSome result (λ bytes. page_in self.now page ≡ Some bytes.now) }
        ensures none { result ≡ None → page_in self.now page ≡ None }
    {
        match self.spans.get(&(page / SPAN)) {
            Some(span) => span.page((page % SPAN) as usize),
            None => None,
        }
    }

    /// Returns the byte at an address.
    pub fn byte(&self, address: u64) -> u8
        ensures { result ≡ byte_at self.now address }
    {
        match self.page(address / PAGE) {
            Some(page) => page[(address % PAGE) as usize],
            None => 0,
        }
    }

    /// Returns whether a page has been written and not zeroed since. A store to any other page may allocate.
    pub fn is_written(&self, page: u64) -> bool
        ensures { result ≡ is_written self.now page }
    {
        self.page(page).is_some()
    }

    /// Loads a little-endian number from within one page.
    pub fn load(&self, address: u64, size: usize) -> u64
        requires size { size ≤ 8 }
        requires inside { address % 4096 + size ≤ 4096 }
        ensures { result ≡ number_of_bytes (bytes_at (byte_at self.now) address size) }
    {
        match self.page(address / PAGE) {
            Some(page) => number_at(page, (address % PAGE) as usize, size),
            None => 0,
        }
    }

    /// Stores the lowest bytes of a value at an address, within one page, which then counts as written. Allocates only
    /// for a page that has not been written.
    pub fn store(
        &mut self,
        alloc: Global,
        address: u64,
        size: usize,
        value: u64,
    ) -> Result<(), AllocError>
        requires size { size ≤ 8 }
        requires inside { address % 4096 + size ≤ 4096 }
        ensures bytes { OnOk result
            ((a : ℕ) → byte_at self.new a ≡ stored (byte_at self.old) address size value a) }
        ensures written { OnOk result ((page : ℕ)
            → is_written self.new page ≡
            (if page == address / 4096 then true else is_written self.old page)) }
        ensures kept { OnErr result ((a : ℕ) → byte_at self.new a ≡ byte_at self.old a) }
        ensures kept_written { OnErr result ((page : ℕ)
            → is_written self.new page ≡ is_written self.old page) }
        ensures new_page { OnErr result (is_written self.old (address / 4096) ≡ false) }
    {
        let page = address / PAGE;
        let place = (page % SPAN) as usize;
        let at = (address % PAGE) as usize;
        if let Some(span) = self.spans.get_mut(&(page / SPAN)) {
            return span.store(alloc, place, at, size, value);
        }
        self.store_in_new_span(alloc, address, size, value)
    }

    /// Stores the lowest bytes of a value at an address in a new span. It is a separate function to keep the stack
    /// frame of other stores small.
    #[cold]
    #[inline(never)]
    fn store_in_new_span(
        &mut self,
        alloc: Global,
        address: u64,
        size: usize,
        value: u64,
    ) -> Result<(), AllocError>
        requires size { size ≤ 8 }
        requires inside { address % 4096 + size ≤ 4096 }
        requires new { has_span self.old (address / 4096 / 4096) ≡ false }
        ensures bytes { OnOk result
            ((a : ℕ) → byte_at self.new a ≡ stored (byte_at self.old) address size value a) }
        ensures written { OnOk result ((page : ℕ)
            → is_written self.new page ≡
            (if page == address / 4096 then true else is_written self.old page)) }
        ensures kept { OnErr result ((a : ℕ) → byte_at self.new a ≡ byte_at self.old a) }
        ensures kept_written { OnErr result ((page : ℕ)
            → is_written self.new page ≡ is_written self.old page) }
    {
        let page = address / PAGE;
        let place = (page % SPAN) as usize;
        let at = (address % PAGE) as usize;
        let span = span_of(alloc, place, at, size, value)?;
        self.spans.insert(page / SPAN, span)?;
        Ok(())
    }

    /// Returns the first existing span in `from..end`.
    fn first_span(&self, from: u64, end: u64) -> Option<u64>
        requires { from ≤ end }
        ensures found { IfSome result (λ span.
            (from ≤ span) × (span < end)
            × ((other : ℕ) → from ≤ other → other < span → has_span self.now other ≡ false)) }
        ensures none { result ≡ None → (other : ℕ) → from ≤ other → other < end
            → has_span self.now other ≡ false }
    {
        match self.spans.range(from..end).next() {
            Some((span, _)) => Some(*span),
            None => None,
        }
    }

    /// Zeroes the pages `first..end` of a span, which then count as not written.
    fn forget_in(&mut self, span: u64, first: u64, end: u64)
        requires order { first ≤ end }
        requires inside { span * 4096 < end }
        ensures { (page : ℕ) → page_in self.new page
            ≡ (if (page / 4096 == span) && in_range first (end - first) page then None
            else page_in self.old page) }
    {
        let base = span * SPAN;
        let from = first.saturating_sub(base).min(SPAN) as usize;
        let end = (end - base).min(SPAN) as usize;
        if let Some(span) = self.spans.get_mut(&span) {
            span.forget(from, end);
        }
    }

    /// Zeroes pages, which then count as not written. Visits only existing spans.
    pub fn forget(&mut self, first: u64, count: u64)
        requires { first + count < 2 ^ 64 }
        ensures bytes { (a : ℕ)
            → byte_at self.new a ≡ zeroed (byte_at self.old) first count a }
        ensures written { (page : ℕ)
            → is_written self.new page ≡
            (if in_range first count page then false else is_written self.old page) }
    {
        let end = first + count;
        let mut from = first / SPAN;
        while let Some(span) = self.first_span(from, end.div_ceil(SPAN)) {
            self.forget_in(span, first, end);
            from = span + 1;
        }
    }

    /// Copies the bytes of a page.
    pub fn copy(&self, page: u64, into: &mut [u8; 4096])
        requires { page < 2 ^ 44 }
        ensures { into.new ≡ bytes_at (byte_at self.now) (page * 4096) 4096 }
    {
        match self.page(page) {
            Some(bytes) => copy_page(bytes, into),
            None => clear(into),
        }
    }
}

impl Pages for Memory {
    ghost bytes_of = { λ m page. bytes_at (byte_at m) (page * 4096) 4096 };

    fn copy_page(&self, page: u64, into: &mut [u8; 4096]) {
        self.copy(page, into);
    }
}
