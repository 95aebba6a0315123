//! The pages of a board's ranges.

ghost use Rattle.std.specs.Prelude.{◌≡◌, ◌+◌, ◌^◌, ◌<◌, ◌≤◌, ℕ, IfOk};
ghost use Rattle.pmp_encoding.specs.Views.{in_range};
ghost use Rattle.device_tree.specs.declared.rows.Extent.{Extent};
ghost use Rattle.board_texts.specs.Pages.{all_pages, has_all_of, has_byte_of, inner, outer, page_from, page_of, pages_of, range_of, span};

use device_tree::{Extent, Found, Kind};
use pmp_encoding::{PAGE_SIZE, PageRange, SPACE_PAGES};
use std::alloc::{AllocError, Global};

/// Returns the page of a byte, at most the end of the space.
fn page_of(byte: u64) -> u64
    ensures { result ≡ page_of byte }
{
    (byte / PAGE_SIZE).min(SPACE_PAGES)
}

/// Returns the first page that does not begin before the byte, at most the end of the space.
fn page_from(byte: u64) -> u64
    ensures { result ≡ page_from byte }
{
    let page = byte / PAGE_SIZE;
    if byte % PAGE_SIZE == 0 {
        return page.min(SPACE_PAGES);
    }
    (page + 1).min(SPACE_PAGES)
}

/// Returns the first page after the extent.
fn page_behind(extent: Extent) -> u64
    ensures { result ≡ page_from (extent.base + extent.size) }
{
    match extent.base.checked_add(extent.size) {
        Some(end) => page_from(end),
        None => SPACE_PAGES,
    }
}

/// Returns the page that contains the end of the extent, or begins there.
fn page_within(extent: Extent) -> u64
    ensures { result ≡ page_of (extent.base + extent.size) }
{
    match extent.base.checked_add(extent.size) {
        Some(end) => page_of(end),
        None => SPACE_PAGES,
    }
}

/// Returns the pages from `first` up to `end`.
fn span(first: u64, end: u64) -> PageRange
    requires begins { first ≤ 2 ^ 44 }
    requires ends { end ≤ 2 ^ 44 }
    ensures value { result ≡ span first end }
    ensures inside { result.first + result.count ≤ 2 ^ 44 }
{
    PageRange {
        first,
        count: end.saturating_sub(first),
    }
}

/// Returns the pages that contain a byte of the extent.
pub(crate) fn outer(extent: Extent) -> PageRange
    ensures value { result ≡ outer extent }
    ensures inside { result.first + result.count ≤ 2 ^ 44 }
{
    if extent.size == 0 {
        return span(0, 0);
    }
    span(page_of(extent.base), page_behind(extent))
}

/// Returns the pages that lie entirely in the extent.
fn inner(extent: Extent) -> PageRange
    ensures value { result ≡ inner extent }
    ensures inside { result.first + result.count ≤ 2 ^ 44 }
{
    span(page_from(extent.base), page_within(extent))
}

/// Returns the pages of a range: whole pages for memory, and every page with a byte of the range for other kinds.
pub(crate) fn pages_of<'a>(found: &Found<'a>) -> PageRange
    ensures value { result ≡ pages_of (range_of found.now) }
    ensures inside { result.first + result.count ≤ 2 ^ 44 }
{
    match found.kind {
        Kind::Memory => inner(found.extent),
        Kind::Device => outer(found.extent),
        Kind::Machine => outer(found.extent),
        Kind::Reserved => outer(found.extent),
        Kind::Hart => span(0, 0),
        Kind::Untranslated => span(0, 0),
    }
}

/// Returns the pages of each range, in their order.
pub(crate) fn all_pages<'a>(
    alloc: Global,
    found: &[Found<'a>],
) -> Result<Vec<PageRange>, AllocError>
    ensures { IfOk result (λ pages. pages.items ≡ all_pages found.now) }
{
    let mut pages = Vec::new(alloc);
    for one in found {
        pages.push(pages_of(one))?;
    }
    Ok(pages)
}

/// `outer` contains exactly the pages with a byte of the extent, and `inner` exactly the pages that lie entirely in it.
pub fn pages_law()
    ensures outer { (extent : Extent) (page : ℕ) → page < 2 ^ 44
        → in_range (outer extent).first (outer extent).count page ≡ has_byte_of extent page }
    ensures inner { (extent : Extent) (page : ℕ) → page < 2 ^ 44
        → in_range (inner extent).first (inner extent).count page ≡ has_all_of extent page }
{}
