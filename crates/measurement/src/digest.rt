//! Measures an enclave's private pages.

ghost use Rattle.std.specs.Prelude.{◌≡◌, ℕ, ◌+◌, ◌<◌, ◌≤◌, ◌==◌, ◌^◌, List, true};
ghost use Rattle.std.specs.List.{list_all};
ghost use Rattle.measurement.specs.Measured.{digest_of};
ghost use Rattle.measurement.specs.Requests.{HasCounts, HasPlaces};
ghost use Rattle.measurement.specs.Digests.{blank_page, layout_of, measured, pages_from};
ghost use Rattle.measurement.specs.declared.request.Create.{Create};

use crate::request::Create;
use crate::{Layout, Measure};

/// A provider of the bytes of pages.
pub trait Pages {
    /// The bytes of each page, by its number.
    ghost bytes_of: { Self → ℕ → List ℕ };

    /// Copies the 4096 bytes of a page, by its number below 2^44.
    fn copy_page(&self, page: u64, into: &mut [u8; 4096])
        requires { page < 2 ^ 44 }
        ensures { into.new ≡ bytes_of self.now page };
}

/// Returns whether every byte of a page is zero. All bytes are tested without an early exit, so that many can be tested
/// at once.
fn is_blank(page: &[u8; 4096]) -> bool
    ensures { result ≡ list_all (λ b. b == 0) page.now }
{
    let mut all = true;
    for b in page {
        all = all & (*b == 0);
    }
    all
}

/// Returns whether the `count` pages from `first` on contain only zeros.
fn are_blank<P: Pages>(pages: &P, first: u64, count: u64) -> bool
    requires { first + count ≤ 2 ^ 44 }
    ensures { result ≡ true → (i : ℕ) → i < count
        → P.bytes_of pages.now (first + i) ≡ blank_page }
{
    let mut bytes = [0; 4096];
    for i in 0..count {
        pages.copy_page(first + i, &mut bytes);
        if !is_blank(&bytes) {
            return false;
        }
    }
    true
}

/// The digest of a layout with pages of zeros only. Most enclaves consist of pages that were never written, and many
/// share a layout.
#[derive(Drop)]
pub struct BlankDigest {
    layout: Layout,
    digest: [u8; 32],
    ghost taken: { digest ≡ digest_of layout (pages_from
        (λ page. blank_page) 0 (layout.text_pages + layout.data_pages)) },
}

/// Returns the digest of an enclave with these parts, over the current contents of its private pages.
fn taken<P: Pages>(pages: &P, parts: &Create) -> [u8; 32]
    requires counts { HasCounts parts.now }
    requires places { HasPlaces parts.now }
    ensures { result ≡ measured (P.bytes_of pages.now) parts.now }
{
    let layout = parts.layout();
    let range = parts.private_pages();
    let mut measure = Measure::begin(&layout);
    let mut bytes = [0; 4096];
    for i in 0..range.count {
        pages.copy_page(range.first + i, &mut bytes);
        measure.page(&bytes);
    }
    measure.finish()
}

/// Returns the digest of an enclave with these parts, over the current contents of its private pages. For blank pages
/// it reuses `last` if that has the same layout, and otherwise replaces `last`.
pub fn enclave_digest<P: Pages>(
    last: &mut Option<BlankDigest>,
    pages: &P,
    parts: &Create,
) -> [u8; 32]
    requires counts { HasCounts parts.now }
    requires places { HasPlaces parts.now }
    ensures { result ≡ measured (P.bytes_of pages.now) parts.now }
{
    let range = parts.private_pages();
    if !are_blank(pages, range.first, range.count) {
        return taken(pages, parts);
    }
    let layout = parts.layout();
    if let Some(blank) = last {
        if blank.layout == layout {
            return blank.digest;
        }
    }
    let digest = taken(pages, parts);
    *last = Some(BlankDigest { layout, digest });
    digest
}

/// Supplies the digest of the enclave being created.
pub trait Digests {
    /// The digest of an enclave with these parts.
    ghost digest_of: { Self → Create → List ℕ };

    /// Returns the digest of an enclave with these parts. Keeps the last digest of blank pages in `last` for the next
    /// call.
    fn digest(&self, last: &mut Option<BlankDigest>, parts: &Create) -> [u8; 32]
        requires counts { HasCounts parts.now }
        requires places { HasPlaces parts.now }
        ensures { result ≡ digest_of self.now parts.now };
}

/// Measures the private pages at the time of the call.
#[derive(Drop)]
pub struct MeasuresPages<'a, P> {
    /// The provider of the bytes of the pages.
    pub pages: &'a P,
}

impl<P: Pages> Digests for MeasuresPages<'_, P> {
    ghost digest_of = { λ m. measured (P.bytes_of m.pages.now) };

    fn digest(&self, last: &mut Option<BlankDigest>, parts: &Create) -> [u8; 32] {
        enclave_digest(last, self.pages, parts)
    }
}

/// A digest taken earlier, or zeros as a placeholder if the enclave gets its digest after its creation.
#[derive(Drop)]
pub struct TakenDigest {
    /// The bytes of the digest.
    pub bytes: [u8; 32],
}

impl Digests for TakenDigest {
    ghost digest_of = { λ taken parts. taken.bytes };

    fn digest(&self, _last: &mut Option<BlankDigest>, _parts: &Create) -> [u8; 32] {
        self.bytes
    }
}
