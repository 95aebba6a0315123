//! The parameters of an enclave's creation, and its measurement: SHA-256 (FIPS 180-4) over its layout and the bytes of
//! its private pages.
//!
//! - A [`Create`] contains the six numbers of a request. Its methods check the number of pages, their location in the
//!   space, the entry point in the text, and the absence of pages in common with others.
//! - A [`Measure`] that begins with a layout and takes pages one by one returns the digest of that layout and those
//!   pages.
//! - [`Digests`] supplies the digest when an enclave is created: [`MeasuresPages`] measures the pages that [`Pages`]
//!   copies, and a [`TakenDigest`] was taken earlier or is a placeholder. If all pages are zero, the digest may be
//!   reused from the last enclave with such pages, which a [`BlankDigest`] stores.
//!
//! Nothing here allocates.
//!
//! ```
//! let mut measure = Measure::begin(&layout);
//! measure.page(&first_page);
//! measure.page(&second_page);
//! let digest = measure.finish();
//! let first_word = word(&digest, 0);
//! ```
#![tactic(auto)]

mod digest;
mod measure;
mod measured;
mod request;

pub use digest::{BlankDigest, Digests, MeasuresPages, Pages, TakenDigest, enclave_digest};
pub use measure::{Measure, word};
pub use measured::Layout;
pub use request::Create;
