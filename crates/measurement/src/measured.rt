//! The measured layout of an enclave.

/// The part of an enclave's measurement other than the bytes of its private pages. The base address is not measured:
/// the same contents at another address have the same digest.
#[derive(Clone, Copy, PartialEq, Eq)]
pub struct Layout {
    /// The number of pages of text (code).
    pub text_pages: u64,
    /// The number of pages of data after the text.
    pub data_pages: u64,
    /// The number of pages shared with the host.
    pub shared_count: u64,
    /// The entry point, in bytes from the base.
    pub entry_offset: u64,
}
