//! Reasons why a source was not read to its end.

/// The reason why a source was not read to its end.
#[derive(Clone, Copy, Debug)]
pub enum SourceFault {
    /// The source has more bytes than are allowed.
    TooLarge,
    /// The source failed.
    Read,
    /// An allocation for the result failed.
    Memory,
}
