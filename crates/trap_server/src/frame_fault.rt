//! Reasons why a frame cannot be read or written.

use thiserror::Error;

/// The reason why a frame cannot be read or written.
#[derive(Clone, Copy, Debug, PartialEq, Eq, Error)]
pub enum FrameFault {
    /// The source failed.
    #[error("cannot read")]
    Read,
    /// The sink failed, or accepted none of the bytes of a write.
    #[error("cannot write")]
    Write,
    /// The frame has another tag or an invalid number, or the input ends within it.
    #[error("not understood")]
    NotUnderstood,
}
