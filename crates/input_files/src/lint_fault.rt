//! Errors of a lint.

/// The reason why a lint did not finish.
#[derive(Clone, Copy, Debug)]
pub enum LintFault {
    /// An allocation failed.
    Memory,
    /// The device failed, or accepted no bytes.
    Device,
}
