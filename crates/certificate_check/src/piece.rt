//! Consecutive pages with one permission, as a sweep visits them.

use pmp_encoding::Perm;

/// The permission of the pages from the current one up to but excluding `end`.
#[derive(Clone, Copy)]
pub(crate) struct Piece {
    pub(crate) end: u64,
    pub(crate) perm: Perm,
}
