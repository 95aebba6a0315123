//! The changes of a chain's permission.

use pmp_encoding::Perm;

/// From this page on a chain has the permission.
#[derive(Clone, Copy)]
pub struct Turn {
    pub page: u64,
    pub perm: Perm,
}
