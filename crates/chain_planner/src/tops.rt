//! Entries of mode TOR, top of range.

use pmp_encoding::Perm;

/// A TOR entry: its address register, and the permission of the addresses that it matches.
#[derive(Clone, Copy, PartialEq, Eq)]
pub struct Top {
    pub address: u64,
    pub perm: Perm,
}
