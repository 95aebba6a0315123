//! The choices with which a split block is filled.

use crate::six::Six;
use pmp_encoding::Perm;

/// The cheapest ways to fill a split block, one for each permission at its edges. A choice below 48 is eight times the place
/// of the permission just below the middle, and the place of that just above.
#[derive(Clone, Copy)]
pub struct Choices {
    /// Without a chain: 0 for the entries of the halves, 1 for one of the block under them.
    pub own: Six<u8>,
    /// With a chain that passes: 48 is an entry of the block.
    pub through: Six<Six<u8>>,
    /// With a chain that begins: 48 is an entry of the block, 49 a beginning in the upper half.
    pub begins: Six<u8>,
    /// The best permission of an entry of the block.
    pub cover: Perm,
}
