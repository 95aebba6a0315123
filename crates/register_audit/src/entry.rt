//! The entry of a region.

/// The pair that the line of a region sets, with the number of its entry.
#[derive(Clone, Copy)]
pub struct RegionEntry {
    /// The number of the entry, below 64.
    pub place: usize,
    /// Its configuration byte.
    pub cfg: u8,
    /// Its address register.
    pub address: u64,
}
