//! The calling hart.

/// The values that a host can query about its own hart.
#[repr(C)]
#[derive(Clone, Copy)]
pub struct Caller {
    /// The number of the hart.
    pub hart: u64,
    /// The register `mvendorid`.
    pub vendor: u64,
    /// The register `marchid`.
    pub architecture: u64,
    /// The register `mimpid`.
    pub implementation: u64,
    /// The cause with which an enclave last stopped on the hart.
    pub stop_cause: u64,
    /// The value of that trap (`mtval`).
    pub stop_value: u64,
}
