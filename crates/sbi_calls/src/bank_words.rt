//! The PMP registers of a hart in the firmware's layout.

/// The PMP registers of a hart, for 64 entries; a hart with fewer uses the first.
#[repr(C)]
#[derive(Clone, Copy)]
pub struct BankWords {
    /// pmpcfg0, pmpcfg2, .. pmpcfg14.
    pub cfg: [u64; 8],
    /// pmpaddr0 to pmpaddr63.
    pub addr: [u64; 64],
}
