//! The argument registers of a call.

/// The argument registers of a call (SBI, chapter 3, "Binary Encoding"): a0 to a7, which are x10 to x17.
#[repr(C)]
#[derive(Clone, Copy)]
pub struct HostCall {
    pub a0: u64,
    pub a1: u64,
    pub a2: u64,
    pub a3: u64,
    pub a4: u64,
    pub a5: u64,
    /// The number of the function, in a6.
    pub function: u64,
    /// The number of the extension, in a7.
    pub extension: u64,
}
