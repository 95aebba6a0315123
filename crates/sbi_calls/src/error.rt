//! The errors of SBI.

ghost use Rattle.std.specs.Prelude.{◌≡◌};
ghost use Rattle.sbi_calls.specs.Errors.{error_word};

/// The SBI errors that are used here (SBI, chapter 3, "Standard SBI Errors").
#[derive(Clone, Copy, Debug, PartialEq, Eq)]
pub enum SbiError {
    /// The extension or function does not exist or is not implemented.
    NotSupported,
    /// A parameter is invalid.
    InvalidParam,
    /// The host may not execute at the address.
    InvalidAddress,
    /// The hart is already started.
    AlreadyAvailable,
}

impl SbiError {
    /// Returns the error as the word in a0, a negative number of 64 bits.
    pub fn word(self) -> u64
        ensures { result ≡ error_word self }
    {
        match self {
            SbiError::NotSupported => 0xffff_ffff_ffff_fffe,
            SbiError::InvalidParam => 0xffff_ffff_ffff_fffd,
            SbiError::InvalidAddress => 0xffff_ffff_ffff_fffb,
            SbiError::AlreadyAvailable => 0xffff_ffff_ffff_fffa,
        }
    }
}
