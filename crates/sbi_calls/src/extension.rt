//! The extensions offered to the host.

ghost use Rattle.std.specs.Prelude.{◌≡◌};
ghost use Rattle.sbi_calls.specs.Extensions.{extension_of};

/// An extension offered to the host.
#[derive(Clone, Copy)]
pub enum Extension {
    /// Chapter 4, "Base Extension".
    Base,
    /// Chapter 6, "Timer Extension".
    Time,
    /// Chapter 7, "IPI Extension".
    Ipi,
    /// Chapter 8, "RFENCE Extension".
    Rfence,
    /// Chapter 9, "Hart State Management Extension".
    Hsm,
    /// Chapter 10, "System Reset Extension".
    Srst,
    /// "Debug Console Extension", of version 2.0, chapter 12.
    Console,
    /// The monitor's own calls.
    Monitor,
    /// The reason why an enclave stopped.
    Stops,
}

impl Extension {
    /// Returns the extension with this number, which a call passes in a7.
    pub fn of(number: u64) -> Option<Extension>
        ensures { result ≡ extension_of number }
    {
        match number {
            0x10 => Some(Extension::Base),
            0x5449_4d45 => Some(Extension::Time),
            0x0073_5049 => Some(Extension::Ipi),
            0x5246_4e43 => Some(Extension::Rfence),
            0x0048_534d => Some(Extension::Hsm),
            0x5352_5354 => Some(Extension::Srst),
            0x4442_434e => Some(Extension::Console),
            0x0845_4e43 => Some(Extension::Monitor),
            0x0a45_4e43 => Some(Extension::Stops),
            _ => None,
        }
    }
}
