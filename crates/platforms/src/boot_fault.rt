//! Reasons why a platform cannot be booted.

ghost use Rattle.std.specs.Prelude.{◌≡◌};
ghost use Rattle.platforms.specs.BootFaults.{boot_fault_number};

/// The reason why a platform cannot be booted.
#[derive(Clone, Copy, Debug)]
pub enum BootFault {
    /// The host's view needs this many entries, more than a hart has.
    NeedsMoreEntries(u64),
    /// An allocation failed.
    Memory,
}

impl BootFault {
    /// Returns the number, 1 or 2.
    pub fn number(self) -> u8
        ensures { result ≡ boot_fault_number self }
    {
        match self {
            BootFault::NeedsMoreEntries(_) => 1,
            BootFault::Memory => 2,
        }
    }
}
