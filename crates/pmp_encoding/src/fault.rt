//! Reasons why a register pair is not accepted or a CSR cannot be written.

/// Why a register pair is not accepted, or why a CSR cannot be written. If a pair has several faults, the one with the
/// lowest number is reported. (RISC-V Privileged Architecture, Physical Memory Protection)
#[derive(Clone, Copy, PartialEq, Eq, Debug)]
pub enum EncodingFault {
    /// W without R.
    ReservedPerm = 1,
    /// The mode TOR, which this library does not support.
    Tor = 2,
    /// The lock bit L, which this library does not support.
    Locked = 3,
    /// A nonzero bit of 6:5 of the configuration byte.
    ReservedBits = 4,
    /// A nonzero bit of 63:54 of the address register.
    AddressBits = 5,
    /// No CSR of the bank has this number.
    NoSuchCsr = 6,
}

impl EncodingFault {
    ghost use Rattle.std.specs.Prelude.{◌≡◌};
    ghost use Rattle.pmp_encoding.specs.Faults.{fault_number};

    /// Returns the number of the fault, from 1 to 6.
    pub fn number(self) -> u8
        ensures { result ≡ fault_number self }
    {
        self as u8
    }
}
