//! Faults in the next part of a certificate.

/// The reason why the next part of a certificate cannot be read. The program prints these numbers.
#[derive(Clone, Copy, PartialEq, Eq, Debug)]
pub enum ReadFault {
    /// The first four bytes are not `PMPC`.
    BadMagic = 1,
    /// The version is neither 1 nor 2.
    BadVersion = 2,
    /// The bytes end within the part.
    Truncated = 3,
    /// The byte is the tag of neither a leaf nor a branch.
    BadTag = 4,
    /// The byte is not a permission.
    BadPerm = 5,
    /// The limit of a version 2 certificate is neither 16 nor 64.
    BadLimit = 16,
}

impl ReadFault {
    ghost use Rattle.std.specs.Prelude.{◌≡◌};
    ghost use Rattle.certificate_format.specs.Faults.{read_fault_number};

    /// Returns the number, which is also that of the checker's refusal of the same name.
    pub fn number(self) -> u8
        ensures { result ≡ read_fault_number self }
    {
        self as u8
    }
}
