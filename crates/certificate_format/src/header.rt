//! The header of a certificate: its version, its limit and the number of entries.

use pmp_encoding::Limit;

/// The version of the format: version 1 implies a limit of sixteen, version 2 contains its limit.
#[derive(Clone, Copy, PartialEq, Eq)]
pub enum Version {
    One,
    Two(Limit),
}

impl Version {
    ghost use Rattle.std.specs.Prelude.{◌≡◌};
    ghost use Rattle.certificate_format.specs.Spelling.{limit_of_version};

    /// Returns the number of entries of the certificate's hart.
    pub fn limit(self) -> Limit
        ensures { result ≡ limit_of_version self }
    {
        match self {
            Version::One => Limit::Sixteen,
            Version::Two(limit) => limit,
        }
    }
}

/// The part before the entries: the version, and the number of entries.
#[derive(Clone, Copy, PartialEq, Eq)]
pub struct Header {
    pub version: Version,
    pub count: u32,
}
