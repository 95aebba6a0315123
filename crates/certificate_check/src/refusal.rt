//! Reasons why a certificate is refused.

use certificate_format::ReadFault;

/// The reason why the bytes are not a right certificate for the map. The program prints these numbers.
#[derive(Clone, Copy, PartialEq, Eq, Debug)]
pub enum CheckRefusal {
    /// The first four bytes are not `PMPC`.
    BadMagic = 1,
    /// The version is neither 1 nor 2.
    BadVersion = 2,
    /// The bytes end within a part.
    Truncated = 3,
    /// A node begins with neither a leaf's tag nor a branch's.
    BadTag = 4,
    /// A leaf has a byte that is not a permission.
    BadPerm = 5,
    /// The nine bytes of an entry do not mean an entry.
    BadEntry = 6,
    /// The region of an entry is smaller than a page.
    SubPageEntry = 7,
    /// A page is split.
    TooDeep = 8,
    /// The map has several permissions in a leaf's block.
    LeafNotUniform = 9,
    /// The map has another permission in a leaf's block.
    WrongLeaf = 10,
    /// A cost of a split block is greater than its halves' costs allow.
    CostTooHigh = 11,
    /// The sum of the costs of a split block's halves overflows.
    CostOverflow = 12,
    /// There are more entries than the root's cost for no access.
    EntriesTooMany = 13,
    /// The entries do not mean the map.
    WrongMeaning = 14,
    /// Bytes follow the root.
    Trailing = 15,
    /// The limit of a version 2 certificate is neither 16 nor 64.
    BadLimit = 16,
}

impl CheckRefusal {
    ghost use Rattle.std.specs.Prelude.{◌≡◌};
    ghost use Rattle.certificate_check.specs.Refusals.{refusal_number, refusal_name};

    /// Returns the number, from 1 to 16.
    pub fn number(self) -> u8
        ensures { result ≡ refusal_number self }
    {
        self as u8
    }

    /// Returns the name as the program prints it: at most fourteen ASCII letters.
    pub fn name(self) -> &'static str
        ensures { result.now ≡ refusal_name self }
    {
        match self {
            CheckRefusal::BadMagic => "BadMagic",
            CheckRefusal::BadVersion => "BadVersion",
            CheckRefusal::Truncated => "Truncated",
            CheckRefusal::BadTag => "BadTag",
            CheckRefusal::BadPerm => "BadPerm",
            CheckRefusal::BadEntry => "BadEntry",
            CheckRefusal::SubPageEntry => "SubPageEntry",
            CheckRefusal::TooDeep => "TooDeep",
            CheckRefusal::LeafNotUniform => "LeafNotUniform",
            CheckRefusal::WrongLeaf => "WrongLeaf",
            CheckRefusal::CostTooHigh => "CostTooHigh",
            CheckRefusal::CostOverflow => "CostOverflow",
            CheckRefusal::EntriesTooMany => "EntriesTooMany",
            CheckRefusal::WrongMeaning => "WrongMeaning",
            CheckRefusal::Trailing => "Trailing",
            CheckRefusal::BadLimit => "BadLimit",
        }
    }
}

impl From<ReadFault> for CheckRefusal {
    ghost use Rattle.std.specs.Prelude.{◌≡◌};
    ghost use Rattle.certificate_check.specs.Refusals.{refusal_of};

    ghost from_gives = { λ fault refusal. refusal ≡ refusal_of fault };

    fn from(fault: ReadFault) -> CheckRefusal {
        match fault {
            ReadFault::BadMagic => CheckRefusal::BadMagic,
            ReadFault::BadVersion => CheckRefusal::BadVersion,
            ReadFault::Truncated => CheckRefusal::Truncated,
            ReadFault::BadTag => CheckRefusal::BadTag,
            ReadFault::BadPerm => CheckRefusal::BadPerm,
            ReadFault::BadLimit => CheckRefusal::BadLimit,
        }
    }
}
