//! Reserved values of a configuration byte.

/// A value that the architecture reserves for later use. It has no meaning for any access.
#[derive(Clone, Copy, Debug, PartialEq, Eq)]
pub enum Reserved {
    /// W without R while `mseccfg` does not set MML.
    Permission,
    /// A nonzero bit of 6:5.
    Bits,
}

/// A reserved value and the entry that has it. If an entry has both values, `Permission` is reported.
#[derive(Clone, Copy, Debug, PartialEq, Eq)]
pub struct ReservedAt {
    /// The number of the entry.
    pub place: usize,
    pub value: Reserved,
}
