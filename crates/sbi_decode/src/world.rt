//! The world that runs on a hart.

/// The world that runs on a hart.
#[derive(Clone, Copy, PartialEq, Eq)]
pub enum World {
    /// The host: the supervisor and its user programs.
    Host,
    /// The enclave with this id, 1 to 64.
    Enclave(u64),
}
