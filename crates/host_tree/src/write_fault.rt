//! Reasons why a tree cannot be written.

/// The reason why a tree cannot be written.
#[derive(Clone, Copy, Debug, PartialEq, Eq)]
pub enum WriteFault {
    /// A name contains a zero byte, which would end it.
    ZeroInName,
    /// A reservation of address 0 and size 0 would terminate the list.
    EmptyReservation,
    /// A number does not fit into its 32 bits because the tree would reach 4 GiB.
    TooLarge,
    /// An allocation failed.
    Memory,
}
