//! Reasons why a tree gives no ranges.

use crate::rows::RowFault;

/// The reason why a tree gives no ranges.
#[derive(Clone, Copy, Debug, PartialEq, Eq)]
pub enum BoardReason {
    /// `#address-cells` or `#size-cells` is not a number from 0 to 4.
    BadCells,
    /// The rows of `reg` or `ranges` are invalid.
    BadRows(RowFault),
}

/// A reason, and the offset of its node.
#[derive(Clone, Copy, Debug, PartialEq, Eq)]
pub struct BoardFault {
    pub reason: BoardReason,
    pub offset: usize,
}
