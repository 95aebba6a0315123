//! Reasons why a host gets no tree.

ghost use Rattle.std.specs.Prelude.{◌≡◌};

use crate::write_fault::WriteFault;
use device_tree::{BoardReason, RowFault, TreeFault};

/// The reason why no tree can be made from one that was read.
#[derive(Clone, Copy, Debug, PartialEq, Eq)]
pub enum MakeFault {
    /// The cells of a node are not numbers from 0 to 4, or its `reg` or `ranges` has no rows. An allocation can also
    /// fail here.
    NotUnderstood(BoardReason),
    /// An address or a size of a reserved range does not fit into the root's cells, or these are not one or two.
    BadCells,
    /// The tree could not be written.
    NotWritten(WriteFault),
}

/// The reason why a host gets no tree.
#[derive(Clone, Copy, Debug, PartialEq, Eq)]
pub enum HostTreeFault {
    /// The bytes begin with no readable tree, or an allocation failed.
    NotRead(TreeFault),
    /// No tree can be made from the one that was read.
    NotMade(MakeFault),
}

/// The fault for rows that cannot be parsed.
pub(crate) fn rows_fault(fault: RowFault) -> MakeFault
    ensures { result ≡ MakeFault.NotUnderstood (BoardReason.BadRows fault) }
{
    MakeFault::NotUnderstood(BoardReason::BadRows(fault))
}
