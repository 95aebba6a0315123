//! Reasons why a board cannot be written as text.

ghost use Rattle.std.specs.Prelude.{◌≡◌};
ghost use Rattle.board_texts.specs.Faults.{fault_text, ranges_text, rule_text, tree_text};

use device_tree::{BoardFault, BoardReason, RowFault, TreeFault, TreeReason};
use platforms::PlatformFault;
use text_lines::{Line, push_decimal, push_text};

/// The reason why a board cannot be written as text.
#[derive(Clone, Copy, Debug, PartialEq, Eq)]
pub enum BoardTextFault {
    /// The bytes do not begin with a device tree that this reader accepts.
    Tree(TreeFault),
    /// The cells or rows of a node are invalid.
    Ranges(BoardFault),
    /// The map has more than 4096 ranges.
    TooManyRanges,
    /// The monitor's location is unknown: no reserved-memory node contains the start of memory.
    NoMonitor,
    /// The ranges break a rule on platforms.
    Rule(PlatformFault),
    /// The text, parsed again, differs from its source.
    NotReadBack,
    /// An allocation failed.
    Memory,
}

/// Describes why the bytes are not a device tree.
fn tree_text(reason: TreeReason) -> &'static [u8]
    ensures { result.now ≡ tree_text reason }
{
    match reason {
        TreeReason::ShortHeader => b"the header is cut".as_slice(),
        TreeReason::BadMagic => b"it does not begin with d0 0d fe ed".as_slice(),
        TreeReason::BadSize => b"the header says more bytes than there are".as_slice(),
        TreeReason::OldVersion => b"the version is below 17".as_slice(),
        TreeReason::NewVersion => b"it is not to be read as version 17".as_slice(),
        TreeReason::BadStructureBlock => b"the structure block is misplaced".as_slice(),
        TreeReason::BadStringsBlock => b"the strings block is misplaced".as_slice(),
        TreeReason::BadReservationBlock => b"the reservation block is misplaced".as_slice(),
        TreeReason::UnendedReservations => b"the reservations do not end".as_slice(),
        TreeReason::NoToken => b"a token is cut".as_slice(),
        TreeReason::UnknownToken => b"a token is not known".as_slice(),
        TreeReason::UnendedName => b"the name of a node does not end".as_slice(),
        TreeReason::PastBlock => b"a name or a value is cut".as_slice(),
        TreeReason::NoPropertyName => b"a property has no name".as_slice(),
        TreeReason::BytesBehindEnd => b"bytes follow the end".as_slice(),
        TreeReason::TooDeep => b"more than 64 nodes are inside one another".as_slice(),
        TreeReason::LateProperty => b"a property follows a node".as_slice(),
        TreeReason::UnendedNode => b"a node does not end".as_slice(),
        TreeReason::NoRoot => b"there is no root".as_slice(),
        TreeReason::PieceBehindRoot => b"something follows the root".as_slice(),
        TreeReason::Memory => b"memory was refused".as_slice(),
    }
}

/// Describes why the numbers of a node do not give ranges.
fn ranges_text(reason: BoardReason) -> &'static [u8]
    ensures { result.now ≡ ranges_text reason }
{
    match reason {
        BoardReason::BadCells => b"cells are no number from 0 to 4".as_slice(),
        BoardReason::BadRows(RowFault::BadLength) => b"reg or ranges has no whole rows".as_slice(),
        BoardReason::BadRows(RowFault::LargeNumber) => {
            b"an address or a size is above 64 bits".as_slice()
        }
        BoardReason::BadRows(RowFault::TooMany) => b"registers in too many ranges".as_slice(),
        BoardReason::BadRows(RowFault::Memory) => b"memory was refused".as_slice(),
    }
}

/// Describes the rule on platforms that is broken.
fn rule_text(fault: PlatformFault) -> &'static [u8]
    ensures { result.now ≡ rule_text fault }
{
    match fault {
        PlatformFault::BadRange => b"the monitor is no whole pages".as_slice(),
        PlatformFault::Overlap => b"two ranges have a page in common".as_slice(),
        PlatformFault::MonitorNotRam => b"a page of the monitor is not memory".as_slice(),
        PlatformFault::BadNumber => b"not 1 to 32 ranges of memory, at most 32 devices".as_slice(),
        PlatformFault::BadHarts => b"the tree has no hart".as_slice(),
        PlatformFault::BadEntries => b"neither 16 nor 64 entries".as_slice(),
    }
}

/// Formats the fault as `REASON, at byte OFFSET`, or as the reason alone.
pub fn fault_line(fault: &BoardTextFault) -> Line
    ensures { result ≡ fault_text fault.now }
{
    let mut line = Line::new();
    match *fault {
        BoardTextFault::Tree(fault) => {
            push_text(&mut line, tree_text(fault.reason));
            push_text(&mut line, b", at byte ");
            push_decimal(&mut line, fault.offset as u64);
        }
        BoardTextFault::Ranges(fault) => {
            push_text(&mut line, ranges_text(fault.reason));
            push_text(&mut line, b", in the node at byte ");
            push_decimal(&mut line, fault.offset as u64);
        }
        BoardTextFault::TooManyRanges => push_text(&mut line, b"too many ranges"),
        BoardTextFault::NoMonitor => push_text(
            &mut line,
            b"no node says where the monitor is; give --monitor",
        ),
        BoardTextFault::Rule(fault) => push_text(&mut line, rule_text(fault)),
        BoardTextFault::NotReadBack => push_text(&mut line, b"the text is not read back"),
        BoardTextFault::Memory => push_text(&mut line, b"out of memory"),
    }
    line
}
