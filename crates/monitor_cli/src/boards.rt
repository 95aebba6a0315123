//! Commands that print a board as text: `platform`, and `map` of a device tree.

ghost use Rattle.std.specs.Prelude.{◌≡◌, ◌⊎◌, ◌^◌, ◌<◌, ℕ, List};
ghost use Rattle.text_lines.specs.Writings.{writing};
ghost use Rattle.program_files.specs.Reading.{reading};
ghost use Rattle.monitor_cli.specs.Commands.{Ends, IsPlatformTold, IsPlatformUntold};

use board_texts::{BoardTextFault, fault_line, platform_text_of};
use device_tree::{BoardFault, BoardReason, RowFault, TreeFault, TreeReason};
use program_files::{Trouble, bytes_in};
use std::alloc::Global;
use text_lines::{Sink, Source, write_whole};

/// Maximum size of a device tree in bytes.
pub const TREE_BYTES: usize = 1 << 20;

/// Converts a fault of a device tree in a file with this name.
pub(crate) fn board_trouble<'a>(file: &'a str, fault: &BoardTextFault) -> Trouble<'a>
    ensures { (result ≡ Trouble.Memory)
        ⊎ ((said : List ℕ) × (result ≡ Trouble.NoBoardText file.entry said)) }
{
    match fault {
        BoardTextFault::Memory
        | BoardTextFault::Tree(
            TreeFault {
                reason: TreeReason::Memory,
                ..
            },
        )
        | BoardTextFault::Ranges(
            BoardFault {
                reason: BoardReason::BadRows(RowFault::Memory),
                ..
            },
        ) => Trouble::Memory,
        _ => Trouble::NoBoardText {
            file,
            said: fault_line(fault),
        },
    }
}

/// Prints the platform of a board's device tree, with the given base and size of the monitor, if any.
#[inline(never)]
pub(crate) fn do_platform<'a, R: Source, W: Sink>(
    alloc: Global,
    board: &'a str,
    monitor: Option<(u64, u64)>,
    first: &mut R,
    out: &mut W,
) -> Result<u8, Trouble<'a>>
    ensures { let one = reading R.remaining R.failures first.old first.new in
        Ends (IsPlatformTold monitor one) (IsPlatformUntold board.entry monitor one)
        (writing W.contents W.failures W.stalls out.old out.new) result }
{
    let bytes = bytes_in(alloc, board, first, TREE_BYTES)?;
    let text = match platform_text_of(alloc, bytes.as_slice(), monitor) {
        Ok(text) => text,
        Err(fault) => return Err(board_trouble(board, &fault)),
    };
    write_whole(out, text.as_slice())?;
    Ok(0)
}
