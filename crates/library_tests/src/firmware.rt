//! Uses of the theorems on the firmware and on a board: the state of the harts after traps are served, and of an
//! enclave's bytes after it is destroyed on a board.

ghost use Rattle.std.specs.Prelude.{[], IfOk};
ghost use Rattle.trap_server.specs.Runs.{Ran};
ghost use Rattle.library_tests.specs.Served.{IsKnown, WipesDestroyed};

use board::board_law;
use std::alloc::Global;
use text_lines::{Sink, Source};
use trap_server::{ServeFault, firmware_law, serve_traps};

/// Serves the traps of a source, as the firmware does. If its input ends, they are a run to which the firmware's
/// theorem applies: each hart that is then in the host's world has loaded the fewest entries of the host's view.
pub fn serve_life<R: Source, W: Sink>(
    alloc: Global,
    source: &mut R,
    sink: &mut W,
) -> Result<(), ServeFault>
    ensures { IfOk result (λ _. (run : Ran (R.remaining source.old) (R.remaining source.new)
        (W.contents sink.old) (W.contents sink.new) [] []) × IsKnown run) }
{
    let served = serve_traps(alloc, source, sink);
    firmware_law();
    served
}

/// If a trap destroys an enclave on a board, after any events: until then each access of its private bytes by another
/// world was a fault, after it they are zero, and each hart has loaded the fewest entries of its world's view.
pub fn destroyed_on_board()
    ensures { WipesDestroyed }
{
    board_law();
}
