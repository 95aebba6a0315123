//! Serves traps between a reader and a writer of the standard library, as the firmware uses it.

ghost use Rattle.std.specs.Prelude.{◌≡◌};
ghost use Rattle.trap_server.specs.Numbers.{served_number};
ghost use Rattle.trap_server.specs.Served.{EndsWith, ServedFrom};

use crate::fault::ServeFault;
use crate::numbers::served_number;
use crate::trap_loop::serve_traps;
use std::alloc::Global;
use std::io::{Read, Write};
use text_lines::Counted;

/// Serves the traps of a reader and returns how the loop ended.
fn served_from<R: Read + Drop, W: Write + Drop>(
    alloc: Global,
    from: R,
    to: W,
) -> Result<(), ServeFault>
    ensures { ServedFrom R.remaining W.contents from to result }
{
    let mut source = Counted::new(from);
    let mut sink = Counted::new(to);
    serve_traps(alloc, &mut source, &mut sink)
}

/// Serves the traps of a reader as [`serve_traps`] does, and returns the number that tells the firmware how the loop
/// ended.
pub fn serve_on<R: Read + Drop, W: Write + Drop>(alloc: Global, from: R, to: W) -> i64
    ensures { EndsWith R.remaining W.contents from to served_number result }
{
    served_number(served_from(alloc, from, to))
}
