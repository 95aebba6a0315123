//! The number that tells the firmware how the loop ended.

ghost use Rattle.std.specs.Prelude.{◌≡◌};
ghost use Rattle.trap_server.specs.Numbers.{served_number};

use crate::fault::ServeFault;

/// Returns the number that the firmware gets: 0 if the input ended, 1 if a frame was refused, 2 if a read failed, 3 if a write
/// failed.
pub fn served_number(served: Result<(), ServeFault>) -> i64
    ensures { result ≡ served_number served }
{
    match served {
        Ok(()) => 0,
        Err(ServeFault::Refused(_)) => 1,
        Err(ServeFault::Read) => 2,
        Err(ServeFault::Write) => 3,
    }
}
