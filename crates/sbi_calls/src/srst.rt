//! Shutdown and reboot.

ghost use Rattle.std.specs.Prelude.{◌≡◌};
ghost use Rattle.sbi_calls.specs.Srst.{reset_outcome, srst_outcome};

use crate::error::SbiError;
use crate::host_call::HostCall;
use crate::outcome::Outcome;

/// Resets the board by type and reason, of 32 bits each.
fn reset_outcome(kind: u64, reason: u64) -> Outcome
    ensures { result ≡ reset_outcome kind reason }
{
    if (kind > 2 && kind < 0xf000_0000) || reason > 1 {
        return Outcome::Error(SbiError::InvalidParam);
    }
    match kind {
        0 if reason == 0 => Outcome::ShutDown,
        0 => Outcome::Fail,
        1 | 2 => Outcome::Reboot,
        _ => Outcome::Error(SbiError::NotSupported),
    }
}

/// Performs the function of the system reset extension (chapter 10): the type is in a0, the reason in a1. Cold and warm
/// reboots both reset the board, and no vendor type is implemented.
pub fn srst_outcome(call: &HostCall) -> Outcome
    ensures { result ≡ srst_outcome call.now }
{
    if call.function != 0 {
        return Outcome::Error(SbiError::NotSupported);
    }
    reset_outcome(call.a0 % 0x1_0000_0000, call.a1 % 0x1_0000_0000)
}
