//! Outcomes of the host's calls.

use crate::error::SbiError;

/// The outcome of a call of the host. Unless the variant says otherwise, the host also receives SBI_SUCCESS and the
/// value 0.
#[derive(Clone, Copy)]
pub enum Outcome {
    /// SBI_SUCCESS with a value, and nothing else.
    Value(u64),
    /// An error with the value 0, and nothing else.
    Error(SbiError),
    /// The host's timer of this hart is set to this time.
    SetTimer(u64),
    /// A supervisor software interrupt becomes pending on these harts: hart h is bit h.
    Interrupt(u64),
    /// These harts execute `fence.i` before the call returns.
    FenceInstructions(u64),
    /// These harts execute `sfence.vma` before the call returns.
    FenceTranslations(u64),
    /// A stopped hart begins at `address` in supervisor mode, with its number in a0 and `opaque` in a1.
    StartHart {
        hart: u64,
        address: u64,
        opaque: u64,
    },
    /// This hart stops, and the call does not return.
    StopHart,
    /// A byte is written to the console.
    PutByte(u8),
    /// The board shuts down, and the call does not return.
    ShutDown,
    /// The board shuts down because of a system failure.
    Fail,
    /// The board reboots.
    Reboot,
    /// The monitor serves the call.
    Monitor,
}
