//! The firmware's decisions at traps.

use crate::outcome::Outcome;

/// The firmware's decision at a trap.
#[derive(Clone, Copy)]
pub enum Decision {
    /// The world goes on after another hart's interrupt. A hart that was started begins.
    GoOn,
    /// The host's timer has expired, and the host goes on.
    Tick,
    /// The host goes on at its own trap handler.
    ToHandler,
    /// The monitor serves a call of an enclave.
    EnclaveCall,
    /// The monitor stops the enclave.
    EnclaveStop,
    /// The host's timer has expired, and the monitor stops the enclave.
    EnclaveTick,
    /// The outcome of a call of the host.
    Host(Outcome),
}
