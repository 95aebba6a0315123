//! The calls that start and stop harts.

ghost use Rattle.std.specs.Prelude.{◌≡◌, ◌≢◌, Bool};
ghost use Rattle.sbi_calls.specs.Hsm.{hsm_outcome, start_outcome, status_outcome, suspend_outcome};
ghost use Rattle.sbi_calls.specs.Named.{NamesBoard};
ghost use Rattle.sbi_calls.specs.StartAddresses.{IsExecutable};

use crate::bank_words::BankWords;
use crate::error::SbiError;
use crate::harts::{HartState, Harts};
use crate::host_call::HostCall;
use crate::outcome::Outcome;
use crate::start_address::is_executable;

/// Starts a hart: its number is in a0, the address in a1, its `opaque` word in a2. `executable` tells whether the host
/// may execute at the address.
fn start_outcome(call: &HostCall, harts: &Harts, executable: bool) -> Outcome
    ensures value { result ≡ start_outcome call.now harts.now executable }
    ensures there { NamesBoard harts.now result }
{
    let hart = call.a0;
    if hart >= harts.number() {
        return Outcome::Error(SbiError::InvalidParam);
    }
    if harts.state_of(hart) != HartState::Stopped {
        return Outcome::Error(SbiError::AlreadyAvailable);
    }
    if !executable {
        return Outcome::Error(SbiError::InvalidAddress);
    }
    Outcome::StartHart {
        hart,
        address: call.a1,
        opaque: call.a2,
    }
}

/// Returns the state of a hart.
fn status_outcome(hart: u64, harts: &Harts) -> Outcome
    ensures value { result ≡ status_outcome hart harts.now }
    ensures there { NamesBoard harts.now result }
{
    if hart >= harts.number() {
        return Outcome::Error(SbiError::InvalidParam);
    }
    Outcome::Value(harts.state_of(hart).number())
}

/// Refuses a suspension, whose type is in the low 32 bits. No type is implemented, and reserved types get an error of
/// their own.
fn suspend_outcome(word: u64) -> Outcome
    ensures { result ≡ suspend_outcome word }
{
    let in_half = word % 0x8000_0000;
    if in_half != 0 && in_half < 0x1000_0000 {
        Outcome::Error(SbiError::InvalidParam)
    } else {
        Outcome::Error(SbiError::NotSupported)
    }
}

/// Performs a function of the Hart State Management extension (chapter 9), on a hart with these entries.
pub fn hsm_outcome(call: &HostCall, harts: &Harts, bank: &BankWords) -> Outcome
    ensures start { (executable : Bool) → IsExecutable bank.now call.now.a1 executable
        → result ≡ hsm_outcome call.now harts.now executable }
    // All other functions ignore the entries.
    ensures others { call.now.function ≢ 0 → (executable : Bool)
        → result ≡ hsm_outcome call.now harts.now executable }
    ensures there { NamesBoard harts.now result }
{
    match call.function {
        0 => start_outcome(call, harts, is_executable(bank, call.a1)),
        1 => Outcome::StopHart,
        2 => status_outcome(call.a0, harts),
        3 => suspend_outcome(call.a0),
        _ => Outcome::Error(SbiError::NotSupported),
    }
}
