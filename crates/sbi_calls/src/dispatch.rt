//! The host's calls, by extension.

ghost use Rattle.std.specs.Prelude.{◌≡◌, ◌≢◌, Bool};
ghost use Rattle.sbi_calls.specs.Dispatch.{IsStart, console_outcome, outcome_of, time_outcome};
ghost use Rattle.sbi_calls.specs.Named.{NamesBoard};
ghost use Rattle.sbi_calls.specs.StartAddresses.{IsExecutable};

use crate::bank_words::BankWords;
use crate::base::{base_outcome, stops_outcome};
use crate::caller::Caller;
use crate::error::SbiError;
use crate::extension::Extension;
use crate::harts::Harts;
use crate::host_call::HostCall;
use crate::hsm::hsm_outcome;
use crate::outcome::Outcome;
use crate::remote::{ipi_outcome, rfence_outcome};
use crate::srst::srst_outcome;

/// Performs a function of the timer extension (chapter 6): the time is in a0.
fn time_outcome(call: &HostCall) -> Outcome
    ensures { result ≡ time_outcome call.now }
{
    match call.function {
        0 => Outcome::SetTimer(call.a0),
        _ => Outcome::Error(SbiError::NotSupported),
    }
}

/// Performs a function of the debug console (version 2.0, chapter 12): the byte is the lowest of a0. The other
/// functions take addresses, which machine mode would access unchecked by PMP.
fn console_outcome(call: &HostCall) -> Outcome
    ensures { result ≡ console_outcome call.now }
{
    match call.function {
        2 => Outcome::PutByte((call.a0 % 256) as u8),
        _ => Outcome::Error(SbiError::NotSupported),
    }
}

/// Returns the outcome of a call of the host's supervisor mode on a hart with these entries.
pub fn outcome_of(call: &HostCall, caller: &Caller, harts: &Harts, bank: &BankWords) -> Outcome
    ensures start { (executable : Bool) → IsExecutable bank.now call.now.a1 executable
        → result ≡ outcome_of call.now caller.now harts.now executable }
    // All other calls ignore the entries.
    ensures others { ¬ IsStart call.now → (executable : Bool)
        → result ≡ outcome_of call.now caller.now harts.now executable }
    ensures there { NamesBoard harts.now result }
{
    match Extension::of(call.extension) {
        Some(Extension::Base) => base_outcome(call.function, call.a0, caller),
        Some(Extension::Time) => time_outcome(call),
        Some(Extension::Ipi) => ipi_outcome(call, harts),
        Some(Extension::Rfence) => rfence_outcome(call, harts),
        Some(Extension::Hsm) => hsm_outcome(call, harts, bank),
        Some(Extension::Srst) => srst_outcome(call),
        Some(Extension::Console) => console_outcome(call),
        Some(Extension::Monitor) => Outcome::Monitor,
        Some(Extension::Stops) => stops_outcome(call.function, caller),
        None => Outcome::Error(SbiError::NotSupported),
    }
}
