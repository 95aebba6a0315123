//! The host's calls that query SBI or the hart and change nothing.

ghost use Rattle.std.specs.Prelude.{◌≡◌};
ghost use Rattle.sbi_calls.specs.Base.{base_outcome, is_offered, stops_outcome};

use crate::caller::Caller;
use crate::error::SbiError;
use crate::extension::Extension;
use crate::outcome::Outcome;

/// Version 1.0: the minor number is in the low 24 bits.
const VERSION: u64 = 0x100_0000;

/// The number of this SBI implementation.
const IMPLEMENTATION: u64 = 0x0845_4e43;

/// Returns 1 if there is an extension of this number, and 0 otherwise.
fn is_offered(number: u64) -> u64
    ensures { result ≡ is_offered number }
{
    match Extension::of(number) {
        Some(_) => 1,
        None => 0,
    }
}

/// Performs a function of the base extension (chapter 4).
pub fn base_outcome(function: u64, a0: u64, caller: &Caller) -> Outcome
    ensures { result ≡ base_outcome function a0 caller.now }
{
    match function {
        0 => Outcome::Value(VERSION),
        1 => Outcome::Value(IMPLEMENTATION),
        2 => Outcome::Value(0),
        3 => Outcome::Value(is_offered(a0)),
        4 => Outcome::Value(caller.vendor),
        5 => Outcome::Value(caller.architecture),
        6 => Outcome::Value(caller.implementation),
        _ => Outcome::Error(SbiError::NotSupported),
    }
}

/// Performs a function that reports why an enclave stopped on this hart: the cause or its value (`mtval`).
pub fn stops_outcome(function: u64, caller: &Caller) -> Outcome
    ensures { result ≡ stops_outcome function caller.now }
{
    match function {
        0 => Outcome::Value(caller.stop_cause),
        1 => Outcome::Value(caller.stop_value),
        _ => Outcome::Error(SbiError::NotSupported),
    }
}
