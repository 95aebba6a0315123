//! The host's requests to other harts.

ghost use Rattle.std.specs.Prelude.{◌≡◌};
ghost use Rattle.sbi_calls.specs.Named.{NamesBoard};
ghost use Rattle.sbi_calls.specs.Remote.{ipi_outcome, rfence_outcome};

use crate::error::SbiError;
use crate::hart_lists::hart_list;
use crate::harts::Harts;
use crate::host_call::HostCall;
use crate::outcome::Outcome;

/// Performs the function of the IPI extension (chapter 7): the hart mask is in a0, its base in a1. A hart that is not
/// started gets no interrupt.
pub fn ipi_outcome(call: &HostCall, harts: &Harts) -> Outcome
    ensures value { result ≡ ipi_outcome call.now harts.now }
    ensures there { NamesBoard harts.now result }
{
    if call.function != 0 {
        return Outcome::Error(SbiError::NotSupported);
    }
    match hart_list(harts.number(), call.a0, call.a1) {
        Some(listed) => Outcome::Interrupt(listed & harts.started),
        None => Outcome::Error(SbiError::InvalidParam),
    }
}

/// Performs a function of the RFENCE extension (chapter 8): the hart mask is in a0, its base in a1. Addresses and
/// address spaces are ignored, because a wider fence is allowed. There are no guests, so fences for guests are not
/// supported.
pub fn rfence_outcome(call: &HostCall, harts: &Harts) -> Outcome
    ensures value { result ≡ rfence_outcome call.now harts.now }
    ensures there { NamesBoard harts.now result }
{
    if call.function > 2 {
        return Outcome::Error(SbiError::NotSupported);
    }
    match hart_list(harts.number(), call.a0, call.a1) {
        Some(listed) if call.function == 0 => Outcome::FenceInstructions(listed),
        Some(listed) => Outcome::FenceTranslations(listed),
        None => Outcome::Error(SbiError::InvalidParam),
    }
}
