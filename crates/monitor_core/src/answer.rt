//! The answer to a call, and the tasks of the caller before the hart continues.

ghost use Rattle.std.specs.Prelude.{◌≡◌, ◌≤◌, ◌-◌, ◌^◌, IfNone, IfSome, pos};
ghost use Rattle.sbi_decode.specs.Calls.{call_of};
ghost use Rattle.measurement.specs.declared.request.Create.{Create as CreateParts};
ghost use Rattle.monitor_core.specs.Answers.{below_zero};
ghost use Rattle.monitor_core.specs.Measured.{IsMade, asked_in};

use measurement::Create;
use pmp_encoding::PageRange;
use sbi_decode::{Call, Registers, decode};

/// The answer to a call, which its caller finds in a0 and a1 when it continues.
#[derive(Clone, Copy)]
pub struct Answer {
    /// 0 on success; negative if the call was refused.
    pub status: i64,
    /// The value that a successful call returns.
    pub value: u64,
}

/// The result of serving a call. The caller's registers after it are the monitor's.
#[derive(Clone, Copy)]
pub struct Served {
    pub answer: Answer,
    /// The pages to be zeroed before any hart continues.
    pub zero: Option<PageRange>,
    /// Whether the hart's entries must be reloaded before it continues.
    pub load: bool,
}

impl Answer {
    /// Returns the answer to a successful call.
    pub(crate) fn done(value: u64) -> Answer
        ensures { result ≡ record { status = pos 0; value = value } }
    {
        Answer { status: 0, value }
    }

    /// Returns the stored parts of the enclave that a call created, given the registers of the call: its private pages
    /// must be measured. Returns `None` for any other call, and for a refused one.
    pub fn made(&self, registers: &Registers) -> Option<Create>
        ensures some { IfSome result (λ parts.
            IsMade (asked_in (call_of registers.now)) self.now parts) }
        ensures none { IfNone result ((parts : CreateParts)
            → IsMade (asked_in (call_of registers.now)) self.now parts → ⊥) }
    {
        if self.status != 0 {
            return None;
        }
        let Ok(
            Call::Create {
                base,
                text_pages,
                data_pages,
                shared_base,
                shared_count,
                entry_offset,
            },
        ) = decode(registers)
        else {
            return None;
        };
        let asked = Create {
            base,
            text_pages,
            data_pages,
            shared_base,
            shared_count,
            entry_offset,
        };
        Some(asked.normalized())
    }

    /// Returns the answer to a refused call, given its negated status.
    pub(crate) fn refused(number: u64) -> Answer
        requires low { 1 ≤ number }
        requires high { number ≤ 112 }
        ensures { result ≡ record { status = below_zero number; value = 0 } }
    {
        Answer {
            status: below_zero(number),
            value: 0,
        }
    }
}

/// Returns the negated number as a status.
fn below_zero(number: u64) -> i64
    requires low { 1 ≤ number }
    requires high { number ≤ 112 }
    ensures { result ≡ below_zero number }
{
    -1 - (number - 1) as i64
}

/// Returns the negated number as a word.
pub(crate) fn word_below_zero(number: u64) -> u64
    requires low { 1 ≤ number }
    requires high { number ≤ 112 }
    ensures { result ≡ 2 ^ 64 - number }
{
    u64::MAX - (number - 1)
}
