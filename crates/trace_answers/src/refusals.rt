//! Reasons for refused calls, as text.

use sbi_decode::Call;

/// Describes a caller that may not make the call.
fn caller_text(call: &Call) -> &'static str {
    match call {
        Call::Stop | Call::Exit { .. } => "not an enclave",
        _ => "not the host",
    }
}

/// Describes an enclave whose state does not allow the call.
fn state_text(call: &Call) -> &'static str {
    match call {
        Call::Destroy { .. } => "it runs",
        Call::Run { .. } => "it was run before",
        Call::Resume { .. } => "it is not stopped",
        _ => "not in that state",
    }
}

/// Describes the refusal of a call with minus this number.
pub(crate) fn refusal_text(call: &Call, number: u64) -> &'static str {
    match number {
        101 => caller_text(call),
        102 => "no text or too many pages",
        103 => "misaligned or past 2^56",
        104 => "the entry is odd or after the text",
        105 => "a page is not RAM",
        106 => "a page not the host's or twice",
        107 => "64 enclaves are live",
        108 => "too few entries",
        109 => "out of memory",
        110 => "no such enclave",
        111 => state_text(call),
        112 => "a digest has words 0 to 3",
        _ => "by another number",
    }
}
