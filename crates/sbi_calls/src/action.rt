//! Decisions in the form that firmware in C reads.

ghost use Rattle.std.specs.Prelude.{◌≡◌};
ghost use Rattle.sbi_calls.specs.Actions.{action_of, outcome_action};

use crate::decision::Decision;
use crate::outcome::Outcome;

/// A decision for firmware in C: the action, the answer, and the operands.
#[repr(C)]
#[derive(Clone, Copy)]
pub struct Action {
    /// The number of the action. Actions below 9 change nothing that another hart reads, except its requests.
    pub kind: u64,
    /// The answer's error, for a0.
    pub error: u64,
    /// The answer's value, for a1.
    pub value: u64,
    /// The harts, the hart, the time or the byte that the action concerns.
    pub subject: u64,
    /// The start address of a hart.
    pub address: u64,
    /// The `opaque` word for a hart that is started.
    pub opaque: u64,
}

/// An action that returns SBI_SUCCESS and 0, or nothing.
fn plain(kind: u64, subject: u64) -> Action
    ensures { result ≡ plain kind subject }
{
    Action {
        kind,
        error: 0,
        value: 0,
        subject,
        address: 0,
        opaque: 0,
    }
}

/// An action that only returns an answer.
fn answer(error: u64, value: u64) -> Action
    ensures { result ≡ answer error value }
{
    Action {
        kind: 3,
        error,
        value,
        subject: 0,
        address: 0,
        opaque: 0,
    }
}

/// Converts the outcome of a host's call to an action.
fn outcome_action(outcome: Outcome) -> Action
    ensures { result ≡ outcome_action outcome }
{
    match outcome {
        Outcome::Value(value) => answer(0, value),
        Outcome::Error(error) => answer(error.word(), 0),
        Outcome::SetTimer(time) => plain(4, time),
        Outcome::Interrupt(harts) => plain(5, harts),
        Outcome::FenceInstructions(harts) => plain(6, harts),
        Outcome::FenceTranslations(harts) => plain(7, harts),
        Outcome::PutByte(byte) => plain(8, u64::from(byte)),
        Outcome::StartHart {
            hart,
            address,
            opaque,
        } => Action {
            kind: 9,
            error: 0,
            value: 0,
            subject: hart,
            address,
            opaque,
        },
        Outcome::StopHart => plain(10, 0),
        Outcome::ShutDown => plain(11, 0),
        Outcome::Fail => plain(12, 0),
        Outcome::Reboot => plain(13, 0),
        Outcome::Monitor => plain(14, 0),
    }
}

/// Converts a decision to an action.
pub fn action_of(decision: Decision) -> Action
    ensures { result ≡ action_of decision }
{
    match decision {
        Decision::GoOn => plain(0, 0),
        Decision::Tick => plain(1, 0),
        Decision::ToHandler => plain(2, 0),
        Decision::EnclaveCall => plain(15, 0),
        Decision::EnclaveStop => plain(16, 0),
        Decision::EnclaveTick => plain(17, 0),
        Decision::Host(outcome) => outcome_action(outcome),
    }
}

ghost use Rattle.sbi_calls.specs.Actions.{answer, plain};
