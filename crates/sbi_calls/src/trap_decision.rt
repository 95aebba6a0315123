//! The decision at a trap, and its effect on the states of the harts.

ghost use Rattle.std.specs.Prelude.{◌≡◌, ◌<◌, ℕ, Bool};
ghost use Rattle.sbi_calls.specs.Decisions.{Decides, DecidesBoard, decision_of, state_after};
ghost use Rattle.sbi_calls.specs.Dispatch.{IsStart};
ghost use Rattle.sbi_calls.specs.Harts.{state_of};
ghost use Rattle.sbi_calls.specs.StartAddresses.{IsExecutable};

use crate::bank_words::BankWords;
use crate::caller::Caller;
use crate::decision::Decision;
use crate::dispatch::outcome_of;
use crate::harts::Harts;
use crate::host_call::HostCall;
use crate::outcome::Outcome;
use crate::owner::{TrapOwner, owner_of};
use sbi_decode::World;

/// Decides what to do at a trap while the harts are in these states.
fn decision_of(
    owner: TrapOwner,
    call: &HostCall,
    caller: &Caller,
    bank: &BankWords,
    harts: &Harts,
) -> Decision
    ensures start { (executable : Bool) → IsExecutable bank.now call.now.a1 executable
        → result ≡ decision_of owner call.now caller.now harts.now executable }
    ensures others { ¬ IsStart call.now → (executable : Bool)
        → result ≡ decision_of owner call.now caller.now harts.now executable }
    ensures there { DecidesBoard harts.now result }
{
    match owner {
        TrapOwner::OtherHart => Decision::GoOn,
        TrapOwner::HostTimer => Decision::Tick,
        TrapOwner::HostCall => Decision::Host(outcome_of(call, caller, harts, bank)),
        TrapOwner::HostHandler => Decision::ToHandler,
        TrapOwner::EnclaveCall => Decision::EnclaveCall,
        TrapOwner::EnclaveTimer => Decision::EnclaveTick,
        TrapOwner::EnclaveStop => Decision::EnclaveStop,
    }
}

/// Updates the states of the harts after a decision at a trap of `hart`.
fn settle(decision: Decision, hart: u64, harts: &mut Harts)
    requires hart { hart < 64 }
    requires there { DecidesBoard harts.old decision }
    ensures states { (other : ℕ) → state_of harts.new other
        ≡ state_after decision hart harts.old other }
    ensures count { harts.new.count ≡ harts.old.count }
{
    match decision {
        Decision::GoOn => harts.begin(hart),
        Decision::Host(Outcome::StartHart { hart: other, .. }) => harts.start(other),
        Decision::Host(Outcome::StopHart) => harts.stop(hart),
        _ => {}
    }
}

/// Decides what the firmware does at a trap of this cause in a world, given the registers of the call, the hart that
/// trapped and its entries, and updates the states of the harts. A start names a stopped hart of the board; an
/// interrupt and a fence name harts of the board.
pub fn decide(
    world: World,
    cause: u64,
    call: &HostCall,
    caller: &Caller,
    bank: &BankWords,
    harts: &mut Harts,
) -> Decision
    requires { caller.now.hart < 64 }
    ensures { Decides world cause call.now caller.now bank.now harts.old harts.new result }
{
    let decision = decision_of(owner_of(world, cause), call, caller, bank, harts);
    settle(decision, caller.hart, harts);
    decision
}
