//! Laws of the decisions.

ghost use Rattle.std.specs.Prelude.{ℕ, Bool};
ghost use Rattle.sbi_decode.specs.declared.world.World.{World};
ghost use Rattle.sbi_calls.specs.Decisions.{IsOfHost, decision_of};
ghost use Rattle.sbi_calls.specs.Owners.{owner_of};
ghost use Rattle.sbi_calls.specs.declared.caller.Caller.{Caller};
ghost use Rattle.sbi_calls.specs.declared.harts.Harts.{Harts};
ghost use Rattle.sbi_calls.specs.declared.host_call.HostCall.{HostCall};

/// A trap of an enclave is never a call of the host: it reaches no function of SBI, and neither starts nor stops a
/// hart.
pub fn enclave_law()
    ensures { (id cause : ℕ) (call : HostCall) (caller : Caller) (harts : Harts)
        (executable : Bool)
        → ¬ IsOfHost
        (decision_of (owner_of (World.Enclave id) cause) call caller harts executable) }
{}
