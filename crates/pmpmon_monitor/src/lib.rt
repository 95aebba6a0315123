//! The monitor for firmware in C: serves traps, decides what the firmware does at each, and prepares device trees.
//!
//! The loop reaches the harts through C's standard input and output: the firmware supplies `read`, `write` and
//! `rattle_errno`, as `firmware/serve.c` does. It reads frames and writes answers (`docs/formats/calls.md`, "Frames").
//! C passes no arguments to `pmpmon_serve`, because its three parameters have no size. `firmware/board.h` declares the
//! structs.
//!
//! ```c
//! int64_t pmpmon_serve(void);
//! void pmpmon_decide(uint64_t world, uint64_t cause, const struct host_call *call, const struct caller *caller,
//!                    const struct bank *bank, struct harts *harts, struct action *action);
//! int64_t pmpmon_find_platform(const uint8_t *tree, size_t room, struct platform_frame *platform);
//! int64_t pmpmon_put_host_tree(const struct platform_frame *platform, uint64_t pool_base, uint64_t pool_size, uint8_t *tree,
//!                              size_t room);
//! ```
#![tactic(auto)]

mod host_trees;

ghost use Rattle.std.specs.Prelude.{◌≡◌, ◌<◌, None};
ghost use Rattle.sbi_calls.specs.Actions.{action_of};
ghost use Rattle.sbi_calls.specs.Decisions.{Decides};
ghost use Rattle.sbi_calls.specs.Owners.{world_of};
ghost use Rattle.sbi_calls.specs.declared.decision.Decision.{Decision};
ghost use Rattle.trap_server.specs.Numbers.{served_number};
ghost use Rattle.trap_server.specs.Served.{EndsWith};

pub use host_trees::{pmpmon_find_platform, pmpmon_put_host_tree};
use sbi_calls::{Action, BankWords, Caller, Harts, HostCall, action_of, decide, world_of};
use std::alloc::Global;
use std::io::{Stdin, Stdout};
use trap_server::serve_on;

/// Serves traps until the input ends (0), a frame is refused (1), or a device fails (2 reading, 3 writing).
#[unsafe(no_mangle)]
pub extern "C" fn pmpmon_serve(alloc: Global, from: Stdin, to: Stdout) -> i64
    // (the contents of standard input and output are unknown here)
    ensures { EndsWith (λ input. None) (λ output. None) from to served_number result }
{
    serve_on(alloc, from, to)
}

/// Decides what the firmware does at a trap of this cause in a world (0 is the host, others are the ids of enclaves),
/// and updates the states of the harts.
#[unsafe(no_mangle)]
pub extern "C" fn pmpmon_decide(
    world: u64,
    cause: u64,
    call: &HostCall,
    caller: &Caller,
    bank: &BankWords,
    harts: &mut Harts,
    action: &mut Action,
)
    requires { caller.now.hart < 64 }
    ensures { (decision : Decision) × (action.new ≡ action_of decision)
        × Decides (world_of world) cause call.now caller.now bank.now harts.old harts.new decision }
{
    let decision = decide(world_of(world), cause, call, caller, bank, harts);
    let answer = action_of(decision);
    // Copied word by word, because a copy of the struct would go byte by byte.
    action.kind = answer.kind;
    action.error = answer.error;
    action.value = answer.value;
    action.subject = answer.subject;
    action.address = answer.address;
    action.opaque = answer.opaque;
}
