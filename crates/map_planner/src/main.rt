//! Plans one map and does nothing else, so that a first run proves it before the rest of `pmpmon`.
//!
//! `map_planner MAP` prints the same as `pmpmon plan MAP`. If there is anything else to report, because the file cannot
//! be read, is not a map or needs more than sixteen entries, or an allocation fails, it prints nothing and exits with
//! status 1, and `pmpmon` reports it.
#![tactic(auto)]

mod printed_plan;

use crate::printed_plan::{PlanFault, print_plan_in};
use program_files::{FileToRead, RetryInterrupted};
use std::env;
use std::process::ExitCode;
use text_lines::{Counted, HeldSink};

/// The status if no plan is printed.
const NO_PLAN: u8 = 1;

/// The status if standard output cannot be written.
const NO_OUTPUT: u8 = 3;

/// Prints the plan of the named map.
fn print_plan_of(rt: &HostRuntime, name: &str) -> Result<(), PlanFault> {
    let mut file = Counted::new(FileToRead::new(rt, name));
    let out = RetryInterrupted::new(rt.stdout());
    let Ok(mut out) = HeldSink::new(rt.alloc(), out) else {
        return Err(PlanFault::Memory);
    };
    let printed = print_plan_in(rt.alloc(), &mut file, &mut out);
    let (is_whole, _) = out.close();
    printed?;
    if is_whole {
        Ok(())
    } else {
        Err(PlanFault::NotWritten)
    }
}

fn main(rt: HostRuntime) -> ExitCode {
    let Ok(words) = env::args(&rt) else {
        return ExitCode::from(NO_PLAN);
    };
    let Some(name) = words.into_iter().nth(1) else {
        return ExitCode::from(NO_PLAN);
    };
    match print_plan_of(&rt, name.as_str()) {
        Ok(()) => ExitCode::SUCCESS,
        Err(PlanFault::NotWritten) => {
            let _ = eprintln!(rt; "pmpmon: standard output: cannot write");
            ExitCode::from(NO_OUTPUT)
        }
        Err(_) => ExitCode::from(NO_PLAN),
    }
}
