//! The `pmpmon` program: parses its command line and performs the task on real files.
#![tactic(auto)]

use monitor_cli::{
    Lent, Request, exit_with_status, may_be_done, perform_on_files, request_in, standard_error,
    texts_in, words_in,
};
use std::alloc::AllocError;
use std::io::IsTerminal;
use std::process::ExitCode;

/// Performs a request on its files and on the program's streams, and returns the exit status.
fn perform_task(rt: &HostRuntime, request: &Request<'_>) -> Result<u8, AllocError> {
    let lent = Lent {
        alloc: rt.alloc(),
        files: rt,
        stdin: rt.stdin(),
    };
    let mut err = standard_error(rt);
    let is_terminal = rt.stderr().is_terminal();
    perform_on_files(&lent, rt.stdout(), &mut err, request, is_terminal)
}

/// Parses the command line and performs the task. If that is impossible, the error is the exit status.
fn perform(rt: &HostRuntime) -> Result<ExitCode, ExitCode> {
    let words = words_in(rt)?;
    let texts = texts_in(rt, words.as_slice())?;
    let request = request_in(rt, texts.as_slice())?;
    may_be_done(rt, &request.task)?;
    Ok(exit_with_status(rt, perform_task(rt, &request)))
}

fn main(rt: HostRuntime) -> ExitCode {
    match perform(&rt) {
        Ok(code) | Err(code) => code,
    }
}
