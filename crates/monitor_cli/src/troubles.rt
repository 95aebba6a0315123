//! The end of a program after a failure.

ghost use Rattle.std.specs.Prelude.{◌≡◌, MatchResult};
ghost use Rattle.std.specs.Process.{exit_status};
ghost use Rattle.text_lines.specs.Streams.{failures_of};
ghost use Rattle.program_files.specs.Troubles.{trouble_status};

use program_files::{RetryInterrupted, Trouble};
use std::alloc::AllocError;
use std::io::Stderr;
use std::process::ExitCode;
use text_lines::Counted;

/// Returns standard error, which retries a write that a signal interrupted.
pub fn standard_error(rt: &HostRuntime) -> Counted<RetryInterrupted<Stderr>>
    ensures { failures_of result ≡ 0 }
{
    Counted::new(RetryInterrupted::new(rt.stderr()))
}

/// Reports a failure, and returns the exit status.
pub(crate) fn exit_with_trouble(rt: &HostRuntime, trouble: Trouble<'_>) -> ExitCode
    ensures { exit_status result ≡ trouble_status trouble.entry }
{
    let mut err = standard_error(rt);
    let _ = trouble.print(&mut err);
    ExitCode::from(trouble.status())
}

/// Returns the exit status of a finished task, or reports a failed allocation.
pub fn exit_with_status(rt: &HostRuntime, status: Result<u8, AllocError>) -> ExitCode
    ensures { MatchResult status (λ status. exit_status result ≡ status)
        (λ _. exit_status result ≡ 4) }
{
    match status {
        Ok(status) => ExitCode::from(status),
        Err(AllocError) => exit_with_trouble(rt, Trouble::Memory),
    }
}
