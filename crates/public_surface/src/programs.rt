//! The program's own calls: its command line, its tasks, and the texts that they use.

ghost use Rattle.std.specs.Prelude.{◌≡◌, true};

use clap::Error;
use enclave_table::Platform;
use hart_sim::{RunFault, Sink, Source};
use monitor_cli::{Task, TextFault, command_of, digest_text, judge_trace, perform, platform_of};
use pmp_encoding::{Bank, Limit};
use std::alloc::Global;

/// Parses the words of a command line into a task.
pub fn asked<'a>(alloc: Global, words: &'a [&'a str]) -> Result<Task<'a>, Error> {
    command_of(alloc, words)
}

/// Returns a task of each of the first four subcommands.
pub fn tasks<'a>(map: &'a str, trace: &'a str, cert: &'a str) -> [Task<'a>; 4] {
    [
        Task::Run {
            platform: map,
            trace,
            measure: true,
        },
        Task::Plan {
            map,
            cert: Some(cert),
            limit: Limit::Sixteen,
        },
        Task::Judge {
            map,
            trace,
            limit: Limit::SixtyFour,
        },
        Task::Check { map, cert },
    ]
}

/// Performs a task on borrowed devices and returns its status.
pub fn done<R: Source, C: Sink, W: Sink, E: Sink>(
    alloc: Global,
    task: &Task<'_>,
    first: &mut R,
    second: &mut R,
    cert: &mut C,
    out: &mut W,
    err: &mut E,
) -> u8 {
    perform(alloc, task, first, second, cert, out, err)
}

/// Parses a platform.
pub fn platform(alloc: Global, text: &str) -> Result<Platform, TextFault> {
    platform_of(alloc, text)
}

/// Uses the number of each fault of a text.
pub fn has_number_of_text(fault: TextFault) -> bool
    ensures { result ≡ true }
{
    let number: u8 = match fault {
        TextFault::NotAPlatform => 1,
        TextFault::Memory => 2,
    };
    fault.number() == number
}

/// Formats a digest as digits.
pub fn digits(digest: &[u8; 32]) -> [u8; 64] {
    digest_text(digest)
}

/// Judges a trace.
pub fn judged<R: Source, W: Sink>(
    bank: &Bank,
    source: &mut R,
    sink: &mut W,
) -> Result<(), RunFault> {
    judge_trace(bank, source, sink)
}
