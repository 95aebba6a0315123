//! The task that the words of a command line name.

ghost use Rattle.std.specs.Prelude.{◌≡◌, [], IfErr, IfOk, map};
ghost use Rattle.clap.specs.Words.{fault_of, kind_of, subcommand_of};
ghost use Rattle.command_line.specs.CommandLine.{program_app, Refuses};
ghost use Rattle.monitor_cli.specs.Words.{IsTask};

use clap::Error;
use command_line::{Task, request_of_words};
use std::alloc::Global;

/// Returns the task that the words of a command line name; the first word is the program's name. Options are ignored:
/// [`request_of_words`] returns both.
///
/// The error is a fault of the command line, a failed allocation, or a request for help or the version: its `kind`
/// distinguishes these, and its `Display` is the text for the user.
pub fn command_of<'a>(alloc: Global, words: &'a [&'a str]) -> Result<Task<'a>, Error>
    ensures task { IfOk result (IsTask (subcommand_of program_app
        (map (λ s. s.now) words.entry.now))) }
    ensures taken { IfOk result (λ _. fault_of program_app (map (λ s. s.now) words.entry.now)
        ≡ []) }
    ensures refused { IfErr result (λ error.
        Refuses (map (λ s. s.now) words.entry.now) (kind_of error)) }
{
    let request = request_of_words(alloc, words)?;
    Ok(request.task)
}
