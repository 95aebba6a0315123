//! The request of the words of a command line.

ghost use Rattle.std.specs.Prelude.{◌≡◌, IfErr, IfOk, [], map};
ghost use Rattle.clap.specs.Words.{fault_of, kind_of, subcommand_of};
ghost use Rattle.command_line.specs.Tasks.{IsSound};
ghost use Rattle.command_line.specs.CommandLine.{program_app, IsRequest, Refuses};

use crate::request::{Request, request_in};
use crate::subcommands::program;
use crate::usage::error_with_usage;
use clap::Error;
use std::alloc::Global;

/// Returns the task that the words of a command line name, with its options; the first word is the program's name.
///
/// The error is a fault of the command line, a failed allocation, or a request for help or the version: its `kind`
/// distinguishes these, and its `Display` is the text for the user.
pub fn request_of_words<'a>(alloc: Global, words: &'a [&'a str]) -> Result<Request<'a>, Error>
    ensures request { IfOk result (IsRequest (subcommand_of program_app
        (map (λ s. s.now) words.entry.now))) }
    ensures sound { IfOk result (λ request. IsSound request.task request.options) }
    ensures taken { IfOk result (λ _. fault_of program_app (map (λ s. s.now) words.entry.now)
        ≡ []) }
    ensures refused { IfErr result (λ error.
        Refuses (map (λ s. s.now) words.entry.now) (kind_of error)) }
{
    let mut program = program(alloc)?;
    let matches = program.try_get_matches_from_mut(words)?;
    match request_in(&matches) {
        Ok(request) => Ok(request),
        Err(fault) => {
            let name = matches.subcommand_name().unwrap_or("");
            Err(error_with_usage(alloc, name, &fault)?)
        }
    }
}
