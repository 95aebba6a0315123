//! The request of a command line: a task with its options.

ghost use Rattle.std.specs.Prelude.{◌≡◌, IfErr, IfOk};
ghost use Rattle.command_line.specs.Requests.{alone, HasRequest, IsFaultOfRequest, NamesNoRequest};
ghost use Rattle.command_line.specs.Subcommands.{word_of};
ghost use Rattle.command_line.specs.Tasks.{IsSound};
ghost use Rattle.clap.specs.Words.{subcommand_rows_of};
ghost use Rattle.command_line.specs.CommandLine.{AreNone, IsFaultIn, IsRequest};
ghost use Rattle.command_line.specs.Given.{flags_of, values_of};

use crate::fault::Fault;
use crate::hints::hints_in;
use crate::options::Options;
use crate::task::{Subcommand, Task};
use crate::tasks::task_in;
use clap::ArgMatches;

/// A task with its options.
#[derive(Clone, Copy)]
pub struct Request<'a> {
    /// The task.
    pub task: Task<'a>,
    /// The options.
    pub options: Options<'a>,
}

impl<'a> Request<'a> {
    /// Returns a task with default options.
    pub fn alone(task: Task<'a>) -> Request<'a>
        ensures { result ≡ alone task.entry }
    {
        Request {
            task,
            options: Options::default(),
        }
    }
}

/// Returns the request of the entered subcommand, or a fault iff its values form no sound request.
pub(crate) fn request_in<'a>(matches: &ArgMatches<'a>) -> Result<Request<'a>, Fault<'a>>
    ensures request { IfOk result (IsRequest (subcommand_rows_of matches.now)) }
    ensures sound { IfOk result (λ request. IsSound request.task request.options) }
    ensures refused { IfErr result (λ _. AreNone (subcommand_rows_of matches.now)) }
    ensures fault { IfErr result (IsFaultIn (subcommand_rows_of matches.now)) }
{
    let Some((name, given)) = matches.subcommand() else {
        return Err(Fault::Missing);
    };
    request_of(name, given)
}

/// Returns the request of a subcommand with its values, or a fault iff these form no sound request.
fn request_of<'a>(name: &str, given: &ArgMatches<'a>) -> Result<Request<'a>, Fault<'a>>
    ensures word { IfOk result (λ request. word_of request.task ≡ name.now) }
    ensures values { IfOk result (HasRequest (values_of given.now) (flags_of given.now)) }
    ensures sound { IfOk result (λ request. IsSound request.task request.options) }
    ensures refused { IfErr result (λ _. NamesNoRequest name.now (values_of given.now)
        (flags_of given.now)) }
    ensures fault { IfErr result (IsFaultOfRequest name.now (values_of given.now)
        (flags_of given.now)) }
{
    let hints = hints_in(given)?;
    let base = Options {
        hints,
        ..Options::default()
    };
    let Some(subcommand) = Subcommand::of(name) else {
        return Err(Fault::Missing);
    };
    task_in(subcommand, given, base)
}
