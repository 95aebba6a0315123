//! `clap` errors, with the usage of the subcommand, for words that are well-formed but name no task.

ghost use Rattle.std.specs.Prelude.{IfOk};
ghost use Rattle.clap.specs.Words.{kind_of};
ghost use Rattle.command_line.specs.Kinds.{IsMistake};

use crate::fault::Fault;
use crate::subcommands::subcommand_named;
use clap::Error;
use std::alloc::{AllocError, Global};
use text_lines::numeral;

/// Returns the value of `--at-most` that the tip suggests in place of an invalid `--entries`, if the subcommand has that
/// option and the value is a number without a leading zero.
fn suggested_at_most<'a>(name: &str, fault: &Fault<'a>) -> Option<&'a str> {
    let Fault::Entries(word) = *fault else {
        return None;
    };
    let has_at_most = name == "plan" || name == "show";
    let is_count = numeral(word.as_bytes(), 10).is_some() && !word.starts_with('0');
    if has_at_most && is_count {
        return Some(word);
    }
    None
}

/// Returns the error for a fault, with the usage of the subcommand with this name, and a tip if another option does what was
/// meant.
pub fn error_with_usage(alloc: Global, name: &str, fault: &Fault<'_>) -> Result<Error, AllocError>
    ensures { IfOk result (λ error. IsMistake (kind_of error)) }
{
    let text = match suggested_at_most(name, fault) {
        Some(word) => format!(in alloc;
            "{fault}\n\n  tip: to refuse a map that needs more than {word} entries, use '--at-most {word}'"
        )?,
        None => format!(in alloc; "{fault}")?,
    };
    let mut command = subcommand_named(alloc, name)?;
    command.error(fault.kind(), text.as_str())
}
