//! The program's subcommands, in the form that `clap` needs.

ghost use Rattle.std.specs.Prelude.{IfOk};
ghost use Rattle.clap.specs.Words.{new_app};
ghost use Rattle.command_line.specs.CommandLine.{app_by, bare_app, program_app, with_arguments, IsCommandOf};

use crate::table::{Argument, Row, row_of};
use crate::task::{SUBCOMMANDS, Subcommand};
use crate::texts::{ABOUT, EXAMPLE, VERSION};
use clap::Command;
use std::alloc::{AllocError, Global};

/// Returns a command without arguments, with its help texts.
fn plain_command<'a>(alloc: Global, name: &'a str, about: &'a str, more: &'a str) -> Command<'a>
    ensures { IsCommandOf (new_app name.entry.now) result }
{
    Command::new(alloc, name).about(about).after_help(more)
}

/// Returns a command with its arguments and its help texts.
fn command<'a>(
    alloc: Global,
    name: &'a str,
    about: &'a str,
    more: &'a str,
    arguments: &[Argument<'a>],
) -> Result<Command<'a>, AllocError>
    ensures { IfOk result (IsCommandOf (with_arguments (new_app name.entry.now)
        arguments.entry.now)) }
{
    let mut command = plain_command(alloc, name, about, more);
    for &argument in arguments {
        command = command.arg(argument.arg(alloc))?;
    }
    Ok(command)
}

/// Returns a subcommand in the form that `clap` needs.
fn subcommand_command<'a>(alloc: Global, subcommand: Subcommand) -> Result<Command<'a>, AllocError>
    ensures { IfOk result (IsCommandOf (app_by subcommand)) }
{
    let row: Row<'a> = row_of(subcommand);
    command(alloc, subcommand.name(), row.about, row.more, row.arguments)
}

/// Returns the program without its subcommands, one of which is required.
fn bare_program<'a>(alloc: Global) -> Command<'a>
    ensures { IsCommandOf bare_app result }
{
    plain_command(alloc, "pmpmon", ABOUT, EXAMPLE)
        .version(VERSION)
        .subcommand_required(true)
}

/// Returns the program with its subcommands.
pub fn program<'a>(alloc: Global) -> Result<Command<'a>, AllocError>
    ensures { IfOk result (IsCommandOf program_app) }
{
    let mut program = bare_program(alloc);
    for subcommand in &SUBCOMMANDS {
        program = program.subcommand(subcommand_command(alloc, *subcommand)?)?;
    }
    Ok(program)
}

/// Returns the subcommand with this name, with its usage name, or the program itself if there is no such subcommand.
pub fn subcommand_named<'a>(alloc: Global, name: &str) -> Result<Command<'a>, AllocError> {
    let Some(subcommand) = Subcommand::of(name) else {
        return program(alloc);
    };
    subcommand_command(alloc, subcommand)?.bin_name(subcommand.usage_name())
}
