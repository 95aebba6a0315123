//! The input and output files of a task, by name.

ghost use Rattle.std.specs.Prelude.{◌≡◌, ◌↔◌, true};
ghost use Rattle.command_line.specs.Places.{cert_of, first_of, place_of, second_of, ReadsTwice};

use crate::Task;
use crate::task::outline_of;

/// The word for standard input.
const STANDARD_INPUT: &str = "-";

/// The source of an input.
#[derive(Clone, Copy)]
pub enum InputName<'a> {
    /// Standard input.
    StandardInput,
    /// The file with this name.
    File(&'a str),
}

/// Returns the file with this name, or standard input for the word `-`.
fn place_of(name: &str) -> InputName<'_>
    ensures { result ≡ place_of name.entry }
{
    if name == STANDARD_INPUT {
        return InputName::StandardInput;
    }
    InputName::File(name)
}

/// Returns the first input of a task.
pub fn first_of<'a>(task: &Task<'a>) -> InputName<'a>
    ensures { result ≡ first_of task.now }
{
    place_of(outline_of(task).first)
}

/// Returns the second input of a task, if it has one.
pub fn second_of<'a>(task: &Task<'a>) -> Option<InputName<'a>>
    ensures { result ≡ second_of task.now }
{
    match outline_of(task).second {
        Some(name) => Some(place_of(name)),
        None => None,
    }
}

/// Returns whether a task would read standard input twice.
pub fn reads_twice(task: &Task<'_>) -> bool
    ensures { (result ≡ true) ↔ ReadsTwice task.now }
{
    matches!(
        (first_of(task), second_of(task)),
        (InputName::StandardInput, Some(InputName::StandardInput))
    )
}

/// Returns the name of the certificate file that a task writes, if it writes one.
pub fn cert_of<'a>(task: &Task<'a>) -> Option<&'a str>
    ensures { result ≡ cert_of task.now }
{
    outline_of(task).cert
}
