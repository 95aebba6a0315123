//! The inputs of a task.

ghost use Rattle.std.specs.Prelude.{◌≡◌};
ghost use Rattle.monitor_cli.specs.TaskInputs.{reader_in, AreInputs, IsAt, IsFresh};

use command_line::{InputName, NO_FILE, Task, first_of, second_of};
use program_files::{Explained, InputToRead};
use std::fs;
use std::io::Read;
use std::rt::Files;
use text_lines::Counted;

/// An input of a task, which counts failures and records the reason of the last one.
pub type Input<'a, R, S> = Counted<Explained<InputToRead<'a, R, S>>>;

/// Wraps an input to count its failures and record the reason of the last one.
fn reading<'a, R: Files, S: Read>(input: InputToRead<'a, R, S>) -> Input<'a, R, S>
    ensures input { reader_in result ≡ input.entry }
    ensures fresh { IsFresh result }
{
    Counted::new(Explained::new(input))
}

/// Returns the input at a place, which is opened at the first read. If the task has no such input, its name is that of
/// no file.
fn input_at<'a, R: Files, S: Read + Copy>(
    files: &'a R,
    stdin: S,
    place: Option<InputName<'a>>,
) -> Input<'a, R, S>
    ensures place { IsAt stdin place.entry (reader_in result) }
    ensures fresh { IsFresh result }
{
    match place {
        Some(InputName::StandardInput) => reading(InputToRead::of_stream(stdin)),
        Some(InputName::File(name)) => reading(InputToRead::of_file(files, name)),
        None => reading(InputToRead::of_file(files, NO_FILE)),
    }
}

/// Returns the first and the second input of a task. Each is opened at its first read.
pub fn inputs<'a, R: Files, S: Read + Copy>(
    files: &'a R,
    stdin: S,
    task: &Task<'a>,
) -> (Input<'a, R, S>, Input<'a, R, S>)
    ensures { AreInputs stdin task.now result.0 result.1 }
{
    (
        input_at(files, stdin, Some(first_of(task))),
        input_at(files, stdin, second_of(task)),
    )
}

/// Returns the input at a place for re-reading, if it is a plain file. A pipe cannot be re-read, and opening it might
/// block.
fn input_again<'a, R: Files, S: Read + Copy>(
    files: &'a R,
    stdin: S,
    place: Option<InputName<'a>>,
) -> Input<'a, R, S> {
    let Some(InputName::File(name)) = place else {
        return input_at(files, stdin, None);
    };
    match fs::metadata(files, name) {
        Ok(stands) if stands.is_file() => input_at(files, stdin, Some(InputName::File(name))),
        _ => input_at(files, stdin, None),
    }
}

/// Returns the inputs of a task for re-reading. Standard input cannot be re-read.
pub fn inputs_again<'a, R: Files, S: Read + Copy>(
    files: &'a R,
    stdin: S,
    task: &Task<'a>,
) -> (Input<'a, R, S>, Input<'a, R, S>) {
    (
        input_again(files, stdin, Some(first_of(task))),
        input_again(files, stdin, second_of(task)),
    )
}
