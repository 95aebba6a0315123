//! Positions in the text of a platform file, by line and column.

ghost use Rattle.std.specs.Prelude.{◌≡◌, ◌≤◌, IfSome, length};
ghost use Rattle.input_files.specs.Positions.{position_after};

use std::alloc::AllocError;
use text_lines::{push, push_number};

/// Returns the line and the column after some bytes, both counted from 1. A column counts bytes.
fn position_after(before: &[u8]) -> (u64, u64)
    ensures { result ≡ position_after before.now 1 1 }
{
    let mut line: u64 = 1;
    let mut column: u64 = 1;
    for byte in before {
        if *byte == b'\n' {
            line += 1;
            column = 1;
        } else {
            column += 1;
        }
    }
    (line, column)
}

/// Appends the line and the column after `at` bytes of a text, such as `:3:1: `.
pub(crate) fn push_position(line: &mut Vec<u8>, text: &str, at: usize) -> Result<(), AllocError>
    requires { at ≤ length text.now }
{
    let (row, column) = position_after(&text.as_bytes()[..at]);
    push(line, ":")?;
    push_number(line, row)?;
    push(line, ":")?;
    push_number(line, column)?;
    push(line, ": ")
}

/// Appends the line and the column after some bytes of a text, or `: ` if the position is unknown.
pub(crate) fn push_found(
    line: &mut Vec<u8>,
    text: &str,
    found: Option<usize>,
) -> Result<(), AllocError>
    requires { IfSome found (λ at. at ≤ length text.now) }
{
    match found {
        Some(at) => push_position(line, text, at),
        None => push(line, ": "),
    }
}
