//! An answer with a comment after it.

ghost use Rattle.std.specs.Prelude.{◌≡◌, ◌≤◌, ◌++◌, codes, decimal, length, take};
ghost use Rattle.trace_answers.specs.Explained.{explained};

use arrayvec::{ArrayString, ArrayVec};
use text_lines::{Line, append, push_decimal, push_text, unended};

/// The text of a comment. Parts that do not fit are omitted.
pub type Comment = ArrayString<256>;

/// The maximal number of bytes of a line before its LF.
const ROOM: usize = 127;

/// An answer and its comment at full length.
type Whole = ArrayVec<u8, 512>;

/// Returns at most `room` bytes of a text.
fn fitting(text: &[u8], room: usize) -> &[u8]
    ensures value { result.now ≡ take room text.now }
    ensures most { length result.now ≤ room }
{
    if text.len() <= room {
        return text;
    }
    &text[..room]
}

/// Makes a line of the beginning of a text.
fn line_of(text: &[u8], room: usize) -> Line
    requires { room ≤ 127 }
    ensures { result ≡ take room text.now ++ codes "\n" }
{
    let mut line = Line::new();
    push_text(&mut line, fitting(text, room));
    line.push(b'\n');
    line
}

/// Returns the number of decimal digits of a number.
fn count_digits(number: u64) -> usize
    ensures digits { result ≡ length (decimal number) }
    ensures most { result ≤ 20 }
{
    let mut digits = Line::new();
    push_decimal(&mut digits, number);
    digits.len()
}

/// Appends a comment to an answer. The line holds the answer without its number; with the number it has at most 128
/// bytes, and a comment that does not fit is cut off.
pub fn explain(answer: &mut Line, number: u64, comment: &Comment)
    ensures { decimal number ++ answer.new
        ≡ explained (decimal number ++ answer.old) comment.now.bytes }
{
    let mut whole: Whole = ArrayVec::new();
    append(&mut whole, unended(answer.as_slice()));
    append(&mut whole, b" # ");
    append(&mut whole, comment.as_str().as_bytes());
    *answer = line_of(whole.as_slice(), ROOM - count_digits(number));
}
