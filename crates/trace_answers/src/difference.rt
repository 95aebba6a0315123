//! An answer that differs from the one that its line expects.

ghost use Rattle.std.specs.Prelude.{◌≡◌, ◌≤◌, ◌++◌, decimal, length};

use crate::comments::comment_of;
use arrayvec::ArrayVec;
use itoa::Buffer;
use text_lines::{Line, allowed_len, append, unended};

/// The maximal size of an answer in bytes.
const ROOM: usize = 160;

/// The number of bytes of a comment that are shown.
const SHOWN: usize = 128;

/// The text of a message about a difference.
pub type DifferenceText = ArrayVec<u8, 384>;

/// An answer that differs from the one that the comment of its line expects.
#[derive(Drop)]
pub struct Difference {
    /// The number of the line, from 1.
    pub number: u64,
    /// The whole answer, with its number and its LF.
    pub answer: ArrayVec<u8, ROOM>,
    comment: ArrayVec<u8, SHOWN>,
}

/// Joins the number of an answer and the rest of it.
pub(crate) fn numbered(number: u64, rest: &Line) -> ArrayVec<u8, ROOM>
    ensures { result.items ≡ decimal number ++ rest.now }
{
    let mut text = ArrayVec::new();
    let mut buffer = Buffer::new();
    append(&mut text, buffer.format(number).as_bytes());
    append(&mut text, rest.as_slice());
    text
}

/// Returns the comment of a line up to its first byte that is not visible, at most 128 bytes of it.
fn shown_comment(line: &[u8]) -> &[u8]
    ensures { length result.now ≤ 128 }
{
    let comment = comment_of(line);
    &comment[..allowed_len(comment).min(SHOWN)]
}

impl Difference {
    ghost use Rattle.std.specs.Prelude.{◌≡◌};

    /// Notes that the answer to this line differs.
    pub(crate) fn new(number: u64, line: &[u8], answer: ArrayVec<u8, ROOM>) -> Difference
        ensures number { result.number ≡ number }
        ensures answer { result.answer ≡ answer }
    {
        let mut comment = ArrayVec::new();
        append(&mut comment, shown_comment(line));
        Difference {
            number,
            answer,
            comment,
        }
    }

    /// Returns the message: the line's number, its answer, and the comment that expects another one.
    pub fn text(&self) -> DifferenceText {
        let mut text = ArrayVec::new();
        let mut buffer = Buffer::new();
        append(&mut text, b"line ");
        append(&mut text, buffer.format(self.number).as_bytes());
        append(&mut text, b": answered '");
        append(&mut text, unended(self.answer.as_slice()));
        append(&mut text, b"', expected ");
        append(&mut text, self.comment.as_slice());
        append(&mut text, b"\n");
        text
    }
}
