//! The answer to an access as a line.

ghost use Rattle.std.specs.Prelude.{◌≡◌, ◌+◌, ◌≤◌, ◌++◌, length, take};
ghost use Rattle.hart_trace.specs.Answers.{answer_end, place_of};

use pmp_match::Cause;
use text_lines::Line;

/// The part of an answer after its number: the first `len` bytes of a text.
#[derive(Clone, Copy)]
struct Ending {
    text: [u8; 16],
    len: usize,
}

/// The endings of all answers, by index.
static ENDINGS: [Ending; 9] = [
    Ending {
        text: *b" ok\n            ",
        len: 4,
    },
    Ending {
        text: *b" fault 0\n       ",
        len: 9,
    },
    Ending {
        text: *b" fault 1\n       ",
        len: 9,
    },
    Ending {
        text: *b" fault 2\n       ",
        len: 9,
    },
    Ending {
        text: *b" fault 3\n       ",
        len: 9,
    },
    Ending {
        text: *b" fault 4\n       ",
        len: 9,
    },
    Ending {
        text: *b" fault 5\n       ",
        len: 9,
    },
    Ending {
        text: *b" fault 6\n       ",
        len: 9,
    },
    Ending {
        text: *b" fault 7\n       ",
        len: 9,
    },
];

/// Returns the index of an answer's ending: 0 for an allowed access, then by exception code.
#[inline(always)]
fn place_of(answer: Result<(), Cause>) -> usize
    ensures { result ≡ place_of answer }
{
    match answer {
        Ok(()) => 0,
        Err(cause) => usize::from(cause.number()) + 1,
    }
}

/// Returns the ending of an answer, without a branch that would often be mispredicted.
#[inline(always)]
fn ending_of(answer: Result<(), Cause>) -> Ending
    ensures text { take result.len result.text ≡ answer_end answer }
    ensures few { result.len ≤ 16 }
{
    ENDINGS[place_of(answer)]
}

/// Writes the part of an answer after its number: ` ok` or ` fault CAUSE`, and the end of the line.
#[inline(always)]
pub fn push_answer(line: &mut Line, answer: Result<(), Cause>)
    requires { length line.old + 16 ≤ 128 }
    ensures { line.new ≡ line.old ++ answer_end answer }
{
    let ending = ending_of(answer);
    line.push_front(&ending.text, ending.len);
}
