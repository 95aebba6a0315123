//! Writes the line of a reply to a buffer of fixed length.

ghost use Rattle.std.specs.Prelude.{◌≡◌, ◌≢◌, ℕ, [], ◌++◌, ◌+◌, ◌<◌, ◌≤◌, codes, decimal, length, replicate, take};
ghost use Rattle.std.specs.Fmt.{signed_decimal};
ghost use Rattle.text_lines.specs.Written.{hex};
ghost use Rattle.pmp_match.specs.Causes.{cause_number};
ghost use Rattle.hart_trace.specs.declared.reply.Reply.TheVariants.{NoMemory};
ghost use Rattle.hart_trace.specs.Texts.{reply_text};

use crate::reply::Reply;
use pmp_match::Cause;
use std::simd::prelude::*;
use text_lines::{Line, push_decimal, push_hex, push_text, push_word_line, word_digits};

/// Appends a signed number in decimal.
fn push_signed(line: &mut Line, n: i64)
    requires { length line.old + 21 ≤ 128 }
    ensures items { line.new ≡ line.old ++ signed_decimal n }
    ensures len { length line.new ≤ length line.old + 21 }
{
    if n < 0 {
        line.push(b'-');
    }
    push_decimal(line, n.unsigned_abs());
}

/// Appends ` 0x` and 16 digits.
fn push_word(line: &mut Line, value: u64)
    requires { length line.old + 19 ≤ 128 }
    ensures items { line.new ≡ line.old ++ codes " 0x" ++ hex 16 value }
    ensures len { length line.new ≡ length line.old + 19 }
{
    push_text(line, b" 0x");
    push_hex(line, value, 16);
}

/// Appends a world and a number of entries, and the end of the line.
fn push_end(line: &mut Line, world: u64, used: u64)
    requires { length line.old + 43 ≤ 128 }
    ensures items { line.new ≡ line.old ++ codes " " ++ decimal world ++ codes " "
        ++ decimal used
        ++ codes "\n" }
    ensures len { length line.new ≤ length line.old + 43 }
{
    line.push(b' ');
    push_decimal(line, world);
    line.push(b' ');
    push_decimal(line, used);
    line.push(b'\n');
}

/// Returns a world and a number of entries of one digit each, and the end of a line, in the first five bytes.
#[inline(always)]
fn short_end(world: u64, used: u64) -> [u8; 16]
    requires world { world < 10 }
    requires used { used < 10 }
    ensures { result ≡ codes " " ++ decimal world ++ codes " " ++ decimal used ++ codes "\n"
        ++ replicate 11 0 }
{
    let world = b'0' + world as u8;
    let used = b'0' + used as u8;
    [
        b' ', world, b' ', used, b'\n', 0, 0, 0, 0, 0, 0, 0, 0, 0, 0, 0,
    ]
}

/// Returns the part after the number of the reply to a call with status 0, if the world and the number of entries have
/// one digit each: 16 bytes and 15. They are assembled in SIMD lanes, so that a later load of either matches a single
/// store and need not wait.
#[inline(always)]
fn short_call(value: u64, world: u64, used: u64) -> (u8x16, u8x16)
    requires world { world < 10 }
    requires used { used < 10 }
    ensures { take 16 result.0 ++ take 15 result.1 ≡ codes " call 0 0x" ++ hex 16 value
        ++ codes " "
        ++ decimal world
        ++ codes " "
        ++ decimal used
        ++ codes "\n" }
{
    let front = u8x16::from_array(*b" call 0 0x      ");
    let digits = word_digits(value);
    let end = u8x16::from_array(short_end(world, used));
    let first: u8x16 = front.shuffle(
        digits,
        [0, 1, 2, 3, 4, 5, 6, 7, 8, 9, 16, 17, 18, 19, 20, 21],
    );
    let second: u8x16 = digits.shuffle(
        end,
        [6, 7, 8, 9, 10, 11, 12, 13, 14, 15, 16, 17, 18, 19, 20, 21],
    );
    (first, second)
}

/// Writes the part after the number of the reply to a call.
fn push_call(line: &mut Line, status: i64, value: u64, world: u64, used: u64)
    requires { line.old ≡ [] }
    ensures { line.new ≡ codes " call " ++ signed_decimal status ++ codes " 0x" ++ hex 16 value
        ++ codes " "
        ++ decimal world
        ++ codes " "
        ++ decimal used
        ++ codes "\n" }
{
    if status == 0 && world < 10 && used < 10 {
        let (first, second) = short_call(value, world, used);
        line.push_lanes(first, 16);
        line.push_lanes(second, 15);
        return;
    }
    push_text(line, b" call ");
    push_signed(line, status);
    push_word(line, value);
    push_end(line, world, used);
}

/// The part after the number of the reply to a failed access, by its cause, in the first nine bytes.
static FAULTS: [[u8; 16]; 8] = [
    *b" fault 0\n       ",
    *b" fault 1\n       ",
    *b" fault 2\n       ",
    *b" fault 3\n       ",
    *b" fault 4\n       ",
    *b" fault 5\n       ",
    *b" fault 6\n       ",
    *b" fault 7\n       ",
];

/// Returns the text of a fault, without a branch on its cause.
#[inline(always)]
fn fault_text(cause: Cause) -> [u8; 16]
    ensures { take 9 result ≡ codes " fault " ++ decimal (cause_number cause) ++ codes "\n" }
{
    FAULTS[usize::from(cause.number())]
}

/// Writes the part of a reply after its number. A reply that is out of memory has no text.
pub fn push_reply(line: &mut Line, reply: &Reply)
    requires { line.old ≡ [] }
    ensures text { reply.now ≢ NoMemory
        → (n : ℕ) → decimal n ++ line.new ≡ reply_text n reply.now }
    ensures nothing { reply.now ≡ NoMemory → line.new ≡ [] }
{
    match reply {
        Reply::Done => line.push_front(b" ok\n            ", 4),
        Reply::Loaded(value) => push_word_line(line, *b" ok 0x          ", *value),
        Reply::Fault(cause) => line.push_front(&fault_text(*cause), 9),
        Reply::Call {
            status,
            value,
            world,
            used,
        } => push_call(line, *status, *value, *world, *used),
        Reply::Irq { world, used } => {
            push_text(line, b" irq");
            push_end(line, *world, *used);
        }
        Reply::NoMemory => {}
    }
}
