//! Parses events other than accesses in their plainest spelling, such as `reg x10 0x80000ff8`, `ecall 0x10 3` or `irq`,
//! with or without `@H` before them: single spaces between words, and nothing else. These too are parsed in one pass.

ghost use Rattle.std.specs.Prelude.{◌≡◌, ℕ, ◌<◌, List, [], ◌∷◌, ◌++◌, Some, IfSome, true};
ghost use Rattle.std.specs.List.{list_all};
ghost use Rattle.text_lines.specs.Words.{is_plain};
ghost use Rattle.hart_trace.specs.declared.event.Event.TheVariants as events;
ghost use Rattle.hart_trace.specs.Events.{register_of};
ghost use Rattle.hart_trace.specs.Plain.{BeginsCall, BeginsEvent, BeginsNumber, is_letter};

use crate::event_words::has_leading_zero;
use arrayvec::ArrayVec;
use text_lines::{behind_mark, behind_space, leading_hexadecimal, leading_numeral};

/// Returns the text after the letter of a register.
fn behind_letter(text: &[u8]) -> Option<&[u8]>
    ensures { IfSome result (λ digits. text.now ≡ 120 ∷ digits.now) }
{
    match text {
        [b'x', digits @ ..] => Some(digits),
        _ => None,
    }
}

/// Returns the text after `reg` and a space.
fn behind_reg(line: &[u8]) -> Option<&[u8]>
    ensures { IfSome result (λ rest. line.now ≡ 114 ∷ 101 ∷ 103 ∷ 32 ∷ rest.now) }
{
    match line {
        [b'r', b'e', b'g', b' ', rest @ ..] => Some(rest),
        _ => None,
    }
}

/// Returns the text after `ecall` and a space.
fn behind_ecall(line: &[u8]) -> Option<&[u8]>
    ensures { IfSome result (λ rest. line.now
        ≡ 101 ∷ 99 ∷ 97 ∷ 108 ∷ 108 ∷ 32 ∷ rest.now) }
{
    match line {
        [b'e', b'c', b'a', b'l', b'l', b' ', rest @ ..] => Some(rest),
        _ => None,
    }
}

/// Returns the text after `irq`.
fn behind_irq(line: &[u8]) -> Option<&[u8]>
    ensures { IfSome result (λ behind. line.now ≡ 105 ∷ 114 ∷ 113 ∷ behind.now) }
{
    match line {
        [b'i', b'r', b'q', behind @ ..] => Some(behind),
        _ => None,
    }
}

/// Returns the first byte of a text, and the text after it.
fn first_byte(text: &[u8]) -> Option<(u8, &[u8])>
    ensures { IfSome result (λ found. text.now ≡ found.0 ∷ found.1.now) }
{
    match text {
        [first, behind @ ..] => Some((*first, behind)),
        _ => None,
    }
}

/// Parses a number of one decimal digit, followed by a space or LF, and returns it and the text after it. Most numbers
/// of a call are that short and need no loop.
#[inline(always)]
fn one_digit(text: &[u8]) -> Option<(u64, &[u8])>
    ensures { IfSome result (λ found. BeginsNumber text.now found.0 found.1.now) }
{
    let (first, behind) = first_byte(text)?;
    let (next, _) = first_byte(behind)?;
    if first < b'0' || first > b'9' || next != b' ' && next != b'\n' {
        return None;
    }
    Some((u64::from(first - b'0'), behind))
}

/// Parses a number of any number of decimal digits, and returns it and the text after it. It is not inlined, to keep
/// the stack frame of its callers small.
#[inline(never)]
fn long_number(text: &[u8]) -> Option<(u64, &[u8])>
    ensures { IfSome result (λ found. BeginsNumber text.now found.0 found.1.now) }
{
    let (value, behind) = leading_numeral(text, 10)?;
    Some((value, behind))
}

/// Parses a number, and returns it and the text after it.
#[inline(always)]
pub(crate) fn plain_number(text: &[u8]) -> Option<(u64, &[u8])>
    ensures { IfSome result (λ found. BeginsNumber text.now found.0 found.1.now) }
{
    if let Some(found) = one_digit(text) {
        return Some(found);
    }
    if let Some(digits) = behind_mark(text) {
        let (value, behind) = leading_hexadecimal(digits)?;
        return Some((value, behind));
    }
    long_number(text)
}

/// Parses a register followed by a space, and returns it and the text after the space.
fn plain_register(text: &[u8]) -> Option<(u8, &[u8])>
    ensures { IfSome result (λ found.
        (digits : List ℕ) × (text.now ≡ (120 ∷ digits) ++ 32 ∷ found.1.now)
        × (list_all is_letter digits ≡ true) × (register_of (120 ∷ digits) ≡ Some found.0)) }
{
    let digits = behind_letter(text)?;
    let (n, behind) = leading_numeral(digits, 10)?;
    let rest = behind_space(behind)?;
    if has_leading_zero(digits) || n >= 32 {
        return None;
    }
    Some((n as u8, rest))
}

/// Parses the register setting of a plain line, and returns the register, its value, and the text after the line.
#[inline(always)]
pub(crate) fn plain_setting(text: &[u8]) -> Option<(u8, u64, &[u8])>
    ensures { IfSome result (λ found.
        BeginsEvent text.now (events.Reg found.0 found.1) found.2.now) }
{
    let rest = behind_reg(text)?;
    let (register, behind) = plain_register(rest)?;
    let (value, end) = plain_number(behind)?;
    Some((register, value, end))
}

/// Appends the words of a call, of which there must be at least one, to an empty list, and returns the text after them.
#[inline(always)]
fn plain_words<'a>(rest: &'a [u8], words: &mut ArrayVec<u64, 8>) -> Option<&'a [u8]>
    requires { words.old.items ≡ [] }
    ensures { IfSome result (λ behind.
        BeginsCall rest.now (events.Ecall words.new) behind.now) }
{
    let mut left = rest;
    'words: loop {
        let (number, behind) = plain_number(left)?;
        if words.is_full() {
            return None;
        }
        words.push(number);
        left = match behind_space(behind) {
            Some(next) => next,
            None => return Some(behind),
        };
    }
}

/// Parses the call of a plain line in the same way. The list is borrowed, because a returned call would be copied
/// several times.
#[inline(always)]
pub(crate) fn plain_call<'a>(text: &'a [u8], words: &mut ArrayVec<u64, 8>) -> Option<&'a [u8]>
    requires { words.old.items ≡ [] }
    ensures { IfSome result (λ behind.
        BeginsEvent text.now (events.Ecall words.new) behind.now) }
{
    let rest = behind_ecall(text)?;
    plain_words(rest, words)
}

/// Parses the interrupt of a plain line, and returns the text after the line.
#[inline(always)]
pub(crate) fn plain_interrupt(text: &[u8]) -> Option<&[u8]>
    ensures { IfSome result (λ behind. BeginsEvent text.now events.Irq behind.now) }
{
    behind_irq(text)
}
