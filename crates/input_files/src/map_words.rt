//! Explains why a line of a map file is invalid, with a correction.

ghost use Rattle.std.specs.Prelude.{◌^◌, ◌≤◌};

use crate::map_numbers::{push_base_part, push_no_base, push_no_number, push_size_part};
use crate::map_perms::push_perm;
use crate::said_words::{byte_fault, push_column};
use permission_map::Memory;
use pmp_encoding::SPACE_SIZE;
use text_lines::{
    LONGEST, Placed, allowed_len, are_allowed, content_of, has_mark, number, push, push_address,
    without_return, word_from,
};

/// Appends the maximum size.
fn push_most(text: &mut Vec<u8>, first: u64) -> Result<(), Memory>
    requires { first ≤ 2 ^ 56 }
{
    push(text, "BASE and SIZE end past 2^56; SIZE is at most ")?;
    push_address(text, SPACE_SIZE - first)?;
    Ok(())
}

/// Appends that a range ends after the space.
fn push_past_end(text: &mut Vec<u8>, size_at: usize, first: u64) -> Result<(), Memory>
    requires first { first ≤ 2 ^ 56 }
{
    push_column(text, size_at)?;
    push_most(text, first)?;
    Ok(())
}

/// Appends that a base is outside the space.
fn push_past(text: &mut Vec<u8>, base_at: usize) -> Result<(), Memory> {
    push_column(text, base_at)?;
    push(
        text,
        "BASE is past 2^56; the space ends at 0x100000000000000",
    )
}

/// Appends the fault of a range whose base and size are numbers, given the word at fault.
fn push_range(
    text: &mut Vec<u8>,
    base: Placed<'_>,
    size: Placed<'_>,
    perm: Placed<'_>,
    first: u64,
    bytes: u64,
) -> Result<(), Memory> {
    if first > SPACE_SIZE {
        return push_past(text, base.before);
    }
    if first % 4096 != 0 {
        return push_base_part(text, base, first, bytes);
    }
    if bytes > SPACE_SIZE - first {
        return push_past_end(text, size.before, first);
    }
    if bytes % 4096 != 0 {
        return push_size_part(text, size, first, bytes);
    }
    push_perm(text, perm.before, perm.word)
}

/// Appends the fault of three words, of which the first is this number.
fn push_three(
    text: &mut Vec<u8>,
    base: Placed<'_>,
    size: Placed<'_>,
    perm: Placed<'_>,
    first: u64,
) -> Result<(), Memory> {
    let Some(bytes) = number(size.word) else {
        return push_no_number(text, "SIZE", size);
    };
    push_range(text, base, size, perm, first, bytes)
}

/// Appends the fault of the words of a line without its comment.
fn push_words(text: &mut Vec<u8>, line: &[u8]) -> Result<(), Memory> {
    let base = word_from(line, 0);
    let Some(first) = number(base.word) else {
        return push_no_base(text, base);
    };
    let size = word_from(line, base.end);
    if size.word.is_empty() {
        push_column(text, base.end)?;
        return push(text, "SIZE and PERM are wanting; a line is BASE SIZE PERM");
    }
    let perm = word_from(line, size.end);
    if perm.word.is_empty() {
        push_column(text, size.end)?;
        return push(text, "PERM is wanting; write none, r, rw, x, rx or rwx");
    }
    let more = word_from(line, perm.end);
    if !more.word.is_empty() {
        push_column(text, more.before)?;
        return push(text, "a fourth word; a comment begins with #");
    }
    push_three(text, base, size, perm, first)
}

/// Appends the fault of a line without its LF and CR.
fn push_line(text: &mut Vec<u8>, line: &[u8]) -> Result<(), Memory> {
    let content = content_of(line);
    if are_allowed(content) {
        return push_words(text, content);
    }
    let at = allowed_len(line);
    push_column(text, at)?;
    push(text, byte_fault(&line[at..]))
}

/// Appends the fault of a line of at most 1023 bytes.
fn push_short(text: &mut Vec<u8>, raw: &[u8]) -> Result<(), Memory> {
    if has_mark(raw) {
        return push(text, "1: a byte order mark; save the file without one");
    }
    push_line(text, without_return(raw))
}

/// Appends the column and the reason why a line is invalid, with a correction.
pub(crate) fn push_reason(text: &mut Vec<u8>, raw: &[u8]) -> Result<(), Memory> {
    if raw.len() > LONGEST {
        push_column(text, LONGEST)?;
        return push(text, "the line is too long; it has at most 1023 bytes");
    }
    push_short(text, raw)
}
