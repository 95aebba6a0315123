//! Comments that look like an answer but are not one.
//!
//! Such a comment is probably a typing error, so `--expect` reports it. Which comments look like an answer is a guess
//! and affects no verdict.

use crate::comments::{is_numbered, is_spoken, remark_of, says_answer};
use arrayvec::{ArrayString, ArrayVec};
use std::fmt::Write;
use text_lines::{Words, is_name, len_before};

/// The number of lines that are listed.
const NAMED: usize = 8;

/// A message that lists the lines with such comments. It is empty if there are none.
pub type CommentNote = ArrayString<384>;

/// The lines with such comments: the first few numbers, and the total.
#[derive(Drop)]
pub(crate) struct Mistaken {
    numbers: ArrayVec<u64, NAMED>,
    count: u64,
}

impl Mistaken {
    /// Returns an empty list of lines.
    pub fn none() -> Mistaken {
        Mistaken {
            numbers: ArrayVec::new(),
            count: 0,
        }
    }

    /// Checks one more line, which has this number.
    pub fn look_at(&mut self, number: u64, line: &[u8]) {
        if is_mistaken(line) {
            let _ = self.numbers.try_push(number);
            self.count = self.count.saturating_add(1);
        }
    }

    /// Returns the message.
    pub fn note(&self) -> CommentNote {
        let mut note = CommentNote::new();
        let [first, rest @ ..] = self.numbers.as_slice() else {
            return note;
        };
        let _ = write!(
            note,
            "# comments that look like answers and are none, by their lines: {first}"
        );
        for number in rest {
            let _ = write!(note, ", {number}");
        }
        let more = self.count.saturating_sub(NAMED as u64);
        if more != 0 {
            let _ = write!(note, " and {more} more");
        }
        let _ = writeln!(note);
        note
    }
}

/// Returns whether a byte may occur in a word that looks like one of an answer.
fn is_written(byte: u8) -> bool {
    is_spoken(byte) || byte.is_ascii_uppercase()
}

/// Returns a word up to its first byte that may not occur there.
fn written(word: &[u8]) -> &[u8] {
    match word.iter().position(|byte| !is_written(*byte)) {
        Some(len) => &word[..len],
        None => word,
    }
}

/// Returns whether a word is the first of an answer after its number, in upper or lower case.
fn is_kind(word: &[u8]) -> bool {
    is_name(word, b"ok")
        || is_name(word, b"fault")
        || is_name(word, b"call")
        || is_name(word, b"irq")
}

/// Returns whether a word may introduce an expected answer.
fn is_opening(word: &[u8]) -> bool {
    is_name(word, b"expect")
        || is_name(word, b"expects")
        || is_name(word, b"expected")
        || is_name(word, b"want")
}

/// Returns whether a first word and the words after it look like those of an answer.
fn begins_like_answer(first: &[u8], mut rest: Words<'_>) -> bool {
    let Some(second) = rest.next_word() else {
        return is_kind(first);
    };
    is_kind(first) || (is_numbered(first) && is_kind(written(second)))
}

/// Returns whether words look like those of an answer, perhaps after a word that introduces it.
fn resembles_answer(mut words: Words<'_>) -> bool {
    let Some(first) = words.next_word() else {
        return false;
    };
    let first = written(first);
    if !is_opening(first) {
        return begins_like_answer(first, words);
    }
    match words.next_word() {
        Some(next) => begins_like_answer(written(next), words),
        None => false,
    }
}

/// Returns whether a line has anything before its comment.
fn has_content(line: &[u8]) -> bool {
    let mut words = Words {
        rest: &line[..len_before(b'#', line)],
    };
    words.next_word().is_some()
}

/// Returns whether a line has something before its comment, and the comment looks like an answer but is not one.
fn is_mistaken(line: &[u8]) -> bool {
    let remark = Words {
        rest: remark_of(line),
    };
    has_content(line) && resembles_answer(remark) && !says_answer(remark)
}
