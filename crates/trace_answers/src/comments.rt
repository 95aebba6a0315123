//! The answer that the comment of a line expects.

ghost use Rattle.std.specs.Prelude.{◌≡◌, ◌≤◌, length, bytes_eq};
ghost use Rattle.std.specs.List.{prefix_len};
ghost use Rattle.text_lines.specs.Words.{split_words};
ghost use Rattle.trace_answers.specs.Comments.{answer_agrees, begins, comment_of, is_digit, is_kind, is_numbered, is_spoken, says_answer, says_it, spoken, spoken_words, remark_of};

use text_lines::{Words, len_before};

fn is_digit(byte: u8) -> bool
    ensures { result ≡ is_digit byte }
{
    byte >= b'0' && byte <= b'9'
}

/// Returns whether a byte may occur in a word of an answer.
pub(crate) fn is_spoken(byte: u8) -> bool
    ensures { result ≡ is_spoken byte }
{
    is_digit(byte) || (byte >= b'a' && byte <= b'z') || byte == b'-'
}

/// Returns the number of leading bytes of a word that may occur in an answer.
fn spoken_len(word: &[u8]) -> usize
    ensures within { result ≤ length word.now }
    ensures len { result ≡ prefix_len is_spoken word.now }
{
    for (i, byte) in word.iter().enumerate() {
        if !is_spoken(*byte) {
            return i;
        }
    }
    word.len()
}

/// Returns the prefix of a word that may occur in an answer.
fn spoken(word: &[u8]) -> &[u8]
    ensures { result.now ≡ spoken word.now }
{
    &word[..spoken_len(word)]
}

/// Returns whether two words have the same such prefix.
fn are_alike(word: &[u8], other: &[u8]) -> bool
    ensures { result ≡ bytes_eq (spoken word.now) (spoken other.now) }
{
    spoken(word) == spoken(other)
}

/// Returns whether a word begins with a digit.
pub(crate) fn is_numbered(word: &[u8]) -> bool
    ensures { result ≡ is_numbered word.now }
{
    match word {
        [first, ..] => is_digit(*first),
        [] => false,
    }
}

/// Returns whether a word is the first of an answer, after its number.
fn is_kind(word: &[u8]) -> bool
    ensures { result ≡ is_kind (spoken word.now) }
{
    matches!(spoken(word), b"ok" | b"fault" | b"call" | b"irq")
}

/// Returns whether words have the form of an answer.
pub(crate) fn says_answer(mut words: Words<'_>) -> bool
    ensures { result ≡ says_answer (spoken_words words.entry.rest.now) }
{
    let Some(first) = words.next_word() else {
        return false;
    };
    let Some(second) = words.next_word() else {
        return is_kind(first);
    };
    is_kind(first) || (is_numbered(spoken(first)) && is_kind(second))
}

/// Returns whether words begin with those of an answer.
fn begins(mut said: Words<'_>, mut answer: Words<'_>) -> bool
    ensures { result ≡ begins (spoken_words said.entry.rest.now)
        (spoken_words answer.entry.rest.now) }
{
    let Some(word) = answer.next_word() else {
        return true;
    };
    let Some(other) = said.next_word() else {
        return false;
    };
    are_alike(other, word) && begins(said, answer)
}

/// Returns whether words begin with those of an answer, with or without its number.
fn says_it(said: Words<'_>, answer: Words<'_>) -> bool
    ensures { result ≡ says_it (spoken_words said.entry.rest.now)
        (spoken_words answer.entry.rest.now) }
{
    let mut rest = answer;
    let _ = rest.next_word();
    begins(said, answer) || begins(said, rest)
}

/// Returns the comment of a line, from its `#` on.
pub(crate) fn comment_of(line: &[u8]) -> &[u8]
    ensures { result.now ≡ comment_of line.now }
{
    &line[len_before(b'#', line)..]
}

/// Returns the text after the `#`.
pub(crate) fn remark_of(line: &[u8]) -> &[u8]
    ensures { result.now ≡ remark_of line.now }
{
    match comment_of(line) {
        [_, rest @ ..] => rest,
        [] => &[],
    }
}

/// Returns whether the comment of a line expects this answer or none.
pub(crate) fn agrees(line: &[u8], answer: &[u8]) -> bool
    ensures { result ≡ answer_agrees line.now answer.now }
{
    let said = Words {
        rest: remark_of(line),
    };
    !says_answer(said) || says_it(said, Words { rest: answer })
}
