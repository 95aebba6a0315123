//! The words of a line with their positions.

ghost use Rattle.std.specs.Prelude.{◌≡◌, ◌==◌, ◌≤◌, [], ◌∷◌, length, MatchOption, IfSome};
ghost use Rattle.std.specs.List.{position_or_len};
ghost use Rattle.text_lines.specs.Columns.{begin_from, end_from, end_of, placed_at, word_from};

use crate::lexical::{blanks_len, word_len};
use memchr::memchr;

/// A word of a line, and the number of bytes before it and before its end. The word is empty if there is none.
#[derive(Clone, Copy)]
pub struct Placed<'a> {
    pub before: usize,
    pub word: &'a [u8],
    pub end: usize,
}

/// Returns the number of bytes before the first `mark`.
#[inline(always)]
pub fn len_before(mark: u8, text: &[u8]) -> usize
    ensures within { result ≤ length text.now }
    ensures len { result ≡ position_or_len (λ b. b == mark) text.now }
{
    memchr(mark, text).unwrap_or(text.len())
}

/// Returns the first word that begins at or after a position.
pub fn word_from(text: &[u8], at: usize) -> Placed<'_>
    requires { at ≤ length text.now }
    ensures before { result.before ≡ begin_from text.now at }
    ensures word { result.word.now ≡ word_from text.now at }
    ensures end { result.end ≡ end_from text.now at }
    ensures within { result.end ≤ length text.now }
    ensures order { result.before ≤ result.end }
{
    let before = at + blanks_len(&text[at..]);
    let end = before + word_len(&text[before..]);
    Placed {
        before,
        word: &text[before..end],
        end,
    }
}

/// Returns the next word after a position, if there is one.
pub fn next_word(text: &[u8], at: usize) -> Option<Placed<'_>>
    requires { at ≤ length text.now }
    ensures word { MatchOption result (placed_at text.now at ≡ []) (λ placed.
        placed_at text.now at
        ≡ (placed.before, placed.word.now) ∷ placed_at text.now placed.end) }
    ensures end { IfSome result (λ placed.
        placed.end ≡ end_of (placed.before, placed.word.now)) }
    ensures within { IfSome result (λ placed. placed.end ≤ length text.now) }
{
    let placed = word_from(text, at);
    if placed.before == text.len() {
        return None;
    }
    Some(placed)
}
