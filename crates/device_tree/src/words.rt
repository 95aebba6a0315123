//! Slices and texts in bytes.

ghost use Rattle.std.specs.Prelude.{◌≡◌, drop, ◌+◌, ◌<◌, ◌^◌, ◌≤◌, ℕ, List, MatchOption, length};
ghost use Rattle.device_tree.specs.Words.{BeginsWithText, Leaves, padded, text_len};

use memchr::memchr;

/// Counts the bytes before the first zero.
fn text_len(bytes: &[u8]) -> usize
    ensures within { result ≤ length bytes.now }
    ensures len { result ≡ text_len bytes.now }
{
    memchr(0, bytes).unwrap_or(bytes.len())
}

/// Returns the text at the front, without its final zero.
pub(crate) fn text_in(bytes: &[u8]) -> Option<&[u8]>
    ensures { MatchOption result ((text : List ℕ) → BeginsWithText bytes.now text → ⊥)
        (λ text. BeginsWithText bytes.now text.now) }
{
    let len = text_len(bytes);
    if len == bytes.len() {
        return None;
    }
    Some(&bytes[..len])
}

/// Returns the bytes after the first `n`, of which there are at least `n`.
pub(crate) fn after(bytes: &[u8], n: usize) -> &[u8]
    requires { n ≤ length bytes.now }
    ensures { result.now ≡ drop n bytes.now }
{
    &bytes[n..]
}

/// Returns the bytes after the first `n`, if there are that many.
pub(crate) fn behind(bytes: &[u8], n: usize) -> Option<&[u8]>
    ensures { MatchOption result (length bytes.now < n) (λ rest. Leaves bytes.now n rest.now) }
{
    bytes.get(n..)
}

/// Rounds a number up to a multiple of four.
pub(crate) fn padded(n: usize) -> usize
    requires { n < 2 ^ 63 + 1 }
    ensures { result ≡ padded n }
{
    (n + 3) / 4 * 4
}
