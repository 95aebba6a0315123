//! The lines of a file in memory, and their parts.

ghost use Rattle.std.specs.Prelude.{◌≡◌, ◌∷◌, ◌==◌, ◌<◌, ◌≤◌, length};
ghost use Rattle.std.specs.List.{before_first, prefix_len};
ghost use Rattle.text_lines.specs.Lines.{raw_lines, unended};
ghost use Rattle.text_lines.specs.Words.{content_of, is_allowed};

use crate::bytes::is_allowed;
use crate::columns::len_before;

/// Returns the first line, and the bytes after its LF.
pub fn split_line(bytes: &[u8]) -> (&[u8], &[u8])
    requires { 0 < length bytes.now }
    ensures lines { raw_lines bytes.now ≡ result.0.now ∷ raw_lines result.1.now }
    ensures shorter { length result.1.now < length bytes.now }
{
    let len = len_before(b'\n', bytes);
    if len == bytes.len() {
        return (bytes, &[]);
    }
    (&bytes[..len], &bytes[len + 1..])
}

/// Returns a line without its LF.
pub fn unended(line: &[u8]) -> &[u8]
    ensures value { result.now ≡ unended line.now }
    ensures most { length result.now ≤ length line.now }
{
    &line[..len_before(b'\n', line)]
}

/// Returns the number of bytes before the first that is not allowed outside a comment.
pub fn allowed_len(line: &[u8]) -> usize
    ensures within { result ≤ length line.now }
    ensures len { result ≡ prefix_len is_allowed line.now }
{
    for (i, byte) in line.iter().enumerate() {
        if !is_allowed(*byte) {
            return i;
        }
    }
    line.len()
}

/// Returns the line without its comment.
pub fn content_of(line: &[u8]) -> &[u8]
    ensures { result.now ≡ content_of line.now }
{
    &line[..len_before(b'#', line)]
}
