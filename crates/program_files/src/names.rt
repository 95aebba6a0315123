//! Prints names without control characters.

ghost use Rattle.std.specs.Prelude.{◌<◌, length};

use std::alloc::{AllocError, Global};
use std::str::from_utf8;
use text_lines::{Counted, DeviceFault, Line, Sink, push_hex, push_text, write_whole};

/// Returns whether two bytes are the UTF-8 encoding of a control character beyond ASCII.
fn is_control_pair(byte: u8, next: u8) -> bool {
    byte == 0xC2 && (next >= 0x80 && next <= 0x9F)
}

/// Returns whether the byte at an index is a control character or part of one.
fn is_hidden(name: &[u8], i: usize) -> bool
    requires { i < length name.now }
{
    let byte = name[i];
    let begins = i + 1 < name.len() && is_control_pair(byte, name[i + 1]);
    let ends = i > 0 && is_control_pair(name[i - 1], byte);
    byte < 32 || byte == 127 || begins || ends
}

/// Writes a byte as `\x` and its two hexadecimal digits.
fn write_escaped<E: Sink>(err: &mut E, byte: u8) -> Result<(), DeviceFault> {
    let mut line = Line::new();
    push_text(&mut line, b"\\x");
    push_hex(&mut line, u64::from(byte), 2);
    write_whole(err, line.as_slice())
}

/// Returns whether a name has no control characters.
fn is_plain(name: &[u8]) -> bool {
    for i in 0..name.len() {
        if is_hidden(name, i) {
            return false;
        }
    }
    true
}

/// Writes a name, in one piece if it has no control characters. Otherwise writes it byte by byte, with `\x` and two
/// hexadecimal digits for each byte of a control character. Does not allocate.
pub fn write_shown<E: Sink>(err: &mut E, name: &[u8]) -> Result<(), DeviceFault> {
    if is_plain(name) {
        return write_whole(err, name);
    }
    for i in 0..name.len() {
        if is_hidden(name, i) {
            write_escaped(err, name[i])?;
        } else {
            write_whole(err, &[name[i]])?;
        }
    }
    Ok(())
}

/// Writes a text, a name without control characters, and further texts.
pub fn write_named<E: Sink>(
    err: &mut E,
    before: &str,
    name: &str,
    parts: &[&str],
) -> Result<(), DeviceFault> {
    write_whole(err, before.as_bytes())?;
    write_shown(err, name.as_bytes())?;
    for part in parts {
        write_whole(err, part.as_bytes())?;
    }
    Ok(())
}

/// Returns a name without control characters.
pub fn shown(alloc: Global, name: &[u8]) -> Result<Vec<u8>, AllocError> {
    let mut held = Counted::new(Vec::new(alloc));
    match write_shown(&mut held, name) {
        Ok(()) => Ok(held.into_inner()),
        Err(DeviceFault) => Err(AllocError),
    }
}

/// Returns the bytes of a word, with `\x` and two hexadecimal digits for each byte that is not printable ASCII.
pub fn quoted(alloc: Global, word: &[u8]) -> Result<Vec<u8>, AllocError> {
    let mut held = Counted::new(Vec::new(alloc));
    for byte in word {
        let written = if *byte < 32 || *byte > 126 {
            write_escaped(&mut held, *byte)
        } else {
            write_whole(&mut held, &[*byte])
        };
        let Ok(()) = written else {
            return Err(AllocError);
        };
    }
    Ok(held.into_inner())
}

/// Returns the bytes as text, or an empty text if they are not UTF-8.
pub fn text_of(bytes: &[u8]) -> &str {
    from_utf8(bytes).unwrap_or("")
}
