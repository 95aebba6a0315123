//! Messages for the invalid lines of a listing of registers.

ghost use Rattle.std.specs.Prelude.{◌≡◌, ◌-◌, ◌^◌, ◌<◌, length};

use pmp_encoding::Xlen;
use register_audit::{Setting, is_listing, line_sets};
use std::alloc::{AllocError, Global};
use std::str::from_utf8;
use text_lines::{
    after_name, content_of, is_name, next_word, number, push, push_number, split_line,
    without_return,
};

/// Returns the line with this number, counted from 1, or `None` if there are fewer lines.
fn line_at(bytes: &[u8], line: u64) -> Option<&[u8]> {
    let mut rest = bytes;
    let mut before: u64 = 1;
    while !rest.is_empty() {
        let (raw, behind) = split_line(rest);
        if before == line {
            return Some(raw);
        }
        before = before.saturating_add(1);
        rest = behind;
    }
    None
}

/// Returns the number of pairs that a listing states, if it states one.
fn stated_pairs(xlen: Xlen, bytes: &[u8]) -> Option<u64> {
    let mut rest = bytes;
    while !rest.is_empty() {
        let (raw, behind) = split_line(rest);
        if let Ok(Setting::Count { entries }) = line_sets(xlen, without_return(raw)) {
            return Some(entries);
        }
        rest = behind;
    }
    None
}

/// Returns the message for a listing whose lines are valid one by one.
fn end_reason(alloc: Global, xlen: Xlen, bytes: &[u8]) -> Result<Vec<u8>, AllocError> {
    let mut text = Vec::new(alloc);
    match stated_pairs(xlen, bytes) {
        Some(pairs) => {
            push(&mut text, "the file ends here, but does not list ")?;
            push_number(&mut text, pairs)?;
            let unit = if pairs == 1 { " entry" } else { " entries" };
            push(&mut text, unit)?;
        }
        None => push(
            &mut text,
            "no line sets a PMP register; write a register and its value, as 'pmpcfg0 0x1f'",
        )?,
    }
    Ok(text)
}

/// Returns the digits after a name at the front of a word, if the rest of the word is a decimal number.
fn index_of(word: &[u8], name: &[u8]) -> Option<u64> {
    let digits = after_name(word, name)?;
    match digits {
        [b'0'..=b'9', ..] => number(digits),
        _ => None,
    }
}

/// Returns the message for a name of a register that no hart of this width has.
fn name_reason(xlen: Xlen, word: &[u8]) -> Option<&'static str> {
    if let Some(n) = index_of(word, b"pmpaddr") {
        if n > 63 {
            return Some("no hart has this register; the last is pmpaddr63");
        }
    }
    if let Some(n) = index_of(word, b"pmpcfg") {
        if n > 15 {
            return Some("no hart has this register; the last is pmpcfg15");
        }
        if n % 2 == 1 && xlen == Xlen::Rv64 {
            return Some("no hart of RV64 has this register; the numbers of pmpcfg are even");
        }
    }
    None
}

/// Returns whether a byte is a hexadecimal digit.
fn is_hexadecimal(byte: u8) -> bool {
    matches!(byte, b'0'..=b'9' | b'a'..=b'f' | b'A'..=b'F')
}

/// Returns whether a word has only hexadecimal digits, at most as many as a register of this width.
fn are_hexadecimal(xlen: Xlen, word: &[u8]) -> bool {
    let most = match xlen {
        Xlen::Rv32 => 8,
        Xlen::Rv64 => 16,
    };
    if word.is_empty() || word.len() > most {
        return false;
    }
    for byte in word {
        if !is_hexadecimal(*byte) {
            return false;
        }
    }
    true
}

/// Returns whether a word is the name of a PMP register.
fn is_register(word: &[u8]) -> bool {
    index_of(word, b"pmpaddr").is_some() || index_of(word, b"pmpcfg").is_some()
}

/// Returns the message for a register with this value, if it is a common mistake.
fn value_reason(alloc: Global, xlen: Xlen, value: &[u8]) -> Result<Option<Vec<u8>>, AllocError> {
    let mut text = Vec::new(alloc);
    if value.is_empty() {
        push(
            &mut text,
            "the value is missing; write it behind the register, as 'pmpcfg0 0x1f'",
        )?;
        return Ok(Some(text));
    }
    if number(value).is_some() || !are_hexadecimal(xlen, value) {
        return Ok(None);
    }
    push(&mut text, "the value has no 0x; write 0x")?;
    push(&mut text, from_utf8(value).unwrap_or(""))?;
    Ok(Some(text))
}

/// Returns the message for a line with these first two words, if it is a common mistake.
fn words_reason(
    alloc: Global,
    xlen: Xlen,
    first: &[u8],
    second: &[u8],
) -> Result<Option<Vec<u8>>, AllocError> {
    let said = match first {
        [b'$', b'0'..=b'9', ..] => {
            Some("the line names no register; print it by 'info registers pmpcfg0'")
        }
        _ if is_name(first, b"hart") => Some(
            "the line names a hart; list the registers of one hart, without it",
        ),
        _ => name_reason(xlen, first),
    };
    if let Some(said) = said {
        let mut text = Vec::new(alloc);
        push(&mut text, said)?;
        return Ok(Some(text));
    }
    if is_register(first) {
        return value_reason(alloc, xlen, second);
    }
    Ok(None)
}

/// Returns the message for an invalid line of a listing of registers.
fn line_reason(alloc: Global, xlen: Xlen, raw: &[u8]) -> Result<Vec<u8>, AllocError> {
    let content = content_of(without_return(raw));
    if let Some(first) = next_word(content, 0) {
        let behind = first.end;
        let second: &[u8] = match next_word(content, behind) {
            Some(second) => second.word,
            None => &[],
        };
        if let Some(text) = words_reason(alloc, xlen, first.word, second)? {
            return Ok(text);
        }
    }
    let mut text = Vec::new(alloc);
    push(
        &mut text,
        "the line is not understood; write a register and its value",
    )?;
    if xlen == Xlen::Rv32 {
        push(&mut text, " of 32 bits")?;
    }
    push(&mut text, ", as 'pmpcfg0 0x1f'")?;
    Ok(text)
}

/// Returns the message for a listing that is invalid with this width but valid with the other.
fn width_reason(xlen: Xlen, bytes: &[u8]) -> Option<&'static str>
    requires { length bytes.now < 2 ^ 64 - 1 }
{
    match xlen {
        Xlen::Rv64 if is_listing(Xlen::Rv32, bytes) => {
            Some("the line is not understood, but each is as one of RV32; add '--xlen 32'")
        }
        Xlen::Rv32 if is_listing(Xlen::Rv64, bytes) => {
            Some("the line is not understood, but each is as one of RV64; leave out '--xlen 32'")
        }
        _ => None,
    }
}

/// Returns the message for the first invalid line of a listing of registers with this width. A listing whose lines are
/// all valid, but that is not complete, is invalid at the line after the last.
pub fn listing_reason(
    alloc: Global,
    xlen: Xlen,
    bytes: &[u8],
    line: u64,
) -> Result<Vec<u8>, AllocError>
    requires { length bytes.now < 2 ^ 64 - 1 }
{
    if let Some(said) = width_reason(xlen, bytes) {
        let mut text = Vec::new(alloc);
        push(&mut text, said)?;
        return Ok(text);
    }
    match line_at(bytes, line) {
        Some(raw) => line_reason(alloc, xlen, raw),
        None => end_reason(alloc, xlen, bytes),
    }
}
