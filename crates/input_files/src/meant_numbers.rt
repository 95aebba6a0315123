//! Numbers in notations that the files do not have: with a unit, with separators, as in C, or in hexadecimal without `0x`.

use text_lines::{is_text, leading_numeral, number, numeral};

/// Returns the factor of a letter of a unit, a power of 1024.
fn factor_of_letter(letter: u8) -> Option<u64> {
    match letter {
        b'k' | b'K' => Some(1 << 10),
        b'm' | b'M' => Some(1 << 20),
        b'g' | b'G' => Some(1 << 30),
        b't' | b'T' => Some(1 << 40),
        _ => None,
    }
}

/// Returns the factor of a unit, such as `K`, `MB` or `GiB`.
fn factor_of_unit(unit: &[u8]) -> Option<u64> {
    let [letter, rest @ ..] = unit else {
        return None;
    };
    if rest.is_empty() || is_text(rest, b"B") || is_text(rest, b"iB") {
        return factor_of_letter(*letter);
    }
    None
}

/// Returns the number of a word such as `128M`.
fn number_with_unit(word: &[u8]) -> Option<u64> {
    let (count, unit) = leading_numeral(word, 10)?;
    count.checked_mul(factor_of_unit(unit)?)
}

/// Returns the value of a digit of this base.
fn digit_of(byte: u8, base: u64) -> Option<u64> {
    let value = match byte {
        b'0'..=b'9' => byte - b'0',
        b'a'..=b'f' => byte - b'a' + 10,
        b'A'..=b'F' => byte - b'A' + 10,
        _ => return None,
    };
    if u64::from(value) < base {
        Some(u64::from(value))
    } else {
        None
    }
}

/// Returns whether a byte separates digits in C++, Rust and other languages.
fn is_separator(byte: u8) -> bool {
    byte == b'_' || byte == b'\''
}

/// Returns the value of digits with separators between them.
fn separated_numeral(digits: &[u8], base: u64) -> Option<u64> {
    let mut value: u64 = 0;
    for byte in digits {
        if !is_separator(*byte) {
            let digit = digit_of(*byte, base)?;
            value = value.checked_mul(base)?.checked_add(digit)?;
        }
    }
    Some(value)
}

/// Returns whether a byte is one of the suffixes of numbers in C.
fn is_suffix(byte: u8) -> bool {
    matches!(byte, b'u' | b'U' | b'l' | b'L')
}

/// Returns whether all bytes are such suffixes.
fn are_suffixes(bytes: &[u8]) -> bool {
    bytes.iter().all(|byte| is_suffix(*byte))
}

/// Returns digits without the suffix of a number in C, such as `UL`.
fn without_suffix(digits: &[u8]) -> &[u8] {
    for (at, _) in digits.iter().enumerate() {
        if are_suffixes(&digits[at..]) {
            return &digits[..at];
        }
    }
    digits
}

/// Returns the number of a word with separators or a suffix of C, such as `0x8000_0000` or `4096UL`.
fn number_of_a_language(word: &[u8]) -> Option<u64> {
    match word {
        [b'0', b'x' | b'X', digits @ ..] => match without_suffix(digits) {
            [first, ..] if is_separator(*first) => None,
            [] => None,
            digits => separated_numeral(digits, 16),
        },
        [first, ..] if first.is_ascii_digit() => separated_numeral(without_suffix(word), 10),
        _ => None,
    }
}

/// Returns whether one of the bytes is a decimal digit.
fn has_digit(word: &[u8]) -> bool {
    word.iter().any(|byte| byte.is_ascii_digit())
}

/// Returns the number of hexadecimal digits without `0x`, such as `c0000000` or `80000ff8h`. Short words could be anything.
fn number_without_prefix(word: &[u8]) -> Option<u64> {
    let digits = match word {
        [digits @ .., b'h' | b'H'] => digits,
        _ => word,
    };
    if digits.len() < 4 || !has_digit(digits) {
        return None;
    }
    numeral(digits, 16)
}

/// Returns the number that an invalid word seems to mean.
pub(crate) fn meant_number(word: &[u8]) -> Option<u64> {
    if let Some(value) = number_with_unit(word) {
        return Some(value);
    }
    match number_of_a_language(word) {
        Some(value) => Some(value),
        None => number_without_prefix(word),
    }
}

/// Returns the two words of a range, such as `0x1000-0x1fff` or `0x1000..0x2000`.
fn split_range(word: &[u8]) -> Option<(&[u8], &[u8])> {
    for (at, _) in word.iter().enumerate() {
        match &word[at..] {
            [b'-', end @ ..] | [b'.', b'.', b'=', end @ ..] | [b'.', b'.', end @ ..] => {
                return Some((&word[..at], end));
            }
            _ => {}
        }
    }
    None
}

/// Returns the first byte of a range, and how many bytes it has. Its end belongs to it if a page ends there, and does not if a page
/// begins there.
fn bytes_between(first: u64, end: u64) -> Option<(u64, u64)> {
    if first % 4096 != 0 {
        return None;
    }
    let past = if end % 4096 == 0 {
        end
    } else {
        end.checked_add(1)?
    };
    let bytes = past.checked_sub(first)?;
    if bytes == 0 || bytes % 4096 != 0 {
        return None;
    }
    Some((first, bytes))
}

/// Returns the first byte of the whole pages of a range in one word, and how many bytes they have. Without `0x`, both numbers are
/// hexadecimal if they mean whole pages so, as in `/proc/iomem`.
pub(crate) fn meant_range(word: &[u8]) -> Option<(u64, u64)> {
    let (first, end) = split_range(word)?;
    if let (Some(first), Some(end)) = (numeral(first, 16), numeral(end, 16)) {
        if let Some(range) = bytes_between(first, end) {
            return Some(range);
        }
    }
    bytes_between(number(first)?, number(end)?)
}
