//! Other names of the registers x0 to x31.

use text_lines::{is_text, numeral};

/// Returns the register for a letter and a number, such as `a0`.
fn numbered_register(letter: u8, n: u64) -> Option<u64> {
    if (letter == b'x' || letter == b'X') && n < 32 {
        return Some(n);
    }
    if letter == b'a' && n < 8 {
        return Some(n + 10);
    }
    if letter == b's' && n < 2 {
        return Some(n + 8);
    }
    if letter == b's' && n < 12 {
        return Some(n + 16);
    }
    if letter == b't' && n < 3 {
        return Some(n + 5);
    }
    if letter == b't' && n < 7 {
        return Some(n + 25);
    }
    None
}

/// Returns the register with a name without a number.
fn named_register(word: &[u8]) -> Option<u64> {
    if is_text(word, b"zero") {
        return Some(0);
    }
    if is_text(word, b"ra") {
        return Some(1);
    }
    if is_text(word, b"sp") {
        return Some(2);
    }
    if is_text(word, b"gp") {
        return Some(3);
    }
    if is_text(word, b"tp") {
        return Some(4);
    }
    if is_text(word, b"fp") {
        return Some(8);
    }
    None
}

/// Returns the register that a word means: by its ABI name, or misspelt.
pub(crate) fn meant_register(word: &[u8]) -> Option<u64> {
    let [letter, digits @ ..] = word else {
        return None;
    };
    match numeral(digits, 10) {
        Some(n) => numbered_register(*letter, n),
        None => named_register(word),
    }
}
