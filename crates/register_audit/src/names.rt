//! Recognizes words about PMP and names of harts, and parses the values of registers.

ghost use Rattle.std.specs.Prelude.{◌≡◌, option_map};
ghost use Rattle.std.specs.List.{list_all};
ghost use Rattle.register_audit.specs.Names.{are_digits, is_about_pmp, is_csr_of_pmp, is_digit, is_padded, mentions, names_hart, numbers_csr, resembles_pmp, unpadded, value_of};

use text_lines::{after_name, begins_with, number};

/// Returns whether a text contains a name, ignoring case.
pub(crate) fn mentions(text: &[u8], name: &[u8]) -> bool
    ensures { result ≡ mentions text.now name.now }
{
    let mut rest = text;
    while let [_, next @ ..] = rest {
        if begins_with(rest, name) {
            return true;
        }
        rest = next;
    }
    false
}

/// Returns whether a number is that of a PMP register.
fn is_csr_of_pmp(n: u64) -> bool
    ensures { result ≡ is_csr_of_pmp n }
{
    (n >= 0x3a0 && n <= 0x3ef) || (n == 0x747 || n == 0x757)
}

/// Returns whether a word is the number of such a register, as debuggers print one whose name they do not know.
fn numbers_csr(word: &[u8]) -> bool
    ensures { result ≡ numbers_csr word.now }
{
    let Some(digits) = after_name(word, b"csr") else {
        return false;
    };
    match number(digits) {
        Some(n) => is_csr_of_pmp(n),
        None => false,
    }
}

/// Returns whether a word contains part of the name of a PMP register.
fn resembles_pmp(word: &[u8]) -> bool
    ensures { result ≡ resembles_pmp word.now }
{
    (mentions(word, b"mpaddr") || mentions(word, b"mpcfg"))
        || (mentions(word, b"msec") || mentions(word, b"ccfg"))
}

/// Returns whether a word could be about PMP.
pub(crate) fn is_about_pmp(word: &[u8]) -> bool
    ensures { result ≡ is_about_pmp word.now }
{
    mentions(word, b"pmp") || (resembles_pmp(word) || numbers_csr(word))
}

/// Returns whether a byte is a decimal digit.
fn is_digit(b: u8) -> bool
    ensures { result ≡ is_digit b }
{
    b >= 48 && b <= 57
}

/// Returns whether all bytes are decimal digits.
fn all_digits(bytes: &[u8]) -> bool
    ensures { result ≡ list_all is_digit bytes.now }
{
    bytes.iter().all(|b| is_digit(*b))
}

/// Returns whether there is a text and all its bytes are decimal digits.
fn are_digits(text: Option<&[u8]>) -> bool
    ensures { result ≡ are_digits (option_map (λ digits. digits.now) text.entry) }
{
    match text {
        Some(digits) => all_digits(digits),
        None => false,
    }
}

/// Returns whether a word names a hart, with its number at the end or in the next word.
pub(crate) fn names_hart(word: &[u8]) -> bool
    ensures { result ≡ names_hart word.now }
{
    (are_digits(after_name(word, b"hart")) || are_digits(after_name(word, b"thread")))
        || (are_digits(after_name(word, b"cpu")) || are_digits(after_name(word, b"core")))
}

/// Returns whether a word is a decimal number with a leading zero, which could be hexadecimal.
fn is_padded(word: &[u8]) -> bool
    ensures { result ≡ is_padded word.now }
{
    match word {
        [first, second, ..] => *first == b'0' && (*second >= 48 && *second <= 57),
        _ => false,
    }
}

/// Parses a number in decimal without a leading zero, or in hexadecimal after `0x`.
pub(crate) fn unpadded(word: &[u8]) -> Option<u64>
    ensures { result ≡ unpadded word.now }
{
    if is_padded(word) {
        return None;
    }
    number(word)
}

/// Parses the value of a register with this name.
pub(crate) fn value_of(name: &[u8], word: &[u8]) -> Option<u64>
    ensures { result ≡ value_of name.now word.now }
{
    if is_about_pmp(name) {
        unpadded(word)
    } else {
        number(word)
    }
}
