//! The words of a line of a map or a trace, and the numbers among them.

ghost use Rattle.std.specs.Prelude.{◌≡◌, ◌+◌, ◌-◌, ◌<◌, ◌≤◌, ◌==◌, [], ◌∷◌, None, Some, IfSome, IfNone, OnSome, option_map, MatchOption, true, false, drop, length, take, nat_lt};
ghost use Rattle.std.specs.Result.{result_ok};
ghost use Rattle.std.specs.List.{list_all, prefix_len, position_or_len};
ghost use Rattle.text_lines.specs.Words.{is_blank, is_allowed, is_plain, split_words, words_of};
ghost use Rattle.text_lines.specs.Numbers.{BeginsNumeral, EndsDigits, digit_of, value_of, numeral_of, number_of};

use crate::bytes::{is_allowed, is_blank};
use crate::columns::len_before;
use crate::hexadecimal::{LANES, digits_before, value_of_all};
use thiserror::Error;

/// A line, or one of its words, has no valid form.
#[derive(Clone, Copy, Debug, PartialEq, Eq, Error)]
#[error("not understood")]
pub struct NotUnderstood;

/// Returns whether a byte may occur outside a comment and does not begin one.
fn is_plain(byte: u8) -> bool
    ensures { result ≡ is_plain byte }
{
    is_allowed(byte) & (byte != b'#')
}

/// Returns whether all bytes may occur outside a comment. This function and the next one test every byte, so that many
/// can be tested at once.
pub fn are_allowed(text: &[u8]) -> bool
    ensures { result ≡ list_all is_allowed text.now }
{
    let mut all = true;
    for b in text {
        all = all & is_allowed(*b);
    }
    all
}

/// Returns whether a text has no comment and all its bytes are allowed.
fn all_plain(text: &[u8]) -> bool
    ensures { result ≡ list_all is_plain text.now }
{
    let mut all = true;
    for b in text {
        all = all & is_plain(*b);
    }
    all
}

/// Returns the number of leading blanks.
pub(crate) fn blanks_len(text: &[u8]) -> usize
    ensures within { result ≤ length text.now }
    ensures len { result ≡ prefix_len is_blank text.now }
{
    for (i, b) in text.iter().enumerate() {
        if !is_blank(*b) {
            return i;
        }
    }
    text.len()
}

/// Returns the number of bytes before the first blank.
pub fn word_len(text: &[u8]) -> usize
    ensures within { result ≤ length text.now }
    ensures len { result ≡ position_or_len is_blank text.now }
{
    for (i, b) in text.iter().enumerate() {
        if is_blank(*b) {
            return i;
        }
    }
    text.len()
}

/// The value of each byte as a digit in bases up to 16, and 16 for a non-digit. Range tests would be mispredicted at
/// every other hexadecimal digit.
static DIGITS: [u8; 256] = [
    16, 16, 16, 16, 16, 16, 16, 16, 16, 16, 16, 16, 16, 16, 16, 16, 16, 16, 16, 16, 16, 16, 16, 16,
    16, 16, 16, 16, 16, 16, 16, 16, 16, 16, 16, 16, 16, 16, 16, 16, 16, 16, 16, 16, 16, 16, 16, 16,
    0, 1, 2, 3, 4, 5, 6, 7, 8, 9, 16, 16, 16, 16, 16, 16, 16, 10, 11, 12, 13, 14, 15, 16, 16, 16,
    16, 16, 16, 16, 16, 16, 16, 16, 16, 16, 16, 16, 16, 16, 16, 16, 16, 16, 16, 16, 16, 16, 16, 10,
    11, 12, 13, 14, 15, 16, 16, 16, 16, 16, 16, 16, 16, 16, 16, 16, 16, 16, 16, 16, 16, 16, 16, 16,
    16, 16, 16, 16, 16, 16, 16, 16, 16, 16, 16, 16, 16, 16, 16, 16, 16, 16, 16, 16, 16, 16, 16, 16,
    16, 16, 16, 16, 16, 16, 16, 16, 16, 16, 16, 16, 16, 16, 16, 16, 16, 16, 16, 16, 16, 16, 16, 16,
    16, 16, 16, 16, 16, 16, 16, 16, 16, 16, 16, 16, 16, 16, 16, 16, 16, 16, 16, 16, 16, 16, 16, 16,
    16, 16, 16, 16, 16, 16, 16, 16, 16, 16, 16, 16, 16, 16, 16, 16, 16, 16, 16, 16, 16, 16, 16, 16,
    16, 16, 16, 16, 16, 16, 16, 16, 16, 16, 16, 16, 16, 16, 16, 16, 16, 16, 16, 16, 16, 16, 16, 16,
    16, 16, 16, 16, 16, 16, 16, 16, 16, 16, 16, 16, 16, 16,
];

/// Returns the value of a digit in bases up to 16, and 16 for a byte that is not one.
fn digit(byte: u8) -> u8
    ensures value { result ≡ digit_of byte }
    ensures most { result ≤ 16 }
{
    DIGITS[usize::from(byte)]
}

/// Returns whether a text has a seventeenth byte that is a digit.
#[inline(always)]
fn goes_on(text: &[u8], base: u8) -> bool
    ensures { result ≡ false → EndsDigits base (drop 16 text.now) }
{
    text.len() > LANES && digit(text[LANES]) < base
}

/// Returns the value of the leading hexadecimal digits and their number, one to sixteen. Returns `None` for any other
/// number of digits, for another base, and for a text of fewer than sixteen bytes.
#[inline(always)]
fn leading_sixteen(text: &[u8], base: u8) -> Option<(u64, usize)>
    ensures { IfSome result (λ found.
        BeginsNumeral base text.now found.0 (drop found.1 text.now)
        × (found.1 ≤ length text.now)) }
{
    if base != 16 || text.len() < LANES {
        return None;
    }
    let len = digits_before(text);
    if len == 0 || len == LANES && goes_on(text, base) {
        return None;
    }
    Some((value_of_all(text) >> (64 - 4 * len), len))
}

/// Returns the value of a decimal digit, and 10 or more for a byte that is not one. The table of all digits takes two
/// instructions more.
#[inline(always)]
fn decimal(byte: u8) -> u64
    ensures digit { result < 10 → result ≡ digit_of byte }
    ensures other { 10 ≤ result → 10 ≤ digit_of byte }
{
    u64::from(byte).wrapping_sub(u64::from(b'0'))
}

/// Numbers of this many decimal digits are below 2^64.
const DECIMALS: usize = 19;

/// Returns the value of the leading decimal digits and their number, one to eighteen. Returns `None` for any other
/// number of digits and for another base. So few digits cannot overflow, so no product or sum is checked.
#[inline(always)]
fn leading_decimals(text: &[u8], base: u8) -> Option<(u64, usize)>
    ensures { IfSome result (λ found.
        BeginsNumeral base text.now found.0 (drop found.1 text.now)
        × (found.1 ≤ length text.now)) }
{
    if base != 10 {
        return None;
    }
    let end = text.len().min(DECIMALS);
    let mut value: u64 = 0;
    let mut len = 0;
    while len < end {
        let digit = decimal(text[len]);
        if digit >= 10 {
            break;
        }
        value = value * 10 + digit;
        len += 1;
    }
    if len == 0 || len == DECIMALS {
        return None;
    }
    Some((value, len))
}

/// Returns the value of the leading digits in a base from 2 to 16, and the rest of the text. Returns `None` if there
/// are no digits or their value is 2^64 or more.
#[inline(always)]
pub fn leading_numeral(text: &[u8], base: u8) -> Option<(u64, &[u8])>
    requires least { 2 ≤ base }
    requires most { base ≤ 16 }
    ensures digits { IfSome result (λ front. BeginsNumeral base text.now front.0 front.1.now) }
    ensures none { IfNone result (numeral_of base text.now ≡ None) }
{
    if let Some((value, len)) = leading_sixteen(text, base) {
        return Some((value, &text[len..]));
    }
    if let Some((value, len)) = leading_decimals(text, base) {
        return Some((value, &text[len..]));
    }
    leading_digits(text, base)
}

/// As above, for any base and any number of digits, with each product and sum checked.
fn leading_digits(text: &[u8], base: u8) -> Option<(u64, &[u8])>
    requires least { 2 ≤ base }
    requires most { base ≤ 16 }
    ensures digits { IfSome result (λ front. BeginsNumeral base text.now front.0 front.1.now) }
    ensures none { IfNone result (numeral_of base text.now ≡ None) }
{
    let mut value: u64 = 0;
    let mut len = 0;
    while len < text.len() {
        let digit = digit(text[len]);
        if digit >= base {
            break;
        }
        value = value
            .checked_mul(u64::from(base))?
            .checked_add(u64::from(digit))?;
        len += 1;
    }
    if len == 0 {
        return None;
    }
    Some((value, &text[len..]))
}

/// Returns the value of the leading hexadecimal digits of a short text and their number, which is zero if there are no
/// digits or too many.
#[cold]
#[inline(never)]
fn few_digits(text: &[u8]) -> (u64, usize)
    ensures digits { 0 < result.1
        → BeginsNumeral 16 text.now result.0 (drop result.1 text.now) }
    ensures within { result.1 ≤ length text.now }
{
    match leading_digits(text, 16) {
        Some((value, behind)) => (value, text.len() - behind.len()),
        None => (0, 0),
    }
}

/// As above, for a text of sixteen bytes or more. Returns zero digits if there are seventeen.
#[inline(always)]
fn sixteen_digits(text: &[u8]) -> (u64, usize)
    ensures digits { 0 < result.1
        → BeginsNumeral 16 text.now result.0 (drop result.1 text.now) }
    ensures within { result.1 ≤ length text.now }
{
    match leading_sixteen(text, 16) {
        Some(found) => found,
        None => (0, 0),
    }
}

/// Returns the value of the leading hexadecimal digits and the rest of the text. `None` is inconclusive. Takes fewer
/// steps than [`leading_numeral`], which always decides.
#[inline(always)]
pub fn leading_hexadecimal(text: &[u8]) -> Option<(u64, &[u8])>
    ensures { IfSome result (λ front. BeginsNumeral 16 text.now front.0 front.1.now) }
{
    let (value, len) = if text.len() < LANES {
        few_digits(text)
    } else {
        sixteen_digits(text)
    };
    if len == 0 {
        return None;
    }
    Some((value, &text[len..]))
}

/// Returns the text after a leading `0x`.
#[inline(always)]
pub fn behind_mark(text: &[u8]) -> Option<&[u8]>
    ensures { IfSome result (λ digits. text.now ≡ 48 ∷ 120 ∷ digits.now) }
{
    match text {
        [b'0', b'x', digits @ ..] => Some(digits),
        _ => None,
    }
}

/// Returns the text after a leading space.
#[inline(always)]
pub fn behind_space(text: &[u8]) -> Option<&[u8]>
    ensures { IfSome result (λ behind. text.now ≡ 32 ∷ behind.now) }
{
    match text {
        [b' ', behind @ ..] => Some(behind),
        _ => None,
    }
}

/// Returns the value of one or more digits in a base from 2 to 16, if it is below 2^64.
pub fn numeral(digits: &[u8], base: u8) -> Option<u64>
    requires least { 2 ≤ base }
    requires most { base ≤ 16 }
    ensures { result ≡ numeral_of base digits.now }
{
    let (value, rest) = leading_numeral(digits, base)?;
    if !rest.is_empty() {
        return None;
    }
    Some(value)
}

/// Returns the number that a word spells, if it is one.
pub fn number(word: &[u8]) -> Option<u64>
    ensures { result ≡ number_of word.now }
{
    match word {
        [b'0', b'x' | b'X', digits @ ..] => numeral(digits, 16),
        _ => numeral(word, 10),
    }
}

/// The words of a line, taken from the front.
#[derive(Clone, Copy)]
pub struct Words<'a> {
    /// The rest of the line, without its comment.
    pub rest: &'a [u8],
}

impl<'a> Words<'a> {
    /// Returns the words of a line, unless a byte outside its comment is not allowed.
    pub fn of(line: &'a [u8]) -> Result<Words<'a>, NotUnderstood>
        ensures { option_map (λ words. split_words words.rest.now) (result_ok result)
            ≡ words_of line.now }
    {
        if all_plain(line) {
            return Ok(Words { rest: line });
        }
        let content = &line[..len_before(b'#', line)];
        if !are_allowed(content) {
            return Err(NotUnderstood);
        }
        Ok(Words { rest: content })
    }

    /// Returns the next word, if there is one.
    pub fn next_word(&mut self) -> Option<&'a [u8]>
        ensures word { MatchOption result (split_words self.old.rest.now ≡ []) (λ word.
            split_words self.old.rest.now ≡ word.now ∷ split_words self.new.rest.now) }
        ensures shorter { OnSome result (length self.new.rest.now < length self.old.rest.now) }
    {
        let text = &self.rest[blanks_len(self.rest)..];
        if text.is_empty() {
            return None;
        }
        let end = word_len(text);
        self.rest = &text[end..];
        Some(&text[..end])
    }
}
