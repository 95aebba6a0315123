//! Parses the words of one line of a listing.

ghost use Rattle.std.specs.Prelude.{◌≡◌, ◌+◌, ◌*◌, ◌/◌, ◌-◌, ◌^◌, ◌<◌, ◌≤◌, ◌==◌, ◌&&◌, true, [], ◌∷◌, length, None, IfOk, IfSome, bytes_eq};
ghost use Rattle.std.specs.Result.{result_ok};
ghost use Rattle.pmp_encoding.specs.declared.xlen.Xlen.{Xlen};
ghost use Rattle.pmp_encoding.specs.Widths.{xlen_bits};
ghost use Rattle.text_lines.specs.Words.{split_words};
ghost use Rattle.text_lines.specs.Numbers.{number_of};
ghost use Rattle.std.specs.List.{list_all};
ghost use Rattle.std.specs.Option.{option_and_then};
ghost use Rattle.register_audit.specs.Lines.{IsInside, are_passed, equals_at, has_no_number, agrees_twice, is_dirty, is_heading, is_index, is_index_byte, is_number, says_number, says_same, is_other_name, set_or_passed, without_index, is_between, is_foreign, is_no_name, line_sets, named_setting, other_setting, pair_by_words, pair_setting, plain_setting, register_by_word, register_setting, set_by_many, set_by_three, set_by_words, value_word, width_sign, without_colon};

use crate::names::{is_about_pmp, names_hart, unpadded, value_of};
use crate::register_settings::{
    is_foreign, named_setting, other_setting, pair_setting, plain_setting, register_setting,
    without_colon,
};
use crate::setting::Setting;
use pmp_encoding::Xlen;
use text_lines::{NotUnderstood, Words, begins_with, is_text, number, numeral};

/// Parses a setting of two words.
fn set_by_two(xlen: Xlen, name: &[u8], value: &[u8]) -> Option<Setting>
    ensures value { result ≡ set_by_words xlen (name.now ∷ value.now ∷ []) }
    ensures inside { IfSome result (IsInside xlen) }
{
    let value = value_of(name, value)?;
    named_setting(xlen, name, value)
}

/// Parses the pair of an entry, given its number and two words.
fn pair_by_words(xlen: Xlen, place: u64, cfg: &[u8], address: &[u8]) -> Option<Setting>
    ensures value { result ≡ pair_by_words xlen place cfg.now address.now }
    ensures inside { IfSome result (IsInside xlen) }
{
    let cfg = unpadded(cfg)?;
    let address = unpadded(address)?;
    pair_setting(xlen, place, cfg, address)
}

/// Parses the setting of a register, given its name and a word.
fn register_by_word(xlen: Xlen, name: &[u8], value: &[u8]) -> Option<Setting>
    ensures value { result ≡ register_by_word xlen name.now value.now }
    ensures inside { IfSome result (IsInside xlen) }
{
    let value = value_of(name, value)?;
    register_setting(xlen, name, value)
}

/// Returns the index of the equals sign of a word, or the word's length.
fn equals_at(word: &[u8]) -> usize
    ensures within { result ≤ length word.now }
    ensures place { result ≡ equals_at word.now }
{
    for (i, b) in word.iter().enumerate() {
        if *b == b'=' {
            return i;
        }
    }
    word.len()
}

/// Parses a setting of one word: a register and its value, separated by an equals sign.
fn set_by_one(xlen: Xlen, word: &[u8]) -> Option<Setting>
    ensures value { result ≡ set_by_words xlen (word.now ∷ []) }
    ensures inside { IfSome result (IsInside xlen) }
{
    let place = equals_at(word);
    if place >= word.len() {
        return None;
    }
    let name = &word[..place];
    let value = value_of(name, &word[place + 1..])?;
    plain_setting(xlen, name, value)
}

/// Returns whether a word is the width of the hart's registers in bits, in OpenOCD's notation.
fn is_width_sign(xlen: Xlen, word: &[u8]) -> bool
    ensures { result ≡ bytes_eq word.now (width_sign xlen) }
{
    match xlen {
        Xlen::Rv32 => is_text(word, b"(/32):"),
        Xlen::Rv64 => is_text(word, b"(/64):"),
    }
}

/// Returns whether a word can separate a name from its value: a sign, or the width of the register.
fn is_between(xlen: Xlen, word: &[u8]) -> bool
    ensures { result ≡ is_between xlen word.now }
{
    is_text(word, b":") || is_text(word, b"=") || is_width_sign(xlen, word)
}

/// Returns the word of the value: the second, unless that is a separator. In gdb's output the third word is the same
/// value in decimal.
fn value_word<'a>(xlen: Xlen, second: &'a [u8], third: &'a [u8]) -> &'a [u8]
    ensures { result.now ≡ value_word xlen second.now third.now }
{
    if is_between(xlen, second) {
        third
    } else {
        second
    }
}

/// Returns whether a column is the value of a register in decimal, as an unsigned or signed number.
fn says_number(xlen: Xlen, value: u64, column: &[u8]) -> bool
    requires { 0 < value }
    ensures { result ≡ says_number xlen value column.now }
{
    let [first, rest @ ..] = column else {
        return false;
    };
    if *first != b'-' {
        return is_number(value, number(column));
    }
    match numeral(rest, 10) {
        Some(n) => n == negative(xlen, value),
        None => false,
    }
}

/// Returns the number that gdb prints after a minus sign for the bits of a register.
fn negative(xlen: Xlen, value: u64) -> u64
    requires { 0 < value }
    ensures { result ≡ 2 ^ xlen_bits xlen - value }
{
    match xlen {
        Xlen::Rv32 => (1u64 << 32).saturating_sub(value),
        Xlen::Rv64 => u64::MAX - value + 1,
    }
}

/// Returns whether there is a number and it is equal to `value`.
fn is_number(value: u64, number: Option<u64>) -> bool
    ensures { result ≡ is_number value number }
{
    match number {
        Some(n) => n == value,
        None => false,
    }
}

/// Returns whether a column is the same number as the value of a word.
fn says_same(xlen: Xlen, value: Option<u64>, column: &[u8]) -> bool
    ensures { result ≡ says_same xlen value column.now }
{
    match value {
        Some(0) => is_number(0, number(column)),
        Some(value) => says_number(xlen, value, column),
        None => false,
    }
}

/// Returns the number of characters of a full register value: `0x` and its hexadecimal digits.
fn full_len(xlen: Xlen) -> usize
    ensures { result ≡ 2 + xlen_bits xlen / 4 }
{
    match xlen {
        Xlen::Rv32 => 10,
        Xlen::Rv64 => 18,
    }
}

/// Returns whether the two representations of a PMP register's value agree, if a tool prints two.
fn agrees_twice(xlen: Xlen, name: &[u8], second: &[u8], third: &[u8]) -> bool
    ensures { result ≡ agrees_twice xlen name.now second.now third.now }
{
    if !is_about_pmp(name) {
        return true;
    }
    if is_width_sign(xlen, second) {
        return third.len() == full_len(xlen);
    }
    is_between(xlen, second) || says_same(xlen, unpadded(second), third)
}

/// Parses a register of three words. The name of another register must not follow its value.
fn register_alone(xlen: Xlen, first: &[u8], second: &[u8], third: &[u8]) -> Option<Setting>
    ensures value { result ≡ set_by_three xlen None first.now second.now third.now }
    ensures inside { IfSome result (IsInside xlen) }
{
    if is_no_name(third) && agrees_twice(xlen, first, second, third) {
        register_by_word(xlen, first, value_word(xlen, second, third))
    } else {
        None
    }
}

/// Parses a setting of three words: a pair, or a register.
fn set_by_three(xlen: Xlen, first: &[u8], second: &[u8], third: &[u8]) -> Option<Setting>
    ensures value { result ≡ set_by_words xlen (first.now ∷ second.now ∷ third.now ∷ []) }
    ensures inside { IfSome result (IsInside xlen) }
{
    match number(first) {
        Some(place) => pair_by_words(xlen, place, second, third),
        None => register_alone(xlen, first, second, third),
    }
}

/// Returns whether a word cannot be the name of another PMP register.
fn is_no_name(word: &[u8]) -> bool
    ensures { result ≡ is_no_name word.now }
{
    !is_about_pmp(word)
}

/// Returns whether none of the words can be such a name.
fn are_no_names(words: Words<'_>) -> bool
    ensures { result ≡ list_all is_no_name (split_words words.entry.rest.now) }
{
    let mut left = words;
    while let Some(word) = left.next_word() {
        if !is_no_name(word) {
            return false;
        }
    }
    true
}

/// Parses the setting of another register, given its name and a word.
fn other_by_word(name: &[u8], value: &[u8]) -> Option<Setting>
    ensures value { result ≡ option_and_then (other_setting (without_colon name.now))
        (number_of value.now) }
    ensures inside { (xlen : Xlen) → IfSome result (IsInside xlen) }
{
    let value = number(value)?;
    other_setting(without_colon(name), value)
}

/// Parses a setting of four or more words: another register, with its fields after its value.
fn set_by_many(first: &[u8], second: &[u8], third: &[u8], rest: Words<'_>) -> Option<Setting>
    ensures value { result ≡ set_by_many first.now second.now
        (third.now ∷ split_words rest.entry.rest.now) }
    ensures inside { (xlen : Xlen) → IfSome result (IsInside xlen) }
{
    if is_no_name(third) && are_no_names(rest) {
        other_by_word(first, second)
    } else {
        None
    }
}

/// Returns whether one word is left, with which OpenOCD marks a value that was changed but not yet written.
fn is_dirty(mut words: Words<'_>) -> bool
    ensures { result ≡ is_dirty (split_words words.entry.rest.now) }
{
    let Some(word) = words.next_word() else {
        return false;
    };
    match words.next_word() {
        Some(_) => false,
        None => is_text(word, b"(dirty)"),
    }
}

/// Parses the words of a setting.
fn set_by_words(xlen: Xlen, mut words: Words<'_>) -> Option<Setting>
    ensures value { result ≡ set_by_words xlen (split_words words.entry.rest.now) }
    ensures inside { IfSome result (IsInside xlen) }
{
    let Some(first) = words.next_word() else {
        return Some(Setting::Nothing);
    };
    let Some(second) = words.next_word() else {
        return set_by_one(xlen, first);
    };
    let Some(third) = words.next_word() else {
        return set_by_two(xlen, first, second);
    };
    let rest = words;
    let Some(_) = words.next_word() else {
        return set_by_three(xlen, first, second, third);
    };
    if is_dirty(rest) {
        set_by_three(xlen, first, second, third)
    } else {
        set_by_many(first, second, third, rest)
    }
}

/// Returns whether a byte can follow the first of such a number: a digit, or the closing parenthesis.
fn is_index_byte(b: u8) -> bool
    ensures { result ≡ is_index_byte b }
{
    (b >= 48 && b <= 57) || b == 41
}

fn are_index_bytes(bytes: &[u8]) -> bool
    ensures { result ≡ list_all is_index_byte bytes.now }
{
    bytes.iter().all(|b| is_index_byte(*b))
}

/// Returns whether a word is the number under which OpenOCD lists a register.
fn is_index(word: &[u8]) -> bool
    ensures { result ≡ is_index word.now }
{
    let [first, rest @ ..] = word else {
        return false;
    };
    *first == b'(' && are_index_bytes(rest)
}

/// Skips such a number at the front of words.
fn without_index(words: Words<'_>) -> Words<'_>
    ensures { split_words result.rest.now ≡ without_index (split_words words.entry.rest.now) }
{
    let mut rest = words;
    match rest.next_word() {
        Some(first) if is_index(first) => rest,
        _ => words,
    }
}

/// Returns whether a word replaces a value that is not available as a number.
fn has_no_number(word: &[u8]) -> bool
    ensures { result ≡ has_no_number word.now }
{
    is_text(word, b"<unavailable>") || (begins_with(word, b"{") || begins_with(word, b"(/"))
}

/// Returns whether a word is a heading of OpenOCD, or the name of another register.
fn is_other_name(word: &[u8]) -> bool
    ensures { result ≡ is_other_name word.now }
{
    let name = without_colon(word);
    is_text(word, b"=====") || (is_foreign(name) && !names_hart(name))
}

/// Returns whether words without a number are ignored.
fn are_passed(words: Words<'_>) -> bool
    ensures { result ≡ are_passed (split_words words.entry.rest.now) }
{
    let mut left = words;
    let Some(first) = left.next_word() else {
        return false;
    };
    let Some(second) = left.next_word() else {
        return false;
    };
    are_no_names(words)
        && (is_other_name(first) && (has_no_number(second) || is_text(first, b"=====")))
}

/// Returns whether words are the heading that OpenOCD prints above the registers of a hart.
fn is_heading(mut words: Words<'_>) -> bool
    ensures { result ≡ is_heading (split_words words.entry.rest.now) }
{
    let (Some(sign), Some(first)) = (words.next_word(), words.next_word()) else {
        return false;
    };
    let Some(second) = words.next_word() else {
        return false;
    };
    if let Some(_) = words.next_word() {
        return false;
    }
    is_text(sign, b"=====") && (is_text(first, b"RISC-V") && is_text(second, b"Registers"))
}

/// Parses the words of a line, which may be ignored.
fn set_or_passed(xlen: Xlen, words: Words<'_>) -> Option<Setting>
    ensures value { result ≡ set_or_passed xlen (split_words words.entry.rest.now) }
    ensures inside { IfSome result (IsInside xlen) }
{
    if is_heading(words) {
        return Some(Setting::Heading);
    }
    if are_passed(words) {
        return Some(Setting::Other);
    }
    set_by_words(xlen, words)
}

/// Parses a line, for a hart with registers of this width.
pub fn line_sets(xlen: Xlen, line: &[u8]) -> Result<Setting, NotUnderstood>
    ensures value { result_ok result ≡ line_sets xlen line.now }
    ensures inside { IfOk result (IsInside xlen) }
{
    let words = Words::of(line)?;
    match set_or_passed(xlen, without_index(words)) {
        Some(setting) => Ok(setting),
        None => Err(NotUnderstood),
    }
}
