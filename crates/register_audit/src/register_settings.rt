//! The settings of registers and of entries' pairs.

ghost use Rattle.std.specs.Prelude.{◌≡◌, ◌+◌, ◌*◌, ◌/◌, ◌%◌, ◌≤◌, ◌==◌, ◌&&◌, true, nat_lt, [], None, IfSome};
ghost use Rattle.pmp_encoding.specs.declared.xlen.Xlen.{Xlen};
ghost use Rattle.pmp_encoding.specs.Widths.{word_entries, xlen_bits};
ghost use Rattle.register_audit.specs.Lines.{IsInside, address_setting, begins_with_letter, has_leading_zero, index_of, is_foreign, is_harmless, is_letter, is_other, named_setting, other_setting, pair_setting, plain_setting, register_setting, without_colon, word_setting};

use crate::names::{is_about_pmp, names_hart};
use crate::setting::Setting;
use pmp_encoding::Xlen;
use text_lines::{after_name, begins_with, is_name, is_text, number, numeral};

fn has_leading_zero(digits: &[u8]) -> bool
    ensures { result ≡ has_leading_zero digits.now }
{
    match digits {
        [first, _, ..] => *first == b'0',
        _ => false,
    }
}

/// Parses decimal digits without a leading zero.
fn index_of(digits: &[u8]) -> Option<u64>
    ensures { result ≡ index_of digits.now }
{
    if has_leading_zero(digits) {
        return None;
    }
    numeral(digits, 10)
}

fn address_setting(digits: &[u8], value: u64) -> Option<Setting>
    ensures value { result ≡ address_setting digits.now value }
    ensures inside { (xlen : Xlen) → IfSome result (IsInside xlen) }
{
    let place = index_of(digits)?;
    if place >= 64 {
        return None;
    }
    Some(Setting::Address {
        place: place as usize,
        value,
    })
}

/// Returns the distance between the numbers of configuration registers: 2 on RV64, where the odd ones do not exist.
fn word_numbers(xlen: Xlen) -> u64
    ensures { result ≡ xlen_bits xlen / 32 }
{
    match xlen {
        Xlen::Rv32 => 1,
        Xlen::Rv64 => 2,
    }
}

/// Returns whether a hart has the configuration register with this number.
fn is_word(xlen: Xlen, k: u64) -> bool
    ensures value { result ≡ (nat_lt k 16 && k % (xlen_bits xlen / 32) == 0) }
    ensures inside { result ≡ true → 4 * k + word_entries xlen ≤ 64 }
{
    k < 16 && k % word_numbers(xlen) == 0
}

fn word_setting(xlen: Xlen, digits: &[u8], value: u64) -> Option<Setting>
    ensures value { result ≡ word_setting xlen digits.now value }
    ensures inside { IfSome result (IsInside xlen) }
{
    let k = index_of(digits)?;
    if !is_word(xlen, k) {
        return None;
    }
    Some(Setting::Word {
        place: 4 * k as usize,
        value,
    })
}

fn is_letter(byte: u8) -> bool
    ensures { result ≡ is_letter byte }
{
    (byte >= 65 && byte <= 90) || (byte >= 97 && byte <= 122)
}

fn begins_with_letter(name: &[u8]) -> bool
    ensures { result ≡ begins_with_letter name.now }
{
    match name {
        [first, ..] => is_letter(*first),
        [] => false,
    }
}

/// Returns whether a register is not a PMP register by its name: gdb's `pc` and `priv`, or a name that does not begin
/// with `p`.
pub(crate) fn is_foreign(name: &[u8]) -> bool
    ensures { result ≡ is_foreign name.now }
{
    if is_name(name, b"pc") || is_name(name, b"priv") {
        return true;
    }
    begins_with_letter(name) && !begins_with(name, b"p")
}

/// Returns whether a register does not affect the meaning of the PMP registers: it is not one of them, or it is
/// `mseccfgh` with the value zero.
fn is_harmless(name: &[u8], value: u64) -> bool
    ensures { result ≡ is_harmless name.now value }
{
    !is_about_pmp(name) || (value == 0 && is_name(name, b"mseccfgh"))
}

/// Returns whether a register is another one, which is ignored.
fn is_other(name: &[u8], value: u64) -> bool
    ensures { result ≡ is_other name.now value }
{
    is_foreign(name) && (!names_hart(name) && is_harmless(name, value))
}

/// Returns the setting of a register other than `pmpaddrN` and `pmpcfgK`.
pub(crate) fn other_setting(name: &[u8], value: u64) -> Option<Setting>
    ensures value { result ≡ other_setting name.now value }
    ensures inside { (xlen : Xlen) → IfSome result (IsInside xlen) }
{
    if is_name(name, b"mseccfg") {
        return Some(Setting::Security { value });
    }
    if !is_other(name, value) {
        return None;
    }
    if is_name(name, b"mhartid") {
        return Some(Setting::Hart { number: value });
    }
    Some(Setting::Other)
}

/// Returns a name without a final colon.
pub(crate) fn without_colon(name: &[u8]) -> &[u8]
    ensures { result.now ≡ without_colon name.now }
{
    let before = name.len().saturating_sub(1);
    if is_text(&name[before..], b":") {
        &name[..before]
    } else {
        name
    }
}

/// Returns the setting of a register, given its name and a value that must fit in it.
pub(crate) fn plain_setting(xlen: Xlen, name: &[u8], value: u64) -> Option<Setting>
    ensures value { result ≡ plain_setting xlen name.now value }
    ensures inside { IfSome result (IsInside xlen) }
{
    if !xlen.fits(value) {
        return None;
    }
    if let Some(digits) = after_name(name, b"pmpaddr") {
        return address_setting(digits, value);
    }
    if let Some(digits) = after_name(name, b"pmpcfg") {
        return word_setting(xlen, digits, value);
    }
    other_setting(name, value)
}

/// Returns the setting of a register, given its name, which may end in a colon, and its value.
pub(crate) fn register_setting(xlen: Xlen, name: &[u8], value: u64) -> Option<Setting>
    ensures value { result ≡ register_setting xlen name.now value }
    ensures inside { IfSome result (IsInside xlen) }
{
    plain_setting(xlen, without_colon(name), value)
}

/// Returns the setting for a name and a value.
pub(crate) fn named_setting(xlen: Xlen, name: &[u8], value: u64) -> Option<Setting>
    ensures value { result ≡ named_setting xlen name.now value }
    ensures inside { IfSome result (IsInside xlen) }
{
    if is_text(name, b"entries") {
        return Some(Setting::Count { entries: value });
    }
    register_setting(xlen, name, value)
}

/// Returns the setting of an entry's pair, given its number.
pub(crate) fn pair_setting(xlen: Xlen, place: u64, cfg: u64, address: u64) -> Option<Setting>
    ensures value { result ≡ pair_setting xlen place cfg address }
    ensures inside { IfSome result (IsInside xlen) }
{
    if place >= 64 || cfg >= 256 || !xlen.fits(address) {
        return None;
    }
    Some(Setting::Pair {
        place: place as usize,
        cfg: cfg as u8,
        address,
    })
}
