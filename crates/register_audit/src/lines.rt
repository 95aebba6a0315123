//! Parses the lines of a boot log.

ghost use Rattle.std.specs.Prelude.{◌≡◌, ◌<◌, IfOk, IfSome, option_map, not, codes};
ghost use Rattle.std.specs.List.{list_all};
ghost use Rattle.std.specs.Option.{is_some, option_and_then};
ghost use Rattle.std.specs.Result.{result_ok};
ghost use Rattle.text_lines.specs.Bytes.{after_text};
ghost use Rattle.text_lines.specs.Numbers.{numeral_of};
ghost use Rattle.text_lines.specs.Words.{split_words};
ghost use Rattle.register_audit.specs.Letters.{perm_of};
ghost use Rattle.register_audit.specs.LogLines.{block_in, entry_by, entry_in, is_another_hart, is_boot_log, is_damaged, is_elsewhere, is_later, is_of_hart, is_of_time, is_other_region, is_other_width, is_region, is_region_line, is_register, is_time, is_narrow, is_of_domain, is_root, count_in, count_of, letters_in, log_says, number_in, resembles_domain, resembles_hart, resembles_region, said_by, without_times, words_in};

use crate::block::block_from;
use crate::entry::RegionEntry;
use crate::letters::perm_of;
use crate::names::mentions;
use pmp_encoding::{Entry, Perm, Region, Xlen};
use text_lines::{
    NotUnderstood, Words, after_text, begins_with, is_text, len_before, number, numeral,
    split_line, without_return,
};

/// Returns the words of a line, or none if a byte outside its comment is invalid.
fn words_in(raw: &[u8]) -> Words<'_>
    ensures { split_words result.rest.now ≡ words_in raw.now }
{
    match Words::of(without_return(raw)) {
        Ok(words) => without_times(words),
        Err(_) => Words { rest: &[] },
    }
}

/// Returns whether a byte can be part of a time.
fn is_of_time(b: u8) -> bool
    ensures { result ≡ is_of_time b }
{
    ((b >= 40 && b <= 58) && b != 42) || (b == 91 || b == 93)
}

/// Returns whether a word can be part of a time.
fn is_time(word: &[u8]) -> bool
    ensures { result ≡ is_time word.now }
{
    word.iter().all(|b| is_of_time(*b))
}

/// Skips the words of a time.
fn without_times(words: Words<'_>) -> Words<'_>
    ensures { split_words result.rest.now ≡ without_times (split_words words.entry.rest.now) }
{
    let mut left = words;
    let mut rest = words;
    while let Some(word) = rest.next_word() {
        if !is_time(word) {
            return left;
        }
        left = rest;
    }
    left
}

/// Returns whether words describe a region of the first domain.
fn is_region(mut words: Words<'_>) -> bool
    ensures { result ≡ is_region (split_words words.entry.rest.now) }
{
    let Some(domain) = words.next_word() else {
        return false;
    };
    let Some(region) = words.next_word() else {
        return false;
    };
    is_text(domain, b"Domain0") && after_text(region, b"Region").is_some()
}

/// Returns whether words describe a PMP register.
fn is_register(mut words: Words<'_>) -> bool
    ensures { result ≡ is_register (split_words words.entry.rest.now) }
{
    match words.next_word() {
        Some(name) => begins_with(name, b"pmp") || begins_with(name, b"mseccfg"),
        None => false,
    }
}

/// Returns whether a word names a domain other than the first.
fn is_later_domain(word: &[u8]) -> bool
    ensures { result ≡ is_later (option_and_then (numeral_of 10)
        (after_text word.now (codes "Domain"))) }
{
    let Some(digits) = after_text(word, b"Domain") else {
        return false;
    };
    match numeral(digits, 10) {
        Some(n) => n != 0,
        None => false,
    }
}

/// Returns whether words describe a region of another domain.
fn is_other_region(mut words: Words<'_>) -> bool
    ensures { result ≡ is_other_region (split_words words.entry.rest.now) }
{
    let Some(domain) = words.next_word() else {
        return false;
    };
    let Some(region) = words.next_word() else {
        return false;
    };
    is_later_domain(domain) && after_text(region, b"Region").is_some()
}

/// Returns whether a line could describe a region, because it contains two features of such a line.
fn resembles_region(raw: &[u8]) -> bool
    ensures { result ≡ resembles_region raw.now }
{
    let is_of_domain = mentions(raw, b"Domain");
    let is_of_region = mentions(raw, b"Region");
    (is_of_domain && is_of_region) || ((is_of_domain || is_of_region) && mentions(raw, b"-0x"))
}

/// Returns the number of the hart's PMP entries, if the words state it.
fn count_in_words(mut words: Words<'_>) -> Option<&[u8]>
    ensures { option_map (λ digits. digits.now) result
        ≡ count_in (split_words words.entry.rest.now) }
{
    let (Some(_), Some(_)) = (words.next_word(), words.next_word()) else {
        return None;
    };
    let (Some(pmp), Some(count)) = (words.next_word(), words.next_word()) else {
        return None;
    };
    let (Some(_), Some(number)) = (words.next_word(), words.next_word()) else {
        return None;
    };
    if is_text(pmp, b"PMP") && is_text(count, b"Count") {
        Some(number)
    } else {
        None
    }
}

/// Returns the number of the hart's PMP entries, if the line states it.
pub(crate) fn count_in(raw: &[u8]) -> Option<&[u8]>
    ensures { option_map (λ digits. digits.now) result ≡ count_of raw.now }
{
    count_in_words(words_in(raw))
}

/// Returns whether words describe the boot hart.
fn is_of_hart(mut words: Words<'_>) -> bool
    ensures { result ≡ is_of_hart (split_words words.entry.rest.now) }
{
    let Some(boot) = words.next_word() else {
        return false;
    };
    let Some(hart) = words.next_word() else {
        return false;
    };
    is_text(boot, b"Boot") && is_text(hart, b"HART")
}

/// Returns whether words describe a domain.
fn is_of_domain(mut words: Words<'_>) -> bool
    ensures { result ≡ is_of_domain (split_words words.entry.rest.now) }
{
    let Some(domain) = words.next_word() else {
        return false;
    };
    let Some(digits) = after_text(domain, b"Domain") else {
        return false;
    };
    numeral(digits, 10).is_some()
}

/// Returns whether a line could name the domain of the boot hart.
fn resembles_hart(raw: &[u8]) -> bool
    ensures { result ≡ resembles_hart raw.now }
{
    let is_of_domain = mentions(raw, b"Domain");
    let is_of_boot = mentions(raw, b"Boot");
    let is_of_hart = mentions(raw, b"HART");
    (is_of_domain && (is_of_boot || is_of_hart))
        || ((is_of_boot && is_of_hart) && (mentions(raw, b"Dom") || mentions(raw, b"ain")))
}

/// Returns whether a line resembles one about a region or the boot hart but is not one, because it was damaged.
fn is_damaged(raw: &[u8]) -> bool
    ensures { result ≡ is_damaged raw.now }
{
    (resembles_region(raw) && !(is_region(words_in(raw)) || is_other_region(words_in(raw))))
        || (resembles_hart(raw) && !(is_of_hart(words_in(raw)) || is_of_domain(words_in(raw))))
}

/// Returns whether words name the first domain.
fn is_root(mut words: Words<'_>) -> bool
    ensures { result ≡ is_root (split_words words.entry.rest.now) }
{
    let (Some(colon), Some(name)) = (words.next_word(), words.next_word()) else {
        return false;
    };
    if let Some(_) = words.next_word() {
        return false;
    }
    is_text(colon, b":") && is_text(name, b"root")
}

/// Returns whether a word is `Domain`, possibly with a letter lost or changed.
fn resembles_domain(word: &[u8]) -> bool
    ensures { result ≡ resembles_domain word.now }
{
    mentions(word, b"Dom") || mentions(word, b"ain")
}

/// Returns whether words about the boot hart mention its domain, but do not name the first one.
fn is_elsewhere(mut words: Words<'_>) -> bool
    ensures { result ≡ is_elsewhere (split_words words.entry.rest.now) }
{
    let (Some(_), Some(_)) = (words.next_word(), words.next_word()) else {
        return false;
    };
    let Some(domain) = words.next_word() else {
        return false;
    };
    resembles_domain(domain) && !(is_text(domain, b"Domain") && is_root(words))
}

/// Returns whether a word names the instruction set of the other width.
fn is_other_width(xlen: Xlen, word: &[u8]) -> bool
    ensures { result ≡ is_other_width xlen word.now }
{
    match xlen {
        Xlen::Rv32 => begins_with(word, b"rv64"),
        Xlen::Rv64 => begins_with(word, b"rv32"),
    }
}

/// Returns whether no word names the instruction set of the other width.
fn are_of_width(xlen: Xlen, words: Words<'_>) -> bool
    ensures { result ≡ list_all (λ word. not (is_other_width xlen word))
        (split_words words.entry.rest.now) }
{
    let mut left = words;
    while let Some(word) = left.next_word() {
        if is_other_width(xlen, word) {
            return false;
        }
    }
    true
}

/// Returns whether words state that the boot hart cannot have these registers.
fn is_another_hart(xlen: Xlen, words: Words<'_>) -> bool
    ensures { result ≡ is_another_hart xlen (split_words words.entry.rest.now) }
{
    is_of_hart(words) && (is_elsewhere(words) || !are_of_width(xlen, words))
}

/// Parses the number of a region.
fn number_in(region: &[u8]) -> Option<u64>
    ensures { result ≡ number_in region.now }
{
    let digits = after_text(region, b"Region")?;
    numeral(digits, 10)
}

/// Returns whether an address is padded with zeros to eight digits, as on RV32, but the hart is RV64.
fn is_narrow(xlen: Xlen, word: &[u8]) -> bool
    ensures { result ≡ is_narrow xlen word.now }
{
    match xlen {
        Xlen::Rv32 => false,
        Xlen::Rv64 => word.len() == 10 && after_text(word, b"0x0").is_some(),
    }
}

/// Parses the block from the first to the last address of a region.
fn block_in(xlen: Xlen, word: &[u8]) -> Option<Region>
    ensures { option_map (λ r. (r.base, r.log2)) result ≡ block_in xlen word.now }
{
    let dash = len_before(b'-', word);
    if dash >= word.len() || is_narrow(xlen, &word[..dash]) {
        return None;
    }
    let first = number(&word[..dash])?;
    let last = number(&word[dash + 1..])?;
    block_from(xlen, first, last)
}

/// Returns the letters of supervisor and user mode.
fn letters_in(mut words: Words<'_>) -> Option<&[u8]>
    ensures { option_map (λ letters. letters.now) result
        ≡ letters_in (split_words words.entry.rest.now) }
{
    let first = words.next_word()?;
    let Some(_) = words.next_word() else {
        return Some(first);
    };
    let user = words.next_word()?;
    let letters = words.next_word()?;
    if let Some(_) = words.next_word() {
        return None;
    }
    if is_text(first, b"M:") && is_text(user, b"S/U:") {
        Some(letters)
    } else {
        None
    }
}

/// Parses the permission of supervisor and user mode.
fn perm_in(words: Words<'_>) -> Option<Perm>
    ensures { result ≡ option_and_then perm_of (letters_in (split_words words.entry.rest.now)) }
{
    let letters = letters_in(words)?;
    perm_of(letters)
}

/// Returns the entry of a region, given its parts.
fn entry_by(number: Option<u64>, region: Option<Region>, perm: Option<Perm>) -> Option<RegionEntry>
    ensures value { result ≡ entry_by number (option_map (λ r. (r.base, r.log2)) region) perm }
    ensures inside { IfSome result (λ entry. entry.place < 64) }
{
    let place = number?;
    let region = region?;
    let perm = perm?;
    if place >= 64 {
        return None;
    }
    let (cfg, address) = Entry { region, perm }.encode();
    Some(RegionEntry {
        place: place as usize,
        cfg,
        address,
    })
}

/// Parses the entry in the words about a region.
fn entry_in(xlen: Xlen, mut words: Words<'_>) -> Option<RegionEntry>
    ensures value { result ≡ entry_in xlen (split_words words.entry.rest.now) }
    ensures inside { IfSome result (λ entry. entry.place < 64) }
{
    let _ = words.next_word()?;
    let region = words.next_word()?;
    let colon = words.next_word()?;
    let block = words.next_word()?;
    if !is_text(colon, b":") {
        return None;
    }
    entry_by(number_in(region), block_in(xlen, block), perm_in(words))
}

/// Parses words, which may describe no region.
fn said_by(xlen: Xlen, words: Words<'_>) -> Result<Option<RegionEntry>, NotUnderstood>
    ensures value { result_ok result ≡ said_by xlen (split_words words.entry.rest.now) }
    ensures inside { IfOk result (λ said. IfSome said (λ entry. entry.place < 64)) }
{
    if is_region(words) {
        return match entry_in(xlen, words) {
            Some(entry) => Ok(Some(entry)),
            None => Err(NotUnderstood),
        };
    }
    if is_register(words) || is_another_hart(xlen, words) {
        Err(NotUnderstood)
    } else {
        Ok(None)
    }
}

/// Parses a line of the boot log of a hart with this width: the entry of a region, or nothing.
pub fn log_says(xlen: Xlen, raw: &[u8]) -> Result<Option<RegionEntry>, NotUnderstood>
    ensures value { result_ok result ≡ log_says xlen raw.now }
    ensures inside { IfOk result (λ said. IfSome said (λ entry. entry.place < 64)) }
{
    if is_damaged(raw) {
        return Err(NotUnderstood);
    }
    said_by(xlen, words_in(raw))
}

/// Returns whether a text is a boot log, that is, some line describes a region.
pub fn is_boot_log(bytes: &[u8]) -> bool
    ensures { result ≡ is_boot_log bytes.now }
{
    let mut rest = bytes;
    while !rest.is_empty() {
        let (raw, behind) = split_line(rest);
        if is_region(words_in(raw)) {
            return true;
        }
        rest = behind;
    }
    false
}
