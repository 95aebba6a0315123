//! A line of a map file.

ghost use Rattle.std.specs.Prelude.{◌≡◌, ◌+◌, ◌^◌, ◌≤◌, [], ◌∷◌, IfOk, IfSome, Some};
ghost use Rattle.std.specs.Result.{result_ok};
ghost use Rattle.map_text.specs.MapFile.{line_says, pages_in, pages_of, raw_says, setting_of, setting_on};

use permission_map::Run;
use pmp_encoding::{PAGE_SIZE, Perm, SPACE_PAGES};
use text_lines::{
    LONGEST, NotUnderstood, Words, behind_mark, behind_space, leading_numeral, number,
    without_return,
};

/// Converts bytes to pages, if they are whole pages.
fn pages_of(bytes: u64) -> Option<u64>
    ensures { result ≡ pages_of bytes }
{
    if bytes % PAGE_SIZE != 0 {
        return None;
    }
    Some(bytes / PAGE_SIZE)
}

/// Parses a number of bytes and returns it as pages.
fn pages_in(word: &[u8]) -> Option<u64>
    ensures { result ≡ pages_in word.now }
{
    let bytes = number(word)?;
    pages_of(bytes)
}

/// Returns the permission on these pages, if they are inside the space.
fn setting_on(first: u64, count: u64, perm: Perm) -> Option<Run>
    ensures value { result ≡ setting_on first count perm }
    ensures inside { IfSome result (λ setting. setting.first + setting.count ≤ 2 ^ 44) }
{
    if first > SPACE_PAGES || count > SPACE_PAGES - first {
        return None;
    }
    Some(Run { first, count, perm })
}

/// Parses the three words of a setting.
fn setting_of(base: &[u8], size: &[u8], perm: &[u8]) -> Option<Run>
    ensures value { result ≡ setting_of (base.now ∷ size.now ∷ perm.now ∷ []) }
    ensures inside { IfSome result (λ setting. setting.first + setting.count ≤ 2 ^ 44) }
{
    let first = pages_in(base)?;
    let count = pages_in(size)?;
    let perm = Perm::from_word(perm)?;
    setting_on(first, count, perm)
}

/// Parses a line in its plainest form, such as `0x80000000 0x1000 rwx`: single spaces between words, hexadecimal
/// numbers, and nothing else. Most lines of a large map have this form, and are parsed in one pass. `None` means
/// nothing about the line.
#[inline(always)]
fn plain_setting(line: &[u8]) -> Option<Run>
    ensures says { IfSome result (λ setting. line_says line.now ≡ Some (Some setting)) }
    ensures inside { IfSome result (λ setting. setting.first + setting.count ≤ 2 ^ 44) }
{
    let digits = behind_mark(line)?;
    let (base, rest) = leading_numeral(digits, 16)?;
    let second = behind_space(rest)?;
    let digits = behind_mark(second)?;
    let (size, rest) = leading_numeral(digits, 16)?;
    let third = behind_space(rest)?;
    let perm = Perm::from_word(third)?;
    let first = pages_of(base)?;
    let count = pages_of(size)?;
    setting_on(first, count, perm)
}

/// Parses the words of a line without its LF and CR. A line without words sets nothing.
fn words_say(line: &[u8]) -> Result<Option<Run>, NotUnderstood>
    ensures value { result_ok result ≡ line_says line.now }
    ensures inside { IfOk result (λ said.
        IfSome said (λ setting. setting.first + setting.count ≤ 2 ^ 44)) }
{
    let mut words = Words::of(line)?;
    let Some(base) = words.next_word() else {
        return Ok(None);
    };
    let Some(size) = words.next_word() else {
        return Err(NotUnderstood);
    };
    let Some(perm) = words.next_word() else {
        return Err(NotUnderstood);
    };
    if let Some(_) = words.next_word() {
        return Err(NotUnderstood);
    }
    match setting_of(base, size, perm) {
        Some(setting) => Ok(Some(setting)),
        None => Err(NotUnderstood),
    }
}

/// Parses a line without its LF and CR. A line without words sets nothing.
pub(crate) fn line_says(line: &[u8]) -> Result<Option<Run>, NotUnderstood>
    ensures value { result_ok result ≡ line_says line.now }
    ensures inside { IfOk result (λ said.
        IfSome said (λ setting. setting.first + setting.count ≤ 2 ^ 44)) }
{
    if let Some(setting) = plain_setting(line) {
        return Ok(Some(setting));
    }
    words_say(line)
}

/// Parses a line of at most 1023 bytes, including its CR.
pub fn raw_says(raw: &[u8]) -> Result<Option<Run>, NotUnderstood>
    ensures value { result_ok result ≡ raw_says raw.now }
    ensures inside { IfOk result (λ said.
        IfSome said (λ setting. setting.first + setting.count ≤ 2 ^ 44)) }
{
    if raw.len() > LONGEST {
        return Err(NotUnderstood);
    }
    line_says(without_return(raw))
}
