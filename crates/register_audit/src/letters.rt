//! The letters of a region.

ghost use Rattle.std.specs.Prelude.{◌≡◌, option_map};
ghost use Rattle.register_audit.specs.Letters.{are_letters, before_end, has_letter, is_letter, letters_of, perm_by, perm_of};

use pmp_encoding::Perm;
use text_lines::{after_text, is_text, len_before};

/// Returns the text before a final closing parenthesis.
fn before_end(text: &[u8]) -> Option<&[u8]>
    ensures { option_map (λ rest. rest.now) result ≡ before_end text.now }
{
    let before = text.len().saturating_sub(1);
    if is_text(&text[before..], b")") {
        Some(&text[..before])
    } else {
        None
    }
}

/// Returns whether a byte is a letter of a region.
fn is_letter(byte: u8) -> bool
    ensures { result ≡ is_letter byte }
{
    matches!(byte, b'F' | b'I' | b'M' | b'R' | b'W' | b'X')
}

/// Returns whether a text is empty or consists of letters separated by commas. It is not if the log lost a byte.
fn are_letters(text: &[u8]) -> bool
    ensures { result ≡ are_letters text.now }
{
    match text {
        [] => true,
        [letter] => is_letter(*letter),
        [_, _] => false,
        [letter, comma, rest @ ..] => is_letter(*letter) && *comma == b',' && are_letters(rest),
    }
}

/// Returns the letters in parentheses.
fn letters_of(word: &[u8]) -> Option<&[u8]>
    ensures { option_map (λ rest. rest.now) result ≡ letters_of word.now }
{
    let rest = after_text(word, b"(")?;
    let letters = before_end(rest)?;
    if are_letters(letters) {
        Some(letters)
    } else {
        None
    }
}

fn has_letter(letter: u8, letters: &[u8]) -> bool
    ensures { result ≡ has_letter letter letters.now }
{
    len_before(letter, letters) < letters.len()
}

/// Returns the permission with these accesses. W without R is reserved.
fn perm_by(reads: bool, writes: bool, executes: bool) -> Option<Perm>
    ensures { result ≡ perm_by reads writes executes }
{
    match (reads, writes, executes) {
        (false, false, false) => Some(Perm::NoAccess),
        (true, false, false) => Some(Perm::Read),
        (true, true, false) => Some(Perm::ReadWrite),
        (false, false, true) => Some(Perm::Execute),
        (true, false, true) => Some(Perm::ReadExecute),
        (true, true, true) => Some(Perm::ReadWriteExecute),
        (false, true, _) => None,
    }
}

/// Parses the permission of a word of letters.
pub(crate) fn perm_of(word: &[u8]) -> Option<Perm>
    ensures { result ≡ perm_of word.now }
{
    let letters = letters_of(word)?;
    perm_by(
        has_letter(b'R', letters),
        has_letter(b'W', letters),
        has_letter(b'X', letters),
    )
}
