//! Classifies single bytes of a line, and compares words with texts.

ghost use Rattle.std.specs.Prelude.{◌≡◌, bytes_eq, option_map};
ghost use Rattle.std.specs.Str.{str_eq_ignore_ascii_case};
ghost use Rattle.text_lines.specs.Bytes.{after_name, after_text, begins_with, has_mark};
ghost use Rattle.text_lines.specs.Words.{is_allowed, is_blank};

/// Returns whether a byte separates words: a space or a tab.
#[inline(always)]
pub fn is_blank(byte: u8) -> bool
    ensures { result ≡ is_blank byte }
{
    byte == b' ' || byte == b'\t'
}

/// Returns whether a byte is allowed outside a comment: a tab, a space or a visible ASCII character.
#[inline(always)]
pub fn is_allowed(byte: u8) -> bool
    ensures { result ≡ is_allowed byte }
{
    byte == b'\t' || (byte >= 32 && byte <= 126)
}

/// Returns whether a word is a text.
pub fn is_text(word: &[u8], text: &[u8]) -> bool
    ensures { result ≡ bytes_eq word.now text.now }
{
    word == text
}

/// Returns the rest of a word that begins with a text.
pub fn after_text<'a>(word: &'a [u8], text: &[u8]) -> Option<&'a [u8]>
    ensures { option_map (λ rest. rest.now) result ≡ after_text word.now text.now }
{
    if text.len() > word.len() {
        return None;
    }
    if is_text(&word[..text.len()], text) {
        Some(&word[text.len()..])
    } else {
        None
    }
}

/// Returns whether a word is a name, in upper or lower case.
pub fn is_name(word: &[u8], name: &[u8]) -> bool
    ensures { result ≡ str_eq_ignore_ascii_case word.now name.now }
{
    word.eq_ignore_ascii_case(name)
}

/// Returns whether a word begins with a name, in upper or lower case.
pub fn begins_with(word: &[u8], name: &[u8]) -> bool
    ensures { result ≡ begins_with word.now name.now }
{
    name.len() <= word.len() && is_name(&word[..name.len()], name)
}

/// Returns the rest of a word that begins with a name, in upper or lower case.
pub fn after_name<'a>(word: &'a [u8], name: &[u8]) -> Option<&'a [u8]>
    ensures { option_map (λ rest. rest.now) result ≡ after_name word.now name.now }
{
    if begins_with(word, name) {
        Some(&word[name.len()..])
    } else {
        None
    }
}

/// Returns whether a line begins with a byte order mark.
pub fn has_mark(line: &[u8]) -> bool
    ensures { result ≡ has_mark line.now }
{
    matches!(line, [0xEF, 0xBB, 0xBF, ..])
}
