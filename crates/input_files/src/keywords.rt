//! The keywords of events, and a search for the one that resembles a word.

use hart_trace::EventKind;

/// Returns the keyword of an event.
pub(crate) fn keyword(kind: EventKind) -> &'static str {
    match kind {
        EventKind::Fetch => "fetch",
        EventKind::Load => "load",
        EventKind::Store => "store",
        EventKind::Reg => "reg",
        EventKind::Ecall => "ecall",
        EventKind::Irq => "irq",
    }
}

/// Converts a letter to lower case.
fn lower(byte: u8) -> u8 {
    match byte {
        b'A'..=b'Z' => byte + 32,
        _ => byte,
    }
}

/// Returns whether one of two words is a prefix of the other, ignoring case.
fn begins_alike(word: &[u8], keyword: &[u8]) -> bool {
    let [first, word @ ..] = word else {
        return true;
    };
    let [letter, keyword @ ..] = keyword else {
        return true;
    };
    lower(*first) == *letter && begins_alike(word, keyword)
}

/// Returns whether two words differ in one letter.
fn one_letter_off(word: &[u8], keyword: &[u8]) -> bool {
    let [first, word @ ..] = word else {
        return false;
    };
    let [letter, keyword @ ..] = keyword else {
        return false;
    };
    if lower(*first) == *letter {
        return one_letter_off(word, keyword);
    }
    word.len() == keyword.len() && begins_alike(word, keyword)
}

/// Returns whether a word resembles the keyword of an event.
fn is_near(word: &[u8], kind: EventKind) -> bool {
    let keyword = keyword(kind).as_bytes();
    begins_alike(word, keyword) || one_letter_off(word, keyword)
}

/// Returns the first event whose keyword a word resembles.
pub(crate) fn near_kind(word: &[u8]) -> Option<EventKind> {
    const KINDS: [EventKind; 6] = [
        EventKind::Fetch,
        EventKind::Load,
        EventKind::Store,
        EventKind::Reg,
        EventKind::Ecall,
        EventKind::Irq,
    ];
    for kind in KINDS.as_slice() {
        if is_near(word, *kind) {
            return Some(*kind);
        }
    }
    None
}
