//! Parses accesses in their plainest spelling, such as `load s 8 0x80000ff8`, with or without `@H` before them: single
//! spaces between words, a size of one digit, hexadecimal numbers, and nothing else. Most lines of a long trace have
//! this form, and are parsed in one pass; the general parser visits each line several times. It handles all other
//! lines.

ghost use Rattle.std.specs.Prelude.{◌≡◌, ◌≤◌, ℕ, List, ◌∷◌, ◌++◌, [], Some, None, IfSome, true};
ghost use Rattle.text_lines.specs.Numbers.{number_of};
ghost use Rattle.hart_trace.specs.declared.event.Event.TheVariants as events;
ghost use Rattle.hart_trace.specs.Events.{hart_of, mode_of};
ghost use Rattle.hart_trace.specs.Plain.{BeginsEvent, BeginsWith, Named, Starts, Tells, is_letter, keyword};

use crate::event_words::sized;
use pmp_match::{Access, Kind, Mode};
use std::simd::prelude::*;
use text_lines::leading_hexadecimal;

/// The letter of a mode.
#[derive(Clone, Copy)]
struct ModeLetter {
    /// The letter and a space as one number, with the letter in the lowest byte.
    number: u16,
    mode: Mode,
}

const SUPERVISOR: ModeLetter = ModeLetter {
    number: 0x2073,
    mode: Mode::Supervisor,
};

const USER: ModeLetter = ModeLetter {
    number: 0x2075,
    mode: Mode::User,
};

/// The candidate mode for each letter modulo 8. A branch between the two modes would be mispredicted half of the time.
static MODES: [ModeLetter; 8] = [
    SUPERVISOR, SUPERVISOR, SUPERVISOR, SUPERVISOR, SUPERVISOR, USER, SUPERVISOR, SUPERVISOR,
];

/// Returns the mode that a letter names, if a space follows it.
#[inline(always)]
pub(crate) fn plain_mode(letter: u8, space: u8) -> Option<Mode>
    ensures mode { IfSome result (λ mode. mode_of (letter ∷ []) ≡ Some mode) }
    ensures letter { IfSome result (λ _. is_letter letter ≡ true) }
    ensures space { IfSome result (λ _. space ≡ 32) }
{
    let named = MODES[usize::from(letter % 8)];
    if u16::from_le_bytes([letter, space]) != named.number {
        return None;
    }
    Some(named.mode)
}

/// Returns the number that a digit spells, or more than 9 for any other byte.
#[inline(always)]
fn plain_size(byte: u8) -> u64
    ensures size { result ≤ 9 → number_of (byte ∷ []) ≡ Some result }
    ensures letter { result ≤ 9 → is_letter byte ≡ true }
{
    u64::from(byte.wrapping_sub(b'0'))
}

/// Returns whether two bytes are a space and `0`. As one number they need one comparison.
#[inline(always)]
fn begin_number(space: u8, zero: u8) -> bool
    ensures { result ≡ true → (space ≡ 32) × (zero ≡ 48) }
{
    u16::from_le_bytes([space, zero]) == u16::from_le_bytes([b' ', b'0'])
}

/// Returns the mode and the size of an access, and the text after the `0x` or `0X` of its address.
#[inline(always)]
fn plain_start(rest: &[u8]) -> Option<(Mode, u64, &[u8])>
    ensures { IfSome result (λ start. Starts rest.now start.0 start.1 start.2.now) }
{
    let [letter, first, size, second, zero, mark, digits @ ..] = rest else {
        return None;
    };
    if !begin_number(*second, *zero) || *mark != b'x' && *mark != b'X' {
        return None;
    }
    let mode = plain_mode(*letter, *first)?;
    let size = plain_size(*size);
    if size > 8 {
        return None;
    }
    Some((mode, size, digits))
}

/// Returns the text after ` 0x`.
#[inline(always)]
fn behind_blank(text: &[u8]) -> Option<&[u8]>
    ensures { IfSome result (λ digits. text.now ≡ 32 ∷ 48 ∷ 120 ∷ digits.now) }
{
    match text {
        [b' ', b'0', b'x', digits @ ..] => Some(digits),
        _ => None,
    }
}

/// Returns the first eight bytes of a line as a little-endian number.
#[inline(always)]
fn first_bytes(line: &[u8]) -> Option<u64>
    ensures { IfSome result (λ number. BeginsWith line.now number) }
{
    if line.len() < 8 {
        return None;
    }
    Some(u64::from_le_bytes(u8x8::from_slice(line).to_array()))
}

/// The keyword of a kind of access, with the space after it.
#[derive(Clone, Copy)]
struct Keyword {
    kind: Kind,
    /// The length in bytes.
    len: usize,
    /// The mask of that many bytes.
    mask: u64,
    /// The bytes as a little-endian number.
    number: u64,
}

const LOAD: Keyword = Keyword {
    kind: Kind::Load,
    len: 5,
    mask: 0xff_ffff_ffff,
    number: 0x20_6461_6f6c,
};

const STORE: Keyword = Keyword {
    kind: Kind::Store,
    len: 6,
    mask: 0xffff_ffff_ffff,
    number: 0x2065_726f_7473,
};

const FETCH: Keyword = Keyword {
    kind: Kind::Fetch,
    len: 6,
    mask: 0xffff_ffff_ffff,
    number: 0x2068_6374_6566,
};

/// The candidate keyword for the first byte of a line modulo 8. A branch between a load and a fetch would be
/// mispredicted half of the time.
static KEYWORDS: [Keyword; 8] = [LOAD, LOAD, LOAD, STORE, LOAD, LOAD, FETCH, LOAD];

/// Returns the keyword that a line with these first bytes may begin with.
#[inline(always)]
fn keyword_of(first: u64) -> Keyword
    ensures { Tells result }
{
    KEYWORDS[(first % 8) as usize]
}

/// Returns the kind of an access, and the text after its keyword and the space.
#[inline(always)]
fn behind_keyword(line: &[u8]) -> Option<(Kind, &[u8])>
    ensures { IfSome result (λ said. line.now ≡ keyword said.0 ++ 32 ∷ said.1.now) }
{
    let first = first_bytes(line)?;
    let said = keyword_of(first);
    if first & said.mask != said.number {
        return None;
    }
    // Each length in the table is below 8. The remainder tells the compiler so: with 64 bytes it then knows that enough
    // are left, and omits bounds checks for the parts of the line.
    Some((said.kind, &line[said.len % 8..]))
}

/// Parses the access of a plain line without a hart at the front of a text: returns the access, the value that a store
/// writes, otherwise 0, and the text after it. `None` implies nothing about the text.
#[inline(always)]
pub(crate) fn plain_access(text: &[u8]) -> Option<(Access, u64, &[u8])>
    ensures { IfSome result (λ found.
        BeginsEvent text.now (events.Access found.0 found.1) found.2.now) }
{
    let (kind, rest) = behind_keyword(text)?;
    let (mode, size, digits) = plain_start(rest)?;
    let (address, behind) = leading_hexadecimal(digits)?;
    let access = sized(mode, kind, size, address)?;
    match kind {
        Kind::Store => {
            let digits = behind_blank(behind)?;
            let (value, end) = leading_hexadecimal(digits)?;
            Some((access, value, end))
        }
        Kind::Fetch | Kind::Load => Some((access, 0, behind)),
    }
}

/// Returns the hart that a line names, if it begins with `@H` and one space, and the text after them.
#[inline(always)]
fn behind_hart(line: &[u8], harts: u8) -> Option<(u8, &[u8])>
    ensures { IfSome result (λ named.
        (digit : ℕ) × (line.now ≡ 64 ∷ digit ∷ 32 ∷ named.1.now)
        × (hart_of harts (64 ∷ digit ∷ []) ≡ Some named.0)) }
{
    match line {
        [b'@', digit @ b'0'..=b'9', b' ', rest @ ..] if *digit - b'0' < harts => {
            Some((*digit - b'0', rest))
        }
        _ => None,
    }
}

/// Returns the hart of a line's event, and the text after its name. If no hart is named, returns hart 0 and the whole
/// line.
#[inline(always)]
pub(crate) fn hart_in(line: &[u8], harts: u8) -> (u8, &[u8])
    ensures { Named harts line.now result.0 result.1.now }
{
    match behind_hart(line, harts) {
        Some((hart, rest)) => (hart, rest),
        None => (0, line),
    }
}
