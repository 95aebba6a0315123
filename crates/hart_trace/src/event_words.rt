//! Parses the words of an event in order. The first unexpected word is at fault.

ghost use Rattle.std.specs.Prelude.{◌≡◌, ◌<◌, ◌≤◌, IfErr, IfOk, IfSome, Some, [], ◌∷◌, false, length, refl};
ghost use Rattle.std.specs.Result.{result_ok};
ghost use Rattle.pmp_match.specs.Kinds.{has_size};
ghost use Rattle.text_lines.specs.Columns.{end_of, placed_at, words_in};
ghost use Rattle.text_lines.specs.Numbers.{number_of};
ghost use Rattle.hart_trace.specs.Events.{event_by, event_of, has_leading_zero, kind_of, mode_of, register_of, sized};
ghost use Rattle.hart_trace.specs.EventWords.{AtFault, Exceeds, IsWanting, Lacks, LacksAccess, Reads, ReadsAccess};
ghost use Rattle.hart_trace.specs.Faults.{event_fault, may_end, size_of, told};

use crate::event::Event;
use crate::fault::{EventKind, LineFault, Reason, Slot};
use arrayvec::ArrayVec;
use pmp_match::{Access, Kind, Mode};
use text_lines::{Placed, is_text, next_word, number, numeral};

/// Returns the fault of a word.
pub(crate) fn fault_at<'a>(placed: Placed<'a>, reason: Reason) -> LineFault<'a>
    ensures { told result ≡ (placed.entry.before, placed.entry.word.now, reason) }
{
    LineFault {
        before: placed.before,
        word: placed.word,
        reason,
    }
}

/// Returns the kind of event that a keyword begins.
pub(crate) fn kind_of(word: &[u8]) -> Option<EventKind>
    ensures { result ≡ kind_of word.now }
{
    if is_text(word, b"fetch") {
        return Some(EventKind::Fetch);
    }
    if is_text(word, b"load") {
        return Some(EventKind::Load);
    }
    if is_text(word, b"store") {
        return Some(EventKind::Store);
    }
    if is_text(word, b"reg") {
        return Some(EventKind::Reg);
    }
    if is_text(word, b"ecall") {
        return Some(EventKind::Ecall);
    }
    if is_text(word, b"irq") {
        return Some(EventKind::Irq);
    }
    None
}

fn mode_of(word: &[u8]) -> Option<Mode>
    ensures { result ≡ mode_of word.now }
{
    match word {
        b"s" => Some(Mode::Supervisor),
        b"u" => Some(Mode::User),
        _ => None,
    }
}

/// The sizes up to 8 of a fetch.
static FETCHES: [bool; 9] = [false, false, true, false, true, false, false, false, false];

/// The sizes up to 8 of a load or a store.
static OTHERS: [bool; 9] = [false, true, true, false, true, false, false, false, true];

/// Returns whether the kind has the size, without a branch on the size, which would often be mispredicted.
#[inline(always)]
fn has_size(kind: Kind, size: u64) -> bool
    ensures { result ≡ has_size kind size }
{
    if size > 8 {
        return false;
    }
    match kind {
        Kind::Fetch => FETCHES[size as usize],
        Kind::Load | Kind::Store => OTHERS[size as usize],
    }
}

/// Parses a size that accesses of this kind have.
fn size_of(kind: Kind, word: &[u8]) -> Option<u64>
    ensures { result ≡ size_of kind word.now }
{
    let size = number(word)?;
    if !has_size(kind, size) {
        return None;
    }
    Some(size)
}

#[inline(always)]
pub(crate) fn sized(mode: Mode, kind: Kind, size: u64, address: u64) -> Option<Access>
    ensures { result ≡ sized mode kind size address (has_size kind size) refl }
{
    if !has_size(kind, size) {
        return None;
    }
    Some(Access {
        mode,
        kind,
        size: size as u8,
        address,
    })
}

pub(crate) fn has_leading_zero(digits: &[u8]) -> bool
    ensures { result ≡ has_leading_zero digits.now }
{
    match digits {
        [first, _, ..] => *first == b'0',
        _ => false,
    }
}

fn register_of(word: &[u8]) -> Option<u8>
    ensures value { result ≡ register_of word.now }
    ensures most { IfSome result (λ n. n < 32) }
{
    let [x, digits @ ..] = word else {
        return None;
    };
    let n = numeral(digits, 10)?;
    if *x == b'x' && !has_leading_zero(digits) && n < 32 {
        Some(n as u8)
    } else {
        None
    }
}

/// Returns the next word of an event, which should fill this slot.
fn word_in<'a>(
    event: EventKind,
    slot: Slot,
    text: &'a [u8],
    at: usize,
) -> Result<Placed<'a>, LineFault<'a>>
    requires { at ≤ length text.now }
    ensures word { IfOk result (λ placed. placed_at text.now at
        ≡ (placed.before, placed.word.now) ∷ placed_at text.now placed.end) }
    ensures end { IfOk result (λ placed. placed.end ≡ end_of (placed.before, placed.word.now)) }
    ensures within { IfOk result (λ placed. placed.end ≤ length text.now) }
    ensures none { IfErr result (λ fault. IsWanting event slot text.now at (told fault)) }
{
    match next_word(text, at) {
        Some(placed) => Ok(placed),
        None => Err(LineFault {
            before: at,
            word: &[],
            reason: Reason::Missing(event, slot),
        }),
    }
}

/// Parses the next word as a mode, and returns the mode and the end of the word.
fn mode_in<'a>(event: EventKind, text: &'a [u8], at: usize) -> Result<(Mode, usize), LineFault<'a>>
    requires { at ≤ length text.now }
    ensures read { IfOk result (λ found. Reads mode_of text.now at found.0 found.1) }
    ensures fault { IfErr result (λ fault.
        Lacks event Slot.Mode mode_of text.now at (told fault)) }
{
    let placed = word_in(event, Slot::Mode, text, at)?;
    match mode_of(placed.word) {
        Some(mode) => Ok((mode, placed.end)),
        None => Err(fault_at(placed, Reason::Misfit(Slot::Mode))),
    }
}

/// Parses the next word as a size that accesses of this kind have, and returns the size and the end of the word.
fn size_in<'a>(
    event: EventKind,
    kind: Kind,
    text: &'a [u8],
    at: usize,
) -> Result<(u64, usize), LineFault<'a>>
    requires { at ≤ length text.now }
    ensures read { IfOk result (λ found. Reads (size_of kind) text.now at found.0 found.1) }
    ensures fault { IfErr result (λ fault.
        Lacks event (Slot.Size kind) (size_of kind) text.now at (told fault)) }
{
    let placed = word_in(event, Slot::Size(kind), text, at)?;
    match size_of(kind, placed.word) {
        Some(size) => Ok((size, placed.end)),
        None => Err(fault_at(placed, Reason::Misfit(Slot::Size(kind)))),
    }
}

/// Parses the next word as a number, and returns the number and the end of the word.
fn number_in<'a>(
    event: EventKind,
    slot: Slot,
    text: &'a [u8],
    at: usize,
) -> Result<(u64, usize), LineFault<'a>>
    requires { at ≤ length text.now }
    ensures read { IfOk result (λ found. Reads number_of text.now at found.0 found.1) }
    ensures fault { IfErr result (λ fault. Lacks event slot number_of text.now at (told fault)) }
{
    let placed = word_in(event, slot, text, at)?;
    match number(placed.word) {
        Some(value) => Ok((value, placed.end)),
        None => Err(fault_at(placed, Reason::Misfit(slot))),
    }
}

/// Parses the next word as a register, and returns the register and the end of the word.
fn register_in<'a>(
    event: EventKind,
    text: &'a [u8],
    at: usize,
) -> Result<(u8, usize), LineFault<'a>>
    requires { at ≤ length text.now }
    ensures read { IfOk result (λ found. Reads register_of text.now at found.0 found.1) }
    ensures fault { IfErr result (λ fault.
        Lacks event Slot.Register register_of text.now at (told fault)) }
    ensures most { IfOk result (λ found. found.0 < 32) }
{
    let placed = word_in(event, Slot::Register, text, at)?;
    match register_of(placed.word) {
        Some(register) => Ok((register, placed.end)),
        None => Err(fault_at(placed, Reason::Misfit(Slot::Register))),
    }
}

/// Checks that no word is left.
fn end_in<'a>(event: EventKind, text: &'a [u8], at: usize) -> Result<(), LineFault<'a>>
    requires { at ≤ length text.now }
    ensures end { IfOk result (λ _. placed_at text.now at ≡ []) }
    ensures fault { IfErr result (λ fault. Exceeds event text.now at (told fault)) }
{
    match next_word(text, at) {
        None => Ok(()),
        Some(placed) => Err(fault_at(placed, Reason::Extra(event))),
    }
}

/// Parses the next three words as an access, and returns the access and the end of the last word.
fn access_in<'a>(
    event: EventKind,
    kind: Kind,
    text: &'a [u8],
    at: usize,
) -> Result<(Access, usize), LineFault<'a>>
    requires within { at ≤ length text.now }
    requires needed { may_end event ≡ false }
    ensures read { IfOk result (λ found.
        ReadsAccess event kind text.now at found.0 found.1) }
    ensures fault { IfErr result (λ fault. LacksAccess event kind text.now at (told fault)) }
{
    let (mode, mode_end) = mode_in(event, text, at)?;
    let (size, size_end) = size_in(event, kind, text, mode_end)?;
    let (address, end) = number_in(event, Slot::Address, text, size_end)?;
    let Some(access) = sized(mode, kind, size, address) else {
        unreachable!();
    };
    Ok((access, end))
}

/// Parses the words after `fetch`.
fn fetch_in<'a>(text: &'a [u8], at: usize) -> Result<Event, LineFault<'a>>
    requires { at ≤ length text.now }
    ensures value { result_ok result
        ≡ event_by EventKind.Fetch (words_in (placed_at text.now at)) }
    ensures fault { IfErr result (λ fault. AtFault EventKind.Fetch text.now at (told fault)) }
{
    let (access, end) = access_in(EventKind::Fetch, Kind::Fetch, text, at)?;
    end_in(EventKind::Fetch, text, end)?;
    Ok(Event::Access(access, 0))
}

/// Parses the words after `load`.
fn load_in<'a>(text: &'a [u8], at: usize) -> Result<Event, LineFault<'a>>
    requires { at ≤ length text.now }
    ensures value { result_ok result
        ≡ event_by EventKind.Load (words_in (placed_at text.now at)) }
    ensures fault { IfErr result (λ fault. AtFault EventKind.Load text.now at (told fault)) }
{
    let (access, end) = access_in(EventKind::Load, Kind::Load, text, at)?;
    end_in(EventKind::Load, text, end)?;
    Ok(Event::Access(access, 0))
}

/// Parses the words after `store`.
fn store_in<'a>(text: &'a [u8], at: usize) -> Result<Event, LineFault<'a>>
    requires { at ≤ length text.now }
    ensures value { result_ok result
        ≡ event_by EventKind.Store (words_in (placed_at text.now at)) }
    ensures fault { IfErr result (λ fault. AtFault EventKind.Store text.now at (told fault)) }
{
    let (access, access_end) = access_in(EventKind::Store, Kind::Store, text, at)?;
    let (value, end) = number_in(EventKind::Store, Slot::Value, text, access_end)?;
    end_in(EventKind::Store, text, end)?;
    Ok(Event::Access(access, value))
}

/// Parses the words after `reg`.
fn setting_in<'a>(text: &'a [u8], at: usize) -> Result<Event, LineFault<'a>>
    requires { at ≤ length text.now }
    ensures value { result_ok result ≡ event_by EventKind.Reg (words_in (placed_at text.now at)) }
    ensures fault { IfErr result (λ fault. AtFault EventKind.Reg text.now at (told fault)) }
{
    let (register, register_end) = register_in(EventKind::Reg, text, at)?;
    let (value, end) = number_in(EventKind::Reg, Slot::Value, text, register_end)?;
    end_in(EventKind::Reg, text, end)?;
    Ok(Event::Reg(register, value))
}

/// Parses the words after `ecall`.
fn call_in<'a>(text: &'a [u8], at: usize) -> Result<Event, LineFault<'a>>
    requires { at ≤ length text.now }
    ensures value { result_ok result
        ≡ event_by EventKind.Ecall (words_in (placed_at text.now at)) }
    ensures fault { IfErr result (λ fault. AtFault EventKind.Ecall text.now at (told fault)) }
{
    let mut numbers = ArrayVec::new();
    let mut end = at;
    while let Some(placed) = next_word(text, end) {
        if numbers.is_full() {
            return Err(fault_at(placed, Reason::Extra(EventKind::Ecall)));
        }
        let Some(number) = number(placed.word) else {
            return Err(fault_at(placed, Reason::Misfit(Slot::Argument)));
        };
        numbers.push(number);
        end = placed.end;
    }
    Ok(Event::Ecall(numbers))
}

/// Parses the words after `irq`.
fn interrupt_in<'a>(text: &'a [u8], at: usize) -> Result<Event, LineFault<'a>>
    requires { at ≤ length text.now }
    ensures value { result_ok result ≡ event_by EventKind.Irq (words_in (placed_at text.now at)) }
    ensures fault { IfErr result (λ fault. AtFault EventKind.Irq text.now at (told fault)) }
{
    end_in(EventKind::Irq, text, at)?;
    Ok(Event::Irq)
}

/// Parses the words from a position on as an event of this kind.
fn event_by<'a>(kind: EventKind, text: &'a [u8], at: usize) -> Result<Event, LineFault<'a>>
    requires { at ≤ length text.now }
    ensures value { result_ok result ≡ event_by kind (words_in (placed_at text.now at)) }
    ensures fault { IfErr result (λ fault. AtFault kind text.now at (told fault)) }
{
    match kind {
        EventKind::Fetch => fetch_in(text, at),
        EventKind::Load => load_in(text, at),
        EventKind::Store => store_in(text, at),
        EventKind::Reg => setting_in(text, at),
        EventKind::Ecall => call_in(text, at),
        EventKind::Irq => interrupt_in(text, at),
    }
}

/// Parses the event of a keyword and the words after it.
pub(crate) fn event_in<'a>(text: &'a [u8], keyword: Placed<'a>) -> Result<Event, LineFault<'a>>
    requires within { keyword.end ≤ length text.now }
    requires end { keyword.end ≡ end_of (keyword.before, keyword.word.now) }
    ensures value { result_ok result ≡ event_of (keyword.entry.word.now
        ∷ words_in (placed_at text.now keyword.entry.end)) }
    ensures fault { IfErr result (λ fault.
        event_fault (keyword.entry.before, keyword.entry.word.now)
        (placed_at text.now keyword.entry.end) ≡ Some (told fault)) }
{
    let Some(kind) = kind_of(keyword.word) else {
        return Err(fault_at(keyword, Reason::UnknownEvent));
    };
    event_by(kind, text, keyword.end)
}
