//! Parses the lines of a trace word by word: returns the meaning of each, or the word at fault and the reason.

ghost use Rattle.std.specs.Prelude.{◌≡◌, Some, IfErr, IfOk, IfSome, option_map};
ghost use Rattle.std.specs.Result.{result_ok};
ghost use Rattle.text_lines.specs.Columns.{placed_words, words_in};
ghost use Rattle.text_lines.specs.Words.{content_of};
ghost use Rattle.hart_trace.specs.Answers.{access_on};
ghost use Rattle.hart_trace.specs.Events.{hart_of, meaning_of, said_by};
ghost use Rattle.hart_trace.specs.EventWords.{event_said, BeginsWith};
ghost use Rattle.hart_trace.specs.Faults.{access_fault, access_of_event, begins_with_at, bytes_fault, judged, line_fault, run_fault, told, words_fault};

use crate::event::Event;
use crate::event_words::{event_in, fault_at};
use crate::fault::{LineFault, Reason};
use pmp_match::Access;
use text_lines::{
    NotUnderstood, Placed, allowed_len, are_allowed, content_of, has_mark, next_word,
};

/// Maximum number of harts in a trace.
const MOST_HARTS: u8 = 4;

/// Returns the hart that a word names, below `harts`.
fn hart_of(word: &[u8], harts: u8) -> Option<u8>
    ensures { result ≡ hart_of harts word.now }
{
    match word {
        [b'@', digit @ b'0'..=b'9'] if *digit - b'0' < harts => Some(*digit - b'0'),
        _ => None,
    }
}

fn begins_with_at(word: &[u8]) -> bool
    ensures { result ≡ begins_with_at word.now }
{
    matches!(word, [b'@', ..])
}

/// Returns the fault of a line that has a byte outside its comment that is not allowed.
#[cold]
fn byte_fault(line: &[u8]) -> LineFault<'_>
    ensures { told result ≡ bytes_fault line.now }
{
    if has_mark(line) {
        return LineFault {
            before: 0,
            word: &[],
            reason: Reason::ByteOrderMark,
        };
    }
    let before = allowed_len(line);
    LineFault {
        before,
        word: &line[before..],
        reason: Reason::NoText,
    }
}

/// The meaning of a line that has words.
#[derive(Drop)]
struct Said<'a> {
    /// The first word of the line.
    first: Placed<'a>,
    /// The hart that this word names, if it names one.
    hart: Option<u8>,
    /// The event on that hart, or on hart 0.
    event: Event,
}

/// Parses the words of a line.
fn said_by<'a>(content: &'a [u8], harts: u8) -> Result<Option<Said<'a>>, LineFault<'a>>
    ensures value { option_map (λ found. option_map event_said found) (result_ok result)
        ≡ said_by harts (words_in (placed_words content.now)) }
    ensures first { IfOk result (λ found.
        IfSome found (BeginsWith harts (placed_words content.now))) }
    ensures fault { IfErr result (λ fault.
        words_fault harts (placed_words content.now) ≡ Some (told fault)) }
{
    let Some(first) = next_word(content, 0) else {
        return Ok(None);
    };
    let hart = hart_of(first.word, harts);
    if hart.is_none() {
        if begins_with_at(first.word) {
            return Err(fault_at(first, Reason::NoHart));
        }
        let event = event_in(content, first)?;
        return Ok(Some(Said { first, hart, event }));
    }
    let Some(keyword) = next_word(content, first.end) else {
        return Err(LineFault {
            before: first.end,
            word: &[],
            reason: Reason::NoEvent,
        });
    };
    let event = event_in(content, keyword)?;
    Ok(Some(Said { first, hart, event }))
}

/// Parses a line without its LF and CR.
fn said_in<'a>(line: &'a [u8], harts: u8) -> Result<Option<Said<'a>>, LineFault<'a>>
    ensures value { option_map (λ found. option_map event_said found) (result_ok result)
        ≡ meaning_of harts line.now }
    ensures first { IfOk result (λ found.
        IfSome found (BeginsWith harts (placed_words (content_of line.now)))) }
    ensures fault { IfErr result (λ fault. line_fault harts line.now ≡ Some (told fault)) }
{
    let content = content_of(line);
    if !are_allowed(content) {
        return Err(byte_fault(line));
    }
    said_by(content, harts)
}

/// Parses the event of a line and its hart, below `harts`, or returns the fault of the line. A line without words has
/// no event.
pub fn read_line<'a>(line: &'a [u8], harts: u8) -> Result<Option<(u8, Event)>, LineFault<'a>>
    ensures value { result_ok result ≡ meaning_of harts line.now }
    ensures fault { IfErr result (λ fault. line_fault harts line.now ≡ Some (told fault)) }
{
    match said_in(line, harts)? {
        None => Ok(None),
        Some(said) => {
            let Said {
                first: _,
                hart,
                event,
            } = said;
            Ok(Some((hart.unwrap_or(0), event)))
        }
    }
}

/// Returns the access of an event.
fn access_of_event(event: Event) -> Option<Access>
    ensures { result ≡ access_of_event event }
{
    match event {
        Event::Access(access, _) => Some(access),
        Event::Reg(..) | Event::Ecall(_) | Event::Irq => None,
    }
}

/// Returns the access of a line for `judge`, or the reason why only `run` accepts it.
fn judged<'a>(said: Said<'a>) -> Result<Access, LineFault<'a>>
    ensures value { result_ok result ≡ judged said.entry.hart said.entry.event }
    ensures fault { IfErr result (λ fault. run_fault said.entry.hart
        (said.entry.first.before, said.entry.first.word.now) said.entry.event ≡ Some (told fault)) }
{
    let Said { first, hart, event } = said;
    if hart.is_some() {
        return Err(fault_at(first, Reason::HartOfRun));
    }
    match access_of_event(event) {
        Some(access) => Ok(access),
        None => Err(fault_at(first, Reason::EventOfRun)),
    }
}

/// Parses the access of a line without a hart, or returns the fault of the line for `judge`. A line without words has
/// no access.
pub fn read_access<'a>(line: &'a [u8]) -> Result<Option<Access>, LineFault<'a>>
    ensures value { result_ok result ≡ access_on line.now }
    ensures fault { IfErr result (λ fault. access_fault line.now ≡ Some (told fault)) }
{
    let Some(said) = said_in(line, MOST_HARTS)? else {
        return Ok(None);
    };
    let access = judged(said)?;
    Ok(Some(access))
}

/// Parses the event of a line, as [`read_line`] does, without the fault.
pub fn parse_line(line: &[u8], harts: u8) -> Result<Option<(u8, Event)>, NotUnderstood>
    ensures { result_ok result ≡ meaning_of harts line.now }
{
    match read_line(line, harts) {
        Ok(said) => Ok(said),
        Err(_) => Err(NotUnderstood),
    }
}
