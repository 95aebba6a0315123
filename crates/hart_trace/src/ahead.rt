//! Parses a plain line at the front of a buffer that may contain further lines: the line ends after its last number.

ghost use Rattle.std.specs.Prelude.{◌≡◌, ℕ, ◌-◌, ◌≤◌, List, [], ◌∷◌, Some, IfSome, length, take};
ghost use Rattle.text_lines.specs.Lines.{BeginsLine};
ghost use Rattle.hart_trace.specs.declared.event.Event.TheVariants as events;
ghost use Rattle.hart_trace.specs.Events.{meaning_of};

use crate::plain::{hart_in, plain_access};
use crate::plain_events::{plain_call, plain_interrupt, plain_setting};
use arrayvec::ArrayVec;
use pmp_match::Access;

/// A number of bytes greater than the longest plain line of an access with its LF. With this many bytes, the compiler
/// omits bounds checks for the parts of a line.
const ENOUGH: usize = 64;

/// Returns the number of bytes before a text that begins with LF.
#[inline(always)]
fn len_before(ahead: &[u8], behind: &[u8]) -> Option<usize>
    requires { length behind.now ≤ length ahead.now }
    ensures { IfSome result (λ len.
        (len ≡ length ahead.now - length behind.now)
        × (rest : List ℕ) × (behind.now ≡ 10 ∷ rest)) }
{
    match behind {
        [b'\n', ..] => Some(ahead.len() - behind.len()),
        _ => None,
    }
}

/// Parses the access of a plain line at the front of a buffer: returns its hart, below `harts`, the access, the value
/// that a store writes, otherwise 0, and the length of the line without its LF. `None` implies nothing about the
/// buffer.
///
/// There is a function for each form of event, and none of them returns an `Event`: an `Event` has room for a call's
/// eight words, which would be copied each time.
#[inline(always)]
pub fn access_ahead(ahead: &[u8], harts: u8) -> Option<(u8, Access, u64, usize)>
    requires { length ahead.now ≤ 1024 }
    ensures line { IfSome result (λ found. BeginsLine found.3 ahead.now) }
    ensures access { IfSome result (λ found.
        meaning_of harts (take found.3 ahead.now)
        ≡ Some (Some (found.0, events.Access found.1 found.2))) }
{
    if ahead.len() < ENOUGH {
        return None;
    }
    let front = &ahead[..ENOUGH];
    let (hart, rest) = hart_in(front, harts);
    let (access, value, behind) = plain_access(rest)?;
    let len = len_before(front, behind)?;
    Some((hart, access, value, len))
}

/// Parses the setting of a register in a plain line at the front of a buffer: returns its hart, below `harts`, the
/// register, the value, and the length of the line without its LF. `None` implies nothing about the buffer.
#[inline(always)]
pub fn setting_ahead(ahead: &[u8], harts: u8) -> Option<(u8, u8, u64, usize)>
    requires { length ahead.now ≤ 1024 }
    ensures line { IfSome result (λ found. BeginsLine found.3 ahead.now) }
    ensures setting { IfSome result (λ found.
        meaning_of harts (take found.3 ahead.now)
        ≡ Some (Some (found.0, events.Reg found.1 found.2))) }
{
    let (hart, rest) = hart_in(ahead, harts);
    let (register, value, behind) = plain_setting(rest)?;
    let len = len_before(ahead, behind)?;
    Some((hart, register, value, len))
}

/// Parses the call of a plain line at the front of a buffer: returns its hart, below `harts`, and the length of the
/// line without its LF. Appends the call's words to an empty list. `None` implies nothing about the buffer.
#[inline(always)]
pub fn call_ahead(ahead: &[u8], harts: u8, words: &mut ArrayVec<u64, 8>) -> Option<(u8, usize)>
    requires few { length ahead.now ≤ 1024 }
    requires wordless { words.old.items ≡ [] }
    ensures line { IfSome result (λ found. BeginsLine found.1 ahead.now) }
    ensures call { IfSome result (λ found.
        meaning_of harts (take found.1 ahead.now)
        ≡ Some (Some (found.0, events.Ecall words.new))) }
{
    let (hart, rest) = hart_in(ahead, harts);
    let behind = plain_call(rest, words)?;
    let len = len_before(ahead, behind)?;
    Some((hart, len))
}

/// Parses the interrupt of a plain line at the front of a buffer: returns its hart, below `harts`, and the length of
/// the line without its LF. `None` implies nothing about the buffer.
#[inline(always)]
pub fn interrupt_ahead(ahead: &[u8], harts: u8) -> Option<(u8, usize)>
    requires { length ahead.now ≤ 1024 }
    ensures line { IfSome result (λ found. BeginsLine found.1 ahead.now) }
    ensures interrupt { IfSome result (λ found.
        meaning_of harts (take found.1 ahead.now) ≡ Some (Some (found.0, events.Irq))) }
{
    let (hart, rest) = hart_in(ahead, harts);
    let behind = plain_interrupt(rest)?;
    let len = len_before(ahead, behind)?;
    Some((hart, len))
}
