//! The frame of an answer: the state in which a hart goes on, and the new lists of entries.

ghost use Rattle.std.specs.Prelude.{◌≡◌, ◌<◌, ◌≤◌, ◌+◌, ◌-◌, ◌*◌, ◌++◌, length, take, replicate, IfSome};
ghost use Rattle.monitor_core.specs.Answers.{world_number};
ghost use Rattle.trap_server.specs.Answered.{AreControl, HasWords};
ghost use Rattle.trap_server.specs.Answers.{listed_address, address_bytes, listed_cfg, cfg_bytes, change_bytes, changes_bytes, control_bytes, control_count, front_bytes, given_bytes, head_bytes, kind_number, list_bytes, list_count, pages_of, wake_word};

use crate::ControlWords;
use crate::frame::{AnswerBytes, TAG_ANSWER, put_word};
use monitor_core::{ChangeKind, SetChange, SetChanges};
use pmp_encoding::{Entry, PageRange};
use sbi_decode::World;

/// The lists of entries in an answer: those of the worlds whose views changed. Each other world keeps its list.
#[derive(Clone, Copy, Debug, PartialEq, Eq)]
pub enum NewLists {
    /// No list.
    Nothing,
    /// The list of the host: at boot, and after a destruction.
    Host,
    /// The list of the host, followed by that of the new enclave, whose id is the value of the answer.
    HostAndMade,
}

/// The front of an answer.
#[derive(Clone, Copy)]
pub struct Head {
    /// The hart that goes on.
    pub hart: u8,
    /// The world that runs there next.
    pub world: World,
    /// The status of the call in two's complement; 0 if there was no error or no call.
    pub status: u64,
    /// The value of the call.
    pub value: u64,
    /// The number of entries of the world that goes on.
    pub used: u64,
    /// The pages to zero before any hart goes on.
    pub zero: Option<PageRange>,
    /// The other harts, which run the host and must load its list before they go on.
    pub woken: [bool; 4],
    /// The lists after the changes of register sets.
    pub lists: NewLists,
    /// The control words after the lists.
    pub given: Option<ControlWords>,
}

/// The number of lists in an answer.
fn list_count(lists: NewLists) -> u64
    ensures { result ≡ list_count lists }
{
    match lists {
        NewLists::Nothing => 0,
        NewLists::Host => 1,
        NewLists::HostAndMade => 2,
    }
}

/// The number of control words in an answer.
fn control_count(given: &Option<ControlWords>) -> u64
    ensures { result ≡ control_count given.now }
{
    match given {
        None => 0,
        Some(_) => 9,
    }
}

/// Returns the number of a world: 0 is the host.
fn world_number(world: World) -> u64
    ensures { result ≡ world_number world }
{
    match world {
        World::Host => 0,
        World::Enclave(id) => id,
    }
}

/// Returns the word whose bit h is that of hart h.
fn wake_word(woken: &[bool; 4]) -> u64
    ensures { result ≡ wake_word woken.now }
{
    u64::from(woken[0])
        + 2 * u64::from(woken[1])
        + 4 * u64::from(woken[2])
        + 8 * u64::from(woken[3])
}

/// Returns the range of pages, which is empty from page 0 on if there is none.
fn pages_of(zero: Option<PageRange>) -> PageRange
    ensures { result ≡ pages_of zero }
{
    match zero {
        Some(range) => range,
        None => PageRange { first: 0, count: 0 },
    }
}

/// Writes the words before the changes of register sets.
#[inline(always)]
fn put_head(frame: &mut AnswerBytes, head: &Head)
    ensures { take 88 frame.new ≡ head_bytes head.now }
{
    let pages = pages_of(head.zero);
    put_word(frame, 0, TAG_ANSWER);
    put_word(frame, 1, u64::from(head.hart));
    put_word(frame, 2, world_number(head.world));
    put_word(frame, 3, head.status);
    put_word(frame, 4, head.value);
    put_word(frame, 5, head.used);
    put_word(frame, 6, pages.first);
    put_word(frame, 7, pages.count);
    put_word(frame, 8, wake_word(&head.woken));
    put_word(frame, 9, list_count(head.lists));
    put_word(frame, 10, control_count(&head.given));
}

/// Returns the number of a kind of change.
fn kind_number(kind: ChangeKind) -> u64
    ensures { result ≡ kind_number kind }
{
    match kind {
        ChangeKind::Nothing => 0,
        ChangeKind::PastCall => 1,
        ChangeKind::Answer => 2,
        ChangeKind::Begin => 3,
        ChangeKind::Clear => 4,
    }
}

/// Writes the change of a register set, from word `from` on.
#[inline(always)]
fn put_change(frame: &mut AnswerBytes, from: usize, change: &SetChange)
    requires { from + 4 ≤ 178 }
    ensures bytes { take (8 * from + 32) frame.new
        ≡ take (8 * from) frame.old ++ change_bytes change.now }
    ensures words { HasWords change.now }
{
    put_word(frame, from, kind_number(change.kind));
    put_word(frame, from + 1, change.enclave);
    put_word(frame, from + 2, change.first);
    put_word(frame, from + 3, change.second);
}

/// Writes the changes of register sets after the head.
#[inline(always)]
fn put_changes(frame: &mut AnswerBytes, changes: &SetChanges)
    ensures bytes { take 184 frame.new ≡ take 88 frame.old ++ changes_bytes changes.now }
    ensures first { HasWords changes.now.first }
    ensures second { HasWords changes.now.second }
    ensures third { HasWords changes.now.third }
{
    put_change(frame, 11, &changes.first);
    put_change(frame, 15, &changes.second);
    put_change(frame, 19, &changes.third);
}

/// Returns the configuration byte of entry i, or zero after the last entry.
fn listed_cfg(entries: &[Entry], i: usize) -> u8
    ensures { result ≡ listed_cfg entries.now i }
{
    if i >= entries.len() {
        return 0;
    }
    let (cfg, _) = entries[i].encode();
    cfg
}

/// Returns the address register of entry i, or zero after the last entry.
fn listed_address(entries: &[Entry], i: usize) -> u64
    ensures { result ≡ listed_address entries.now i }
{
    if i >= entries.len() {
        return 0;
    }
    let (_, address) = entries[i].encode();
    address
}

/// Zeroes the bytes from `from` to `end`. The bytes before them do not change.
fn clear(frame: &mut AnswerBytes, from: usize, end: usize)
    requires order { from ≤ end }
    requires inside { end ≤ 1424 }
    ensures { take end frame.new ≡ take from frame.old ++ replicate (end - from) 0 }
{
    frame[from..end].fill(0);
}

/// Writes the configuration bytes of 64 entries from byte `from` on, zero after the last entry. As words they are
/// pmpcfg0, pmpcfg2, .. pmpcfg14.
fn put_configuration(frame: &mut AnswerBytes, from: usize, entries: &[Entry])
    requires few { length entries.now ≤ 64 }
    requires inside { from + 64 ≤ 1424 }
    ensures { take (from + 64) frame.new ≡ take from frame.old ++ cfg_bytes entries.now 64 }
{
    clear(frame, from, from + 64);
    for i in 0..entries.len() {
        frame[from + i] = listed_cfg(entries, i);
    }
}

/// Writes the address registers of 64 entries from word `from` on, zero after the last entry.
fn put_addresses(frame: &mut AnswerBytes, from: usize, entries: &[Entry])
    requires few { length entries.now ≤ 64 }
    requires inside { from + 64 ≤ 178 }
    ensures { take (8 * from + 512) frame.new
        ≡ take (8 * from) frame.old ++ address_bytes entries.now 64 }
{
    for i in 0..entries.len() {
        put_word(frame, from + i, listed_address(entries, i));
    }
    clear(frame, 8 * from + 8 * entries.len(), 8 * from + 512);
}

/// Writes the front of the frame: the state in which a hart goes on, and the changes of register sets.
#[inline(always)]
pub fn put_front(frame: &mut AnswerBytes, head: &Head, changes: &SetChanges)
    ensures bytes { take 184 frame.new ≡ front_bytes head.now changes.now }
    ensures first { HasWords changes.now.first }
    ensures second { HasWords changes.now.second }
    ensures third { HasWords changes.now.third }
{
    put_head(frame, head);
    put_changes(frame, changes);
}

/// Writes control words in their order, from word `from` on.
#[inline(always)]
fn put_control(frame: &mut AnswerBytes, from: usize, control: &ControlWords)
    requires { from + 9 ≤ 178 }
    ensures bytes { take (8 * from + 72) frame.new
        ≡ take (8 * from) frame.old ++ control_bytes control.now }
    ensures fits { AreControl control.now }
{
    put_word(frame, from, control.status);
    put_word(frame, from + 1, control.satp);
    put_word(frame, from + 2, control.mie);
    put_word(frame, from + 3, control.scounteren);
    put_word(frame, from + 4, control.senvcfg);
    put_word(frame, from + 5, control.hstatus);
    put_word(frame, from + 6, control.medeleg);
    put_word(frame, from + 7, control.mideleg);
    put_word(frame, from + 8, control.mode);
}

/// Writes the given control words, if any, from word `from` on, and returns the byte at which they end.
#[inline(always)]
pub fn put_given(frame: &mut AnswerBytes, from: usize, given: &Option<ControlWords>) -> usize
    requires { from + 9 ≤ 178 }
    ensures inside { result ≤ 1424 }
    ensures bytes { take result frame.new ≡ take (8 * from) frame.old ++ given_bytes given.now }
    ensures fits { IfSome given.now AreControl }
{
    match given {
        None => 8 * from,
        Some(control) => {
            put_control(frame, from, control);
            8 * from + 72
        }
    }
}

/// Writes a list of at most 64 entries from word `from` on. Not inlined, because few answers contain a list.
#[inline(never)]
pub fn put_list(frame: &mut AnswerBytes, from: usize, entries: &[Entry])
    requires few { length entries.now ≤ 64 }
    requires inside { from + 73 ≤ 178 }
    ensures { take (8 * from + 584) frame.new
        ≡ take (8 * from) frame.old ++ list_bytes entries.now }
{
    put_word(frame, from, entries.len() as u64);
    put_configuration(frame, 8 * from + 8, entries);
    put_addresses(frame, from + 9, entries);
}
