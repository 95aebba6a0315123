//! Serves one trap and writes its answer.

ghost use Rattle.std.specs.Prelude.{◌≡◌, ◌<◌, ◌≤◌, ◌++◌, ℕ, List, Option, IfNone, IfSome, is_some, take};
ghost use Rattle.sbi_decode.specs.Calls.{call_of};
ghost use Rattle.measurement.specs.declared.request.Create.{Create as CreateParts};
ghost use Rattle.enclave_table.specs.Enclaves.{Live};
ghost use Rattle.enclave_table.specs.declared.enclave.Enclave.{Enclave};
ghost use Rattle.monitor_core.specs.Measured.{IsMade, asked_in};
ghost use Rattle.monitor_core.specs.SetChanges.{AreOfSets};
ghost use Rattle.monitor_core.specs.Changes.{without_mark};
ghost use Rattle.trap_server.specs.declared.answer.NewLists.{NewLists};
ghost use Rattle.trap_server.specs.declared.answer.NewLists.TheVariants as NewLists;
ghost use Rattle.trap_server.specs.Answers.{given_bytes};
ghost use Rattle.trap_server.specs.Answered.{AreAwake, AreControl, AreWords, IsAnswer, PutsLists, marks_of, new_lists, status_word, unmarked};
ghost use Rattle.trap_server.specs.Ends.{CountsReads, CountsWrites};
ghost use Rattle.trap_server.specs.PageDigest.{HasParts};
ghost use Rattle.trap_server.specs.Sets.{bare};
ghost use Rattle.trap_server.specs.Steps.{AnswersFirst, MeasuresMade, Serves, Writes};

use crate::fault::{ServeFault, end};
use crate::{
    AnswerBytes, ControlWords, Head, NewLists, Trap, TrapEvent, digest_of, put_front, put_given,
    put_list,
};
use monitor_core::{Answer, Core, Create, Served, SetChanges, TakenDigest};
use pmp_encoding::PageRange;
use sbi_decode::{Call, Registers, decode};
use text_lines::{Sink, Source, write_whole};

/// The placeholder answer for a trap that is not a call.
pub(crate) const NOTHING: Answer = Answer {
    status: 0,
    value: 0,
};

/// Wakes a hart and returns whether it was marked.
fn take_mark(core: &mut Core, hart: u8) -> bool
    requires { hart < 4 }
    ensures mark { result ≡ (bare core.old).marked hart }
    ensures state { bare core.new ≡ without_mark (bare core.old) hart }
{
    let is_marked = core.is_marked(hart);
    core.wake(hart);
    is_marked
}

/// Wakes each marked hart, so that it loads the host's entries.
fn wake_all(core: &mut Core) -> [bool; 4]
    ensures marks { result ≡ marks_of (bare core.old) }
    ensures state { bare core.new ≡ unmarked 4 (bare core.old) }
{
    let first = take_mark(core, 0);
    let second = take_mark(core, 1);
    let third = take_mark(core, 2);
    let fourth = take_mark(core, 3);
    [first, second, third, fourth]
}

/// Returns the status of an answer as a word, in two's complement.
fn status_word(answer: &Answer) -> u64
    ensures { result ≡ status_word answer.now.status }
{
    let status = answer.status;
    if status >= 0 {
        return status as u64;
    }
    u64::MAX - (-1 - status) as u64
}

/// Writes the new lists of entries after the front of an answer, and then the given control words; `id` is the new
/// enclave if its list is new. Returns the byte at which they end. The position of the words is constant in each arm,
/// so that they are written word by word.
#[inline(always)]
fn put_rest(
    frame: &mut AnswerBytes,
    core: &Core,
    lists: NewLists,
    id: u64,
    given: &Option<ControlWords>,
) -> usize
    requires made { lists ≡ NewLists.HostAndMade
        → (e : Enclave) × Live (bare core.now).table id e }
    ensures inside { result ≤ 1424 }
    ensures rest { (front : List ℕ)
        × PutsLists (bare core.now).table id lists (take 184 frame.old) front
        × (take result frame.new ≡ front ++ given_bytes given.now) }
    ensures fits { IfSome given.now AreControl }
{
    match lists {
        NewLists::Nothing => put_given(frame, 23, given),
        NewLists::Host => {
            put_list(frame, 23, core.table().host_entries());
            put_given(frame, 96, given)
        }
        NewLists::HostAndMade => {
            put_list(frame, 23, core.table().host_entries());
            let Some(entries) = core.table().enclave_entries(id) else {
                unreachable!();
            };
            put_list(frame, 96, entries);
            put_given(frame, 169, given)
        }
    }
}

/// The contents of an answer except the world that goes on and the changes of register sets.
#[derive(Clone, Copy)]
pub(crate) struct Onward {
    /// The hart that goes on.
    pub(crate) hart: u8,
    /// The answer to the call.
    pub(crate) answer: Answer,
    /// The pages to zero before any hart goes on.
    pub(crate) zero: Option<PageRange>,
    /// The other harts that load the host's list.
    pub(crate) woken: [bool; 4],
    /// The new lists of entries.
    pub(crate) lists: NewLists,
    /// The control words of an enclave that is entered.
    pub(crate) given: Option<ControlWords>,
}

/// Assembles the frame with which a hart goes on, and returns the byte at which it ends.
#[inline(always)]
fn put_frame(frame: &mut AnswerBytes, core: &Core, onward: &Onward, changes: &SetChanges) -> usize
    requires hart { onward.now.hart < 4 }
    requires sets { AreOfSets changes.now }
    requires made { onward.now.lists ≡ NewLists.HostAndMade
        → (e : Enclave) × Live (bare core.now).table onward.now.answer.value e }
    ensures inside { result ≤ 1424 }
    ensures words { AreWords changes.now }
    ensures control { IfSome onward.now.given AreControl }
    ensures answer { let o = onward.now in IsAnswer (bare core.now) o.given o.hart o.answer
        o.zero o.woken o.lists changes.now (take result frame.new) }
{
    let head = Head {
        hart: onward.hart,
        world: core.world(onward.hart),
        status: status_word(&onward.answer),
        value: onward.answer.value,
        used: core.used(onward.hart),
        zero: onward.zero,
        woken: onward.woken,
        lists: onward.lists,
        given: onward.given,
    };
    put_front(frame, &head, changes);
    put_rest(frame, core, onward.lists, onward.answer.value, &head.given)
}

/// Writes the answer with which a hart goes on, using a borrowed frame whose previous contents do not matter.
#[inline(always)]
pub(crate) fn write_answer<W: Sink>(
    core: &Core,
    onward: &Onward,
    changes: &SetChanges,
    frame: &mut AnswerBytes,
    sink: &mut W,
) -> Result<(), ServeFault>
    requires hart { onward.now.hart < 4 }
    requires sets { AreOfSets changes.now }
    requires made { onward.now.lists ≡ NewLists.HostAndMade
        → (e : Enclave) × Live (bare core.now).table onward.now.answer.value e }
    ensures bytes { let o = onward.now in Writes result
        (IsAnswer (bare core.now) o.given o.hart o.answer o.zero o.woken o.lists changes.now)
        (W.contents sink.old) (W.contents sink.new) }
    ensures words { AreWords changes.now }
    ensures control { IfSome onward.now.given AreControl }
    ensures reads { (n : ℕ) → CountsReads result n n }
    ensures writes { CountsWrites result (W.failures sink.old) (W.failures sink.new)
        (W.stalls sink.old) (W.stalls sink.new) }
{
    let end = put_frame(frame, core, onward, changes);
    match write_whole(sink, &frame[..end]) {
        Ok(()) => Ok(()),
        Err(_) => Err(ServeFault::Write),
    }
}

/// Returns whether the call is a creation. Other calls do not have their parts decoded.
#[inline(always)]
fn is_creation(registers: &Registers) -> bool
    ensures { result ≡ is_some (asked_in (call_of registers.now)) }
{
    matches!(decode(registers), Ok(Call::Create { .. }))
}

/// Returns the lists that are new after a call: the host's after a destruction, which leaves pages to zero, and two
/// after a successful creation.
#[inline(always)]
fn new_lists(is_creation: bool, served: &Served) -> NewLists
    ensures { (asked : Option CreateParts) → is_creation ≡ is_some asked
        → result ≡ new_lists asked served.now.answer served.now.zero }
{
    if served.zero.is_some() {
        return NewLists::Host;
    }
    if served.answer.status == 0 && is_creation {
        return NewLists::HostAndMade;
    }
    NewLists::Nothing
}

/// Returns the parts of the enclave that a call created, if any. Not inlined, because only creations need it.
#[inline(never)]
fn made_by(answer: &Answer, trap: &Trap) -> Option<Create>
    ensures some { IfSome result (λ parts.
        IsMade (asked_in (call_of trap.now.registers)) answer.now parts) }
    ensures none { IfNone result ((parts : CreateParts)
        → IsMade (asked_in (call_of trap.now.registers)) answer.now parts → ⊥) }
{
    answer.made(&trap.registers)
}

/// Requests and reads the pages of a new enclave and stores their digest. Not inlined, because no other call needs its
/// stack.
#[inline(never)]
fn measure_made<R: Source, W: Sink>(
    core: &mut Core,
    id: u64,
    parts: &Create,
    source: &mut R,
    sink: &mut W,
) -> Result<(), ServeFault>
    requires live { (e : Enclave) × Live (bare core.old).table id e }
    requires parts { HasParts parts.now }
    ensures measured { MeasuresMade result parts.now id (bare core.old)
        (bare core.new) (R.remaining source.old) (R.remaining source.new)
        (W.contents sink.old) (W.contents sink.new) }
    ensures reads { CountsReads result (R.failures source.old) (R.failures source.new) }
    ensures writes { CountsWrites result (W.failures sink.old) (W.failures sink.new)
        (W.stalls sink.old) (W.stalls sink.new) }
{
    match digest_of(source, sink, parts) {
        Ok(digest) => {
            core.give_digest(id, &digest);
            Ok(())
        }
        Err(fault) => Err(end(sink, fault)),
    }
}

/// Answers the call of a trap. A new enclave has the borrowed digest until its pages are measured.
#[inline(always)]
fn answer_call<W: Sink>(
    core: &mut Core,
    trap: &Trap,
    is_creation: bool,
    digest: &TakenDigest,
    changes: &mut SetChanges,
    frame: &mut AnswerBytes,
    sink: &mut W,
) -> Result<Answer, ServeFault>
    requires hart { trap.now.hart < (bare core.old).table.layout.harts }
    requires awake { AreAwake (bare core.old) }
    requires call { trap.now.event ≡ TrapEvent.Call }
    requires creation { is_creation ≡ is_some (asked_in (call_of trap.now.registers)) }
    ensures answered { AnswersFirst result trap.now (bare core.old) (bare core.new)
        (W.contents sink.old) (W.contents sink.new) }
    ensures reads { (n : ℕ) → CountsReads result n n }
    ensures writes { CountsWrites result (W.failures sink.old) (W.failures sink.new)
        (W.stalls sink.old) (W.stalls sink.new) }
{
    // (there are at most four: a fact for the proof)
    let _most = core.harts();
    let before = core.world(trap.hart);
    let served = core.serve(trap.hart, &trap.registers, digest, changes);
    core.cite_invariant();
    let woken = wake_all(core);
    let lists = new_lists(is_creation, &served);
    let given = trap.host.words_given(before, core.world(trap.hart));
    let onward = Onward {
        hart: trap.hart,
        answer: served.answer,
        zero: served.zero,
        woken,
        lists,
        given,
    };
    match write_answer(core, &onward, changes, frame, sink) {
        Ok(()) => Ok(served.answer),
        Err(fault) => Err(fault),
    }
}

/// Serves the call of a trap. A new enclave is measured after the answer, so that the other harts may run their worlds
/// meanwhile; its pages are closed to them by then.
#[inline(always)]
fn serve_call<R: Source, W: Sink>(
    core: &mut Core,
    trap: &Trap,
    digest: &TakenDigest,
    changes: &mut SetChanges,
    frame: &mut AnswerBytes,
    source: &mut R,
    sink: &mut W,
) -> Result<(), ServeFault>
    requires hart { trap.now.hart < (bare core.old).table.layout.harts }
    requires awake { AreAwake (bare core.old) }
    requires call { trap.now.event ≡ TrapEvent.Call }
    ensures served { Serves result trap.now (bare core.old) (bare core.new)
        (R.remaining source.old) (R.remaining source.new)
        (W.contents sink.old) (W.contents sink.new) }
    ensures reads { CountsReads result (R.failures source.old) (R.failures source.new) }
    ensures writes { CountsWrites result (W.failures sink.old) (W.failures sink.new)
        (W.stalls sink.old) (W.stalls sink.new) }
{
    let is_creation = is_creation(&trap.registers);
    let answer = match answer_call(core, trap, is_creation, digest, changes, frame, sink) {
        Ok(answer) => answer,
        Err(fault) => return Err(fault),
    };
    if !is_creation {
        return Ok(());
    }
    let Some(parts) = made_by(&answer, trap) else {
        return Ok(());
    };
    measure_made(core, answer.value, &parts, source, sink)
}

/// Serves an interrupt, which stops an enclave.
#[inline(always)]
fn serve_stop<W: Sink>(
    core: &mut Core,
    trap: &Trap,
    changes: &mut SetChanges,
    frame: &mut AnswerBytes,
    sink: &mut W,
) -> Result<(), ServeFault>
    requires hart { trap.now.hart < (bare core.old).table.layout.harts }
    requires awake { AreAwake (bare core.old) }
    requires stop { trap.now.event ≡ TrapEvent.Stop }
    ensures served { (before : Option (List ℕ))
        → Serves result trap.now (bare core.old) (bare core.new) before before
        (W.contents sink.old) (W.contents sink.new) }
    ensures reads { (n : ℕ) → CountsReads result n n }
    ensures writes { CountsWrites result (W.failures sink.old) (W.failures sink.new)
        (W.stalls sink.old) (W.stalls sink.new) }
{
    // (there are at most four: a fact for the proof)
    let _most = core.harts();
    let before = core.world(trap.hart);
    let _load = core.interrupt(trap.hart, changes);
    let woken = wake_all(core);
    let given = trap.host.words_given(before, core.world(trap.hart));
    let onward = Onward {
        hart: trap.hart,
        answer: NOTHING,
        zero: None,
        woken,
        lists: NewLists::Nothing,
        given,
    };
    write_answer(core, &onward, changes, frame, sink)
}

/// Serves a trap.
#[inline(always)]
pub(crate) fn serve_trap<R: Source, W: Sink>(
    core: &mut Core,
    trap: &Trap,
    digest: &TakenDigest,
    changes: &mut SetChanges,
    frame: &mut AnswerBytes,
    source: &mut R,
    sink: &mut W,
) -> Result<(), ServeFault>
    requires hart { trap.now.hart < (bare core.old).table.layout.harts }
    requires awake { AreAwake (bare core.old) }
    ensures served { Serves result trap.now (bare core.old) (bare core.new)
        (R.remaining source.old) (R.remaining source.new)
        (W.contents sink.old) (W.contents sink.new) }
    ensures reads { CountsReads result (R.failures source.old) (R.failures source.new) }
    ensures writes { CountsWrites result (W.failures sink.old) (W.failures sink.new)
        (W.stalls sink.old) (W.stalls sink.new) }
{
    match trap.event {
        TrapEvent::Call => serve_call(core, trap, digest, changes, frame, source, sink),
        TrapEvent::Stop => serve_stop(core, trap, changes, frame, sink),
    }
}
