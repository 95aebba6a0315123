//! Runs a trace on a machine line by line, and writes each reply before reading the next line.

ghost use Rattle.std.specs.Prelude.{◌≡◌, ℕ, ◌-◌, ◌^◌, ◌<◌, List, Err, IfOk};
ghost use Rattle.text_lines.specs.LineLoop.{DoesAll, StopsAt, StopsTooLong, StopsReading, StopsWriting, StopsForMemory, CountsReads, CountsWrites};
ghost use Rattle.platforms.specs.Platform.{PlatformLayout};
ghost use Rattle.hart_trace.specs.declared.event.Event.{Event};
ghost use Rattle.hart_trace.specs.declared.reply.Reply.{Reply};
ghost use Rattle.hart_sim.specs.Machines.{KeepsBanksRight};
ghost use Rattle.hart_sim.specs.After.{After};
ghost use Rattle.hart_sim.specs.Reports.{DoesLine, RefusesLine, StarvesLine, GoesOn};

use crate::machine::Machine;
use arrayvec::ArrayVec;
use hart_trace::{
    Event, access_ahead, call_ahead, interrupt_ahead, parse_line, push_reply, setting_ahead,
};
use text_lines::{
    Direct, Interpreter, Line, LineRefusal, LineSink, NotUnderstood, RunFault, Sink, Source,
    interpret_lines,
};

impl Machine {
    ghost use Rattle.std.specs.Prelude.{◌≡◌, ◌≢◌, ◌<◌, [], ◌++◌, true, IfOk, IfErr, IfSome, ℕ, decimal};
    ghost use Rattle.std.specs.Result.{result_ok};
    ghost use Rattle.hart_trace.specs.Events.{meaning_of};
    ghost use Rattle.hart_trace.specs.declared.reply.Reply.{Reply};
    ghost use Rattle.hart_trace.specs.declared.reply.Reply.TheVariants.{NoMemory};
    ghost use Rattle.hart_trace.specs.Texts.{reply_text};
    ghost use Rattle.hart_sim.specs.After.{Happens};
    ghost use Rattle.hart_sim.specs.Machines.{state_of, KeepsBanksRight};
    ghost use Rattle.hart_sim.specs.Steps.{IsEvent};

    /// Parses the event of a line and its hart, which exists on the machine. Returns `None` for a line without words.
    #[inline(always)]
    pub fn event_in(&self, line: &[u8]) -> Result<Option<(u8, Event)>, NotUnderstood>
        ensures meaning { result_ok result
            ≡ meaning_of (state_of self.now).table.layout.harts line.now }
        ensures hart { IfOk result (λ said. IfSome said (λ found.
            found.0 < (state_of self.now).table.layout.harts)) }
        ensures few { IfOk result (λ said. IfSome said (λ found. found.0 < 4)) }
        ensures event { IfOk result (λ said. IfSome said (λ found. IsEvent found.1)) }
    {
        parse_line(line, self.harts())
    }

    /// Performs an event on a hart, and writes the part of its reply after the number. Fails if an allocation fails.
    #[inline(always)]
    fn answer(&mut self, hart: u8, event: Event, answer: &mut Line) -> Result<bool, LineRefusal>
        requires hart { hart < (state_of self.old).table.layout.harts }
        requires event { IsEvent event }
        requires empty { answer.old ≡ [] }
        ensures answered { IfOk result (λ answered. answered ≡ true) }
        ensures done { KeepsBanksRight self.old
            → IfOk result (λ _.
            (reply : Reply) × Happens self.old hart event reply self.new
            × (reply ≢ NoMemory)
            × ((n : ℕ) → decimal n ++ answer.new ≡ reply_text n reply)) }
        ensures refusal { IfErr result (λ refusal. refusal ≡ LineRefusal.Memory) }
        ensures starved { KeepsBanksRight self.old
            → IfErr result (λ _. Happens self.old hart event NoMemory self.new) }
        ensures kept { KeepsBanksRight self.old → KeepsBanksRight self.new }
    {
        let reply = self.step(hart, event);
        if reply.wants_memory() {
            return Err(LineRefusal::Memory);
        }
        push_reply(answer, &reply);
        Ok(true)
    }

    /// Performs a call on a hart, and writes the part of its reply after the number, as for an event.
    #[inline(always)]
    fn answer_call(
        &mut self,
        hart: u8,
        words: &ArrayVec<u64, 8>,
        answer: &mut Line,
    ) -> Result<bool, LineRefusal>
        requires hart { hart < (state_of self.old).table.layout.harts }
        requires empty { answer.old ≡ [] }
        ensures answered { IfOk result (λ answered. answered ≡ true) }
        ensures done { KeepsBanksRight self.old
            → IfOk result (λ _.
            (reply : Reply) × Happens self.old hart (Event.Ecall words.now) reply self.new
            × (reply ≢ NoMemory)
            × ((n : ℕ) → decimal n ++ answer.new ≡ reply_text n reply)) }
        ensures refusal { IfErr result (λ refusal. refusal ≡ LineRefusal.Memory) }
        ensures starved { KeepsBanksRight self.old
            → IfErr result (λ _. Happens self.old hart (Event.Ecall words.now) NoMemory self.new) }
        ensures kept { KeepsBanksRight self.old → KeepsBanksRight self.new }
    {
        let reply = self.call(hart, words);
        if reply.wants_memory() {
            return Err(LineRefusal::Memory);
        }
        push_reply(answer, &reply);
        Ok(true)
    }
}

impl Interpreter for Machine {
    ghost does = { DoesLine };

    ghost refuses = { RefusesLine };

    ghost starves = { StarvesLine };

    ghost keeps = { KeepsBanksRight };

    #[inline(always)]
    fn interpret(
        &mut self,
        line: &[u8],
        count: u64,
        answer: &mut Line,
    ) -> Result<bool, LineRefusal> {
        let Ok(said) = self.event_in(line) else {
            return Err(LineRefusal::NotUnderstood);
        };
        let Some((hart, event)) = said else {
            return Ok(false);
        };
        self.answer(hart, event, answer)
    }

    #[inline(always)]
    fn interpret_ahead(
        &mut self,
        ahead: &[u8],
        count: u64,
        answer: &mut Line,
    ) -> Option<(usize, Result<bool, LineRefusal>)> {
        let harts = self.harts();
        if let Some((hart, access, value, len)) = access_ahead(ahead, harts) {
            let event = Event::Access(access, value);
            return Some((len, self.answer(hart, event, answer)));
        }
        if let Some((hart, register, value, len)) = setting_ahead(ahead, harts) {
            let event = Event::Reg(register, value);
            return Some((len, self.answer(hart, event, answer)));
        }
        let mut words = ArrayVec::new();
        if let Some((hart, len)) = call_ahead(ahead, harts, &mut words) {
            return Some((len, self.answer_call(hart, &words, answer)));
        }
        let (hart, len) = interrupt_ahead(ahead, harts)?;
        Some((len, self.answer(hart, Event::Irq, answer)))
    }
}

/// Runs a trace on a machine: performs each line's event, and writes its reply before reading the next line. Stops at
/// an invalid line, after 2^40 bytes, at a device failure, and at a store for which an allocation fails. The effect of
/// the completed lines is a run of their events from the machine's initial state, and the written text is that of the
/// replies. Before a read that may block, the sink flushes its lines.
pub fn run_lines<R: Source, M, W: LineSink<M>>(
    machine: &mut Machine,
    source: &mut R,
    sink: &mut W,
) -> Result<(), RunFault>
    ensures all { KeepsBanksRight machine.old
        → IfOk result (λ _.
        DoesAll DoesLine machine.old machine.new (R.remaining source.old)
        (R.remaining source.new) (W.contents sink.old) (W.contents sink.new)) }
    ensures line { KeepsBanksRight machine.old → (n : ℕ) → result ≡ Err (RunFault.Line n)
        → StopsAt n DoesLine RefusesLine machine.old machine.new (R.remaining source.old)
        (R.remaining source.new) (W.contents sink.old) (W.contents sink.new) }
    ensures too_long { KeepsBanksRight machine.old → result ≡ Err RunFault.TooLong
        → StopsTooLong DoesLine machine.old machine.new (R.remaining source.old)
        (R.remaining source.new) (W.contents sink.old) (W.contents sink.new) }
    ensures read { KeepsBanksRight machine.old → result ≡ Err RunFault.Read
        → StopsReading DoesLine machine.old machine.new (R.remaining source.old)
        (R.remaining source.new) (W.contents sink.old) (W.contents sink.new) }
    ensures write { KeepsBanksRight machine.old → result ≡ Err RunFault.Write
        → StopsWriting DoesLine machine.old machine.new (R.remaining source.old)
        (R.remaining source.new) (W.contents sink.old) (W.contents sink.new) }
    ensures memory { KeepsBanksRight machine.old → result ≡ Err RunFault.Memory
        → StopsForMemory DoesLine StarvesLine machine.old machine.new (R.remaining source.old)
        (R.remaining source.new) (W.contents sink.old) (W.contents sink.new) }
    ensures kept { KeepsBanksRight machine.old → KeepsBanksRight machine.new }
    ensures after { (platform : PlatformLayout) (events : List (ℕ × Event))
        (replies : List Reply)
        → After platform events replies machine.old
        → GoesOn platform events replies result machine.old machine.new
        (R.remaining source.old) (R.remaining source.new) }
    ensures reads { CountsReads result (R.failures source.old) (R.failures source.new) }
    ensures writes { CountsWrites result (W.failures sink.old)
        (W.failures sink.new) (W.stalls sink.old) (W.stalls sink.new) }
{
    interpret_lines::<_, R, M, W>(machine, source, sink)
}

/// Runs a trace on a machine as [`run_lines`] does, with any sink.
pub fn run<R: Source, W: Sink>(
    machine: &mut Machine,
    source: &mut R,
    sink: &mut W,
) -> Result<(), RunFault>
    ensures all { KeepsBanksRight machine.old
        → IfOk result (λ _.
        DoesAll DoesLine machine.old machine.new (R.remaining source.old)
        (R.remaining source.new) (W.contents sink.old) (W.contents sink.new)) }
    ensures line { KeepsBanksRight machine.old → (n : ℕ) → result ≡ Err (RunFault.Line n)
        → StopsAt n DoesLine RefusesLine machine.old machine.new (R.remaining source.old)
        (R.remaining source.new) (W.contents sink.old) (W.contents sink.new) }
    ensures too_long { KeepsBanksRight machine.old → result ≡ Err RunFault.TooLong
        → StopsTooLong DoesLine machine.old machine.new (R.remaining source.old)
        (R.remaining source.new) (W.contents sink.old) (W.contents sink.new) }
    ensures read { KeepsBanksRight machine.old → result ≡ Err RunFault.Read
        → StopsReading DoesLine machine.old machine.new (R.remaining source.old)
        (R.remaining source.new) (W.contents sink.old) (W.contents sink.new) }
    ensures write { KeepsBanksRight machine.old → result ≡ Err RunFault.Write
        → StopsWriting DoesLine machine.old machine.new (R.remaining source.old)
        (R.remaining source.new) (W.contents sink.old) (W.contents sink.new) }
    ensures memory { KeepsBanksRight machine.old → result ≡ Err RunFault.Memory
        → StopsForMemory DoesLine StarvesLine machine.old machine.new (R.remaining source.old)
        (R.remaining source.new) (W.contents sink.old) (W.contents sink.new) }
    ensures kept { KeepsBanksRight machine.old → KeepsBanksRight machine.new }
    ensures after { (platform : PlatformLayout) (events : List (ℕ × Event))
        (replies : List Reply)
        → After platform events replies machine.old
        → GoesOn platform events replies result machine.old machine.new
        (R.remaining source.old) (R.remaining source.new) }
    ensures reads { CountsReads result (R.failures source.old) (R.failures source.new) }
    ensures writes { CountsWrites result (W.failures sink.old)
        (W.failures sink.new) (W.stalls sink.old) (W.stalls sink.new) }
{
    run_lines::<R, Direct, W>(machine, source, sink)
}
