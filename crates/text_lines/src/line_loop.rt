//! The one loop over the lines of an input: it reads and interprets a line, and writes the answer before it reads the
//! next line.

ghost use Rattle.std.specs.Prelude.{◌≡◌, ℕ, ◌+◌, ◌-◌, ◌^◌, ◌<◌, ◌≤◌, List, [], Option, None, Some, Err, IfOk, IfSome, length, take, decimal};
ghost use Rattle.std.specs.Io.KnownBytes.{Keeps};
ghost use Rattle.text_lines.specs.Writings.{writing, Prints};
ghost use Rattle.text_lines.specs.Lines.{BeginsLine};
ghost use Rattle.text_lines.specs.LineReaders.{came_of, line_of, most_of, FailsOnRead, NextLine};
ghost use Rattle.text_lines.specs.Counters.{digits_of};
ghost use Rattle.text_lines.specs.LineLoop.{answer_bytes, counted, text_of, was_line, IsLineResult, CountsReads, CountsWrites, DoesAll, IsNoLine, StopsAt, StopsForMemory, StopsReading, StopsTooLong, StopsWriting};

use crate::counter::Counter;
use crate::fault::{ReadFault, RunFault};
use crate::lines::LineReader;
use crate::written::Line;
use crate::{DeviceFault, LineSink, Source};
use thiserror::Error;

/// The number of bytes read at once if they are available. The answers are passed on before each read, so smaller reads
/// would also cause more writes.
const AT_ONCE: usize = 65536;

/// The reason why a line that should have an answer has none.
#[derive(Clone, Copy, Debug, PartialEq, Eq, Error)]
pub enum LineRefusal {
    /// The line has no valid form.
    #[error("not understood")]
    NotUnderstood,
    /// An allocation failed while the line was interpreted.
    #[error("out of memory")]
    Memory,
}

/// Interprets lines.
pub trait Interpreter {
    /// The effect of a line after n answers, from one state to the next, with the text of its answer if it has one.
    ghost does: { Self → ℕ → List ℕ → Option (List ℕ) → Self → Type 0 };

    /// The line is not understood.
    ghost refuses: { Self → List ℕ → Type 0 };

    /// The effect of a line for which an allocation failed. It has no answer.
    ghost starves: { Self → List ℕ → Self → Type 0 };

    /// An invariant between lines.
    ghost keeps: { Self → Type 0 };

    /// Interprets a line, which comes without its LF and CR. Returns whether there is an answer, which has `count`
    /// answers before it, and writes the part of it after its number.
    fn interpret(&mut self, line: &[u8], count: u64, answer: &mut Line) -> Result<bool, LineRefusal>
        requires count { count < 2 ^ 64 - 1 }
        requires empty { answer.old ≡ [] }
        ensures done { keeps self.old
            → IfOk result (λ answered.
            does self.old count line.now (text_of answered count answer.new) self.new) }
        ensures unknown { result ≡ Err LineRefusal.NotUnderstood → refuses self.old line.now }
        ensures untouched { result ≡ Err LineRefusal.NotUnderstood → self.new ≡ self.old }
        ensures starved { result ≡ Err LineRefusal.Memory → keeps self.old
            → starves self.old line.now self.new }
        ensures keeps { keeps self.old → keeps self.new };

    /// Interprets the line at the beginning of `ahead`, as [`interpret`](Interpreter::interpret) does, if its end is
    /// found on the way and its last byte is not a CR. Returns the number of bytes before its LF, and the result.
    /// `None` is inconclusive: the line was not interpreted.
    fn interpret_ahead(
        &mut self,
        ahead: &[u8],
        count: u64,
        answer: &mut Line,
    ) -> Option<(usize, Result<bool, LineRefusal>)>
        requires count { count < 2 ^ 64 - 1 }
        requires empty { answer.old ≡ [] }
        requires few { length ahead.now ≤ 1024 }
        ensures line { IfSome result (λ found. BeginsLine found.0 ahead.now) }
        ensures comes { keeps self.old
            → IfSome result (λ found.
            IsLineResult does refuses starves self.old count (take found.0 ahead.now) found.1
            answer.new self.new) }
        ensures keeps { keeps self.old → keeps self.new }
        ensures untouched { result ≡ None → self.new ≡ self.old }
        ensures unwritten { result ≡ None → answer.new ≡ answer.old }
    {
        None
    }
}

/// Writes an answer, if there is one, and increments the number of the next. Returns the number of answers so far.
#[inline(always)]
fn write_answer<M, W: LineSink<M>>(
    answered: bool,
    answer: &Line,
    count: u64,
    number: &mut Counter,
    sink: &mut W,
) -> Result<u64, DeviceFault>
    requires count { count < 2 ^ 64 - 2 }
    requires number { digits_of number.old ≡ decimal (count + 1) }
    requires len { number.old.len ≤ 20 }
    ensures counted { IfOk result (λ n. n ≡ counted count (text_of answered count answer.now)) }
    ensures prints { Prints (answer_bytes (text_of answered count answer.now))
        (writing W.contents W.failures W.stalls sink.old sink.new) result }
    ensures number { IfOk result (λ n. digits_of number.new ≡ decimal (n + 1)) }
    ensures len { number.new.len ≤ 20 }
{
    if !answered {
        return Ok(count);
    }
    answer.write_behind::<M, W>(number, sink)?;
    number.raise(count + 1);
    Ok(count + 1)
}

/// Reads the next line. If it is not in the buffer, the sink first passes on the previous answers, because the read may
/// block.
#[inline(always)]
fn next_line<R: Source, M, W: LineSink<M>>(
    reader: &mut LineReader<AT_ONCE>,
    source: &mut R,
    sink: &mut W,
) -> Result<bool, ReadFault>
    ensures line { NextLine result reader.old reader.new (R.remaining source.old)
        (R.remaining source.new) }
    ensures failures { FailsOnRead result (R.failures source.old) (R.failures source.new) }
    ensures few { came_of reader.new ≤ most_of reader.new }
    ensures limit { most_of reader.new ≡ most_of reader.old }
    ensures written { Keeps (W.contents sink.old) (W.contents sink.new) }
    ensures writes { W.failures sink.new ≡ W.failures sink.old }
    ensures stalls { W.stalls sink.new ≡ W.stalls sink.old }
{
    if reader.take_line() {
        return Ok(true);
    }
    sink.flush();
    reader.next_line(source)
}

/// Reads and interprets the next line. Returns `None` at the end of the input.
#[inline(always)]
fn interpret_next<I: Interpreter, R: Source, M, W: LineSink<M>>(
    interpreter: &mut I,
    reader: &mut LineReader<AT_ONCE>,
    source: &mut R,
    sink: &mut W,
    count: u64,
    answer: &mut Line,
) -> Result<Option<Result<bool, LineRefusal>>, ReadFault>
    requires count { count < 2 ^ 64 - 1 }
    requires empty { answer.old ≡ [] }
    ensures line { NextLine (was_line result) reader.old reader.new (R.remaining source.old)
        (R.remaining source.new) }
    ensures failures { FailsOnRead (was_line result) (R.failures source.old)
        (R.failures source.new) }
    ensures few { came_of reader.new ≤ most_of reader.new }
    ensures limit { most_of reader.new ≡ most_of reader.old }
    ensures written { Keeps (W.contents sink.old) (W.contents sink.new) }
    ensures writes { W.failures sink.new ≡ W.failures sink.old }
    ensures stalls { W.stalls sink.new ≡ W.stalls sink.old }
    ensures comes { I.keeps interpreter.old
        → IfOk result (λ next. IfSome next (λ said.
        IsLineResult I.does I.refuses I.starves interpreter.old count (line_of reader.new) said
        answer.new interpreter.new)) }
    ensures untouched { IsNoLine result → interpreter.new ≡ interpreter.old }
    ensures keeps { I.keeps interpreter.old → I.keeps interpreter.new }
{
    if let Some((len, said)) = interpreter.interpret_ahead(reader.ahead(), count, answer) {
        reader.take_short(len);
        return Ok(Some(said));
    }
    if !next_line::<R, M, W>(reader, source, sink)? {
        return Ok(None);
    }
    Ok(Some(interpreter.interpret(reader.line(), count, answer)))
}

/// Interprets the lines of an input one by one, and writes the answer of each before it reads the next; before a read
/// that may block, the sink passes on what it holds. The loop ends early on a line that is not understood, a device
/// failure, or a failed allocation.
pub fn interpret_lines<I: Interpreter, R: Source, M, W: LineSink<M>>(
    interpreter: &mut I,
    source: &mut R,
    sink: &mut W,
) -> Result<(), RunFault>
    ensures all { I.keeps interpreter.old
        → IfOk result (λ _.
        DoesAll I.does interpreter.old interpreter.new (R.remaining source.old)
        (R.remaining source.new) (W.contents sink.old) (W.contents sink.new)) }
    ensures line { I.keeps interpreter.old → (n : ℕ) → result ≡ Err (RunFault.Line n)
        → StopsAt n I.does I.refuses interpreter.old interpreter.new (R.remaining source.old)
        (R.remaining source.new) (W.contents sink.old) (W.contents sink.new) }
    ensures too_long { I.keeps interpreter.old → result ≡ Err RunFault.TooLong
        → StopsTooLong I.does interpreter.old interpreter.new (R.remaining source.old)
        (R.remaining source.new) (W.contents sink.old) (W.contents sink.new) }
    ensures read { I.keeps interpreter.old → result ≡ Err RunFault.Read
        → StopsReading I.does interpreter.old interpreter.new (R.remaining source.old)
        (R.remaining source.new) (W.contents sink.old) (W.contents sink.new) }
    ensures write { I.keeps interpreter.old → result ≡ Err RunFault.Write
        → StopsWriting I.does interpreter.old interpreter.new (R.remaining source.old)
        (R.remaining source.new) (W.contents sink.old) (W.contents sink.new) }
    ensures memory { I.keeps interpreter.old → result ≡ Err RunFault.Memory
        → StopsForMemory I.does I.starves interpreter.old interpreter.new
        (R.remaining source.old) (R.remaining source.new) (W.contents sink.old)
        (W.contents sink.new) }
    ensures keeps { I.keeps interpreter.old → I.keeps interpreter.new }
    ensures reads { CountsReads result (R.failures source.old) (R.failures source.new) }
    ensures writes { CountsWrites result (W.failures sink.old)
        (W.failures sink.new) (W.stalls sink.old) (W.stalls sink.new) }
{
    let mut reader = LineReader::<AT_ONCE>::new();
    let mut answer = Line::new();
    let mut number = Counter::of(1);
    let mut count: u64 = 0;
    'lines: loop {
        answer.clear();
        let next = interpret_next::<I, R, M, W>(
            interpreter,
            &mut reader,
            source,
            sink,
            count,
            &mut answer,
        )?;
        let said = match next {
            Some(said) => said,
            None => return Ok(()),
        };
        let answered = match said {
            Ok(answered) => answered,
            Err(LineRefusal::NotUnderstood) => return Err(RunFault::Line(reader.number())),
            Err(LineRefusal::Memory) => return Err(RunFault::Memory),
        };
        let Ok(answers) = write_answer::<M, W>(answered, &answer, count, &mut number, sink) else {
            return Err(RunFault::Write);
        };
        count = answers;
        if reader.has_ended() {
            return Ok(());
        }
    }
}
