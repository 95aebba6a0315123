//! Judges the accesses of a trace line by line.

ghost use Rattle.std.specs.Prelude.{◌≡◌, ℕ, ◌+◌, ◌-◌, ◌^◌, ◌<◌, Some, Err, IfOk, IfSome};
ghost use Rattle.text_lines.specs.LineLoop.{CountsReads, CountsWrites, DoesAll, StopsAt, StopsReading, StopsTooLong, StopsWriting};
ghost use Rattle.hart_trace.specs.Answers.{answered_by, is_no_access, judged_by};

use crate::access_judge::AccessJudge;
use crate::answers::push_answer;
use crate::{access_ahead, read_access};
use pmp_encoding::Bank;
use pmp_match::{Access, Segments};
use text_lines::{
    Direct, Interpreter, Line, LineRefusal, LineSink, RunFault, Sink, Source, interpret_lines,
};

/// Returns the same access, copied field by field. A copy of the whole struct would read its fields in one piece right
/// after they were written, which stalls the processor.
#[inline(always)]
fn taken_apart(access: Access) -> Access
    ensures { result ≡ access }
{
    Access {
        mode: access.mode,
        kind: access.kind,
        size: access.size,
        address: access.address,
    }
}

/// Answers the access of each line.
#[derive(Drop)]
pub struct LineJudge<'a, J> {
    /// The judge of the accesses.
    pub by: &'a J,
}

impl<J: AccessJudge> Interpreter for LineJudge<'_, J> {
    ghost use Rattle.std.specs.Prelude.{◌≡◌};
    ghost use Rattle.hart_trace.specs.Answers.{answered_by, is_no_access};

    ghost does = { λ old n line answer new.
        answered_by (J.outcomes old.by.now) tt n line answer tt × (new ≡ old) };

    ghost refuses = { λ now line. is_no_access tt line };

    ghost starves = { λ old line new. ⊥ };

    ghost keeps = { λ now. Unit {0} };

    fn interpret(
        &mut self,
        line: &[u8],
        count: u64,
        answer: &mut Line,
    ) -> Result<bool, LineRefusal> {
        let Ok(found) = read_access(line) else {
            return Err(LineRefusal::NotUnderstood);
        };
        let Some(access) = found else {
            return Ok(false);
        };
        push_answer(answer, self.by.outcome(&access));
        Ok(true)
    }

    #[inline(always)]
    fn interpret_ahead(
        &mut self,
        ahead: &[u8],
        count: u64,
        answer: &mut Line,
    ) -> Option<(usize, Result<bool, LineRefusal>)> {
        let (_, found, _, len) = access_ahead(ahead, 0)?;
        let access = taken_apart(found);
        push_answer(answer, self.by.outcome(&access));
        Some((len, Ok(true)))
    }
}

/// Judges the accesses of a trace: only the first three forms of trace lines, without `@H`. A store changes nothing.
/// The answer to each line is written before the next line is read. Does not allocate.
pub fn judge_lines<J: AccessJudge, R: Source, M, W: LineSink<M>>(
    by: &J,
    source: &mut R,
    sink: &mut W,
) -> Result<(), RunFault>
    ensures all { IfOk result (λ _.
        DoesAll (answered_by (J.outcomes by.now)) tt tt (R.remaining source.old)
        (R.remaining source.new) (W.contents sink.old) (W.contents sink.new)) }
    ensures line { (n : ℕ) → result ≡ Err (RunFault.Line n)
        → StopsAt n (answered_by (J.outcomes by.now)) is_no_access tt tt
        (R.remaining source.old) (R.remaining source.new) (W.contents sink.old)
        (W.contents sink.new) }
    ensures too_long { result ≡ Err RunFault.TooLong
        → StopsTooLong (answered_by (J.outcomes by.now)) tt tt (R.remaining source.old)
        (R.remaining source.new) (W.contents sink.old) (W.contents sink.new) }
    ensures read { result ≡ Err RunFault.Read
        → StopsReading (answered_by (J.outcomes by.now)) tt tt (R.remaining source.old)
        (R.remaining source.new) (W.contents sink.old) (W.contents sink.new) }
    ensures write { result ≡ Err RunFault.Write
        → StopsWriting (answered_by (J.outcomes by.now)) tt tt (R.remaining source.old)
        (R.remaining source.new) (W.contents sink.old) (W.contents sink.new) }
    ensures no_memory { result ≡ Err RunFault.Memory → ⊥ }
    ensures reads { CountsReads result (R.failures source.old) (R.failures source.new) }
    ensures writes { CountsWrites result (W.failures sink.old)
        (W.failures sink.new) (W.stalls sink.old) (W.stalls sink.new) }
{
    let mut lines = LineJudge { by };
    interpret_lines::<_, R, M, W>(&mut lines, source, sink)
}

/// Judges the accesses of a trace by a bank, as [`judge_lines`] does.
pub fn judge_trace<R: Source, W: Sink>(
    bank: &Bank,
    source: &mut R,
    sink: &mut W,
) -> Result<(), RunFault>
    ensures all { IfOk result (λ _.
        DoesAll (judged_by bank.now) tt tt (R.remaining source.old)
        (R.remaining source.new) (W.contents sink.old) (W.contents sink.new)) }
    ensures line { (n : ℕ) → result ≡ Err (RunFault.Line n)
        → StopsAt n (judged_by bank.now) is_no_access tt tt (R.remaining source.old)
        (R.remaining source.new) (W.contents sink.old) (W.contents sink.new) }
    ensures too_long { result ≡ Err RunFault.TooLong
        → StopsTooLong (judged_by bank.now) tt tt (R.remaining source.old)
        (R.remaining source.new) (W.contents sink.old) (W.contents sink.new) }
    ensures read { result ≡ Err RunFault.Read
        → StopsReading (judged_by bank.now) tt tt (R.remaining source.old)
        (R.remaining source.new) (W.contents sink.old) (W.contents sink.new) }
    ensures write { result ≡ Err RunFault.Write
        → StopsWriting (judged_by bank.now) tt tt (R.remaining source.old)
        (R.remaining source.new) (W.contents sink.old) (W.contents sink.new) }
    ensures no_memory { result ≡ Err RunFault.Memory → ⊥ }
    ensures reads { CountsReads result (R.failures source.old) (R.failures source.new) }
    ensures writes { CountsWrites result (W.failures sink.old)
        (W.failures sink.new) (W.stalls sink.old) (W.stalls sink.new) }
{
    let segments = Segments::of(bank);
    judge_lines::<_, R, Direct, W>(&segments, source, sink)
}
