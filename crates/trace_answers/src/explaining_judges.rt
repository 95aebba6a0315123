//! Judges the accesses of a trace line by line, and appends to each answer what decided it.

ghost use Rattle.std.specs.Prelude.{◌≡◌, ℕ, ◌-◌, ◌^◌, Err, IfOk, Some, [], IfSome};
ghost use Rattle.std.specs.Result.{result_ok};
ghost use Rattle.text_lines.specs.LineLoop.{CountsReads, CountsWrites, DoesAll, StopsAt, StopsReading, StopsTooLong, StopsWriting};
ghost use Rattle.hart_trace.specs.Answers.{access_on, answered_by, is_no_access};
ghost use Rattle.trace_answers.specs.Explained.{explaining};

use crate::explained::{Comment, explain};
use crate::reasons::reason_of;
use hart_trace::{AccessJudge, Event, LineJudge, parse_line};
use pmp_match::{Access, Deciders};
use std::fmt::Write;
use text_lines::{Interpreter, Line, LineRefusal, LineSink, RunFault, Source, interpret_lines};

/// Answers the access of each line and explains what decided it.
#[derive(Drop)]
struct ExplainingJudge<'a, J, D> {
    by: &'a J,
    deciders: &'a D,
}

/// Returns the access on a line, if there is one.
fn access_on(line: &[u8]) -> Option<Access> {
    match parse_line(line, 0) {
        Ok(Some((_, Event::Access(access, _)))) => Some(access),
        _ => None,
    }
}

/// Writes the comment on the access of a line, if there is one.
fn comment_on<D: Deciders>(deciders: &D, line: &[u8]) -> Comment {
    let mut comment = Comment::new();
    if let Some(access) = access_on(line) {
        let reason = reason_of(deciders, &access);
        let _ = write!(comment, "{reason}");
    }
    comment
}

impl<J: AccessJudge, D: Deciders> Interpreter for ExplainingJudge<'_, J, D> {
    ghost use Rattle.std.specs.Prelude.{◌≡◌};
    ghost use Rattle.hart_trace.specs.Answers.{answered_by, is_no_access};
    ghost use Rattle.trace_answers.specs.Explained.{explaining};

    ghost does = { λ old n line said new.
        explaining (answered_by (J.outcomes old.by.now)) tt n line said tt
        × (new ≡ old) };

    ghost refuses = { λ now line. is_no_access tt line };

    ghost starves = { λ old line new. ⊥ };

    ghost keeps = { λ now. Unit {0} };

    fn interpret(
        &mut self,
        line: &[u8],
        count: u64,
        answer: &mut Line,
    ) -> Result<bool, LineRefusal> {
        let mut judge = LineJudge { by: self.by };
        let answered = match judge.interpret(line, count, answer) {
            Ok(answered) => answered,
            Err(refusal) => return Err(refusal),
        };
        if answered {
            let comment = comment_on(self.deciders, line);
            explain(answer, count + 1, &comment);
        }
        Ok(answered)
    }
}

/// Judges the accesses of a trace as `judge_lines` does, and appends to each answer the entry that decided it.
pub fn explain_judged<J: AccessJudge, D: Deciders, R: Source, M, W: LineSink<M>>(
    by: &J,
    deciders: &D,
    source: &mut R,
    sink: &mut W,
) -> Result<(), RunFault>
    ensures all { IfOk result (λ _.
        DoesAll (explaining (answered_by (J.outcomes by.now)))
        tt tt (R.remaining source.old) (R.remaining source.new) (W.contents sink.old)
        (W.contents sink.new)) }
    ensures line { (n : ℕ) → result ≡ Err (RunFault.Line n)
        → StopsAt n
        (explaining (answered_by (J.outcomes by.now)))
        is_no_access tt tt (R.remaining source.old) (R.remaining source.new)
        (W.contents sink.old) (W.contents sink.new) }
    ensures too_long { result ≡ Err RunFault.TooLong
        → StopsTooLong
        (explaining (answered_by (J.outcomes by.now))) tt
        tt (R.remaining source.old) (R.remaining source.new) (W.contents sink.old)
        (W.contents sink.new) }
    ensures read { result ≡ Err RunFault.Read
        → StopsReading
        (explaining (answered_by (J.outcomes by.now))) tt
        tt (R.remaining source.old) (R.remaining source.new) (W.contents sink.old)
        (W.contents sink.new) }
    ensures write { result ≡ Err RunFault.Write
        → StopsWriting
        (explaining (answered_by (J.outcomes by.now))) tt
        tt (R.remaining source.old) (R.remaining source.new) (W.contents sink.old)
        (W.contents sink.new) }
    ensures no_memory { result ≡ Err RunFault.Memory → ⊥ }
    ensures reads { CountsReads result (R.failures source.old) (R.failures source.new) }
    ensures writes { CountsWrites result (W.failures sink.old)
        (W.failures sink.new) (W.stalls sink.old) (W.stalls sink.new) }
{
    let mut lines = ExplainingJudge { by, deciders };
    interpret_lines::<_, R, M, W>(&mut lines, source, sink)
}
