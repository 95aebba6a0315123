//! Judges the accesses of a trace line by line and compares the answers with those that its comments expect.

ghost use Rattle.std.specs.Prelude.{◌≡◌, ℕ, ◌-◌, ◌^◌, Err, IfOk, option_map};
ghost use Rattle.text_lines.specs.LineLoop.{CountsReads, CountsWrites, StopsAt, StopsReading, StopsTooLong, StopsWriting};
ghost use Rattle.hart_trace.specs.Answers.{answered_by, is_no_access};
ghost use Rattle.trace_answers.specs.Comparisons.{ComparesAll, found_in};

use crate::comparison::{Compared, compare_lines};
use hart_trace::{AccessJudge, LineJudge};
use text_lines::{LineSink, RunFault, Source};

/// Judges the accesses of a trace as `judge_lines` does, and compares each answer with the one that the comment of its
/// line expects.
pub fn compare_judged<J: AccessJudge, R: Source, M, W: LineSink<M>>(
    by: &J,
    source: &mut R,
    sink: &mut W,
) -> Compared<()>
    ensures all { IfOk result.end (λ _.
        ComparesAll (answered_by (J.outcomes by.now)) tt tt (R.remaining source.old)
        (R.remaining source.new) (W.contents sink.old) (W.contents sink.new)
        (option_map found_in result.first)) }
    ensures line { (n : ℕ) → result.end ≡ Err (RunFault.Line n)
        → StopsAt n (answered_by (J.outcomes by.now)) is_no_access tt tt
        (R.remaining source.old) (R.remaining source.new) (W.contents sink.old)
        (W.contents sink.new) }
    ensures too_long { result.end ≡ Err RunFault.TooLong
        → StopsTooLong (answered_by (J.outcomes by.now)) tt tt (R.remaining source.old)
        (R.remaining source.new) (W.contents sink.old) (W.contents sink.new) }
    ensures read { result.end ≡ Err RunFault.Read
        → StopsReading (answered_by (J.outcomes by.now)) tt tt (R.remaining source.old)
        (R.remaining source.new) (W.contents sink.old) (W.contents sink.new) }
    ensures write { result.end ≡ Err RunFault.Write
        → StopsWriting (answered_by (J.outcomes by.now)) tt tt (R.remaining source.old)
        (R.remaining source.new) (W.contents sink.old) (W.contents sink.new) }
    ensures no_memory { result.end ≡ Err RunFault.Memory → ⊥ }
    ensures reads { CountsReads result.end (R.failures source.old) (R.failures source.new) }
    ensures writes { CountsWrites result.end (W.failures sink.old)
        (W.failures sink.new) (W.stalls sink.old) (W.stalls sink.new) }
{
    let Compared {
        first,
        note,
        end,
        ..
    } = compare_lines::<_, R, M, W>(LineJudge { by }, source, sink);
    Compared {
        lines: (),
        first,
        note,
        end,
    }
}
