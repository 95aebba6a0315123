//! Interprets the lines of an input and compares each answer with the one that its comment expects.

ghost use Rattle.std.specs.Prelude.{◌≡◌, ℕ, ◌+◌, ◌-◌, ◌^◌, ◌<◌, Some, Err, IfOk, None, min, option_map};
ghost use Rattle.text_lines.specs.LineLoop.{text_of, CountsReads, CountsWrites, StopsAt, StopsForMemory, StopsReading, StopsTooLong, StopsWriting};
ghost use Rattle.trace_answers.specs.Comparisons.{ComparesAll, first_with, found_in};

use crate::comments::agrees;
use crate::difference::{Difference, numbered};
use crate::mistaken::{CommentNote, Mistaken};
use text_lines::{Interpreter, Line, LineRefusal, LineSink, RunFault, Source, interpret_lines};

/// The interpreter of the lines, the number of lines, the first difference, and the lines whose comments look like an
/// answer but are not one.
#[derive(Drop)]
struct Comparing<I> {
    lines: I,
    number: u64,
    first: Option<Difference>,
    mistaken: Mistaken,
}

/// Records a difference in one more line if it is the first; `behind` follows the number of the answer, which has
/// `count` answers before it.
fn note(
    first: &mut Option<Difference>,
    number: u64,
    line: &[u8],
    answered: bool,
    count: u64,
    behind: &Line,
)
    requires { count < 2 ^ 64 - 1 }
    ensures { option_map found_in first.new
        ≡ first_with (option_map found_in first.old) number line.now
        (text_of answered count behind.now) }
{
    if first.is_some() || !answered {
        return;
    }
    let answer = numbered(count + 1, behind);
    if !agrees(line, answer.as_slice()) {
        *first = Some(Difference::new(number, line, answer));
    }
}

impl<I: Interpreter> Interpreter for Comparing<I> {
    ghost use Rattle.std.specs.Prelude.{◌≡◌, ◌+◌, ◌-◌, ◌^◌, min, option_map};
    ghost use Rattle.trace_answers.specs.Comparisons.{first_with, found_in};

    ghost does = { λ old n line said new. I.does old.lines n line said new.lines
        × (new.number ≡ min (old.number + 1) (2 ^ 64 - 1))
        × (option_map found_in new.first
        ≡ first_with (option_map found_in old.first) new.number line said) };

    ghost refuses = { λ now line. I.refuses now.lines line };

    ghost starves = { λ old line new. I.starves old.lines line new.lines };

    ghost keeps = { λ now. I.keeps now.lines };

    fn interpret(
        &mut self,
        line: &[u8],
        count: u64,
        answer: &mut Line,
    ) -> Result<bool, LineRefusal> {
        let answered = match self.lines.interpret(line, count, answer) {
            Ok(answered) => answered,
            Err(refusal) => return Err(refusal),
        };
        self.number = self.number.saturating_add(1);
        note(&mut self.first, self.number, line, answered, count, answer);
        self.mistaken.look_at(self.number, line);
        Ok(answered)
    }
}

impl<I> Comparing<I> {
    ghost use Rattle.std.specs.Prelude.{◌≡◌};

    /// Returns the result for lines that ended in this way.
    fn ended(self, end: Result<(), RunFault>) -> Compared<I>
        ensures lines { result.lines ≡ self.lines }
        ensures first { result.first ≡ self.first }
        ensures end { result.end ≡ end }
    {
        let note = self.mistaken.note();
        let Comparing { lines, first, .. } = self;
        Compared {
            lines,
            first,
            note,
            end,
        }
    }
}

/// The result of comparing answers with comments.
#[derive(Drop)]
pub struct Compared<I> {
    /// The interpreter of the lines.
    pub lines: I,
    /// The first difference.
    pub first: Option<Difference>,
    /// The note about comments that look like answers but are not.
    pub note: CommentNote,
    /// The end of the lines, or the fault that stopped them.
    pub end: Result<(), RunFault>,
}

/// Interprets the lines of an input as `interpret_lines` does, and compares each answer with the one that its comment
/// expects. One note covers all comments that look like an answer but are not one.
pub fn compare_lines<I: Interpreter, R: Source, M, W: LineSink<M>>(
    lines: I,
    source: &mut R,
    sink: &mut W,
) -> Compared<I>
    ensures all { I.keeps lines
        → IfOk result.end (λ _.
        ComparesAll I.does lines result.lines (R.remaining source.old)
        (R.remaining source.new) (W.contents sink.old) (W.contents sink.new)
        (option_map found_in result.first)) }
    ensures line { I.keeps lines → (n : ℕ) → result.end ≡ Err (RunFault.Line n)
        → StopsAt n I.does I.refuses lines result.lines (R.remaining source.old)
        (R.remaining source.new) (W.contents sink.old) (W.contents sink.new) }
    ensures too_long { I.keeps lines → result.end ≡ Err RunFault.TooLong
        → StopsTooLong I.does lines result.lines (R.remaining source.old)
        (R.remaining source.new) (W.contents sink.old) (W.contents sink.new) }
    ensures read { I.keeps lines → result.end ≡ Err RunFault.Read
        → StopsReading I.does lines result.lines (R.remaining source.old)
        (R.remaining source.new) (W.contents sink.old) (W.contents sink.new) }
    ensures write { I.keeps lines → result.end ≡ Err RunFault.Write
        → StopsWriting I.does lines result.lines (R.remaining source.old)
        (R.remaining source.new) (W.contents sink.old) (W.contents sink.new) }
    ensures memory { I.keeps lines → result.end ≡ Err RunFault.Memory
        → StopsForMemory I.does I.starves lines result.lines
        (R.remaining source.old) (R.remaining source.new) (W.contents sink.old)
        (W.contents sink.new) }
    ensures keeps { I.keeps lines → I.keeps result.lines }
    ensures reads { CountsReads result.end (R.failures source.old) (R.failures source.new) }
    ensures writes { CountsWrites result.end (W.failures sink.old)
        (W.failures sink.new) (W.stalls sink.old) (W.stalls sink.new) }
{
    let mut comparing = Comparing {
        lines,
        number: 0,
        first: None,
        mistaken: Mistaken::none(),
    };
    let end = interpret_lines::<_, R, M, W>(&mut comparing, source, sink);
    comparing.ended(end)
}
