//! Runs a trace on a machine line by line, and appends to each answer what happened.

ghost use Rattle.std.specs.Prelude.{◌≡◌, ℕ, Err, IfOk};
ghost use Rattle.text_lines.specs.LineLoop.{DoesAll, StopsAt, StopsTooLong, StopsReading, StopsWriting, StopsForMemory, CountsReads, CountsWrites};
ghost use Rattle.hart_sim.specs.Machines.{KeepsBanksRight};
ghost use Rattle.hart_sim.specs.Reports.{DoesLine, RefusesLine, StarvesLine};
ghost use Rattle.trace_answers.specs.Explained.{explaining};

use crate::asked::asked_of;
use crate::event_comment::comment_on;
use crate::explained::explain;
use crate::tally::Tally;
use hart_sim::{Machine, push_reply};
use text_lines::{Interpreter, Line, LineRefusal, LineSink, RunFault, Source, interpret_lines};

/// A machine whose answers are explained, and the tally of what happened to it.
#[derive(Drop)]
struct ExplainingMachine {
    machine: Machine,
    tally: Tally,
}

impl Interpreter for ExplainingMachine {
    ghost use Rattle.hart_sim.specs.Machines.{KeepsBanksRight};
    ghost use Rattle.hart_sim.specs.Reports.{DoesLine, RefusesLine, StarvesLine};
    ghost use Rattle.trace_answers.specs.Explained.{explaining};

    ghost does = { λ old n line said new. explaining DoesLine old.machine n line said new.machine };

    ghost refuses = { λ now line. RefusesLine now.machine line };

    ghost starves = { λ old line new. StarvesLine old.machine line new.machine };

    ghost keeps = { λ now. KeepsBanksRight now.machine };

    fn interpret(
        &mut self,
        line: &[u8],
        count: u64,
        answer: &mut Line,
    ) -> Result<bool, LineRefusal> {
        let Ok(said) = self.machine.event_in(line) else {
            return Err(LineRefusal::NotUnderstood);
        };
        let Some((hart, event)) = said else {
            return Ok(false);
        };
        let asked = asked_of(&self.machine, hart, &event);
        let reply = self.machine.step(hart, event);
        if reply.wants_memory() {
            return Err(LineRefusal::Memory);
        }
        self.tally.add(&asked, &reply);
        push_reply(answer, &reply);
        let comment = comment_on(&asked, &reply, self.machine.table());
        explain(answer, count + 1, &comment);
        Ok(true)
    }
}

/// The result of a run whose answers were explained.
#[derive(Drop)]
pub struct Ran {
    /// The machine after the run.
    pub machine: Machine,
    /// The counts of what happened.
    pub tally: Tally,
    /// The end of the run, or the fault that stopped it.
    pub end: Result<(), RunFault>,
}

/// Runs a trace on a machine as `hart_sim::run` does, appends to each answer a comment on what happened, and counts
/// events. Finding the number of entries that a refused view needs takes memory; if an allocation fails, the comment
/// omits the number.
pub fn explain_run<R: Source, M, W: LineSink<M>>(
    machine: Machine,
    source: &mut R,
    sink: &mut W,
) -> Ran
    ensures all { KeepsBanksRight machine
        → IfOk result.end (λ _. DoesAll (explaining DoesLine) machine result.machine
        (R.remaining source.old) (R.remaining source.new) (W.contents sink.old)
        (W.contents sink.new)) }
    ensures line { KeepsBanksRight machine → (n : ℕ) → result.end ≡ Err (RunFault.Line n)
        → StopsAt n (explaining DoesLine) RefusesLine machine result.machine
        (R.remaining source.old) (R.remaining source.new) (W.contents sink.old)
        (W.contents sink.new) }
    ensures too_long { KeepsBanksRight machine → result.end ≡ Err RunFault.TooLong
        → StopsTooLong (explaining DoesLine) machine result.machine (R.remaining source.old)
        (R.remaining source.new) (W.contents sink.old) (W.contents sink.new) }
    ensures read { KeepsBanksRight machine → result.end ≡ Err RunFault.Read
        → StopsReading (explaining DoesLine) machine result.machine (R.remaining source.old)
        (R.remaining source.new) (W.contents sink.old) (W.contents sink.new) }
    ensures write { KeepsBanksRight machine → result.end ≡ Err RunFault.Write
        → StopsWriting (explaining DoesLine) machine result.machine (R.remaining source.old)
        (R.remaining source.new) (W.contents sink.old) (W.contents sink.new) }
    ensures memory { KeepsBanksRight machine → result.end ≡ Err RunFault.Memory
        → StopsForMemory (explaining DoesLine) StarvesLine machine result.machine
        (R.remaining source.old) (R.remaining source.new) (W.contents sink.old)
        (W.contents sink.new) }
    ensures kept { KeepsBanksRight machine → KeepsBanksRight result.machine }
    ensures reads { CountsReads result.end (R.failures source.old) (R.failures source.new) }
    ensures writes { CountsWrites result.end (W.failures sink.old)
        (W.failures sink.new) (W.stalls sink.old) (W.stalls sink.new) }
{
    let mut lines = ExplainingMachine {
        machine,
        tally: Tally::new(),
    };
    let end = interpret_lines::<_, R, M, W>(&mut lines, source, sink);
    Ran {
        machine: lines.machine,
        tally: lines.tally,
        end,
    }
}
