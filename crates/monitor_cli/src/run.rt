//! `run`: runs a trace on a machine that boots on a platform.

ghost use Rattle.std.specs.Prelude.{◌-◌, ◌^◌, ◌<◌};
ghost use Rattle.text_lines.specs.Writings.{writing};
ghost use Rattle.hart_sim.specs.Machines.{KeepsBanksRight};
ghost use Rattle.hart_sim.specs.Reports.{DoesLine};
ghost use Rattle.program_files.specs.Reading.{reading};
ghost use Rattle.trace_answers.specs.Explained.{explaining};
ghost use Rattle.monitor_cli.specs.Answered.{status_in};
ghost use Rattle.monitor_cli.specs.Runs.{Runs, RunsExpecting, RunsExplaining, RunsTrace, RunsTraceAs};

use crate::answered::{Answered, noted, quiet};
use crate::judge::tell_first;
use crate::measurements::{boot_machine, measure_where};
use crate::platform_inputs::read_platform;
use arrayvec::ArrayVec;
use command_line::Answers;
use hart_sim::{Machine, run_lines};
use program_files::Trouble;
use std::alloc::Global;
use text_lines::{LineSink, Source};
use trace_answers::{Compared, Ran, compare_lines, explain_run, print_summary};

/// Runs a trace on a machine, and prints the measurements if they are requested.
#[inline(never)]
fn run_plainly<'a, R: Source, L, W: LineSink<L>>(
    machine: &mut Machine,
    trace: &'a str,
    measure: bool,
    second: &mut R,
    out: &mut W,
) -> Result<u8, Trouble<'a>>
    requires kept { KeepsBanksRight machine.old }
    ensures { RunsTrace DoesLine machine.old trace.entry measure
        (reading R.remaining R.failures second.old second.new)
        (writing W.contents W.failures W.stalls out.old out.new) result }
{
    run_lines::<R, L, W>(machine, second, out).map_err(|fault| Trouble::of_run(trace, fault))?;
    measure_where(machine, measure, out)?;
    Ok(0)
}

/// Runs a trace on a machine, explains after each answer what happened, prints the measurements if they are requested,
/// and finally the summary.
#[inline(never)]
fn run_explaining<'a, R: Source, L, W: LineSink<L>>(
    machine: Machine,
    trace: &'a str,
    measure: bool,
    second: &mut R,
    out: &mut W,
) -> Result<u8, Trouble<'a>>
    requires kept { KeepsBanksRight machine }
    ensures { RunsExplaining (explaining DoesLine) machine trace.entry measure
        (reading R.remaining R.failures second.old second.new)
        (writing W.contents W.failures W.stalls out.old out.new) result }
{
    let Ran {
        machine,
        tally,
        end,
    } = explain_run::<R, L, W>(machine, second, out);
    end.map_err(|fault| Trouble::of_run(trace, fault))?;
    measure_where(&machine, measure, out)?;
    print_summary(&tally, &machine, out)?;
    Ok(0)
}

/// Runs a trace on a machine, compares its answers, and prints the measurements if they are requested.
#[inline(never)]
fn run_expecting<'a, R: Source, L, W: LineSink<L>>(
    machine: Machine,
    trace: &'a str,
    measure: bool,
    second: &mut R,
    out: &mut W,
) -> Result<Answered, Trouble<'a>>
    requires kept { KeepsBanksRight machine }
    ensures { RunsExpecting DoesLine machine trace.entry measure
        (reading R.remaining R.failures second.old second.new)
        (writing W.contents W.failures W.stalls out.old out.new) (status_in result) }
{
    let Compared {
        lines,
        first,
        note,
        end,
    } = compare_lines::<_, R, L, W>(machine, second, out);
    end.map_err(|fault| Trouble::of_run(trace, fault))?;
    measure_where(&lines, measure, out)?;
    let status = tell_first(&first, out)?;
    Ok(noted(status, &ArrayVec::new(), &note))
}

/// Runs a trace on a machine, with the requested kind of answers.
fn run_on<'a, R: Source, L, W: LineSink<L>>(
    machine: Machine,
    answers: Answers,
    trace: &'a str,
    measure: bool,
    second: &mut R,
    out: &mut W,
) -> Result<Answered, Trouble<'a>>
    requires kept { KeepsBanksRight machine }
    ensures { RunsTraceAs answers machine trace.entry measure
        (reading R.remaining R.failures second.old second.new)
        (writing W.contents W.failures W.stalls out.old out.new) (status_in result) }
{
    match answers {
        Answers::Plain => {
            let mut running = machine;
            quiet(run_plainly::<R, L, W>(&mut running, trace, measure, second, out))
        }
        Answers::Explained => {
            quiet(run_explaining::<R, L, W>(machine, trace, measure, second, out))
        }
        Answers::Compared => run_expecting::<R, L, W>(machine, trace, measure, second, out),
    }
}

/// Boots a platform, and runs a trace on it, with the requested kind of answers.
pub(crate) fn do_run<'a, R: Source, L, W: LineSink<L>>(
    alloc: Global,
    answers: Answers,
    platform: &'a str,
    trace: &'a str,
    measure: bool,
    first: &mut R,
    second: &mut R,
    out: &mut W,
) -> Result<Answered, Trouble<'a>>
    ensures { let source = reading R.remaining R.failures in
        Runs answers platform.entry trace.entry measure (source first.old first.new)
        (source second.old second.new) (writing W.contents W.failures W.stalls out.old out.new)
        (status_in result) }
{
    let platform = read_platform(alloc, platform, first)?;
    let machine = boot_machine(alloc, platform)?;
    run_on::<R, L, W>(machine, answers, trace, measure, second, out)
}
