//! `judge`: judges the accesses of a trace by the entries of a map, or by given registers.

ghost use Rattle.std.specs.Prelude.{◌-◌, ◌^◌, ◌<◌, IfErr, IfOk, List, Option, Some, ℕ, ◌≡◌, option_map};
ghost use Rattle.text_lines.specs.Writings.{writing, Breaks, IsWell};
ghost use Rattle.hart_trace.specs.Answers.{answered_by};
ghost use Rattle.pmp_encoding.specs.Limits.{limit_number};
ghost use Rattle.trace_answers.specs.Comparisons.{LineAnswer, found_in};
ghost use Rattle.trace_answers.specs.Explained.{explaining};
ghost use Rattle.program_files.specs.Reading.{reading};
ghost use Rattle.monitor_cli.specs.Answered.{status_in};
ghost use Rattle.monitor_cli.specs.Expected.{IsTold};
ghost use Rattle.monitor_cli.specs.Judge.{JudgesBy, JudgesByMap, JudgesByRegisters, JudgesExpecting, JudgesTrace, JudgesTraceAs};

use crate::answered::{Answered, noted, with_notes};
use crate::certified_plan::plan_within;
use arrayvec::ArrayVec;
use command_line::{Answers, Options};
use hart_trace::{AccessJudge, judge_lines};
use pmp_encoding::{Bank, Limit};
use pmp_match::{Deciders, Segments};
use program_files::{REGISTER_BYTES, Trouble, bytes_in, map_in};
use register_audit::{ListingNotes, ListingRules, Ruled, rules_in};
use std::alloc::Global;
use text_lines::{DeviceFault, LineSink, Sink, Source, write_whole};
use trace_answers::{CommentNote, Compared, Difference, compare_judged, explain_judged};

/// Reports the first difference, if there is one, and returns the status.
pub(crate) fn tell_first<W: Sink>(
    first: &Option<Difference>,
    out: &mut W,
) -> Result<u8, DeviceFault>
    ensures told { IfOk result (λ status. IsTold (option_map found_in first.now)
        (W.contents out.old) (W.contents out.new) status) }
    ensures well { IfOk result (λ _. IsWell
        (writing W.contents W.failures W.stalls out.old out.new)) }
    ensures broken { IfErr result (λ _. (found : LineAnswer)
        × (option_map found_in first.now ≡ Some found) × (text : List ℕ)
        × Breaks text (writing W.contents W.failures W.stalls out.old out.new)) }
{
    match first {
        None => Ok(0),
        Some(difference) => {
            write_whole(out, difference.text().as_slice())?;
            Ok(1)
        }
    }
}

/// Judges a trace.
#[inline(never)]
fn judge_plainly<'a, J: AccessJudge, R: Source, L, W: LineSink<L>>(
    by: &J,
    trace: &'a str,
    second: &mut R,
    out: &mut W,
) -> Result<u8, Trouble<'a>>
    ensures { JudgesTrace (answered_by (J.outcomes by.now)) trace.entry
        (reading R.remaining R.failures second.old second.new)
        (writing W.contents W.failures W.stalls out.old out.new) result }
{
    judge_lines::<J, R, L, W>(by, second, out).map_err(|fault| Trouble::of_run(trace, fault))?;
    Ok(0)
}

/// Judges a trace, and explains after each answer which entry decided it.
#[inline(never)]
fn judge_explaining<'a, J: AccessJudge, D: Deciders, R: Source, L, W: LineSink<L>>(
    by: &J,
    deciders: &D,
    trace: &'a str,
    second: &mut R,
    out: &mut W,
) -> Result<u8, Trouble<'a>>
    ensures { JudgesTrace (explaining (answered_by (J.outcomes by.now))) trace.entry
        (reading R.remaining R.failures second.old second.new)
        (writing W.contents W.failures W.stalls out.old out.new) result }
{
    explain_judged::<J, D, R, L, W>(by, deciders, second, out).map_err(|fault| Trouble::of_run(
        trace, fault,
    ))?;
    Ok(0)
}

/// Judges a trace, and compares the answers with those expected in its comments.
#[inline(never)]
fn judge_expecting<'a, J: AccessJudge, R: Source, L, W: LineSink<L>>(
    by: &J,
    notes: &ListingNotes,
    trace: &'a str,
    second: &mut R,
    out: &mut W,
) -> Result<Answered, Trouble<'a>>
    ensures { JudgesExpecting (answered_by (J.outcomes by.now)) trace.entry
        (reading R.remaining R.failures second.old second.new)
        (writing W.contents W.failures W.stalls out.old out.new) (status_in result) }
{
    let Compared {
        first,
        note,
        end,
        ..
    } = compare_judged::<J, R, L, W>(by, second, out);
    end.map_err(|fault| Trouble::of_run(trace, fault))?;
    let status = tell_first(&first, out)?;
    Ok(noted(status, notes, &note))
}

/// Judges a trace, with the requested kind of answers; the result includes the notes on the listing.
fn judge_by<'a, J: AccessJudge, D: Deciders, R: Source, L, W: LineSink<L>>(
    by: &J,
    deciders: &D,
    answers: Answers,
    notes: &ListingNotes,
    trace: &'a str,
    second: &mut R,
    out: &mut W,
) -> Result<Answered, Trouble<'a>>
    ensures { JudgesTraceAs answers (J.outcomes by.now) trace.entry
        (reading R.remaining R.failures second.old second.new)
        (writing W.contents W.failures W.stalls out.old out.new) (status_in result) }
{
    match answers {
        Answers::Plain => { with_notes(notes, judge_plainly::<J, R, L, W>(by, trace, second, out)) }
        Answers::Explained => with_notes(
            notes,
            judge_explaining::<J, D, R, L, W>(by, deciders, trace, second, out),
        ),
        Answers::Compared => judge_expecting::<J, R, L, W>(by, notes, trace, second, out),
    }
}

/// Returns the number of entries of a hart with this limit.
fn entry_count(limit: Limit) -> u64
    ensures { result ≡ limit_number limit }
{
    u64::from(limit.number())
}

/// Loads the entries of a map and judges a trace by them.
#[inline(never)]
fn judge_by_map<'a, R: Source, L, W: LineSink<L>>(
    alloc: Global,
    file: &'a str,
    trace: &'a str,
    limit: Limit,
    options: &Options<'a>,
    first: &mut R,
    second: &mut R,
    out: &mut W,
) -> Result<Answered, Trouble<'a>>
    ensures { let source = reading R.remaining R.failures in
        JudgesByMap file.entry trace.entry limit options.now (source first.old first.new)
        (source second.old second.new) (writing W.contents W.failures W.stalls out.old out.new)
        (status_in result) }
{
    let map = map_in(alloc, file, first)?;
    let most = entry_count(limit);
    let plan = plan_within(alloc, file, &map, options.xlen, Some(most))?;
    let bank = Bank::of_packed(plan.entries(), limit);
    let segments = Segments::of(&bank);
    let notes = ArrayVec::new();
    judge_by::<_, _, R, L, W>(
        &segments,
        &bank,
        options.answers,
        &notes,
        trace,
        second,
        out,
    )
}

/// Judges a trace by given registers. The status is 1 if they judge nothing.
#[inline(never)]
fn judge_by_registers<'a, R: Source, L, W: LineSink<L>>(
    alloc: Global,
    file: &'a str,
    trace: &'a str,
    options: &Options<'a>,
    first: &mut R,
    second: &mut R,
    out: &mut W,
) -> Result<Answered, Trouble<'a>>
    ensures { let source = reading R.remaining R.failures in
        JudgesByRegisters file.entry trace.entry options.now (source first.old first.new)
        (source second.old second.new) (writing W.contents W.failures W.stalls out.old out.new)
        (status_in result) }
{
    let listing = bytes_in(alloc, file, first, REGISTER_BYTES)?;
    let ListingRules { ruled, notes } = match rules_in(options.xlen, listing.as_slice()) {
        Ok(rules) => rules,
        Err(line) => return Err(Trouble::NotUnderstood { file, line }),
    };
    match ruled {
        Ruled::Rules(rules) => {
            judge_by::<_, _, R, L, W>(&rules, &rules, options.answers, &notes, trace, second, out)
        }
        Ruled::Refused(line) => {
            write_whole(out, line.as_slice())?;
            Ok(noted(1, &notes, &CommentNote::new()))
        }
    }
}

/// Judges a trace by the entries of a map, or by given registers, with the requested kind of answers.
pub(crate) fn do_judge<'a, R: Source, L, W: LineSink<L>>(
    alloc: Global,
    file: &'a str,
    trace: &'a str,
    limit: Limit,
    options: &Options<'a>,
    first: &mut R,
    second: &mut R,
    out: &mut W,
) -> Result<Answered, Trouble<'a>>
    ensures { let source = reading R.remaining R.failures in
        JudgesBy options.now.registers file.entry trace.entry limit options.now
        (source first.old first.new) (source second.old second.new)
        (writing W.contents W.failures W.stalls out.old out.new) (status_in result) }
{
    if options.registers {
        return judge_by_registers::<R, L, W>(alloc, file, trace, options, first, second, out);
    }
    judge_by_map::<R, L, W>(alloc, file, trace, limit, options, first, second, out)
}
