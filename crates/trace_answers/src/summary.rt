//! The summary of a run, printed as lines that begin with `# `.

ghost use Rattle.std.specs.Prelude.{ℕ, List};
ghost use Rattle.text_lines.specs.Writings.{Prints, writing};

use crate::tally::{Count, Group, Subject, Tally};
use arrayvec::ArrayString;
use enclave_table::Table;
use hart_sim::Machine;
use std::fmt;
use std::fmt::Write;
use text_lines::{DeviceFault, Sink, write_whole};

/// The text of a summary.
type Text = ArrayString<4096>;

/// The maximal number of live enclaves, which is also their largest id.
const ENCLAVES: u64 = 64;

/// Returns the name of a subject.
fn title(subject: Subject) -> &'static str {
    match subject {
        Subject::Events => "events",
        Subject::Faults => "faults",
        Subject::Calls => "calls",
        Subject::Refusals => "refused",
    }
}

/// Returns the name of a kind of event.
fn event_name(kind: u64) -> &'static str {
    match kind {
        0 => "accesses",
        1 => "registers set",
        2 => "calls",
        _ => "interrupts",
    }
}

/// Returns the name of a function of the monitor.
fn function_name(function: u64) -> &'static str {
    match function {
        0 => "create",
        1 => "destroy",
        2 => "run",
        3 => "stop",
        4 => "resume",
        5 => "exit",
        6 => "measure",
        _ => "unknown",
    }
}

/// Writes a count as `NAME: N`.
fn write_count(text: &mut Text, subject: Subject, count: &Count) -> fmt::Result {
    let kind = count.kind;
    let number = count.number;
    match subject {
        Subject::Events => {
            let name = event_name(kind);
            write!(text, "{name}: {number}")
        }
        Subject::Faults => write!(text, "cause {kind}: {number}"),
        Subject::Calls => {
            let name = function_name(kind);
            write!(text, "{name}: {number}")
        }
        Subject::Refusals => write!(text, "-{kind}: {number}"),
    }
}

/// Writes the line of a subject, if anything was counted: the total, and the kinds in brackets.
fn write_group(text: &mut Text, group: &Group) -> fmt::Result {
    if group.total == 0 {
        return Ok(());
    }
    let name = title(group.subject);
    let total = group.total;
    write!(text, "# {name}: {total}")?;
    let mut is_open = false;
    for count in group.counts.as_slice() {
        if count.number != 0 {
            let before = if is_open { ", " } else { " (" };
            write!(text, "{before}")?;
            write_count(text, group.subject, count)?;
            is_open = true;
        }
    }
    let end = if is_open { ")" } else { "" };
    writeln!(text, "{end}")
}

/// Counts the live enclaves.
fn count_live(table: &Table) -> u64 {
    let mut count: u64 = 0;
    for i in 0..ENCLAVES {
        if table.entry_point(i + 1).is_some() {
            count = count.saturating_add(1);
        }
    }
    count
}

/// Counts the marked harts.
fn count_marked(machine: &Machine) -> u64 {
    let mut count: u64 = 0;
    for hart in 0..machine.harts() {
        if machine.marked(hart) {
            count = count.saturating_add(1);
        }
    }
    count
}

/// Writes all lines of a summary.
fn write_summary(text: &mut Text, tally: &Tally, machine: &Machine) -> fmt::Result {
    write_group(text, &tally.events)?;
    write_group(text, &tally.faults)?;
    write_group(text, &tally.calls)?;
    write_group(text, &tally.refusals)?;
    if tally.most != 0 {
        let most = tally.most;
        writeln!(text, "# most entries loaded: {most}")?;
    }
    let live = count_live(machine.table());
    let marked = count_marked(machine);
    writeln!(
        text,
        "# at the end: enclaves live: {live}, harts marked: {marked}"
    )
}

/// Prints the summary of a run: the counts of the tally, and the live enclaves and marked harts of the machine after it.
pub fn print_summary<W: Sink>(
    tally: &Tally,
    machine: &Machine,
    out: &mut W,
) -> Result<(), DeviceFault>
    ensures { (text : List ℕ)
        × Prints text (writing W.contents W.failures W.stalls out.old out.new) result }
{
    let mut text = Text::new();
    let _ = write_summary(&mut text, tally, machine);
    write_whole(out, text.as_str().as_bytes())
}
