//! The lint of a trace.

ghost use Rattle.std.specs.Prelude.{◌≡◌, ◌==◌, ◌-◌, ◌^◌, ◌<◌, Err, IfOk, ℕ, List, length, map};
ghost use Rattle.text_lines.specs.Writings.{writing, Breaks, TakesAll};
ghost use Rattle.input_files.specs.declared.lint_fault.LintFault as LintFault;
ghost use Rattle.input_files.specs.Traces.{findings_in, is_trace, told_at};

use crate::LintFault;
use crate::taker::{Taker, fault_of};
use crate::trace_warnings::trace_warnings;
use crate::trace_words::push_line_fault;
use hart_trace::LineFault;
use std::alloc::{AllocError, Global};
use text_lines::{Sink, split_line, write_whole};

/// A rejected line, and the fault.
#[derive(Clone, Copy)]
pub struct TraceFinding<'a> {
    /// The number of the line, from 1.
    pub line: u64,
    /// The fault.
    pub fault: LineFault<'a>,
}

/// Returns the rejected lines of a file.
pub fn trace_findings<'a>(
    alloc: Global,
    bytes: &'a [u8],
    taker: Taker,
) -> Result<Vec<TraceFinding<'a>>, AllocError>
    requires { length bytes.now < 2 ^ 64 - 1 }
    ensures found { IfOk result (λ findings.
        map (λ finding. told_at finding) findings.items ≡ findings_in taker bytes.now) }
    ensures verdict { IfOk result (λ findings.
        (length findings.items == 0) ≡ is_trace taker bytes.now) }
{
    let mut findings = Vec::new(alloc);
    let mut rest = bytes;
    let mut line: u64 = 0;
    while !rest.is_empty() {
        let (raw, behind) = split_line(rest);
        line += 1;
        if let Some(fault) = fault_of(taker, raw) {
            findings.push(TraceFinding { line, fault })?;
        }
        rest = behind;
    }
    Ok(findings)
}

/// Appends the message for a rejected line, with its place, the fault and a correction.
pub fn push_trace_finding(
    text: &mut Vec<u8>,
    name: &str,
    taker: Taker,
    finding: &TraceFinding<'_>,
) -> Result<(), AllocError> {
    push_line_fault(text, name, taker.harts(), finding.line, finding.fault)
}

/// Returns the messages for findings, or warnings if there are none.
fn lines_of(
    alloc: Global,
    name: &str,
    bytes: &[u8],
    taker: Taker,
    findings: &[TraceFinding<'_>],
) -> Result<Vec<u8>, AllocError> {
    if findings.is_empty() {
        return trace_warnings(alloc, name, bytes);
    }
    let mut text = Vec::new(alloc);
    for finding in findings {
        push_trace_finding(&mut text, name, taker, finding)?;
    }
    Ok(text)
}

/// Writes a message for each rejected line of a file, or warnings. Returns whether all lines are accepted. If an allocation fails,
/// nothing was written.
pub fn lint_trace<W: Sink>(
    alloc: Global,
    name: &str,
    bytes: &[u8],
    taker: Taker,
    out: &mut W,
) -> Result<bool, LintFault>
    requires { length bytes.now < 2 ^ 64 - 1 }
    ensures trace { IfOk result (λ answer. answer ≡ is_trace taker bytes.now) }
    ensures written { IfOk result (λ _. (text : List ℕ)
        × TakesAll text (writing W.contents W.failures W.stalls out.old out.new)) }
    ensures untouched { result ≡ Err LintFault.Memory → out.new ≡ out.old }
    ensures broken { result ≡ Err LintFault.Device → (text : List ℕ)
        × Breaks text (writing W.contents W.failures W.stalls out.old out.new) }
{
    let Ok(findings) = trace_findings(alloc, bytes, taker) else {
        return Err(LintFault::Memory);
    };
    let Ok(text) = lines_of(alloc, name, bytes, taker, findings.as_slice()) else {
        return Err(LintFault::Memory);
    };
    let Ok(()) = write_whole(out, text.as_slice()) else {
        return Err(LintFault::Device);
    };
    Ok(findings.is_empty())
}
