//! The findings of a map file.

ghost use Rattle.std.specs.Prelude.{◌≡◌, ◌-◌, ◌^◌, ◌<◌, IfOk, length, map};
ghost use Rattle.text_lines.specs.Lines.{raw_lines};
ghost use Rattle.input_files.specs.Maps.{unknown_from};
ghost use Rattle.input_files.specs.Settings.{IsRemark, settings_from};

use crate::idle_lines::{IdleLine, MapRemark, remark_on};
use crate::map_settings::settings_in;
use crate::map_words::push_reason;
use crate::said_words::push_place;
use map_text::raw_says;
use permission_map::Memory;
use std::alloc::Global;
use text_lines::{push, split_line};

/// An invalid line of a map file.
#[derive(Clone, Copy)]
pub struct UnknownLine<'a> {
    /// The number of the line, from 1.
    pub line: u64,
    /// The line without its LF.
    pub raw: &'a [u8],
}

/// The findings in a map file.
#[derive(Drop)]
pub struct MapFindings<'a> {
    /// The invalid lines.
    pub unknown: Vec<UnknownLine<'a>>,
    /// The remark on all other lines together.
    pub remark: MapRemark,
}

/// Returns the invalid lines of a file.
fn unknown_lines<'a>(alloc: Global, bytes: &'a [u8]) -> Result<Vec<UnknownLine<'a>>, Memory>
    requires { length bytes.now < 2 ^ 64 - 1 }
    ensures { IfOk result (λ unknown.
        map (λ it. it.line) unknown.items ≡ unknown_from 1 (raw_lines bytes.now)) }
{
    let mut unknown = Vec::new(alloc);
    let mut rest = bytes;
    let mut line: u64 = 0;
    while !rest.is_empty() {
        let (raw, behind) = split_line(rest);
        line += 1;
        if let Err(_) = raw_says(raw) {
            unknown.push(UnknownLine { line, raw })?;
        }
        rest = behind;
    }
    Ok(unknown)
}

/// Returns the findings in a file, given whether it is a map: the invalid lines, and the line after which there are too
/// many ranges, or the lines of a map that have no effect.
pub fn map_findings<'a>(
    alloc: Global,
    bytes: &'a [u8],
    is_map: bool,
) -> Result<MapFindings<'a>, Memory>
    requires { length bytes.now < 2 ^ 64 - 1 }
    ensures unknown { IfOk result (λ found.
        map (λ it. it.line) found.unknown.items ≡ unknown_from 1 (raw_lines bytes.now)) }
    ensures remark { IfOk result (λ found.
        IsRemark (settings_from 1 (raw_lines bytes.now)) is_map found.remark) }
{
    let unknown = unknown_lines(alloc, bytes)?;
    let settings = settings_in(alloc, bytes)?;
    let remark = remark_on(alloc, settings.as_slice(), is_map)?;
    Ok(MapFindings { unknown, remark })
}

/// Appends the finding on a line that can be removed without changing the map.
fn push_idle(text: &mut Vec<u8>, name: &str, idle: &IdleLine) -> Result<(), Memory> {
    push_place(text, name, idle.line)?;
    if idle.redundant {
        return push(
            text,
            "1: note: the line says what holds anyway; its pages have no permission without it\n",
        );
    }
    push(
        text,
        "1: warning: the line changes nothing of the whole map; it can go\n",
    )
}

/// Appends the remark on all lines together.
fn push_remark(text: &mut Vec<u8>, name: &str, remark: &MapRemark) -> Result<(), Memory> {
    match remark {
        MapRemark::Nothing => Ok(()),
        MapRemark::TooManyAfter(line) => {
            push_place(text, name, *line)?;
            push(
                text,
                "1: more than 4096 ranges after this line; a map has at most 4096\n",
            )
        }
        MapRemark::Idle(idle) => {
            for line in idle.as_slice() {
                push_idle(text, name, line)?;
            }
            Ok(())
        }
    }
}

/// Appends a line for each finding, with its place, the fault and the correction.
pub fn push_map_findings(
    text: &mut Vec<u8>,
    name: &str,
    findings: &MapFindings<'_>,
) -> Result<(), Memory> {
    for unknown in findings.unknown.as_slice() {
        push_place(text, name, unknown.line)?;
        push_reason(text, unknown.raw)?;
        push(text, "\n")?;
    }
    push_remark(text, name, &findings.remark)
}
