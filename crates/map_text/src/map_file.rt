//! A map file: each line sets a permission on pages, and a later line overrides an earlier one.

ghost use Rattle.std.specs.Prelude.{◌≡◌, ℕ, ◌-◌, ◌^◌, ◌<◌, Err, IfErr, IfOk, None, OnOk, length};
ghost use Rattle.map_text.specs.MapFile.{FaultAt, IsUnknown, Leads, Makes, MakesFirst, MakesTooMany, line_says};

use crate::map_lines::line_says;
use permission_map::{MapBuilder, MapFault, PermissionMap};
use std::alloc::Global;
use text_lines::{AT_ONCE, LineReader, next_line};
use thiserror::Error;

/// Maximum size of a map file in bytes.
pub const MAP_BYTES: usize = 1 << 20;

/// The reason why a file is not a map.
#[derive(Clone, Copy, Debug, PartialEq, Eq, Error)]
pub enum MapFileFault {
    /// The line with this number, from 1, is invalid.
    #[error("line {0} is not understood")]
    Line(u64),
    /// After some line there would be more than 4096 ranges.
    #[error("too many ranges")]
    TooManyRanges,
    /// An allocation failed, for the first range or for the map at the end.
    #[error("out of memory")]
    Memory,
}

/// The reason why a line was not applied.
#[derive(Clone, Copy)]
enum LineFault {
    NotUnderstood,
    TooManyRanges,
    Memory,
}

/// Applies a line to the map.
fn follow(map: &mut MapBuilder, line: &[u8]) -> Result<(), LineFault>
    ensures said { OnOk result (Leads (line_says line.now) map.old map.new) }
    ensures unknown { result ≡ Err LineFault.NotUnderstood → line_says line.now ≡ None }
    ensures many { result ≡ Err LineFault.TooManyRanges
        → MakesTooMany map.old (line_says line.now) }
    ensures memory { result ≡ Err LineFault.Memory → MakesFirst map.old (line_says line.now) }
{
    let Ok(said) = line_says(line) else {
        return Err(LineFault::NotUnderstood);
    };
    let Some(setting) = said else {
        return Ok(());
    };
    match map.set_range(setting.first, setting.count, setting.perm) {
        Ok(()) => Ok(()),
        Err(MapFault::PastEnd) => unreachable!(),
        Err(MapFault::TooManyRanges) => Err(LineFault::TooManyRanges),
        Err(MapFault::Memory) => Err(LineFault::Memory),
    }
}

/// Returns the map of the lines of a file, starting from the map that allows nothing.
///
/// Fails at the first line that is invalid, or that would leave more than 4096 ranges. Allocates for the first range,
/// and for the map at the end if it has a range.
pub fn map_of(alloc: Global, bytes: &[u8]) -> Result<PermissionMap, MapFileFault>
    requires { length bytes.now < 2 ^ 64 - 1 }
    ensures made { IfOk result (Makes bytes.now) }
    ensures unknown { IfErr result (λ fault.
        (n : ℕ) → fault ≡ MapFileFault.Line n → FaultAt bytes.now n IsUnknown) }
    ensures many { result ≡ Err MapFileFault.TooManyRanges → (n : ℕ)
        × FaultAt bytes.now n MakesTooMany }
    ensures memory { result ≡ Err MapFileFault.Memory → (n : ℕ)
        × FaultAt bytes.now n MakesFirst }
{
    let mut map = MapBuilder::new(alloc);
    let mut lines = LineReader::<AT_ONCE>::with_limit(u64::MAX);
    let mut rest = bytes;
    'lines: loop {
        match next_line(&mut lines, &mut rest) {
            Ok(true) => {}
            Ok(false) => break 'lines,
            Err(number) => return Err(MapFileFault::Line(number)),
        }
        match follow(&mut map, lines.line()) {
            Ok(()) => {}
            Err(LineFault::NotUnderstood) => return Err(MapFileFault::Line(lines.number())),
            Err(LineFault::TooManyRanges) => return Err(MapFileFault::TooManyRanges),
            Err(LineFault::Memory) => return Err(MapFileFault::Memory),
        }
    }
    let Ok(map) = map.finish() else {
        return Err(MapFileFault::Memory);
    };
    Ok(map)
}
