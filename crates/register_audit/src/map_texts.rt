//! The lines of a map, and the messages if there is no map.

ghost use Rattle.std.specs.Prelude.{◌≡◌, ◌+◌, ◌++◌, ◌*◌, ◌^◌, ◌<◌, ◌≤◌, IfOk};
ghost use Rattle.permission_map.specs.Runs.{AreRuns, end_of};
ghost use Rattle.register_audit.specs.MapTexts.{map_text, run_text};

use crate::listing_texts::{Words, line_of};
use map_table::Stretch;
use map_text::letters;
use permission_map::{Memory, PermissionMap, Run};
use pmp_encoding::PAGE_SIZE;
use std::alloc::Global;
use std::fmt::Write;
use text_lines::{Line, push_hex, push_text};

/// Returns the line of a range.
fn run_line(run: &Run) -> Line
    requires { end_of run.now ≤ 2 ^ 44 }
    ensures { result ≡ run_text run.now }
{
    let mut line = Line::new();
    push_text(&mut line, b"0x");
    push_hex(&mut line, PAGE_SIZE * run.first, 16);
    push_text(&mut line, b" 0x");
    push_hex(&mut line, PAGE_SIZE * run.count, 16);
    line.push(b' ');
    push_text(&mut line, run.perm.word().as_bytes());
    line.push(b'\n');
    line
}

/// Returns the lines of a map. The only error is a failed allocation.
pub(crate) fn map_text(alloc: Global, map: &PermissionMap) -> Result<Vec<u8>, Memory>
    ensures text { IfOk result (λ text. text.items ≡ map_text map.now) }
    ensures runs { IfOk result (λ _. AreRuns map.now) }
{
    let mut text = Vec::new(alloc);
    for run in map.ranges() {
        let line = run_line(run);
        text.extend_from_slice(line.as_slice())?;
    }
    Ok(text)
}

/// Returns the line about bytes whose permission differs from that of their page's first byte.
pub(crate) fn below_line(stretch: &Stretch) -> Line {
    let first = stretch.first;
    let last = stretch.end.saturating_sub(1);
    let given = letters(stretch.given);
    let wanted = letters(stretch.wanted);
    let mut words = Words::new();
    let _ = writeln!(
        words,
        "no map: 0x{first:016x} 0x{last:016x} has {given}, its page's first byte {wanted}"
    );
    line_of(&words)
}

/// Returns the line about an access that an entry cuts.
pub(crate) fn cut_line(entry: usize, at: u64) -> Line {
    let last = at.saturating_add(7);
    let mut words = Words::new();
    let _ = writeln!(
        words,
        "no map: 0x{at:016x} 0x{last:016x}, entry {entry} cuts an access of 8 bytes"
    );
    line_of(&words)
}
