//! `map`: prints the map that registers mean, or that of a board.

ghost use Rattle.std.specs.Prelude.{◌≡◌, ◌↔◌, ◌-◌, ◌^◌, ◌<◌, length, true, false};
ghost use Rattle.pmp_match.specs.declared.access.Mode as Mode;
ghost use Rattle.text_lines.specs.Writings.{writing};
ghost use Rattle.program_files.specs.Reading.{reading};
ghost use Rattle.register_audit.specs.LogLines.{is_boot_log};
ghost use Rattle.monitor_cli.specs.Answered.{status_in};
ghost use Rattle.monitor_cli.specs.Commands.{Ends, IsMapped, IsTreeMapped, IsTreeUnmapped, IsUnmapped};

use crate::answered::{Answered, answer_status, noted, quiet};
use crate::boards::board_trouble;
use crate::listings::listing_trouble;
use board_texts::{is_tree, map_text_of};
use command_line::Options;
use pmp_match::Mode;
use program_files::{REGISTER_BYTES, Trouble, bytes_in};
use register_audit::{MapOfFault, is_boot_log, print_map_of};
use std::alloc::Global;
use text_lines::{Line, Sink, Source, push_text, write_whole};
use trace_answers::CommentNote;

/// Returns whether a mode is machine mode.
fn is_machine(mode: Mode) -> bool
    ensures { (result ≡ true) ↔ (mode ≡ Mode.Machine) }
{
    mode == Mode::Machine
}

/// Returns whether the mode is machine mode and the file a boot log, which does not show the locked entries.
fn is_log_of_machine(mode: Mode, bytes: &[u8]) -> bool
    ensures yes { result ≡ true → (mode ≡ Mode.Machine) × (is_boot_log bytes.now ≡ true) }
    ensures no { result ≡ false → mode ≡ Mode.Machine → is_boot_log bytes.now ≡ false }
{
    is_machine(mode) && is_boot_log(bytes)
}

/// Returns the reason why a boot log has no map for machine mode.
fn log_line() -> Line {
    let mut line = Line::new();
    push_text(&mut line, b"a boot log, and '--mode m' is for registers");
    line
}

/// Prints the map of a board's device tree, except for machine mode.
fn print_map_of_tree<'a, W: Sink>(
    alloc: Global,
    file: &'a str,
    mode: Mode,
    bytes: &[u8],
    out: &mut W,
) -> Result<u8, Trouble<'a>>
    ensures { Ends (IsTreeMapped mode bytes.now) (IsTreeUnmapped file.entry mode bytes.now)
        (writing W.contents W.failures W.stalls out.old out.new) result }
{
    if is_machine(mode) {
        return Err(Trouble::NoRegisters { file });
    }
    let text = match map_text_of(alloc, bytes) {
        Ok(text) => text,
        Err(fault) => return Err(board_trouble(file, &fault)),
    };
    write_whole(out, text.as_slice())?;
    Ok(0)
}

/// Prints the map of a board's device tree, or the one that registers mean for a mode, and returns the status 0, or 1
/// if registers mean none, with notes on ignored lines. A file that begins with the magic number of a flattened device
/// tree is read as one. Boot logs and trees have no map for machine mode.
#[inline(never)]
pub(crate) fn do_map<'a, R: Source, W: Sink>(
    alloc: Global,
    file: &'a str,
    options: &Options<'a>,
    first: &mut R,
    out: &mut W,
) -> Result<Answered, Trouble<'a>>
    ensures { let one = reading R.remaining R.failures first.old first.new in
        Ends (IsMapped options.now one) (IsUnmapped file.entry options.now one)
        (writing W.contents W.failures W.stalls out.old out.new) (status_in result) }
{
    let (xlen, mode) = (options.xlen, options.mode);
    let bytes = bytes_in(alloc, file, first, REGISTER_BYTES)?;
    if is_tree(bytes.as_slice()) {
        return quiet(print_map_of_tree(alloc, file, mode, bytes.as_slice(), out));
    }
    if is_log_of_machine(mode, bytes.as_slice()) {
        let said = log_line();
        return Err(Trouble::NoBoardText { file, said });
    }
    match print_map_of(alloc, mode, xlen, bytes.as_slice(), out) {
        Ok(answer) => Ok(noted(
            answer_status(answer.is_map),
            &answer.notes,
            &CommentNote::new(),
        )),
        Err(MapOfFault::TooManyRanges) => Err(Trouble::TooManyRanges { file }),
        Err(MapOfFault::Listing(fault)) => Err(listing_trouble(file, fault)),
    }
}
