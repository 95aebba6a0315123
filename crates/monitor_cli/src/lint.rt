//! `lint`: reports the faults of a map file, a platform file, a listing of registers or a trace.

ghost use Rattle.std.specs.Prelude.{◌≡◌, ◌-◌, ◌^◌, ◌<◌, ℕ, List, IfErr, IfOk, length, true};
ghost use Rattle.input_files.specs.Traces.{is_trace};
ghost use Rattle.input_files.specs.Maps.{IsVerdictOfLines};
ghost use Rattle.program_files.specs.Reading.{reading, HasBytes, HasNoBytes};
ghost use Rattle.monitor_cli.specs.Lints.{names_platform, Finds, HasHarts, HasNoHarts, IsFound, IsListingFound, IsOfDevices, Lints};

use crate::platform_inputs::read_platform;
use command_line::{LintKind, Options};
use file_hints::{FileKind, likely_kind, listing_reason};
use input_files::{Taker, lint_platform, lint_trace};
use pmp_encoding::Xlen;
use program_files::{MAP_BYTES, REGISTER_BYTES, Trouble, bytes_in, shown, text_of, write_named};
use register_audit::listing_of;
use std::alloc::{AllocError, Global};
use text_lines::{Counted, DeviceFault, Sink, Source, push, push_number, write_whole};

/// Maximum size in bytes of a trace to lint.
pub const TRACE_BYTES: usize = 1 << 30;

/// Returns whether a file should be a platform according to its name, which ends in `.toml`.
pub(crate) fn names_platform(name: &str) -> bool
    ensures { result ≡ names_platform name.now }
{
    name.as_bytes().ends_with(b".toml")
}

/// Prints the likely kind of a file, if it is not the expected one. Returns whether nothing was printed.
pub(crate) fn print_kind<W: Sink>(
    name: &str,
    expected: FileKind,
    bytes: &[u8],
    out: &mut W,
) -> Result<bool, DeviceFault> {
    match likely_kind(bytes) {
        Some(kind) if kind != expected => {
            write_named(out, "", name, &[": ", kind.text(), "\n"])?;
            Ok(false)
        }
        _ => Ok(true),
    }
}

/// Prints the findings in a file. If it is invalid and likely to be of another kind, prints that kind instead.
fn print_findings<W: Sink>(
    name: &str,
    expected: FileKind,
    bytes: &[u8],
    is_valid: bool,
    findings: &[u8],
    out: &mut W,
) -> Result<(), DeviceFault> {
    if is_valid || print_kind(name, expected, bytes, out)? {
        write_whole(out, findings)?;
    }
    Ok(())
}

/// Prints the faults of a map file, and returns whether it is a map.
pub(crate) fn lint_map<W: Sink>(
    alloc: Global,
    name: &str,
    bytes: &[u8],
    out: &mut W,
) -> Result<bool, Trouble<'static>>
    requires { length bytes.now < 2 ^ 64 - 1 }
    ensures found { IfOk result (IsVerdictOfLines bytes.now) }
    ensures stopped { IfErr result IsOfDevices }
{
    let printed = shown(alloc, name.as_bytes())?;
    let mut held = Counted::new(Vec::new(alloc));
    match input_files::lint_map(alloc, text_of(printed.as_slice()), bytes, &mut held) {
        Ok(is_map) => {
            let findings = held.into_inner();
            print_findings(name, FileKind::Map, bytes, is_map, findings.as_slice(), out)?;
            Ok(is_map)
        }
        Err(_) => Err(Trouble::Memory),
    }
}

/// Prints the faults of a platform file, or warnings about a platform, and returns whether it is one.
pub(crate) fn lint_as_platform<W: Sink>(
    alloc: Global,
    name: &str,
    bytes: &[u8],
    out: &mut W,
) -> Result<bool, Trouble<'static>>
    ensures found { IfOk result (IsFound true bytes.now) }
    ensures stopped { IfErr result IsOfDevices }
{
    let printed = shown(alloc, name.as_bytes())?;
    let mut held = Counted::new(Vec::new(alloc));
    match lint_platform(alloc, text_of(printed.as_slice()), bytes, &mut held) {
        Ok(is_platform) => {
            let findings = held.into_inner();
            print_findings(
                name,
                FileKind::Platform,
                bytes,
                is_platform,
                findings.as_slice(),
                out,
            )?;
            Ok(is_platform)
        }
        Err(_) => Err(Trouble::Memory),
    }
}

/// Prints the faults of a trace for this command, and returns whether it is one.
pub(crate) fn lint_as_trace<W: Sink>(
    alloc: Global,
    name: &str,
    bytes: &[u8],
    taker: Taker,
    out: &mut W,
) -> Result<bool, Trouble<'static>>
    requires { length bytes.now < 2 ^ 64 - 1 }
    ensures found { IfOk result (λ is. is ≡ is_trace taker bytes.now) }
    ensures stopped { IfErr result IsOfDevices }
{
    let printed = shown(alloc, name.as_bytes())?;
    let mut held = Counted::new(Vec::new(alloc));
    match lint_trace(alloc, text_of(printed.as_slice()), bytes, taker, &mut held) {
        Ok(is_trace) => {
            let findings = held.into_inner();
            print_findings(
                name,
                FileKind::Trace,
                bytes,
                is_trace,
                findings.as_slice(),
                out,
            )?;
            Ok(is_trace)
        }
        Err(_) => Err(Trouble::Memory),
    }
}

/// Returns the line for the first invalid line of a listing of registers.
fn listing_line(
    alloc: Global,
    xlen: Xlen,
    name: &str,
    bytes: &[u8],
    line: u64,
) -> Result<Vec<u8>, AllocError>
    requires { length bytes.now < 2 ^ 64 - 1 }
{
    let mut text = shown(alloc, name.as_bytes())?;
    push(&mut text, ":")?;
    push_number(&mut text, line)?;
    push(&mut text, ":1: ")?;
    let reason = listing_reason(alloc, xlen, bytes, line)?;
    text.extend_from_slice(reason.as_slice())?;
    push(&mut text, "\n")?;
    Ok(text)
}

/// Prints the first invalid line of a listing of registers with this width, and returns whether all are valid.
pub(crate) fn lint_listing<W: Sink>(
    alloc: Global,
    xlen: Xlen,
    name: &str,
    bytes: &[u8],
    out: &mut W,
) -> Result<bool, Trouble<'static>>
    requires { length bytes.now < 2 ^ 64 - 1 }
    ensures found { IfOk result (IsListingFound xlen bytes.now) }
    ensures stopped { IfErr result IsOfDevices }
{
    match listing_of(xlen, bytes) {
        Ok(_) => Ok(true),
        Err(line) => {
            let text = listing_line(alloc, xlen, name, bytes, line)?;
            print_findings(name, FileKind::Listing, bytes, false, text.as_slice(), out)?;
            Ok(false)
        }
    }
}

/// Returns the number of harts for a trace: that of a platform if one is named, otherwise four.
fn harts_in<'a, R: Source>(
    alloc: Global,
    platform: Option<&'a str>,
    source: &mut R,
) -> Result<u8, Trouble<'a>>
    ensures has { IfOk result (HasHarts platform.entry
        (reading R.remaining R.failures source.old source.new)) }
    ensures refused { IfErr result (HasNoHarts platform.entry
        (reading R.remaining R.failures source.old source.new)) }
{
    let Some(file) = platform else {
        return Ok(4);
    };
    let platform = read_platform(alloc, file, source)?;
    Ok(platform.harts())
}

/// Prints the faults of a file that should be a platform if its name ends in `.toml`, otherwise a map.
fn lint_by_name<'a, R: Source, W: Sink>(
    alloc: Global,
    file: &'a str,
    first: &mut R,
    out: &mut W,
) -> Result<bool, Trouble<'a>>
    ensures { let one = reading R.remaining R.failures first.old first.new in
        Finds (λ is. (bytes : List ℕ) × HasBytes (2 ^ 20) one bytes
        × IsFound (names_platform file.entry.now) bytes is)
        (HasNoBytes (2 ^ 20) file.entry one) result }
{
    let bytes = bytes_in(alloc, file, first, MAP_BYTES)?;
    if names_platform(file) {
        lint_as_platform(alloc, file, bytes.as_slice(), out)
    } else {
        lint_map(alloc, file, bytes.as_slice(), out)
    }
}

/// Prints the faults of a file line by line, and returns whether it is valid: as a platform if its name ends in
/// `.toml`, otherwise as a map, or according to the options as a listing of registers or as a trace, for the harts of a
/// platform if one is named.
#[inline(never)]
pub(crate) fn do_lint<'a, R: Source, W: Sink>(
    alloc: Global,
    file: &'a str,
    platform: Option<&'a str>,
    options: &Options<'a>,
    first: &mut R,
    second: &mut R,
    out: &mut W,
) -> Result<bool, Trouble<'a>>
    ensures { let source = reading R.remaining R.failures in
        Lints options.now.kind options.now.xlen file.entry platform.entry
        (source first.old first.new) (source second.old second.new) result }
{
    match options.kind {
        LintKind::ByName => lint_by_name(alloc, file, first, out),
        LintKind::Registers => {
            let bytes = bytes_in(alloc, file, first, REGISTER_BYTES)?;
            lint_listing(alloc, options.xlen, file, bytes.as_slice(), out)
        }
        LintKind::Trace => {
            let harts = harts_in(alloc, platform, second)?;
            let bytes = bytes_in(alloc, file, first, TRACE_BYTES)?;
            lint_as_trace(alloc, file, bytes.as_slice(), Taker::Run { harts }, out)
        }
    }
}
