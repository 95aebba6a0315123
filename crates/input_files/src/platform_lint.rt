//! The lint of a platform file.

ghost use Rattle.std.specs.Prelude.{◌≡◌, Bool, List, ℕ, Err, IfOk};
ghost use Rattle.text_lines.specs.Writings.{writing, Breaks, TakesAll};
ghost use Rattle.toml.specs.Errors.{IsMemory, IsWithin, span_start};
ghost use Rattle.input_files.specs.Platforms.{IsPlatformVerdict, IsTextVerdict};
ghost use Rattle.input_files.specs.declared.lint_fault.LintFault as LintFault;

use crate::LintFault;
use crate::breach::Breach;
use crate::fault::DocumentFault;
use crate::key_places::place_of;
use crate::platform::read_platform;
use crate::platform_words::push_breach;
use crate::positions::{push_found, push_position};
use crate::warnings::warnings;
use std::alloc::{AllocError, Global};
use std::str;
use text_lines::{Sink, push, write_whole};
use toml::de::Error;

/// Returns the number of bytes of a text before the place of a syntax error.
fn start_of(error: &Error) -> usize
    requires { ¬ IsMemory error.now }
    ensures { result ≡ span_start error.now }
{
    match error.span() {
        Some(span) => span.start,
        None => unreachable!(),
    }
}

/// Returns the line for a text that is not a document: the place of the syntax error and the parser's message.
fn syntax_line(alloc: Global, name: &str, text: &str, error: &Error) -> Result<Vec<u8>, AllocError>
    requires within { IsWithin text.now error.now }
    requires syntax { ¬ IsMemory error.now }
{
    let mut line = Vec::new(alloc);
    push(&mut line, name)?;
    push_position(&mut line, text, start_of(error))?;
    push(&mut line, error.message())?;
    push(&mut line, "\n")?;
    Ok(line)
}

/// Returns the line for the first breach of a document.
fn breach_line(
    alloc: Global,
    name: &str,
    text: &str,
    breach: Breach<'_>,
) -> Result<Vec<u8>, AllocError> {
    let mut line = Vec::new(alloc);
    push(&mut line, name)?;
    push_found(&mut line, text, place_of(text, &breach))?;
    push_breach(&mut line, breach)?;
    push(&mut line, "\n")?;
    Ok(line)
}

/// Returns the line for bytes that are not UTF-8.
fn no_text(alloc: Global, name: &str) -> Result<Vec<u8>, AllocError> {
    let mut line = Vec::new(alloc);
    push(&mut line, name)?;
    push(&mut line, ": not UTF-8\n")?;
    Ok(line)
}

/// Returns whether a text is a platform, and the lines to write.
fn lint_text(alloc: Global, name: &str, text: &str) -> Result<(bool, Vec<u8>), AllocError>
    ensures { IfOk result (λ answer. IsTextVerdict text.now answer.0) }
{
    let document = match toml::table_from_str(alloc, text) {
        Ok(document) => document,
        Err(error) => {
            if error.is_memory() {
                return Err(AllocError);
            }
            let line = syntax_line(alloc, name, text, &error)?;
            return Ok((false, line));
        }
    };
    match read_platform(alloc, &document) {
        Ok((form, _)) => Ok((true, warnings(alloc, name, text, form.devices.as_slice())?)),
        Err(DocumentFault::Memory) => Err(AllocError),
        Err(DocumentFault::Breach(breach)) => Ok((false, breach_line(alloc, name, text, breach)?)),
    }
}

/// Returns whether bytes are a platform, and the lines to write.
fn lint_bytes(alloc: Global, name: &str, bytes: &[u8]) -> Result<(bool, Vec<u8>), AllocError>
    ensures { IfOk result (λ answer. IsPlatformVerdict bytes.now answer.0) }
{
    match str::from_utf8(bytes) {
        Ok(text) => lint_text(alloc, name, text),
        Err(_) => Ok((false, no_text(alloc, name)?)),
    }
}

/// Writes the findings in a platform file, and returns whether it is a platform: if it is, a warning for each
/// DMA-capable device that its devices contain, otherwise the first reason why it is not, on one line. If an allocation
/// fails, nothing was written.
pub fn lint_platform<W: Sink>(
    alloc: Global,
    name: &str,
    bytes: &[u8],
    out: &mut W,
) -> Result<bool, LintFault>
    ensures verdict { IfOk result (IsPlatformVerdict bytes.now) }
    ensures written { IfOk result (λ is_platform. (text : List ℕ)
        × TakesAll text (writing W.contents W.failures W.stalls out.old out.new)) }
    ensures untouched { result ≡ Err LintFault.Memory → out.new ≡ out.old }
    ensures broken { result ≡ Err LintFault.Device → (is_platform : Bool)
        × IsPlatformVerdict bytes.now is_platform × (text : List ℕ)
        × Breaks text (writing W.contents W.failures W.stalls out.old out.new) }
{
    let Ok((is_platform, text)) = lint_bytes(alloc, name, bytes) else {
        return Err(LintFault::Memory);
    };
    let Ok(()) = write_whole(out, text.as_slice()) else {
        return Err(LintFault::Device);
    };
    Ok(is_platform)
}
