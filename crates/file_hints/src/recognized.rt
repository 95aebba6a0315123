//! Recognizes files by their contents.

ghost use Rattle.std.specs.Prelude.{◌≡◌, ◌-◌, ◌^◌, ◌<◌, ℕ, IfNone, IfOk, IfSome, List, Ok, length, true};
ghost use Rattle.permission_map.specs.declared.runs.Run.{Run};
ghost use Rattle.map_text.specs.MapFile.{Makes};
ghost use Rattle.file_hints.specs.Kinds.{IsOfKind, IsUnlisted};

use crate::kinds::FileKind;
use board_texts::is_tree;
use hart_trace::parse_line;
use input_files::{TextFault, platform_of};
use map_text::{MAP_BYTES, MapFileFault, map_of, raw_says};
use pmp_encoding::Xlen;
use register_audit::{Setting, is_listing, line_sets};
use std::alloc::{AllocError, Global};
use std::str;
use text_lines::{LONGEST, Source, content_of, next_word, split_line, without_return};

/// Number of harts that a line of a trace may name.
const HARTS: u8 = 4;

/// Size in bytes of the pieces in which a file is read.
const PIECE: usize = 4096;

/// The first bytes of a file.
#[derive(Drop)]
pub struct Front {
    /// The bytes.
    pub bytes: Vec<u8>,
    /// True if the file has no other bytes.
    pub is_whole: bool,
}

impl Front {
    /// Returns the bytes without a line that is cut off at their end.
    pub fn whole_lines(&self) -> &[u8] {
        let bytes = self.bytes.as_slice();
        if self.is_whole {
            return bytes;
        }
        let mut len = bytes.len();
        while len > 0 && bytes[len - 1] != b'\n' {
            len -= 1;
        }
        &bytes[..len]
    }
}

/// Reads at most `pieces` pieces of up to 4096 bytes from the front of a file. Returns `None` if it cannot be read.
pub fn front_of<R: Source>(
    alloc: Global,
    source: &mut R,
    pieces: usize,
) -> Result<Option<Front>, AllocError> {
    let mut bytes = Vec::new(alloc);
    let mut piece = [0; PIECE];
    for _ in 0..pieces {
        let Ok(n) = source.read(&mut piece) else {
            return Ok(None);
        };
        if n == 0 {
            return Ok(Some(Front {
                bytes,
                is_whole: true,
            }));
        }
        bytes.extend_from_slice(&piece[..n])?;
    }
    Ok(Some(Front {
        bytes,
        is_whole: false,
    }))
}

/// Number of pieces of the largest map, platform, listing or device tree, and one more.
const PIECES: usize = 257;

/// Returns whether a line sets the permission of a range of a map.
fn is_setting(raw: &[u8]) -> bool {
    matches!(raw_says(raw), Ok(Some(_)))
}

/// Returns whether a line is an event of a trace.
fn is_event(raw: &[u8]) -> bool {
    raw.len() <= LONGEST && matches!(parse_line(without_return(raw), HARTS), Ok(Some(_)))
}

/// Returns whether a line has no words.
fn is_idle(raw: &[u8]) -> bool {
    next_word(content_of(without_return(raw)), 0).is_none()
}

/// Returns the first line with words, or an empty one.
fn first_line(bytes: &[u8]) -> &[u8] {
    let mut rest = bytes;
    while !rest.is_empty() {
        let (raw, behind) = split_line(rest);
        if !is_idle(raw) {
            return raw;
        }
        rest = behind;
    }
    &[]
}

/// Returns whether a line begins with a text.
fn has_line(bytes: &[u8], text: &[u8]) -> bool {
    let mut rest = bytes;
    while !rest.is_empty() {
        let (raw, behind) = split_line(rest);
        if raw.starts_with(text) {
            return true;
        }
        rest = behind;
    }
    false
}

/// Returns whether bytes are the lines of a trace, with an event. The last line may be cut off if `is_whole` is false.
fn are_events(bytes: &[u8], is_whole: bool) -> bool {
    let mut rest = bytes;
    let mut has_event = false;
    while !rest.is_empty() {
        let (raw, behind) = split_line(rest);
        if behind.is_empty() && !is_whole {
            return has_event;
        }
        if is_event(raw) {
            has_event = true;
        } else if !is_idle(raw) {
            return false;
        }
        rest = behind;
    }
    has_event
}

/// Returns whether bytes are the lines of a map, one of which sets a permission.
fn is_map(alloc: Global, bytes: &[u8]) -> Result<bool, AllocError>
    requires { length bytes.now < 2 ^ 64 - 1 }
    ensures { result ≡ Ok true → (runs : List Run) × Makes bytes.now runs }
{
    match map_of(alloc, bytes) {
        Ok(_) => Ok(is_setting(first_line(bytes))),
        Err(MapFileFault::Memory) => Err(AllocError),
        Err(_) => Ok(false),
    }
}

/// Returns whether bytes are a platform.
fn is_platform(alloc: Global, bytes: &[u8]) -> Result<bool, AllocError> {
    let Ok(text) = str::from_utf8(bytes) else {
        return Ok(false);
    };
    match platform_of(alloc, text) {
        Ok(_) => Ok(true),
        Err(TextFault::NotAPlatform) => Ok(false),
        Err(TextFault::Memory) => Err(AllocError),
    }
}

/// Returns the kind of an input that these bytes are as a whole.
fn whole_kind(alloc: Global, bytes: &[u8]) -> Result<Option<FileKind>, AllocError>
    requires { length bytes.now < 2 ^ 64 - 1 }
    ensures kind { IfOk result (λ kind. IfSome kind (IsOfKind bytes.now)) }
    ensures unlisted { IfOk result (λ kind. IfNone kind (IsUnlisted bytes.now)) }
{
    if is_tree(bytes) {
        return Ok(Some(FileKind::Tree));
    }
    if is_map(alloc, bytes)? {
        return Ok(Some(FileKind::Map));
    }
    if is_platform(alloc, bytes)? {
        return Ok(Some(FileKind::Platform));
    }
    if is_listing(Xlen::Rv64, bytes) || is_listing(Xlen::Rv32, bytes) {
        return Ok(Some(FileKind::Listing));
    }
    Ok(None)
}

/// Returns the kind of the input that a file is, if a command reads it without an error: a map or a trace with a line of
/// words, a platform, a listing of registers, or a device tree. Of a larger file only the first MiB is read. A file that
/// cannot be read has no kind.
pub fn input_kind<R: Source>(
    alloc: Global,
    source: &mut R,
) -> Result<Option<FileKind>, AllocError> {
    let Some(front) = front_of(alloc, source, PIECES)? else {
        return Ok(None);
    };
    let bytes = front.bytes.as_slice();
    if front.is_whole && bytes.len() <= MAP_BYTES {
        if let Some(kind) = whole_kind(alloc, bytes)? {
            return Ok(Some(kind));
        }
    }
    if are_events(bytes, front.is_whole) {
        return Ok(Some(FileKind::Trace));
    }
    Ok(None)
}

/// Returns the kind of a file with a magic number.
fn kind_by_magic(bytes: &[u8]) -> Option<FileKind> {
    if is_tree(bytes) {
        return Some(FileKind::Tree);
    }
    if bytes.starts_with(b"PMPC") {
        return Some(FileKind::Certificate);
    }
    if bytes.starts_with(b"\x7fELF") {
        return Some(FileKind::Elf);
    }
    None
}

/// Returns whether a line sets a PMP register of a hart with this width.
fn sets_register(xlen: Xlen, raw: &[u8]) -> bool {
    match line_sets(xlen, without_return(raw)) {
        Ok(setting) => matches!(
            setting,
            Setting::Count { .. }
                | Setting::Pair { .. }
                | Setting::Address { .. }
                | Setting::Word { .. }
        ),
        Err(_) => false,
    }
}

/// Returns the likely kind of a file, by its first bytes or its first line with words.
pub fn likely_kind(bytes: &[u8]) -> Option<FileKind> {
    if let Some(kind) = kind_by_magic(bytes) {
        return Some(kind);
    }
    let line = first_line(bytes);
    if is_event(line) {
        return Some(FileKind::Trace);
    }
    if is_setting(line) {
        return Some(FileKind::Map);
    }
    if sets_register(Xlen::Rv64, line) || sets_register(Xlen::Rv32, line) {
        return Some(FileKind::Listing);
    }
    if has_line(bytes, b"/dts-v1/") {
        return Some(FileKind::TreeSource);
    }
    if has_line(bytes, b"[monitor]") {
        return Some(FileKind::Platform);
    }
    None
}
