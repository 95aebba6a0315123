//! Reads a file whole before it is used.

ghost use Rattle.std.specs.Prelude.{◌≡◌, ◌≢◌, ℕ, ◌+◌, ◌-◌, ◌^◌, ◌<◌, ◌≤◌, ◌++◌, List, IfOk, OnOk, Ok, Err, true, false, length};
ghost use Rattle.std.specs.Io.KnownBytes.{Consumes, IsAtEnd};
ghost use Rattle.text_lines.specs.Streams.{GrowsByOne, CountsFailure};

use std::alloc::{AllocError, Global};
use text_lines::{DeviceFault, Source, SourceFault};

/// Number of bytes to request from a source at a time.
const PIECE: usize = 16384;

/// Capacity to allocate with the first byte: above 128 KiB, so that the C library returns the block to the system when
/// it is dropped. A smaller block would stay in the process.
const ROOM: usize = 128 * 1024 + 1;

/// Appends a piece.
fn append(bytes: &mut Vec<u8>, piece: &[u8]) -> Result<(), AllocError>
    ensures { OnOk result (bytes.new.items ≡ bytes.old.items ++ piece.now) }
{
    if bytes.is_empty() {
        bytes.reserve(ROOM)?;
    }
    bytes.extend_from_slice(piece)
}

/// Returns all bytes of a source, which may have at most `most`. Fails with `Read` iff the device failed in this call,
/// and with `Memory` only if there were bytes.
pub fn read_whole<R: Source>(
    alloc: Global,
    source: &mut R,
    most: usize,
) -> Result<Vec<u8>, SourceFault>
    requires most { most < 2 ^ 32 }
    ensures whole { IfOk result (λ bytes.
        Consumes (R.remaining source.old) (R.remaining source.new) bytes.items) }
    ensures at_end { IfOk result (λ bytes. IsAtEnd (R.remaining source.new)) }
    ensures most { IfOk result (λ bytes. length bytes.items ≤ most) }
    ensures large { result ≡ Err SourceFault.TooLarge
        → (bytes : List ℕ) × Consumes (R.remaining source.old) (R.remaining source.new) bytes
        × (most < length bytes) }
    ensures failed { result ≡ Err SourceFault.Read
        → GrowsByOne (R.failures source.old) (R.failures source.new) }
    ensures well { result ≢ Err SourceFault.Read
        → R.failures source.new ≡ R.failures source.old }
    ensures memory { result ≡ Err SourceFault.Memory
        → (bytes : List ℕ) × Consumes (R.remaining source.old) (R.remaining source.new) bytes
        × (0 < length bytes) }
{
    let mut bytes = Vec::new(alloc);
    let mut piece = [0; PIECE];
    while bytes.len() <= most {
        let Ok(n) = source.read(&mut piece) else {
            return Err(SourceFault::Read);
        };
        if n == 0 {
            return Ok(bytes);
        }
        let Ok(()) = append(&mut bytes, &piece[..n]) else {
            return Err(SourceFault::Memory);
        };
    }
    Err(SourceFault::TooLarge)
}

/// Returns whether a source has more than `most` bytes. They are read and dropped, without allocating. Fails iff the
/// device failed in this call.
pub fn has_more<R: Source>(source: &mut R, most: usize) -> Result<bool, DeviceFault>
    requires most { most < 2 ^ 32 }
    ensures more { result ≡ Ok true
        → (bytes : List ℕ) × Consumes (R.remaining source.old) (R.remaining source.new) bytes
        × (most < length bytes) }
    ensures fits { result ≡ Ok false
        → (bytes : List ℕ) × Consumes (R.remaining source.old) (R.remaining source.new) bytes
        × IsAtEnd (R.remaining source.new)
        × (length bytes ≤ most) }
    ensures failures { CountsFailure result (R.failures source.old) (R.failures source.new) }
{
    let mut piece = [0; PIECE];
    let mut count = 0;
    while count <= most {
        let n = source.read(&mut piece)?;
        if n == 0 {
            return Ok(false);
        }
        count += n;
    }
    Ok(true)
}
