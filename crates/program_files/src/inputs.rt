//! The files that a task reads whole: raw bytes and maps.

ghost use Rattle.std.specs.Prelude.{◌≡◌, ◌-◌, ◌^◌, ◌<◌, IfErr, IfOk, length};
ghost use Rattle.program_files.specs.Reading.{reading, HasBytes, HasMap, HasNoBytes, HasNoMap, IsMapFault};
ghost use Rattle.map_text.specs.MapFile.{Makes};
ghost use Rattle.map_text.specs.declared.map_file.MapFileFault.{MapFileFault};
ghost use Rattle.program_files.specs.Troubles.{map_trouble};

use crate::trouble::Trouble;
use crate::whole::read_whole;
use map_text::{MAP_BYTES, map_of};
use permission_map::PermissionMap;
use std::alloc::Global;
use text_lines::Source;

/// Maximum size of a register listing in bytes.
pub const REGISTER_BYTES: usize = 1 << 20;

/// Maximum size of a certificate in bytes.
pub const CERTIFICATE_BYTES: usize = 1 << 26;

/// Returns the bytes of a file, which may have at most `most`.
#[tactic(auto, using(crate::proofs::Refusals::no_bytes))]
pub fn bytes_in<'a, R: Source>(
    alloc: Global,
    file: &'a str,
    source: &mut R,
    most: usize,
) -> Result<Vec<u8>, Trouble<'a>>
    requires most { most < 2 ^ 32 }
    ensures whole { IfOk result (λ bytes.
        HasBytes most (reading R.remaining R.failures source.old source.new) bytes.items) }
    ensures refused { IfErr result
        (HasNoBytes most file.entry (reading R.remaining R.failures source.old source.new)) }
{
    match read_whole(alloc, source, most) {
        Ok(bytes) => Ok(bytes),
        Err(fault) => Err(Trouble::of_source(file, fault)),
    }
}

/// Parses the bytes of a map file.
pub fn map_by<'a>(alloc: Global, file: &'a str, bytes: &[u8]) -> Result<PermissionMap, Trouble<'a>>
    requires { length bytes.now < 2 ^ 64 - 1 }
    ensures made { IfOk result (Makes bytes.now) }
    ensures refused { IfErr result (λ trouble. (fault : MapFileFault)
        × IsMapFault bytes.now fault × (trouble ≡ map_trouble file.entry fault)) }
{
    match map_of(alloc, bytes) {
        Ok(map) => Ok(map),
        Err(fault) => Err(Trouble::of_map(file, fault)),
    }
}

/// Reads and parses a map file.
pub fn map_in<'a, R: Source>(
    alloc: Global,
    file: &'a str,
    source: &mut R,
) -> Result<PermissionMap, Trouble<'a>>
    ensures made { IfOk result (HasMap (reading R.remaining R.failures source.old source.new)) }
    ensures refused { IfErr result (HasNoMap file.entry
        (reading R.remaining R.failures source.old source.new)) }
{
    let bytes = bytes_in(alloc, file, source, MAP_BYTES)?;
    map_by(alloc, file, bytes.as_slice())
}
